//! One map, with a slot for each of its keys.
ghost use Rattle.std.specs.Prelude.{◌≡◌, replicate, IfOk, None};
ghost use Rattle.std.specs.FinMap.{get};
ghost use Rattle.sync_model.specs.declared.item.SharedReply.TheVariants as replies;
ghost use Rattle.sync_types.specs.KeyCalls.{key_reply, is_key_entry, key_after};
ghost use Rattle.shared_plain.specs.Slots.{map_of, slots_after, next_pair};
ghost use Rattle.shared_plain.specs.PlainMachine.{map_answer};

use crate::event::Answered;
use std::alloc::{AllocError, Global};
use std::marker::Model;
use sync_model::SharedReply;
use sync_types::laws::maps::its_key_decides_a_call;
use sync_types::map_object::settled;
use sync_types::{MapCall, MapReply};

/// A map whose keys are the numbers below a limit. Contracts see a list with each key's value, if it has one.
#[derive(Drop)]
pub struct Slots {
    values: Vec<Option<u64>>,
}

impl Model for Slots {
    ghost use Rattle.std.specs.Prelude.{ℕ, ◌<◌, ◌^◌, List, Option, length};

    ghost Value = { List (Option ℕ) };

    ghost view = { λ s. s.values.items };

    ghost invariant = { λ s. length s.values.items < 2 ^ 32 };
}

impl Slots {
    /// A map with a slot for each key below `keys`, none of which has a value. This call alone takes memory.
    pub fn new(alloc: Global, keys: u32) -> Result<Self, AllocError>
        ensures { IfOk result (λ slots. slots ≡ replicate keys None) }
    {
        Ok(Slots {
            values: vec![in alloc; None; keys as usize]?,
        })
    }

    /// Makes a call, where its key has a slot: it is answered as `sync.Map` answers one thread.
    pub fn apply(&mut self, call: MapCall<u32>) -> Option<Answered>
        ensures answer { result ≡ map_answer call self.old }
        ensures after { self.new ≡ slots_after call self.old }
    {
        its_key_decides_a_call::<u32>();
        let Some(key) = call.key() else {
            self.clear();
            return Some(Answered {
                reply: SharedReply::Map(MapReply::Done),
                entry: true,
            });
        };
        let slot = self.values.get_mut(*key as usize)?;
        Some(apply_at(slot, call))
    }

    /// The value of a key, if it has one.
    pub fn value(&self, key: u32) -> Option<u64>
        ensures { result ≡ get (map_of self.now) key }
    {
        *self.values.get(key as usize)?
    }

    /// The least key that has a value and is at least `from`, with the value.
    pub fn next_pair(&self, from: u32) -> Option<(u32, u64)>
        ensures { result ≡ next_pair from self.now }
    {
        for key in from as usize..self.values.len() {
            if let Some(value) = self.values[key] {
                return Some((key as u32, value));
            }
        }
        None
    }

    // Removes every key.
    fn clear(&mut self)
        ensures { self.new ≡ slots_after MapCall.Clear self.old }
    {
        self.values.fill(None);
    }
}

// Makes a call on a key, whose slot this is.
fn apply_at(slot: &mut Option<u64>, call: MapCall<u32>) -> Answered
    ensures reply { result.reply ≡ replies.Map (key_reply call slot.old) }
    ensures entry { result.entry ≡ is_key_entry call slot.old }
    ensures after { slot.new ≡ key_after call slot.old }
{
    let held = *slot;
    let (reply, entry) = match call {
        MapCall::Load { .. } => (MapReply::Found(held), false),
        MapCall::Store { value, .. } => {
            *slot = Some(value);
            (MapReply::Done, true)
        }
        MapCall::LoadOrStore { value, .. } => {
            *slot = held.or(Some(value));
            (settled(held, value), held.is_none())
        }
        MapCall::LoadAndDelete { .. } => {
            *slot = None;
            (MapReply::Found(held), held.is_some())
        }
        MapCall::Delete { .. } => {
            *slot = None;
            (MapReply::Done, held.is_some())
        }
        MapCall::Swap { value, .. } => {
            *slot = Some(value);
            (MapReply::Found(held), true)
        }
        MapCall::CompareAndSwap { old, new, .. } => {
            let is_old = held == Some(old);
            if is_old {
                *slot = Some(new);
            }
            (MapReply::Compared(is_old), is_old)
        }
        MapCall::CompareAndDelete { old, .. } => {
            let is_old = held == Some(old);
            if is_old {
                *slot = None;
            }
            (MapReply::Compared(is_old), is_old)
        }
        MapCall::Clear => {
            *slot = None;
            (MapReply::Done, true)
        }
    };
    Answered {
        reply: SharedReply::Map(reply),
        entry,
    }
}
