//! The calls on maps and atomics, as a list spells them: each is one item.
ghost use Rattle.std.specs.Prelude.{◌≡◌, ◌≤◌, Bool, Option, length, drop};
ghost use Rattle.sync_model.specs.declared.item.SharedCall.{SharedCall};
ghost use Rattle.sync_model.specs.declared.item.SharedReply.{SharedReply};
ghost use Rattle.sync_types.specs.declared.atomic_object.AtomicCall.TheVariants.{Add};
ghost use Rattle.sync_types.specs.declared.atomic_object.Number.TheVariants.{Int64};
ghost use Rattle.run_cuts.specs.Cuts.{place_cut};
ghost use Rattle.run_cuts.specs.SharedCuts.{is_map_call, is_atomic_call, map_read, atomic_read, sum_read};
ghost use Rattle.list_checks.specs.SpellFound.{IsFound, placed_outcome};

use crate::spell::same::{is_same_atomic_call, is_same_map_call};
use crate::spell::spelt::{Found, Spelt, Stop};
use run_record::Made;
use script_calls::Reply;
use sync_model::{SharedCall, SharedReply};
use sync_types::{AtomicCall, AtomicReply, MapCall, Number};

/// A call on a map or an atomic that is looked for.
pub trait PlacedCall {
    /// What it comes to.
    type Outcome;

    // Whether a call is this one.
    ghost is_call: { Self → SharedCall → Bool };

    // What it comes to by an answer, where that is one of its kind.
    ghost read: { Self → SharedReply → Option Self.Outcome };

    /// Whether a call is this one.
    fn is_call(&self, call: &SharedCall) -> bool
        ensures { result ≡ is_call self.now call.now };

    /// What it comes to by an answer, where that is one of its kind.
    fn read(&self, reply: &SharedReply) -> Option<Self::Outcome>
        ensures { result ≡ read self.now reply.now };
}

/// A call on the map of this number, by the number of its key.
#[derive(Clone, Copy, Drop)]
pub struct CallOnMap {
    pub map: usize,
    pub call: MapCall<u32>,
}

/// A call on the atomic of this number.
#[derive(Clone, Copy, Drop)]
pub struct CallOnAtomic {
    pub atomic: usize,
    pub call: AtomicCall,
}

/// The `add` of an amount to the int64 of this number.
#[derive(Clone, Copy, Drop)]
pub struct AddTo {
    pub atomic: usize,
    pub amount: i64,
}

impl PlacedCall for CallOnMap {
    type Outcome = Reply<u32>;

    ghost is_call = { λ on. is_map_call on.map on.call };

    ghost read = { λ on. map_read };

    fn is_call(&self, call: &SharedCall) -> bool {
        match call {
            SharedCall::Map { map, call } => {
                *map as usize == self.map && is_same_map_call(call, &self.call)
            }
            _ => false,
        }
    }

    fn read(&self, reply: &SharedReply) -> Option<Reply<u32>> {
        match reply {
            SharedReply::Map(reply) => Some(Reply::Map(*reply)),
            _ => None,
        }
    }
}

impl PlacedCall for CallOnAtomic {
    type Outcome = Reply<u32>;

    ghost is_call = { λ on. is_atomic_call on.atomic on.call };

    ghost read = { λ on. atomic_read };

    fn is_call(&self, call: &SharedCall) -> bool {
        match call {
            SharedCall::Atomic { atomic, call } => {
                *atomic as usize == self.atomic && is_same_atomic_call(*call, self.call)
            }
            _ => false,
        }
    }

    fn read(&self, reply: &SharedReply) -> Option<Reply<u32>> {
        match reply {
            SharedReply::Atomic(reply) => Some(Reply::Atomic(*reply)),
            _ => None,
        }
    }
}

impl PlacedCall for AddTo {
    type Outcome = i64;

    ghost is_call = { λ to. is_atomic_call to.atomic (Add (Int64 to.amount)) };

    ghost read = { λ to. sum_read };

    fn is_call(&self, call: &SharedCall) -> bool {
        let add = AtomicCall::Add {
            operand: Number::Int64(self.amount),
        };
        match call {
            SharedCall::Atomic { atomic, call } => {
                *atomic as usize == self.atomic && is_same_atomic_call(*call, add)
            }
            _ => false,
        }
    }

    fn read(&self, reply: &SharedReply) -> Option<i64> {
        match reply {
            SharedReply::Atomic(AtomicReply::Held(Number::Int64(sum))) => Some(*sum),
            _ => None,
        }
    }
}

/// The placed call with which a list goes on behind a place.
pub fn spell_placed<C: PlacedCall>(call: &C, items: &[Made], from: usize) -> Found<C::Outcome>
    requires { from ≤ length items.now }
    ensures { IsFound items.now from (place_cut (C.is_call call.now) (C.read call.now) (drop from items.now)) result }
{
    let Some(item) = items.get(from) else {
        return Err(Stop::Within);
    };
    match read_placed(call, item) {
        Some(outcome) => Ok(Spelt {
            end: from + 1,
            outcome,
        }),
        None => Err(Stop::Wrong),
    }
}

// What the call comes to by an item, where that is the call.
fn read_placed<C: PlacedCall>(call: &C, item: &Made) -> Option<C::Outcome>
    ensures { result ≡ placed_outcome (C.is_call call.now) (C.read call.now) item.now }
{
    match item {
        Made::Shared(placed) => {
            if call.is_call(&placed.call) {
                call.read(&placed.reply)
            } else {
                None
            }
        }
        Made::Entered { .. } => None,
    }
}
