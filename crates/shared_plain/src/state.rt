//! The maps and atomics that callers share, as one thread has them.
ghost use Rattle.std.specs.Prelude.{◌≡◌, ℕ, ◌<◌, false, length, map, replicate, slice_get, IfOk, None};
ghost use Rattle.sync_types.specs.declared.atomic_object.Number.{Number};
ghost use Rattle.sync_types.specs.SequentialAtomic.{zero_of, is_of, has_bits, is_atomic_call, is_atomic_entry, atomic_reply};
ghost use Rattle.shared_plain.specs.MapWalks.{IsNextPair};
ghost use Rattle.shared_plain.specs.PlainMachine.{contents_of, first_holdings, next, atomic_answer, number_after};

use crate::event::{Answered, Event};
use crate::slots::Slots;
use std::alloc::{AllocError, Global};
use std::marker::Model;
use sync_model::SharedReply;
use sync_types::atomic_object::apply;
use sync_types::{AtomicCall, AtomicKind, AtomicReply, Number};

/// So many maps, and an atomic of each of some types.
#[derive(Drop)]
pub struct PlainState {
    pub(crate) maps: Vec<Slots>,
    pub(crate) numbers: Vec<Number>,
}

impl Model for PlainState {
    ghost use Rattle.shared_plain.specs.PlainMachine.{Holdings};

    ghost Value = { Holdings };

    ghost view = { λ s. record { maps = s.maps.items; numbers = s.numbers.items } };
}

impl PlainState {
    /// Maps of the keys below `keys`, all empty, and atomics that are 0, or false. This call alone takes memory.
    pub fn new(
        alloc: Global,
        maps: u32,
        keys: u32,
        kinds: &[AtomicKind],
    ) -> Result<Self, AllocError>
        ensures { IfOk result (λ state. state ≡ first_holdings maps keys kinds.now) }
    {
        Ok(PlainState {
            maps: empty_maps(alloc, maps, keys)?,
            numbers: zeros(alloc, kinds)?,
        })
    }

    /// What an atomic holds, if there is one of this number.
    pub fn number(&self, atomic: u32) -> Option<Number>
        ensures { result ≡ slice_get self.now.numbers atomic }
    {
        self.numbers.get(atomic as usize).copied()
    }

    /// The least key of a map that is there and is at least `from`, with its value: a first step from 0, and each further
    /// one from behind the last key, give all pairs of the map in order.
    pub fn next_pair(&self, map: u32, from: u32) -> Option<(u32, u64)>
        requires map { map < length self.now.maps }
        ensures { IsNextPair (contents_of self.now) map from result }
    {
        self.maps[map as usize].next_pair(from)
    }

    /// What an event does. One that names no map or atomic that is here, a key without a slot, or a number that isn't of
    /// the atomic's type, changes nothing and is answered `None`.
    pub fn step(&mut self, event: Event) -> Option<Answered>
        ensures { (caller : ℕ) → (self.new, result) ≡ next self.old caller event }
    {
        match event {
            Event::Map { map, call } => self.maps.get_mut(map as usize)?.apply(call),
            Event::Begin { map } => {
                self.maps.get(map as usize)?;
                Some(silent(SharedReply::Begun))
            }
            Event::Next { map, from, .. } => {
                let slots = self.maps.get(map as usize)?;
                Some(silent(SharedReply::Shown(slots.next_pair(from))))
            }
            Event::Atomic { atomic, call } => {
                let number = self.numbers.get_mut(atomic as usize)?;
                apply_fitting(number, call)
            }
        }
    }
}

// An answer of a call that is no entry.
fn silent(reply: SharedReply) -> Answered
    ensures { (result.reply ≡ reply) × (result.entry ≡ false) }
{
    Answered {
        reply,
        entry: false,
    }
}

// Makes a call on an atomic, where its type has the call.
fn apply_fitting(number: &mut Number, call: AtomicCall) -> Option<Answered>
    ensures answer { result ≡ atomic_answer call number.old }
    ensures after { number.new ≡ number_after call number.old }
{
    if !has_call(number.kind(), call) {
        return None;
    }
    let reply = apply(number, call);
    Some(Answered {
        reply: SharedReply::Atomic(reply),
        entry: is_entry(call, reply),
    })
}

// Whether a call with this reply is an entry of the shared history.
fn is_entry(call: AtomicCall, reply: AtomicReply) -> bool
    ensures { (held : Number) → reply ≡ atomic_reply call held → result ≡ is_atomic_entry call held }
{
    match call {
        AtomicCall::Load => false,
        AtomicCall::Store { .. } => true,
        AtomicCall::Swap { .. } => true,
        AtomicCall::Add { .. } => true,
        AtomicCall::And { .. } => true,
        AtomicCall::Or { .. } => true,
        AtomicCall::CompareAndSwap { .. } => reply == AtomicReply::Compared(true),
    }
}

/// Whether atomics of a type have a call.
pub fn has_call(kind: AtomicKind, call: AtomicCall) -> bool
    ensures { result ≡ is_atomic_call kind call }
{
    match call {
        AtomicCall::Load => true,
        AtomicCall::Store { value } => is_of(kind, value),
        AtomicCall::Swap { value } => is_of(kind, value),
        AtomicCall::Add { operand } => has_bits(kind) && is_of(kind, operand),
        AtomicCall::And { operand } => has_bits(kind) && is_of(kind, operand),
        AtomicCall::Or { operand } => has_bits(kind) && is_of(kind, operand),
        AtomicCall::CompareAndSwap { old, new } => is_of(kind, old) && is_of(kind, new),
    }
}

// Whether atomics of a type have `Add`, `And` and `Or`.
fn has_bits(kind: AtomicKind) -> bool
    ensures { result ≡ has_bits kind }
{
    match kind {
        AtomicKind::Int32 => true,
        AtomicKind::Int64 => true,
        AtomicKind::Uint32 => true,
        AtomicKind::Uint64 => true,
        AtomicKind::Bool => false,
    }
}

// Whether a number is of a type.
fn is_of(kind: AtomicKind, number: Number) -> bool
    ensures { result ≡ is_of kind number }
{
    match (kind, number) {
        (AtomicKind::Int32, Number::Int32(_)) => true,
        (AtomicKind::Int64, Number::Int64(_)) => true,
        (AtomicKind::Uint32, Number::Uint32(_)) => true,
        (AtomicKind::Uint64, Number::Uint64(_)) => true,
        (AtomicKind::Bool, Number::Bool(_)) => true,
        _ => false,
    }
}

// So many empty maps.
fn empty_maps(alloc: Global, maps: u32, keys: u32) -> Result<Vec<Slots>, AllocError>
    ensures { IfOk result (λ v. v.items ≡ replicate maps (replicate keys None)) }
{
    let mut made = Vec::with_capacity(alloc, maps as usize)?;
    for _map in 0..maps {
        made.push(Slots::new(alloc, keys)?)?;
    }
    Ok(made)
}

// What atomics of these types hold at the start.
fn zeros(alloc: Global, kinds: &[AtomicKind]) -> Result<Vec<Number>, AllocError>
    ensures { IfOk result (λ v. v.items ≡ map zero_of kinds.now) }
{
    kinds.iter().map(|kind| kind.zero()).collect(alloc)
}
