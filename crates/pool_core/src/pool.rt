//! `sync.Pool` as a machine: each caller has a part of its own, in a primary generation and in one of victims.
ghost use Rattle.std.specs.Prelude.{◌≡◌, ℕ, ◌<◌, ◌≤◌, ◌↔◌, true, length, map, replicate, IfOk, IsTrue};
ghost use Rattle.pool_core.specs.Edges.{pool_releases, pool_acquires};
ghost use Rattle.pool_core.specs.PoolParts.{empty, emptied, reply_of_put, reply_of_look};
ghost use Rattle.pool_core.specs.PoolMachine.{start, next, callers_of};

use crate::part::Part;
use crate::pool_event::{PoolEvent, PoolPut, PoolReply};
use std::alloc::{AllocError, Global};
use std::marker::Model;
use std::mem;
use sync_model::{Machine, Worded};

/// The state of a pool: the parts of the primary generation and those of the victims, one of each for every caller.
#[derive(Drop)]
pub struct PoolCore {
    primary: Vec<Part>,
    victims: Vec<Part>,
}

impl Model for PoolCore {
    ghost use Rattle.std.specs.Prelude.{◌≡◌, ℕ, vec_len};
    ghost use Rattle.pool_core.specs.PoolMachine.{PoolState};

    ghost Value = { PoolState ℕ };

    ghost view = { λ c. record { primary = c.primary.items; victims = c.victims.items } };

    ghost invariant = { λ c. vec_len c.victims ≡ vec_len c.primary };
}

impl PoolCore {
    /// An empty pool for callers 0 to `callers - 1`, with memory for `room` shared items in each part of both generations.
    /// This call alone takes memory.
    pub fn new(alloc: Global, callers: u32, room: u32) -> Result<Self, AllocError>
        requires some { 1 ≤ callers }
        requires few { callers ≤ 64 }
        ensures start { IfOk result (λ core. core ≡ start callers room) }
        ensures callers { IfOk result (λ core. callers_of core ≡ callers) }
    {
        let primary = empty_parts(alloc, callers, room)?;
        let victims = empty_parts(alloc, callers, room)?;
        Ok(PoolCore { primary, victims })
    }

    /// Puts an item into the caller's part. It is dropped exactly where that part holds a private item and `room` shared
    /// ones.
    pub fn put(&mut self, caller: u32, item: u64) -> PoolPut
        requires { caller < callers_of self.old }
        ensures step { next self.old caller (PoolEvent.Put item) ≡ (self.new, reply_of_put result) }
        ensures callers { callers_of self.new ≡ callers_of self.old }
    {
        self.primary[caller as usize].put(item)
    }

    /// Takes the caller's private item, or else the head of its shared list.
    pub fn look_own(&mut self, caller: u32) -> Option<u64>
        requires { caller < callers_of self.old }
        ensures step { next self.old caller PoolEvent.LookOwn ≡ (self.new, reply_of_look result) }
        ensures callers { callers_of self.new ≡ callers_of self.old }
    {
        self.primary[caller as usize].take_own()
    }

    /// Takes the tail of the shared list of a part, whoever looks.
    pub fn look_other(&mut self, part: u32) -> Option<u64>
        requires { part < callers_of self.old }
        ensures step { (caller : ℕ) → caller < callers_of self.old
            → next self.old caller (PoolEvent.LookOther part) ≡ (self.new, reply_of_look result) }
        ensures callers { callers_of self.new ≡ callers_of self.old }
    {
        self.primary[part as usize].take_tail()
    }

    /// Takes an item of a part among the victims: the private one, only where the part is the caller's, or else the tail
    /// of the shared list.
    pub fn look_victim(&mut self, caller: u32, part: u32) -> Option<u64>
        requires is_caller { caller < callers_of self.old }
        requires is_part { part < callers_of self.old }
        ensures step { next self.old caller (PoolEvent.LookVictim part) ≡ (self.new, reply_of_look result) }
        ensures callers { callers_of self.new ≡ callers_of self.old }
    {
        let victim = &mut self.victims[part as usize];
        if part == caller {
            victim.take_victim()
        } else {
            victim.take_tail()
        }
    }

    /// Removes the victims, and makes the primary generation the victims.
    pub fn sweep(&mut self)
        ensures step { (caller : ℕ) → caller < callers_of self.old
            → next self.old caller PoolEvent.Sweep ≡ (self.new, PoolReply.Swept) }
        ensures callers { callers_of self.new ≡ callers_of self.old }
    {
        mem::swap(&mut self.primary, &mut self.victims);
        clear(&mut self.primary);
    }

    /// What an event of a caller does, whoever it is: the call of that event, or nothing where the caller, or a part that the
    /// event names, isn't one of the pool's.
    pub fn step(&mut self, caller: u32, event: PoolEvent<u64>) -> PoolReply<u64>
        ensures step { next self.old caller event ≡ (self.new, result) }
        ensures callers { callers_of self.new ≡ callers_of self.old }
    {
        if !self.has(caller) {
            return PoolReply::Still;
        }
        match event {
            PoolEvent::Put(item) => self.put(caller, item).into(),
            PoolEvent::LookOwn => self.look_own(caller).into(),
            PoolEvent::LookOther(part) if self.has(part) => self.look_other(part).into(),
            PoolEvent::LookVictim(part) if self.has(part) => self.look_victim(caller, part).into(),
            PoolEvent::LookOther(_) | PoolEvent::LookVictim(_) => PoolReply::Still,
            PoolEvent::Sweep => {
                self.sweep();
                PoolReply::Swept
            }
        }
    }

    // Whether the pool has a part of this number.
    fn has(&self, part: u32) -> bool
        ensures primary { IsTrue result ↔ (part < length self.now.primary) }
        ensures victims { IsTrue result ↔ (part < length self.now.victims) }
    {
        (part as usize) < self.primary.len()
    }
}

/// After the documentation of Go's `sync`, a put that is kept synchronizes before the look that takes its item.
impl Machine for PoolCore {
    type State = PoolCore;

    type Event = PoolEvent<u64>;

    type Reply = PoolReply<u64>;

    const HALTS: bool = true;

    ghost HALTS = { true };

    ghost next = { next };

    ghost frees = { pool_releases };

    ghost takes = { pool_acquires };

    #[inline(always)]
    fn step(state: &mut PoolCore, caller: u32, event: PoolEvent<u64>) -> PoolReply<u64> {
        state.step(caller, event)
    }

    fn releases(_event: &PoolEvent<u64>, reply: &PoolReply<u64>) -> bool {
        matches!(reply, PoolReply::Kept)
    }

    fn acquires(_event: &PoolEvent<u64>, reply: &PoolReply<u64>) -> bool {
        matches!(reply, PoolReply::Item(_))
    }
}

// Its objects' word tells nothing.
impl Worded for PoolCore {
    const TELLS: bool = false;

    #[inline(always)]
    fn word(_state: &PoolCore) -> u64 {
        0
    }

    #[inline(always)]
    fn refresh(_kept: &mut PoolCore, _word: u64) {}

    #[inline(always)]
    fn quick(
        kept: &mut PoolCore,
        _word: u64,
        caller: u32,
        event: PoolEvent<u64>,
    ) -> Option<(u64, PoolReply<u64>)> {
        Some((0, Self::step(kept, caller, event)))
    }
}

// This many parts without items.
fn empty_parts(alloc: Global, count: u32, room: u32) -> Result<Vec<Part>, AllocError>
    ensures { IfOk result (λ parts. parts.items ≡ replicate count (empty room)) }
{
    let mut parts = Vec::with_capacity(alloc, count as usize)?;
    for _part in 0..count {
        parts.push(Part::new(alloc, room)?)?;
    }
    Ok(parts)
}

// Removes the items of every part.
fn clear(parts: &mut [Part])
    ensures { parts.new ≡ map emptied parts.old }
{
    for part in parts.iter_mut() {
        part.clear();
    }
}
