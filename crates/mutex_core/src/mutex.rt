//! The mutex machine, in memory that is taken once.
ghost use Rattle.std.specs.Prelude.{◌≡◌, ◌⊎◌, ◌<◌, ◌≤◌, IfOk, IfSome, IfNone, IsFalse};
ghost use Rattle.std.specs.List.{list_any};
ghost use Rattle.mutex_core.specs.MutexMachine.{is_open, is_waiter_of, next, place_of, start, IsValid};
ghost use Rattle.mutex_core.specs.declared.event.MutexEvent.{MutexEvent};
ghost use Rattle.mutex_core.specs.declared.waiter.Flight.{Flight};
ghost use Rattle.mutex_core.specs.declared.reply.MutexReply.{MutexReply};

use crate::place::Place;
use crate::reply::{Arrival, Resumption, Unlocking};
use crate::waiter::{Flight, Waiter};
use std::alloc::{AllocError, Global};
use std::collections::VecDeque;
use std::marker::Model;
use sync_types::Misuse;

/// A mutex of some callers, as a value that each event changes. Who has locked it isn't kept, so
/// another caller may unlock it.
#[derive(Drop)]
pub struct MutexCore {
    callers: u32,
    locked: bool,
    starving: bool,
    queue: VecDeque<Waiter>,
    flight: Flight,
}

impl Model for MutexCore {
    ghost use Rattle.mutex_core.specs.MutexMachine.{State};

    ghost Value = { State };

    ghost use Rattle.mutex_core.specs.MutexCore.{state_of, IsSound};

    ghost view = { state_of };

    ghost invariant = { IsSound };
}

impl MutexCore {
    /// An unlocked mutex in normal mode, for the callers `0` to `callers - 1`, with room for all of
    /// them to wait. No other call takes memory.
    pub fn new(alloc: Global, callers: u32) -> Result<Self, AllocError>
        requires some { 1 ≤ callers }
        requires few { callers ≤ 64 }
        ensures { IfOk result (λ mutex. mutex ≡ start callers) }
    {
        Ok(MutexCore {
            callers,
            locked: false,
            starving: false,
            queue: VecDeque::with_capacity(alloc, callers as usize)?,
            flight: Flight::Nobody,
        })
    }

    /// `Lock` begins: the caller acquires a mutex that is unlocked and in normal mode, and else waits
    /// at the tail of the queue.
    pub fn arrive(&mut self, caller: u32, now: u64) -> Arrival
        requires is_caller { caller < self.old.callers }
        requires is_out { place_of self.old caller ≡ Place.Out }
        ensures step { next self.old caller (MutexEvent.Arrive now) ≡ (self.new, MutexReply.Arrived result) }
        ensures valid { IsValid self.new }
    {
        if !self.locked && !self.starving {
            self.locked = true;
            return Arrival::Acquired;
        }
        self.queue.push_back_reserved(Waiter {
            caller,
            arrival: now,
            asked: false,
        });
        Arrival::Queued(caller)
    }

    /// Whether the mutex is open: unlocked and in normal mode. A caller that arrives then acquires it at once.
    pub fn is_open(&self) -> bool
        ensures { result ≡ is_open self.now }
    {
        !self.locked && !self.starving
    }

    /// `TryLock`: whether the caller acquired the mutex, which it does exactly where an arrival would.
    pub fn try_arrive(&mut self, caller: u32) -> bool
        requires is_caller { caller < self.old.callers }
        requires is_out { place_of self.old caller ≡ Place.Out }
        ensures step { next self.old caller MutexEvent.Try ≡ (self.new, MutexReply.Tried result) }
        ensures valid { IsValid self.new }
    {
        if self.locked || self.starving {
            return false;
        }
        self.locked = true;
        true
    }

    /// A waiter that was woken or handed the mutex goes on. A woken one loses against a newcomer that
    /// has locked the mutex meanwhile, and then waits at the front of the queue, with the moment of
    /// its first arrival.
    pub fn woken(&mut self, caller: u32, now: u64) -> Resumption
        requires is_caller { caller < self.old.callers }
        requires in_flight { (place_of self.old caller ≡ Place.Woken) ⊎ (place_of self.old caller ≡ Place.Handed) }
        ensures step { next self.old caller (MutexEvent.Woken now) ≡ (self.new, MutexReply.Resumed result) }
        ensures valid { IsValid self.new }
    {
        let flight = self.flight;
        self.flight = Flight::Nobody;
        if let Flight::Woken(waiter) = flight {
            if self.locked {
                let asked = waiter.is_starving(now);
                self.starving = self.starving || asked;
                self.queue.push_front_reserved(Waiter { asked, ..waiter });
                return Resumption::Requeued;
            }
            self.locked = true;
            return Resumption::Acquired;
        }
        let front = self.queue.pop_front().unwrap();
        self.locked = true;
        self.starving = self.starving && front.is_starving(now) && !self.queue.is_empty();
        Resumption::Acquired
    }

    /// `Unlock`, by whichever caller. In starvation mode the mutex is kept for the waiter at the front
    /// of the queue, in normal mode that waiter is woken where none is already. A mutex that isn't
    /// locked stays as it is: that is a misuse, Go's fatal error.
    pub fn unlock(&mut self, caller: u32) -> Unlocking
        requires { caller < self.old.callers }
        ensures step { next self.old caller MutexEvent.Unlock ≡ (self.new, MutexReply.Unlocked result) }
        ensures valid { IsValid self.new }
        ensures misuse { (m : Misuse) → result ≡ Unlocking.Misuse m → (self.new ≡ self.old) × IsFalse self.old.locked }
    {
        if !self.locked {
            return Unlocking::Misuse(Misuse::UnlockOfUnlockedMutex);
        }
        self.locked = false;
        if self.starving {
            self.flight = Flight::Handed;
            return Unlocking::Handed(self.queue[0].caller);
        }
        if let Flight::Woken(_) = self.flight {
            return Unlocking::Free;
        }
        match self.queue.pop_front() {
            None => Unlocking::Free,
            Some(front) => {
                self.flight = Flight::Woken(front);
                Unlocking::Woke(front.caller)
            }
        }
    }

    /// The caller that was woken or handed the mutex, and hasn't gone on since.
    pub fn in_flight(&self) -> Option<u32>
        ensures some { IfSome result (λ caller. (place_of self.now caller ≡ Place.Woken) ⊎ (place_of self.now caller ≡ Place.Handed)) }
        ensures none { IfNone result (self.now.flight ≡ Flight.Nobody) }
    {
        match self.flight {
            Flight::Nobody => None,
            Flight::Woken(waiter) => Some(waiter.caller),
            Flight::Handed => Some(self.queue[0].caller),
        }
    }

    /// How many callers it has.
    pub fn callers(&self) -> u32
        ensures { result ≡ self.now.callers }
    {
        self.callers
    }

    /// Where a caller is.
    pub fn place(&self, caller: u32) -> Place
        requires { caller < self.now.callers }
        ensures { result ≡ place_of self.now caller }
    {
        match self.flight {
            Flight::Woken(waiter) if caller == waiter.caller => Place::Woken,
            Flight::Handed if caller == self.queue[0].caller => Place::Handed,
            _ if self.is_queued(caller) => Place::Waiting,
            _ => Place::Out,
        }
    }

    /// Whether the caller is in the queue.
    fn is_queued(&self, caller: u32) -> bool
        ensures { result ≡ list_any (is_waiter_of caller) self.now.queue }
    {
        self.queue.iter().any(|waiter| caller == waiter.caller)
    }
}

mod packed;
