//! Data that the holders of a reader/writer lock reach: readers together, a writer alone.
ghost use Rattle.std.specs.Prelude.{◌≡◌, ◌<◌, ◌≤◌, All, IfNone, IfOk, IfSome, vec_len};
ghost use Rattle.std.specs.Fn.{FnOnceReturnsAt, FnOnceReturnsAtMut};
ghost use Rattle.sync_types.specs.declared.misuse.Misuse.{Misuse};
ghost use Rattle.sync_model.specs.declared.answer.Answer.TheVariants.{Done, Halted};
ghost use Rattle.rw_core.specs.declared.event.RwEvent.{RwEvent};
ghost use Rattle.go_locks.specs.RwCalls.{ReadLocks, WriteLocks, Unlocks};
ghost use Rattle.go_locks.specs.RwMutexes.{IsPassOfRwMutex};
ghost use Rattle.go_sync.specs.RwCallers.{Makes};

mod kept;

use crate::guarded::changed;
use crate::rw_mutex::{RwCaller, RwPasses, new_rw_mutex};
use go_locks::RwMutex;
use kept::Kept;
use std::alloc::{AllocError, Global};
use std::sync::Wait;
use sync_model::{Answer, NoNote};
use sync_outside::Clock;

/// A value and the reader/writer lock that guards it.
#[derive(Drop)]
pub struct RwGuarded<T: Drop> {
    lock: RwMutex<NoNote>,
    value: Kept<T>,
}

impl<T: Drop> RwGuarded<T> {
    /// The value, guarded, for so many threads, 64 at most, with their passes.
    pub fn new(alloc: Global, threads: u32, value: T) -> Result<(Self, RwPasses), AllocError>
        requires { (0 < threads) × (threads ≤ 64) }
        ensures passes { IfOk result (λ made. All (IsPassOfRwMutex made.0.lock) made.1.items) }
        ensures count { IfOk result (λ made. vec_len made.1 ≡ threads) }
    {
        let (lock, passes) = new_rw_mutex(alloc, threads)?;
        let value = Kept::new(value);
        Ok((RwGuarded { lock, value }, passes))
    }

    /// A caller for each thread.
    pub fn callers<'a, C: Clock>(
        &'a self,
        alloc: Global,
        clock: &'a C,
        mut passes: RwPasses,
    ) -> Result<Vec<RwGuardedCaller<'a, T, C>>, AllocError>
        requires { All (IsPassOfRwMutex self.now.lock) passes.items }
        ensures count { IfOk result (λ callers. vec_len callers ≡ vec_len passes) }
        ensures each { IfOk result (λ callers. All (λ caller. caller.caller.lock.now ≡ self.now.lock) callers.items) }
    {
        let mut callers = Vec::with_capacity(alloc, passes.len())?;
        while let Some(caller) = RwCaller::last(&self.lock, clock, &mut passes) {
            let value = &self.value;
            callers.push(RwGuardedCaller { caller, value })?;
        }
        Ok(callers)
    }

    /// The value, once no caller is left.
    pub fn into_inner(self) -> T {
        self.value.into_inner()
    }
}

/// What one thread reaches the value by.
#[derive(Drop)]
pub struct RwGuardedCaller<'a, T: Drop, C: Clock> {
    caller: RwCaller<'a, C>,
    value: &'a Kept<T>,
}

impl<T: Drop, C: Clock> RwGuardedCaller<'_, T, C> {
    /// Holds the lock for reading, looks at the value, and lets it go. `None` where the lock was halted.
    pub fn read<A, F: FnOnce(&T) -> A, R: Wait>(&mut self, rt: &R, look: F) -> Option<A>
        requires { F.IsAlwaysCallable look }
        ensures held { IfSome result (λ answer. (mid : _) × (end : _) × Makes ReadLocks (C.shows self.old.caller.clock.now) self.old.caller (Done tt) mid × Makes (Unlocks RwEvent.ReadUnlock) (C.shows mid.clock.now) mid end self.new.caller) }
        ensures seen { IfSome result (λ answer. (value : T) × FnOnceReturnsAt F.FnOnce look value answer) }
        ensures halted { IfNone result ((misuse : Misuse) × Makes ReadLocks (C.shows self.old.caller.clock.now) self.old.caller (Halted misuse) self.new.caller) }
    {
        let Answer::Done(()) = self.caller.r_lock(rt) else {
            return None;
        };
        let answer = {
            let held = self.value.hold_to_read(rt, &self.caller);
            seen(&*held, look)
        };
        self.caller.r_unlock(rt);
        Some(answer)
    }

    /// Locks the lock, changes the value, and unlocks. `None` where the lock was halted.
    pub fn write<A, F: FnOnce(&mut T) -> A, R: Wait>(&mut self, rt: &R, change: F) -> Option<A>
        requires { F.IsAlwaysCallable change }
        ensures held { IfSome result (λ answer. (mid : _) × (end : _) × Makes WriteLocks (C.shows self.old.caller.clock.now) self.old.caller (Done tt) mid × Makes (Unlocks RwEvent.WriteUnlock) (C.shows mid.clock.now) mid end self.new.caller) }
        ensures changed { IfSome result (λ answer. (before after : T) × FnOnceReturnsAtMut F.FnOnce change before answer after) }
        ensures halted { IfNone result ((misuse : Misuse) × Makes WriteLocks (C.shows self.old.caller.clock.now) self.old.caller (Halted misuse) self.new.caller) }
    {
        let Answer::Done(()) = self.caller.lock(rt) else {
            return None;
        };
        let answer = {
            let mut held = self.value.hold_to_write(rt, &self.caller);
            changed(&mut *held, change)
        };
        self.caller.unlock(rt);
        Some(answer)
    }
}

// What the look answers.
fn seen<T, A, F: FnOnce(&T) -> A>(value: &T, look: F) -> A
    requires { F.IsAlwaysCallable look }
    ensures { FnOnceReturnsAt F.FnOnce look value.now result }
{
    look(value)
}
