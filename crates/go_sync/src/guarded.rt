//! Data that only the holder of a mutex reaches.
ghost use Rattle.std.specs.Prelude.{◌≡◌, ◌<◌, ◌≤◌, All, IfNone, IfOk, IfSome, vec_len};
ghost use Rattle.sync_types.specs.declared.misuse.Misuse.{Misuse};
ghost use Rattle.sync_model.specs.declared.answer.Answer.TheVariants.{Done, Halted};
ghost use Rattle.go_locks.specs.MutexCalls.{Unlocks};
ghost use Rattle.go_locks.specs.Mutexes.{IsPassOfMutex};
ghost use Rattle.go_sync.specs.MutexCallers.{LocksSoon, Makes};
ghost use Rattle.std.specs.Fn.{FnOnceReturnsAtMut};

mod kept;
mod waits;

use crate::mutex::{MutexCaller, MutexPasses, new_mutex};
use go_locks::Mutex;
use kept::Kept;
use std::alloc::{AllocError, Global};
use std::sync::Wait;
use sync_model::{Answer, NoNote};
use sync_outside::Clock;

/// A value and the mutex that guards it.
#[derive(Drop)]
pub struct Guarded<T: Drop> {
    mutex: Mutex<NoNote>,
    value: Kept<T>,
}

impl<T: Drop> Guarded<T> {
    /// The value, guarded, for so many threads, 64 at most, with their passes.
    pub fn new(alloc: Global, threads: u32, value: T) -> Result<(Self, MutexPasses), AllocError>
        requires { (0 < threads) × (threads ≤ 64) }
        ensures passes { IfOk result (λ made. All (IsPassOfMutex made.0.mutex) made.1.items) }
        ensures count { IfOk result (λ made. vec_len made.1 ≡ threads) }
    {
        let (mutex, passes) = new_mutex(alloc, threads)?;
        Ok((
            Guarded {
                mutex,
                value: Kept::new(value),
            },
            passes,
        ))
    }

    /// A caller for each thread.
    pub fn callers<'a, C: Clock>(
        &'a self,
        alloc: Global,
        clock: &'a C,
        mut passes: MutexPasses,
    ) -> Result<Vec<GuardedCaller<'a, T, C>>, AllocError>
        requires { All (IsPassOfMutex self.now.mutex) passes.items }
        ensures count { IfOk result (λ callers. vec_len callers ≡ vec_len passes) }
        ensures each { IfOk result (λ callers. All (λ caller. caller.caller.mutex.now ≡ self.now.mutex) callers.items) }
    {
        let mut callers = Vec::with_capacity(alloc, passes.len())?;
        while let Some(caller) = MutexCaller::last(&self.mutex, clock, &mut passes) {
            let value = &self.value;
            callers.push(GuardedCaller { caller, value })?;
        }
        Ok(callers)
    }

    /// The value, once no caller is left.
    pub fn into_inner(self) -> T {
        self.value.into_inner()
    }
}

/// What one thread reaches the value by.
#[derive(Drop)]
pub struct GuardedCaller<'a, T: Drop, C: Clock> {
    caller: MutexCaller<'a, C>,
    value: &'a Kept<T>,
}

impl<T: Drop, C: Clock> GuardedCaller<'_, T, C> {
    /// Locks the mutex, changes the value, and unlocks. `None` where the mutex was
    /// halted.
    pub fn with<A, F: FnOnce(&mut T) -> A, R: Wait>(&mut self, rt: &R, change: F) -> Option<A>
        requires { F.IsAlwaysCallable change }
        ensures held { IfSome result (λ answer. (mid : _) × (end : _) × LocksSoon C.shows self.old.caller (Done tt) mid × Makes Unlocks (C.shows mid.clock.now) mid end self.new.caller) }
        ensures changed { IfSome result (λ answer. (before after : T) × FnOnceReturnsAtMut F.FnOnce change before answer after) }
        ensures halted { IfNone result ((misuse : Misuse) × LocksSoon C.shows self.old.caller (Halted misuse) self.new.caller) }
    {
        let Answer::Done(()) = self.caller.lock_soon(rt) else {
            return None;
        };
        let answer = {
            let mut held = self.value.hold(rt, &self.caller);
            changed(&mut *held, change)
        };
        self.caller.unlock(rt);
        Some(answer)
    }
}

// What the change answers.
pub(crate) fn changed<T, A, F: FnOnce(&mut T) -> A>(value: &mut T, change: F) -> A
    requires { F.IsAlwaysCallable change }
    ensures { FnOnceReturnsAtMut F.FnOnce change value.old result value.new }
{
    change(value)
}
