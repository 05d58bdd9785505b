//! Waiting until guarded data is as it has to be.
ghost use Rattle.std.specs.Prelude.{false, IfNone, IfSome};
ghost use Rattle.std.specs.Fn.{FnReturnsAt, FnOnceReturnsAtMut};
ghost use Rattle.go_sync.specs.GuardedCallers.{HasLocked, IsCutOff, IsUnchanged, WaitsFor, WaitsHeld};

use super::kept::Kept;
use super::{GuardedCaller, changed};
use crate::cond::CondCaller;
use crate::mutex::MutexCaller;
use std::sync::Wait;
use sync_model::Answer;
use sync_outside::Clock;

impl<T: Drop, C: Clock> GuardedCaller<'_, T, C> {
    /// Locks the mutex, waits at the cond while the value is `blocked`, changes the value, and unlocks: Go's
    /// `for blocked { cond.Wait() }` in a critical section. The value that is changed is one that wasn't blocked. Whoever makes it so
    /// signals or broadcasts after its own `with`. `None` where the mutex or the cond was halted.
    pub fn wait_while<A, B: Fn(&T) -> bool, F: FnOnce(&mut T) -> A, R: Wait>(
        &mut self,
        rt: &R,
        cond: &mut CondCaller<C>,
        blocked: B,
        change: F,
    ) -> Option<A>
        requires blocked { B.IsAlwaysCallable blocked }
        requires change { F.IsAlwaysCallable change }
        ensures waited { IfSome result (λ answer. WaitsHeld C.shows cond.old self.old.caller cond.new self.new.caller) }
        ensures changed { IfSome result (λ answer. (before after : T) × FnReturnsAt B.Fn blocked before false × FnOnceReturnsAtMut F.FnOnce change before answer after) }
        ensures unchanged { IfNone result (IsUnchanged C.shows cond.old self.old.caller cond.new self.new.caller) }
    {
        let Answer::Done(()) = self.caller.lock_soon(rt) else {
            return None;
        };
        let Some(answer) = changed_unblocked(
            rt,
            self.value,
            &mut self.caller,
            cond,
            blocked,
            change,
        ) else {
            return None;
        };
        self.caller.unlock(rt);
        Some(answer)
    }
}

// What the change of a value that isn't blocked answers. The mutex is held before and after.
fn changed_unblocked<T: Drop, A, B: Fn(&T) -> bool, F: FnOnce(&mut T) -> A, C: Clock, R: Wait>(
    rt: &R,
    value: &Kept<T>,
    mutex: &mut MutexCaller<C>,
    cond: &mut CondCaller<C>,
    blocked: B,
    change: F,
) -> Option<A>
    requires locked { HasLocked C.shows mutex.old }
    requires blocked { B.IsAlwaysCallable blocked }
    requires change { F.IsAlwaysCallable change }
    ensures waited { IfSome result (λ answer. WaitsFor C.shows cond.old mutex.old cond.new mutex.new) }
    ensures changed { IfSome result (λ answer. (before after : T) × FnReturnsAt B.Fn blocked before false × FnOnceReturnsAtMut F.FnOnce change before answer after) }
    ensures unchanged { IfNone result (IsCutOff C.shows cond.old mutex.old cond.new mutex.new) }
{
    for _ in rt.forever() {
        {
            let mut held = value.hold(rt, mutex);
            let now = &mut *held;
            if !is_blocked(now, &blocked) {
                return Some(changed(now, change));
            }
        }
        match cond.wait(rt, mutex) {
            Answer::Done(Ok(())) => {}
            Answer::Done(Err(_)) => return None,
            Answer::Halted(_) => return None,
        }
    }
    unreachable!()
}

// Whether the value is blocked.
fn is_blocked<T, B: Fn(&T) -> bool>(value: &T, blocked: &B) -> bool
    requires { B.IsAlwaysCallable blocked.now }
    ensures { FnReturnsAt B.Fn blocked.now value.now result }
{
    blocked(value)
}
