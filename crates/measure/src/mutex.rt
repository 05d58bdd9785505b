//! `Mutex`: a lock and an unlock.
ghost use Rattle.go_locks.specs.Mutexes.{IsPassOfMutex};

use crate::fresh::FreshNote;
use crate::measured::Measured;
use crate::plan::Plan;
use go_locks::{Mutex, MutexPass};
use ruled_object::MAX_CALLS;
use std::alloc::{AllocError, Global};
use std::sync::Wait;
use sync_outside::{At, Clock};

impl<N: FreshNote> Measured for Mutex<N> {
    type Pass = MutexPass<N>;

    type Kept = N;

    ghost has_pass = { λ mutex pass. IsPassOfMutex mutex pass };

    fn new(alloc: Global, plan: Plan) -> Result<(Self, Vec<MutexPass<N>>), AllocError> {
        let (mutex, passes) = Mutex::new(alloc, plan.callers, MAX_CALLS, N::fresh(plan.callers))?;
        Ok((mutex, passes))
    }

    fn pair<C: Clock, R: Wait>(&self, rt: &R, clock: &C, pass: &mut MutexPass<N>, note: &mut N) {
        if pass.left() < 2 {
            return;
        }
        let at = At { home: &(), clock };
        self.lock(rt, &at, pass, note);
        let _ = self.unlock(rt, &at, pass, note);
    }
}
