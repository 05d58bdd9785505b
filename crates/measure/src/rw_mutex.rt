//! `RwMutex`, both ways: a lock and an unlock of a reader, and of a writer.
ghost use Rattle.go_locks.specs.RwMutexes.{IsPassOfRwMutex};

use crate::fresh::FreshNote;
use crate::measured::Measured;
use crate::plan::Plan;
use go_locks::{RwMutex, RwPass};
use ruled_object::MAX_CALLS;
use std::alloc::{AllocError, Global};
use std::sync::Wait;
use sync_model::Note;
use sync_outside::{At, Clock};

/// A lock that is read.
#[derive(Drop)]
pub struct Reading<N: Note> {
    lock: RwMutex<N>,
}

impl<N: FreshNote> Measured for Reading<N> {
    type Pass = RwPass<N>;

    type Kept = N;

    ghost has_pass = { λ reading pass. IsPassOfRwMutex reading.lock pass };

    fn new(alloc: Global, plan: Plan) -> Result<(Self, Vec<RwPass<N>>), AllocError> {
        let (lock, passes) = RwMutex::new(alloc, plan.callers, MAX_CALLS, N::fresh(plan.callers))?;
        Ok((Reading { lock }, passes))
    }

    fn pair<C: Clock, R: Wait>(&self, rt: &R, clock: &C, pass: &mut RwPass<N>, note: &mut N) {
        if pass.left() < 2 {
            return;
        }
        let at = At { home: &(), clock };
        self.lock.r_lock(rt, &at, pass, note);
        let _ = self.lock.r_unlock(rt, &at, pass, note);
    }
}

/// A lock that is written.
#[derive(Drop)]
pub struct Writing<N: Note> {
    lock: RwMutex<N>,
}

impl<N: FreshNote> Measured for Writing<N> {
    type Pass = RwPass<N>;

    type Kept = N;

    ghost has_pass = { λ writing pass. IsPassOfRwMutex writing.lock pass };

    fn new(alloc: Global, plan: Plan) -> Result<(Self, Vec<RwPass<N>>), AllocError> {
        let (lock, passes) = RwMutex::new(alloc, plan.callers, MAX_CALLS, N::fresh(plan.callers))?;
        Ok((Writing { lock }, passes))
    }

    fn pair<C: Clock, R: Wait>(&self, rt: &R, clock: &C, pass: &mut RwPass<N>, note: &mut N) {
        if pass.left() < 2 {
            return;
        }
        let at = At { home: &(), clock };
        self.lock.lock(rt, &at, pass, note);
        let _ = self.lock.unlock(rt, &at, pass, note);
    }
}
