//! `Once`: one `do_once`, in the place of a pair. The first of all runs the function, and each later one finds it run.
ghost use Rattle.go_waits.specs.Onces.{IsPassOf};

use crate::fresh::FreshNote;
use crate::measured::Measured;
use crate::plan::Plan;
use go_waits::{Once, OncePass};
use ruled_object::MAX_CALLS;
use std::alloc::{AllocError, Global};
use std::sync::Wait;
use sync_outside::{At, Clock};

impl<N: FreshNote> Measured for Once<(), N> {
    type Pass = OncePass<(), N>;

    type Kept = N;

    ghost has_pass = { λ once pass. IsPassOf once pass };

    fn new(alloc: Global, plan: Plan) -> Result<(Self, Vec<OncePass<(), N>>), AllocError> {
        let (once, passes) = Once::new(alloc, plan.callers, MAX_CALLS, N::fresh(plan.callers))?;
        Ok((once, passes))
    }

    fn pair<C: Clock, R: Wait>(&self, rt: &R, clock: &C, pass: &mut OncePass<(), N>, note: &mut N) {
        if pass.left() < 2 {
            return;
        }
        let at = At { home: &(), clock };
        self.do_once(rt, &at, pass, note, || -> Result<(), u32> { Ok(()) });
    }
}
