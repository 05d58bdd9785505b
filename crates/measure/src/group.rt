//! `WaitGroup`: an add of 1 and a done.
ghost use Rattle.go_waits.specs.Groups.{IsPassOf};

use crate::fresh::FreshNote;
use crate::measured::Measured;
use crate::plan::Plan;
use go_waits::{GroupPass, WaitGroup};
use ruled_object::MAX_CALLS;
use std::alloc::{AllocError, Global};
use std::sync::Wait;
use sync_outside::{At, Clock};

impl<N: FreshNote> Measured for WaitGroup<N> {
    type Pass = GroupPass<N>;

    type Kept = N;

    ghost has_pass = { λ group pass. IsPassOf group pass };

    fn new(alloc: Global, plan: Plan) -> Result<(Self, Vec<GroupPass<N>>), AllocError> {
        let (group, passes) = WaitGroup::new(
            alloc,
            plan.callers,
            MAX_CALLS,
            0,
            N::fresh(plan.callers),
        )?;
        Ok((group, passes))
    }

    fn pair<C: Clock, R: Wait>(&self, rt: &R, clock: &C, pass: &mut GroupPass<N>, note: &mut N) {
        if pass.left() < 2 {
            return;
        }
        let at = At { home: &(), clock };
        let _ = self.add(rt, &at, pass, note, 1);
        let _ = self.done(rt, &at, pass, note);
    }
}
