//! `Sema`: an acquire and a release of weight 1.
ghost use Rattle.std.specs.Prelude.{◌≤◌};
ghost use Rattle.weighted_sema.specs.Semas.{size_of, IsPassOf};

use crate::fresh::FreshNote;
use crate::measured::Measured;
use crate::plan::{Plan, Room, What};
use ruled_object::MAX_CALLS;
use std::alloc::{AllocError, Global};
use std::sync::Wait;
use sync_outside::{At, Clock};
use weighted_sema::{Sema, SemaPass};

// The size of the semaphore that is measured: at 64 no caller waits.
fn room_of(what: What) -> u64
    ensures { (1 ≤ result) × (result ≤ 64) }
{
    match what {
        What::Sema(Room::One) => 1,
        _ => 64,
    }
}

impl<N: FreshNote> Measured for Sema<N> {
    type Pass = SemaPass<N>;

    type Kept = N;

    ghost has_pass = { λ sema pass. IsPassOf sema pass × (1 ≤ size_of sema) };

    fn new(alloc: Global, plan: Plan) -> Result<(Self, Vec<SemaPass<N>>), AllocError> {
        let size = room_of(plan.what);
        let (sema, passes) = Sema::new(
            alloc,
            plan.callers,
            size,
            MAX_CALLS,
            N::fresh(plan.callers),
        )?;
        Ok((sema, passes))
    }

    fn pair<C: Clock, R: Wait>(&self, rt: &R, clock: &C, pass: &mut SemaPass<N>, note: &mut N) {
        if pass.left() < 2 {
            return;
        }
        let at = At { home: &(), clock };
        self.acquire(rt, &at, pass, note, 1);
        let _ = self.release(rt, &at, pass, note, 1);
    }
}
