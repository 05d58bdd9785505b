//! `Group` of flights: a begin, and a landing where the caller leads.
ghost use Rattle.single_flight.specs.Flights.{IsPassOf};

use crate::fresh::FreshNote;
use crate::measured::Measured;
use crate::plan::{Keys, Plan, What};
use ruled_object::MAX_CALLS;
use single_flight::{Begun, Group, GroupPass};
use std::alloc::{AllocError, Global};
use std::hint::spin_loop;
use std::sync::Wait;
use sync_model::{Answer, Note};
use sync_outside::{At, Clock};

/// How long the work of a flight takes that others are to join, in pauses of the processor.
const PAUSES: u32 = 200;

// The work of a flight that others are to join.
fn work() {
    for _ in 0..PAUSES {
        spin_loop();
    }
}

/// A group, and whether all callers come for one key.
#[derive(Drop)]
pub struct Flights<N: Note> {
    group: Group<N>,
    one_key: bool,
}

impl<N: FreshNote> Measured for Flights<N> {
    type Pass = GroupPass<N>;

    type Kept = N;

    ghost has_pass = { λ flights pass. IsPassOf flights.group pass };

    fn new(alloc: Global, plan: Plan) -> Result<(Self, Vec<GroupPass<N>>), AllocError> {
        let (group, passes) = Group::new(alloc, plan.callers, MAX_CALLS, N::fresh(plan.callers))?;
        let one_key = matches!(plan.what, What::Flight(Keys::One));
        Ok((Flights { group, one_key }, passes))
    }

    fn pair<C: Clock, R: Wait>(&self, rt: &R, clock: &C, pass: &mut GroupPass<N>, note: &mut N) {
        if pass.left() < 2 {
            return;
        }
        let at = At { home: &(), clock };
        let key = if self.one_key { 0 } else { pass.number() };
        match self.group.begin(rt, &at, pass, note, key) {
            Answer::Done(Begun::Lead(flight)) => {
                if self.one_key {
                    work();
                }
                self.group.land(flight, rt, &at, pass, note, 1);
            }
            Answer::Done(Begun::Got(_value)) => {}
            Answer::Halted(_misuse) => {}
        }
    }
}
