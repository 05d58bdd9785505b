//! A new group.
ghost use Rattle.std.specs.Prelude.{◌≡◌, ◌≤◌, IfOk};
ghost use Rattle.flight_core.specs.FlightMachine.{start};
ghost use Rattle.single_flight.specs.Flights.{callers_of, start_of, AreNew, IsHomeOf};

use crate::group::{Group, GroupPass};
use flight_core::FlightCore;
use ruled_object::MAX_CALLS;
use std::alloc::{AllocError, Global};
use sync_model::{MAX_CALLERS, Note};

impl<N: Note> Group<N> {
    /// A group with no flight, for callers 0 to `callers - 1`, and their passes, each good for `calls` calls. It keeps `note` for what
    /// landings leave. No other call takes memory.
    pub fn new(
        alloc: Global,
        callers: u32,
        calls: u64,
        note: N,
    ) -> Result<(Self, Vec<GroupPass<N>>), AllocError>
        requires callers { (1 ≤ callers) × (callers ≤ MAX_CALLERS) }
        requires calls { calls ≤ MAX_CALLS }
        ensures group { IfOk result (λ made. (callers_of made.0 ≡ callers) × (start_of made.0 ≡ start callers) × ((home : N.Home) → N.at home note → IsHomeOf N.at made.0 home)) }
        ensures passes { IfOk result (λ made. AreNew made.0 calls made.1.items) }
    {
        let core = FlightCore::new(alloc, callers)?;
        let (object, passes) = call_loop::new(alloc, callers, calls, core, note)?;
        Ok((Group { object }, passes))
    }
}
