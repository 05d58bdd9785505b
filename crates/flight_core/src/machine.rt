//! A group of flights as a machine that callers share.
use crate::event::{FlightEvent, FlightReply};
use crate::flight::FlightCore;
use sync_model::{Callers, Machine, Worded};

/// A landing synchronizes before the return of each call that takes its value in, and before each later flight. Go's documentation
/// names no edges of a group: these are those of its lock and wait groups.
impl Machine for FlightCore {
    ghost use Rattle.std.specs.Prelude.{true};
    ghost use Rattle.flight_core.specs.FlightMachine.{next};
    ghost use Rattle.flight_core.specs.FlightEdges.{flight_releases, flight_acquires};

    type State = FlightCore;

    type Event = FlightEvent;

    type Reply = FlightReply;

    const HALTS: bool = true;

    ghost HALTS = { true };

    ghost next = { next };

    ghost frees = { flight_releases };

    ghost takes = { flight_acquires };

    #[inline(always)]
    fn step(state: &mut FlightCore, caller: u32, event: FlightEvent) -> FlightReply {
        state.step(caller, event)
    }

    fn releases(_event: &FlightEvent, reply: &FlightReply) -> bool {
        matches!(reply, FlightReply::Landed(_))
    }

    fn acquires(_event: &FlightEvent, reply: &FlightReply) -> bool {
        matches!(reply, FlightReply::Lead | FlightReply::Left(_))
    }

    /// A landing lets those go on who joined the flight.
    fn wakes(state: &FlightCore, _event: &FlightEvent, reply: &FlightReply) -> Callers {
        match reply {
            FlightReply::Landed(_) => state.released(),
            _ => Callers::nobody(),
        }
    }
}

// Its objects' word tells nothing.
impl Worded for FlightCore {
    const TELLS: bool = false;

    #[inline(always)]
    fn word(_state: &FlightCore) -> u64 {
        0
    }

    #[inline(always)]
    fn refresh(_kept: &mut FlightCore, _word: u64) {}

    #[inline(always)]
    fn quick(
        kept: &mut FlightCore,
        _word: u64,
        caller: u32,
        event: FlightEvent,
    ) -> Option<(u64, FlightReply)> {
        Some((0, Self::step(kept, caller, event)))
    }
}
