//! The machine whose callers share maps and atomics.
ghost use Rattle.std.specs.Prelude.{false};
ghost use Rattle.shared_plain.specs.PlainMachine.{next};

use crate::event::{Answered, Event};
use crate::state::PlainState;
use sync_model::{Machine, Worded};

/// Maps and atomics, which no misuse halts. What their callers know of one another's calls is what they have seen of the
/// history, so no event hands a note on.
pub struct PlainMachine;

impl Machine for PlainMachine {
    type State = PlainState;

    type Event = Event;

    type Reply = Option<Answered>;

    const HALTS: bool = false;

    ghost HALTS = { false };

    ghost next = { next };

    ghost frees = { λ event reply. false };

    ghost takes = { λ event reply. false };

    fn step(state: &mut PlainState, _caller: u32, event: Event) -> Option<Answered> {
        state.step(event)
    }

    fn releases(_event: &Event, _reply: &Option<Answered>) -> bool {
        false
    }

    fn acquires(_event: &Event, _reply: &Option<Answered>) -> bool {
        false
    }
}

// Its objects' word tells nothing.
impl Worded for PlainMachine {
    const TELLS: bool = false;

    #[inline(always)]
    fn word(_state: &PlainState) -> u64 {
        0
    }

    #[inline(always)]
    fn refresh(_kept: &mut PlainState, _word: u64) {}

    #[inline(always)]
    fn quick(
        kept: &mut PlainState,
        _word: u64,
        caller: u32,
        event: Event,
    ) -> Option<(u64, Option<Answered>)> {
        Some((0, Self::step(kept, caller, event)))
    }
}
