//! Stop, on which a misuse ends the run.
ghost use Rattle.std.specs.Prelude.{true, false, None};
ghost use Rattle.protocols.specs.declared.step.Step.TheVariants.{Never};
ghost use Rattle.thread_objects.specs.Stop.{StopBegins};

use protocols::{Protocol, Step};
use sync_model::{Machine, Worded};

/// The event that a machine must have. Nobody may make it on Stop, and it changes nothing.
#[derive(Clone, Copy, Drop)]
pub struct NoEvent;

/// The machine of Stop. Nothing is done on it but halts: the first one is the misuse that ends the run.
pub struct StopCore;

impl Machine for StopCore {
    type State = ();

    type Event = NoEvent;

    type Reply = NoEvent;

    const HALTS: bool = true;

    ghost HALTS = { true };

    ghost next = { λ state caller event. (state, event) };

    ghost frees = { λ event reply. false };

    ghost takes = { λ event reply. false };

    fn step(_state: &mut (), _caller: u32, event: NoEvent) -> NoEvent {
        event
    }

    fn releases(_event: &NoEvent, _reply: &NoEvent) -> bool {
        false
    }

    fn acquires(_event: &NoEvent, _reply: &NoEvent) -> bool {
        false
    }
}

// Its objects' word tells nothing.
impl Worded for StopCore {
    const TELLS: bool = false;

    #[inline(always)]
    fn word(_state: &()) -> u64 {
        0
    }

    #[inline(always)]
    fn refresh(_kept: &mut (), _word: u64) {}

    #[inline(always)]
    fn quick(kept: &mut (), _word: u64, caller: u32, event: NoEvent) -> Option<(u64, NoEvent)> {
        Some((0, Self::step(kept, caller, event)))
    }
}

/// There is no call on Stop.
impl Protocol for StopCore {
    type Stage = NoEvent;

    type Outcome = ();

    type Stand = ();

    ghost event = { λ stage now. stage };

    ghost moment = { λ event. None };

    ghost meaning = { λ stage reply. Never };

    ghost out = { tt };

    ghost stands = { λ stand event reply. tt };

    ghost left = { λ outcome. tt };

    ghost allows = { λ start stand stage. false };

    ghost gives = { λ stage given. true };

    ghost gains = { λ stage outcome. false };

    ghost begins = { StopBegins };

    fn event(stage: NoEvent, _now: u64) -> NoEvent {
        stage
    }

    fn is_timed(_stage: NoEvent) -> bool {
        false
    }

    fn meaning(_stage: NoEvent, _reply: &NoEvent) -> Step<NoEvent, ()> {
        Step::Never
    }

    fn laws() {}
}
