//! The calls of a worker on Starts.
ghost use Rattle.starts_core.specs.StartsStages.{starts_event, starts_moment, starts_meaning, starts_stands, starts_allows, starts_gives, starts_gains, StartsBegins};

use crate::laws::workers_go_from_dormant_to_live_to_ended;
use crate::starts::{StartEvent, StartReply, StartsCore};
use protocols::{Protocol, Step};

/// One event of a call on Starts.
#[derive(Clone, Copy, Debug, Drop)]
pub enum StartsStage {
    /// Starts the worker with this number.
    Start(u32),
    /// The caller has made all its calls.
    End,
    /// A worker that waits to be started goes once it was, and never where nobody is left who could start it.
    WaitStart,
}

/// What a call on Starts comes to.
#[derive(Clone, Copy, Debug, Drop)]
pub enum StartsOutcome {
    /// A start or an end was made.
    Done,
    /// Whether the worker was started.
    Started(bool),
}

/// A start and an end are one event each; a worker that waits asks again each time that it is woken.
impl Protocol for StartsCore {
    type Stage = StartsStage;

    type Outcome = StartsOutcome;

    type Stand = ();

    ghost event = { starts_event };

    ghost moment = { starts_moment };

    ghost meaning = { starts_meaning };

    ghost out = { tt };

    ghost stands = { starts_stands };

    ghost left = { λ _. tt };

    ghost allows = { starts_allows };

    ghost gives = { starts_gives };

    ghost gains = { starts_gains };

    ghost begins = { StartsBegins };

    fn event(stage: StartsStage, _now: u64) -> StartEvent {
        match stage {
            StartsStage::Start(worker) => StartEvent::Start(worker),
            StartsStage::End => StartEvent::End,
            StartsStage::WaitStart => StartEvent::Leave,
        }
    }

    fn is_timed(_stage: StartsStage) -> bool {
        false
    }

    fn meaning(stage: StartsStage, reply: &StartReply) -> Step<StartsStage, StartsOutcome> {
        match (stage, reply) {
            (StartsStage::Start(_) | StartsStage::End, StartReply::Done) => {
                Step::Finished(StartsOutcome::Done)
            }
            (StartsStage::WaitStart, StartReply::Go) => Step::Finished(StartsOutcome::Started(
                true,
            )),
            (StartsStage::WaitStart, StartReply::Never) => {
                Step::Finished(StartsOutcome::Started(false))
            }
            (StartsStage::WaitStart, StartReply::Still) => Step::Waits(StartsStage::WaitStart),
            _ => Step::Never,
        }
    }

    fn laws() {
        workers_go_from_dormant_to_live_to_ended();
    }
}
