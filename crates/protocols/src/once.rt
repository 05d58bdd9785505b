//! The calls of a once.
ghost use Rattle.std.specs.Prelude.{false};
ghost use Rattle.protocols.specs.OnceStages.{once_event, once_moment, once_meaning, once_stands, once_left, once_allows, once_gives, once_gains, OnceBegins};

use crate::protocol::Protocol;
use crate::step::Step;
use wait_cores::laws::once::knows_where_it_stands;
use wait_cores::{OnceCore, OnceEvent, OnceReply};

/// One event of a call on a once.
#[derive(Clone, Copy, Drop)]
pub enum OnceStage<T> {
    /// A caller comes.
    Begin,
    /// The function that the caller ran has ended, and came to this.
    End(T),
    /// A caller that waits leaves, once the function has ended.
    Leave,
}

/// What a call on a once comes to.
#[derive(Clone, Copy, Drop)]
pub enum OnceOutcome<T> {
    /// The caller is to run the function, and then to end it.
    Run,
    /// The function has ended, and came to this.
    Already(T),
    /// The function's end is made known.
    Ended,
}

/// A call begins, or ends the function that its caller was to run. A caller stands by two marks: whether it waits, and
/// whether it runs the function.
impl<T: Copy> Protocol for OnceCore<T> {
    type Stage = OnceStage<T>;

    type Outcome = OnceOutcome<T>;

    type Stand = (bool, bool);

    ghost event = { once_event };

    ghost moment = { once_moment };

    ghost meaning = { once_meaning };

    ghost out = { (false, false) };

    ghost stands = { once_stands };

    ghost left = { once_left };

    ghost allows = { once_allows };

    ghost gives = { once_gives };

    ghost gains = { once_gains };

    ghost begins = { OnceBegins };

    fn event(stage: OnceStage<T>, _now: u64) -> OnceEvent<T> {
        match stage {
            OnceStage::Begin => OnceEvent::Begin,
            OnceStage::End(kept) => OnceEvent::End(kept),
            OnceStage::Leave => OnceEvent::Leave,
        }
    }

    fn is_timed(_stage: OnceStage<T>) -> bool {
        false
    }

    fn meaning(stage: OnceStage<T>, reply: &OnceReply<T>) -> Step<OnceStage<T>, OnceOutcome<T>> {
        match (stage, reply) {
            (OnceStage::Begin, OnceReply::Run) => Step::Finished(OnceOutcome::Run),
            (OnceStage::Begin, OnceReply::Done(kept)) => {
                Step::Finished(OnceOutcome::Already(*kept))
            }
            (OnceStage::Begin, OnceReply::Queued) => Step::Waits(OnceStage::Leave),
            (OnceStage::End(_), OnceReply::Ended) => Step::Finished(OnceOutcome::Ended),
            (OnceStage::Leave, OnceReply::Left(kept)) => {
                Step::Finished(OnceOutcome::Already(*kept))
            }
            (OnceStage::Leave, OnceReply::Still) => Step::Waits(OnceStage::Leave),
            _ => Step::Never,
        }
    }

    fn laws() {
        knows_where_it_stands::<T>();
    }
}
