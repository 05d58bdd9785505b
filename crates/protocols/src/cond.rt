//! The calls of a cond's list of waiters.
ghost use Rattle.std.specs.Prelude.{false};
ghost use Rattle.protocols.specs.CondStages.{cond_event, cond_moment, cond_meaning, cond_stands, cond_allows, cond_gives, cond_gains, CondBegins};

use crate::protocol::Protocol;
use crate::step::Step;
use wait_cores::laws::notify::answers_its_callers;
use wait_cores::{NotifyCore, NotifyEvent, NotifyReply};

/// One event of a call on a cond's list of waiters.
#[derive(Clone, Copy, Drop)]
pub enum CondStage {
    /// A `Wait` begins: the caller takes a ticket.
    Ticket,
    /// A caller that waits leaves, once its ticket is notified.
    Leave,
    /// `Signal`.
    Signal,
    /// `Broadcast`.
    Broadcast,
}

/// A call takes a ticket, leaves with it, or notifies. The caller of a `Wait` gives the mutex up between the first two.
impl Protocol for NotifyCore {
    type Stage = CondStage;

    type Outcome = ();

    type Stand = ();

    ghost event = { cond_event };

    ghost moment = { cond_moment };

    ghost meaning = { cond_meaning };

    ghost out = { tt };

    ghost stands = { cond_stands };

    ghost left = { λ _. tt };

    ghost allows = { cond_allows };

    ghost gives = { cond_gives };

    ghost gains = { cond_gains };

    ghost begins = { CondBegins };

    fn event(stage: CondStage, _now: u64) -> NotifyEvent {
        match stage {
            CondStage::Ticket => NotifyEvent::Ticket,
            CondStage::Leave => NotifyEvent::Leave,
            CondStage::Signal => NotifyEvent::Signal,
            CondStage::Broadcast => NotifyEvent::Broadcast,
        }
    }

    fn is_timed(_stage: CondStage) -> bool {
        false
    }

    fn meaning(stage: CondStage, reply: &NotifyReply) -> Step<CondStage, ()> {
        match (stage, reply) {
            (_, NotifyReply::Done) => Step::Finished(()),
            (CondStage::Leave, NotifyReply::Still) => Step::Waits(CondStage::Leave),
            _ => Step::Never,
        }
    }

    fn laws() {
        answers_its_callers();
    }
}
