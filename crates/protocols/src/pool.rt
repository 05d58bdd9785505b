//! The calls of a pool that are one event each.
ghost use Rattle.std.specs.Prelude.{false};
ghost use Rattle.protocols.specs.PoolStages.{pool_event, pool_moment, pool_meaning, pool_stands, pool_allows, pool_gives, pool_gains, PoolBegins};

use crate::protocol::Protocol;
use crate::step::Step;
use pool_core::laws::answers_its_callers;
use pool_core::{PoolCore, PoolEvent, PoolReply};

/// One event of a call on a pool.
#[derive(Clone, Copy, Drop)]
pub enum PoolStage {
    /// `Put` of this item.
    Put(u64),
    /// A `Get` looks at the caller's own part.
    LookOwn,
    /// A `Get` looks at the shared items of a part.
    LookOther(u32),
    /// A `Get` looks at the victims of a part.
    LookVictim(u32),
    /// A cleanup.
    Sweep,
}

/// What a call on a pool comes to.
#[derive(Clone, Copy, Drop)]
pub enum PoolOutcome {
    /// The pool has the item.
    Kept,
    /// The part is full, and the item stands here.
    Dropped(u64),
    /// The look took this item.
    Item(u64),
    /// The look found nothing.
    Nothing,
    /// The cleanup was made.
    Swept,
}

/// A call puts, looks or sweeps, and is done at once. Nobody waits.
impl Protocol for PoolCore {
    type Stage = PoolStage;

    type Outcome = PoolOutcome;

    type Stand = ();

    ghost event = { pool_event };

    ghost moment = { pool_moment };

    ghost meaning = { pool_meaning };

    ghost out = { tt };

    ghost stands = { pool_stands };

    ghost left = { λ _. tt };

    ghost allows = { pool_allows };

    ghost gives = { pool_gives };

    ghost gains = { pool_gains };

    ghost begins = { PoolBegins };

    fn event(stage: PoolStage, _now: u64) -> PoolEvent<u64> {
        match stage {
            PoolStage::Put(item) => PoolEvent::Put(item),
            PoolStage::LookOwn => PoolEvent::LookOwn,
            PoolStage::LookOther(part) => PoolEvent::LookOther(part),
            PoolStage::LookVictim(part) => PoolEvent::LookVictim(part),
            PoolStage::Sweep => PoolEvent::Sweep,
        }
    }

    fn is_timed(_stage: PoolStage) -> bool {
        false
    }

    fn meaning(stage: PoolStage, reply: &PoolReply<u64>) -> Step<PoolStage, PoolOutcome> {
        match (stage, reply) {
            (PoolStage::Put(_), PoolReply::Kept) => Step::Finished(PoolOutcome::Kept),
            (PoolStage::Put(_), PoolReply::Dropped(item)) => {
                Step::Finished(PoolOutcome::Dropped(*item))
            }
            (PoolStage::Sweep, PoolReply::Swept) => Step::Finished(PoolOutcome::Swept),
            (PoolStage::Put(_) | PoolStage::Sweep, _) => Step::Never,
            (_, PoolReply::Item(item)) => Step::Finished(PoolOutcome::Item(*item)),
            (_, PoolReply::Nothing) => Step::Finished(PoolOutcome::Nothing),
            _ => Step::Never,
        }
    }

    fn laws() {
        answers_its_callers();
    }
}
