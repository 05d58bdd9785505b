//! The calls of a pool that are one event each, at one part of it.
ghost use Rattle.std.specs.Prelude.{true};
ghost use Rattle.protocols.specs.PoolStages.{pool_event, pool_moment, pool_meaning, pool_stands, pool_gives, pool_gains, PartBegins};

use crate::pool::{PoolOutcome, PoolStage};
use crate::protocol::Protocol;
use crate::step::Step;
use pool_core::part_laws::a_part_answers;
use pool_core::{PartCore, PoolCore, PoolEvent, PoolReply};

/// The stages are those of the whole pool. At which part a stage is made is said by who makes it.
impl Protocol for PartCore {
    type Stage = PoolStage;

    type Outcome = PoolOutcome;

    type Stand = ();

    ghost event = { pool_event };

    ghost moment = { pool_moment };

    ghost meaning = { pool_meaning };

    ghost out = { tt };

    ghost stands = { pool_stands };

    ghost left = { λ _. tt };

    ghost allows = { λ _ _ _. true };

    ghost gives = { pool_gives };

    ghost gains = { pool_gains };

    ghost begins = { PartBegins };

    fn event(stage: PoolStage, now: u64) -> PoolEvent<u64> {
        <PoolCore as Protocol>::event(stage, now)
    }

    fn is_timed(_stage: PoolStage) -> bool {
        false
    }

    fn meaning(stage: PoolStage, reply: &PoolReply<u64>) -> Step<PoolStage, PoolOutcome> {
        <PoolCore as Protocol>::meaning(stage, reply)
    }

    fn laws() {
        <PoolCore as Protocol>::laws();
        a_part_answers();
    }
}
