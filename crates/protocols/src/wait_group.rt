//! The calls of a wait group.
ghost use Rattle.std.specs.Prelude.{false};
ghost use Rattle.wait_cores.specs.GroupStanding.{waits_after};
ghost use Rattle.protocols.specs.GroupStages.{group_event, group_moment, group_meaning, group_allows, group_gives, group_gains, GroupBegins};

use crate::protocol::Protocol;
use crate::step::Step;
use wait_cores::laws::group::knows_where_it_stands;
use wait_cores::{GroupCore, GroupEvent, GroupReply};

/// One event of a call on a wait group.
#[derive(Clone, Copy, Drop)]
pub enum GroupStage {
    /// `Add` of this number.
    Add(i32),
    /// `Done`.
    Done,
    /// `Wait`.
    Wait,
    /// A caller that waits leaves, once it is released.
    Leave,
}

/// A call adds, or waits for the counter to be 0. A caller stands waiting, or it doesn't.
impl Protocol for GroupCore {
    type Stage = GroupStage;

    type Outcome = ();

    type Stand = bool;

    ghost event = { group_event };

    ghost moment = { group_moment };

    ghost meaning = { group_meaning };

    ghost out = { false };

    ghost stands = { waits_after };

    ghost left = { λ _. false };

    ghost allows = { group_allows };

    ghost gives = { group_gives };

    ghost gains = { group_gains };

    ghost begins = { GroupBegins };

    fn event(stage: GroupStage, _now: u64) -> GroupEvent {
        match stage {
            GroupStage::Add(delta) => GroupEvent::Add(delta),
            GroupStage::Done => GroupEvent::Add(-1),
            GroupStage::Wait => GroupEvent::Wait,
            GroupStage::Leave => GroupEvent::Leave,
        }
    }

    fn is_timed(_stage: GroupStage) -> bool {
        false
    }

    fn meaning(stage: GroupStage, reply: &GroupReply) -> Step<GroupStage, ()> {
        match (stage, reply) {
            (GroupStage::Add(_) | GroupStage::Done, GroupReply::Done) => Step::Finished(()),
            (GroupStage::Add(_) | GroupStage::Done, GroupReply::Misused(misuse)) => {
                Step::Misused(*misuse)
            }
            (GroupStage::Wait, GroupReply::Done) => Step::Finished(()),
            (GroupStage::Wait, GroupReply::Queued) => Step::Waits(GroupStage::Leave),
            (GroupStage::Leave, GroupReply::Done) => Step::Finished(()),
            (GroupStage::Leave, GroupReply::Misused(misuse)) => Step::Misused(*misuse),
            (GroupStage::Leave, GroupReply::Still) => Step::Waits(GroupStage::Leave),
            _ => Step::Never,
        }
    }

    fn laws() {
        knows_where_it_stands();
    }
}
