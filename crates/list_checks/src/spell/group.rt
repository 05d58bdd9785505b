//! The calls of a wait group, as a list spells them.
ghost use Rattle.std.specs.Prelude.{◌≡◌, ◌≤◌, length, drop};
ghost use Rattle.run_cuts.specs.GroupCuts.{group_event_in, group_reply_in, is_group_event, group_cut};
ghost use Rattle.list_checks.specs.SpellFound.{IsFound};

use crate::spell::automaton::{Kind, spell_stages};
use crate::spell::spelt::{Found, Spelt};
use protocols::GroupStage;
use run_record::{Made, ObjectEvent, ObjectReply};
use script_calls::Reply;
use sync_types::WaitGroupCall;
use wait_cores::{GroupCore, GroupEvent, GroupReply};

impl Kind for GroupCore {
    ghost event_in = { group_event_in };

    ghost reply_in = { group_reply_in };

    ghost is_event = { is_group_event };

    fn event_in(event: ObjectEvent) -> Option<GroupEvent> {
        match event {
            ObjectEvent::WaitGroup(event) => Some(event),
            _ => None,
        }
    }

    fn reply_in(reply: ObjectReply) -> Option<GroupReply> {
        match reply {
            ObjectReply::WaitGroup(reply) => Some(reply),
            _ => None,
        }
    }

    fn is_event(stage: GroupStage, event: &GroupEvent) -> bool {
        match (stage, event) {
            (GroupStage::Add(delta), GroupEvent::Add(amount)) => *amount == delta,
            (GroupStage::Done, GroupEvent::Add(amount)) => *amount == -1,
            (GroupStage::Wait, GroupEvent::Wait) => true,
            (GroupStage::Leave, GroupEvent::Leave) => true,
            _ => false,
        }
    }
}

/// The call of a wait group with which a list goes on behind a place.
pub fn spell_group(
    object: usize,
    call: WaitGroupCall,
    items: &[Made],
    from: usize,
) -> Found<Reply<u32>>
    requires { from ≤ length items.now }
    ensures { IsFound items.now from (group_cut object call (drop from items.now)) result }
{
    let stage = match call {
        WaitGroupCall::Add(delta) => GroupStage::Add(delta),
        WaitGroupCall::Done => GroupStage::Done,
        WaitGroupCall::Wait => GroupStage::Wait,
    };
    let spelt = spell_stages::<GroupCore>(object, stage, items, from)?;
    Ok(Spelt {
        end: spelt.end,
        outcome: Reply::Returned,
    })
}
