//! The calls of a mutex, as a list spells them.
ghost use Rattle.std.specs.Prelude.{◌≡◌, ◌≤◌, length, drop};
ghost use Rattle.run_cuts.specs.MutexCuts.{mutex_event_in, mutex_reply_in, is_mutex_event, mutex_cut};
ghost use Rattle.list_checks.specs.SpellFound.{IsFound};

use crate::spell::automaton::{Kind, spell_stages};
use crate::spell::spelt::{Found, Spelt};
use mutex_core::{MutexCore, MutexEvent, MutexReply};
use protocols::MutexStage;
use run_record::{Made, ObjectEvent, ObjectReply};
use script_calls::Reply;
use sync_types::MutexCall;

impl Kind for MutexCore {
    ghost event_in = { mutex_event_in };

    ghost reply_in = { mutex_reply_in };

    ghost is_event = { is_mutex_event };

    fn event_in(event: ObjectEvent) -> Option<MutexEvent> {
        match event {
            ObjectEvent::Mutex(event) => Some(event),
            _ => None,
        }
    }

    fn reply_in(reply: ObjectReply) -> Option<MutexReply> {
        match reply {
            ObjectReply::Mutex(reply) => Some(reply),
            _ => None,
        }
    }

    fn is_event(stage: MutexStage, event: &MutexEvent) -> bool {
        matches!(
            (stage, event),
            (MutexStage::Lock, MutexEvent::Arrive { .. })
                | (MutexStage::TryLock, MutexEvent::Try)
                | (MutexStage::Unlock, MutexEvent::Unlock)
                | (MutexStage::Resume, MutexEvent::Woken { .. })
        )
    }
}

/// The call of a mutex with which a list goes on behind a place.
pub fn spell_mutex(object: usize, call: MutexCall, items: &[Made], from: usize) -> Found<Reply<u32>>
    requires { from ≤ length items.now }
    ensures { IsFound items.now from (mutex_cut object call (drop from items.now)) result }
{
    let stage = match call {
        MutexCall::Lock => MutexStage::Lock,
        MutexCall::Unlock => MutexStage::Unlock,
        MutexCall::TryLock => MutexStage::TryLock,
    };
    let spelt = spell_stages::<MutexCore>(object, stage, items, from)?;
    Ok(Spelt {
        end: spelt.end,
        outcome: Reply::Lock(spelt.outcome),
    })
}
