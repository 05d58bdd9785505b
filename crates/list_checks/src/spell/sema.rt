//! The calls of a weighted semaphore, as a list spells them.
ghost use Rattle.std.specs.Prelude.{◌≡◌, ◌≤◌, length, drop};
ghost use Rattle.run_cuts.specs.SemaCuts.{sema_event_in, sema_reply_in, is_sema_event, sema_cut};
ghost use Rattle.list_checks.specs.SpellFound.{IsFound};

use crate::spell::automaton::{Kind, spell_stages};
use crate::spell::spelt::{Found, Spelt};
use run_record::{Made, ObjectEvent, ObjectReply};
use script_calls::Reply;
use sema_core::{SemaCore, SemaEvent, SemaReply, SemaStage};
use sync_types::SemaCall;

impl Kind for SemaCore {
    ghost event_in = { sema_event_in };

    ghost reply_in = { sema_reply_in };

    ghost is_event = { is_sema_event };

    fn event_in(event: ObjectEvent) -> Option<SemaEvent> {
        match event {
            ObjectEvent::Sema(event) => Some(event),
            _ => None,
        }
    }

    fn reply_in(reply: ObjectReply) -> Option<SemaReply> {
        match reply {
            ObjectReply::Sema(reply) => Some(reply),
            _ => None,
        }
    }

    fn is_event(stage: SemaStage, event: &SemaEvent) -> bool {
        match (stage, event) {
            (SemaStage::Acquire(weight), SemaEvent::Acquire(told)) => *told == weight,
            (SemaStage::Try(weight), SemaEvent::Try(told)) => *told == weight,
            (SemaStage::Release(weight), SemaEvent::Release(told)) => *told == weight,
            (SemaStage::Leave, SemaEvent::Leave) => true,
            _ => false,
        }
    }
}

/// The call of a semaphore with which a list goes on behind a place.
pub fn spell_sema(object: usize, call: SemaCall, items: &[Made], from: usize) -> Found<Reply<u32>>
    requires { from ≤ length items.now }
    ensures { IsFound items.now from (sema_cut object call (drop from items.now)) result }
{
    let stage = match call {
        SemaCall::Acquire(weight) => SemaStage::Acquire(weight),
        SemaCall::TryAcquire(weight) => SemaStage::Try(weight),
        SemaCall::Release(weight) => SemaStage::Release(weight),
    };
    let spelt = spell_stages::<SemaCore>(object, stage, items, from)?;
    Ok(Spelt {
        end: spelt.end,
        outcome: Reply::Lock(spelt.outcome),
    })
}
