//! The calls of a cond, as a list spells them.
ghost use Rattle.std.specs.Prelude.{◌≡◌, ◌≤◌, length, drop};
ghost use Rattle.sync_types.specs.declared.wait_call.CondCall.TheVariants.{Wait};
ghost use Rattle.run_cuts.specs.CondCuts.{cond_event_in, cond_reply_in, is_cond_event, cond_cut, unlock_cut, leave_cut, lock_again_cut};
ghost use Rattle.list_checks.specs.SpellFound.{IsFound};

use crate::spell::automaton::{Kind, spell_stages};
use crate::spell::spelt::{Found, Spelt};
use mutex_core::MutexCore;
use protocols::{CondStage, MutexStage};
use run_record::{Made, ObjectEvent, ObjectReply};
use script_calls::Reply;
use sync_types::CondCall;
use wait_cores::{NotifyCore, NotifyEvent, NotifyReply};

impl Kind for NotifyCore {
    ghost event_in = { cond_event_in };

    ghost reply_in = { cond_reply_in };

    ghost is_event = { is_cond_event };

    fn event_in(event: ObjectEvent) -> Option<NotifyEvent> {
        match event {
            ObjectEvent::Cond(event) => Some(event),
            _ => None,
        }
    }

    fn reply_in(reply: ObjectReply) -> Option<NotifyReply> {
        match reply {
            ObjectReply::Cond(reply) => Some(reply),
            _ => None,
        }
    }

    fn is_event(stage: CondStage, event: &NotifyEvent) -> bool {
        match (stage, event) {
            (CondStage::Ticket, NotifyEvent::Ticket) => true,
            (CondStage::Leave, NotifyEvent::Leave) => true,
            (CondStage::Signal, NotifyEvent::Signal) => true,
            (CondStage::Broadcast, NotifyEvent::Broadcast) => true,
            _ => false,
        }
    }
}

/// The call of a cond, whose mutex has this number, with which a list goes on behind a place. A `wait` takes a ticket, unlocks
/// the mutex, leaves with the ticket, and locks the mutex.
pub fn spell_cond(
    object: usize,
    mutex: usize,
    call: CondCall,
    items: &[Made],
    from: usize,
) -> Found<Reply<u32>>
    requires { from ≤ length items.now }
    ensures { IsFound items.now from (cond_cut object mutex call (drop from items.now)) result }
{
    let end = match call {
        CondCall::Wait => return spell_wait(object, mutex, items, from),
        CondCall::Signal => spell_stages::<NotifyCore>(object, CondStage::Signal, items, from)?.end,
        CondCall::Broadcast => {
            spell_stages::<NotifyCore>(object, CondStage::Broadcast, items, from)?.end
        }
    };
    Ok(Spelt {
        end,
        outcome: Reply::Returned,
    })
}

// The `wait` of a cond with which a list goes on behind a place.
pub(crate) fn spell_wait(
    object: usize,
    mutex: usize,
    items: &[Made],
    from: usize,
) -> Found<Reply<u32>>
    requires { from ≤ length items.now }
    ensures { IsFound items.now from (cond_cut object mutex Wait (drop from items.now)) result }
{
    let ticket = spell_stages::<NotifyCore>(object, CondStage::Ticket, items, from)?;
    spell_behind_ticket(object, mutex, items, ticket.end)
}

// What of a `wait` is behind its ticket: it unlocks the mutex, and goes on.
fn spell_behind_ticket(
    object: usize,
    mutex: usize,
    items: &[Made],
    from: usize,
) -> Found<Reply<u32>>
    requires { from ≤ length items.now }
    ensures { IsFound items.now from (unlock_cut object mutex (drop from items.now)) result }
{
    let unlocked = spell_stages::<MutexCore>(mutex, MutexStage::Unlock, items, from)?;
    spell_leaving(object, mutex, items, unlocked.end)
}

// It leaves with its ticket, and goes on.
fn spell_leaving(object: usize, mutex: usize, items: &[Made], from: usize) -> Found<Reply<u32>>
    requires { from ≤ length items.now }
    ensures { IsFound items.now from (leave_cut object mutex (drop from items.now)) result }
{
    let left = spell_stages::<NotifyCore>(object, CondStage::Leave, items, from)?;
    spell_lock_again(mutex, items, left.end)
}

// It locks the mutex again.
fn spell_lock_again(mutex: usize, items: &[Made], from: usize) -> Found<Reply<u32>>
    requires { from ≤ length items.now }
    ensures { IsFound items.now from (lock_again_cut mutex (drop from items.now)) result }
{
    let locked = spell_stages::<MutexCore>(mutex, MutexStage::Lock, items, from)?;
    Ok(Spelt {
        end: locked.end,
        outcome: Reply::Returned,
    })
}
