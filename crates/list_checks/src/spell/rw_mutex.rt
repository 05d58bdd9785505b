//! The calls of a reader/writer mutex, as a list spells them.
ghost use Rattle.std.specs.Prelude.{◌≡◌, ◌≤◌, length, drop, Option};
ghost use Rattle.rw_core.specs.declared.event.RwEvent.{RwEvent};
ghost use Rattle.rw_core.specs.declared.reply.RwReply.{RwReply};
ghost use Rattle.run_cuts.specs.RwMutexCuts.{rw_event_in, rw_reply_in, is_rw_event, rw_deed_in, by_rw_deed, rw_mutex_cut, rw_stages_cut, is_writer_event, writer_event, arrival_move, woken_move, leave_move, still_move};
ghost use Rattle.list_checks.specs.SpellFound.{move_of, IsFound};

use crate::spell::automaton::{Automaton, Kind, Moved, spell_stages};
use crate::spell::spelt::{Found, Spelt};
use protocols::RwMutexStage;
use run_cuts::WriterStage;
use run_record::{Made, ObjectEvent, ObjectReply};
use rw_core::{Arrival, Resumption, RwCore, RwEvent, RwReply};
use script_calls::Reply;
use sync_model::Deed;
use sync_types::{LockReply, RwMutexCall};

impl Kind for RwCore {
    ghost event_in = { rw_event_in };

    ghost reply_in = { rw_reply_in };

    ghost is_event = { is_rw_event };

    fn event_in(event: ObjectEvent) -> Option<RwEvent> {
        match event {
            ObjectEvent::RwMutex(event) => Some(event),
            _ => None,
        }
    }

    fn reply_in(reply: ObjectReply) -> Option<RwReply> {
        match reply {
            ObjectReply::RwMutex(reply) => Some(reply),
            _ => None,
        }
    }

    fn is_event(stage: RwMutexStage, event: &RwEvent) -> bool {
        match (stage, event) {
            (RwMutexStage::Lock, RwEvent::WriteArrive { .. }) => true,
            (RwMutexStage::TryLock, RwEvent::WriteTry) => true,
            (RwMutexStage::Unlock, RwEvent::WriteUnlock) => true,
            (RwMutexStage::Resume | RwMutexStage::Inner, RwEvent::WriteWoken { .. }) => true,
            (RwMutexStage::LeaveWriting | RwMutexStage::Behind, RwEvent::Leave) => true,
            (RwMutexStage::RLock, RwEvent::ReadArrive) => true,
            (RwMutexStage::TryRLock, RwEvent::ReadTry) => true,
            (RwMutexStage::RUnlock, RwEvent::ReadUnlock) => true,
            (RwMutexStage::LeaveReading, RwEvent::Leave) => true,
            _ => false,
        }
    }
}

/// A writer's `lock`, in which answers `Still` may stand wherever it waits.
pub struct WriterLock;

impl Automaton for WriterLock {
    type Stage = WriterStage;

    type Outcome = LockReply;

    ghost moves = { λ stage deed. by_rw_deed stage (rw_deed_in deed) };

    fn moves(
        stage: WriterStage,
        deed: &Deed<ObjectEvent, ObjectReply>,
    ) -> Moved<WriterStage, LockReply> {
        match deed {
            Deed::Event(ObjectEvent::RwMutex(event), ObjectReply::RwMutex(reply)) => {
                answered(stage, *event, *reply)
            }
            Deed::Refused(ObjectEvent::RwMutex(event), misuse) if is_writers(stage, *event) => {
                Moved::Halted(*misuse)
            }
            _ => Moved::Wrong,
        }
    }
}

// Whether a halt may refuse the event, which is the last of the lock.
fn is_writers(stage: WriterStage, event: RwEvent) -> bool
    ensures { result ≡ is_writer_event stage event }
{
    match (stage, event) {
        (WriterStage::Arriving, RwEvent::WriteArrive { .. }) => true,
        (WriterStage::Queued | WriterStage::Inner, RwEvent::WriteWoken { .. }) => true,
        (WriterStage::Queued | WriterStage::AfterReaders, RwEvent::Leave) => true,
        _ => false,
    }
}

// How the lock goes on by the answer to an event.
fn answered(stage: WriterStage, event: RwEvent, reply: RwReply) -> Moved<WriterStage, LockReply>
    ensures { move_of result ≡ writer_event stage event reply }
{
    match (stage, event) {
        (WriterStage::Arriving, RwEvent::WriteArrive { .. }) => arrived(reply),
        (WriterStage::Queued | WriterStage::Inner, RwEvent::WriteWoken { .. }) => {
            woken(stage, reply)
        }
        (WriterStage::Queued | WriterStage::AfterReaders, RwEvent::Leave) => left(stage, reply),
        (WriterStage::Inner, RwEvent::Leave)
        | (WriterStage::AfterReaders, RwEvent::WriteWoken { .. }) => waited(stage, reply),
        _ => Moved::Wrong,
    }
}

fn arrived(reply: RwReply) -> Moved<WriterStage, LockReply>
    ensures { move_of result ≡ arrival_move reply }
{
    match reply {
        RwReply::Arrived(Arrival::Acquired) => Moved::Done(LockReply::Done),
        RwReply::Arrived(Arrival::Queued) => Moved::On(WriterStage::Queued),
        _ => Moved::Wrong,
    }
}

fn woken(stage: WriterStage, reply: RwReply) -> Moved<WriterStage, LockReply>
    ensures { move_of result ≡ woken_move stage reply }
{
    match reply {
        RwReply::Still => Moved::On(stage),
        RwReply::Resumed(Resumption::Acquired) => Moved::Done(LockReply::Done),
        RwReply::Resumed(Resumption::Queued) => Moved::On(WriterStage::AfterReaders),
        RwReply::Resumed(Resumption::Requeued) => Moved::On(WriterStage::Inner),
        _ => Moved::Wrong,
    }
}

fn left(stage: WriterStage, reply: RwReply) -> Moved<WriterStage, LockReply>
    ensures { move_of result ≡ leave_move stage reply }
{
    match reply {
        RwReply::Still => Moved::On(stage),
        RwReply::Left => Moved::Done(LockReply::Done),
        _ => Moved::Wrong,
    }
}

fn waited(stage: WriterStage, reply: RwReply) -> Moved<WriterStage, LockReply>
    ensures { move_of result ≡ still_move stage reply }
{
    match reply {
        RwReply::Still => Moved::On(stage),
        _ => Moved::Wrong,
    }
}

/// The call of a reader/writer mutex with which a list goes on behind a place.
pub fn spell_rw_mutex(
    object: usize,
    call: RwMutexCall,
    items: &[Made],
    from: usize,
) -> Found<Reply<u32>>
    requires { from ≤ length items.now }
    ensures { IsFound items.now from (rw_mutex_cut object call (drop from items.now)) result }
{
    let stage = match call {
        RwMutexCall::Lock => {
            let spelt = spell_stages::<WriterLock>(object, WriterStage::Arriving, items, from)?;
            return Ok(Spelt {
                end: spelt.end,
                outcome: Reply::Lock(spelt.outcome),
            });
        }
        RwMutexCall::Unlock => RwMutexStage::Unlock,
        RwMutexCall::TryLock => RwMutexStage::TryLock,
        RwMutexCall::RLock => RwMutexStage::RLock,
        RwMutexCall::RUnlock => RwMutexStage::RUnlock,
        RwMutexCall::TryRLock => RwMutexStage::TryRLock,
    };
    let spelt = spell_stages::<RwCore>(object, stage, items, from)?;
    Ok(Spelt {
        end: spelt.end,
        outcome: Reply::Lock(spelt.outcome),
    })
}
