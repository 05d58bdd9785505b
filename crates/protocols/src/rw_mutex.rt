//! The calls of a reader/writer mutex.
ghost use Rattle.std.specs.Prelude.{◌≡◌, false};
ghost use Rattle.protocols.specs.RwMutexStages.{arrive_meaning, try_meaning, unlock_meaning, resume_meaning, inner_meaning, leave_meaning, rw_event, rw_moment, rw_meaning, rw_stands, rw_allows, rw_gives, rw_gains, RwMutexBegins};

use crate::protocol::Protocol;
use crate::step::Step;
use rw_core::{Arrival, Resumption, RwCore, RwEvent, RwReply, Unlocking, laws};
use sync_types::LockReply;

/// One event of a call on a reader/writer mutex.
#[derive(Clone, Copy, Drop)]
pub enum RwMutexStage {
    /// `Lock` arrives.
    Lock,
    /// `TryLock`.
    TryLock,
    /// `Unlock`.
    Unlock,
    /// A writer that was queued goes on. Its arrival didn't tell whether it waits at the mutex that writers go through, or
    /// behind readers: it tries the first.
    Resume,
    /// It wasn't told to go on at that mutex, and leaves, where it was granted the lock.
    LeaveWriting,
    /// A writer that lost that mutex against a newcomer goes on there.
    Inner,
    /// A writer that has that mutex and waits behind readers leaves, where it was granted the lock.
    Behind,
    /// `RLock` arrives.
    RLock,
    /// `TryRLock`.
    TryRLock,
    /// `RUnlock`.
    RUnlock,
    /// A reader that waits leaves, where it was admitted.
    LeaveReading,
}

// How a `Lock` or an `RLock` goes on that has arrived, and waits where it is queued.
fn arrived(reply: &RwReply, later: RwMutexStage) -> Step<RwMutexStage, LockReply>
    ensures { result ≡ arrive_meaning later reply.now }
{
    match reply {
        RwReply::Arrived(Arrival::Acquired) => Step::Finished(LockReply::Done),
        RwReply::Arrived(Arrival::Queued) => Step::Waits(later),
        _ => Step::Never,
    }
}

fn tried(reply: &RwReply) -> Step<RwMutexStage, LockReply>
    ensures { result ≡ try_meaning reply.now }
{
    match reply {
        RwReply::Tried(acquired) => Step::Finished(LockReply::Tried(*acquired)),
        _ => Step::Never,
    }
}

fn unlocked(reply: &RwReply) -> Step<RwMutexStage, LockReply>
    ensures { result ≡ unlock_meaning reply.now }
{
    match reply {
        RwReply::Unlocked(Unlocking::Done) => Step::Finished(LockReply::Done),
        RwReply::Unlocked(Unlocking::Misuse(misuse)) => Step::Misused(*misuse),
        _ => Step::Never,
    }
}

// How a writer goes on that was queued. Where it was told to go on at the inner mutex, it knows from here on where it waits.
fn resumed(reply: &RwReply) -> Step<RwMutexStage, LockReply>
    ensures { result ≡ resume_meaning reply.now }
{
    match reply {
        RwReply::Resumed(Resumption::Acquired) => Step::Finished(LockReply::Done),
        RwReply::Resumed(Resumption::Queued) => Step::Waits(RwMutexStage::Behind),
        RwReply::Resumed(Resumption::Requeued) => Step::Waits(RwMutexStage::Inner),
        RwReply::Still => Step::Next(RwMutexStage::LeaveWriting),
        _ => Step::Never,
    }
}

// The same for one that is known to wait at the inner mutex.
fn resumed_there(reply: &RwReply) -> Step<RwMutexStage, LockReply>
    ensures { result ≡ inner_meaning reply.now }
{
    match reply {
        RwReply::Still => Step::Waits(RwMutexStage::Inner),
        _ => resumed(reply),
    }
}

// How a call goes on whose caller has left, and waits on where it couldn't.
fn leaving(reply: &RwReply, later: RwMutexStage) -> Step<RwMutexStage, LockReply>
    ensures { result ≡ leave_meaning later reply.now }
{
    match reply {
        RwReply::Left => Step::Finished(LockReply::Done),
        RwReply::Still => Step::Waits(later),
        _ => Step::Never,
    }
}

/// A call is a writer's or a reader's lock, which may wait, a try or an unlock. A caller stands waiting, or it doesn't.
impl Protocol for RwCore {
    type Stage = RwMutexStage;

    type Outcome = LockReply;

    type Stand = bool;

    ghost event = { rw_event };

    ghost moment = { rw_moment };

    ghost meaning = { rw_meaning };

    ghost out = { false };

    ghost stands = { rw_stands };

    ghost left = { λ _. false };

    ghost allows = { rw_allows };

    ghost gives = { rw_gives };

    ghost gains = { rw_gains };

    ghost begins = { RwMutexBegins };

    fn event(stage: RwMutexStage, now: u64) -> RwEvent {
        match stage {
            RwMutexStage::Lock => RwEvent::WriteArrive { now },
            RwMutexStage::TryLock => RwEvent::WriteTry,
            RwMutexStage::Unlock => RwEvent::WriteUnlock,
            RwMutexStage::Resume | RwMutexStage::Inner => RwEvent::WriteWoken { now },
            RwMutexStage::RLock => RwEvent::ReadArrive,
            RwMutexStage::TryRLock => RwEvent::ReadTry,
            RwMutexStage::RUnlock => RwEvent::ReadUnlock,
            RwMutexStage::LeaveWriting | RwMutexStage::Behind | RwMutexStage::LeaveReading =>
                RwEvent::Leave,
        }
    }

    fn is_timed(stage: RwMutexStage) -> bool {
        matches!(
            stage,
            RwMutexStage::Lock | RwMutexStage::Resume | RwMutexStage::Inner
        )
    }

    fn meaning(stage: RwMutexStage, reply: &RwReply) -> Step<RwMutexStage, LockReply> {
        match stage {
            RwMutexStage::Lock => arrived(reply, RwMutexStage::Resume),
            RwMutexStage::RLock => arrived(reply, RwMutexStage::LeaveReading),
            RwMutexStage::TryLock | RwMutexStage::TryRLock => tried(reply),
            RwMutexStage::Unlock | RwMutexStage::RUnlock => unlocked(reply),
            RwMutexStage::Resume => resumed(reply),
            RwMutexStage::LeaveWriting => leaving(reply, RwMutexStage::Resume),
            RwMutexStage::Inner => resumed_there(reply),
            RwMutexStage::Behind => leaving(reply, RwMutexStage::Behind),
            RwMutexStage::LeaveReading => leaving(reply, RwMutexStage::LeaveReading),
        }
    }

    fn laws() {
        laws::validity();
        laws::standing();
        laws::still();
    }
}
