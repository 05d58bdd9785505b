//! The calls of a mutex.
ghost use Rattle.std.specs.Prelude.{false};
ghost use Rattle.protocols.specs.MutexStages.{mutex_event, mutex_moment, mutex_meaning, mutex_stands, mutex_allows, mutex_gives, mutex_gains, MutexBegins};

use crate::protocol::Protocol;
use crate::step::Step;
use mutex_core::{Arrival, MutexCore, MutexEvent, MutexReply, Resumption, Unlocking, laws};
use sync_types::LockReply;

/// One event of a call on a mutex.
#[derive(Clone, Copy, Drop)]
pub enum MutexStage {
    /// `Lock` arrives.
    Lock,
    /// `TryLock`.
    TryLock,
    /// `Unlock`.
    Unlock,
    /// A waiter of `Lock` goes on.
    Resume,
}

/// A call is a `lock`, which may wait, a `try_lock` or an `unlock`. A caller stands waiting, or it doesn't.
impl Protocol for MutexCore {
    type Stage = MutexStage;

    type Outcome = LockReply;

    type Stand = bool;

    ghost event = { mutex_event };

    ghost moment = { mutex_moment };

    ghost meaning = { mutex_meaning };

    ghost out = { false };

    ghost stands = { mutex_stands };

    ghost left = { λ _. false };

    ghost allows = { mutex_allows };

    ghost gives = { mutex_gives };

    ghost gains = { mutex_gains };

    ghost begins = { MutexBegins };

    fn event(stage: MutexStage, now: u64) -> MutexEvent {
        match stage {
            MutexStage::Lock => MutexEvent::Arrive { now },
            MutexStage::TryLock => MutexEvent::Try,
            MutexStage::Unlock => MutexEvent::Unlock,
            MutexStage::Resume => MutexEvent::Woken { now },
        }
    }

    fn is_timed(stage: MutexStage) -> bool {
        matches!(stage, MutexStage::Lock | MutexStage::Resume)
    }

    fn meaning(stage: MutexStage, reply: &MutexReply) -> Step<MutexStage, LockReply> {
        match (stage, reply) {
            (MutexStage::Lock, MutexReply::Arrived(Arrival::Acquired)) => {
                Step::Finished(LockReply::Done)
            }
            (MutexStage::Lock, MutexReply::Arrived(Arrival::Queued(_))) => {
                Step::Waits(MutexStage::Resume)
            }
            (MutexStage::TryLock, MutexReply::Tried(acquired)) => {
                Step::Finished(LockReply::Tried(*acquired))
            }
            (MutexStage::Unlock, MutexReply::Unlocked(Unlocking::Misuse(misuse))) => {
                Step::Misused(*misuse)
            }
            (MutexStage::Unlock, MutexReply::Unlocked(_)) => Step::Finished(LockReply::Done),
            (MutexStage::Resume, MutexReply::Resumed(Resumption::Acquired)) => {
                Step::Finished(LockReply::Done)
            }
            (MutexStage::Resume, MutexReply::Resumed(Resumption::Requeued) | MutexReply::Still) => {
                Step::Waits(MutexStage::Resume)
            }
            _ => Step::Never,
        }
    }

    fn laws() {
        laws::validity();
        laws::standing();
    }
}
