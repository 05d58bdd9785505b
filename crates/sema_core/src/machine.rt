//! A weighted semaphore as a machine that callers share.
use crate::event::{SemaEvent, SemaReply};
use crate::sema::SemaCore;
use sync_model::{Callers, Machine, Worded};

/// A release synchronizes before each later acquire that returns, with the weight had at once or granted. Go's documentation
/// names no edges of a semaphore: these are those of its lock and channels, as for a mutex.
impl Machine for SemaCore {
    ghost use Rattle.std.specs.Prelude.{true};
    ghost use Rattle.sema_core.specs.SemaMachine.{next};
    ghost use Rattle.sema_core.specs.SemaEdges.{sema_releases, sema_acquires};

    type State = SemaCore;

    type Event = SemaEvent;

    type Reply = SemaReply;

    const HALTS: bool = true;

    ghost HALTS = { true };

    ghost next = { next };

    ghost frees = { sema_releases };

    ghost takes = { sema_acquires };

    #[inline(always)]
    fn step(state: &mut SemaCore, caller: u32, event: SemaEvent) -> SemaReply {
        state.step(caller, event)
    }

    fn releases(event: &SemaEvent, reply: &SemaReply) -> bool {
        match event {
            SemaEvent::Release(_) => matches!(reply, SemaReply::Done),
            SemaEvent::Acquire(_) | SemaEvent::Try(_) | SemaEvent::Leave => false,
        }
    }

    fn acquires(event: &SemaEvent, reply: &SemaReply) -> bool {
        match event {
            SemaEvent::Release(_) => false,
            SemaEvent::Acquire(_) | SemaEvent::Try(_) | SemaEvent::Leave => {
                matches!(reply, SemaReply::Done)
            }
        }
    }

    /// A release lets those go on whom it grants their weights.
    fn wakes(state: &SemaCore, event: &SemaEvent, reply: &SemaReply) -> Callers {
        match (event, reply) {
            (SemaEvent::Release(_), SemaReply::Done) => state.granted(),
            _ => Callers::nobody(),
        }
    }
}

// Its objects' word tells nothing.
impl Worded for SemaCore {
    const TELLS: bool = false;

    #[inline(always)]
    fn word(_state: &SemaCore) -> u64 {
        0
    }

    #[inline(always)]
    fn refresh(_kept: &mut SemaCore, _word: u64) {}

    #[inline(always)]
    fn quick(
        kept: &mut SemaCore,
        _word: u64,
        caller: u32,
        event: SemaEvent,
    ) -> Option<(u64, SemaReply)> {
        Some((0, Self::step(kept, caller, event)))
    }
}
