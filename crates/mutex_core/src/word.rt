//! The packed word of a mutex that callers share, as Go's is one word.
//!
//! It tells whether the mutex is locked and a waiter is woken, the mode, and how many wait. So where it is 0 or 1 nobody
//! waits and nobody is in flight: an event then changes at most whether the mutex is locked, unless it queues its caller.
//! Such an event is decided by the word alone, and the state stays as it lies.
ghost use Rattle.mutex_core.specs.Word.{is_uncontended, told_by, word_of};

use crate::event::MutexEvent;
use crate::mutex::MutexCore;
use crate::reply::MutexReply;
use sync_model::Worded;

impl Worded for MutexCore {
    const TELLS: bool = true;

    ghost tells = { word_of };

    ghost means = { told_by };

    ghost alone = { is_uncontended };

    #[inline(always)]
    fn word(state: &MutexCore) -> u64 {
        state.word()
    }

    #[inline(always)]
    fn refresh(kept: &mut MutexCore, word: u64) {
        kept.refresh(word);
    }

    #[inline(always)]
    fn quick(
        kept: &mut MutexCore,
        word: u64,
        caller: u32,
        event: MutexEvent,
    ) -> Option<(u64, MutexReply)> {
        kept.quick(word, caller, event)
    }
}
