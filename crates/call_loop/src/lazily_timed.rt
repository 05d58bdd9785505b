//! Protocols some of whose events need no moment.
ghost use Rattle.std.specs.Prelude.{◌≡◌, ℕ, Bool, true};
ghost use Rattle.call_loop.specs.Lazy.{mutex_settles, rw_settles};
ghost use Rattle.call_loop.specs.Stages.{EndsCall};

use mutex_core::MutexCore;
use mutex_core::laws::newcomers as mutex_newcomers;
use protocols::{MutexStage, Protocol, RwMutexStage};
use rw_core::RwCore;
use rw_core::laws::newcomers as rw_newcomers;
use sync_model::Worded;

/// A protocol that tells where a stage's event ends its call and no moment matters to it, so that no clock is read for it.
pub trait LazilyTimed: Protocol + Worded {
    // In this state the stage's event is such a one.
    ghost settles: { Self.Stage → Self.State → Bool };

    /// Whether it is such a one in the state that the kept one and the word stand for together: the call ends with it, whoever
    /// makes it and at whatever moment, and at each moment it is answered the same and leaves the same state.
    fn needs_no_moment(stage: Self::Stage, kept: &Self::State, word: u64) -> bool
        requires { word ≡ Self.tells (Self.means kept.now word) }
        ensures exact { result ≡ settles stage (Self.means kept.now word) }
        ensures ends { result ≡ true → (caller now : ℕ) → EndsCall (Self.meaning stage (Self.next (Self.means kept.now word) caller (Self.event stage now)).1) }
        ensures any_moment { result ≡ true → (caller now other : ℕ) → Self.next (Self.means kept.now word) caller (Self.event stage now) ≡ Self.next (Self.means kept.now word) caller (Self.event stage other) };
}

/// A newcomer acquires an open mutex at once: one that isn't locked and isn't in starvation mode. The word tells both.
impl LazilyTimed for MutexCore {
    ghost settles = { mutex_settles };

    #[inline(always)]
    fn needs_no_moment(stage: MutexStage, kept: &MutexCore, word: u64) -> bool {
        mutex_newcomers();
        match stage {
            MutexStage::Lock => kept.tells_open(word),
            _ => false,
        }
    }
}

/// A writer that arrives acquires an open lock at once: one that no reader holds, and whose inner mutex is open.
impl LazilyTimed for RwCore {
    ghost settles = { rw_settles };

    #[inline(always)]
    fn needs_no_moment(stage: RwMutexStage, kept: &RwCore, _word: u64) -> bool {
        rw_newcomers();
        match stage {
            RwMutexStage::Lock => kept.is_open(),
            _ => false,
        }
    }
}
