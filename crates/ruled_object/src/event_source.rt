//! Where the event of a call comes from: it is at hand, or made by what the call finds.
ghost use Rattle.std.specs.Prelude.{◌≡◌};

use sync_model::Worded;

/// Gives the event of a call, once the object is its caller's alone. So it may look at the state that the event finds, and
/// take only then what the event needs: a moment of a clock, where the moment matters.
pub trait EventSource<M: Worded> {
    // It may give this event where the object isn't halted and is in this state.
    ghost may: { Self → M.State → M.Event → Type 0 };

    // It may give this event where the object is halted, which refuses it.
    ghost refused: { Self → M.Event → Type 0 };

    /// An event at the state that the kept one and the word stand for together.
    fn event(&self, kept: &M::State, word: u64) -> M::Event
        requires { word ≡ M.tells (M.means kept.now word) }
        ensures { may self.now (M.means kept.now word) result };

    /// An event that a halted object refuses.
    fn refused_event(&self) -> M::Event
        ensures { refused self.now result };
}

// An event that is at hand, whatever it finds.
#[derive(Drop)]
pub(crate) struct Ready<M: Worded> {
    pub(crate) event: M::Event,
}

impl<M: Worded> EventSource<M> for Ready<M> {
    ghost may = { λ ready state event. event ≡ ready.event };

    ghost refused = { λ ready event. event ≡ ready.event };

    #[inline(always)]
    fn event(&self, _kept: &M::State, _word: u64) -> M::Event {
        self.event
    }

    #[inline(always)]
    fn refused_event(&self) -> M::Event {
        self.event
    }
}
