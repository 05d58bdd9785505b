//! The word of an object that callers share.
//!
//! Who makes an event takes the word, by its highest bit, and gives it back with the new value. While nobody has it, it
//! tells of the machine's state. So an event that the word alone decides needn't look at the state: where that lies, it
//! is then older than the word, and `refresh` brings it up to date before it is used.
ghost use Rattle.std.specs.Prelude.{◌≡◌, ℕ, ◌<◌, ◌^◌, Bool, true, false, IfSome, IfNone};

use crate::machine::Machine;

/// The bit of the word that is set while a caller has it.
pub const HELD: u64 = 0x8000_0000_0000_0000;

/// A machine whose objects have a word that tells of its state. Most words tell nothing, which is what the ghost members say
/// where an impl keeps them: who has such a word has all of the state, each event is made on it at once, and no object of the
/// machine has any use for a turn.
pub trait Worded: Machine {
    /// Whether the word tells anything.
    const TELLS: bool;

    // What the word tells of a state.
    ghost tells: { Self.State → ℕ } = { λ state. 0 };

    // The state that a kept one and the word stand for together.
    ghost means: { Self.State → ℕ → Self.State } = { λ kept word. kept };

    // The word alone decides a caller's event at this state.
    ghost alone: { Self.State → ℕ → Self.Event → Bool } = { λ state caller event. true };

    /// The word of a state.
    fn word(state: &Self::State) -> u64
        ensures word { (result ≡ tells state.now) × (result < 2 ^ 63) }
        ensures kept { means state.now result ≡ state.now };

    /// Brings a kept state up to date by the word.
    fn refresh(kept: &mut Self::State, word: u64)
        ensures { kept.new ≡ means kept.old word };

    /// An event that the word alone decides: the word after it, and the reply. What is then kept stands with the new word for
    /// the state after the event. Where the word alone doesn't decide the event nothing changes.
    fn quick(
        kept: &mut Self::State,
        word: u64,
        caller: u32,
        event: Self::Event,
    ) -> Option<(u64, Self::Reply)>
        requires { tells (means kept.old word) ≡ word }
        ensures decided { IfSome result (λ did. (Self.next (means kept.old word) caller event ≡ (means kept.new did.0, did.1)) × (tells (means kept.new did.0) ≡ did.0) × (did.0 < 2 ^ 63)) }
        ensures left { IfNone result ((kept.new ≡ kept.old) × (alone (means kept.old word) caller event ≡ false)) };
}
