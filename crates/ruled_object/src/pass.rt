//! The pass of one caller to one object.
ghost use Rattle.std.specs.Prelude.{◌≡◌};
ghost use Rattle.ruled_object.specs.Passes.{left_of, number_of, turns_of};

use crate::cell::Cell;
use crate::view::View;
use atomic_table::Seat;
use sync_model::Machine;

/// The right of one caller to call an object. It goes where its caller goes.
#[derive(Drop)]
pub struct Pass<S, N, E, R> {
    pub(crate) number: u32,
    pub(crate) left: u64,
    pub(crate) turns: u64,
    pub(crate) seat: Seat<Option<Cell<S, N>>, View<E, R>>,
}

/// The pass of one caller to an object of this machine.
pub type PassOf<M, N> = Pass<
    <M as Machine>::State,
    N,
    <M as Machine>::Event,
    <M as Machine>::Reply,
>;

impl<S, N, E, R> Pass<S, N, E, R> {
    /// The number of the caller whose pass it is.
    pub fn number(&self) -> u32
        ensures { result ≡ number_of self.now }
    {
        self.number
    }

    /// How many calls of the layers above it is still good for.
    pub fn left(&self) -> u64
        ensures { result ≡ left_of self.now }
    {
        self.left
    }

    /// How often it has taken the turn, or the last value of the type where that is more. It counts for a Mutex alone: the word
    /// of any other object tells nothing of its state, so each event is made at once, and the number stays 0.
    pub fn turns(&self) -> u64
        ensures { result ≡ turns_of self.now }
    {
        self.turns
    }
}
