//! A caller of shared maps and atomics.
ghost use Rattle.std.specs.Prelude.{◌≡◌};
ghost use Rattle.std.specs.Option.{ForSome};

use crate::note::Note;

/// A note that tells whose it is.
pub trait CallerNote: Note {
    /// The number of the caller whose note it is, from 0.
    fn number(&self) -> u32
        ensures { ForSome (Self.own self.now) (λ holding. result ≡ holding.number) };

    /// How many more calls on maps may store an entry.
    fn spare(&self) -> u32
        ensures { ForSome (Self.own self.now) (λ holding. result ≡ holding.spare) };
}

/// One of the callers of shared maps and atomics. A thread that makes calls has one of its own, and `&mut Caller` is its
/// leave to make a call. The note is what the caller knows of all shared calls: it is public, since locks and the other
/// objects hand on what their callers know.
#[derive(Drop)]
pub struct Caller<N> {
    pub note: N,
}

impl<N: CallerNote> Caller<N> {
    /// The number of the caller, from 0.
    pub fn number(&self) -> u32
        ensures { ForSome (N.own self.now.note) (λ holding. result ≡ holding.number) }
    {
        self.note.number()
    }

    /// How many more calls on maps may store an entry. Every call on a map but a load takes one, whatever it answers.
    pub fn spare(&self) -> u32
        ensures { ForSome (N.own self.now.note) (λ holding. result ≡ holding.spare) }
    {
        self.note.spare()
    }
}
