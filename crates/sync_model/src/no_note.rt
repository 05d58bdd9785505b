//! A note that carries nothing.
ghost use Rattle.std.specs.Prelude.{◌≡◌, [], None};

use crate::note::Note;
use stamps::Stamp;

/// A note that knows of no caller's shared calls, and has no size. For programs that want the objects, and ask for no
/// fronts: their events cost nothing for notes then.
#[derive(Drop)]
pub struct NoNote {
    stamp: Stamp,
}

impl NoNote {
    /// A note of whom nothing is known, not even an event.
    #[inline(always)]
    pub fn new() -> Self
        ensures { result.stamp.time ≡ 0 }
    {
        NoNote {
            stamp: Stamp::first(),
        }
    }
}

impl NoNote {
    /// A note of whom the last event has this number.
    #[inline(always)]
    pub fn at(stamp: Stamp) -> Self
        ensures { result.stamp.time ≡ stamp.time }
    {
        NoNote { stamp }
    }

    /// The number of the last event.
    #[inline(always)]
    pub fn time(&self) -> Stamp
        ensures { result.time ≡ self.now.stamp.time }
    {
        self.stamp.same()
    }
}

impl Note for NoNote {
    type Home = ();

    ghost front = { λ note. record { counts = []; time = note.stamp.time } };

    ghost own = { λ _. None };

    ghost at = { λ _ _. Unit {0} };

    ghost counted = { λ _ _ _. tt };

    fn copy(&mut self, _home: &()) -> Self {
        NoNote {
            stamp: self.stamp.same(),
        }
    }

    fn merge(&mut self, _home: &(), _other: Self) {}

    fn take_in(&mut self, _home: &(), _other: &mut Self) {}

    fn meet(&mut self, other: &mut Self) {
        self.stamp.meet(&mut other.stamp);
    }
}
