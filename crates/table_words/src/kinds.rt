//! The types of a table's atomics.
ghost use Rattle.std.specs.Prelude.{◌≡◌, ◌<◌, Some, length, slice_get};
ghost use Rattle.table_words.specs.Seats.{begin_of};

use crate::words::TableWords;
use sync_types::AtomicKind;

impl TableWords {
    /// The type of the atomic of this number.
    pub fn kind(&self, atomic: u32) -> AtomicKind
        requires { atomic < length (begin_of self.now).kinds }
        ensures { slice_get (begin_of self.now).kinds atomic ≡ Some result }
    {
        self.begin.kinds.as_slice()[atomic as usize]
    }
}
