//! The types of a table's atomics.
ghost use Rattle.std.specs.Prelude.{◌≡◌, ◌<◌, Some, length, slice_get};
ghost use Rattle.shared_table.specs.Tables.{kinds_of};

use crate::table::SharedTable;
use sync_types::AtomicKind;

impl SharedTable {
    /// The type of the atomic of this number.
    pub fn kind(&self, atomic: u32) -> AtomicKind
        requires { atomic < length (kinds_of self.now) }
        ensures { slice_get (kinds_of self.now) atomic ≡ Some result }
    {
        self.words.kind(atomic)
    }
}
