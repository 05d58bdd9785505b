//! A shared table's note is a caller's note.
ghost use Rattle.shared_table.specs.Notes.{front_by, own_by, IsNoteOf};
ghost use Rattle.shared_table.specs.Counted.{is_counted};

use crate::note::SharedNote;
use crate::table::SharedTable;
use sync_model::{CallerNote, Note};

impl Note for SharedNote {
    type Home = SharedTable;

    ghost front = { front_by };

    ghost own = { own_by };

    ghost at = { IsNoteOf };

    fn copy(&mut self, home: &SharedTable) -> Self {
        home.copy(self)
    }

    fn merge(&mut self, home: &SharedTable, other: Self) {
        home.merge(self, other);
    }

    fn meet(&mut self, other: &mut Self) {
        self.stamp.meet(&mut other.stamp);
    }

    ghost counted = { is_counted };
}

impl CallerNote for SharedNote {
    fn number(&self) -> u32 {
        self.number
    }

    fn spare(&self) -> u32 {
        self.spare
    }
}
