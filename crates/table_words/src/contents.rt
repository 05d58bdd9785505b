//! What an atomic holds, and what a key of a map has.
ghost use Rattle.std.specs.Prelude.{◌≡◌, ◌+◌, ◌<◌, ◌≤◌, length, slice_get};
ghost use Rattle.std.specs.Mem.Slots.{slots_items, slots_len, IsFull};
ghost use Rattle.table_words.specs.EndContents.{contents_of};
ghost use Rattle.table_words.specs.EndWords.{contents_in, IsTableRow};

use crate::ended::TableEnds;
use atomic_table::Closed;
use std::alloc::Global;
use sync_types::{AtomicKind, Number, Seq, of_word};

impl TableEnds {
    /// A table's words, which stand for atomics of these types and for so many maps, whose keys are hashed with the seed.
    pub fn new(closed: Closed<(), Global>, kinds: Seq<AtomicKind>, maps: u32, seed: u32) -> Self
        requires words { IsFull closed.words × (slots_len closed.slots ≡ 0) }
        requires objects { length kinds + maps ≤ 1000 }
        requires row { IsTableRow kinds (slots_items closed.words) maps seed }
        ensures contents { contents_of result ≡ contents_in kinds (slots_items closed.words) maps }
    {
        TableEnds {
            closed,
            kinds,
            maps,
            seed,
        }
    }

    /// What an atomic holds, if there is one of this number.
    pub fn number(&self, atomic: u32) -> Option<Number>
        ensures { result ≡ slice_get (contents_of self.now).numbers atomic }
    {
        let kind = self.kind(atomic)?;
        Some(of_word(kind, self.word(1 + atomic as usize)))
    }

    // The type of an atomic, if there is one of this number.
    fn kind(&self, atomic: u32) -> Option<AtomicKind>
        ensures { result ≡ slice_get self.now.kinds atomic }
    {
        self.kinds.as_slice().get(atomic as usize).copied()
    }
}
