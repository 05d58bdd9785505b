//! A table of maps and atomics that has ended: its words don't change any more.
ghost use Rattle.std.specs.Prelude.{◌≡◌, ◌+◌, ◌≤◌, length};
ghost use Rattle.std.specs.Mem.Slots.{slots_items, slots_len, IsFull};
ghost use Rattle.table_words.specs.EndWords.{IsTableRow};

use atomic_table::Closed;
use std::alloc::Global;
use sync_types::{AtomicKind, Seq};

/// What the maps and atomics of a table contain when all calls have returned.
pub struct TableEnds {
    pub(crate) closed: Closed<(), Global>,
    pub(crate) kinds: Seq<AtomicKind>,
    pub(crate) maps: u32,
    pub(crate) seed: u32,
    ghost full: { IsFull closed.words },
    ghost no_slots: { slots_len closed.slots ≡ 0 },
    ghost few: { length kinds + maps ≤ 1000 },
    ghost row: { IsTableRow kinds (slots_items closed.words) maps seed },
}

impl Drop for TableEnds {
    fn drop(self) {
        let Self {
            closed,
            kinds: _,
            maps: _,
            seed: _,
        } = self;
        closed.free();
    }
}
