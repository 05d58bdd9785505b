//! Cursors over the maps of a shared table. A call of a cursor waits for nobody, can't be refused, and takes no memory.
ghost use Rattle.std.specs.Prelude.{◌≡◌, ℕ, ◌<◌, IsSome, None, length};
ghost use Rattle.std.specs.Option.{ForSome};
ghost use Rattle.sync_model.specs.declared.item.SharedCall.TheVariants as calls;
ghost use Rattle.sync_model.specs.declared.item.SharedReply.TheVariants as replies;
ghost use Rattle.sync_model.specs.Note.{SameHome};
ghost use Rattle.sync_model.specs.Shared.{Called, state_of};
ghost use Rattle.shared_table.specs.Ranging.{HasPassedAll, IsCursor};
ghost use Rattle.shared_table.specs.Notes.{front_by, own_by, seen_by, IsNoteOf, IsLawfulFor};
ghost use Rattle.shared_table.specs.Tables.{maps_of, first_of};

use crate::cursor::TableCursor;
use crate::note::{SharedNote, time_of};
use crate::table::SharedTable;

impl SharedTable {
    /// Begins a cursor over a map, at the map's root.
    pub fn begin_cursor(&self, note: &mut SharedNote, map: u32) -> TableCursor
        requires note { IsNoteOf self.now note.old × IsSome (own_by note.old) }
        requires map { map < maps_of self.now }
        ensures home { SameHome IsNoteOf note.old note.new }
        ensures called { Called (first_of self.now) (calls.Begin map) replies.Begun 0 (state_of own_by front_by seen_by note.old) (state_of own_by front_by seen_by note.new) }
        ensures stands { ForSome (own_by note.old) (λ was. ForSome (own_by note.new) (λ becomes. IsCursor self.now.words result map (length was.items) becomes.items)) }
        ensures lawful { IsLawfulFor self.now note.new }
    {
        let cursor = TableCursor::begin(&self.words, &mut note.seat, map, note.stamp.same());
        note.stamp = time_of(&note.seat);
        cursor
    }

    /// Makes a step of a cursor, whose map and caller are those of its begin: it shows the next pair, or none where the cursor has
    /// passed all slots of the root that it began at.
    pub fn next_of_cursor(
        &self,
        note: &mut SharedNote,
        cursor: &mut TableCursor,
    ) -> Option<(u32, u64)>
        requires note { IsNoteOf self.now note.old × IsSome (own_by note.old) }
        requires cursor { (map : ℕ) × (begin : ℕ) × ForSome (own_by note.old) (λ holding. IsCursor self.now.words cursor.old map begin holding.items) }
        ensures home { SameHome IsNoteOf note.old note.new }
        ensures called { (map begin : ℕ) → ForSome (own_by note.old) (λ holding. IsCursor self.now.words cursor.old map begin holding.items)
            → Called (first_of self.now) (calls.Next begin) (replies.Shown result) 0 (state_of own_by front_by seen_by note.old) (state_of own_by front_by seen_by note.new) }
        ensures stands { (map begin : ℕ) → ForSome (own_by note.old) (λ holding. IsCursor self.now.words cursor.old map begin holding.items)
            → ForSome (own_by note.new) (λ holding. IsCursor self.now.words cursor.new map begin holding.items) }
        ensures lawful { IsLawfulFor self.now note.new }
        ensures passed { result ≡ None → HasPassedAll cursor.new }
        ensures ended { HasPassedAll cursor.old → result ≡ None }
    {
        let shown = cursor.next(&self.words, &mut note.seat, note.stamp.same());
        note.stamp = time_of(&note.seat);
        shown
    }
}
