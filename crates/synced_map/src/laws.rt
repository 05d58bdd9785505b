//! What callers of a synced map tell one another. Each law is the contract of a function that does nothing.
ghost use Rattle.std.specs.Prelude.{ℕ, ◌<◌, List, Option};
ghost use Rattle.sync_types.specs.declared.map_object.MapCall.{MapCall};
ghost use Rattle.sync_types.specs.declared.map_object.MapReply.{MapReply};
ghost use Rattle.sync_model.specs.declared.item.SharedEntry.{SharedEntry};
ghost use Rattle.sync_model.specs.declared.item.Item.{Item};
ghost use Rattle.sync_model.specs.Front.{AtLeast};
ghost use Rattle.sync_model.specs.SharedCalls.{Lawful};
ghost use Rattle.sync_model.specs.Told.{AreIn, FindsItOrALater};
ghost use Rattle.shared_table.specs.Notes.{counts_by, IsNoteOf};
ghost use Rattle.shared_table.specs.Tables.{first_of, maps_of};
ghost use Rattle.go_map.specs.Maps.{MakesCall};
ghost use Rattle.synced_map.specs.Telling.{state_by, FindsWhatWasTold};

use shared_table::{SharedNote, SharedTable};
use sync_model::told::what_was_told_lies_before;

/// A load finds each store that its caller was told of, or a later entry on the key.
pub fn a_get_finds_what_was_told()
    ensures { (table : SharedTable) (key : ℕ) (found : Option ℕ) (old new : SharedNote) → 0 < maps_of table → MakesCall table 0 (MapCall.Load key) (MapReply.Found found) old new → FindsWhatWasTold table key found old new }
{
    what_was_told_lies_before();
}

/// What was stored before an unlock, or a done, is found after the lock, or the wait. One thread stored a value, and then made an entry that
/// tells of all that it knew, by `tells` of its call. Another one's lock or wait knew of that entry, by `told` of its call, and then it
/// made the load: so in each history that is lawful with the calls of both, the load finds the store, or a later entry on the key.
pub fn what_was_stored_before_is_found_after()
    ensures { (table : SharedTable) (key value : ℕ) (stores loads : MapReply) (first stored knowing loaded : SharedNote) (told : List ℕ)
        → 0 < maps_of table → IsNoteOf table stored
        → (store : MakesCall table 0 (MapCall.Store key value) stores first stored) → AtLeast told (counts_by stored)
        → AtLeast (counts_by knowing) told → (load : MakesCall table 0 (MapCall.Load key) loads knowing loaded)
        → (history : List SharedEntry) (calls : ℕ → List Item) → Lawful (first_of table) history calls → AreIn (state_by stored) calls → AreIn (state_by loaded) calls
        → FindsItOrALater history 0 key store.1.item load.1.item }
{
    what_was_told_lies_before();
}
