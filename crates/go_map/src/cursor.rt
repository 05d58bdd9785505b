//! Walks over the pairs of a map, as `Range` makes them.
ghost use Rattle.std.specs.Prelude.{◌≡◌, ℕ, ◌^◌, ◌<◌, None, IfSome};
ghost use Rattle.sync_model.specs.declared.item.SharedCall.TheVariants as calls;
ghost use Rattle.sync_model.specs.declared.item.SharedReply.TheVariants as replies;
ghost use Rattle.sync_model.specs.Shared.{IsCallerAt};
ghost use Rattle.shared_table.specs.Notes.{own_by, IsNoteOf};
ghost use Rattle.shared_table.specs.Ranging.{HasPassedAll};
ghost use Rattle.go_map.specs.Ranges.{MakesStep, calls_by, KeepsRangeLaw, StandsFor};

use crate::map::Map;
use shared_table::{SharedNote, TableCursor};
use sync_model::Caller;

/// A walk over the pairs of a map, of which each step shows one: Go's `Range` is `begin`, and then `next` until it answers `None`.
/// The walk goes by the map's slots from low to high, depth first, from the root that `begin` read. It goes on there whatever is
/// changed meanwhile: in a part that another call cut off it shows what was there just before. Its caller may make any other call
/// between two steps, on the same map too. No call waits, is refused or takes memory.
#[derive(Drop)]
pub struct Cursor {
    pub walk: TableCursor,
}

impl Cursor {
    /// Begins a walk over the map.
    pub fn begin(map: &Map, caller: &mut Caller<SharedNote>) -> Self
        requires { IsCallerAt IsNoteOf own_by map.now.table.now caller.old }
        ensures caller { IsCallerAt IsNoteOf own_by map.now.table.now caller.new }
        ensures called { MakesStep map.now.table.now (calls.Begin map.now.number) replies.Begun caller.old.note caller.new.note }
        ensures stands { StandsFor map.now.table.now result map.now.number (calls_by caller.old.note) caller.new.note }
    {
        Cursor {
            walk: map.table.begin_cursor(&mut caller.note, map.number),
        }
    }

    /// The next key with its value, or `None` where the walk has passed all slots: then it stays `None`. The map and the caller
    /// are those of the walk's begin.
    ///
    /// Go's documentation says of `Range` that no key is visited more than once, and that it may reflect any mapping for a key
    /// from any point during the call. Here a pair was so at some moment after all that the caller knew when the walk began, and
    /// before the step that shows it. And where a step answers `None`, each key that no step showed was absent at such a moment.
    pub fn next(&mut self, map: &Map, caller: &mut Caller<SharedNote>) -> Option<(u32, u64)>
        requires caller { IsCallerAt IsNoteOf own_by map.now.table.now caller.old }
        requires cursor { (begin : ℕ) × StandsFor map.now.table.now self.old map.now.number begin caller.old.note }
        ensures caller { IsCallerAt IsNoteOf own_by map.now.table.now caller.new }
        ensures called { (begin : ℕ) → StandsFor map.now.table.now self.old map.now.number begin caller.old.note
            → MakesStep map.now.table.now (calls.Next begin) (replies.Shown result) caller.old.note caller.new.note }
        ensures stands { (begin : ℕ) → StandsFor map.now.table.now self.old map.now.number begin caller.old.note
            → StandsFor map.now.table.now self.new map.now.number begin caller.new.note }
        ensures range { (begin : ℕ) → StandsFor map.now.table.now self.old map.now.number begin caller.old.note
            → KeepsRangeLaw map.now.table.now map.now.number begin caller.new.note }
        ensures found { IfSome result (λ pair. pair.1 < 2 ^ 63) }
        ensures passed { result ≡ None → HasPassedAll self.new.walk }
        ensures ended { HasPassedAll self.old.walk → result ≡ None }
    {
        map.table.next_of_cursor(&mut caller.note, &mut self.walk)
    }
}
