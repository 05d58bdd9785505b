//! What the one order of all events says of calls on shared maps and atomics.
ghost use Rattle.std.specs.Prelude.{◌≡◌, ◌≢◌, ℕ, ◌<◌, ◌≤◌, true, false, List, Some, slice_get};
ghost use Rattle.sync_model.specs.SharedOrder.{InOrder};

use crate::item::{Item, SharedEntry};

/// A call sees exactly the entries of lower numbers: an entry lies before another call's place where its number is the lower
/// one. So what a call answers follows from the entries before it in the one order of all events.
pub fn a_call_sees_the_entries_of_lower_numbers()
    ensures sees { (history : List SharedEntry) (calls : ℕ → List Item) (entry_times : List ℕ) (times : ℕ → List ℕ) (c d i j time other : ℕ) (entry call : Item)
        → InOrder history calls entry_times times → slice_get (calls c) i ≡ Some entry → slice_get (times c) i ≡ Some time → entry.entry ≡ true
        → slice_get (calls d) j ≡ Some call → slice_get (times d) j ≡ Some other → time < other → entry.place < call.place }
    ensures no_later { (history : List SharedEntry) (calls : ℕ → List Item) (entry_times : List ℕ) (times : ℕ → List ℕ) (c d i j time other : ℕ) (entry call : Item)
        → InOrder history calls entry_times times → slice_get (calls c) i ≡ Some entry → slice_get (times c) i ≡ Some time → entry.entry ≡ true
        → slice_get (calls d) j ≡ Some call → slice_get (times d) j ≡ Some other → other < time → call.place ≤ entry.place }
    ensures behind { (history : List SharedEntry) (calls : ℕ → List Item) (entry_times : List ℕ) (times : ℕ → List ℕ) (c d i j time other : ℕ) (entry call : Item)
        → InOrder history calls entry_times times → slice_get (calls c) i ≡ Some entry → slice_get (times c) i ≡ Some time → entry.entry ≡ true
        → slice_get (calls d) j ≡ Some call → slice_get (times d) j ≡ Some other → entry.place < call.place → time < other }
    ensures apart { (history : List SharedEntry) (calls : ℕ → List Item) (entry_times : List ℕ) (times : ℕ → List ℕ) (c d i j time other : ℕ) (entry call : Item)
        → InOrder history calls entry_times times → slice_get (calls c) i ≡ Some entry → slice_get (times c) i ≡ Some time → entry.entry ≡ true
        → slice_get (calls d) j ≡ Some call → slice_get (times d) j ≡ Some other → call.entry ≡ false → other ≢ time }
{}
