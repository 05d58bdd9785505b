//! Laws of the parts of what a record tells. Each is the contract of a function that does nothing.
ghost use Rattle.std.specs.Prelude.{◌≡◌, ◌↔◌, ℕ, ◌^◌, ◌<◌, ◌≤◌, Bool, true, false, List, map, slice_get, Option, Some, None};
ghost use Rattle.sync_model.specs.Journal.{KeepsEdges};
ghost use Rattle.sync_model.specs.SharedHistory.{Contents, value_at, contents_at};
ghost use Rattle.sync_model.specs.SharedCalls.{Knows, IsStep, IsUnshown, WasSo, MayShow, Lawful};
ghost use Rattle.sync_model.specs.SharedLaws.{LeaveKey};
ghost use Rattle.shared_checks.specs.Calls.{calls_in};
ghost use Rattle.shared_checks.specs.Edges.{entry_of, is_freeing, is_taking, AreNotes};
ghost use Rattle.shared_checks.specs.Fronts.{CountsMade, LawfulFronts, known};
ghost use Rattle.shared_checks.specs.Placing.{IsOn};
ghost use Rattle.shared_checks.specs.Parts.{ArePlaced, AreEntries, LawfulHistory, LawfulBegins, StoodBetween, AllParts};

use crate::edges::Note;
use sync_model::{Entry, Item, SharedCall, SharedEntry};

/// How much of the history a front knows of: whoever knows the front comes at this length or later, and may come at it.
pub fn a_front_knows_of_a_length()
    ensures { (lists : List (List Item)) (front : List ℕ) (n : ℕ) → CountsMade (calls_in lists) front
        → (Knows (calls_in lists) front n ↔ known lists front ≤ n) }
{}

/// The law of a shared history is its parts, of which each is decided by itself. That a caller's entries stand in its list in
/// the order of the history follows from its fronts.
pub fn the_law_is_its_parts()
    ensures { (start : Contents) (history : List SharedEntry) (calls : ℕ → List Item)
        → (Lawful start history calls ↔ AllParts start history calls) }
{}

/// The calls determine their history, whatever the objects contain at the start.
pub fn calls_have_one_history()
    ensures { (start other : Contents) (first second : List SharedEntry) (calls : ℕ → List Item)
        → LawfulHistory start first calls → LawfulHistory other second calls → first ≡ second }
{}

/// A history of calls that are at their places is legal: each of its entries is one of these calls.
pub fn placed_calls_make_a_legal_history()
    ensures { (start : Contents) (history : List SharedEntry) (calls : ℕ → List Item) → AreEntries history calls
        → ArePlaced start history calls → LawfulHistory start history calls }
{}

/// What a cursor shows was so at some moment since the cursor began: that is at a length of the history that the front of its
/// begin knows of, or a later one, up to the reach.
pub fn what_was_so_stood_between_two_lengths()
    ensures { (start : Contents) (history : List SharedEntry) (lists : List (List Item)) (front : List ℕ) (reach m key : ℕ) (value : Option ℕ) → CountsMade (calls_in lists) front
        → (WasSo start history (calls_in lists) front reach m key value ↔ StoodBetween start history (known lists front) reach m key value) }
{}

/// Where a cursor shows that no key is left, a checker may pass over the keys that are absent at each length of the history.
/// Such is each key that is absent at the start and on which no entry is.
pub fn only_keys_that_were_there_count()
    ensures absent { (start : Contents) (history : List SharedEntry) (m key n : ℕ)
        → value_at start m key ≡ None → LeaveKey m key history → value_at (contents_at start history n) m key ≡ None }
    ensures shows { (start : Contents) (history : List SharedEntry) (calls : ℕ → List Item) (c b m i : ℕ) (begin step : Item) (named : ℕ → Bool)
        → LawfulFronts calls → LawfulBegins calls → slice_get (calls c) b ≡ Some begin → IsStep (calls c) b i step None
        → ((key : ℕ) → named key ≡ false → (n : ℕ) → value_at (contents_at start history n) m key ≡ None)
        → ((key : ℕ) → named key ≡ true → key < 2 ^ 32 → IsUnshown (calls c) b i key → WasSo start history calls begin.front step.place m key None)
        → MayShow start history calls c b m begin.front i step.place None }
{}

/// The notes of a journal keep the edge law exactly where the journal does.
pub fn notes_stand_for_a_journal<E, R>()
    ensures { (frees takes : E → R → Bool) (journal : List (Entry E R)) (notes : List Note) → AreNotes frees takes journal notes
        → (KeepsEdges frees takes journal ↔ KeepsEdges is_freeing is_taking (map entry_of notes)) }
{}

/// There are the same objects at each length of a history, and atomics keep their types: so whoever plays a history needs to
/// know of the start alone that there is what a call is on.
pub fn calls_stay_on_objects_that_there_are()
    ensures { (start : Contents) (history : List SharedEntry) (n : ℕ) (call : SharedCall)
        → ((k : ℕ) (entry : SharedEntry) → slice_get history k ≡ Some entry → IsOn start entry.call) → IsOn start call → IsOn (contents_at start history n) call }
{}
