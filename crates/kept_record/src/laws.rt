//! What is so of the record that is kept of any acts of a workload's workers on its objects. Each law is the contract of a function that
//! does nothing.
ghost use Rattle.std.specs.Prelude.{◌≡◌, ℕ, ◌<◌, ◌≤◌, List, map, length, Some, slice_get, slice_index};
ghost use Rattle.sync_model.specs.declared.item.Item.{Item};
ghost use Rattle.sync_model.specs.Front.{AtLeast};
ghost use Rattle.sync_model.specs.Journal.{by, KeepsEdges};
ghost use Rattle.sync_model.specs.SharedCalls.{Knows};
ghost use Rattle.sync_model.specs.SharedHistory.{contents_at, IsReply, is_entry, IsLegal, entries_by, marked_in};
ghost use Rattle.workload.specs.Plan.{Plan};
ghost use Rattle.run_record.specs.declared.made.Made.{Made};
ghost use Rattle.run_record.specs.Edges.{frees, takes};
ghost use Rattle.run_record.specs.Explains.{KeepsFronts};
ghost use Rattle.run_record.specs.InOneOrder.{InOneOrder};
ghost use Rattle.run_record.specs.Lines.{Line, items_of, IsLineOf};
ghost use Rattle.run_record.specs.Objects.{contents_of};
ghost use Rattle.run_record.specs.Record.{Record, journal_of, list_of, entries_in, calls_of, front_of};
ghost use Rattle.kept_record.specs.Acts.{AreActsOf, bare, deeds_on, told, AreAnswered};
ghost use Rattle.kept_record.specs.Alike.{AreAlike, IsLineLike};
ghost use Rattle.kept_record.specs.Example as example;
ghost use Rattle.kept_record.specs.Keeping.{Act, made_by, entries_on, account_of, record_of};
ghost use Rattle.kept_record.specs.SameItems.{HasSameItems};

use run_record::laws::order::numbers_that_rise_item_by_item_rise;

/// The record has what was made, and nothing else: the acts themselves, in order, whatever places, fronts and numbers they are kept with. A
/// worker's list has its own acts, and the journal of an object the entries on it: so what was done on the object, and by whom.
pub fn a_record_has_what_was_made()
    ensures acts { (plan : Plan) (acts : List Act) → map bare (account_of plan acts).acts ≡ map bare acts }
    ensures lists { (plan : Plan) (acts : List Act) (worker : ℕ) → AreActsOf plan acts → list_of (record_of plan acts) worker ≡ made_by worker (account_of plan acts).acts }
    ensures journals { (plan : Plan) (acts : List Act) (object : ℕ) → AreActsOf plan acts → journal_of (record_of plan acts) object ≡ entries_on object (account_of plan acts).acts }
    ensures alike { (plan : Plan) (acts : List Act) (worker : ℕ) → AreActsOf plan acts → AreAlike (made_by worker acts) (list_of (record_of plan acts) worker) }
    ensures deeds { (plan : Plan) (acts : List Act) (object : ℕ) → AreActsOf plan acts → map told (journal_of (record_of plan acts) object) ≡ deeds_on object acts }
{}

/// Along a worker's list no front falls. A front counts all that its worker has called itself, and of another worker no more than that one
/// calls.
pub fn no_front_falls()
    ensures { (plan : Plan) (acts : List Act) → AreActsOf plan acts → KeepsFronts (record_of plan acts) }
{}

/// A front has a number for each worker.
pub fn a_front_has_a_number_for_each_worker()
    ensures { (plan : Plan) (acts : List Act) (worker i : ℕ) (x : Made) → AreActsOf plan acts → slice_get (list_of (record_of plan acts) worker) i ≡ Some x → length (front_of x) ≡ plan.workers }
{}

/// Whoever acquires at an object knows all that was known at each earlier event on it that released.
pub fn who_acquires_knows_what_was_released()
    ensures { (plan : Plan) (acts : List Act) (object : ℕ) → AreActsOf plan acts → KeepsEdges frees takes (journal_of (record_of plan acts) object) }
{}

/// Each entry of a journal stands in one list, that of its caller, in the order of the journal.
pub fn each_entry_stands_in_one_list()
    ensures { (plan : Plan) (acts : List Act) (worker object : ℕ) → AreActsOf plan acts → entries_in object (list_of (record_of plan acts) worker) ≡ by worker (journal_of (record_of plan acts) object) }
{}

/// The fronts of the record are the least. Any record of the same items, whose fronts keep the front law and the edge law, knows at each item at least
/// what this one knows there; and this one is such a record itself (`no_front_falls`, `who_acquires_knows_what_was_released`).
pub fn the_fronts_of_a_kept_record_are_the_least()
    ensures least { (plan : Plan) (acts : List Act) (other : Record) (worker i : ℕ) (x y : Made) → AreActsOf plan acts → HasSameItems (record_of plan acts) other → KeepsFronts other → ((object : ℕ) → KeepsEdges frees takes (journal_of other object))
        → slice_get (list_of (record_of plan acts) worker) i ≡ Some x → slice_get (list_of other worker) i ≡ Some y → AtLeast (front_of y) (front_of x) }
    ensures itself { (plan : Plan) (acts : List Act) → AreActsOf plan acts → HasSameItems (record_of plan acts) (record_of plan acts) }
{
    a_record_has_what_was_made();
    each_entry_stands_in_one_list();
}

/// Each entry of the history is one worker's call, at the place that is its number, and no other call is marked as an entry.
pub fn each_entry_of_the_history_is_one_call()
    ensures { (plan : Plan) (acts : List Act) (worker : ℕ) → AreActsOf plan acts → marked_in worker (calls_of (record_of plan acts) worker) ≡ entries_by worker (record_of plan acts).history }
{}

/// A call on a map or an atomic stands at a place of the history, where it is an entry exactly if the one-thread object makes it one. All that
/// its worker knew lies before it: its own earlier calls, each of them, and of another worker's what its front counts. No worker forgets anything
/// from one call to the next.
pub fn a_call_lies_behind_what_its_worker_knew()
    ensures place { (plan : Plan) (acts : List Act) (worker j : ℕ) (x : Item) → AreActsOf plan acts → slice_get (calls_of (record_of plan acts) worker) j ≡ Some x → x.place ≤ length (record_of plan acts).history }
    ensures entry { (plan : Plan) (acts : List Act) (worker j : ℕ) (x : Item) → AreActsOf plan acts → slice_get (calls_of (record_of plan acts) worker) j ≡ Some x
        → x.entry ≡ is_entry x.call (contents_at (contents_of plan) (record_of plan acts).history x.place) }
    ensures knows { (plan : Plan) (acts : List Act) (worker j : ℕ) (x : Item) → AreActsOf plan acts → slice_get (calls_of (record_of plan acts) worker) j ≡ Some x → Knows (calls_of (record_of plan acts)) x.front x.place }
    ensures own { (plan : Plan) (acts : List Act) (worker j : ℕ) (x : Item) → AreActsOf plan acts → slice_get (calls_of (record_of plan acts) worker) j ≡ Some x → slice_index x.front worker ≡ j }
    ensures rises { (plan : Plan) (acts : List Act) (worker i j : ℕ) (x y : Item) → AreActsOf plan acts → i < j
        → slice_get (calls_of (record_of plan acts) worker) i ≡ Some x → slice_get (calls_of (record_of plan acts) worker) j ≡ Some y → AtLeast y.front x.front }
{}

/// Where each call is answered as the one-thread objects answer it at the moment when it is made, the history is legal, and each call is
/// answered so at its place.
pub fn answered_calls_are_a_legal_history()
    ensures legal { (plan : Plan) (acts : List Act) → AreAnswered (contents_of plan) acts → IsLegal (contents_of plan) (record_of plan acts).history }
    ensures replies { (plan : Plan) (acts : List Act) (worker j : ℕ) (x : Item) → AreActsOf plan acts → AreAnswered (contents_of plan) acts → slice_get (calls_of (record_of plan acts) worker) j ≡ Some x
        → IsReply x.call x.reply (contents_at (contents_of plan) (record_of plan acts).history x.place) }
{}

/// All that was made stands in one order, by numbers: each is how much was made before. They rise along each journal, along the history and
/// along each list, and each call has its place in the history by its number.
pub fn all_that_was_made_stands_in_one_order()
    ensures { (plan : Plan) (acts : List Act) → AreActsOf plan acts → InOneOrder (record_of plan acts) }
{
    numbers_that_rise_item_by_item_rise();
}

/// The record of a small run, written out: worker 0 locks a mutex, stores and unlocks; worker 1 waits for the mutex, and loads what was stored.
/// The store stands at place 0 and the load at place 1, and who goes on behind the unlock knows the store from there on.
pub fn a_store_under_a_lock_is_kept_so()
    ensures { record_of example.plan example.acts ≡ example.kept }
{}

/// What a list spells doesn't hang on places, marks, fronts and numbers. Where a line is one of a worker, a list whose items ask and are answered alike is the
/// list of such a line too, with the same calls and replies, and it ends alike.
pub fn a_list_spells_the_same_whatever_its_places_and_fronts()
    ensures { (plan : Plan) (worker : ℕ) (line : Line) (list : List Made) → IsLineOf plan worker line → AreAlike (items_of line) list → (other : Line) × (items_of other ≡ list) × IsLineOf plan worker other × IsLineLike line other }
{}
