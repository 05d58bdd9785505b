//! What a worker finds of what others did, and of what it did itself.
ghost use Rattle.std.specs.Prelude.{◌≡◌, ℕ, ◌<◌, ◌≤◌, true, List, ◌∷◌, ◌++◌, length, Some, slice_get, slice_index};
ghost use Rattle.sync_model.specs.Journal.{is_such, KeepsEdges};
ghost use Rattle.sync_model.specs.SharedLaws.{LeaveKey};
ghost use Rattle.workload.specs.Plan.{Plan};
ghost use Rattle.sync_model.specs.Told.{FindsItOrALater};
ghost use Rattle.mutex_core.specs.Edges as mutex;
ghost use Rattle.run_record.specs.Edges.{frees, takes};
ghost use Rattle.run_record.specs.Explains.{IsRecordOf};
ghost use Rattle.run_record.specs.Objects.{contents_of};
ghost use Rattle.run_record.specs.Record.{Record, ObjectEntry, journal_of, list_of, calls_of};

use crate::entered::{ObjectEvent, ObjectReply};
use crate::made::Made;
use mutex_core::{MutexEvent, MutexReply};
use sync_model::Deed;
use sync_model::item::{Item, SharedCall, SharedEntry, SharedReply};
use sync_model::laws::shared::{
    a_call_lies_behind_what_its_caller_knew, a_callers_calls_are_in_order,
    a_load_finds_the_last_store, each_entry_is_a_call,
};
use sync_model::reads::a_load_behind_a_store_finds_it_or_a_later_one;
use sync_types::map_object::{MapCall, MapReply};

/// The edge law holds of each journal of a record, by what releases and what acquires on objects of whatever kind.
pub fn each_journal_keeps_the_edge_law()
    ensures { (plan : Plan) (r : Record) (object : ℕ) → IsRecordOf plan r → KeepsEdges frees takes (journal_of r object) }
{}

/// An edge makes known. Whoever acquires at an object knows from then on what the worker of an earlier releasing event had done:
/// the fronts of its calls count it, no such call has a lower place, and an entry lies below it.
pub fn an_edge_makes_known()
    ensures counted { (plan : Plan) (r : Record) (giver taker i j k l object m n : ℕ) (known call : Item) (first second : ObjectEntry)
        → IsRecordOf plan r
        → slice_get (list_of r giver) i ≡ Some (Made.Shared known) → i < j → slice_get (list_of r giver) j ≡ Some (Made.Entered object first)
        → slice_get (list_of r taker) k ≡ Some (Made.Entered object second) → k < l → slice_get (list_of r taker) l ≡ Some (Made.Shared call)
        → m < n → slice_get (journal_of r object) m ≡ Some first → slice_get (journal_of r object) n ≡ Some second
        → is_such frees first.deed ≡ true → is_such takes second.deed ≡ true
        → (number : ℕ) × (slice_get (calls_of r giver) number ≡ Some known) × (number < slice_index call.front giver) }
    ensures order { (plan : Plan) (r : Record) (giver taker i j k l object m n : ℕ) (known call : Item) (first second : ObjectEntry)
        → IsRecordOf plan r
        → slice_get (list_of r giver) i ≡ Some (Made.Shared known) → i < j → slice_get (list_of r giver) j ≡ Some (Made.Entered object first)
        → slice_get (list_of r taker) k ≡ Some (Made.Entered object second) → k < l → slice_get (list_of r taker) l ≡ Some (Made.Shared call)
        → m < n → slice_get (journal_of r object) m ≡ Some first → slice_get (journal_of r object) n ≡ Some second
        → is_such frees first.deed ≡ true → is_such takes second.deed ≡ true
        → known.place ≤ call.place }
    ensures below { (plan : Plan) (r : Record) (giver taker i j k l object m n : ℕ) (known call : Item) (first second : ObjectEntry)
        → IsRecordOf plan r
        → slice_get (list_of r giver) i ≡ Some (Made.Shared known) → i < j → slice_get (list_of r giver) j ≡ Some (Made.Entered object first)
        → slice_get (list_of r taker) k ≡ Some (Made.Entered object second) → k < l → slice_get (list_of r taker) l ≡ Some (Made.Shared call)
        → m < n → slice_get (journal_of r object) m ≡ Some first → slice_get (journal_of r object) n ≡ Some second
        → is_such frees first.deed ≡ true → is_such takes second.deed ≡ true
        → known.entry ≡ true → known.place < call.place }
{
    a_call_lies_behind_what_its_caller_knew();
}

/// A worker's list keeps the order of each journal: of two entries of an object, the earlier one in the list of their worker
/// stands earlier in the object's journal.
pub fn a_list_keeps_the_order_of_its_journals()
    ensures { (plan : Plan) (r : Record) (worker object : ℕ) (first second : ObjectEntry) (earlier between later : List Made)
        → IsRecordOf plan r → list_of r worker ≡ earlier ++ Made.Entered object first ∷ (between ++ Made.Entered object second ∷ later)
        → (m : ℕ) × (n : ℕ) × (m < n) × (slice_get (journal_of r object) m ≡ Some first) × (slice_get (journal_of r object) n ≡ Some second)
        × (first.caller ≡ worker) × (second.caller ≡ worker) }
{}

/// A load finds a store that lies before it, whoever made the two, unless another entry on the key stands between.
pub fn a_load_finds_a_store_before_it()
    ensures { (plan : Plan) (r : Record) (giver taker i j m key value : ℕ) (store load : Item) (earlier between later : List SharedEntry) (entry : SharedEntry)
        → IsRecordOf plan r → slice_get (calls_of r giver) i ≡ Some store → slice_get (calls_of r taker) j ≡ Some load
        → store.call ≡ SharedCall.Map m (MapCall.Store key value) → load.call ≡ SharedCall.Map m (MapCall.Load key)
        → r.history ≡ earlier ++ entry ∷ (between ++ later) → store.place ≡ length earlier → load.place ≡ length (earlier ++ entry ∷ between)
        → LeaveKey m key between → m < length (contents_of plan).maps
        → load.reply ≡ SharedReply.Map (MapReply.Found (Some value)) }
{
    each_entry_is_a_call();
    a_load_finds_the_last_store();
}

/// A worker's own store lies before each later call of its own. So a later load finds it, unless another entry on the key stands
/// between.
pub fn a_worker_finds_its_own_store()
    ensures before { (plan : Plan) (r : Record) (worker i j m key value : ℕ) (store load : Item)
        → IsRecordOf plan r → i < j → slice_get (calls_of r worker) i ≡ Some store → slice_get (calls_of r worker) j ≡ Some load
        → store.call ≡ SharedCall.Map m (MapCall.Store key value)
        → store.place < load.place }
    ensures found { (plan : Plan) (r : Record) (worker i j m key value : ℕ) (store load : Item) (earlier between later : List SharedEntry) (entry : SharedEntry)
        → IsRecordOf plan r → i < j → slice_get (calls_of r worker) i ≡ Some store → slice_get (calls_of r worker) j ≡ Some load
        → store.call ≡ SharedCall.Map m (MapCall.Store key value) → load.call ≡ SharedCall.Map m (MapCall.Load key)
        → r.history ≡ earlier ++ entry ∷ (between ++ later) → store.place ≡ length earlier → load.place ≡ length (earlier ++ entry ∷ between)
        → LeaveKey m key between → m < length (contents_of plan).maps
        → load.reply ≡ SharedReply.Map (MapReply.Found (Some value)) }
{
    each_entry_is_a_call();
    a_callers_calls_are_in_order();
    a_load_finds_a_store_before_it();
}

/// Behind an edge nothing older is found. Of the stores of a key that a load's front counts, whoever made them, the load finds
/// the last one in the history, or a later entry on the key: the last entry on the key that lies before the load doesn't
/// stand before any of them.
pub fn behind_an_edge_nothing_older_is_found()
    ensures { (plan : Plan) (r : Record) (giver taker i j m key value : ℕ) (store load : Item) (earlier between later : List SharedEntry) (entry : SharedEntry)
        → IsRecordOf plan r → slice_get (calls_of r giver) i ≡ Some store → slice_get (calls_of r taker) j ≡ Some load
        → store.call ≡ SharedCall.Map m (MapCall.Store key value) → i < slice_index load.front giver
        → r.history ≡ earlier ++ entry ∷ (between ++ later) → load.place ≡ length (earlier ++ entry ∷ between) → LeaveKey m key between
        → store.place ≤ length earlier }
{
    each_entry_is_a_call();
    a_call_lies_behind_what_its_caller_knew();
}

/// What was stored before an unlock is found after a later lock of the same mutex, by whichever worker: the load finds the store,
/// or a later entry on the key. The same is so of every edge: of a call that stands before an event that releases, and of one
/// behind an event that acquires later.
pub fn what_was_stored_before_an_unlock_is_found_after_a_later_lock()
    ensures mutex { (plan : Plan) (r : Record) (giver taker i j k l object m n a key value : ℕ) (store load : Item) (unlock lock : ObjectEntry) (event : MutexEvent) (freed had : MutexReply)
        → IsRecordOf plan r
        → slice_get (list_of r giver) i ≡ Some (Made.Shared store) → i < j → slice_get (list_of r giver) j ≡ Some (Made.Entered object unlock)
        → slice_get (list_of r taker) k ≡ Some (Made.Entered object lock) → k < l → slice_get (list_of r taker) l ≡ Some (Made.Shared load)
        → m < n → slice_get (journal_of r object) m ≡ Some unlock → slice_get (journal_of r object) n ≡ Some lock
        → unlock.deed ≡ Deed.Event (ObjectEvent.Mutex MutexEvent.Unlock) (ObjectReply.Mutex freed) → mutex.releases freed ≡ true
        → lock.deed ≡ Deed.Event (ObjectEvent.Mutex event) (ObjectReply.Mutex had) → mutex.acquires had ≡ true
        → store.call ≡ SharedCall.Map a (MapCall.Store key value) → load.call ≡ SharedCall.Map a (MapCall.Load key) → a < length (contents_of plan).maps
        → FindsItOrALater r.history a key store load }
    ensures edge { (plan : Plan) (r : Record) (giver taker i j k l object m n a key value : ℕ) (store load : Item) (first second : ObjectEntry)
        → IsRecordOf plan r
        → slice_get (list_of r giver) i ≡ Some (Made.Shared store) → i < j → slice_get (list_of r giver) j ≡ Some (Made.Entered object first)
        → slice_get (list_of r taker) k ≡ Some (Made.Entered object second) → k < l → slice_get (list_of r taker) l ≡ Some (Made.Shared load)
        → m < n → slice_get (journal_of r object) m ≡ Some first → slice_get (journal_of r object) n ≡ Some second
        → is_such frees first.deed ≡ true → is_such takes second.deed ≡ true
        → store.call ≡ SharedCall.Map a (MapCall.Store key value) → load.call ≡ SharedCall.Map a (MapCall.Load key) → a < length (contents_of plan).maps
        → FindsItOrALater r.history a key store load }
{
    each_entry_is_a_call();
    an_edge_makes_known();
    a_load_behind_a_store_finds_it_or_a_later_one();
}
