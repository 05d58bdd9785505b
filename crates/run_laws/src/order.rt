//! One order of all events: on maps and atomics, and on all other objects. A record that is in one order has no circle of causes: what
//! happened before is before in that order, and what a call on a map or an atomic answers follows from what is before it.
ghost use Rattle.std.specs.Prelude.{◌≡◌, ◌↔◌, ◌⊎◌, ℕ, ◌<◌, ◌≤◌, true, false, negsuc, List, Some, slice_get};
ghost use Rattle.sync_model.specs.declared.item.Item.{Item};
ghost use Rattle.sync_model.specs.declared.item.SharedEntry.{SharedEntry};
ghost use Rattle.sync_model.specs.Journal.{is_such, TimesRise};
ghost use Rattle.sync_model.specs.SharedHistory.{entry_of};
ghost use Rattle.workload.specs.Plan.{Plan};
ghost use Rattle.run_record.specs.Edges.{takes};
ghost use Rattle.run_record.specs.Explains.{IsRecordOf, Explains};
ghost use Rattle.run_record.specs.InOneOrder.{InOneOrder};
ghost use Rattle.run_record.specs.Record.{Record, ObjectEntry, object_number, journal_of, list_of};
ghost use Rattle.run_record.specs.Waits.{IsOnGroup, WasNotified};
ghost use Rattle.run_laws.specs.ExamplesCircle as circle;
ghost use Rattle.run_laws.specs.ExamplesStoreAndTry as store_and_try;
ghost use Rattle.run_laws.specs.Order.{ItemOf, First, IsSame, InJournal, InList, InHistory, Leads, time_of};

use run_record::Made;
use run_record::laws::order::{
    calls_are_items_of_lists, calls_have_their_numbers_among_the_entries,
};
use run_record::laws::returns::what_a_wait_group_call_has_done;
use run_record::laws::runs::scripts_without_tests_are_spelt_call_by_call;
use run_record::laws::starts::where_nobody_waits_to_be_started_lists_are_of_calls;
use script_calls::{Outcome, Report};
use sync_model::laws::shared::each_entry_is_a_call;
use wait_cores::{GroupEvent, GroupReply};
use workload::{ObjectKind, ObjectLine};

/// All items of all lists stand in one order: of two different ones just one is first. Each event of a journal, and each entry of the
/// shared history, is such an item. The order extends that of each worker's list, of each object's journal, and of the history with
/// the places of all calls in it. So steps along these, in whatever turn, never lead from an item back to itself.
pub fn all_events_stand_in_one_order()
    ensures one_of_two { (r : Record) (order : InOneOrder r) (e f : ItemOf r) → IsSame r e f ⊎ (First r order e f ⊎ First r order f e) }
    ensures goes_on { (r : Record) (order : InOneOrder r) (e f g : ItemOf r) → First r order e f → First r order f g → First r order e g }
    ensures never_back { (r : Record) (order : InOneOrder r) (e : ItemOf r) → First r order e e → ⊥ }
    ensures workers { (r : Record) (order : InOneOrder r) (e f : ItemOf r) → InList r e f → First r order e f }
    ensures objects { (r : Record) (order : InOneOrder r) (e f : ItemOf r) → InJournal r e f → First r order e f }
    ensures history { (plan : Plan) (r : Record) → IsRecordOf plan r → (order : InOneOrder r) (e f : ItemOf r) → InHistory r e f → First r order e f }
    ensures events { (plan : Plan) (r : Record) (object n : ℕ) (entry : ObjectEntry) → IsRecordOf plan r → slice_get (journal_of r object) n ≡ Some entry
        → (e : ItemOf r) × (e.worker ≡ entry.caller) × (e.made ≡ Made.Entered object entry) }
    ensures entries { (plan : Plan) (r : Record) (n : ℕ) (entry : SharedEntry) → IsRecordOf plan r → slice_get r.history n ≡ Some entry
        → (e : ItemOf r) × (x : Item) × (e.made ≡ Made.Shared x) × (x.place ≡ n) × (x.entry ≡ true) × (entry_of e.worker x ≡ entry) }
    ensures no_circle { (plan : Plan) (r : Record) → IsRecordOf plan r → InOneOrder r → (e : ItemOf r) (between : List (ItemOf r)) → Leads r e between e → ⊥ }
{
    calls_are_items_of_lists();
    calls_have_their_numbers_among_the_entries();
    each_entry_is_a_call();
}

/// What was waited for happened before. A wait on a wait group that begins above 0 returns behind a `done`, or an `add` below 0, which
/// stands before it in the group's journal and has the lower number; and so has the notice of a wait on a cond, the unlock before a
/// lock, and whatever stands before an event of its object: lower than that event's number, and than that of each later event of the
/// same worker. Along any chain of these what happened before has the lower number.
pub fn what_was_waited_for_happened_before()
    ensures done { (plan : Plan) (r : Record) (place start n : ℕ) (object : ObjectLine) (returned : ObjectEntry)
        → IsRecordOf plan r → slice_get plan.objects place ≡ Some object → object.kind ≡ ObjectKind.WaitGroup start → 0 < start
        → slice_get (journal_of r (object_number place)) n ≡ Some returned → is_such takes returned.deed ≡ true
        → (m : ℕ) × (added : ObjectEntry) × (below : ℕ) × (m < n) × (slice_get (journal_of r (object_number place)) m ≡ Some added)
        × IsOnGroup (GroupEvent.Add (negsuc below)) GroupReply.Done added × (InOneOrder r → added.time < returned.time) }
    ensures notified { (r : Record) (object taken left : ℕ) (ticket leaving : ObjectEntry) (notified : WasNotified (journal_of r object) taken left leaving)
        → InOneOrder r → slice_get (journal_of r object) taken ≡ Some ticket → slice_get (journal_of r object) left ≡ Some leaving
        → (ticket.time < notified.notice.time) × (notified.notice.time < leaving.time) }
    ensures behind { (r : Record) (object other worker m n i j : ℕ) (before behind later : ObjectEntry)
        → InOneOrder r → m < n → slice_get (journal_of r object) m ≡ Some before → slice_get (journal_of r object) n ≡ Some behind
        → i < j → slice_get (list_of r worker) i ≡ Some (Made.Entered object behind) → slice_get (list_of r worker) j ≡ Some (Made.Entered other later)
        → (before.time < behind.time) × (before.time < later.time) }
    ensures chain { (plan : Plan) (r : Record) → IsRecordOf plan r → (order : InOneOrder r) (e f : ItemOf r) (between : List (ItemOf r)) → Leads r e between f → time_of r order e < time_of r order f }
{
    calls_are_items_of_lists();
    calls_have_their_numbers_among_the_entries();
}

/// What happened before is seen, and what happened after isn't. The place of a call on a map or an atomic is behind exactly those
/// entries of the shared history that come before the call in the one order of all items: so it is answered as by the one-thread objects
/// behind these. Where steps lead from an entry to another call, the call's place is behind the entry: it finds what was stored. Where
/// they lead from a call to an entry, the call's place is no later than the entry's: it doesn't find what was stored after it.
pub fn what_happened_before_is_seen()
    ensures places { (plan : Plan) (r : Record) → IsRecordOf plan r → (order : InOneOrder r) (e f : ItemOf r) (entry call : Item)
        → e.made ≡ Made.Shared entry → f.made ≡ Made.Shared call → entry.entry ≡ true → First r order e f ↔ entry.place < call.place }
    ensures seen { (plan : Plan) (r : Record) (e f : ItemOf r) (between : List (ItemOf r)) (entry call : Item) → IsRecordOf plan r → InOneOrder r → Leads r e between f
        → e.made ≡ Made.Shared entry → f.made ≡ Made.Shared call → entry.entry ≡ true → entry.place < call.place }
    ensures unseen { (plan : Plan) (r : Record) (e f : ItemOf r) (between : List (ItemOf r)) (entry call : Item) → IsRecordOf plan r → InOneOrder r → Leads r e between f
        → e.made ≡ Made.Shared call → f.made ≡ Made.Shared entry → entry.entry ≡ true → call.place ≤ entry.place }
{
    calls_are_items_of_lists();
    calls_have_their_numbers_among_the_entries();
    each_entry_is_a_call();
}

/// A circle of waits is never done. Worker 0 waits for `g` and is then done with `h`, and worker 1 waits for `h` and is then done with
/// `g`: no record in one order explains that a run of this is Done, whatever else it says.
pub fn a_circle_of_waits_is_never_done()
    ensures { (r : Record) (left : Report) → InOneOrder r → Explains circle.plan (Outcome.Done left) r → ⊥ }
{
    scripts_without_tests_are_spelt_call_by_call();
    where_nobody_waits_to_be_started_lists_are_of_calls();
    what_a_wait_group_call_has_done();
    what_was_waited_for_happened_before();
}

/// A record that explains a run needn't be in one order: without one that circle is explained as Done, whatever the numbers. They may
/// rise along each journal, or along each list, but not along both.
pub fn a_record_in_no_order_explains_a_circle()
    ensures explained { (wait_0 done_0 wait_1 done_1 : ℕ) → Explains circle.plan circle.outcome (circle.in_a_circle wait_0 done_0 wait_1 done_1) }
    ensures journals_alone { (object : ℕ) → TimesRise (journal_of (circle.in_a_circle 1 0 1 0) object) }
    ensures lists_alone { (worker i j object other : ℕ) (x y : ObjectEntry) → i < j
        → slice_get (list_of (circle.in_a_circle 0 1 0 1) worker) i ≡ Some (Made.Entered object x) → slice_get (list_of (circle.in_a_circle 0 1 0 1) worker) j ≡ Some (Made.Entered other y) → x.time < y.time }
    ensures in_no_order { (wait_0 done_0 wait_1 done_1 : ℕ) → InOneOrder (circle.in_a_circle wait_0 done_0 wait_1 done_1) → ⊥ }
{
    a_circle_of_waits_is_never_done();
    scripts_without_tests_are_spelt_call_by_call();
}

/// A store before a failed try is seen. Worker 0 stores 1 and then tries a mutex, which it doesn't get, since worker 1 has it. Worker 1
/// then unlocks the mutex and loads. Nothing tells its front of the store, so a record explains that it finds 0, which was there before.
/// But that record is in no order, whatever its numbers: the store comes before the try, the try before the unlock, the unlock before the
/// load, and the load, by its place, before the store. The record in which it finds 1 is in one order, and explains that.
pub fn a_store_before_a_failed_try_is_seen()
    ensures explained { (locks fails unlocks : ℕ) → Explains store_and_try.plan (store_and_try.outcome 0) (store_and_try.found 0 locks fails unlocks) }
    ensures in_no_order { (locks fails unlocks : ℕ) → InOneOrder (store_and_try.found 0 locks fails unlocks) → ⊥ }
    ensures seen { Explains store_and_try.plan (store_and_try.outcome 1) (store_and_try.found 1 0 2 3) }
    ensures in_order { InOneOrder (store_and_try.found 1 0 2 3) }
{
    scripts_without_tests_are_spelt_call_by_call();
    what_happened_before_is_seen();
}
