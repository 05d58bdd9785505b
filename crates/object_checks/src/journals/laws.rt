//! What the two halves of a journal's law come to. Each law is the contract of a function that does nothing.
ghost use Rattle.std.specs.Prelude.{◌≡◌, ◌↔◌, ℕ, ◌≤◌, Bool, true, List, [], map, length, get_or, Some, None, slice_get};
ghost use Rattle.sync_model.specs.declared.journal.Entry.{Entry};
ghost use Rattle.sync_model.specs.Journal.{by, Follows, KeepsEdges};
ghost use Rattle.wait_cores.specs.declared.once.OnceEvent.{OnceEvent};
ghost use Rattle.wait_cores.specs.declared.once.OnceReply.{OnceReply};
ghost use Rattle.wait_cores.specs.OnceMachine.{next, start};
ghost use Rattle.workload.specs.declared.object.ObjectKind.{ObjectKind};
ghost use Rattle.workload.specs.Plan.{Plan};
ghost use Rattle.run_record.specs.Calls.{IsJournalOf};
ghost use Rattle.run_record.specs.Edges.{frees, takes};
ghost use Rattle.run_record.specs.Explains.{IsRecordOf};
ghost use Rattle.run_record.specs.Journals.{IsStops};
ghost use Rattle.run_record.specs.PoolKind.{IsPartJournal};
ghost use Rattle.run_record.specs.Record.{Record, ObjectEntry};
ghost use Rattle.run_record.specs.StartsKind.{IsStartsJournal};
ghost use Rattle.object_checks.specs.JournalItems.{entry_of, items_of, items_on, journals_in, AreJournals, HaveFronts};
ghost use Rattle.object_checks.specs.JournalOnce.{said, IsToldBy};
ghost use Rattle.object_checks.specs.JournalParts.{IsMachineJournal, IsMachinePart, IsMachineStarts, RecordParts, journal_at};

use crate::journals::item::JournalItem;
use crate::journals::row::Row;
use run_record::laws::numbers::parts_have_numbers_of_their_own;

/// The law of a journal is two: it follows the machine of its object, and it keeps the edge law. That holds of each kind of object
/// that a workload declares, of the parts of its pools and of Starts; Stop has no edges.
pub fn the_law_of_a_journal_is_two()
    ensures declared { (plan : Plan) (place : ℕ) (kind : ObjectKind) (journal : List ObjectEntry)
        → (IsJournalOf plan place kind journal ↔ IsMachineJournal plan.workers kind journal × KeepsEdges frees takes journal) }
    ensures part { (room : ℕ) (journal : List ObjectEntry)
        → (IsPartJournal room journal ↔ IsMachinePart room journal × KeepsEdges frees takes journal) }
    ensures starts { (dormant : List Bool) (journal : List ObjectEntry)
        → (IsStartsJournal dormant journal ↔ IsMachineStarts dormant journal × KeepsEdges frees takes journal) }
    ensures stop { (journal : List ObjectEntry) → IsStops journal → KeepsEdges frees takes journal }
{}

/// What makes a record a lawful one of a workload's objects is its parts, and each is decided by itself. The law of each journal falls
/// into two: all journals follow their machines, and all keep the edge law.
pub fn a_record_is_its_parts()
    ensures { (plan : Plan) (r : Record) → (IsRecordOf plan r ↔ RecordParts plan r) }
{
    parts_have_numbers_of_their_own();
}

/// A once keeps a value, which no text says. Entries in which some other value stands in the place of each such value follow the machine
/// of a once exactly where they are told by a journal that follows it: with the same events, and the values that the machine answers.
pub fn a_once_goes_on_alike_whatever_it_keeps<T: Copy>()
    ensures { (other : T) (workers : ℕ) (own : List (Entry (OnceEvent T) (OnceReply T)))
        → (Follows next true (start workers) None (map (said other) own) ↔ IsToldBy other (start workers) None own) }
{}

/// The items and their numbers determine the journals. The number of an item is its place in its object's journal, and each worker's own
/// items on an object are its entries of the journal, in order: so each entry stands in exactly one list, once.
pub fn items_determine_their_journals()
    ensures one { (lists : List (List JournalItem)) (objects : ℕ) (journals others : List (List ObjectEntry))
        → AreJournals lists objects journals → AreJournals lists objects others → journals ≡ others }
    ensures number { (lists : List (List JournalItem)) (objects : ℕ) (journals : List (List ObjectEntry)) → AreJournals lists objects journals
        → (worker object k : ℕ) (item : JournalItem) → slice_get (items_on lists object worker) k ≡ Some item → slice_get (journal_at journals object) item.number ≡ Some (entry_of worker item) }
    ensures once { (lists : List (List JournalItem)) (objects : ℕ) (journals : List (List ObjectEntry)) → AreJournals lists objects journals
        → (worker object : ℕ) → map (entry_of worker) (items_on lists object worker) ≡ by worker (journal_at journals object) }
    // so rows that were made of items have fronts that fit, where all items have
    ensures fronts { (lists : List (List JournalItem)) (objects : ℕ) (rows : List (List Row)) → AreJournals lists objects (journals_in rows)
        → ((worker i : ℕ) (item : JournalItem) → slice_get (items_of lists worker) i ≡ Some item → length item.front ≤ 64) → (object : ℕ) → HaveFronts (get_or rows object []) }
{}
