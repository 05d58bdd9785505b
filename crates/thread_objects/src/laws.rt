//! What holds of the objects of a run. Each law is the contract of a function that does nothing.
ghost use Rattle.std.specs.Prelude.{◌≡◌, ℕ, ◌+◌, ◌<◌, true, List, length, Some, slice_get};
ghost use Rattle.workload.specs.declared.object.ObjectKind.{ObjectKind};
ghost use Rattle.workload.specs.declared.object.ObjectKind.TheVariants.{Pool};
ghost use Rattle.workload.specs.declared.object.ObjectWord.{ObjectWord};
ghost use Rattle.workload.specs.declared.object.ObjectWord.TheVariants as words;
ghost use Rattle.workload.specs.Plan.{Plan, has_dormant};
ghost use Rattle.run_record.specs.Calls.{IsJournalOf};
ghost use Rattle.run_record.specs.Objects.{first_part, starts_number};
ghost use Rattle.run_record.specs.Record.{ObjectEntry, stop, object_number};
ghost use Rattle.run_record.specs.StartsKind.{IsStartsJournal};
ghost use Rattle.thread_objects.specs.Catalog.{IsAt};
ghost use Rattle.thread_objects.specs.AsDeclared.{AreDeclared, IsDeclared, IsStartsOf};
ghost use Rattle.thread_objects.specs.ByKind.{passes_in};
ghost use Rattle.thread_objects.specs.Columns.{IsColumnOf, IsJournalAt};
ghost use Rattle.thread_objects.specs.Desks.{IsObjectAt};
ghost use Rattle.thread_objects.specs.Kinds.{HasWord, IsOfKind, IsStarts, IsStop};
ghost use Rattle.thread_objects.specs.Passes.{IsSeatAt};

use crate::column::AnyColumn;
use crate::object::AnyObject;
use crate::pass::AnyPass;
use run_record::laws::numbers::parts_have_numbers_of_their_own;
use sync_model::Note;

/// The first object of a run is Stop.
pub fn stop_is_the_first_object<N: Note>()
    ensures { (home : N.Home) (plan : Plan) (objects : List (AnyObject N N.Home)) → AreDeclared N.at home plan objects → IsObjectAt IsStop objects stop }
{}

/// Behind Stop stands an object for each place of the workload, of the kind that is declared there, and behind these an object for
/// each part of each pool.
pub fn objects_are_of_their_kinds<N: Note>()
    ensures kind { (home : N.Home) (plan : Plan) (objects : List (AnyObject N N.Home)) (place : ℕ) (kind : ObjectKind) → AreDeclared N.at home plan objects → IsAt plan place kind → IsObjectAt (IsOfKind kind) objects (object_number place) }
    ensures there { (home : N.Home) (plan : Plan) (objects : List (AnyObject N N.Home)) (place : ℕ) (kind : ObjectKind) → AreDeclared N.at home plan objects → IsAt plan place kind → place + 1 < length objects }
    ensures parts { (home : N.Home) (plan : Plan) (objects : List (AnyObject N N.Home)) (place part : ℕ) → AreDeclared N.at home plan objects → IsAt plan place Pool → part < plan.workers
        → (first_part plan place + part < length objects) × IsObjectAt (HasWord words.Pool) objects (first_part plan place + part) }
{
    parts_have_numbers_of_their_own();
}

/// Where some workers wait to be started, the last object of a run is Starts.
pub fn starts_is_the_last_object<N: Note>()
    ensures { (home : N.Home) (plan : Plan) (objects : List (AnyObject N N.Home)) → AreDeclared N.at home plan objects → has_dormant plan ≡ true
        → (length objects ≡ starts_number plan + 1) × IsObjectAt IsStarts objects (starts_number plan) }
{
    parts_have_numbers_of_their_own();
}

/// The journal of Starts is one of the workload's workers.
pub fn the_journal_of_starts_is_its_own<N: Note>()
    ensures { (home : N.Home) (plan : Plan) (object : AnyObject N N.Home) (journal : List ObjectEntry) → IsStartsOf N.at home plan object → IsJournalAt object journal → IsStartsJournal plan.dormant journal }
{}

/// Each pass in an object's column is its worker's pass to the object.
pub fn columns_are_of_passes_to_their_objects<N: Note>()
    ensures { (home : N.Home) (workers count worker : ℕ) (object : AnyObject N N.Home) (column : AnyColumn N) (pass : AnyPass N)
        → IsColumnOf N.at home workers count object column → slice_get (passes_in column) worker ≡ Some pass → IsSeatAt N.at home workers worker object pass }
{}

/// A pass to an object is none to an object of another kind.
pub fn passes_are_to_objects_of_one_kind<N: Note>()
    ensures { (home : N.Home) (workers worker : ℕ) (object other : AnyObject N N.Home) (pass : AnyPass N) (word : ObjectWord)
        → IsSeatAt N.at home workers worker object pass → IsSeatAt N.at home workers worker other pass → HasWord word object → HasWord word other }
{}

/// The journal of an object that is as the workload declares it is one of the place where it is declared.
pub fn journals_are_of_their_places<N: Note>()
    ensures { (home : N.Home) (plan : Plan) (place : ℕ) (kind : ObjectKind) (object : AnyObject N N.Home) (journal : List ObjectEntry)
        → IsDeclared N.at home plan place kind object → IsJournalAt object journal → IsJournalOf plan place kind journal }
{}
