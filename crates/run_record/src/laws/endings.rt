//! How a run ends. A misuse ends it by halts, and nothing else halts an object.
ghost use Rattle.std.specs.Prelude.{◌≡◌, ◌≢◌, ℕ, false, List, [], ◌∷◌, ◌++◌, map, length, All, Contains, Some, None, slice_get, get_or};
ghost use Rattle.std.specs.List.{flat_map};
ghost use Rattle.script_calls.specs.Outcome.{left_by};
ghost use Rattle.script_calls.specs.Runs.{have_tests, left_of, made_of};
ghost use Rattle.sync_model.specs.Journal.{by, halt_of};
ghost use Rattle.workload.specs.Plan.{Plan, is_dormant, has_dormant};
ghost use Rattle.run_record.specs.Explains.{AreLines, IsRecordOf, HasEnded, IsAtEnd, Explains};
ghost use Rattle.run_record.specs.Halts.{halted_numbers, halts_in, halts_made};
ghost use Rattle.run_record.specs.Lines.{Line, misused, stayed, never, HaltsStop, HaltsEach, IsLineOf};
ghost use Rattle.run_record.specs.Record.{Record, ObjectEntry, stop, journal_of, list_of};

use crate::laws::runs::{
    replies_tell_which_calls_were_made, scripts_without_tests_are_spelt_call_by_call,
};
use flight_core::FlightCore;
use mutex_core::MutexCore;
use pool_core::PoolCore;
use protocols::laws::endings;
use rw_core::RwCore;
use script_calls::{Outcome, Report};
use sema_core::SemaCore;
use starts_core::StartsCore;
use sync_model::Deed;
use sync_types::Misuse;
use wait_cores::{GroupCore, NotifyCore, OnceCore};

/// In a list halts stand behind all else: no item of a call is one, and none of what a worker makes before its script or behind it.
pub fn halts_stand_behind_all_else()
    ensures { (plan : Plan) (worker : ℕ) (line : Line) → IsLineOf plan worker line
        → halts_made (line.first ++ (flat_map (λ spelt. spelt.items) line.spelt ++ line.last)) ≡ [] }
{
    endings::<MutexCore>();
    endings::<RwCore>();
    endings::<NotifyCore>();
    endings::<GroupCore>();
    endings::<OnceCore<i64>>();
    endings::<OnceCore<u64>>();
    endings::<PoolCore>();
    endings::<StartsCore>();
    endings::<SemaCore>();
    endings::<FlightCore>();
}

/// Each halt is by a worker whose list ends in the misuse by which it halts.
pub fn a_halt_follows_a_misuse()
    ensures { (plan : Plan) (r : Record) (outcome : Outcome) (lines : List Line) (object n : ℕ) (entry : ObjectEntry) (misuse : Misuse)
        → AreLines plan r outcome lines → IsRecordOf plan r → slice_get (journal_of r object) n ≡ Some entry → entry.deed ≡ Deed.Halt misuse
        → (line : Line) × (slice_get lines entry.caller ≡ Some line) × (line.ending ≡ misused misuse) }
{
    endings::<MutexCore>();
    endings::<RwCore>();
    endings::<NotifyCore>();
    endings::<GroupCore>();
    endings::<OnceCore<i64>>();
    endings::<OnceCore<u64>>();
    endings::<PoolCore>();
    endings::<StartsCore>();
    endings::<SemaCore>();
    endings::<FlightCore>();
}

/// A worker that meets a misuse, and halts each object: the halts in its list are one of each, by that misuse and in their order
/// (`numbers::a_misuse_halts_in_order`). So each of these objects has just one halt by this worker.
pub fn a_worker_that_meets_a_misuse_halts_each_object()
    ensures list { (plan : Plan) (r : Record) (outcome : Outcome) (lines : List Line) (worker : ℕ) (line : Line) (misuse : Misuse)
        → AreLines plan r outcome lines → IsRecordOf plan r → slice_get lines worker ≡ Some line → HaltsEach plan line → line.ending ≡ misused misuse
        → halts_made (list_of r worker) ≡ map (λ number. (number, misuse)) (halted_numbers plan) }
    ensures once { (plan : Plan) (r : Record) (outcome : Outcome) (lines : List Line) (worker : ℕ) (line : Line) (misuse : Misuse) (number : ℕ)
        → AreLines plan r outcome lines → IsRecordOf plan r → slice_get lines worker ≡ Some line → HaltsEach plan line → line.ending ≡ misused misuse
        → Contains (halted_numbers plan) number → halts_in (by worker (journal_of r number)) ≡ misuse ∷ [] }
    ensures stops { (plan : Plan) (line : Line) → HaltsEach plan line → HaltsStop line }
{
    endings::<MutexCore>();
    endings::<RwCore>();
    endings::<NotifyCore>();
    endings::<GroupCore>();
    endings::<OnceCore<i64>>();
    endings::<OnceCore<u64>>();
    endings::<PoolCore>();
    endings::<StartsCore>();
    endings::<SemaCore>();
    endings::<FlightCore>();
}

/// Stop says how a run has ended in which all workers have ended, and each that met a misuse halted Stop by it. Where Stop isn't
/// halted, every script is at its end, but those of workers that were never started: nobody met a misuse, and so nobody met a halt. Where Stop is halted, some worker met
/// the misuse that halted it first.
pub fn stop_says_how_a_run_ended()
    ensures done { (plan : Plan) (r : Record) (outcome : Outcome) (lines : List Line)
        → AreLines plan r outcome lines → IsRecordOf plan r → All (λ line. HasEnded line.ending) lines
        → ((worker : ℕ) (line : Line) → slice_get lines worker ≡ Some line → HaltsStop line)
        → halt_of (journal_of r stop) ≡ None → All (λ line. IsAtEnd line.ending) lines }
    ensures misused { (plan : Plan) (r : Record) (outcome : Outcome) (lines : List Line) (misuse : Misuse)
        → AreLines plan r outcome lines → IsRecordOf plan r → halt_of (journal_of r stop) ≡ Some misuse
        → (worker : ℕ) × (line : Line) × (slice_get lines worker ≡ Some line) × (line.ending ≡ misused misuse) }
{
    endings::<MutexCore>();
    endings::<RwCore>();
    endings::<NotifyCore>();
    endings::<GroupCore>();
    endings::<OnceCore<i64>>();
    endings::<OnceCore<u64>>();
    endings::<PoolCore>();
    endings::<StartsCore>();
    endings::<SemaCore>();
    endings::<FlightCore>();
}

/// An outcome that a record explains is Done exactly where no worker met a misuse, and never Deadlocked. Where it is Misused,
/// some worker met just that misuse, and no ends are shown.
pub fn a_run_is_done_unless_it_was_misused()
    ensures done { (plan : Plan) (r : Record) (left : Report) (explains : Explains plan (Outcome.Done left) r) (worker : ℕ) (line : Line) (misuse : Misuse)
        → slice_get explains.lines worker ≡ Some line → line.ending ≢ misused misuse }
    ensures misused { (plan : Plan) (r : Record) (left : Report) (misuse : Misuse) (explains : Explains plan (Outcome.Misused left misuse) r)
        → (worker : ℕ) × (line : Line) × (slice_get explains.lines worker ≡ Some line) × (line.ending ≡ misused misuse) }
    ensures no_ends { (plan : Plan) (r : Record) (left : Report) (misuse : Misuse) → Explains plan (Outcome.Misused left misuse) r → left.ends ≡ [] }
    ensures never_deadlocked { (plan : Plan) (r : Record) (left : Report) → Explains plan (Outcome.Deadlocked left) r → ⊥ }
{
    stop_says_how_a_run_ended();
}

/// A run that is done has answered each call that it made, once, and nothing is left of any script but those of workers that were
/// never started. Where no call may pass others over, and no worker waits to be started, these are all calls of all scripts.
pub fn a_run_that_is_done_answers_each_call()
    ensures left { (plan : Plan) (r : Record) (left : Report) (worker : ℕ) → is_dormant plan worker ≡ false → Explains plan (Outcome.Done left) r
        → left_of (get_or plan.scripts worker []) (get_or left.replies worker []) ≡ [] }
    ensures made { (plan : Plan) (r : Record) (outcome : Outcome) (worker : ℕ) → Explains plan outcome r
        → length (made_of (get_or plan.scripts worker []) (get_or (left_by outcome).replies worker [])) ≡ length (get_or (left_by outcome).replies worker []) }
    ensures started { (plan : Plan) (r : Record) (left : Report) (explains : Explains plan (Outcome.Done left) r) (worker : ℕ) (line : Line) → slice_get explains.lines worker ≡ Some line → line.ending ≢ stayed never
        → left_of (get_or plan.scripts worker []) (get_or left.replies worker []) ≡ [] }
    ensures all { (plan : Plan) (r : Record) (left : Report) → have_tests plan.scripts ≡ false → has_dormant plan ≡ false → Explains plan (Outcome.Done left) r
        → map length left.replies ≡ map length plan.scripts }
{
    replies_tell_which_calls_were_made();
    scripts_without_tests_are_spelt_call_by_call();
}
