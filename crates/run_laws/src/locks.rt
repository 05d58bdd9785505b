//! Locks that are kept. Each law is the contract of a function that does nothing.
ghost use Rattle.std.specs.Prelude.{◌≡◌, ◌≢◌, ℕ, ◌+◌, ◌==◌, true, false, List, ◌∷◌, ◌++◌, count_by};
ghost use Rattle.std.specs.List.{list_any};
ghost use Rattle.script_calls.specs.declared.call.Call.{Call};
ghost use Rattle.script_calls.specs.Runs.{have_tests};
ghost use Rattle.workload.specs.Plan.{Plan};
ghost use Rattle.run_record.specs.Explains.{Explains};
ghost use Rattle.run_record.specs.Record.{Record};
ghost use Rattle.run_laws.specs.Locks.{keeps_lock, locks_at, unlocks_at, KeepsItsLocks};

use mutex_core::laws::validity;
use run_record::laws::endings::a_run_is_done_unless_it_was_misused;
use run_record::laws::runs::scripts_without_tests_are_spelt_call_by_call;
use script_calls::{Operation, Outcome, Report};
use sync_types::MutexCall;

/// A worker that keeps to its lock has locked the mutex once more than it has unlocked it wherever it unlocks it, and as often
/// wherever it locks it. It tries nothing. And each worker does keep to it that locks it, makes other calls, and unlocks it, again
/// and again.
pub fn an_unlock_stands_behind_its_lock()
    ensures unlock { (place : ℕ) (earlier later : List Call) (call : Call)
        → keeps_lock place false (earlier ++ call ∷ later) ≡ true → unlocks_at place call ≡ true
        → count_by (locks_at place) earlier ≡ count_by (unlocks_at place) earlier + 1 }
    ensures lock { (place : ℕ) (earlier later : List Call) (call : Call)
        → keeps_lock place false (earlier ++ call ∷ later) ≡ true → locks_at place call ≡ true
        → count_by (locks_at place) earlier ≡ count_by (unlocks_at place) earlier }
    ensures tries_none { (place : ℕ) (earlier later : List Call) (call : Call)
        → keeps_lock place false (earlier ++ call ∷ later) ≡ true → call.object ≡ place → call.operation ≢ Operation.Mutex MutexCall.TryLock }
    ensures again { (place : ℕ) (between later : List Call) (first last : Call)
        → locks_at place first ≡ true → list_any (λ call. call.object == place) between ≡ false → unlocks_at place last ≡ true
        → keeps_lock place false (first ∷ (between ++ last ∷ later)) ≡ keeps_lock place false later }
{}

/// A workload whose workers keep to their locks, and make each call of their scripts, is never misused. A mutex is locked while a worker holds it, and
/// that worker alone unlocks it then, so no unlock finds it unlocked. So each run of it that returns is Done, whatever its
/// interleaving, and whoever waits to be started: a worker that isn't makes no call.
pub fn an_orderly_workload_is_never_misused()
    ensures { (plan : Plan) (outcome : Outcome) (r : Record)
        → KeepsItsLocks plan → have_tests plan.scripts ≡ false → Explains plan outcome r → (left : Report) × (outcome ≡ Outcome.Done left) }
{
    validity();
    scripts_without_tests_are_spelt_call_by_call();
    a_run_is_done_unless_it_was_misused();
}
