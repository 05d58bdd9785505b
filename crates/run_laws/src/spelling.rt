//! That a list of what a worker made falls into its calls in one way. Each law is the contract of a function that does nothing.
ghost use Rattle.std.specs.Prelude.{◌≡◌, ℕ, true, List, ◌++◌, map};
ghost use Rattle.std.specs.List.{flat_map, list_all};
ghost use Rattle.workload.specs.Plan.{Plan};
ghost use Rattle.run_record.specs.Calls.{SpellsCall};
ghost use Rattle.run_record.specs.Explains.{Explains};
ghost use Rattle.run_record.specs.Lines.{SpeltCall, AreSpelt};
ghost use Rattle.run_record.specs.Record.{Record};
ghost use Rattle.run_laws.specs.NoRanges.{is_no_range, has_no_ranges};
ghost use Rattle.run_laws.specs.OneSpelling.{IsCertain};

use run_record::Made;
use run_record::laws::endings::{a_run_is_done_unless_it_was_misused, stop_says_how_a_run_ended};
use run_record::laws::writers::a_writers_lock_ends_once;
use script_calls::{Call, Outcome};

/// Each call but a `range` is spelt in one way: of two beginnings of one list that spell it, both are the same, and so is what it answers.
pub fn a_call_is_spelt_in_one_way()
    ensures { (plan : Plan) (worker before : ℕ) (call : Call) → is_no_range call.operation ≡ true → IsCertain (SpellsCall plan worker before call) }
{
    a_writers_lock_ends_once();
}

/// A list falls into the calls of a script in one way, where none is a `range`: the items and the reply of each call are determined,
/// and so is what is left behind them.
pub fn a_list_falls_into_calls_in_one_way()
    ensures { (plan : Plan) (worker before : ℕ) (spelt other : List SpeltCall) (last more : List Made)
        → list_all (λ call. is_no_range call.call.operation) spelt ≡ true → map (λ call. call.call) spelt ≡ map (λ call. call.call) other
        → AreSpelt plan worker before spelt → AreSpelt plan worker before other
        → flat_map (λ call. call.items) spelt ++ last ≡ flat_map (λ call. call.items) other ++ more
        → (spelt ≡ other) × (last ≡ more) }
{
    a_writers_lock_ends_once();
}

/// A record explains at most one outcome of a workload without a `range`.
pub fn a_record_explains_one_outcome()
    ensures { (plan : Plan) (r : Record) (one other : Outcome) → has_no_ranges plan ≡ true → Explains plan one r → Explains plan other r → one ≡ other }
{
    a_run_is_done_unless_it_was_misused();
    stop_says_how_a_run_ended();
    a_writers_lock_ends_once();
}
