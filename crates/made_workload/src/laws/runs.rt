//! Laws of all runs of a seed's workload. Each is the contract of a function that does nothing.
ghost use Rattle.std.specs.Prelude.{◌≡◌, ℕ, length, sum_by};
ghost use Rattle.run_record.specs.Explains.{Explains};
ghost use Rattle.run_record.specs.Record.{Record};
ghost use Rattle.made_workload.specs.Generated.{generated_plan};
ghost use Rattle.made_workload.specs.Summary.{summary, summary_text};
ghost use Rattle.made_workload.specs.Runs.{ends_of_seed, five_lines};

use crate::laws::{keys_tell_their_workers, summary_of_a_seed, workload_of_a_seed};
use run_laws::adds::an_int64_holds_the_sum_of_all_adds;
use run_laws::ends::calls_leave_as_many_maps_and_atomics;
use run_laws::locks::an_orderly_workload_is_never_misused;
use run_laws::owners::a_map_is_the_union_of_its_workers_maps;
use run_record::laws::endings::a_run_that_is_done_answers_each_call;
use script_calls::{Outcome, Report};
use sync_types::laws::atomics::sums_in_range_are_exact;

/// No run of a seed's workload is misused: in each round its worker alone unlocks what it locked. So each run that returns is
/// Done.
pub fn no_run_of_a_seed_is_misused()
    ensures { (seed : ℕ) (outcome : Outcome) (r : Record) → Explains (generated_plan seed) outcome r → (left : Report) × (outcome ≡ Outcome.Done left) }
{
    an_orderly_workload_is_never_misused();
}

/// Every run of a seed's workload comes to the seed's summary, whatever its interleaving: eight workers, whose 16,000 calls are
/// all completed; the int64 at the sum of all amounts; and the map with the keys and values of the union of the workers'
/// own maps. So the five lines that tell of it are the summary's.
pub fn every_run_of_a_seed_comes_to_its_summary()
    ensures workers { (seed : ℕ) (left : Report) (r : Record) → Explains (generated_plan seed) (Outcome.Done left) r → length left.replies ≡ 8 }
    ensures calls { (seed : ℕ) (left : Report) (r : Record) → Explains (generated_plan seed) (Outcome.Done left) r → sum_by length left.replies ≡ 16000 }
    ensures ends { (seed : ℕ) (left : Report) (r : Record) → Explains (generated_plan seed) (Outcome.Done left) r → left.ends ≡ ends_of_seed seed }
    ensures lines { (seed : ℕ) (left : Report) (r : Record) → Explains (generated_plan seed) (Outcome.Done left) r → five_lines left ≡ summary_text (summary seed) }
{
    a_run_that_is_done_answers_each_call();
    an_int64_holds_the_sum_of_all_adds();
    a_map_is_the_union_of_its_workers_maps();
    calls_leave_as_many_maps_and_atomics();
    sums_in_range_are_exact();
    workload_of_a_seed();
    keys_tell_their_workers();
    summary_of_a_seed();
}

/// What `gosync make` rests on: every run of a seed's workload that returns is Done, and the five lines that tell of it are the
/// summary's.
pub fn a_run_of_a_seed_tells_its_summary()
    ensures { (seed : ℕ) (outcome : Outcome) (r : Record) → Explains (generated_plan seed) outcome r
        → (left : Report) × (outcome ≡ Outcome.Done left) × (five_lines left ≡ summary_text (summary seed)) }
{
    no_run_of_a_seed_is_misused();
    every_run_of_a_seed_comes_to_its_summary();
}
