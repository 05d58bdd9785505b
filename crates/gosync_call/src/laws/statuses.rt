//! What a status says of what was done and what was written.
ghost use Rattle.std.specs.Prelude.{◌≡◌, ◌⊎◌, ◌+◌, ◌-◌, ◌^◌, ◌<◌, ◌≤◌, ℕ, List, [], ◌++◌, take, length, Option, Some};
ghost use Rattle.sync_outside.specs.Bytes.{Appends};
ghost use Rattle.sync_outside.specs.Faults.{RoseBy};
ghost use Rattle.workload.specs.Plan.{Plan};
ghost use Rattle.workload.specs.Reads.{IsRefusedIn, ReadsIn};
ghost use Rattle.workload.specs.declared.keyword.Dialect.TheVariants.{Runs, Races};
ghost use Rattle.workload.specs.declared.limits.TheConstants.{MAX_INPUT};
ghost use Rattle.workload.specs.declared.reason.Reason.{Reason};
ghost use Rattle.made_workload.specs.Summary.{summary, summary_text};
ghost use Rattle.step_runner.specs.Outcomes.{StepsTo};
ghost use Rattle.gosync_call.specs.ComesTo.{ComesTo};
ghost use Rattle.gosync_call.specs.Front.{IsOfAllBytes, IsUnstarted};
ghost use Rattle.gosync_call.specs.Headline.{Headline, RunsInJobs};
ghost use Rattle.gosync_call.specs.Input.{IsWhollyRead};
ghost use Rattle.gosync_call.specs.Made.{MakesTo};
ghost use Rattle.gosync_call.specs.Messages.{WritesOut};
ghost use Rattle.gosync_call.specs.Races.{RacesTo};
ghost use Rattle.gosync_call.specs.Traces.{TracesTo};
ghost use Rattle.gosync_call.specs.declared.status.Ending.{Ending};
ghost use Rattle.gosync_call.specs.declared.status.Ending.TheVariants as endings;
ghost use Rattle.gosync_call.specs.declared.status.Fault.{Fault};
ghost use Rattle.gosync_call.specs.declared.status.Fault.TheVariants as faults;
ghost use Rattle.gosync_call.specs.declared.status.Status.{Status};
ghost use Rattle.gosync_call.specs.declared.status.Status.TheVariants as statuses;
ghost use Rattle.gosync_call.specs.declared.status.Unread.TheVariants as unreads;

use workload::laws::run_texts_are_read_or_refused;

/// Workers make calls only where a run ended, or where its report couldn't be written. Of any other status it is said that it
/// is `IsUnstarted`.
pub fn a_status_tells_whether_workers_made_calls()
    ensures { (status : Status) → ((ending : Ending) × (status ≡ statuses.Ended ending)) ⊎ ((status ≡ statuses.Failed faults.CannotWrite) ⊎ IsUnstarted status) }
{}

/// Where no worker made a call, nothing is written: for a text that is refused, a file that can't be read, a refused start, and
/// want of memory.
pub fn what_was_not_started_wrote_nothing()
    ensures with_threads { (told old new : Option (List ℕ)) (status : Status) → Headline told old new status → IsUnstarted status → new ≡ old }
    ensures by_schedule { (told old new : Option (List ℕ)) (status : Status) → ComesTo StepsTo told old new status → IsUnstarted status → new ≡ old }
    ensures with_races { (told old new : Option (List ℕ)) (status : Status) → RacesTo told old new status → IsUnstarted status → new ≡ old }
    ensures with_record { (told old new : Option (List ℕ)) (status : Status) → TracesTo told old new status → IsUnstarted status → new ≡ old }
    ensures of_a_seed { (seed ran ran_now : ℕ) (old new : Option (List ℕ)) (status : Status) → MakesTo seed ran ran_now old new status → IsUnstarted status → new ≡ old }
{}

/// Where no write of it fails, a line on the error output is written whole, and nothing else is.
pub fn a_line_is_written_whole_without_a_fault()
    ensures { (old new : Option (List ℕ)) (before now : ℕ) (line : List ℕ) → WritesOut old new before now line → now ≤ before → now < 2 ^ 64 - 1 → Appends old new line }
{}

/// A text that is refused is told with the line and the reason of its first fault: a race text with that of the grammar of race texts.
pub fn a_refusal_tells_the_first_fault()
    ensures with_threads { (bytes : List ℕ) (old new : Option (List ℕ)) (line : ℕ) (reason : Reason)
        → Headline (Some bytes) old new (statuses.Unread (unreads.NotAccepted line reason)) → IsRefusedIn Runs bytes line reason }
    ensures by_schedule { (bytes : List ℕ) (old new : Option (List ℕ)) (line : ℕ) (reason : Reason)
        → ComesTo StepsTo (Some bytes) old new (statuses.Unread (unreads.NotAccepted line reason)) → IsRefusedIn Runs bytes line reason }
    ensures with_races { (bytes : List ℕ) (old new : Option (List ℕ)) (line : ℕ) (reason : Reason)
        → RacesTo (Some bytes) old new (statuses.Unread (unreads.NotAccepted line reason)) → IsRefusedIn Races bytes line reason }
{}

/// All bytes of a file are told of but where it can't be read, where memory is out before it is, and where no file is asked
/// for. A file that tells its bytes was then read to its end, or its first 8,388,609 bytes were.
pub fn a_file_is_read_to_its_end()
    ensures of { (status : Status) → IsOfAllBytes status ⊎ ((status ≡ statuses.Unread unreads.CannotRead) ⊎ ((status ≡ statuses.Unread unreads.Memory) ⊎ (status ≡ statuses.Usage))) }
    ensures to { (held left : List ℕ) → IsWhollyRead (Some held) (Some left) → (left ≡ []) ⊎ (length held ≡ MAX_INPUT + 1 + length left) }
{}

/// A run with threads whose report is written, or was begun, comes from a job for each worker of the workload that the file is
/// read as.
pub fn a_run_with_threads_has_a_job_for_each_worker()
    ensures ended { (bytes : List ℕ) (plan : Plan) (ran ran_now : ℕ) (old new : Option (List ℕ)) (ending : Ending) → ReadsIn Runs bytes plan
        → ComesTo (RunsInJobs ran ran_now) (Some bytes) old new (statuses.Ended ending) → RoseBy plan.workers ran ran_now }
    ensures begun { (bytes : List ℕ) (plan : Plan) (ran ran_now : ℕ) (old new : Option (List ℕ)) → ReadsIn Runs bytes plan
        → ComesTo (RunsInJobs ran ran_now) (Some bytes) old new (statuses.Failed faults.CannotWrite) → RoseBy plan.workers ran ran_now }
{
    run_texts_are_read_or_refused();
}

/// A made workload is always run to its end, unless a fault comes: its five lines are written, or a first part of them where a
/// write fails, and they come from a job for each of its eight workers. Nothing of it is ever refused.
pub fn a_made_workload_is_run_to_its_end()
    ensures written { (seed ran ran_now : ℕ) (before : List ℕ) (new : Option (List ℕ)) (ending : Ending) → MakesTo seed ran ran_now (Some before) new (statuses.Ended ending)
        → (ending ≡ endings.Done) × (new ≡ Some (before ++ summary_text (summary seed))) × RoseBy 8 ran ran_now }
    ensures begun { (seed ran ran_now : ℕ) (before : List ℕ) (new : Option (List ℕ)) → MakesTo seed ran ran_now (Some before) new (statuses.Failed faults.CannotWrite)
        → (n : ℕ) × (new ≡ Some (before ++ take n (summary_text (summary seed)))) × RoseBy 8 ran ran_now }
    ensures never { (seed ran ran_now : ℕ) (old new : Option (List ℕ)) (status : Status) → MakesTo seed ran ran_now old new status
        → (status ≡ statuses.Ended endings.Done) ⊎ ((status ≡ statuses.Unread unreads.Memory) ⊎ ((fault : Fault) × (status ≡ statuses.Failed fault))) }
{}
