//! The program: its words, its file, its outputs and its status.
ghost use Rattle.std.specs.Prelude.{◌≡◌, ◌⊎◌, ◌+◌, ◌≤◌, ℕ, List, Some, map, string_bytes};
ghost use Rattle.sync_outside.specs.Faults.{Rose};
ghost use Rattle.script_calls.specs.declared.outcome.Outcome.{Outcome};
ghost use Rattle.record_clauses.specs.declared.clause.Verdict.{Verdict};
ghost use Rattle.record_text.specs.declared.limits.TheConstants.{MAX_RECORD};
ghost use Rattle.record_text.specs.Told.{IsTold, Told};
ghost use Rattle.run_check.specs.Tells as texts;
ghost use Rattle.workload.specs.declared.limits.TheConstants.{MAX_INPUT};
ghost use Rattle.gosync_call.specs.Checks.{JudgesTo};
ghost use Rattle.workload.specs.Plan.{Plan};
ghost use Rattle.workload.specs.Reads.{Reads, ReadsIn};
ghost use Rattle.step_runner.specs.Outcomes.{StepsTo};
ghost use Rattle.gosync_call.specs.Command.{file_in, AreRefused, AskFor, AskToCheck, AskToMake};
ghost use Rattle.gosync_call.specs.ComesTo.{ComesTo};
ghost use Rattle.gosync_call.specs.Front.{IsOfAllBytes, IsUnstarted};
ghost use Rattle.gosync_call.specs.Headline.{Headline, RunsTo, RunsInJobs};
ghost use Rattle.gosync_call.specs.Input.{IsWhollyRead, IsWhollyReadTo, ReadFailed, NoReadFailed, NoWriteFailed};
ghost use Rattle.gosync_call.specs.Made.{MakesTo};
ghost use Rattle.gosync_call.specs.Messages.{code_of, ending_of, message_of, IsOutOfMemory, WritesOut};
ghost use Rattle.gosync_call.specs.Modes.{dialect_of};
ghost use Rattle.gosync_call.specs.Races.{ending_with, HasRaces, RacesTo};
ghost use Rattle.gosync_call.specs.Traces.{TracesTo};
ghost use Rattle.race_clocks.specs.declared.race.Race.{Race};
ghost use Rattle.workload.specs.declared.keyword.Dialect.TheVariants.{Runs, Races};
ghost use Rattle.gosync_call.specs.declared.status.Ending.TheVariants as endings;
ghost use Rattle.gosync_call.specs.declared.status.Status.TheVariants as statuses;
ghost use Rattle.gosync_call.specs.declared.status.Unread.TheVariants as unreads;
ghost use Rattle.gosync_call.specs.declared.status.Fault.TheVariants as faults;
ghost use Rattle.gosync_call.specs.declared.words.Mode.{Mode};
ghost use Rattle.gosync_call.specs.declared.words.Mode.TheVariants as modes;

use crate::front::front;
use crate::make::make;
use crate::message::say_run;
use crate::run::run_by_threads;
use crate::status::{Front, Status};
use run_check::laws::a_text_comes_to_one_verdict;
use std::alloc::Global;
use std::sync::Wait;
use std::thread::Threads;
use sync_outside::{Clock, Gate, Sink, Sources, Spawner};
use workload::laws::{one_reading, race_texts_are_read_or_refused, run_texts_are_read_or_refused};

/// The program `gosync`, on the words of its command line, of which the first is its own name.
///
/// A run with threads returns where its workers do: a worker may wait for one that never comes.
pub fn gosync<
    S: Sources,
    O: Sink,
    E: Sink,
    C: Clock + Sync,
    P: Spawner,
    G: Gate + Sync,
    R: Threads + Wait + Sync,
>(
    rt: &R,
    alloc: Global,
    words: &[String],
    src: &mut S,
    out: &mut O,
    err: &mut E,
    clock: &C,
    spawner: &mut P,
    gate: &G,
) -> Status
    // The headline: whatever a run with threads comes to is explained by one record, whose items stand in one order.
    ensures headline { (file : List ℕ) → AskFor (map string_bytes words.now) modes.Run file → Headline (S.contents src.old file) (O.contents out.old) (O.contents out.new) result }

    // A run by schedule comes to what that run is defined to come to.
    ensures step { (file : List ℕ) → AskFor (map string_bytes words.now) modes.Step file → ComesTo StepsTo (S.contents src.old file) (O.contents out.old) (O.contents out.new) result }

    // So does one whose races are asked for: to the report of that run and its races, of which the status tells whether there are any.
    ensures race { (file : List ℕ) → AskFor (map string_bytes words.now) modes.Race file → RacesTo (S.contents src.old file) (O.contents out.old) (O.contents out.new) result }

    // The workload of a seed comes to the five lines of the seed, whatever the interleaving.
    ensures make { (seed : ℕ) → AskToMake (map string_bytes words.now) seed → MakesTo seed (P.ran spawner.old) (P.ran spawner.new) (O.contents out.old) (O.contents out.new) result }

    // And one whose record is asked for: where it is done, to the text of its record.
    ensures trace { (file : List ℕ) → AskFor (map string_bytes words.now) modes.Trace file → TracesTo (S.contents src.old file) (O.contents out.old) (O.contents out.new) result }

    // The text of a record comes to its one verdict: yes where all clauses hold of what it tells, else the first that fails.
    ensures check { (file : List ℕ) → AskToCheck (map string_bytes words.now) file → JudgesTo (S.contents src.old file) (O.contents out.old) (O.contents out.new) result }

    // What the words ask for.
    ensures usage { result ≡ statuses.Usage → AreRefused (map string_bytes words.now) }
    ensures refused_words { AreRefused (map string_bytes words.now) → (result ≡ statuses.Usage) ⊎ (result ≡ statuses.Unread unreads.Memory) }
    ensures unasked { AreRefused (map string_bytes words.now) → out.new ≡ out.old }
    ensures unread { AreRefused (map string_bytes words.now) ⊎ ((seed : ℕ) × AskToMake (map string_bytes words.now) seed) → src.new ≡ src.old }

    // A run with threads had a job for each worker, in one start of all; nothing else starts a thread.
    ensures jobs { (file : List ℕ) → AskFor (map string_bytes words.now) modes.Run file → ComesTo (RunsInJobs (P.ran spawner.old) (P.ran spawner.new)) (S.contents src.old file) (O.contents out.old) (O.contents out.new) result }
    ensures rounds { P.rounds spawner.new ≤ P.rounds spawner.old + 1 }
    ensures unstarted { IsUnstarted result ⊎ ((file : List ℕ) × AskFor (map string_bytes words.now) modes.Step file) → (P.ran spawner.new ≡ P.ran spawner.old) × (P.rounds spawner.new ≡ P.rounds spawner.old) }
    ensures race_unstarted { ((file : List ℕ) × AskFor (map string_bytes words.now) modes.Race file) → (P.ran spawner.new ≡ P.ran spawner.old) × (P.rounds spawner.new ≡ P.rounds spawner.old) }

    ensures trace_unstarted { ((file : List ℕ) × AskFor (map string_bytes words.now) modes.Trace file) → (P.ran spawner.new ≡ P.ran spawner.old) × (P.rounds spawner.new ≡ P.rounds spawner.old) }
    ensures check_unstarted { ((file : List ℕ) × AskToCheck (map string_bytes words.now) file) → (P.ran spawner.new ≡ P.ran spawner.old) × (P.rounds spawner.new ≡ P.rounds spawner.old) }

    // What is told of a file is told of all its bytes: it was read to its end, or as far as a text may go and a byte more.
    ensures whole { (mode : Mode) (file : List ℕ) → AskFor (map string_bytes words.now) mode file → IsOfAllBytes result → IsWhollyRead (S.contents src.old file) (S.remaining src.new) }
    ensures check_whole { (file : List ℕ) → AskToCheck (map string_bytes words.now) file → IsOfAllBytes result → IsWhollyReadTo MAX_RECORD (S.contents src.old file) (S.remaining src.new) }

    // Whose faults are answered.
    ensures cannot_read { (mode : Mode) (file : List ℕ) → AskFor (map string_bytes words.now) mode file → result ≡ statuses.Unread unreads.CannotRead → ReadFailed (S.open_faults src.old file) (S.open_faults src.new file) (S.read_faults src.old) (S.read_faults src.new) }
    ensures check_cannot_read { (file : List ℕ) → AskToCheck (map string_bytes words.now) file → result ≡ statuses.Unread unreads.CannotRead → ReadFailed (S.open_faults src.old file) (S.open_faults src.new file) (S.read_faults src.old) (S.read_faults src.new) }
    ensures cannot_write { result ≡ statuses.Failed faults.CannotWrite → Rose (O.faults out.old) (O.faults out.new) }
    ensures cannot_start { result ≡ statuses.Failed faults.CannotStart → Rose (P.faults spawner.old) (P.faults spawner.new) × (((file : List ℕ) × AskFor (map string_bytes words.now) modes.Run file) ⊎ ((seed : ℕ) × AskToMake (map string_bytes words.now) seed)) }

    // The one line on the error output, of which there is none where all is done.
    ensures says { WritesOut (E.contents err.old) (E.contents err.new) (E.faults err.old) (E.faults err.new) (message_of (file_in (map string_bytes words.now)) result) }

    // Without a fault, a text that is read is run, with the status of an outcome that its run comes to, and one that
    // isn't read is refused, unless memory is out.
    ensures steps { (file bytes : List ℕ) (plan : Plan) → AskFor (map string_bytes words.now) modes.Step file → S.contents src.old file ≡ Some bytes → ReadsIn Runs bytes plan
        → NoReadFailed (S.open_faults src.old file) (S.open_faults src.new file) (S.read_faults src.old) (S.read_faults src.new) → NoWriteFailed (O.faults out.old) (O.faults out.new)
        → ((outcome : Outcome) × StepsTo plan outcome × (result ≡ statuses.Ended (ending_of outcome))) ⊎ IsOutOfMemory result }
    ensures runs { (file bytes : List ℕ) (plan : Plan) → AskFor (map string_bytes words.now) modes.Run file → S.contents src.old file ≡ Some bytes → ReadsIn Runs bytes plan
        → NoReadFailed (S.open_faults src.old file) (S.open_faults src.new file) (S.read_faults src.old) (S.read_faults src.new) → NoWriteFailed (O.faults out.old) (O.faults out.new)
        → ¬ Rose (P.faults spawner.old) (P.faults spawner.new)
        → ((outcome : Outcome) × RunsTo plan outcome × (result ≡ statuses.Ended (ending_of outcome))) ⊎ IsOutOfMemory result }
    ensures races { (file bytes : List ℕ) (plan : Plan) → AskFor (map string_bytes words.now) modes.Race file → S.contents src.old file ≡ Some bytes → ReadsIn Races bytes plan
        → NoReadFailed (S.open_faults src.old file) (S.open_faults src.new file) (S.read_faults src.old) (S.read_faults src.new) → NoWriteFailed (O.faults out.old) (O.faults out.new)
        → ((outcome : Outcome) × (races : List Race) × HasRaces plan outcome races × (result ≡ statuses.Ended (ending_with outcome races))) ⊎ IsOutOfMemory result }
    ensures traces { (file bytes : List ℕ) (plan : Plan) → AskFor (map string_bytes words.now) modes.Trace file → S.contents src.old file ≡ Some bytes → Reads bytes plan
        → NoReadFailed (S.open_faults src.old file) (S.open_faults src.new file) (S.read_faults src.old) (S.read_faults src.new) → NoWriteFailed (O.faults out.old) (O.faults out.new)
        → ((outcome : Outcome) × StepsTo plan outcome × ((result ≡ statuses.Ended (ending_of outcome)) ⊎ ((ending_of outcome ≡ endings.Done) × (result ≡ statuses.Failed faults.TooLong)))) ⊎ IsOutOfMemory result }
    ensures refused { (mode : Mode) (file bytes : List ℕ) → AskFor (map string_bytes words.now) mode file → S.contents src.old file ≡ Some bytes → ((plan : Plan) → ¬ ReadsIn (dialect_of mode) bytes plan)
        → NoReadFailed (S.open_faults src.old file) (S.open_faults src.new file) (S.read_faults src.old) (S.read_faults src.new)
        → (code_of result ≡ 1) ⊎ IsOutOfMemory result }

    ensures checks { (file bytes : List ℕ) (text : Told) (verdict : Verdict) → AskToCheck (map string_bytes words.now) file → S.contents src.old file ≡ Some bytes → IsTold bytes text → texts.ComesTo text verdict
        → NoReadFailed (S.open_faults src.old file) (S.open_faults src.new file) (S.read_faults src.old) (S.read_faults src.new) → NoWriteFailed (O.faults out.old) (O.faults out.new)
        → (result ≡ statuses.Judged verdict) ⊎ IsOutOfMemory result }
    ensures check_refused { (file bytes : List ℕ) → AskToCheck (map string_bytes words.now) file → S.contents src.old file ≡ Some bytes → ((text : Told) → ¬ IsTold bytes text)
        → NoReadFailed (S.open_faults src.old file) (S.open_faults src.new file) (S.read_faults src.old) (S.read_faults src.new)
        → (code_of result ≡ 1) ⊎ IsOutOfMemory result }

    ensures makes { (seed : ℕ) → AskToMake (map string_bytes words.now) seed → NoWriteFailed (O.faults out.old) (O.faults out.new) → ¬ Rose (P.faults spawner.old) (P.faults spawner.new)
        → (result ≡ statuses.Ended endings.Done) ⊎ IsOutOfMemory result }

    // How many reads there are at most, and that no count falls.
    ensures reads { ((file : List ℕ) → ¬ AskToCheck (map string_bytes words.now) file) → S.reads src.new ≤ S.reads src.old + (MAX_INPUT + 1) }
    ensures check_reads { S.reads src.new ≤ S.reads src.old + (MAX_RECORD + 1) }
    ensures read_faults { S.read_faults src.old ≤ S.read_faults src.new }
    ensures open_faults { (name : List ℕ) → S.open_faults src.old name ≤ S.open_faults src.new name }
    ensures out_faults { O.faults out.old ≤ O.faults out.new }
    ensures err_faults { E.faults err.old ≤ E.faults err.new }
    ensures start_faults { P.faults spawner.old ≤ P.faults spawner.new }
{
    one_reading();
    run_texts_are_read_or_refused();
    race_texts_are_read_or_refused();
    a_text_comes_to_one_verdict();
    match front(alloc, words, src, out, err) {
        Front::Ended(status) => status,
        Front::Run(workload) => {
            match run_by_threads(rt, alloc, &workload, out, clock, spawner, gate) {
                Ok(ending) => say_run(err, Status::Ended(ending)),
                Err(fault) => say_run(err, Status::Failed(fault)),
            }
        }
        Front::Make(seed) => make(rt, alloc, seed, out, err, clock, spawner, gate),
    }
}
