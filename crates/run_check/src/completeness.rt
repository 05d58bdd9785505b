//! That nothing is lost where items are written as lines and read again. Each law is the contract of a function that does nothing.
ghost use Rattle.std.specs.Prelude.{◌≡◌, ◌↔◌, ℕ, List};
ghost use Rattle.workload.specs.Plan.{Plan};
ghost use Rattle.workload.specs.Readable.{IsReadable};
ghost use Rattle.run_record.specs.Explains.{Explains};
ghost use Rattle.run_record.specs.Record.{Record};
ghost use Rattle.record_text.specs.Told.{IsTold, Told};
ghost use Rattle.record_clauses.specs.Account.{Account, Claim};
ghost use Rattle.record_clauses.specs.Clauses.{Holds};
ghost use Rattle.record_clauses.specs.Verdicts as claims;
ghost use Rattle.run_check.specs.Completeness.{AreLinesOf, HasVerdict, IsExplainingText, plain_record};
ghost use Rattle.run_check.specs.Tells.{ComesTo};

use crate::laws::{a_text_comes_to_one_verdict, what_a_text_tells_is_written_as_its_lines};
use record_clauses::laws::the_clauses_are_put_together_part_by_part;
use record_clauses::{Clause, Verdict};
use record_text::laws::a_text_tells_one_thing;
use run_cuts::laws::a_spelling_is_blind;
use script_calls::Outcome;
use sync_model::laws::shared::each_entry_is_a_call;
use sync_types::laws::atomics::calls_keep_the_type;

/// No record that explains its run is refused for what its text leaves out. A line leaves out much of an item: what a once's function came
/// to and what the once keeps, whose ticket a worker has that waits for a mutex, at which part of a pool it looks, of which cursor a step
/// is, what it had seen of a journal, and which calls are entries of the history. A reader finds what counts of it again, in the workload
/// and in the other lines. So where all clauses hold of what is told of a run, a text with the lines of its items, its end and its report
/// comes to Yes, in whatever order the workers' lines stand. And whoever gets a No knows that no run of which the clauses hold has these
/// lines, this end and this report.
pub fn nothing_that_explains_is_lost()
    ensures yes { (told : Told) (claim : Claim) (account : Account) → IsReadable told.plan → ((clause : Clause) → Holds claim account clause) → AreLinesOf told claim → ComesTo told Verdict.Yes }
    ensures no { (told : Told) (claim : Claim) (account : Account) (fails : Clause) → IsReadable told.plan → ComesTo told (Verdict.No fails) → AreLinesOf told claim → ((clause : Clause) → Holds claim account clause) → ⊥ }
{
    a_spelling_is_blind();
    the_clauses_are_put_together_part_by_part();
    each_entry_is_a_call();
    calls_keep_the_type();
}

/// A text comes to Yes exactly where it is the text of a record that explains a run: where some claim has its lines, its end and its report, and
/// all clauses hold of the claim. Which claim that is, a line may leave open, but not whether there is one.
pub fn a_yes_is_exactly_that_a_record_explains()
    ensures told { (bytes : List ℕ) (told : Told) → IsTold bytes told → IsReadable told.plan → (ComesTo told Verdict.Yes ↔ (claim : Claim) × AreLinesOf told claim × claims.ComesTo claim Verdict.Yes) }
    ensures bytes { (bytes : List ℕ) (verdict : Verdict) → HasVerdict bytes verdict → (verdict ≡ Verdict.Yes ↔ IsExplainingText bytes) }
{
    what_a_text_tells_is_written_as_its_lines();
    nothing_that_explains_is_lost();
    a_text_tells_one_thing();
    a_text_comes_to_one_verdict();
}

/// What lines leave out of the entries of journals decides nothing: without it a record explains what it explains with it.
pub fn what_lines_leave_out_of_entries_decides_nothing()
    ensures { (plan : Plan) (outcome : Outcome) (r : Record) → Explains plan outcome r → Explains plan outcome (plain_record r) }
{
    a_spelling_is_blind();
}
