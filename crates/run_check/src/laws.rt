//! Laws of the checker of a record. Each is the contract of a function that does nothing.
ghost use Rattle.std.specs.Prelude.{◌≡◌, ◌↔◌, ℕ, ◌+◌, ◌≤◌, List, [], map, get_or, Some, slice_get};
ghost use Rattle.script_calls.specs.Runs.{RunsAlong};
ghost use Rattle.workload.specs.Plan.{Plan};
ghost use Rattle.workload.specs.Readable.{IsReadable};
ghost use Rattle.run_record.specs.Explains.{Explains};
ghost use Rattle.run_record.specs.Lines.{IsLineOf, Line, calls_made, items_of as items_in};
ghost use Rattle.run_record.specs.Objects.{contents_of};
ghost use Rattle.run_record.specs.Record.{Record, calls_of, shared_in};
ghost use Rattle.run_report.specs.ReportText.{report_text};
ghost use Rattle.shared_checks.specs.Calls.{calls_in};
ghost use Rattle.shared_checks.specs.Fronts.{LawfulFronts};
ghost use Rattle.shared_checks.specs.Parts.{LawfulBegins, LawfulHistory, LawfulRanges};
ghost use Rattle.shared_checks.specs.Placing.{AreOn, IsOn};
ghost use Rattle.shared_checks.specs.Marks.{AreMarked, HaveNoHistory};
ghost use Rattle.record_text.specs.Told.{IsTold, Told, items_of, joined};
ghost use Rattle.record_clauses.specs.Account.{Account, Claim, ToldItem, made_in, outcome_by, record_of};
ghost use Rattle.record_clauses.specs.Clauses.{IsSpelt};
ghost use Rattle.record_clauses.specs.Verdicts as claims;
ghost use Rattle.run_check.specs.Items.{line_of};
ghost use Rattle.run_check.specs.Lists.{AreSpeltTo, SomeSpellsNothing};
ghost use Rattle.run_check.specs.Placed.{IsPlaced};
ghost use Rattle.run_check.specs.Tells.{ComesTo, Tells, UpTo};

use crate::spelling::Spelling;
use record_clauses::laws::yes_is_that_a_record_explains;
use record_clauses::{Clause, Verdict};
use record_text::laws::a_text_tells_one_thing;
use run_cuts::laws::a_spelling_is_blind;
use script_calls::Report;
use shared_checks::laws::calls_have_one_history;
use sync_model::{Item, SharedEntry};

/// The text of a record comes to one verdict: not to two, and not to none.
pub fn a_text_comes_to_one_verdict()
    ensures one { (bytes : List ℕ) (told other : Told) (first second : Verdict) → IsTold bytes told → IsTold bytes other → ComesTo told first → ComesTo other second → first ≡ second }
    ensures some { (told : Told) → ((verdict : Verdict) → ComesTo told verdict → ⊥) → ⊥ }
{
    a_text_tells_one_thing();
}

/// Where some worker's items, as the text's lines say them, spell nothing, the clause `spell` holds of no claim that the text tells.
pub fn where_a_list_spells_nothing_the_clause_fails()
    ensures { (told : Told) → SomeSpellsNothing told.plan told.items → UpTo told Clause.Spell → ⊥ }
{
    a_spelling_is_blind();
}

/// Where all workers' items spell something, the text tells a claim, and of each claim that it tells the clause `spell` holds.
pub fn where_all_lists_spell_the_clause_holds()
    ensures each { (told : Told) (found : Spelling) → IsReadable told.plan → AreSpeltTo told.plan told.items told.plan.workers found → (claim : Claim) → Tells told claim → claims.UpTo claim Clause.Spell }
    ensures some { (told : Told) (found : Spelling) → IsReadable told.plan → AreSpeltTo told.plan told.items told.plan.workers found → UpTo told Clause.Spell }
{
    a_spelling_is_blind();
}

/// Where the calls on maps and atomics have no lawful history, whichever of them are entries, the clause `legal` holds of no claim that the
/// text tells.
pub fn where_no_marks_are_lawful_the_clause_fails()
    ensures any { (told : Told) (found : Spelling) → AreSpeltTo told.plan told.items told.plan.workers found → HaveNoHistory (contents_of told.plan) found.shared.items → UpTo told Clause.Legal → ⊥ }
    ensures marked { (told : Told) (found : Spelling) (marked : List (List Item)) → AreSpeltTo told.plan told.items told.plan.workers found → AreMarked (contents_of told.plan) found.shared.items marked
        → ((history : List SharedEntry) → LawfulHistory (contents_of told.plan) history (calls_in marked) → ⊥) → UpTo told Clause.Legal → ⊥ }
{}

/// Where the marked calls have a lawful history, the text tells one claim of which `legal` holds: the one with these marks.
pub fn where_the_marks_are_lawful_one_claim_is_told()
    ensures { (told : Told) (found : Spelling) (marked : List (List Item)) (history : List SharedEntry) → IsReadable told.plan → AreSpeltTo told.plan told.items told.plan.workers found
        → AreMarked (contents_of told.plan) found.shared.items marked → LawfulHistory (contents_of told.plan) history (calls_in marked) → (claim : Claim) × IsPlaced told marked history claim }
{
    a_spelling_is_blind();
}

/// From `legal` on the clauses of a text are those of this claim. So the first that fails of the claim is the first that fails of the
/// text, and where all hold of the claim the verdict is Yes.
pub fn behind_legal_the_clauses_are_those_of_one_claim()
    ensures clauses { (told : Told) (marked : List (List Item)) (history : List SharedEntry) (claim : Claim) → IsPlaced told marked history claim
        → (clause : Clause) → 1 ≤ claims.place_of clause → (UpTo told clause ↔ claims.UpTo claim clause) }
    ensures no { (told : Told) (marked : List (List Item)) (history : List SharedEntry) (claim : Claim) → IsPlaced told marked history claim
        → (before clause : Clause) → 1 ≤ claims.place_of before → claims.place_of before + 1 ≡ claims.place_of clause → claims.UpTo claim before → (claims.UpTo claim clause → ⊥) → ComesTo told (Verdict.No clause) }
    ensures yes { (told : Told) (marked : List (List Item)) (history : List SharedEntry) (claim : Claim) → IsPlaced told marked history claim → claims.UpTo claim Clause.Report → ComesTo told Verdict.Yes }
{}

/// The claims that a text tells differ in the marks of their calls alone: with the same calls they are the same claim.
pub fn the_marks_determine_what_a_text_tells()
    ensures { (told : Told) (one other : Claim) → Tells told one → Tells told other
        → ((worker : ℕ) (list others : List ToldItem) → slice_get one.lists worker ≡ Some list → slice_get other.lists worker ≡ Some others → shared_in (made_in list) ≡ shared_in (made_in others))
        → one ≡ other }
{}

/// Each item that a text tells is written as its line, one by one.
pub fn what_a_text_tells_is_written_as_its_lines()
    ensures { (bytes : List ℕ) (told : Told) (claim : Claim) (worker : ℕ) (list : List ToldItem) → IsTold bytes told → Tells told claim → slice_get claim.lists worker ≡ Some list
        → map (line_of worker) list ≡ map (λ item. Some item) (items_of told.items worker) }
{}

/// Where the verdict is Yes, some record whose items are those that the text's lines say explains an outcome that ends as the text says, and
/// the text's report is that of it.
pub fn yes_is_that_a_record_of_the_text_explains()
    ensures { (told : Told) → ComesTo told Verdict.Yes
        → (claim : Claim) × Tells told claim × ((r : Record) × (left : Report) × (r.lists ≡ map made_in claim.lists) × Explains told.plan (outcome_by told.misused left) r
        × (joined told.report ≡ report_text told.plan (outcome_by told.misused left))) }
{
    yes_is_that_a_record_explains();
}

/// What a worker's list spells is on objects that are there: each call on a map or an atomic in it is on one of the workload, which has
/// the call. So behind the clause `spell` nobody needs to ask that.
pub fn what_is_spelt_is_on_objects_that_are_there()
    ensures line { (plan : Plan) (worker i : ℕ) (line : Line) (x : Item) → IsReadable plan → RunsAlong (get_or plan.scripts worker []) (calls_made line) line.rest → IsLineOf plan worker line
        → slice_get (shared_in (items_in line)) i ≡ Some x → IsOn (contents_of plan) x.call }
    ensures all { (claim : Claim) (account : Account) → IsReadable claim.plan → IsSpelt claim account → AreOn (contents_of claim.plan) (calls_of (record_of claim account)) }
{}

/// So is each call on a map or an atomic that the lines of a text say, where they spell something, and each of the marked calls.
pub fn what_is_told_is_on_objects_that_are_there()
    ensures told { (told : Told) (found : Spelling) → IsReadable told.plan → AreSpeltTo told.plan told.items told.plan.workers found → AreOn (contents_of told.plan) (calls_in found.shared.items) }
    ensures marked { (told : Told) (marked : List (List Item)) (history : List SharedEntry) (claim : Claim) → IsReadable told.plan → IsPlaced told marked history claim → AreOn (contents_of told.plan) (calls_in marked) }
{
    a_spelling_is_blind();
}

/// Behind `front` the clause `range` is asked of the marked calls and their history alone.
pub fn range_is_asked_of_the_marked_calls()
    ensures fronts { (told : Told) (marked : List (List Item)) (history : List SharedEntry) (claim : Claim) → IsPlaced told marked history claim → claims.UpTo claim Clause.Front → LawfulFronts (calls_in marked) }
    ensures ranges { (told : Told) (marked : List (List Item)) (history : List SharedEntry) (claim : Claim) → IsPlaced told marked history claim → claims.UpTo claim Clause.Front
        → (LawfulBegins (calls_in marked) × LawfulRanges (contents_of told.plan) history (calls_in marked) ↔ claims.UpTo claim Clause.Range) }
{
    calls_have_one_history();
}
