//! What the clauses come to together. Each law is the contract of a function that does nothing.
ghost use Rattle.std.specs.Prelude.{◌≡◌, ◌↔◌, ℕ, true, List, ◌∷◌, ◌++◌, map, length, replicate, All, Option, None, Some, slice_get};
ghost use Rattle.std.specs.List.{flat_map};
ghost use Rattle.script_calls.specs.Runs.{RunsAlong};
ghost use Rattle.sync_model.specs.Journal.{Follows};
ghost use Rattle.workload.specs.Plan.{Plan};
ghost use Rattle.run_record.specs.Explains.{AreLines, IsRecordOf, HasEnded, Agrees, Explains};
ghost use Rattle.run_record.specs.Journals.{FollowsFrom};
ghost use Rattle.run_record.specs.Lines.{Line, SpeltCall, calls_made, replies_of};
ghost use Rattle.run_record.specs.Parts.{lifted};
ghost use Rattle.run_record.specs.Record.{Record, ObjectEntry};
ghost use Rattle.run_report.specs.ReportText.{report_text};
ghost use Rattle.run_report.specs.Shown.{IsCompleted};
ghost use Rattle.record_clauses.specs.Account.{Claim, Account, made_in, record_of, outcome_by, outcome_of, has_no_range};
ghost use Rattle.record_clauses.specs.Clauses.{TellsCalls, TellsNumbers, IsSpelt, IsLegallyPlaced, HasFronts, HasRanges, HasJournals, HasEdges, HasEnds, IsStoppedBy, HasHalts, Holds};
ghost use Rattle.record_clauses.specs.Journals.{without_fronts};
ghost use Rattle.run_cuts.specs.CallsAlong.{calls_along};
ghost use Rattle.record_clauses.specs.Lists.{before_halts};
ghost use Rattle.record_clauses.specs.Verdicts.{ComesTo};

use crate::clause::{Clause, Verdict};
use run_cuts::laws::a_list_is_cut_into_one_line;
use run_record::laws::edges::each_journal_keeps_the_edge_law;
use run_record::laws::endings::halts_stand_behind_all_else;
use run_record::{ObjectEvent, ObjectReply};
use script_calls::{Call, Outcome, Report};
use shared_checks::laws::{calls_have_one_history, the_law_is_its_parts};
use sync_model::{Entry, Machine};

/// All nine clauses of an account together say that its record explains the outcome, and that the report is that of the outcome. And
/// all of them hold where the record explains the outcome by these lines, each item is told to be of the call that it is of, each
/// entry is told its number, and the report is that of the outcome.
pub fn the_clauses_say_that_the_record_explains_the_outcome()
    ensures explains { (claim : Claim) (account : Account) → ((clause : Clause) → Holds claim account clause)
        → Explains claim.plan (outcome_of claim account) (record_of claim account) × (claim.report ≡ report_text claim.plan (outcome_of claim account)) }
    ensures holds { (claim : Claim) (account : Account) (explained : Explains claim.plan (outcome_of claim account) (record_of claim account)) (clause : Clause)
        → explained.lines ≡ account.lines → TellsCalls claim account → TellsNumbers claim account → claim.report ≡ report_text claim.plan (outcome_of claim account)
        → Holds claim account clause }
{
    the_law_is_its_parts();
    each_journal_keeps_the_edge_law();
    halts_stand_behind_all_else();
}

/// `legal`, `front`, `range`, `machine` and `edge` together say that the record is a lawful one of the workload's objects, and that each
/// entry is told its number. `spell` and `stop` say which lines the lists are, with the halts behind them. `end` and `stop` say what the
/// run came to.
pub fn the_clauses_are_put_together_part_by_part()
    ensures lawful { (claim : Claim) (account : Account)
        → (IsLegallyPlaced claim account × HasFronts claim account × HasRanges claim account × HasJournals claim account × HasEdges claim account
        ↔ IsRecordOf claim.plan (record_of claim account) × TellsNumbers claim account) }
    ensures lines { (claim : Claim) (account : Account)
        → (IsSpelt claim account × HasHalts claim account
        ↔ AreLines claim.plan (record_of claim account) (outcome_of claim account) account.lines × TellsCalls claim account × IsStoppedBy claim account claim.misused) }
    ensures agrees { (claim : Claim) (account : Account)
        → (HasEnds claim account claim.misused × IsStoppedBy claim account claim.misused
        ↔ Agrees claim.plan (record_of claim account) account.lines (outcome_of claim account)) }
{
    the_law_is_its_parts();
    each_journal_keeps_the_edge_law();
    halts_stand_behind_all_else();
}

/// A machine sees no fronts: a journal without them follows it just where the entries are all of its kind, and follow it.
pub fn a_machine_sees_no_fronts<M: Machine>()
    ensures { (event : M.Event → ObjectEvent) (reply : M.Reply → ObjectReply) (start : M.State) (journal : List ObjectEntry)
        → (FollowsFrom event reply M.next M.frees M.takes start (without_fronts journal)
        ↔ (own : List (Entry M.Event M.Reply)) × (journal ≡ map (lifted event reply) own) × Follows M.next true start None own) }
{}

/// Each record that explains an outcome can be told, with the report of that outcome, so that all clauses hold.
pub fn whatever_explains_can_be_told()
    ensures { (plan : Plan) (outcome : Outcome) (r : Record) → Explains plan outcome r
        → (claim : Claim) × (account : Account) × (claim.plan ≡ plan) × (record_of claim account ≡ r) × (outcome_of claim account ≡ outcome) × ((clause : Clause) → Holds claim account clause) }
{
    the_law_is_its_parts();
    each_journal_keeps_the_edge_law();
    halts_stand_behind_all_else();
}

/// Each item of a completed call is told the place that the call has in the script, and in its line of the report. The items behind the
/// completed calls are told the place of the next call, where something is left of the script.
pub fn an_item_is_told_the_place_of_its_call()
    ensures completed { (script : List Call) (line : Line) (earlier later : List SpeltCall) (spelt : SpeltCall)
        → RunsAlong script (calls_made line) line.rest → line.spelt ≡ earlier ++ spelt ∷ later
        → (place : ℕ) × (before : List (Option ℕ)) × (after : List (Option ℕ)) × IsCompleted script (replies_of line) (length earlier) place spelt.call spelt.reply
        × (calls_along line ≡ before ++ (replicate (length spelt.items) (Some place) ++ after)) × (length before ≡ length (line.first ++ flat_map (λ s. s.items) earlier)) }
    ensures next { (script : List Call) (line : Line) (call : Call) (behind : List Call)
        → RunsAlong script (calls_made line) line.rest → line.rest ≡ call ∷ behind
        → (place : ℕ) × (before : List (Option ℕ)) × (slice_get script place ≡ Some call)
        × (calls_along line ≡ before ++ replicate (length line.last) (Some place)) × (length before ≡ length (line.first ++ flat_map (λ s. s.items) line.spelt)) }
{}

/// What is told determines the parts of an account, by one clause after the other: `legal` the history, and `machine` the journals. Where
/// no script has a `range`, and all workers have ended, `spell` determines the lines, but for the halts behind them. So where all clauses
/// hold of two accounts, both are one, and the outcome is. The items of a `range` leave open in which order it replies the pairs of two
/// keys with one name.
pub fn the_parts_of_an_account_are_determined()
    ensures history { (claim : Claim) (one other : Account) → IsLegallyPlaced claim one → IsLegallyPlaced claim other → one.history ≡ other.history }
    ensures journals { (claim : Claim) (one other : Account) → HasJournals claim one → HasJournals claim other → one.journals ≡ other.journals }
    ensures lines { (claim : Claim) (one other : Account) → has_no_range claim.plan ≡ true
        → IsSpelt claim one → IsSpelt claim other → All (λ line. HasEnded line.ending) one.lines → All (λ line. HasEnded line.ending) other.lines
        → map before_halts one.lines ≡ map before_halts other.lines }
    ensures all { (claim : Claim) (one other : Account) → has_no_range claim.plan ≡ true
        → ((clause : Clause) → Holds claim one clause) → ((clause : Clause) → Holds claim other clause) → one ≡ other }
{
    calls_have_one_history();
    a_list_is_cut_into_one_line();
}

/// Where the verdict is Yes, some record whose lists are those that are told explains an outcome of the kind that is told, and the report is
/// that of it.
pub fn yes_is_that_a_record_explains()
    ensures { (claim : Claim) → ComesTo claim Verdict.Yes
        → (r : Record) × (left : Report) × (r.lists ≡ map made_in claim.lists) × Explains claim.plan (outcome_by claim.misused left) r
        × (claim.report ≡ report_text claim.plan (outcome_by claim.misused left)) }
{
    the_clauses_say_that_the_record_explains_the_outcome();
}

/// What is told of a run comes to one verdict: not to two, and not to none.
pub fn a_claim_comes_to_one_verdict()
    ensures one { (claim : Claim) (first second : Verdict) → ComesTo claim first → ComesTo claim second → first ≡ second }
    ensures some { (claim : Claim) → ((verdict : Verdict) → ComesTo claim verdict → ⊥) → ⊥ }
{}
