//! The verdict on the text of a record: the clauses one after the other, up to the first that fails.
ghost use Rattle.std.specs.Prelude.{◌≡◌, ◌↔◌, ◌^◌, ◌≤◌, ℕ, List, [], false, get_or, length, IfOk, IsTrue, MatchOption, MatchResult, None};
ghost use Rattle.sync_model.specs.SharedHistory.{value_at};
ghost use Rattle.workload.specs.Dialect.{has_variables};
ghost use Rattle.run_record.specs.Objects as plans;
ghost use Rattle.object_checks.specs.JournalItems.{HaveFronts, journals_in};
ghost use Rattle.shared_checks.specs.Calls.{calls_in};
ghost use Rattle.shared_checks.specs.Fronts.{LawfulFronts};
ghost use Rattle.shared_checks.specs.Parts.{LawfulBegins, LawfulHistory, LawfulRanges};
ghost use Rattle.shared_checks.specs.Placing.{AreOn, contents_of};
ghost use Rattle.shared_checks.specs.Marks.{AreMarked, HaveNoHistory};
ghost use Rattle.record_text.specs.Reads.{told_by};
ghost use Rattle.record_text.specs.Refused.{IsCheckFault};
ghost use Rattle.record_text.specs.Told.{IsTold};
ghost use Rattle.record_clauses.specs.Account.{Claim};
ghost use Rattle.record_clauses.specs.Verdicts as claims;
ghost use Rattle.run_check.specs.Completeness.{HasVerdict, IsExplainingText};
ghost use Rattle.run_check.specs.Findings.{HoldsTo, HoldsWith, IsFound};
ghost use Rattle.run_check.specs.Lists.{AreSpeltTo};
ghost use Rattle.run_check.specs.Tells.{ComesTo, UpTo};

use crate::completeness::a_yes_is_exactly_that_a_record_explains;
use crate::contents::objects_of;
use crate::ends::has_ends;
use crate::fronts::front_holds;
use crate::journals::{journals_found, keep_edges, stops_in};
use crate::laws::{
    range_is_asked_of_the_marked_calls, what_is_told_is_on_objects_that_are_there,
    where_a_list_spells_nothing_the_clause_fails, where_all_lists_spell_the_clause_holds,
    where_no_marks_are_lawful_the_clause_fails, where_the_marks_are_lawful_one_claim_is_told,
};
use crate::report::report_holds;
use crate::spelling::{Spelling, spell_all};
use crate::stops::stop_holds;
use list_checks::spell::line::SpeltLine;
use object_checks::journals::{JournalItem, Row};
use record_clauses::{Clause, Verdict};
use record_text::{CheckFault, RecordText, read_record};
use run_record::Made;
use shared_checks::{Objects, keeps_ranges, lawful_history_of, marked, steps_follow_begins};
use std::alloc::{AllocError, Global};
use sync_model::{Item, SharedEntry};
use sync_types::Seq;
use workload::Workload;
use workload::laws::plain_texts_are_race_texts_without_variables;

// What a check found of a text of which `legal` holds.
#[derive(Drop)]
struct Findings {
    // What each worker's list spells, its halts set aside.
    lines: Seq<SpeltLine>,
    // Each list, without places, fronts, workers and marks.
    all: Seq<Seq<Made>>,
    // Each worker's entries of journals.
    entries: Seq<Seq<JournalItem>>,
    // Each worker's calls on maps and atomics, marked as entries where they are.
    marked: Vec<Seq<Item>>,
    // The history of these calls.
    history: Vec<SharedEntry>,
}

/// Whether the record that a text tells explains its run, and if it doesn't, the first clause that fails. A text that is none of a record
/// is refused, with its first fault.
///
/// The verdict is Yes exactly where the text has the lines of a record that explains its run, with its end and its report.
pub fn check(alloc: Global, bytes: &[u8]) -> Result<Verdict, CheckFault>
    ensures comes { MatchResult result (HasVerdict bytes.now) (IsCheckFault bytes.now) }
    ensures exactly { IfOk result (λ verdict. verdict ≡ Verdict.Yes ↔ IsExplainingText bytes.now) }
{
    plain_texts_are_race_texts_without_variables();
    a_yes_is_exactly_that_a_record_explains();
    let text = read_record(alloc, bytes)?;
    let _workers = text.workload.workers();
    Ok(verdict_on(alloc, &text)?)
}

// The verdict on a text that is read.
fn verdict_on(alloc: Global, text: &RecordText<'_>) -> Result<Verdict, AllocError>
    requires plain { has_variables text.now.workload ≡ false }
    requires told { (bytes : List ℕ) × IsTold bytes (told_by text.now) }
    ensures { IfOk result (ComesTo (told_by text.now)) }
{
    where_a_list_spells_nothing_the_clause_fails();
    match spell_all(alloc, &text.workload, text.items.as_slice())? {
        None => Ok(Verdict::No(Clause::Spell)),
        Some(found) => verdict_behind_spell(alloc, text, found),
    }
}

// The verdict on a text whose lists spell this.
fn verdict_behind_spell(
    alloc: Global,
    text: &RecordText<'_>,
    found: Spelling,
) -> Result<Verdict, AllocError>
    requires told { (bytes : List ℕ) × IsTold bytes (told_by text.now) }
    requires spelt { AreSpeltTo text.now.workload text.now.items text.now.workload.workers found }
    ensures { IfOk result (ComesTo (told_by text.now)) }
{
    where_all_lists_spell_the_clause_holds();
    let _workers = text.workload.workers();
    match place_calls(alloc, text, found)? {
        None => Ok(Verdict::No(Clause::Legal)),
        Some(findings) => verdict_behind_legal(alloc, text, findings),
    }
}

// What is found of a text whose lists spell this; nothing, where `legal` fails.
fn place_calls(
    alloc: Global,
    text: &RecordText<'_>,
    found: Spelling,
) -> Result<Option<Findings>, AllocError>
    requires told { (bytes : List ℕ) × IsTold bytes (told_by text.now) }
    requires spelt { AreSpeltTo text.now.workload text.now.items text.now.workload.workers found }
    ensures { IfOk result (λ placed. MatchOption placed (UpTo (told_by text.now) Clause.Legal → ⊥) (λ findings. HoldsTo (told_by text.now) findings Clause.Legal)) }
{
    where_no_marks_are_lawful_the_clause_fails();
    where_the_marks_are_lawful_one_claim_is_told();
    what_is_told_is_on_objects_that_are_there();
    let _workers = text.workload.workers();
    let Spelling {
        lines,
        all,
        shared,
        entries,
    } = found;
    let Some(MarkedCalls { marked, history }) = mark_calls(alloc, &text.workload, shared)? else {
        return Ok(None);
    };
    Ok(Some(Findings {
        lines,
        all,
        entries,
        marked,
        history,
    }))
}

// Calls on maps and atomics, marked as entries of their history.
#[derive(Drop)]
struct MarkedCalls {
    marked: Vec<Seq<Item>>,
    history: Vec<SharedEntry>,
}

// The workers' calls, marked, with their history. Nothing, where they have no lawful history with any marks.
fn mark_calls(
    alloc: Global,
    workload: &Workload,
    shared: Vec<Seq<Item>>,
) -> Result<Option<MarkedCalls>, AllocError>
    requires callers { length shared.items ≤ 2 ^ 32 }
    requires on { AreOn (plans.contents_of workload.now) (calls_in shared.items) }
    ensures { IfOk result (λ found. MatchOption found (HaveNoHistory (plans.contents_of workload.now) shared.items)
        (λ calls. AreMarked (plans.contents_of workload.now) shared.items calls.marked.items × LawfulHistory (plans.contents_of workload.now) calls.history.items (calls_in calls.marked.items))) }
{
    let objects = objects_of(alloc, workload)?;
    let Some(marked) = marked(alloc, objects, shared)? else {
        return Ok(None);
    };
    let objects = objects_of(alloc, workload)?;
    let Some(history) = lawful_history_of(alloc, objects, &marked)? else {
        return Ok(None);
    };
    Ok(Some(MarkedCalls { marked, history }))
}

// The verdict on a text of which `legal` holds.
fn verdict_behind_legal(
    alloc: Global,
    text: &RecordText<'_>,
    findings: Findings,
) -> Result<Verdict, AllocError>
    requires { HoldsTo (told_by text.now) findings Clause.Legal }
    ensures { IfOk result (ComesTo (told_by text.now)) }
{
    match first_behind_legal(alloc, text, &findings)? {
        Some(clause) => Ok(Verdict::No(clause)),
        None => verdict_behind_stop(alloc, text, findings),
    }
}

// The verdict on a text of which all clauses up to `stop` hold.
fn verdict_behind_stop(
    alloc: Global,
    text: &RecordText<'_>,
    findings: Findings,
) -> Result<Verdict, AllocError>
    requires { HoldsTo (told_by text.now) findings Clause.Stop }
    ensures { IfOk result (ComesTo (told_by text.now)) }
{
    let _workers = text.workload.workers();
    let Findings {
        lines,
        all: _,
        entries: _,
        marked: _,
        history,
    } = findings;
    if report_holds(alloc, text, lines, &history)? {
        Ok(Verdict::Yes)
    } else {
        Ok(Verdict::No(Clause::Report))
    }
}

// The first clause behind `legal` that fails, up to `stop`; none, where all hold.
fn first_behind_legal(
    alloc: Global,
    text: &RecordText<'_>,
    findings: &Findings,
) -> Result<Option<Clause>, AllocError>
    requires { HoldsTo (told_by text.now) findings.now Clause.Legal }
    ensures { IfOk result (λ first. MatchOption first (HoldsTo (told_by text.now) findings.now Clause.Stop) (λ clause. ComesTo (told_by text.now) (Verdict.No clause))) }
{
    let items = text.items.as_slice();
    if !front_holds(alloc, &text.workload, items, &findings.marked)? {
        return Ok(Some(Clause::Front));
    }
    if !has_ranges(alloc, text, findings)? {
        return Ok(Some(Clause::Range));
    }
    first_behind_range(alloc, text, findings)
}

// Whether behind `front` the clause `range` holds too.
fn has_ranges(alloc: Global, text: &RecordText<'_>, findings: &Findings) -> Result<bool, AllocError>
    requires { HoldsTo (told_by text.now) findings.now Clause.Front }
    ensures { IfOk result (λ holds. (claim : Claim) → IsFound (told_by text.now) findings.now claim → claims.UpTo claim Clause.Front → (IsTrue holds ↔ claims.UpTo claim Clause.Range)) }
{
    range_is_asked_of_the_marked_calls();
    what_is_told_is_on_objects_that_are_there();
    let _workers = text.workload.workers();
    let objects = objects_of(alloc, &text.workload)?;
    Ok(keep_ranges(&objects, &findings.history, &findings.marked))
}

// Whether each step of a cursor follows the call that began the cursor, and shows what it may.
fn keep_ranges(objects: &Objects, history: &[SharedEntry], marked: &[Seq<Item>]) -> bool
    requires on { AreOn (contents_of objects.now) (calls_in marked.now) }
    requires empty { (m key : ℕ) → value_at (contents_of objects.now) m key ≡ None }
    requires law { LawfulHistory (contents_of objects.now) history.now (calls_in marked.now) }
    requires fronts { LawfulFronts (calls_in marked.now) }
    ensures { IsTrue result ↔ LawfulBegins (calls_in marked.now) × LawfulRanges (contents_of objects.now) history.now (calls_in marked.now) }
{
    steps_follow_begins(marked) && keeps_ranges(objects, history, marked)
}

// The first clause behind `range` that fails, up to `stop`.
fn first_behind_range(
    alloc: Global,
    text: &RecordText<'_>,
    findings: &Findings,
) -> Result<Option<Clause>, AllocError>
    requires { HoldsTo (told_by text.now) findings.now Clause.Range }
    ensures { IfOk result (λ first. MatchOption first (HoldsTo (told_by text.now) findings.now Clause.Stop) (λ clause. ComesTo (told_by text.now) (Verdict.No clause))) }
{
    let entries = findings.entries.as_slice();
    let Some(journals) = journals_found(alloc, &text.workload, entries)? else {
        return Ok(Some(Clause::Machine));
    };
    first_behind_machine(alloc, text, findings, &journals)
}

// The first clause behind `machine` that fails, up to `stop`, where these are the journals.
fn first_behind_machine(
    alloc: Global,
    text: &RecordText<'_>,
    findings: &Findings,
    journals: &[Seq<Row<'_>>],
) -> Result<Option<Clause>, AllocError>
    requires fronts { (object : ℕ) → HaveFronts (get_or journals.now object []) }
    requires found { HoldsWith (told_by text.now) findings.now (journals_in journals.now) Clause.Machine }
    ensures { IfOk result (λ first. MatchOption first (HoldsTo (told_by text.now) findings.now Clause.Stop) (λ clause. ComesTo (told_by text.now) (Verdict.No clause))) }
{
    if keep_edges(alloc, journals)? {
        Ok(first_behind_edge(text, findings, journals))
    } else {
        Ok(Some(Clause::Edge))
    }
}

// The first clause behind `edge` that fails, up to `stop`, where these are the journals.
fn first_behind_edge(
    text: &RecordText<'_>,
    findings: &Findings,
    journals: &[Seq<Row<'_>>],
) -> Option<Clause>
    requires { HoldsWith (told_by text.now) findings.now (journals_in journals.now) Clause.Edge }
    ensures { MatchOption result (HoldsTo (told_by text.now) findings.now Clause.Stop) (λ clause. ComesTo (told_by text.now) (Verdict.No clause)) }
{
    let _workers = text.workload.workers();
    let lines = findings.lines.as_slice();
    if !has_ends(text.misused, lines) {
        return Some(Clause::End);
    }
    let lists = findings.all.as_slice();
    if !stop_holds(text.misused, lists, lines, stops_in(journals)) {
        return Some(Clause::Stop);
    }
    None
}
