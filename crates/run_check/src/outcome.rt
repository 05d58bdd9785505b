//! The outcome that was found of a run.
ghost use Rattle.std.specs.Prelude.{◌≡◌, ◌↔◌, ◌<◌, ℕ, true, List, map, length, Some, slice_get, IfOk};
ghost use Rattle.script_calls.specs.Outcome.{shows_to};
ghost use Rattle.sync_model.specs.declared.item.Item.{Item};
ghost use Rattle.sync_model.specs.declared.item.SharedEntry.{SharedEntry};
ghost use Rattle.sync_model.specs.EndsOfHistory.{HasKeysBelow};
ghost use Rattle.sync_model.specs.SharedHistory.{IsLegal, contents_after};
ghost use Rattle.workload.specs.declared.limits.TheConstants.{MAX_KEYS};
ghost use Rattle.workload.specs.Keys.{keys_in};
ghost use Rattle.run_record.specs.Objects.{contents_of, ends_in};
ghost use Rattle.run_report.specs.ReportText.{report_text};
ghost use Rattle.shared_checks.specs.Placing.{IsOn};
ghost use Rattle.record_text.specs.Told.{Told, joined};
ghost use Rattle.record_clauses.specs.Account.{Claim};
ghost use Rattle.record_clauses.specs.Verdicts as claims;
ghost use Rattle.run_check.specs.Found.{IsStoppedOf, found_outcome};

use crate::contents::{ends_of, objects_of, play_all};
use crate::shown_keys::a_cursor_shows_the_workloads_keys;
use crate::spelling::Spelling;
use list_checks::spell::line::SpeltLine;
use record_clauses::Clause;
use record_clauses::laws::the_clauses_are_put_together_part_by_part;
use record_clauses::pair_order::a_range_replies_in_one_order;
use run_cuts::laws::a_spelling_is_blind;
use run_record::laws::limits::{a_range_shows_no_key_twice, maps_end_with_the_workloads_keys};
use script_calls::{Outcome, Reply, Report};
use shared_checks::laws::calls_have_one_history;
use std::alloc::{AllocError, Global};
use sync_model::SharedEntry;
use sync_types::{End, Misuse, Seq};
use workload::Workload;
use workload::laws::keys_are_numbered_by_first_appearance;

/// Behind the clauses up to `stop` all that a run came to is known. The history's calls are on objects that are there, the maps end with
/// keys of the workload, and no reply shows more pairs than a workload has keys. And the clause `report` asks for the report of it.
pub(crate) fn what_a_run_came_to_is_known()
    ensures on { (told : Told) (found : Spelling) (marked : List (List Item)) (history : List SharedEntry) (claim : Claim) (n : ℕ) (entry : SharedEntry) → IsStoppedOf told found marked history claim
        → slice_get history n ≡ Some entry → IsOn (contents_of told.plan) entry.call }
    ensures keys { (told : Told) (found : Spelling) (marked : List (List Item)) (history : List SharedEntry) (claim : Claim) → IsStoppedOf told found marked history claim
        → HasKeysBelow (length (keys_in told.plan.scripts)) (contents_after (contents_of told.plan) history) }
    ensures pairs { (told : Told) (found : Spelling) (marked : List (List Item)) (history : List SharedEntry) (claim : Claim) → IsStoppedOf told found marked history claim
        → shows_to MAX_KEYS (found_outcome told.plan told.misused found.lines history) ≡ true }
    ensures workers { (told : Told) (found : Spelling) (marked : List (List Item)) (history : List SharedEntry) (claim : Claim) → IsStoppedOf told found marked history claim
        → length found.lines ≡ told.plan.workers }
    ensures report { (told : Told) (found : Spelling) (marked : List (List Item)) (history : List SharedEntry) (claim : Claim) → IsStoppedOf told found marked history claim
        → ((joined told.report ≡ report_text told.plan (found_outcome told.plan told.misused found.lines history)) ↔ claims.UpTo claim Clause.Report) }
{
    a_spelling_is_blind();
    a_range_replies_in_one_order();
    a_cursor_shows_the_workloads_keys();
    the_clauses_are_put_together_part_by_part();
    calls_have_one_history();
    a_range_shows_no_key_twice();
    maps_end_with_the_workloads_keys();
    keys_are_numbered_by_first_appearance();
}

/// What a run came to that ended so, whose lists spell these lines, and whose calls on maps and atomics have this history.
pub fn outcome_found(
    alloc: Global,
    workload: &Workload,
    misused: Option<Misuse>,
    lines: Seq<SpeltLine>,
    history: &[SharedEntry],
) -> Result<Outcome, AllocError>
    requires legal { IsLegal (contents_of workload.now) history.now }
    requires on { (n : ℕ) (entry : SharedEntry) → slice_get history.now n ≡ Some entry → IsOn (contents_of workload.now) entry.call }
    requires keys { HasKeysBelow (length (keys_in workload.now.scripts)) (contents_after (contents_of workload.now) history.now) }
    ensures { IfOk result (λ outcome. outcome ≡ found_outcome workload.now misused lines history.now) }
{
    let replies = replies_of(alloc, lines)?;
    match misused {
        None => {
            let ends = ends_left(alloc, workload, history)?;
            Ok(Outcome::Done(Report { replies, ends }))
        }
        Some(misuse) => {
            let ends = Seq::new(alloc);
            Ok(Outcome::Misused(Report { replies, ends }, misuse))
        }
    }
}

// The replies of the completed calls, list by list.
fn replies_of(alloc: Global, lines: Seq<SpeltLine>) -> Result<Seq<Seq<Reply<u32>>>, AllocError>
    ensures { IfOk result (λ replies. replies ≡ map (λ line. line.replies) lines) }
{
    let mut replies = Seq::new(alloc);
    for line in lines.into_vec() {
        let SpeltLine {
            replies: completed,
            calls: _,
            ending: _,
        } = line;
        replies.push(completed)?;
    }
    Ok(replies)
}

// What a report shows of the maps and atomics after a history.
fn ends_left(
    alloc: Global,
    workload: &Workload,
    history: &[SharedEntry],
) -> Result<Seq<End>, AllocError>
    requires legal { IsLegal (contents_of workload.now) history.now }
    requires on { (n : ℕ) (entry : SharedEntry) → slice_get history.now n ≡ Some entry → IsOn (contents_of workload.now) entry.call }
    requires keys { HasKeysBelow (length (keys_in workload.now.scripts)) (contents_after (contents_of workload.now) history.now) }
    ensures { IfOk result (λ ends. ends ≡ ends_in workload.now (contents_after (contents_of workload.now) history.now)) }
{
    let mut objects = objects_of(alloc, workload)?;
    play_all(&mut objects, history)?;
    ends_of(alloc, workload, &objects)
}
