//! The halts of the workers' lists, and the misuse that ended a run.
ghost use Rattle.std.specs.Prelude.{◌≡◌, ◌↔◌, ◌≤◌, true, length, take, drop, IsTrue};
ghost use Rattle.sync_model.specs.Journal.{halt_of};
ghost use Rattle.run_record.specs.Lines.{AreHalts, IsHalt, misused};
ghost use Rattle.run_record.specs.Record.{journal_of, stop};
ghost use Rattle.list_checks.specs.SpellLines.{line_end};
ghost use Rattle.object_checks.specs.JournalItems.{entries_in_row};
ghost use Rattle.record_text.specs.Told.{Told};
ghost use Rattle.record_clauses.specs.Account.{Account, Claim, record_of};
ghost use Rattle.record_clauses.specs.Clauses.{HasJournals};
ghost use Rattle.record_clauses.specs.Lists.{is_halt};
ghost use Rattle.record_clauses.specs.Verdicts as claims;
ghost use Rattle.run_check.specs.Found.{AllHaltsBehind, HaltsBehind, IsFoundOf, IsStoppedSo, are_no_halts, begins_with_halt};

use crate::ends::have_ended;
use crate::spelling::Spelling;
use list_checks::spell::line::{Ending, SpeltLine};
use object_checks::journals::Row;
use record_clauses::Clause;
use run_cuts::laws::a_spelling_is_blind;
use run_record::Made;
use sync_model::Deed;
use sync_types::{Misuse, Seq};

/// Whether behind the clauses up to `end` the clause `stop` holds too, where this was found of the workers' lists, and this is the journal
/// of Stop. Halts stand behind a misuse of their worker alone, and are by it. A run that isn't done ended by the first of Stop, and each
/// worker has ended.
pub fn stop_holds(
    misused: Option<Misuse>,
    lists: &[Seq<Made>],
    lines: &[SpeltLine],
    stops: &[Row<'_>],
) -> bool
    requires { length lists.now ≡ length lines.now }
    ensures { (told : Told) (found : Spelling) (claim : Claim) → IsFoundOf told found claim → told.misused ≡ misused → found.all ≡ lists.now → found.lines ≡ lines.now
        → ((account : Account) → HasJournals claim account → journal_of (record_of claim account) stop ≡ entries_in_row stops.now)
        → claims.UpTo claim Clause.End → (IsTrue result ↔ claims.UpTo claim Clause.Stop) }
{
    a_spelling_is_blind();
    are_behind(lists, lines) && is_stopped(misused, lines, stops)
}

// Whether a run that isn't done ended by the first halt of Stop, with all workers at an end.
fn is_stopped(misused: Option<Misuse>, lines: &[SpeltLine], stops: &[Row<'_>]) -> bool
    ensures { IsTrue result ↔ IsStoppedSo lines.now (halt_of (entries_in_row stops.now)) misused }
{
    match misused {
        None => true,
        Some(misuse) => have_ended(lines) && first_halt_of(stops) == Some(misuse),
    }
}

/// The misuse of the first halt of a journal.
pub fn first_halt_of(journal: &[Row<'_>]) -> Option<Misuse>
    ensures { result ≡ halt_of (entries_in_row journal.now) }
{
    for row in journal {
        if let Deed::Halt(misuse) = row.item.deed {
            return Some(misuse);
        }
    }
    None
}

// Whether each list has its halts where they may stand.
fn are_behind(lists: &[Seq<Made>], lines: &[SpeltLine]) -> bool
    requires { length lists.now ≡ length lines.now }
    ensures { IsTrue result ↔ AllHaltsBehind lists.now lines.now }
{
    for worker in 0..lists.len() {
        if !is_behind(lists[worker].as_slice(), lines[worker].ending) {
            return false;
        }
    }
    true
}

/// Whether the halts of a list that ends so stand behind all else, and are by the misuse in which it ends.
pub fn is_behind(list: &[Made], ending: Ending) -> bool
    ensures { IsTrue result ↔ HaltsBehind list.now (line_end ending) }
{
    let first = first_halt(list);
    are_halts(list, first, ending)
}

// The place of the first halt of a list; its end, where it has none.
fn first_halt(list: &[Made]) -> usize
    ensures within { result ≤ length list.now }
    ensures before { are_no_halts (take result list.now) ≡ true }
    ensures at { begins_with_halt (drop result list.now) ≡ true }
{
    for index in 0..list.len() {
        if is_halt(&list[index]) {
            return index;
        }
    }
    list.len()
}

fn is_halt(item: &Made) -> bool
    ensures { result ≡ is_halt item.now }
{
    match item {
        Made::Shared(_) => false,
        Made::Entered { object: _, entry } => match &entry.deed {
            Deed::Halt(_) => true,
            Deed::Event(_, _) | Deed::Refused(_, _) => false,
        },
    }
}

// Whether what stands in a list from a place on are the halts behind a list that ends so.
fn are_halts(list: &[Made], from: usize, ending: Ending) -> bool
    requires { from ≤ length list.now }
    ensures { IsTrue result ↔ AreHalts (line_end ending) (drop from list.now) }
{
    match ending {
        Ending::Misused(misuse) => are_halts_by(list, from, misuse),
        _ => from == list.len(),
    }
}

fn are_halts_by(list: &[Made], from: usize, misuse: Misuse) -> bool
    ensures { IsTrue result ↔ AreHalts (misused misuse) (drop from list.now) }
{
    for index in from..list.len() {
        if !is_halt_by(&list[index], misuse) {
            return false;
        }
    }
    true
}

fn is_halt_by(item: &Made, misuse: Misuse) -> bool
    ensures { IsTrue result ↔ IsHalt misuse item.now }
{
    match item {
        Made::Shared(_) => false,
        Made::Entered { object: _, entry } => match &entry.deed {
            Deed::Halt(other) => *other == misuse,
            Deed::Event(_, _) | Deed::Refused(_, _) => false,
        },
    }
}
