//! The journals of a run, out of the entries in the workers' lists.
ghost use Rattle.std.specs.Prelude.{◌≡◌, ◌↔◌, ◌≤◌, ℕ, Bool, List, [], count_by, get_or, length, IfOk, IsTrue, MatchOption};
ghost use Rattle.workload.specs.Plan.{Plan};
ghost use Rattle.workload.specs.Readable.{IsReadable};
ghost use Rattle.run_record.specs.Calls.{IsJournalOf};
ghost use Rattle.run_record.specs.Objects.{is_pool, object_count};
ghost use Rattle.run_record.specs.PoolKind.{IsPartJournal};
ghost use Rattle.run_record.specs.Record.{ObjectEntry, journal_of, stop};
ghost use Rattle.run_record.specs.StartsKind.{IsStartsJournal};
ghost use Rattle.object_checks.specs.JournalItems.{AreJournals, HaveFronts, entries_in_row, journals_in};
ghost use Rattle.object_checks.specs.JournalParts.{FollowMachines, IsMachineJournal, IsMachinePart, IsMachineStarts, KeepAllEdges};
ghost use Rattle.record_text.specs.Told.{IsTold, Told};
ghost use Rattle.record_clauses.specs.Account.{Account, Claim, record_of};
ghost use Rattle.record_clauses.specs.Clauses.{HasEdges, HasJournals, TellsNumbers};
ghost use Rattle.record_clauses.specs.Journals.{without_fronts};
ghost use Rattle.record_clauses.specs.Verdicts as claims;
ghost use Rattle.run_check.specs.Journals.{AreEntries, AreJournalsOf, HaveSmallFronts};
ghost use Rattle.run_check.specs.Lists.{AreSpeltTo};
ghost use Rattle.run_check.specs.Tells.{Tells};

use crate::spelling::Spelling;
use flight_core::FlightCore;
use mutex_core::MutexCore;
use object_checks::journals::laws::items_determine_their_journals;
use object_checks::journals::{JournalItem, Row, follow_machines, journals_of, keep_all_edges};
use pool_core::PartCore;
use record_clauses::Clause;
use record_clauses::laws::a_machine_sees_no_fronts;
use rw_core::RwCore;
use sema_core::SemaCore;
use starts_core::StartsCore;
use std::alloc::{AllocError, Global};
use sync_types::Seq;
use wait_cores::{GroupCore, NotifyCore, OnceCore};
use workload::laws::limits;
use workload::{ObjectKind, ObjectLine, Workload};

/// The entries that were found of the workers' lists are those of each claim that the text tells: the same in each list, with the same
/// numbers. Each front has a number for each worker, so at most 64.
pub fn entries_are_found_as_they_are_told()
    ensures entries { (told : Told) (found : Spelling) (claim : Claim) → AreSpeltTo told.plan told.items told.plan.workers found → Tells told claim → AreEntries claim found.entries }
    ensures fronts { (bytes : List ℕ) (told : Told) (found : Spelling) → IsReadable told.plan → IsTold bytes told → AreSpeltTo told.plan told.items told.plan.workers found → HaveSmallFronts found.entries }
{
    limits();
}

/// The clauses `machine` and `edge` speak of an account's journals alone. The lists tell each entry its number exactly where their
/// entries are these journals. With that, `machine` holds exactly where each journal follows the machine of its object: the clause sets
/// fronts aside, and no machine sees them. And `edge` holds exactly where each journal keeps the edge law.
pub fn journals_are_what_two_clauses_ask()
    ensures numbers { (claim : Claim) (account : Account) (entries : List (List JournalItem)) → AreEntries claim entries
        → (TellsNumbers claim account × (length account.journals ≡ object_count claim.plan) ↔ AreJournals entries (object_count claim.plan) account.journals) }
    ensures machine { (claim : Claim) (account : Account) (entries : List (List JournalItem)) → AreEntries claim entries
        → (HasJournals claim account ↔ AreJournals entries (object_count claim.plan) account.journals × FollowMachines claim.plan account.journals) }
    ensures edge { (claim : Claim) (account : Account) → (HasEdges claim account ↔ KeepAllEdges account.journals) }
{
    follows_without_fronts();
}

// A journal without its fronts is one of its object exactly where it follows the object's machine.
fn follows_without_fronts()
    ensures declared { (plan : Plan) (place : ℕ) (kind : ObjectKind) (journal : List ObjectEntry) → (IsJournalOf plan place kind (without_fronts journal) ↔ IsMachineJournal plan.workers kind journal) }
    ensures part { (room : ℕ) (journal : List ObjectEntry) → (IsPartJournal room (without_fronts journal) ↔ IsMachinePart room journal) }
    ensures starts { (dormant : List Bool) (journal : List ObjectEntry) → (IsStartsJournal dormant (without_fronts journal) ↔ IsMachineStarts dormant journal) }
{
    a_machine_sees_no_fronts::<MutexCore>();
    a_machine_sees_no_fronts::<RwCore>();
    a_machine_sees_no_fronts::<NotifyCore>();
    a_machine_sees_no_fronts::<GroupCore>();
    a_machine_sees_no_fronts::<OnceCore<i64>>();
    a_machine_sees_no_fronts::<OnceCore<u32>>();
    a_machine_sees_no_fronts::<OnceCore<u64>>();
    a_machine_sees_no_fronts::<SemaCore>();
    a_machine_sees_no_fronts::<FlightCore>();
    a_machine_sees_no_fronts::<PartCore>();
    a_machine_sees_no_fronts::<StartsCore>();
}

/// The journals that the entries of the workers' lists are, object by object. Nothing, where the clause `machine` fails: the entries are
/// no journals by their numbers, or some journal doesn't follow its object's machine.
pub fn journals_found<'a>(
    alloc: Global,
    workload: &Workload,
    entries: &'a [Seq<JournalItem>],
) -> Result<Option<Vec<Seq<Row<'a>>>>, AllocError>
    requires { length entries.now ≡ workload.now.workers }
    ensures machine { IfOk result (λ journals. (told : Told) (found : Spelling) (claim : Claim) → told.plan ≡ workload.now → AreSpeltTo told.plan told.items told.plan.workers found → found.entries ≡ entries.now → Tells told claim
        → claims.UpTo claim Clause.Range → MatchOption journals (claims.UpTo claim Clause.Machine → ⊥) (λ rows. claims.UpTo claim Clause.Machine × AreJournalsOf claim (journals_in rows.items))) }
    ensures fronts { IfOk result (λ journals. (bytes : List ℕ) (told : Told) (found : Spelling) → told.plan ≡ workload.now → AreSpeltTo told.plan told.items told.plan.workers found → found.entries ≡ entries.now → IsTold bytes told
        → MatchOption journals (Unit {0}) (λ rows. (object : ℕ) → HaveFronts (get_or rows.items object []))) }
{
    entries_are_found_as_they_are_told();
    journals_are_what_two_clauses_ask();
    items_determine_their_journals();
    let _workers = workload.workers();
    let Some(journals) = journals_of(alloc, entries, object_count(workload))? else {
        return Ok(None);
    };
    if !follow_machines(alloc, workload, &journals)? {
        return Ok(None);
    }
    Ok(Some(journals))
}

/// Whether the clause `edge` holds, where these are the journals of the accounts of which `machine` holds.
pub fn keep_edges(alloc: Global, journals: &[Seq<Row<'_>>]) -> Result<bool, AllocError>
    requires { (object : ℕ) → HaveFronts (get_or journals.now object []) }
    ensures { IfOk result (λ keep. (claim : Claim) → AreJournalsOf claim (journals_in journals.now) → claims.UpTo claim Clause.Machine → (IsTrue keep ↔ claims.UpTo claim Clause.Edge)) }
{
    let keep = keep_all_edges(alloc, journals)?;
    Ok(keep)
}

/// The journal of Stop, out of those of all objects.
pub fn stops_in<'a, 'b>(journals: &'a [Seq<Row<'b>>]) -> &'a [Row<'b>]
    ensures { (claim : Claim) (account : Account) → AreJournalsOf claim (journals_in journals.now) → HasJournals claim account → journal_of (record_of claim account) stop ≡ entries_in_row result.now }
{
    if journals.is_empty() {
        return &[];
    }
    journals[0].as_slice()
}

// How many objects a record of the workload's run has.
fn object_count(workload: &Workload) -> usize
    ensures { result ≡ object_count workload.now }
{
    let workers = workload.workers() as usize;
    let lines = workload.objects();
    let parts = pool_count(lines) * workers;
    let last = if workload.has_dormant() { 1 } else { 0 };
    lines.len() + 1 + parts + last
}

// How many pools there are.
fn pool_count(objects: &[ObjectLine]) -> usize
    ensures { result ≡ count_by (λ object. is_pool object.kind) objects.now }
{
    let mut pools = 0;
    for object in objects {
        if let ObjectKind::Pool = object.kind {
            pools += 1;
        }
    }
    pools
}
