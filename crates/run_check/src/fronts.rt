//! The front law along the lines of the workers' whole lists.
ghost use Rattle.std.specs.Prelude.{◌≡◌, ◌↔◌, ℕ, ◌+◌, ◌<◌, ◌^◌, map, replicate, slice_index, IfOk, IsTrue, MatchOption};
ghost use Rattle.sync_model.specs.Front.{AtLeast};
ghost use Rattle.run_record.specs.Explains.{KeepsFronts};
ghost use Rattle.run_record.specs.Record.{calls_of};
ghost use Rattle.shared_checks.specs.Calls.{calls_in};
ghost use Rattle.record_text.specs.Told.{Told};
ghost use Rattle.record_clauses.specs.Account.{Account, Claim, record_of};
ghost use Rattle.record_clauses.specs.Verdicts as claims;
ghost use Rattle.run_check.specs.Fronts.{AllMade, AreKnown, MayStand, SomeFails, at_start, behind_line, one_call, standing};
ghost use Rattle.run_check.specs.Tells.{Tells};

use record_clauses::Clause;
use record_text::{ItemLine, Said};
use shared_checks::keeps_fronts;
use std::alloc::{AllocError, Global};
use sync_model::Item;
use sync_types::Seq;
use workload::Workload;

// What is known of a worker behind some of its lines.
#[derive(Clone, Copy)]
struct Known<'a> {
    // How many calls on maps and atomics they are of.
    calls: u64,
    // The front of the last one; an empty one, where there is none.
    front: &'a [u64],
}

/// Whether the clause `front` holds of a claim that these lines tell, with these calls on maps and atomics, where all clauses before it do.
pub fn front_holds(
    alloc: Global,
    workload: &Workload,
    items: &[ItemLine],
    marked: &[Seq<Item>],
) -> Result<bool, AllocError>
    ensures { IfOk result (λ holds. (told : Told) (claim : Claim) → told.plan ≡ workload.now → told.items ≡ items.now → Tells told claim → ((account : Account) (c : ℕ) → calls_of (record_of claim account) c ≡ calls_in marked.now c)
        → claims.UpTo claim Clause.Legal → (IsTrue holds ↔ claims.UpTo claim Clause.Front)) }
{
    if !keeps_fronts(marked) {
        return Ok(false);
    }
    keep_fronts(alloc, workload, items)
}

/// Whether along each worker's lines no front falls, each counts the worker's own calls before it, and none counts a call that there
/// isn't. It goes over the lines once, and takes memory for one number and one reference for each worker.
pub fn keep_fronts(
    alloc: Global,
    workload: &Workload,
    items: &[ItemLine],
) -> Result<bool, AllocError>
    ensures { IfOk result (λ keep. (told : Told) (claim : Claim) (account : Account) → told.plan ≡ workload.now → told.items ≡ items.now → Tells told claim → (IsTrue keep ↔ KeepsFronts (record_of claim account))) }
{
    match known_of(alloc, workload.workers(), items)? {
        None => Ok(false),
        Some(known) => Ok(are_made(&known)),
    }
}

// What is known of each worker behind all lines. Nothing, where one of the lines may not stand where it does.
fn known_of<'a>(
    alloc: Global,
    workers: u32,
    items: &'a [ItemLine],
) -> Result<Option<Vec<Known<'a>>>, AllocError>
    ensures { IfOk result (λ found. MatchOption found (SomeFails workers items.now) (λ known. AreKnown workers items.now known.items)) }
{
    let mut known = nothing_known(alloc, workers)?;
    for index in 0..items.len() {
        let line = &items[index];
        let worker = line.worker as usize;
        if worker >= known.len() {
            continue;
        }
        if !may_stand(worker, &known[worker], line) {
            return Ok(None);
        }
        known[worker] = behind_line(&known[worker], line);
    }
    Ok(Some(known))
}

// What is known of each worker before its first line.
fn nothing_known<'a>(alloc: Global, workers: u32) -> Result<Vec<Known<'a>>, AllocError>
    ensures { IfOk result (λ known. map standing known.items ≡ replicate workers at_start) }
{
    let mut known = Vec::new(alloc);
    for worker in 0..workers {
        known.push(Known {
            calls: 0,
            front: &[],
        })?;
    }
    Ok(known)
}

// Whether a line may stand next: its front counts the worker's calls so far, and nothing that was known is forgotten.
fn may_stand(worker: usize, before: &Known<'_>, line: &ItemLine) -> bool
    ensures { IsTrue result ↔ MayStand worker (standing before.now) line.now }
{
    let front = line.front.as_slice();
    count_of(front, worker) == before.calls && is_at_least(front, before.front)
}

// What is known of a worker behind one more line.
fn behind_line<'a>(before: &Known<'_>, line: &'a ItemLine) -> Known<'a>
    requires { before.now.calls + 1 < 2 ^ 64 }
    ensures { standing result ≡ behind_line (standing before.now) line.now }
{
    Known {
        calls: before.calls + one_call(line.said),
        front: line.front.as_slice(),
    }
}

// 1 for a call on a map or an atomic, or a step of a cursor; 0 for an entry.
fn one_call(said: Said) -> u64
    ensures { result ≡ one_call said }
{
    match said {
        Said::Call { .. } | Said::Begin { .. } | Said::Next { .. } => 1,
        Said::Entered { .. } => 0,
    }
}

// How many calls of a worker a front counts.
fn count_of(front: &[u64], worker: usize) -> u64
    ensures { result ≡ slice_index front.now worker }
{
    front.get(worker).copied().unwrap_or(0)
}

// Whether a front counts, worker by worker, at least what another does.
fn is_at_least(front: &[u64], other: &[u64]) -> bool
    ensures { IsTrue result ↔ AtLeast front.now other.now }
{
    for worker in 0..other.len() {
        if count_of(front, worker) < other[worker] {
            return false;
        }
    }
    true
}

// Whether no worker knows of a call that there isn't, where this is known of each behind its last line.
fn are_made(known: &[Known<'_>]) -> bool
    ensures { IsTrue result ↔ AllMade known.now }
{
    for one in known {
        if !is_made(known, one.front) {
            return false;
        }
    }
    true
}

// Whether the workers made the calls that a front counts.
fn is_made(known: &[Known<'_>], front: &[u64]) -> bool
    ensures { IsTrue result ↔ AtLeast (map (λ one. one.calls) known.now) front.now }
{
    for worker in 0..front.len() {
        if calls_of(known, worker) < front[worker] {
            return false;
        }
    }
    true
}

// How many calls a worker made.
fn calls_of(known: &[Known<'_>], worker: usize) -> u64
    ensures { result ≡ slice_index (map (λ one. one.calls) known.now) worker }
{
    match known.get(worker) {
        None => 0,
        Some(one) => one.calls,
    }
}
