//! Whether the journals of a workload's objects follow their machines: Stop, the objects that it declares, the parts of its pools, and
//! Starts.
ghost use Rattle.std.specs.Prelude.{◌≡◌, ◌↔◌, ◌+◌, ◌<◌, ◌≤◌, ℕ, true, length, IfOk, IsTrue, MatchOption};
ghost use Rattle.run_record.specs.Objects.{object_count, starts_number};
ghost use Rattle.object_checks.specs.JournalItems.{entries_in_row, journals_in};
ghost use Rattle.object_checks.specs.JournalParts.{FollowMachines, IsMachinePart, PartsFollow, PoolFollows, StartsFollow};

use crate::journals::machine::{declared_follow, is_stops};
use crate::journals::replay::follows_machine;
use crate::journals::row::Row;
use pool_core::PartCore;
use run_record::laws::numbers::parts_have_numbers_of_their_own;
use starts_core::StartsCore;
use std::alloc::{AllocError, Global};
use sync_types::Seq;
use workload::{ObjectKind, Workload};

/// Whether each object of a workload has a journal that follows its machine, and there are no others.
pub fn follow_machines(
    alloc: Global,
    workload: &Workload,
    journals: &[Seq<Row<'_>>],
) -> Result<bool, AllocError>
    ensures { IfOk result (λ follow. IsTrue follow ↔ FollowMachines workload.now (journals_in journals.now)) }
{
    parts_have_numbers_of_their_own();
    if !is_object_count(workload, journals.len()) {
        return Ok(false);
    }
    if !is_stops(journals[0].as_slice()) {
        return Ok(false);
    }
    if !declared_follow(alloc, workload.workers(), workload.objects(), journals)? {
        return Ok(false);
    }
    if !parts_follow(alloc, workload, journals)? {
        return Ok(false);
    }
    starts_follow(alloc, workload, journals)
}

// Whether a record of the workload's run has so many objects.
fn is_object_count(workload: &Workload, objects: usize) -> bool
    ensures { IsTrue result ↔ (objects ≡ object_count workload.now) }
{
    parts_have_numbers_of_their_own();
    match behind_parts(workload, objects) {
        None => false,
        Some(number) => {
            let last = if workload.has_dormant() { 1 } else { 0 };
            objects - number == last
        }
    }
}

// The number behind those of the parts of all pools, where so many objects are enough.
fn behind_parts(workload: &Workload, objects: usize) -> Option<usize>
    ensures { MatchOption result (objects < starts_number workload.now) (λ number. (number ≡ starts_number workload.now) × (number ≤ objects)) }
{
    parts_have_numbers_of_their_own();
    let workers = workload.workers() as usize;
    let lines = workload.objects();
    if objects <= lines.len() {
        return None;
    }
    let mut number = lines.len() + 1;
    for line in lines {
        if let ObjectKind::Pool = line.kind {
            if objects - number < workers {
                return None;
            }
            number += workers;
        }
    }
    Some(number)
}

// Whether the journal of each part of each pool follows the machine of a part.
fn parts_follow(
    alloc: Global,
    workload: &Workload,
    journals: &[Seq<Row<'_>>],
) -> Result<bool, AllocError>
    requires { starts_number workload.now ≤ length journals.now }
    ensures { IfOk result (λ follow. IsTrue follow ↔ PartsFollow workload.now (journals_in journals.now)) }
{
    parts_have_numbers_of_their_own();
    let workers = workload.workers();
    let lines = workload.objects();
    let mut first = lines.len() + 1;
    for place in 0..lines.len() {
        let kind = lines[place].kind;
        if let ObjectKind::Pool = kind {
            if !pool_follows(alloc, workload.puts_at(place), first, workers, journals)? {
                return Ok(false);
            }
            first += workers as usize;
        }
    }
    Ok(true)
}

// Whether the journals of so many parts, the first of which has this number, follow the machine of a part with this much room.
fn pool_follows(
    alloc: Global,
    room: u32,
    first: usize,
    workers: u32,
    journals: &[Seq<Row<'_>>],
) -> Result<bool, AllocError>
    requires { first + workers ≤ length journals.now }
    ensures { IfOk result (λ follow. IsTrue follow ↔ PoolFollows room first workers (journals_in journals.now)) }
{
    for part in 0..workers as usize {
        if !part_follows(alloc, room, journals[first + part].as_slice())? {
            return Ok(false);
        }
    }
    Ok(true)
}

// Whether a journal follows the machine of a part of a pool with this much room.
fn part_follows(alloc: Global, room: u32, journal: &[Row<'_>]) -> Result<bool, AllocError>
    ensures { IfOk result (λ follows. IsTrue follows ↔ IsMachinePart room (entries_in_row journal.now)) }
{
    let start = PartCore::new(alloc, room)?;
    Ok(follows_machine::<PartCore>(start, journal))
}

// Whether the journal of Starts follows its machine, where some workers wait to be started.
fn starts_follow(
    alloc: Global,
    workload: &Workload,
    journals: &[Seq<Row<'_>>],
) -> Result<bool, AllocError>
    requires { length journals.now ≡ object_count workload.now }
    ensures { IfOk result (λ follow. IsTrue follow ↔ StartsFollow workload.now (journals_in journals.now)) }
{
    parts_have_numbers_of_their_own();
    if !workload.has_dormant() {
        return Ok(true);
    }
    let _workers = workload.workers();
    let last = journals.len() - 1;
    let start = StartsCore::new(alloc, workload.dormant())?;
    Ok(follows_machine::<StartsCore>(start, journals[last].as_slice()))
}
