//! Whether the journals of the objects that a workload declares follow their machines, and what stands on Stop.
ghost use Rattle.std.specs.Prelude.{◌≡◌, ◌↔◌, ◌<◌, ◌≤◌, ℕ, true, length, Some, slice_get, IfOk, IsTrue};
ghost use Rattle.workload.specs.declared.object.ObjectLine.{ObjectLine};
ghost use Rattle.workload.specs.Draft.{is_kind};
ghost use Rattle.run_record.specs.Journals.{IsStops};
ghost use Rattle.run_record.specs.WaitGroupKind.{group_start};
ghost use Rattle.object_checks.specs.JournalItems.{entries_in_row, journals_in};
ghost use Rattle.object_checks.specs.JournalParts.{IsMachineJournal, DeclaredFollow};

use crate::journals::replay::follows_machine;
use crate::journals::row::Row;
use flight_core::FlightCore;
use mutex_core::MutexCore;
use rw_core::RwCore;
use sema_core::SemaCore;
use std::alloc::{AllocError, Global};
use sync_model::Deed;
use sync_types::Seq;
use wait_cores::{GroupCore, NotifyCore, OnceCore};
use workload::{ObjectKind, ObjectLine};

/// Whether the journal of each of these objects follows the machine of the object's kind. Their journals stand behind that of Stop.
pub(crate) fn declared_follow(
    alloc: Global,
    workers: u32,
    objects: &[ObjectLine],
    journals: &[Seq<Row<'_>>],
) -> Result<bool, AllocError>
    requires workers { (0 < workers) × (workers ≤ 64) }
    requires kinds { (place : ℕ) (object : ObjectLine) → slice_get objects.now place ≡ Some object → is_kind object.kind ≡ true }
    requires journals { length objects.now < length journals.now }
    ensures { IfOk result (λ follow. IsTrue follow ↔ DeclaredFollow workers objects.now (journals_in journals.now)) }
{
    for place in 0..objects.len() {
        let kind = objects[place].kind;
        let journal = &journals[place + 1];
        if !follows_kind(alloc, workers, kind, journal.as_slice())? {
            return Ok(false);
        }
    }
    Ok(true)
}

/// Whether nothing was done but halts, as on Stop.
pub(crate) fn is_stops(journal: &[Row<'_>]) -> bool
    ensures { IsTrue result ↔ IsStops (entries_in_row journal.now) }
{
    for row in journal {
        let Deed::Halt(_) = row.item.deed else {
            return false;
        };
    }
    true
}

/// Whether a journal follows the machine of a kind, from the start that is declared.
pub(crate) fn follows_kind(
    alloc: Global,
    workers: u32,
    kind: ObjectKind,
    journal: &[Row<'_>],
) -> Result<bool, AllocError>
    requires workers { (0 < workers) × (workers ≤ 64) }
    requires kind { is_kind kind ≡ true }
    ensures { IfOk result (λ follows. IsTrue follows ↔ IsMachineJournal workers kind (entries_in_row journal.now)) }
{
    match kind {
        ObjectKind::Map => Ok(journal.is_empty()),
        ObjectKind::Atomic(_) => Ok(journal.is_empty()),
        ObjectKind::Pool => Ok(journal.is_empty()),
        ObjectKind::Var => Ok(journal.is_empty()),
        ObjectKind::Mutex => {
            let start = MutexCore::new(alloc, workers)?;
            Ok(follows_machine::<MutexCore>(start, journal))
        }
        ObjectKind::RwMutex => {
            let start = RwCore::new(alloc, workers)?;
            Ok(follows_machine::<RwCore>(start, journal))
        }
        ObjectKind::Cond { .. } => {
            let start = NotifyCore::new(alloc, workers)?;
            Ok(follows_machine::<NotifyCore>(start, journal))
        }
        ObjectKind::WaitGroup { start } => {
            let start = group_from(alloc, workers, start)?;
            Ok(follows_machine::<GroupCore>(start, journal))
        }
        ObjectKind::Once { .. } => {
            let start = OnceCore::<i64>::new(alloc, workers)?;
            Ok(follows_machine::<OnceCore<i64>>(start, journal))
        }
        ObjectKind::OnceFunc { .. } => {
            let start = OnceCore::<u32>::new(alloc, workers)?;
            Ok(follows_machine::<OnceCore<u32>>(start, journal))
        }
        ObjectKind::OnceValue { .. } => {
            let start = OnceCore::<u64>::new(alloc, workers)?;
            Ok(follows_machine::<OnceCore<u64>>(start, journal))
        }
        ObjectKind::Sema { size } => {
            let start = SemaCore::new(alloc, workers, size)?;
            Ok(follows_machine::<SemaCore>(start, journal))
        }
        ObjectKind::Flight { .. } => {
            let start = FlightCore::new(alloc, workers)?;
            Ok(follows_machine::<FlightCore>(start, journal))
        }
    }
}

// A wait group whose counter is this at the start.
fn group_from(alloc: Global, workers: u32, start: u32) -> Result<GroupCore, AllocError>
    requires workers { (0 < workers) × (workers ≤ 64) }
    requires start { start ≤ 10000 }
    ensures { IfOk result (λ core. core ≡ group_start workers start) }
{
    let mut core = GroupCore::new(alloc, workers)?;
    let _added = core.add(start as i32);
    Ok(core)
}
