//! The typed atomics of Go's `sync/atomic`: atomics of a table, and the callers that threads use them by.
ghost use Rattle.std.specs.Prelude.{◌≡◌, ◌+◌, ◌<◌, ◌≤◌, All, IfOk, IfSome, Some, slice_get, MatchOption, replicate, vec_len};
ghost use Rattle.sync_model.specs.Shared.{IsCallerAt};
ghost use Rattle.shared_table.specs.CallerProps.{caller_prop};
ghost use Rattle.shared_table.specs.NewCallers.{AreNewCallers};
ghost use Rattle.shared_table.specs.Notes.{own_by, IsNoteOf};
ghost use Rattle.shared_table.specs.Tables.{kinds_of};

mod calls;

use crate::map::TableCallers;
use go_atomic::{Atomic, AtomicValue};
use shared_table::{SharedNote, SharedTable};
use std::alloc::{AllocError, Global};
use sync_model::Caller;

/// A table with one atomic of this type, of number 0, which is 0 or false, for so many threads, 64 at most.
pub fn new_atomic<V: AtomicValue>(
    alloc: Global,
    threads: u32,
) -> Result<(SharedTable, TableCallers), AllocError>
    requires threads { (0 < threads) × (threads ≤ 64) }
    ensures kind { IfOk result (λ made. slice_get (kinds_of made.0) 0 ≡ Some V.kind) }
    ensures new { IfOk result (λ made. AreNewCallers made.0 (replicate threads 0) made.1.items) }
    ensures callers { IfOk result (λ made. All (IsCallerAt IsNoteOf own_by made.0) made.1.items) }
    ensures count { IfOk result (λ made. vec_len made.1 ≡ threads) }
{
    let rooms = Vec::from_elem(alloc, 0, threads as usize)?;
    let (table, callers) = SharedTable::new(alloc, &[V::kind()], 0, 0, &rooms)?;
    Ok((table, callers))
}

/// A caller of the atomic of this number for each of a table's threads.
pub fn atomic_callers<'a, V: AtomicValue>(
    alloc: Global,
    table: &'a SharedTable,
    number: u32,
    mut callers: TableCallers,
) -> Result<Vec<AtomicCaller<'a, V>>, AllocError>
    requires kind { slice_get (kinds_of table.now) number ≡ Some V.kind }
    requires callers { All (IsCallerAt IsNoteOf own_by table.now) callers.items }
    ensures count { IfOk result (λ members. vec_len members ≡ vec_len callers) }
    ensures each { IfOk result (λ members. All (λ member. (member.atomic.table.now ≡ table.now) × (member.atomic.number ≡ number)) members.items) }
{
    let mut members = Vec::with_capacity(alloc, callers.len())?;
    while let Some(member) = AtomicCaller::last(table, number, &mut callers) {
        members.push(member)?;
    }
    Ok(members)
}

/// What one thread uses an atomic by: `i32`, `i64`, `u32`, `u64` or `bool`. No call waits, is refused or takes memory.
///
/// In the words of Go's memory model: if the effect of an atomic call is observed by another one, the first is synchronized before
/// the second, and all atomic calls are as in one sequentially consistent order.
#[derive(Drop)]
pub struct AtomicCaller<'a, V: AtomicValue> {
    atomic: Atomic<'a, V>,
    caller: Caller<SharedNote>,
    ghost is: { IsCallerAt IsNoteOf own_by atomic.table.now caller } by { caller_prop atomic.table.now caller },
}

impl<'a, V: AtomicValue> AtomicCaller<'a, V> {
    /// The last of a table's callers, at the atomic of this number.
    pub fn last(table: &'a SharedTable, number: u32, callers: &mut TableCallers) -> Option<Self>
        requires kind { slice_get (kinds_of table.now) number ≡ Some V.kind }
        requires callers { All (IsCallerAt IsNoteOf own_by table.now) callers.old.items }
        ensures callers { All (IsCallerAt IsNoteOf own_by table.now) callers.new.items }
        ensures count { MatchOption result (vec_len callers.old ≡ 0) (λ _. vec_len callers.new + 1 ≡ vec_len callers.old) }
        ensures at { IfSome result (λ member. (member.atomic.table.now ≡ table.now) × (member.atomic.number ≡ number)) }
    {
        let caller = callers.pop()?;
        Some(AtomicCaller {
            atomic: Atomic::at(table, number),
            caller,
        })
    }
}
