//! Two callers in threads of their own: neither waits.
ghost use Rattle.std.specs.Prelude.{◌≡◌, Some, slice_get};
ghost use Rattle.sync_types.specs.declared.atomic_object.AtomicKind.TheVariants as kinds;
ghost use Rattle.sync_model.specs.Shared.{IsCallerAt};
ghost use Rattle.shared_table.specs.Notes.{own_by, IsNoteOf};
ghost use Rattle.shared_table.specs.Tables.{kinds_of};

use super::pair::Pair;
use go_atomic::Int64;
use shared_table::{SharedNote, SharedTable};
use std::test::Fail;
use std::thread::{Threads, join};
use sync_model::Caller;

// Adds to atomic 1.
fn add(table: &SharedTable, mut caller: Caller<SharedNote>, operand: i64) -> Caller<SharedNote>
    requires table { slice_get (kinds_of table.now) 1 ≡ Some kinds.Int64 }
    requires caller { IsCallerAt IsNoteOf own_by table.now caller }
    ensures { IsCallerAt IsNoteOf own_by table.now result }
{
    let total = Int64::at(table, 1);
    total.add(&mut caller, operand);
    caller
}

// Two callers do so, each in a thread of its own.
fn add_beside<R: Threads + Sync>(
    rt: &R,
    table: &SharedTable,
    first: Caller<SharedNote>,
    second: Caller<SharedNote>,
) -> (Caller<SharedNote>, Caller<SharedNote>)
    requires table { slice_get (kinds_of table.now) 1 ≡ Some kinds.Int64 }
    requires first { IsCallerAt IsNoteOf own_by table.now first }
    requires second { IsCallerAt IsNoteOf own_by table.now second }
    ensures first { IsCallerAt IsNoteOf own_by table.now result.0 }
    ensures second { IsCallerAt IsNoteOf own_by table.now result.1 }
{
    join(
        rt,
        move || -> Caller<SharedNote>
            requires { (slice_get (kinds_of table.now) 1 ≡ Some kinds.Int64) × IsCallerAt IsNoteOf own_by table.now first }
            ensures { IsCallerAt IsNoteOf own_by table.entry.now result }
        { add(table, first, 5) },
        move || -> Caller<SharedNote>
            requires { (slice_get (kinds_of table.now) 1 ≡ Some kinds.Int64) × IsCallerAt IsNoteOf own_by table.now second }
            ensures { IsCallerAt IsNoteOf own_by table.entry.now result }
        { add(table, second, -2) },
    )
}

#[test]
fn two_threads_add_to_one_atomic(rt: HostRuntime) -> Result<(), Fail> {
    let Pair {
        table,
        first,
        second,
    } = Pair::new(rt.alloc())?.expect(&rt, "two callers");
    let (mut first, _) = add_beside(&rt, &table, first, second);
    let total = Int64::at(&table, 1);
    assert!(rt; total.load(&mut first) == 3);
    Ok(())
}
