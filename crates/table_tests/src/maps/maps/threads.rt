//! Callers of one map, each in a thread of its own. Each ends by itself.
ghost use Rattle.std.specs.Prelude.{◌≡◌, ◌<◌};
ghost use Rattle.std.specs.Thread.{IsSync};
ghost use Rattle.sync_model.specs.Shared.{IsCallerAt};
ghost use Rattle.shared_table.specs.Notes.{own_by, IsNoteOf};
ghost use Rattle.shared_table.specs.Tables.{maps_of};

use super::crew::{deleted, loaded, stored, take};
use shared_table::{SharedNote, SharedTable, Steps};
use std::marker::Brand;
use std::sync::Wait;
use std::sync::ledger::{Blank, Ledger};
use std::test::Fail;
use std::thread::{Threads, join};
use sync_model::Caller;

const ROUNDS: u32 = 1000;

// The paths of these keys part at the last nibble.
const NEAR: u32 = 0;

const FAR: u32 = 268_435_456;

// The key that a caller stores and deletes, and the key that it stores alone, if there is one.
type Keys = (u32, Option<u32>);

// Stores one key and deletes it, again and again, and stores another.
fn work<R: Wait>(
    rt: &R,
    table: &SharedTable,
    mut caller: Caller<SharedNote>,
    keys: Keys,
) -> Caller<SharedNote>
    requires map { 0 < maps_of table.now }
    requires caller { IsCallerAt IsNoteOf own_by table.now caller }
    ensures { IsCallerAt IsNoteOf own_by table.now result }
{
    for round in 0..ROUNDS {
        stored(rt, table, &mut caller, keys.0, round);
        if let Some(kept) = keys.1 {
            stored(rt, table, &mut caller, kept, round);
        }
        deleted(rt, table, &mut caller, keys.0);
    }
    caller
}

// Two callers work, each in a thread of its own.
fn work_beside<R: Threads + Wait + Sync>(
    rt: &R,
    table: &SharedTable,
    first: Caller<SharedNote>,
    first_keys: Keys,
    second: Caller<SharedNote>,
    second_keys: Keys,
) -> (Caller<SharedNote>, Caller<SharedNote>)
    requires map { 0 < maps_of table.now }
    requires first { IsCallerAt IsNoteOf own_by table.now first }
    requires second { IsCallerAt IsNoteOf own_by table.now second }
    ensures first { IsCallerAt IsNoteOf own_by table.now result.0 }
    ensures second { IsCallerAt IsNoteOf own_by table.now result.1 }
{
    join(
        rt,
        move || -> Caller<SharedNote>
            requires { IsSync R.row × (0 < maps_of table.now) × IsCallerAt IsNoteOf own_by table.now first }
            ensures { IsCallerAt IsNoteOf own_by table.entry.now result }
        { work(rt, table, first, first_keys) },
        move || -> Caller<SharedNote>
            requires { IsSync R.row × (0 < maps_of table.now) × IsCallerAt IsNoteOf own_by table.now second }
            ensures { IsCallerAt IsNoteOf own_by table.entry.now result }
        { work(rt, table, second, second_keys) },
    )
}

// Loads both keys, and one of them again once it is stored. The number of words that the loads read comes last.
fn load_and_store<R: Wait, L: Ledger>(
    rt: &R,
    table: &SharedTable,
    caller: &mut Caller<SharedNote>,
    blank: Blank,
) -> (Option<u64>, Option<u64>, Option<u64>, u64)
    requires map { 0 < maps_of table.now }
    requires caller { IsCallerAt IsNoteOf own_by table.now caller.old }
    requires ledger { (blank.name ≡ L.name) × (blank.parts ≡ L.parts) × (0 < L.parts) }
{
    let mut steps = Steps::<L>::new(rt, blank);
    let near = loaded(table, caller, NEAR, &mut steps);
    let far = loaded(table, caller, FAR, &mut steps);
    stored(rt, table, caller, NEAR, 9);
    let again = loaded(table, caller, NEAR, &mut steps);
    (near, far, again, steps.count())
}

#[test]
fn two_threads_that_fill_and_empty_one_path_leave_nothing_of_it(
    rt: HostRuntime,
) -> Result<(), Fail> {
    let (table, mut callers) = SharedTable::new(rt.alloc(), &[], 1, 0, &[2001, 2000])?;
    let far = take(&table, &mut callers).expect(&rt, "caller 1");
    let near = take(&table, &mut callers).expect(&rt, "caller 0");
    let (mut near, _) = work_beside(&rt, &table, near, (NEAR, None), far, (FAR, None));
    let loads = load_and_store::<_, Brand>(&rt, &table, &mut near, Blank::new(1));
    assert!(&rt; loads.0.is_none() && loads.1.is_none() && loads.2 == Some(9));
    assert!(&rt; loads.3 == 8);
    Ok(())
}
