//! Two callers store a key each in one map, load it and clear the map, each in a thread of its own. Each ends by itself.
ghost use Rattle.std.specs.Prelude.{◌≡◌, ◌<◌};
ghost use Rattle.std.specs.Thread.{IsSync};
ghost use Rattle.sync_model.specs.Shared.{IsCallerAt};
ghost use Rattle.shared_table.specs.Notes.{own_by, IsNoteOf};
ghost use Rattle.shared_table.specs.Tables.{maps_of};

use super::crew::{cleared, loaded, stored, take};
use shared_table::{SharedNote, SharedTable, Steps};
use std::marker::Brand;
use std::sync::Wait;
use std::sync::ledger::{Blank, Ledger};
use std::test::Fail;
use std::thread::{Threads, join};
use sync_model::Caller;

const ROUNDS: u32 = 800;

// What the caller's own key has.
fn own<R: Wait, L: Ledger>(
    rt: &R,
    table: &SharedTable,
    caller: &mut Caller<SharedNote>,
    key: u32,
    blank: Blank,
) -> Option<u64>
    requires map { 0 < maps_of table.now }
    requires caller { IsCallerAt IsNoteOf own_by table.now caller.old }
    requires ledger { (blank.name ≡ L.name) × (blank.parts ≡ L.parts) × (0 < L.parts) }
    ensures { IsCallerAt IsNoteOf own_by table.now caller.new }
{
    let mut steps = Steps::<L>::new(rt, blank);
    loaded(table, caller, key, &mut steps)
}

// Stores and loads its key, and each fourth time clears the map before. Answers whether each load found what was stored last, or
// nothing.
fn work<R: Wait>(rt: &R, table: &SharedTable, mut caller: Caller<SharedNote>, key: u32) -> bool
    requires map { 0 < maps_of table.now }
    requires caller { IsCallerAt IsNoteOf own_by table.now caller }
{
    let mut is_own = true;
    for round in 0..ROUNDS {
        if round % 4 == 3 {
            cleared(rt, table, &mut caller);
        }
        stored(rt, table, &mut caller, key, round);
        let found = own::<_, Brand>(rt, table, &mut caller, key, Blank::new(1));
        is_own = is_own && (found.is_none() || found == Some(round as u64));
    }
    is_own
}

// Two callers work, each in a thread of its own.
fn work_beside<R: Threads + Wait + Sync>(
    rt: &R,
    table: &SharedTable,
    first: Caller<SharedNote>,
    second: Caller<SharedNote>,
) -> (bool, bool)
    requires map { 0 < maps_of table.now }
    requires first { IsCallerAt IsNoteOf own_by table.now first }
    requires second { IsCallerAt IsNoteOf own_by table.now second }
{
    join(
        rt,
        move || -> bool
            requires { IsSync R.row × (0 < maps_of table.now) × IsCallerAt IsNoteOf own_by table.now first }
        { work(rt, table, first, 3) },
        move || -> bool
            requires { IsSync R.row × (0 < maps_of table.now) × IsCallerAt IsNoteOf own_by table.now second }
        { work(rt, table, second, 19) },
    )
}

#[test]
fn two_threads_that_clear_a_map_find_their_own_stores_or_nothing(
    rt: HostRuntime,
) -> Result<(), Fail> {
    let (table, mut callers) = SharedTable::new(rt.alloc(), &[], 1, 0, &[1000, 1000])?;
    let second = take(&table, &mut callers).expect(&rt, "caller 1");
    let first = take(&table, &mut callers).expect(&rt, "caller 0");
    let (of_first, of_second) = work_beside(&rt, &table, first, second);
    assert!(&rt; of_first && of_second);
    Ok(())
}
