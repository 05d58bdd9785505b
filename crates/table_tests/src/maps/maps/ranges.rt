//! Walks over a map that is changed between their steps.
ghost use Rattle.std.specs.Prelude.{◌≡◌, ◌<◌};
ghost use Rattle.sync_model.specs.Shared.{IsCallerAt};
ghost use Rattle.shared_table.specs.Notes.{own_by, IsNoteOf};
ghost use Rattle.shared_table.specs.Tables.{maps_of};
ghost use Rattle.table_tests.specs.Walking.{IsWalking};

use super::crew::{cleared, deleted, loaded, stored, take};
use go_map::{Cursor, Map};
use shared_table::{SharedNote, SharedTable, Steps, TableCursor};
use std::marker::Brand;
use std::sync::Wait;
use std::sync::ledger::{Blank, Ledger};
use std::test::Fail;
use sync_model::Caller;

const NEAR: u32 = 0;

const FAR: u32 = 268_435_456;

// A walk over map 0 begins.
fn begun(table: &SharedTable, caller: &mut Caller<SharedNote>) -> Cursor
    requires map { 0 < maps_of table.now }
    requires caller { IsCallerAt IsNoteOf own_by table.now caller.old }
    ensures { IsWalking table.now result caller.new }
{
    Cursor::begin(&Map::at(table, 0), caller)
}

// What a walk over map 0 shows next.
fn shown(
    table: &SharedTable,
    caller: &mut Caller<SharedNote>,
    cursor: &mut Cursor,
) -> Option<(u32, u64)>
    requires map { 0 < maps_of table.now }
    requires walks { IsWalking table.now cursor.old caller.old }
    ensures { IsWalking table.now cursor.new caller.new }
{
    cursor.next(&Map::at(table, 0), caller)
}

// The walk's own caller deletes in map 0, if it has room.
fn deleted_meanwhile<R: Wait>(
    rt: &R,
    table: &SharedTable,
    caller: &mut Caller<SharedNote>,
    cursor: &Cursor,
    key: u32,
) -> bool
    requires map { 0 < maps_of table.now }
    requires walks { IsWalking table.now cursor.now caller.old }
    ensures { IsWalking table.now cursor.now caller.new }
{
    if caller.spare() == 0 {
        return false;
    }
    Map::at(table, 0).delete(rt, caller, key);
    true
}

// Keys 0 and 1 are stored. A walk shows a pair, and its caller deletes key 1. What two more steps show comes last.
fn walk_and_delete<R: Wait>(
    rt: &R,
    table: &SharedTable,
    caller: &mut Caller<SharedNote>,
) -> Option<[Option<(u32, u64)>; 3]>
    requires map { 0 < maps_of table.now }
    requires caller { IsCallerAt IsNoteOf own_by table.now caller.old }
{
    if !stored(rt, table, caller, 0, 5) || !stored(rt, table, caller, 1, 6) {
        return None;
    }
    let mut cursor = begun(table, caller);
    let first = shown(table, caller, &mut cursor);
    if !deleted_meanwhile(rt, table, caller, &cursor, 1) {
        return None;
    }
    let second = shown(table, caller, &mut cursor);
    let third = shown(table, caller, &mut cursor);
    Some([first, second, third])
}

#[test]
fn a_walk_does_not_show_what_its_caller_deleted_ahead_of_it(rt: HostRuntime) -> Result<(), Fail> {
    let (table, mut callers) = SharedTable::new(rt.alloc(), &[], 1, 0, &[3])?;
    let mut caller = take(&table, &mut callers).expect(&rt, "a caller");
    let shown = walk_and_delete(&rt, &table, &mut caller).expect(&rt, "room for three calls");
    assert!(&rt; shown == [Some((0, 5)), None, None]);
    Ok(())
}

// How another caller cuts off what a walk stands in.
#[derive(Clone, Copy, Drop)]
enum Cut {
    Clears,
    DeletesBoth,
}

// Cuts off all of map 0 that has its two keys, if the caller has room.
fn cut_off<R: Wait>(rt: &R, table: &SharedTable, caller: &mut Caller<SharedNote>, cut: Cut) -> bool
    requires map { 0 < maps_of table.now }
    requires caller { IsCallerAt IsNoteOf own_by table.now caller.old }
    ensures { IsCallerAt IsNoteOf own_by table.now caller.new }
{
    match cut {
        Cut::Clears => cleared(rt, table, caller),
        Cut::DeletesBoth => deleted(rt, table, caller, NEAR) && deleted(rt, table, caller, FAR),
    }
}

// Two keys are stored whose paths part at the last nibble. A walk shows a pair, and another caller cuts off where it stands, and
// stores one of the keys again. Then the walk goes on, and its caller loads the key.
fn walk_over_a_cut<R: Wait, L: Ledger>(
    rt: &R,
    table: &SharedTable,
    walker: &mut Caller<SharedNote>,
    other: &mut Caller<SharedNote>,
    cut: Cut,
    blank: Blank,
) -> Option<([Option<(u32, u64)>; 3], Option<u64>)>
    requires map { 0 < maps_of table.now }
    requires walker { IsCallerAt IsNoteOf own_by table.now walker.old }
    requires other { IsCallerAt IsNoteOf own_by table.now other.old }
    requires ledger { (blank.name ≡ L.name) × (blank.parts ≡ L.parts) × (0 < L.parts) }
{
    if !stored(rt, table, other, NEAR, 1) || !stored(rt, table, other, FAR, 2) {
        return None;
    }
    let mut cursor = begun(table, walker);
    let first = shown(table, walker, &mut cursor);
    if !cut_off(rt, table, other, cut) || !stored(rt, table, other, FAR, 9) {
        return None;
    }
    let second = shown(table, walker, &mut cursor);
    let third = shown(table, walker, &mut cursor);
    let found = loaded(table, walker, FAR, &mut Steps::<L>::new(rt, blank));
    Some(([first, second, third], found))
}

#[test]
fn a_walk_goes_on_in_what_was_cut_off(rt: HostRuntime) -> Result<(), Fail> {
    for (cut, second) in [(Cut::Clears, Some((FAR, 2))), (Cut::DeletesBoth, None)] {
        let (table, mut callers) = SharedTable::new(rt.alloc(), &[], 1, 0, &[5, 0])?;
        let mut walker = take(&table, &mut callers).expect(&rt, "caller 1");
        let mut other = take(&table, &mut callers).expect(&rt, "caller 0");
        let blank = Blank::new(1);
        let walked = walk_over_a_cut::<_, Brand>(&rt, &table, &mut walker, &mut other, cut, blank);
        let (shown, found) = walked.expect(&rt, "room for five calls");
        assert!(&rt; shown == [Some((NEAR, 1)), second, None]);
        assert!(&rt; found == Some(9));
    }
    Ok(())
}

// A cursor may be sent to another thread.
fn is_sent<T: Send>() {}

#[test]
fn a_cursor_may_be_sent(_rt: HostRuntime) -> Result<(), Fail> {
    is_sent::<TableCursor>();
    Ok(())
}
