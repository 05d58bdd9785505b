//! Two keys whose paths part at the last of eight nibbles, or at the second, under seed 0.
ghost use Rattle.std.specs.Prelude.{◌≡◌, ◌<◌};
ghost use Rattle.sync_model.specs.Shared.{IsCallerAt};
ghost use Rattle.shared_table.specs.Notes.{own_by, IsNoteOf};
ghost use Rattle.shared_table.specs.Tables.{maps_of};

use super::crew::{deleted, deleted_if, loaded, stored, take};
use shared_table::{SharedNote, SharedTable, Steps};
use std::alloc::{AllocError, Global};
use std::marker::Brand;
use std::sync::Wait;
use std::sync::ledger::{Blank, Ledger};
use std::test::Fail;
use sync_model::Caller;

const NEAR: u32 = 0;

// Its path parts from that of key 0 at the last nibble.
const FAR: u32 = 268_435_456;

// Its path parts from that of key 0 at the second nibble.
const BESIDE: u32 = 16;

// What loads found, and how many words had been read after each.
#[derive(Drop)]
struct Loads {
    near: (Option<u64>, u64),
    far: (Option<u64>, u64),
    again: (Option<u64>, u64),
}

// Deletes a key, whatever it has, or only where it has this value.
fn deleted_so<R: Wait>(
    rt: &R,
    table: &SharedTable,
    caller: &mut Caller<SharedNote>,
    key: u32,
    value: Option<u32>,
) -> bool
    requires map { 0 < maps_of table.now }
    requires caller { IsCallerAt IsNoteOf own_by table.now caller.old }
    ensures { IsCallerAt IsNoteOf own_by table.now caller.new }
{
    match value {
        Some(value) => deleted_if(rt, table, caller, key, value),
        None => deleted(rt, table, caller, key),
    }
}

// Key 0 and another one are stored and loaded. Then both are deleted, the other one perhaps by its value, which leaves no node below
// the root, and key 0 is stored and loaded again.
fn store_and_load<R: Wait, L: Ledger>(
    rt: &R,
    table: &SharedTable,
    caller: &mut Caller<SharedNote>,
    other: u32,
    by: Option<u32>,
    blank: Blank,
) -> Option<Loads>
    requires map { 0 < maps_of table.now }
    requires caller { IsCallerAt IsNoteOf own_by table.now caller.old }
    requires ledger { (blank.name ≡ L.name) × (blank.parts ≡ L.parts) × (0 < L.parts) }
{
    let mut steps = Steps::<L>::new(rt, blank);
    if !stored(rt, table, caller, NEAR, 1) || !stored(rt, table, caller, other, 2) {
        return None;
    }
    let near = (loaded(table, caller, NEAR, &mut steps), steps.count());
    let far = (loaded(table, caller, other, &mut steps), steps.count());
    if !deleted(rt, table, caller, NEAR) || !deleted_so(rt, table, caller, other, by) {
        return None;
    }
    if !stored(rt, table, caller, NEAR, 9) {
        return None;
    }
    let again = (loaded(table, caller, NEAR, &mut steps), steps.count());
    Some(Loads { near, far, again })
}

// The same on a new table, with one caller.
fn store_and_load_in_new<R: Wait>(
    rt: &R,
    alloc: Global,
    other: u32,
    by: Option<u32>,
) -> Result<Option<Loads>, AllocError> {
    let (table, mut callers) = SharedTable::new(alloc, &[], 1, 0, &[5])?;
    let Some(mut caller) = take(&table, &mut callers) else {
        return Ok(None);
    };
    Ok(store_and_load::<_, Brand>(rt, &table, &mut caller, other, by, Blank::new(1)))
}

#[test]
fn keys_that_part_at_the_last_nibble_are_read_in_eleven_words_until_both_are_deleted(
    rt: HostRuntime,
) -> Result<(), Fail> {
    let loads = store_and_load_in_new(&rt, rt.alloc(), FAR, None)?.expect(
        &rt,
        "room for five calls",
    );
    assert!(&rt; loads.near.0 == Some(1) && loads.near.1 == 11);
    assert!(&rt; loads.far.0 == Some(2) && loads.far.1 == 22);
    assert!(&rt; loads.again.0 == Some(9) && loads.again.1 == 26);
    Ok(())
}

#[test]
fn keys_that_part_at_the_second_nibble_are_read_in_five_words_until_both_are_deleted(
    rt: HostRuntime,
) -> Result<(), Fail> {
    let loads = store_and_load_in_new(&rt, rt.alloc(), BESIDE, Some(2))?.expect(
        &rt,
        "room for five calls",
    );
    assert!(&rt; loads.near.0 == Some(1) && loads.near.1 == 5);
    assert!(&rt; loads.far.0 == Some(2) && loads.far.1 == 10);
    assert!(&rt; loads.again.0 == Some(9) && loads.again.1 == 14);
    Ok(())
}
