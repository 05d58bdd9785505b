//! A map is cleared: what was stored is gone, and what is stored afterwards is there.
ghost use Rattle.std.specs.Prelude.{◌≡◌, ◌<◌};
ghost use Rattle.sync_model.specs.Shared.{IsCallerAt};
ghost use Rattle.shared_table.specs.Notes.{own_by, IsNoteOf};
ghost use Rattle.shared_table.specs.Tables.{maps_of};

use super::crew::{cleared, loaded, stored, take};
use shared_table::{SharedNote, SharedTable, Steps};
use std::marker::Brand;
use std::sync::Wait;
use std::sync::ledger::{Blank, Ledger};
use std::test::Fail;
use sync_model::Caller;

const NEAR: u32 = 0;

const FAR: u32 = 268_435_456;

// What loads found after a clear, and how many words had been read after each.
#[derive(Drop)]
struct Loads {
    near: (Option<u64>, u64),
    far: (Option<u64>, u64),
    again: (Option<u64>, u64),
}

// Two keys are stored, whose paths part at the last nibble, and the map is cleared. Both are loaded. One is stored and loaded
// again.
fn store_and_clear<R: Wait, L: Ledger>(
    rt: &R,
    table: &SharedTable,
    caller: &mut Caller<SharedNote>,
    blank: Blank,
) -> Option<Loads>
    requires map { 0 < maps_of table.now }
    requires caller { IsCallerAt IsNoteOf own_by table.now caller.old }
    requires ledger { (blank.name ≡ L.name) × (blank.parts ≡ L.parts) × (0 < L.parts) }
{
    let mut steps = Steps::<L>::new(rt, blank);
    if !stored(rt, table, caller, NEAR, 1) || !stored(rt, table, caller, FAR, 2) {
        return None;
    }
    if !cleared(rt, table, caller) {
        return None;
    }
    let near = (loaded(table, caller, NEAR, &mut steps), steps.count());
    let far = (loaded(table, caller, FAR, &mut steps), steps.count());
    if !stored(rt, table, caller, NEAR, 9) {
        return None;
    }
    let again = (loaded(table, caller, NEAR, &mut steps), steps.count());
    Some(Loads { near, far, again })
}

#[test]
fn a_cleared_map_has_no_key_and_takes_new_ones(rt: HostRuntime) -> Result<(), Fail> {
    let (table, mut callers) = SharedTable::new(rt.alloc(), &[], 1, 0, &[4])?;
    let mut caller = take(&table, &mut callers).expect(&rt, "a caller");
    let loads = store_and_clear::<_, Brand>(&rt, &table, &mut caller, Blank::new(1)).expect(
        &rt,
        "room for four calls",
    );
    assert!(&rt; loads.near.0.is_none() && loads.near.1 == 2);
    assert!(&rt; loads.far.0.is_none() && loads.far.1 == 4);
    assert!(&rt; loads.again.0 == Some(9) && loads.again.1 == 8);
    assert!(&rt; caller.spare() == 0);
    Ok(())
}

#[test]
fn a_clear_of_an_empty_map_takes_a_spare_unit(rt: HostRuntime) -> Result<(), Fail> {
    let (table, mut callers) = SharedTable::new(rt.alloc(), &[], 1, 0, &[1])?;
    let mut caller = take(&table, &mut callers).expect(&rt, "a caller");
    assert!(&rt; cleared(&rt, &table, &mut caller));
    assert!(&rt; caller.spare() == 0);
    Ok(())
}
