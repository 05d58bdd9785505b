//! A caller that merged another's note has seen what the other had seen.
ghost use Rattle.std.specs.Prelude.{◌≡◌, ◌<◌};
ghost use Rattle.sync_model.specs.Shared.{IsCallerAt};
ghost use Rattle.shared_table.specs.Notes.{own_by, IsNoteOf};
ghost use Rattle.shared_table.specs.Tables.{maps_of};

use super::crew::{loaded, stored, take};
use shared_table::{SharedNote, SharedTable, Steps};
use std::marker::Brand;
use std::sync::Wait;
use std::sync::ledger::{Blank, Ledger};
use std::test::Fail;
use sync_model::{Caller, Note};

// One caller stores, and the other loads after it has merged a copy of the first one's note.
fn store_then_load<R: Wait, L: Ledger>(
    rt: &R,
    table: &SharedTable,
    first: &mut Caller<SharedNote>,
    second: &mut Caller<SharedNote>,
    blank: Blank,
) -> Option<u64>
    requires map { 0 < maps_of table.now }
    requires first { IsCallerAt IsNoteOf own_by table.now first.old }
    requires second { IsCallerAt IsNoteOf own_by table.now second.old }
    requires ledger { (blank.name ≡ L.name) × (blank.parts ≡ L.parts) × (0 < L.parts) }
{
    let mut steps = Steps::<L>::new(rt, blank);
    if !stored(rt, table, first, 5, 6) {
        return None;
    }
    let copy = first.note.copy(table);
    second.note.merge(table, copy);
    loaded(table, second, 5, &mut steps)
}

#[test]
fn a_caller_that_merged_a_note_loads_what_was_stored(rt: HostRuntime) -> Result<(), Fail> {
    let (table, mut callers) = SharedTable::new(rt.alloc(), &[], 1, 7, &[1, 0])?;
    let mut second = take(&table, &mut callers).expect(&rt, "caller 1");
    let mut first = take(&table, &mut callers).expect(&rt, "caller 0");
    let found = store_then_load::<_, Brand>(&rt, &table, &mut first, &mut second, Blank::new(1));
    assert!(&rt; found == Some(6));
    Ok(())
}
