//! A lookup that began before a clear ends after it: it goes on in the nodes that the clear cut off. One beside a closed gate waits
//! for nobody.
ghost use Rattle.std.specs.Prelude.{◌≡◌, ◌<◌, IfSome, IsSome, All};
ghost use Rattle.sync_model.specs.Shared.{IsCallerAt};
ghost use Rattle.shared_table.specs.Notes.{own_by, IsNoteOf};
ghost use Rattle.shared_table.specs.Tables.{maps_of};
ghost use Rattle.table_words.specs.Seats.{begin_of, IsSeatOf};
ghost use Rattle.table_rule.specs.Walking.{IsFree};

mod prunes;

use crate::note::SharedNote;
use crate::table::SharedTable;
use atomic_table::Seat;
use stamps::Stamp;
use std::marker::Brand;
use std::sync::Wait;
use std::sync::ledger::{Blank, Ledger};
use std::test::Fail;
use sync_model::{Caller, CallerNote};
use sync_types::MapCall;
use table_words::{Steps, View};
use trie_nodes::Slot;

// The last of some callers.
fn take(table: &SharedTable, callers: &mut Vec<Caller<SharedNote>>) -> Option<Caller<SharedNote>>
    requires { All (IsCallerAt IsNoteOf own_by table.now) callers.old.items }
    ensures rest { All (IsCallerAt IsNoteOf own_by table.now) callers.new.items }
    ensures one { IfSome result (IsCallerAt IsNoteOf own_by table.now) }
{
    callers.pop()
}

// Stores, if the caller has room.
fn store_one<R: Wait>(
    rt: &R,
    table: &SharedTable,
    note: &mut SharedNote,
    key: u32,
    value: u32,
) -> bool
    requires map { 0 < maps_of table.now }
    requires note { IsNoteOf table.now note.old × IsSome (own_by note.old) }
    ensures { IsNoteOf table.now note.new × IsSome (own_by note.new) }
{
    if note.spare() == 0 {
        return false;
    }
    let value = value as u64;
    table.change_map(rt, note, 0, key, MapCall::Store { key, value });
    true
}

// Clears, if the caller has room.
fn clear_one<R: Wait>(rt: &R, table: &SharedTable, note: &mut SharedNote) -> bool
    requires map { 0 < maps_of table.now }
    requires note { IsNoteOf table.now note.old × IsSome (own_by note.old) }
    ensures { IsNoteOf table.now note.new × IsSome (own_by note.new) }
{
    if note.spare() == 0 {
        return false;
    }
    table.clear_map(rt, note, 0);
    true
}

// A seat reads the map's root word, and another caller clears the map. Then the seat reads what is left: the key's slot in the
// root that it found, and the entry there.
fn look_over_a_clear<R: Wait, L: Ledger>(
    rt: &R,
    table: &SharedTable,
    seat: &mut Seat<(), View>,
    clearer: &mut SharedNote,
    key: u32,
    blank: Blank,
) -> Option<u64>
    requires map { 0 < maps_of table.now }
    requires ledger { (blank.name ≡ L.name) × (blank.parts ≡ L.parts) × (0 < L.parts) }
    requires seat { IsSeatOf table.now.words seat.old × IsFree (begin_of table.now.words) seat.old.me }
    requires clearer { IsNoteOf table.now clearer.old × IsSome (own_by clearer.old) }
{
    let mut steps = Steps::<L>::new(rt, blank);
    let told = Stamp::first();
    let node = table.words.enter(seat, 0, key, told, &mut steps);
    if !clear_one(rt, table, clearer) {
        return None;
    }
    match table
        .words
        .look(seat, MapCall::Load { key }, 0, key, node, 0, &mut steps)
    {
        Slot::Entry(place) => table.read_entry(seat, place, key, &mut steps),
        _ => None,
    }
}

// A seat closes the map's gate, and another caller looks a key up.
fn look_beside_a_closed_gate<R: Wait, L: Ledger>(
    rt: &R,
    table: &SharedTable,
    closer: &mut Seat<(), View>,
    reader: &mut SharedNote,
    key: u32,
    blank: Blank,
) -> Option<u64>
    requires map { 0 < maps_of table.now }
    requires ledger { (blank.name ≡ L.name) × (blank.parts ≡ L.parts) × (0 < L.parts) }
    requires closer { IsSeatOf table.now.words closer.old × IsFree (begin_of table.now.words) closer.old.me }
    requires reader { IsNoteOf table.now reader.old × IsSome (own_by reader.old) }
{
    if !table.words.try_close(rt, closer, 0, Stamp::first()) {
        return None;
    }
    table.look_up(reader, 0, key, &mut Steps::<L>::new(rt, blank))
}

#[test]
fn a_lookup_waits_for_no_gate(rt: HostRuntime) -> Result<(), Fail> {
    let (table, mut callers) = SharedTable::new(rt.alloc(), &[], 1, 0, &[1, 0])?;
    let closer = take(&table, &mut callers).expect(&rt, "caller 1");
    let mut reader = take(&table, &mut callers).expect(&rt, "caller 0");
    assert!(&rt; store_one(&rt, &table, &mut reader.note, 5, 6));
    let SharedNote { mut seat, .. } = closer.note;
    let found = look_beside_a_closed_gate::<_, Brand>(
        &rt,
        &table,
        &mut seat,
        &mut reader.note,
        5,
        Blank::new(1),
    );
    assert!(&rt; found == Some(6));
    Ok(())
}

#[test]
fn a_lookup_that_began_before_a_clear_finds_what_was_there(rt: HostRuntime) -> Result<(), Fail> {
    let (table, mut callers) = SharedTable::new(rt.alloc(), &[], 1, 0, &[2, 0])?;
    let reader = take(&table, &mut callers).expect(&rt, "caller 1");
    let mut clearer = take(&table, &mut callers).expect(&rt, "caller 0");
    assert!(&rt; store_one(&rt, &table, &mut clearer.note, 5, 6));
    let SharedNote { mut seat, .. } = reader.note;
    let found = look_over_a_clear::<_, Brand>(
        &rt,
        &table,
        &mut seat,
        &mut clearer.note,
        5,
        Blank::new(1),
    );
    assert!(&rt; found == Some(6));
    assert!(&rt; clearer.spare() == 0);
    Ok(())
}
