//! What a table contains at the end.
ghost use Rattle.std.specs.Prelude.{◌<◌};
ghost use Rattle.sync_model.specs.Shared.{AreAllCallers, IsHeldBy};
ghost use Rattle.shared_table.specs.Notes.{own_by, IsNoteOf};
ghost use Rattle.shared_table.specs.Tables.{caller_count, maps_of};

use go_map::Map;
use shared_table::{SharedNote, SharedTable};
use std::sync::Wait;
use std::test::Fail;
use sync_model::Caller;

// The path of key 268435456 goes with that of key 0 down to the last nibble, and that of key 16 to the first. A walk by slots
// finds keys 0, 268435456, 16 and 1 in this order.
const KEYS: [(u32, u32); 4] = [(16, 4), (0, 1), (1, 3), (268_435_456, 2)];

// A store by the first caller, if it has room.
fn store<R: Wait>(rt: &R, map: &Map, caller: &mut Caller<SharedNote>, key: u32, value: u32) -> bool
    requires { IsNoteOf map.now.table.now caller.old.note × IsHeldBy 0 (own_by caller.old.note) }
    ensures { IsNoteOf map.now.table.now caller.new.note × IsHeldBy 0 (own_by caller.new.note) }
{
    if caller.spare() == 0 {
        return false;
    }
    map.store(rt, caller, key, value as u64);
    true
}

// The first of all callers stores these keys in map 1, if it has room.
fn store_all<R: Wait>(
    rt: &R,
    table: &SharedTable,
    callers: &mut [Caller<SharedNote>],
    pairs: &[(u32, u32)],
) -> bool
    requires map { 1 < maps_of table.now }
    requires some { 0 < caller_count table.now }
    requires callers { AreAllCallers IsNoteOf own_by table.now callers.old (caller_count table.now) }
    ensures { AreAllCallers IsNoteOf own_by table.now callers.new (caller_count table.now) }
{
    let map = Map::at(table, 1);
    for (key, value) in pairs {
        if !store(rt, &map, &mut callers[0], *key, *value) {
            return false;
        }
    }
    true
}

#[test]
fn stored_keys_are_there_at_the_end(rt: HostRuntime) -> Result<(), Fail> {
    let (table, mut callers) = SharedTable::new(rt.alloc(), &[], 2, 0, &[4])?;
    assert!(&rt; store_all(&rt, &table, &mut callers, &KEYS));
    let ends = table.ends(callers);
    assert!(rt; ends.value(1, 0) == Some(1));
    assert!(rt; ends.value(1, 268_435_456) == Some(2));
    assert!(rt; ends.value(1, 17) == None);
    assert!(rt; ends.value(0, 0) == None);
    let mut pairs = Vec::with_capacity(rt.alloc(), 4)?;
    assert!(rt; ends.count(1) == 4);
    if ends.count(1) <= pairs.capacity() as u64 {
        ends.pairs(1, &mut pairs);
    }
    assert!(rt; pairs.len() == 4);
    for (pair, wanted) in pairs
        .iter()
        .zip([(0, 1), (1, 3), (16, 4), (268_435_456, 2)])
    {
        assert!(&rt; pair.0 == wanted.0 && pair.1 == wanted.1);
    }
    Ok(())
}
