//! Callers of a new table, and calls that they make as long as they have room.
ghost use Rattle.std.specs.Prelude.{◌<◌, IfSome, All};
ghost use Rattle.sync_model.specs.Shared.{IsCallerAt};
ghost use Rattle.shared_table.specs.Notes.{own_by, IsNoteOf};
ghost use Rattle.shared_table.specs.Tables.{maps_of};

use go_map::Map;
use shared_table::{SharedNote, SharedTable, Steps};
use std::sync::Wait;
use std::sync::ledger::Ledger;
use sync_model::Caller;

// The last of some callers.
pub(super) fn take(
    table: &SharedTable,
    callers: &mut Vec<Caller<SharedNote>>,
) -> Option<Caller<SharedNote>>
    requires { All (IsCallerAt IsNoteOf own_by table.now) callers.old.items }
    ensures rest { All (IsCallerAt IsNoteOf own_by table.now) callers.new.items }
    ensures one { IfSome result (IsCallerAt IsNoteOf own_by table.now) }
{
    callers.pop()
}

// Stores in map 0, if the caller has room.
pub(super) fn stored<R: Wait>(
    rt: &R,
    table: &SharedTable,
    caller: &mut Caller<SharedNote>,
    key: u32,
    value: u32,
) -> bool
    requires map { 0 < maps_of table.now }
    requires caller { IsCallerAt IsNoteOf own_by table.now caller.old }
    ensures { IsCallerAt IsNoteOf own_by table.now caller.new }
{
    if caller.spare() == 0 {
        return false;
    }
    Map::at(table, 0).store(rt, caller, key, value as u64);
    true
}

// Deletes in map 0, if the caller has room.
pub(super) fn deleted<R: Wait>(
    rt: &R,
    table: &SharedTable,
    caller: &mut Caller<SharedNote>,
    key: u32,
) -> bool
    requires map { 0 < maps_of table.now }
    requires caller { IsCallerAt IsNoteOf own_by table.now caller.old }
    ensures { IsCallerAt IsNoteOf own_by table.now caller.new }
{
    if caller.spare() == 0 {
        return false;
    }
    Map::at(table, 0).delete(rt, caller, key);
    true
}

// Deletes in map 0 where the key has this value, if the caller has room.
pub(super) fn deleted_if<R: Wait>(
    rt: &R,
    table: &SharedTable,
    caller: &mut Caller<SharedNote>,
    key: u32,
    value: u32,
) -> bool
    requires map { 0 < maps_of table.now }
    requires caller { IsCallerAt IsNoteOf own_by table.now caller.old }
    ensures { IsCallerAt IsNoteOf own_by table.now caller.new }
{
    if caller.spare() == 0 {
        return false;
    }
    Map::at(table, 0).compare_and_delete(rt, caller, key, value as u64)
}

// Clears map 0, if the caller has room.
pub(super) fn cleared<R: Wait>(rt: &R, table: &SharedTable, caller: &mut Caller<SharedNote>) -> bool
    requires map { 0 < maps_of table.now }
    requires caller { IsCallerAt IsNoteOf own_by table.now caller.old }
    ensures { IsCallerAt IsNoteOf own_by table.now caller.new }
{
    if caller.spare() == 0 {
        return false;
    }
    Map::at(table, 0).clear(rt, caller);
    true
}

// What a key of map 0 has.
pub(super) fn loaded<L: Ledger>(
    table: &SharedTable,
    caller: &mut Caller<SharedNote>,
    key: u32,
    steps: &mut Steps<L>,
) -> Option<u64>
    requires map { 0 < maps_of table.now }
    requires caller { IsCallerAt IsNoteOf own_by table.now caller.old }
    ensures { IsCallerAt IsNoteOf own_by table.now caller.new }
{
    Map::at(table, 0).load(caller, key, steps)
}
