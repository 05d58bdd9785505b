//! A writer comes to a node, and another caller's calls leave the node empty, so that it dies. The writer starts again, and stores.
ghost use Rattle.std.specs.Prelude.{◌≡◌, ◌<◌, ◌≤◌, IsSome, length};
ghost use Rattle.shared_table.specs.Notes.{own_by, IsNoteOf};
ghost use Rattle.shared_table.specs.Tables.{maps_of};
ghost use Rattle.table_rule.specs.Making.{HasUnit};
ghost use Rattle.table_words.specs.Seats.{begin_of, IsSeatOf};
ghost use Rattle.table_rule.specs.Walking.{IsFree};

use super::{store_one, take};
use crate::map_call::Reached;
use crate::note::SharedNote;
use crate::table::SharedTable;
use atomic_table::Seat;
use stamps::Stamp;
use std::sync::Wait;
use std::test::Fail;
use sync_model::CallerNote;
use sync_types::{MapCall, MapReply};
use table_words::View;

// The paths of these keys part at the last nibble.
const NEAR: u32 = 0;

const FAR: u32 = 268_435_456;

// Takes a key out of the map, if the caller has room.
fn take_out<R: Wait>(rt: &R, table: &SharedTable, note: &mut SharedNote, key: u32) -> Option<u64>
    requires map { 0 < maps_of table.now }
    requires note { IsNoteOf table.now note.old × IsSome (own_by note.old) }
    ensures { IsNoteOf table.now note.new × IsSome (own_by note.new) }
{
    if note.spare() == 0 {
        return None;
    }
    match table.change_map(rt, note, 0, key, MapCall::LoadAndDelete { key }) {
        MapReply::Found(value) => value,
        _ => None,
    }
}

// A writer's seat comes to the node that has both keys, and another caller takes them out. The writer can't store there, and stores
// where it comes to next.
fn store_over_a_pruning<R: Wait>(
    rt: &R,
    table: &SharedTable,
    seat: &mut Seat<(), View>,
    other: &mut SharedNote,
    caller: u32,
    next: u64,
) -> bool
    requires map { 0 < maps_of table.now }
    requires seat { IsSeatOf table.now.words seat.old × IsFree (begin_of table.now.words) seat.old.me × (length seat.old.me.0.owns ≤ 1) }
    requires unit { HasUnit seat.old.me.0.owns next }
    requires caller { caller ≡ seat.old.me.0.number }
    requires other { IsNoteOf table.now other.old × IsSome (own_by other.old) }
    ensures { IsNoteOf table.now other.new × IsSome (own_by other.new) }
{
    let call = MapCall::Store {
        key: NEAR,
        value: 9,
    };
    table.come_in(rt, seat, 0, Stamp::first());
    let (node, level) = match table.descend(seat, call, 0, NEAR) {
        Reached::Stands { node, level } => (node, level),
        Reached::Answered(_) => return false,
    };
    if take_out(rt, table, other, NEAR) != Some(1) || take_out(rt, table, other, FAR) != Some(2) {
        return false;
    }
    let made = table.make_at(rt, seat, call, 0, NEAR, node, level, caller, next);
    if made.is_some() {
        return false;
    }
    table.make_inside(rt, seat, call, 0, NEAR, caller, next);
    table.words.go_out(seat, 0);
    level == 7
}

// The same, with the writer's note.
fn store_by<R: Wait>(
    rt: &R,
    table: &SharedTable,
    writer: SharedNote,
    other: &mut SharedNote,
) -> bool
    requires map { 0 < maps_of table.now }
    requires writer { IsNoteOf table.now writer × IsSome (own_by writer) }
    requires other { IsNoteOf table.now other.old × IsSome (own_by other.old) }
    ensures { IsNoteOf table.now other.new × IsSome (own_by other.new) }
{
    if writer.spare() == 0 {
        return false;
    }
    let SharedNote {
        mut seat,
        number,
        next,
        ..
    } = writer;
    store_over_a_pruning(rt, table, &mut seat, other, number, next)
}

#[test]
fn a_writer_at_a_node_that_dies_starts_again_and_stores(rt: HostRuntime) -> Result<(), Fail> {
    let (table, mut callers) = SharedTable::new(rt.alloc(), &[], 1, 0, &[5, 1])?;
    let writer = take(&table, &mut callers).expect(&rt, "caller 1");
    let mut other = take(&table, &mut callers).expect(&rt, "caller 0");
    assert!(&rt; store_one(&rt, &table, &mut other.note, NEAR, 1));
    assert!(&rt; store_one(&rt, &table, &mut other.note, FAR, 2));
    assert!(&rt; store_by(&rt, &table, writer.note, &mut other.note));
    assert!(&rt; take_out(&rt, &table, &mut other.note, NEAR) == Some(9));
    Ok(())
}
