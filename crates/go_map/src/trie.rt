//! A shared table has all that callers of shared maps and atomics may rely on.
ghost use Rattle.std.specs.Prelude.{◌≡◌, ◌<◌};
ghost use Rattle.sync_model.specs.declared.item.SharedCall.TheVariants as calls;
ghost use Rattle.sync_model.specs.declared.item.SharedReply.TheVariants as replies;
ghost use Rattle.sync_model.specs.Shared.{IsCallerAt};
ghost use Rattle.shared_table.specs.Notes.{own_by, seen_by, IsNoteOf};
ghost use Rattle.shared_table.specs.Tables.{maps_of};
ghost use Rattle.go_map.specs.Maps.{MakesCall};
ghost use Rattle.go_map.specs.Tries.{kinds_in, maps_in, count_in, Takes, Stands, stays};

use crate::map::Map;
use go_atomic::atomic_call;
use shared_table::{SharedNote, SharedTable, Steps, TableCursor};
use std::marker::Brand;
use std::sync::Wait;
use std::sync::ledger::{Blank, Ledger};
use sync_model::{Caller, Shared};
use sync_types::{AtomicCall, AtomicReply, MapCall, MapReply};

/// Maps as hash tries and typed atomics, in one table of words. Loads, walks and calls on atomics wait for nobody.
#[derive(Drop)]
pub struct Trie(pub SharedTable);

// What a key has. The words that it reads are counted, and nobody asks for the count.
fn load<R: Wait, L: Ledger>(
    rt: &R,
    table: &SharedTable,
    caller: &mut Caller<SharedNote>,
    map: u32,
    key: u32,
    blank: Blank,
) -> Option<u64>
    requires map { map < maps_of table.now }
    requires caller { IsCallerAt IsNoteOf own_by table.now caller.old }
    requires ledger { (blank.name ≡ L.name) × (blank.parts ≡ L.parts) × (0 < L.parts) }
    ensures { MakesCall table.now map (MapCall.Load key) (MapReply.Found result) caller.old.note caller.new.note }
{
    Map::at(table, map).load(caller, key, &mut Steps::<L>::new(rt, blank))
}

impl Shared for Trie {
    type Mark = SharedNote;

    type Cursor = TableCursor;

    ghost kinds = { kinds_in };

    ghost maps = { maps_in };

    ghost count = { count_in };

    ghost takes = { Takes };

    ghost home_of = { λ trie. trie.0 };

    ghost seen = { seen_by };

    ghost stands = { Stands };

    fn home(&self) -> &SharedTable {
        &self.0
    }

    fn map_call<R: Wait>(
        &self,
        rt: &R,
        caller: &mut Caller<SharedNote>,
        map: u32,
        call: MapCall<u32>,
    ) -> MapReply {
        match call {
            MapCall::Load { key } => {
                let found = load::<_, Brand>(rt, &self.0, caller, map, key, Blank::new(1));
                MapReply::Found(found)
            }
            MapCall::Store { key, .. }
            | MapCall::LoadOrStore { key, .. }
            | MapCall::LoadAndDelete { key }
            | MapCall::Delete { key }
            | MapCall::Swap { key, .. }
            | MapCall::CompareAndSwap { key, .. }
            | MapCall::CompareAndDelete { key, .. } => {
                self.0.change_map(rt, &mut caller.note, map, key, call)
            }
            MapCall::Clear => {
                self.0.clear_map(rt, &mut caller.note, map);
                MapReply::Done
            }
        }
    }

    fn atomic_call<R: Wait>(
        &self,
        _rt: &R,
        caller: &mut Caller<SharedNote>,
        atomic: u32,
        call: AtomicCall,
    ) -> AtomicReply {
        atomic_call(&self.0, caller, atomic, self.0.kind(atomic), call)
    }

    fn begin<R: Wait>(&self, _rt: &R, caller: &mut Caller<SharedNote>, map: u32) -> TableCursor {
        self.0.begin_cursor(&mut caller.note, map)
    }

    fn next<R: Wait>(
        &self,
        _rt: &R,
        caller: &mut Caller<SharedNote>,
        cursor: &mut TableCursor,
    ) -> Option<(u32, u64)> {
        self.0.next_of_cursor(&mut caller.note, cursor)
    }

    fn settle(&self, callers: &mut [Caller<SharedNote>]) {
        self.0.settle(callers)
    }

    ghost stays = { stays };
}
