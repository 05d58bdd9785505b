//! `SharedTable`: a map and an int64 on words that change in single atomic steps.
ghost use Rattle.std.specs.Prelude.{◌≡◌, ◌<◌, ◌∷◌, []};
ghost use Rattle.sync_types.specs.declared.atomic_object.AtomicKind.TheVariants.{Int64};
ghost use Rattle.sync_model.specs.Shared.{IsCallerAt};
ghost use Rattle.shared_table.specs.Notes.{own_by, IsNoteOf};
ghost use Rattle.shared_table.specs.Tables.{kinds_of, maps_of};

use crate::map_and_int::MapAndInt;
use go_atomic::Int64 as WordInt64;
use go_map::Map;
use shared_table::{SharedNote, SharedTable, Steps};
use std::alloc::{AllocError, Global};
use std::marker::Brand;
use std::sync::Wait;
use std::sync::ledger::{Blank, Ledger};
use sync_model::Caller;
use sync_types::AtomicKind;

/// What the hash of a key is made with: with 0 its path is its own nibbles.
const SEED: u32 = 0;

/// A hash trie and an int64 of one word.
#[derive(Drop)]
pub struct TableObjects {
    table: SharedTable,
    ghost maps: { maps_of table ≡ 1 },
    ghost kinds: { kinds_of table ≡ Int64 ∷ [] },
}

// Whether a key of map 0 has a value. The words that are read are counted.
fn load_counted<R: Wait, L: Ledger>(
    rt: &R,
    table: &SharedTable,
    caller: &mut Caller<SharedNote>,
    key: u32,
    blank: Blank,
) -> bool
    requires map { 0 < maps_of table.now }
    requires caller { IsCallerAt IsNoteOf own_by table.now caller.old }
    requires ledger { (blank.name ≡ L.name) × (blank.parts ≡ L.parts) × (0 < L.parts) }
    ensures { IsCallerAt IsNoteOf own_by table.now caller.new }
{
    let mut steps = Steps::<L>::new(rt, blank);
    Map::at(table, 0).load(caller, key, &mut steps).is_some()
}

impl MapAndInt for TableObjects {
    type Mark = SharedNote;

    ghost has_caller = { λ objects caller. IsCallerAt IsNoteOf own_by objects.table caller };

    fn new(alloc: Global, spare: &[u32]) -> Result<(Self, Vec<Caller<SharedNote>>), AllocError> {
        let (table, callers) = SharedTable::new(alloc, &[AtomicKind::Int64], 1, SEED, spare)?;
        Ok((TableObjects { table }, callers))
    }

    fn load<R: Wait>(&self, rt: &R, caller: &mut Caller<SharedNote>, key: u32) -> bool {
        load_counted::<_, Brand>(rt, &self.table, caller, key, Blank::new(1))
    }

    fn store<R: Wait>(&self, rt: &R, caller: &mut Caller<SharedNote>, key: u32) {
        Map::at(&self.table, 0).store(rt, caller, key, 1);
    }

    fn delete<R: Wait>(&self, rt: &R, caller: &mut Caller<SharedNote>, key: u32) {
        Map::at(&self.table, 0).delete(rt, caller, key);
    }

    fn add<R: Wait>(&self, _rt: &R, caller: &mut Caller<SharedNote>) {
        WordInt64::at(&self.table, 0).add(caller, 1);
    }
}
