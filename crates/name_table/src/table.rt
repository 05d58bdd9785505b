//! A table of names by their hash.
ghost use Rattle.std.specs.Prelude.{◌≡◌, ◌<◌, ◌^◌, IfOk, OnOk, OnErr};
ghost use Rattle.std.specs.FinMap as finite;

use std::alloc::{AllocError, Global};
use std::collections::HashMap;
use std::marker::Model;

/// Values by name, in no order. A contract sees the finite map, as that of `ByName`. The table stands in memory of its own,
/// so that what has one is cheap to move.
#[derive(Drop)]
pub struct NameTable<X> {
    entries: Box<HashMap<Vec<u8>, X>>,
}

impl<X> Model for NameTable<X> {
    ghost use Rattle.std.specs.Ordering.{nat_cmp};
    ghost use Rattle.std.specs.Cmp.Lexicographic.{slice_cmp};
    ghost use Rattle.std.specs.FinMap as finite;
    ghost use Rattle.std.specs.Coded.{coded_ℕ, coded_list};

    ghost Value = { finite.FinMap (slice_cmp nat_cmp) X };

    ghost coded = { finite.code (coded_list coded_ℕ) X.code };

    ghost use Rattle.sync_types.specs.ByName.{by_bytes};

    ghost view = { λ t. by_bytes t.entries.value.entries };
}

impl<X: Copy> NameTable<X> {
    /// An empty table.
    pub fn new(alloc: Global) -> Result<Self, AllocError>
        ensures { IfOk result (λ table. table ≡ finite.empty) }
    {
        Ok(NameTable {
            entries: Box::new(alloc, HashMap::new(alloc))?,
        })
    }

    /// The value at a name.
    pub fn get(&self, name: &[u8]) -> Option<X>
        ensures { result ≡ finite.get self.now name.now }
    {
        self.entries.get(name).copied()
    }

    /// Sets the value at a name. Where memory is out the table stays as it was.
    pub fn insert(&mut self, alloc: Global, name: &[u8], value: X) -> Result<(), AllocError>
        ensures ok { OnOk result (self.new ≡ finite.insert self.old name.now value) }
        ensures err { OnErr result (self.new ≡ self.old) }
    {
        let name = Vec::from_slice(alloc, name)?;
        self.entries.insert(name, value)?;
        Ok(())
    }

    /// How many names have a value.
    pub fn len(&self) -> usize
        ensures len { result ≡ finite.len self.now }
        ensures small { result < 2 ^ 63 }
    {
        self.entries.len()
    }
}
