//! A table whose keys are names.
ghost use Rattle.std.specs.Prelude.{◌≡◌, ◌<◌, ◌^◌, true, IfOk, OnOk, OnErr};
ghost use Rattle.sync_types.specs.Name.{is_name};
ghost use Rattle.std.specs.Ordering.{nat_cmp};
ghost use Rattle.std.specs.Cmp.Lexicographic.{slice_cmp};
ghost use Rattle.std.specs.FinMap as finite;

use crate::name::Name;
use crate::seq::Seq;
use std::alloc::{AllocError, Global};
use std::collections::BTreeMap;
use std::marker::Model;

/// Values by name, in the byte order of the names. A contract sees the finite map.
#[derive(Drop)]
pub struct ByName<X> {
    entries: BTreeMap<Vec<u8>, X>,
}

impl<X> Model for ByName<X> {
    ghost use Rattle.std.specs.Ordering.{nat_cmp};
    ghost use Rattle.std.specs.Cmp.Lexicographic.{slice_cmp};
    ghost use Rattle.std.specs.FinMap as finite;
    ghost use Rattle.std.specs.Coded.{coded_ℕ, coded_list};

    ghost Value = { finite.FinMap (slice_cmp nat_cmp) X };

    ghost coded = { finite.code (coded_list coded_ℕ) X.code };

    ghost use Rattle.sync_types.specs.ByName.{by_bytes, all_names};
    ghost use Rattle.std.specs.Prelude.{◌≡◌, true};

    ghost view = { λ t. by_bytes t.entries.entries };

    ghost invariant = { λ t. all_names t.entries.entries ≡ true };
}

impl<X: Copy> ByName<X> {
    /// An empty table, which takes no memory.
    pub fn new(alloc: Global) -> Self
        ensures { result ≡ finite.empty }
    {
        ByName {
            entries: BTreeMap::new(alloc),
        }
    }

    /// The value at a name.
    pub fn get(&self, name: &[u8]) -> Option<X>
        ensures { result ≡ finite.get self.now name.now }
    {
        self.entries.get(name).copied()
    }

    /// Sets the value at a name. Where memory is out the table stays as it was.
    pub fn insert(&mut self, alloc: Global, name: &[u8], value: X) -> Result<(), AllocError>
        requires { is_name name.now ≡ true }
        ensures ok { OnOk result (self.new ≡ finite.insert self.old name.now value) }
        ensures err { OnErr result (self.new ≡ self.old) }
    {
        let name = Vec::from_slice(alloc, name)?;
        self.entries.insert(name, value)?;
        Ok(())
    }

    /// Removes a name, and answers the value that it had. It takes no memory.
    pub fn remove(&mut self, name: &[u8]) -> Option<X>
        ensures value { result ≡ finite.get self.old name.now }
        ensures rest { self.new ≡ finite.remove self.old name.now }
    {
        self.entries.remove(name)
    }

    /// Removes every name. It takes no memory.
    pub fn clear(&mut self)
        ensures { self.new ≡ finite.empty }
    {
        self.entries.clear();
    }

    /// How many names have a value.
    pub fn len(&self) -> usize
        ensures len { result ≡ finite.len self.now }
        ensures small { result < 2 ^ 63 }
    {
        self.entries.len()
    }

    /// The names that have a value, each with it, in the byte order of the names.
    pub fn entries(&self, alloc: Global) -> Result<Seq<(Name, X)>, AllocError>
        ensures { IfOk result (λ entries. entries ≡ finite.entries self.now) }
    {
        let mut entries = Seq::new(alloc);
        for (name, value) in self.entries.iter() {
            entries.push((Name::from_bytes(alloc, name)?, *value))?;
        }
        Ok(entries)
    }
}
