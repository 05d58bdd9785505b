//! A map for one thread whose keys are numbers: what a call answers, whether it is an entry, and what it leaves.
ghost use Rattle.std.specs.Prelude.{◌≡◌, true, OnOk, OnErr};
ghost use Rattle.sync_types.specs.SequentialMap.{map_reply, map_after, is_map_entry};
ghost use Rattle.std.specs.Ordering.{nat_cmp};
ghost use Rattle.std.specs.FinMap as finite;

use std::alloc::{AllocError, Global};
use std::collections::BTreeMap;
use std::marker::Model;
use sync_types::map_object::settled;
use sync_types::{MapCall, MapReply};

/// A map whose keys are numbers. A contract sees the finite map.
#[derive(Drop)]
pub struct NumberMap {
    entries: BTreeMap<u32, u64>,
}

impl Model for NumberMap {
    ghost use Rattle.std.specs.Prelude.{ℕ};
    ghost use Rattle.std.specs.Ordering.{nat_cmp};
    ghost use Rattle.std.specs.FinMap as finite;
    ghost use Rattle.std.specs.Coded.{coded_ℕ};

    ghost Value = { finite.FinMap nat_cmp ℕ };

    ghost coded = { finite.code coded_ℕ coded_ℕ };

    ghost view = { λ t. finite.from_entries t.entries.entries };
}

impl NumberMap {
    /// A map without a key, which takes no memory.
    pub fn new(alloc: Global) -> Self
        ensures { result ≡ finite.empty }
    {
        NumberMap {
            entries: BTreeMap::new(alloc),
        }
    }

    /// The value of a key.
    pub fn get(&self, key: u32) -> Option<u64>
        ensures { result ≡ finite.get self.now key }
    {
        self.entries.get(&key).copied()
    }

    fn insert(&mut self, key: u32, value: u64) -> Result<(), AllocError>
        ensures ok { OnOk result (self.new ≡ finite.insert self.old key value) }
        ensures err { OnErr result (self.new ≡ self.old) }
    {
        self.entries.insert(key, value)?;
        Ok(())
    }

    fn remove(&mut self, key: u32)
        ensures { self.new ≡ finite.remove self.old key }
    {
        self.entries.remove(&key);
    }

    fn clear(&mut self)
        ensures { self.new ≡ finite.empty }
    {
        self.entries.clear();
    }

    /// What a call answers.
    pub fn reply(&self, call: &MapCall<u32>) -> MapReply
        ensures { result ≡ map_reply call.now self.now }
    {
        match call {
            MapCall::Load { key } | MapCall::LoadAndDelete { key } | MapCall::Swap { key, .. } => {
                MapReply::Found(self.get(*key))
            }
            MapCall::LoadOrStore { key, value } => settled(self.get(*key), *value),
            MapCall::CompareAndSwap { key, old, .. } | MapCall::CompareAndDelete { key, old } => {
                MapReply::Compared(self.get(*key) == Some(*old))
            }
            MapCall::Store { .. } | MapCall::Delete { .. } | MapCall::Clear => MapReply::Done,
        }
    }

    /// Whether a call is an entry of the shared history.
    pub fn is_entry(&self, call: &MapCall<u32>) -> bool
        ensures { result ≡ is_map_entry call.now self.now }
    {
        match call {
            MapCall::Load { .. } => false,
            MapCall::Store { .. } | MapCall::Swap { .. } | MapCall::Clear => true,
            MapCall::LoadOrStore { key, .. } => self.get(*key).is_none(),
            MapCall::LoadAndDelete { key } | MapCall::Delete { key } => self.get(*key).is_some(),
            MapCall::CompareAndSwap { key, old, .. } | MapCall::CompareAndDelete { key, old } => {
                self.get(*key) == Some(*old)
            }
        }
    }

    /// Makes a call that is an entry. Where memory is out the map stays as it was.
    pub fn enter(&mut self, call: &MapCall<u32>) -> Result<(), AllocError>
        requires { is_map_entry call.now self.old ≡ true }
        ensures ok { OnOk result (self.new ≡ map_after call.now self.old) }
        ensures err { OnErr result (self.new ≡ self.old) }
    {
        match call {
            MapCall::Store { key, value }
            | MapCall::LoadOrStore { key, value }
            | MapCall::Swap { key, value }
            | MapCall::CompareAndSwap {
                key,
                new: value,
                ..
            } => {
                self.insert(*key, *value)?;
            }
            MapCall::LoadAndDelete { key }
            | MapCall::Delete { key }
            | MapCall::CompareAndDelete { key, .. } => {
                self.remove(*key);
            }
            MapCall::Clear => self.clear(),
            MapCall::Load { .. } => {}
        }
        Ok(())
    }
}
