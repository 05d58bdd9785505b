//! `sync.Map` for one thread: its calls, their replies, and what each does.
ghost use Rattle.std.specs.Prelude.{◌≡◌, IfOk, OnOk, OnErr};
ghost use Rattle.std.specs.Option.{option_copied};
ghost use Rattle.sync_types.specs.SequentialMap.{map_key, settled, map_reply, map_after};

use crate::by_name::ByName;
use crate::name::Name;
use std::alloc::{AllocError, Global};

/// A call of Go's `sync.Map`, `Range` aside, over keys of a type `K`. Values are 0 to 2^63 - 1.
#[derive(Clone, Copy, Debug)]
pub enum MapCall<K> {
    /// The value at the key, if there is one.
    Load { key: K },
    /// Sets the value at the key.
    Store { key: K, value: u64 },
    /// The value that is there, or this one, which is then stored.
    LoadOrStore { key: K, value: u64 },
    /// Removes the key, and answers the value that it had.
    LoadAndDelete { key: K },
    /// Removes the key.
    Delete { key: K },
    /// Sets the value at the key, and answers the value before.
    Swap { key: K, value: u64 },
    /// Sets the value at the key to `new` where it is `old`.
    CompareAndSwap { key: K, old: u64, new: u64 },
    /// Removes the key where its value is `old`. An absent key has no value, which isn't 0.
    CompareAndDelete { key: K, old: u64 },
    /// Removes every key.
    Clear,
}

impl<K> MapCall<K> {
    /// The key of the call, which only `Clear` hasn't.
    pub fn key(&self) -> Option<&K>
        ensures { option_copied result ≡ map_key self.now }
    {
        match self {
            MapCall::Load { key }
            | MapCall::Store { key, .. }
            | MapCall::LoadOrStore { key, .. }
            | MapCall::LoadAndDelete { key }
            | MapCall::Delete { key }
            | MapCall::Swap { key, .. }
            | MapCall::CompareAndSwap { key, .. }
            | MapCall::CompareAndDelete { key, .. } => Some(key),
            MapCall::Clear => None,
        }
    }
}

/// What a call of a map answers.
#[derive(Clone, Copy, Debug)]
pub enum MapReply {
    /// The call is done, and says nothing more.
    Done,
    /// The value that was there, or `None` where the key was absent.
    Found(Option<u64>),
    /// The value that is there now, and whether it was there before.
    Settled { value: u64, loaded: bool },
    /// Whether the key had the old value, so that the map was changed.
    Compared(bool),
}

/// What `LoadOrStore` answers of a key where this was the value before.
pub fn settled(before: Option<u64>, value: u64) -> MapReply
    ensures { result ≡ settled before value }
{
    match before {
        None => MapReply::Settled {
            value,
            loaded: false,
        },
        Some(value) => MapReply::Settled {
            value,
            loaded: true,
        },
    }
}

/// Makes a call on a map that one thread has. Where memory is out the map stays as it was.
pub fn apply(
    alloc: Global,
    map: &mut ByName<u64>,
    call: &MapCall<Name>,
) -> Result<MapReply, AllocError>
    ensures reply { IfOk result (λ reply. reply ≡ map_reply call.now map.old) }
    ensures ok { OnOk result (map.new ≡ map_after call.now map.old) }
    ensures err { OnErr result (map.new ≡ map.old) }
{
    match call {
        MapCall::Load { key } => Ok(MapReply::Found(map.get(key.as_bytes()))),
        MapCall::Store { key, value } => {
            map.insert(alloc, key.as_bytes(), *value)?;
            Ok(MapReply::Done)
        }
        MapCall::LoadOrStore { key, value } => {
            let before = map.get(key.as_bytes());
            if before.is_none() {
                map.insert(alloc, key.as_bytes(), *value)?;
            }
            Ok(settled(before, *value))
        }
        MapCall::LoadAndDelete { key } => Ok(MapReply::Found(map.remove(key.as_bytes()))),
        MapCall::Delete { key } => {
            map.remove(key.as_bytes());
            Ok(MapReply::Done)
        }
        MapCall::Swap { key, value } => {
            let before = map.get(key.as_bytes());
            map.insert(alloc, key.as_bytes(), *value)?;
            Ok(MapReply::Found(before))
        }
        MapCall::CompareAndSwap { key, old, new } => {
            let is_old = map.get(key.as_bytes()) == Some(*old);
            if is_old {
                map.insert(alloc, key.as_bytes(), *new)?;
            }
            Ok(MapReply::Compared(is_old))
        }
        MapCall::CompareAndDelete { key, old } => {
            let is_old = map.get(key.as_bytes()) == Some(*old);
            if is_old {
                map.remove(key.as_bytes());
            }
            Ok(MapReply::Compared(is_old))
        }
        MapCall::Clear => {
            map.clear();
            Ok(MapReply::Done)
        }
    }
}
