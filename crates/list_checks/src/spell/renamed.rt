//! Calls on maps, with the numbers of their keys.
ghost use Rattle.std.specs.Prelude.{◌≡◌};
ghost use Rattle.sync_types.specs.Renaming.{renamed_call};
ghost use Rattle.workload.specs.Keys.{key_number};

use sync_types::{MapCall, Name};
use workload::Keys;

/// The number of a key, or 0 for a name that is none.
pub fn number_of(keys: &Keys, key: &Name) -> u32
    ensures { result ≡ key_number keys.now key.now }
{
    keys.number(key.as_bytes()).unwrap_or(0)
}

/// The call with its key's number in place of the name.
pub fn numbered(keys: &Keys, call: &MapCall<Name>) -> MapCall<u32>
    ensures { result ≡ renamed_call (key_number keys.now) call.now }
{
    match call {
        MapCall::Load { key } => MapCall::Load {
            key: number_of(keys, key),
        },
        MapCall::Store { key, value } => MapCall::Store {
            key: number_of(keys, key),
            value: *value,
        },
        MapCall::LoadOrStore { key, value } => MapCall::LoadOrStore {
            key: number_of(keys, key),
            value: *value,
        },
        MapCall::LoadAndDelete { key } => MapCall::LoadAndDelete {
            key: number_of(keys, key),
        },
        MapCall::Delete { key } => MapCall::Delete {
            key: number_of(keys, key),
        },
        MapCall::Swap { key, value } => MapCall::Swap {
            key: number_of(keys, key),
            value: *value,
        },
        MapCall::CompareAndSwap { key, old, new } => MapCall::CompareAndSwap {
            key: number_of(keys, key),
            old: *old,
            new: *new,
        },
        MapCall::CompareAndDelete { key, old } => MapCall::CompareAndDelete {
            key: number_of(keys, key),
            old: *old,
        },
        MapCall::Clear => MapCall::Clear,
    }
}
