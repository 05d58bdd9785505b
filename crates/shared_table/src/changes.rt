//! What a call on a map does to its key.
ghost use Rattle.std.specs.Prelude.{◌≡◌, IsSome, IsFalse};
ghost use Rattle.sync_types.specs.SequentialMap.{map_key};
ghost use Rattle.sync_types.specs.KeyCalls.{key_reply};
ghost use Rattle.shared_table.specs.MapCalls.{IsChange};
ghost use Rattle.shared_table.specs.Pruning.{NeverRemoves};

use sync_types::{MapCall, MapReply};

/// What a call does to its key.
#[derive(Drop)]
pub(crate) enum Change {
    /// Nothing: the call is no entry of the history.
    Keep,
    /// The key has this value afterwards.
    Put(u64),
    /// The key has none.
    Remove,
}

impl Change {
    /// What a call on a key does, where the key has this.
    pub(crate) fn of(call: MapCall<u32>, held: Option<u64>) -> Change
        requires { IsSome (map_key call) }
        ensures { IsChange call held result }
    {
        match call {
            MapCall::Load { .. } => Change::Keep,
            MapCall::Store { value, .. } | MapCall::Swap { value, .. } => Change::Put(value),
            MapCall::LoadOrStore { value, .. } => match held {
                Some(_) => Change::Keep,
                None => Change::Put(value),
            },
            MapCall::LoadAndDelete { .. } | MapCall::Delete { .. } => match held {
                Some(_) => Change::Remove,
                None => Change::Keep,
            },
            MapCall::CompareAndSwap { old, new, .. } => {
                if held == Some(old) {
                    Change::Put(new)
                } else {
                    Change::Keep
                }
            }
            MapCall::CompareAndDelete { old, .. } => {
                if held == Some(old) {
                    Change::Remove
                } else {
                    Change::Keep
                }
            }
            MapCall::Clear => unreachable!(),
        }
    }
}

/// What a call on a key answers, where the key has this.
pub(crate) fn reply_of(call: MapCall<u32>, held: Option<u64>) -> MapReply
    requires { IsSome (map_key call) }
    ensures { result ≡ key_reply call held }
{
    match call {
        MapCall::Load { .. } | MapCall::LoadAndDelete { .. } | MapCall::Swap { .. } => {
            MapReply::Found(held)
        }
        MapCall::Store { .. } | MapCall::Delete { .. } => MapReply::Done,
        MapCall::LoadOrStore { value, .. } => match held {
            Some(there) => MapReply::Settled {
                value: there,
                loaded: true,
            },
            None => MapReply::Settled {
                value,
                loaded: false,
            },
        },
        MapCall::CompareAndSwap { old, .. } | MapCall::CompareAndDelete { old, .. } => {
            MapReply::Compared(held == Some(old))
        }
        MapCall::Clear => unreachable!(),
    }
}

/// Whether a call may leave its key without a value.
pub(crate) fn may_remove(call: MapCall<u32>) -> bool
    requires { IsSome (map_key call) }
    ensures { IsFalse result → NeverRemoves call }
{
    match call {
        MapCall::LoadAndDelete { .. } | MapCall::Delete { .. } | MapCall::CompareAndDelete { .. } =>
            true,
        _ => false,
    }
}
