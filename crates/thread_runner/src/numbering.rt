//! Calls on maps, with the numbers of their keys.
ghost use Rattle.std.specs.Prelude.{◌≡◌, ℕ, List};
ghost use Rattle.sync_types.specs.Renaming.{renamed_call};

use sync_types::{MapCall, Name};

/// The call with its key's number in place of the name.
pub(crate) fn numbered(number: u32, call: &MapCall<Name>) -> MapCall<u32>
    ensures { result ≡ renamed_call (λ (name : List ℕ). number) call.now }
{
    match call {
        MapCall::Load { .. } => MapCall::Load { key: number },
        MapCall::Store { value, .. } => MapCall::Store {
            key: number,
            value: *value,
        },
        MapCall::LoadOrStore { value, .. } => MapCall::LoadOrStore {
            key: number,
            value: *value,
        },
        MapCall::LoadAndDelete { .. } => MapCall::LoadAndDelete { key: number },
        MapCall::Delete { .. } => MapCall::Delete { key: number },
        MapCall::Swap { value, .. } => MapCall::Swap {
            key: number,
            value: *value,
        },
        MapCall::CompareAndSwap { old, new, .. } => MapCall::CompareAndSwap {
            key: number,
            old: *old,
            new: *new,
        },
        MapCall::CompareAndDelete { old, .. } => MapCall::CompareAndDelete {
            key: number,
            old: *old,
        },
        MapCall::Clear => MapCall::Clear,
    }
}
