//! Which calls plain maps take.
ghost use Rattle.std.specs.Prelude.{◌≡◌, true};
ghost use Rattle.sync_model.specs.Shared.{IsMapCall};
ghost use Rattle.shared_plain.specs.Fits.{is_taken, is_in_range};
ghost use Rattle.shared_plain.specs.Plains.{Takes};

use crate::plain::Plain;
use sync_types::MapCall;

impl Plain {
    /// Whether the maps take a call: its key is below their limit, and its values are at most 2^63 - 1.
    pub fn takes(&self, call: &MapCall<u32>) -> bool
        ensures taken { result ≡ true → IsMapCall (Takes self.now) call.now }
        ensures all { IsMapCall (Takes self.now) call.now → result ≡ true }
    {
        is_taken(self.keys, *call)
    }
}

// Whether maps of the keys below `keys` take a call.
fn is_taken(keys: u32, call: MapCall<u32>) -> bool
    ensures { result ≡ is_taken keys call }
{
    match call {
        MapCall::Load { key } => key < keys,
        MapCall::Store { key, value } => key < keys && is_in_range(value),
        MapCall::LoadOrStore { key, value } => key < keys && is_in_range(value),
        MapCall::LoadAndDelete { key } => key < keys,
        MapCall::Delete { key } => key < keys,
        MapCall::Swap { key, value } => key < keys && is_in_range(value),
        MapCall::CompareAndSwap { key, old, new } => {
            key < keys && (is_in_range(old) && is_in_range(new))
        }
        MapCall::CompareAndDelete { key, old } => key < keys && is_in_range(old),
        MapCall::Clear => true,
    }
}

// Whether a value is in range.
fn is_in_range(value: u64) -> bool
    ensures { result ≡ is_in_range value }
{
    value < 1 << 63
}
