//! Whether two calls are one.
ghost use Rattle.std.specs.Prelude.{◌≡◌};
ghost use Rattle.sync_types.specs.SequentialAtomic.{is_same};
ghost use Rattle.run_cuts.specs.SharedCuts.{same_map_call, same_atomic_call};

use sync_types::{AtomicCall, MapCall, Number};

/// Whether two calls of a map are one, by the numbers of their keys.
pub(crate) fn is_same_map_call(call: &MapCall<u32>, other: &MapCall<u32>) -> bool
    ensures { result ≡ same_map_call call.now other.now }
{
    match (*call, *other) {
        (MapCall::Load { key: a }, MapCall::Load { key: b })
        | (MapCall::LoadAndDelete { key: a }, MapCall::LoadAndDelete { key: b })
        | (MapCall::Delete { key: a }, MapCall::Delete { key: b }) => a == b,
        (MapCall::Store { key: a, value: v }, MapCall::Store { key: b, value: w })
        | (MapCall::LoadOrStore { key: a, value: v }, MapCall::LoadOrStore { key: b, value: w })
        | (MapCall::Swap { key: a, value: v }, MapCall::Swap { key: b, value: w })
        | (
            MapCall::CompareAndDelete { key: a, old: v },
            MapCall::CompareAndDelete { key: b, old: w },
        ) => a == b && v == w,
        (
            MapCall::CompareAndSwap {
                key: a,
                old: v,
                new: x,
            },
            MapCall::CompareAndSwap {
                key: b,
                old: w,
                new: y,
            },
        ) => a == b && (v == w && x == y),
        (MapCall::Clear, MapCall::Clear) => true,
        _ => false,
    }
}

/// Whether two numbers are of one type and equal.
pub(crate) fn is_same_number(number: Number, other: Number) -> bool
    ensures { result ≡ is_same number other }
{
    match (number, other) {
        (Number::Int32(a), Number::Int32(b)) => a == b,
        (Number::Int64(a), Number::Int64(b)) => a == b,
        (Number::Uint32(a), Number::Uint32(b)) => a == b,
        (Number::Uint64(a), Number::Uint64(b)) => a == b,
        (Number::Bool(a), Number::Bool(b)) => a == b,
        _ => false,
    }
}

/// Whether two calls of an atomic are one.
pub(crate) fn is_same_atomic_call(call: AtomicCall, other: AtomicCall) -> bool
    ensures { result ≡ same_atomic_call call other }
{
    match (call, other) {
        (AtomicCall::Load, AtomicCall::Load) => true,
        (AtomicCall::Store { value: a }, AtomicCall::Store { value: b })
        | (AtomicCall::Swap { value: a }, AtomicCall::Swap { value: b })
        | (AtomicCall::Add { operand: a }, AtomicCall::Add { operand: b })
        | (AtomicCall::And { operand: a }, AtomicCall::And { operand: b })
        | (AtomicCall::Or { operand: a }, AtomicCall::Or { operand: b }) => is_same_number(a, b),
        (
            AtomicCall::CompareAndSwap { old: a, new: x },
            AtomicCall::CompareAndSwap { old: b, new: y },
        ) => is_same_number(a, b) && is_same_number(x, y),
        _ => false,
    }
}
