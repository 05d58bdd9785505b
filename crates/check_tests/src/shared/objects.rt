//! The objects that hand-made calls are on: a map and an int64.
ghost use Rattle.std.specs.Prelude.{◌≡◌, ℕ, true, [], ◌∷◌, None, IfOk, Some, slice_get};
ghost use Rattle.std.specs.FinMap.{empty};
ghost use Rattle.sync_types.specs.SequentialAtomic.{is_atomic_call, zero_of};
ghost use Rattle.sync_model.specs.declared.item.Item.{Item};
ghost use Rattle.sync_model.specs.SharedHistory.{value_at};
ghost use Rattle.shared_checks.specs.Calls.{calls_in};
ghost use Rattle.shared_checks.specs.Placing.{contents_of, IsOn, AreOn};

use shared_checks::{NumberMap, Objects};
use std::alloc::{AllocError, Global};
use sync_model::{Item, SharedCall};
use sync_types::{AtomicCall, AtomicKind, Number, Seq};

/// A map without a key, and an int64 that is 0.
pub(crate) fn objects(alloc: Global) -> Result<Objects, AllocError>
    ensures is { IfOk result (λ objects. contents_of objects ≡ record { maps = empty ∷ []; numbers = zero_of AtomicKind.Int64 ∷ [] }) }
    ensures empty { IfOk result (λ objects. (m key : ℕ) → value_at (contents_of objects) m key ≡ None) }
{
    let mut maps = Vec::new(alloc);
    maps.push(NumberMap::new(alloc))?;
    let mut numbers = Vec::new(alloc);
    numbers.push(AtomicKind::Int64.zero())?;
    Ok(Objects { maps, numbers })
}

/// Whether there is what each call is on. The answer may be no where a call is on an atomic, and neither loads nor adds.
pub(crate) fn are_on(objects: &Objects, lists: &[Seq<Item>]) -> bool
    ensures { result ≡ true → AreOn (contents_of objects.now) (calls_in lists.now) }
{
    for items in lists {
        if !list_is_on(objects, items.as_slice()) {
            return false;
        }
    }
    true
}

fn list_is_on(objects: &Objects, items: &[Item]) -> bool
    ensures { result ≡ true → ((j : ℕ) (x : Item) → slice_get items.now j ≡ Some x → IsOn (contents_of objects.now) x.call) }
{
    for item in items {
        if !is_on(objects, &item.call) {
            return false;
        }
    }
    true
}

fn is_on(objects: &Objects, call: &SharedCall) -> bool
    ensures { result ≡ true → IsOn (contents_of objects.now) call.now }
{
    match call {
        SharedCall::Map { map, .. } | SharedCall::Begin { map } => {
            (*map as usize) < objects.maps.len()
        }
        SharedCall::Next { .. } => true,
        SharedCall::Atomic { atomic, call } => {
            let atomic = *atomic as usize;
            atomic < objects.numbers.len()
                && objects.numbers[atomic].kind() == AtomicKind::Int64
                && loads_or_adds(*call)
        }
    }
}

// Whether a call on an int64 loads or adds.
fn loads_or_adds(call: AtomicCall) -> bool
    ensures { result ≡ true → is_atomic_call AtomicKind.Int64 call ≡ true }
{
    matches!(
        call,
        AtomicCall::Load
            | AtomicCall::Add {
                operand: Number::Int64(_)
            }
    )
}
