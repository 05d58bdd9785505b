//! Whether a step of a cursor shows what it may.
ghost use Rattle.std.specs.Prelude.{◌≡◌, ◌↔◌, ℕ, ◌^◌, ◌<◌, ◌≤◌, IsTrue, Some, None, slice_get, length};
ghost use Rattle.sync_model.specs.declared.item.SharedEntry.{SharedEntry};
ghost use Rattle.sync_model.specs.SharedCalls.{IsUnshown};
ghost use Rattle.sync_model.specs.SharedHistory.{value_at};
ghost use Rattle.shared_checks.specs.Placing.{contents_of};
ghost use Rattle.shared_checks.specs.Showing.{Shows, key_on, IsAbove, IsBegunBy, MayMiss, MayShowBetween};

use crate::objects::Objects;
use crate::stood::stood_between;
use sync_model::{Item, SharedCall, SharedEntry, SharedReply};

/// A step of a cursor over a map: which call began the cursor, the step's number, and the lengths of the history between which
/// stood what it may show.
#[derive(Clone, Copy)]
pub struct Step {
    pub begin: u64,
    pub map: u32,
    pub index: usize,
    pub from: usize,
    pub reach: usize,
}

/// Whether a step of a cursor may show this pair, or that no key is left. No key is there at the start.
pub fn may_show(
    objects: &Objects,
    history: &[SharedEntry],
    items: &[Item],
    step: Step,
    shown: Option<(u32, u64)>,
) -> bool
    requires there { step.map < length objects.now.maps.items }
    requires reach { step.reach ≤ length history.now }
    requires order { step.from ≤ step.reach }
    requires index { step.index ≤ length items.now }
    requires begun { IsBegunBy items.now step.begin }
    requires empty { (key : ℕ) → value_at (contents_of objects.now) step.map key ≡ None }
    ensures { IsTrue result ↔ MayShowBetween (contents_of objects.now) history.now items.now step.begin step.map step.from step.index step.reach shown }
{
    let Some((key, value)) = shown else {
        return misses_none(objects, history, items, step);
    };
    is_unshown(items, step.begin, step.index, key)
        && stood_between(
            objects,
            history,
            step.from,
            step.reach,
            step.map,
            key,
            Some(value),
        )
}

// Whether each key that wasn't shown was absent at some length. A key above those that entries name was never there.
fn misses_none(objects: &Objects, history: &[SharedEntry], items: &[Item], step: Step) -> bool
    requires there { step.map < length objects.now.maps.items }
    requires reach { step.reach ≤ length history.now }
    requires order { step.from ≤ step.reach }
    requires index { step.index ≤ length items.now }
    requires begun { IsBegunBy items.now step.begin }
    requires empty { (key : ℕ) → value_at (contents_of objects.now) step.map key ≡ None }
    ensures { IsTrue result ↔ ((key : ℕ) → MayMiss (contents_of objects.now) history.now items.now step.begin step.map step.from step.index step.reach key) }
{
    for key in 0..key_bound(step.map, history) {
        if !may_miss(objects, history, items, step, key as u32) {
            return false;
        }
    }
    true
}

// A number above each key of a map that an entry names. Keys are numbered from 0, so there are about as many.
fn key_bound(map: u32, history: &[SharedEntry]) -> u64
    ensures small { result ≤ 2 ^ 32 }
    ensures above { (k : ℕ) (entry : SharedEntry) → slice_get history.now k ≡ Some entry → IsAbove map result entry }
{
    let mut bound = 0;
    for entry in history {
        bound = raised(map, entry, bound);
    }
    bound
}

// A number so great as this one, and above the key of a map that an entry names.
fn raised(map: u32, entry: &SharedEntry, bound: u64) -> u64
    requires { bound ≤ 2 ^ 32 }
    ensures small { result ≤ 2 ^ 32 }
    ensures keeps { bound ≤ result }
    ensures above { IsAbove map result entry.now }
{
    match key_on(map, &entry.call) {
        Some(key) => (u64::from(key) + 1).max(bound),
        None => bound,
    }
}

// Whether a key was shown, or was absent at some length.
fn may_miss(
    objects: &Objects,
    history: &[SharedEntry],
    items: &[Item],
    step: Step,
    key: u32,
) -> bool
    requires there { step.map < length objects.now.maps.items }
    requires reach { step.reach ≤ length history.now }
    requires index { step.index ≤ length items.now }
    requires begun { IsBegunBy items.now step.begin }
    ensures { IsTrue result ↔ MayMiss (contents_of objects.now) history.now items.now step.begin step.map step.from step.index step.reach key }
{
    if is_unshown(items, step.begin, step.index, key) {
        stood_between(objects, history, step.from, step.reach, step.map, key, None)
    } else {
        true
    }
}

// Whether no step before one of the cursor that call number `begin` began showed this key.
fn is_unshown(items: &[Item], begin: u64, index: usize, key: u32) -> bool
    requires index { index ≤ length items.now }
    requires begun { IsBegunBy items.now begin }
    ensures { IsTrue result ↔ IsUnshown items.now begin index key }
{
    for step in begin as usize..index {
        if shows(&items[step], begin, key) {
            return false;
        }
    }
    true
}

// Whether a call is a step of a cursor, and showed this key.
fn shows(item: &Item, begin: u64, key: u32) -> bool
    ensures { IsTrue result ↔ Shows item.now begin key }
{
    let SharedCall::Next { begin: of } = item.call else {
        return false;
    };
    let SharedReply::Shown(shown) = item.reply else {
        return false;
    };
    let Some((named, _)) = shown else {
        return false;
    };
    of == begin && named == key
}

// The key of a map that a call names.
fn key_on(map: u32, call: &SharedCall) -> Option<u32>
    ensures { result ≡ key_on map call.now }
{
    match call {
        SharedCall::Map { map: on, call } => {
            if *on == map {
                call.key().copied()
            } else {
                None
            }
        }
        SharedCall::Begin { .. } | SharedCall::Next { .. } | SharedCall::Atomic { .. } => None,
    }
}
