//! What a key of a map had between two lengths of the history.
ghost use Rattle.std.specs.Prelude.{◌≡◌, ◌↔◌, ◌<◌, ◌≤◌, ◌==◌, ℕ, Option, IsTrue, IfSome, true, cond, length};
ghost use Rattle.std.specs.Option.{option_map_or};
ghost use Rattle.sync_types.specs.SequentialMap.{map_key};
ghost use Rattle.sync_types.specs.KeyCalls.{key_after};
ghost use Rattle.sync_model.specs.SharedHistory.{contents_at, value_at};
ghost use Rattle.sync_model.specs.SharedLaws.{is_on_key, value_left};
ghost use Rattle.shared_checks.specs.Parts.{StoodBetween};
ghost use Rattle.shared_checks.specs.Placing.{contents_of};

use crate::objects::Objects;
use sync_model::{SharedCall, SharedEntry};
use sync_types::MapCall;

/// Whether a key of a map had this value, or none, at a length of the history between two. The entries are played to this key
/// alone.
pub fn stood_between(
    objects: &Objects,
    history: &[SharedEntry],
    from: usize,
    to: usize,
    map: u32,
    key: u32,
    value: Option<u64>,
) -> bool
    requires there { map < length objects.now.maps.items }
    requires to { to ≤ length history.now }
    ensures { IsTrue result ↔ StoodBetween (contents_of objects.now) history.now from to map key value }
{
    if from > to {
        return false;
    }
    let mut held = held_at(objects, history, from, map, key);
    for n in from..to {
        if is_same(held, value) {
            return true;
        }
        held = value_after(&history[n], map, key, held);
    }
    is_same(held, value)
}

// What a key has after so many entries. Those behind the last one that sets the key are played, so mostly few.
fn held_at(objects: &Objects, history: &[SharedEntry], at: usize, map: u32, key: u32) -> Option<u64>
    requires there { map < length objects.now.maps.items }
    requires at { at ≤ length history.now }
    ensures { result ≡ value_at (contents_at (contents_of objects.now) history.now at) map key }
{
    let (from, left) = last_set(objects, history, at, map, key);
    let mut held = left;
    for n in from..at {
        held = value_after(&history[n], map, key, held);
    }
    held
}

// A length of the history up to one, and what the key has there: behind the last entry that sets the key, or at the start.
fn last_set(
    objects: &Objects,
    history: &[SharedEntry],
    at: usize,
    map: u32,
    key: u32,
) -> (usize, Option<u64>)
    requires there { map < length objects.now.maps.items }
    requires at { at ≤ length history.now }
    ensures within { result.0 ≤ at }
    ensures is { result.1 ≡ value_at (contents_at (contents_of objects.now) history.now result.0) map key }
{
    for back in 0..at {
        let before = at - back - 1;
        if let Some(left) = set_by(&history[before], map, key) {
            return (before + 1, left);
        }
    }
    (0, objects.maps[map as usize].get(key))
}

// What an entry leaves under a key whatever stood there, if it does.
fn set_by(entry: &SharedEntry, map: u32, key: u32) -> Option<Option<u64>>
    ensures { IfSome result (λ left. (held : Option ℕ) → cond (is_on_key map key entry.now.call) (value_left entry.now.call held) held ≡ left) }
{
    if is_on_key(&entry.call, map, key) {
        left_by(&entry.call)
    } else {
        None
    }
}

// What a call that is on a key leaves there whatever stood there, if it does.
fn left_by(call: &SharedCall) -> Option<Option<u64>>
    ensures { IfSome result (λ left. (held : Option ℕ) → value_left call.now held ≡ left) }
{
    match call {
        SharedCall::Map { call, .. } => left_by_map_call(call),
        SharedCall::Begin { .. } | SharedCall::Next { .. } | SharedCall::Atomic { .. } => None,
    }
}

fn left_by_map_call(call: &MapCall<u32>) -> Option<Option<u64>>
    ensures { IfSome result (λ left. (held : Option ℕ) → key_after call.now held ≡ left) }
{
    match call {
        MapCall::Store { value, .. } | MapCall::Swap { value, .. } => Some(Some(*value)),
        MapCall::LoadAndDelete { .. } | MapCall::Delete { .. } | MapCall::Clear => Some(None),
        MapCall::Load { .. }
        | MapCall::LoadOrStore { .. }
        | MapCall::CompareAndSwap { .. }
        | MapCall::CompareAndDelete { .. } => None,
    }
}

fn is_same(held: Option<u64>, value: Option<u64>) -> bool
    ensures { IsTrue result ↔ (held ≡ value) }
{
    held == value
}

// What a key has after an entry.
fn value_after(entry: &SharedEntry, map: u32, key: u32, held: Option<u64>) -> Option<u64>
    ensures { result ≡ cond (is_on_key map key entry.now.call) (value_left entry.now.call held) held }
{
    if is_on_key(&entry.call, map, key) {
        value_left(&entry.call, held)
    } else {
        held
    }
}

// Whether a call is on this key of this map, or on all its keys.
fn is_on_key(call: &SharedCall, map: u32, key: u32) -> bool
    ensures { result ≡ is_on_key map key call.now }
{
    match call {
        SharedCall::Map { map: on, call } => *on == map && names(call, key),
        SharedCall::Begin { .. } | SharedCall::Next { .. } | SharedCall::Atomic { .. } => false,
    }
}

fn names(call: &MapCall<u32>, key: u32) -> bool
    ensures { result ≡ option_map_or (λ k. k == key) (map_key call.now) true }
{
    match call.key() {
        Some(named) => *named == key,
        None => true,
    }
}

// What a call that is on a key leaves there.
fn value_left(call: &SharedCall, held: Option<u64>) -> Option<u64>
    ensures { result ≡ value_left call.now held }
{
    match call {
        SharedCall::Map { call, .. } => key_after(call, held),
        SharedCall::Begin { .. } | SharedCall::Next { .. } | SharedCall::Atomic { .. } => held,
    }
}

fn key_after(call: &MapCall<u32>, held: Option<u64>) -> Option<u64>
    ensures { result ≡ key_after call.now held }
{
    match call {
        MapCall::Load { .. } => held,
        MapCall::Store { value, .. } | MapCall::Swap { value, .. } => Some(*value),
        MapCall::LoadOrStore { value, .. } => { if held.is_some() { held } else { Some(*value) } }
        MapCall::LoadAndDelete { .. } | MapCall::Delete { .. } | MapCall::Clear => None,
        MapCall::CompareAndSwap { old, new, .. } => {
            if held == Some(*old) { Some(*new) } else { held }
        }
        MapCall::CompareAndDelete { old, .. } => { if held == Some(*old) { None } else { held } }
    }
}
