//! The front law of shared calls: what a caller knew lies behind its call. A front is a vector clock, which counts for each
//! caller the calls that are known.
ghost use Rattle.std.specs.Prelude.{◌≡◌, ◌↔◌, ℕ, ◌+◌, ◌<◌, ◌≤◌, IsTrue, get_or, slice_index, Some, slice_get, [], length};
ghost use Rattle.sync_model.specs.Front.{AtLeast};
ghost use Rattle.sync_model.specs.SharedCalls.{bound, Knows};
ghost use Rattle.shared_checks.specs.Calls.{calls_in};
ghost use Rattle.shared_checks.specs.Fronts.{LawfulFronts, IsInOrder, IsNext, KnowsLast, KnowsEach};

use std::collections::LinkedList;
use std::collections::linked_list::Iter;
use sync_model::Item;
use sync_types::Seq;

/// Whether the callers' calls keep the front law: each lies behind all that its caller knew, and each caller knew all its own
/// earlier calls and forgot nothing.
pub fn keeps_fronts(lists: &[Seq<Item>]) -> bool
    ensures { IsTrue result ↔ LawfulFronts (calls_in lists.now) }
{
    are_in_order(lists) && are_known(lists)
}

// Whether each caller knew its own earlier calls, forgot nothing, and made its calls in the order of places.
fn are_in_order(lists: &[Seq<Item>]) -> bool
    ensures { IsTrue result ↔ ((c : ℕ) → IsInOrder c (calls_in lists.now c)) }
{
    for caller in 0..lists.len() {
        if !is_in_order(caller, lists[caller].as_slice()) {
            return false;
        }
    }
    true
}

fn is_in_order(caller: usize, items: &[Item]) -> bool
    ensures { IsTrue result ↔ IsInOrder caller items.now }
{
    for index in 0..items.len() {
        if !is_next(caller, items, index) {
            return false;
        }
    }
    true
}

// Whether a call may stand behind the one before it in its caller's list.
fn is_next(caller: usize, items: &[Item], index: usize) -> bool
    requires { index < length items.now }
    ensures { IsTrue result ↔ IsNext caller items.now index }
{
    let item = &items[index];
    if count_of(&item.front, caller) != index as u64 {
        return false;
    }
    if index == 0 {
        return true;
    }
    let last = &items[index - 1];
    lies_below(last, item.place) && is_at_least(&item.front, &last.front)
}

/// How many calls of a caller a front counts.
pub fn count_of(front: &LinkedList<u64>, caller: usize) -> u64
    ensures { result ≡ slice_index front.now caller }
{
    front.iter().nth(caller).copied().unwrap_or(0)
}

// Whether a call lies before all that comes at a place: an entry itself is part of it.
fn lies_below(item: &Item, place: u64) -> bool
    ensures { IsTrue result ↔ (bound item.now ≤ place) }
{
    if item.entry {
        item.place < place
    } else {
        item.place <= place
    }
}

/// Whether a front counts, caller by caller, at least what another does.
pub fn is_at_least(front: &LinkedList<u64>, other: &LinkedList<u64>) -> bool
    ensures { IsTrue result ↔ AtLeast front.now other.now }
{
    let mut counts = front.iter();
    for count in other {
        if next_count(&mut counts) < *count {
            return false;
        }
    }
    true
}

/// The next count of a front; 0 where it has none left.
pub fn next_count(counts: &mut Iter<'_, u64>) -> u64
    ensures count { result ≡ slice_index counts.old 0 }
    ensures rest { (caller : ℕ) → slice_index counts.new caller ≡ slice_index counts.old (caller + 1) }
{
    counts.next().copied().unwrap_or(0)
}

// Whether each call lies behind the last ones that its caller knew.
fn are_known(lists: &[Seq<Item>]) -> bool
    ensures { IsTrue result ↔ ((c j : ℕ) (x : Item) → slice_get (calls_in lists.now c) j ≡ Some x → KnowsEach lists.now x.front x.place) }
{
    for items in lists {
        if !are_known_of(lists, items.as_slice()) {
            return false;
        }
    }
    true
}

fn are_known_of(lists: &[Seq<Item>], items: &[Item]) -> bool
    ensures { IsTrue result ↔ ((j : ℕ) (x : Item) → slice_get items.now j ≡ Some x → KnowsEach lists.now x.front x.place) }
{
    for item in items {
        if !is_known(lists, &item.front, item.place) {
            return false;
        }
    }
    true
}

// Whether of each caller the last call that a front counts was made, and lies before a place.
fn is_known(lists: &[Seq<Item>], front: &LinkedList<u64>, place: u64) -> bool
    ensures { IsTrue result ↔ KnowsEach lists.now front.now place }
{
    for (caller, count) in front.iter().enumerate() {
        if !is_known_of(lists, caller, *count, place) {
            return false;
        }
    }
    true
}

fn is_known_of(lists: &[Seq<Item>], caller: usize, count: u64, place: u64) -> bool
    ensures { IsTrue result ↔ KnowsLast (calls_in lists.now caller) count place }
{
    if count == 0 {
        return true;
    }
    let Some(calls) = lists.get(caller) else {
        return false;
    };
    let Some(last) = calls.as_slice().get(count as usize - 1) else {
        return false;
    };
    lies_below(last, place)
}
