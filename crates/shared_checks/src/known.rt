//! How much of the history a front knows of.
ghost use Rattle.std.specs.Prelude.{◌≡◌, ℕ, ◌^◌, ◌<◌, ◌≤◌, Some, slice_get, length, take};
ghost use Rattle.sync_model.specs.SharedCalls.{bound};
ghost use Rattle.shared_checks.specs.Calls.{calls_in};
ghost use Rattle.shared_checks.specs.Fronts.{CountsMade, LawfulFronts, bound_of, known};

use crate::fronts::next_count;
use std::collections::LinkedList;
use sync_model::Item;
use sync_types::Seq;

/// How much of the history a front knows of, where the front counts calls that were made, and the calls keep the front law. Then
/// of each caller the last call that is counted has the greatest bound.
pub fn known_of(lists: &[Seq<Item>], front: &LinkedList<u64>) -> u64
    requires fronts { LawfulFronts (calls_in lists.now) }
    requires made { CountsMade (calls_in lists.now) front.now }
    requires small { (c j : ℕ) (x : Item) → slice_get (calls_in lists.now c) j ≡ Some x → bound x < 2 ^ 64 }
    ensures { result ≡ known lists.now front.now }
{
    let mut most = 0;
    let mut counts = front.iter();
    for items in lists {
        let count = next_count(&mut counts);
        most = last_bound(items.as_slice(), count).max(most);
    }
    most
}

// The greatest bound of so many calls of a caller: that of the last one.
fn last_bound(items: &[Item], count: u64) -> u64
    requires order { (i j : ℕ) (x y : Item) → i < j → slice_get items.now i ≡ Some x → slice_get items.now j ≡ Some y → bound x ≤ y.place }
    requires made { count ≤ length items.now }
    requires small { (j : ℕ) (x : Item) → slice_get items.now j ≡ Some x → bound x < 2 ^ 64 }
    ensures { result ≡ bound_of (take count items.now) }
{
    if count == 0 {
        return 0;
    }
    bound_at(&items[count as usize - 1])
}

// How much of the history lies before all that comes after a call.
fn bound_at(item: &Item) -> u64
    requires { bound item.now < 2 ^ 64 }
    ensures { result ≡ bound item.now }
{
    if item.entry {
        item.place + 1
    } else {
        item.place
    }
}
