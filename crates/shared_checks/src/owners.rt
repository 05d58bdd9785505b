//! Which call each entry of the history is.
ghost use Rattle.std.specs.Prelude.{◌≡◌, ◌≢◌, ◌↔◌, true, false, List, length, Some, slice_get, IsTrue, IfOk, MatchOption};
ghost use Rattle.std.specs.List.Sorted.{IsNonDecreasingBy};
ghost use Rattle.sync_model.specs.declared.item.SharedEntry.{SharedEntry};
ghost use Rattle.shared_checks.specs.Calls.{calls_in};
ghost use Rattle.shared_checks.specs.Parts.{AreEntries};
ghost use Rattle.shared_checks.specs.Placing.{AreAllOf, IsMarked, AreOwners, Takes, GoesOn, MayNotFollow};

use crate::placed::Placed;
use std::alloc::{AllocError, Global};
use sync_model::Item;
use sync_types::Seq;

/// The calls that are marked as entries, by their places, from all calls in the order of places. There are none where two calls
/// have one place, or where a place is left open: then no history has just these entries.
pub fn owners_of(
    alloc: Global,
    lists: &[Seq<Item>],
    placed: &[Placed],
) -> Result<Option<Vec<Placed>>, AllocError>
    requires all { AreAllOf lists.now placed.now }
    requires rise { IsNonDecreasingBy (λ p. p.place) placed.now }
    ensures { IfOk result (λ found. MatchOption found ((history : List SharedEntry) → AreEntries history (calls_in lists.now) → ⊥) (λ owners. AreOwners lists.now owners.items)) }
{
    let mut owners = Vec::new(alloc);
    for one in placed {
        if !go_on(lists, one, &mut owners)? {
            return Ok(None);
        }
    }
    Ok(Some(owners))
}

// Takes in the next call, where it is marked as an entry.
fn go_on(lists: &[Seq<Item>], one: &Placed, owners: &mut Vec<Placed>) -> Result<bool, AllocError>
    ensures yes { IfOk result (λ taken. taken ≡ true → GoesOn lists.now one.now owners.old.items owners.new.items) }
    ensures no { IfOk result (λ taken. taken ≡ false → MayNotFollow lists.now one.now owners.old.items) }
{
    if is_marked(lists, one) {
        take_in(one, owners)
    } else {
        Ok(true)
    }
}

// Whether a call is marked as an entry at its place.
fn is_marked(lists: &[Seq<Item>], one: &Placed) -> bool
    ensures { IsTrue result ↔ IsMarked lists.now one.now }
{
    let Some(items) = lists.get(one.caller) else {
        return false;
    };
    let Some(item) = items.as_slice().get(one.index) else {
        return false;
    };
    item.place == one.place && item.entry
}

// Takes in the next entry; a call that was taken in already is passed over.
fn take_in(one: &Placed, owners: &mut Vec<Placed>) -> Result<bool, AllocError>
    ensures yes { IfOk result (λ taken. taken ≡ true → Takes one.now owners.old.items owners.new.items) }
    ensures no { IfOk result (λ taken. taken ≡ false → one.now.place ≢ length owners.old.items) }
    ensures other { IfOk result (λ taken. taken ≡ false → slice_get owners.old.items one.now.place ≢ Some one.now) }
{
    let place = one.place as usize;
    if place == owners.len() {
        owners.push(*one)?;
        return Ok(true);
    }
    Ok(owners.get(place) == Some(one))
}
