//! Which calls are entries, place by place.
ghost use Rattle.std.specs.Prelude.{◌≡◌, ◌+◌, ◌^◌, ◌≤◌, ◌<◌, ℕ, List, true, false, Some, slice_get, length, IfOk, OnOk, MatchOption};
ghost use Rattle.std.specs.List.Sorted.{IsNonDecreasingBy};
ghost use Rattle.sync_model.specs.declared.item.Item.{Item};
ghost use Rattle.sync_model.specs.declared.item.SharedEntry.{SharedEntry};
ghost use Rattle.sync_model.specs.SharedHistory.{is_entry, shared_after, entry_of};
ghost use Rattle.shared_checks.specs.Calls.{calls_in};
ghost use Rattle.shared_checks.specs.Parts.{LawfulHistory};
ghost use Rattle.shared_checks.specs.Placing.{contents_of, IsOn, AreOn, IsCallOf, AreAllOf};
ghost use Rattle.shared_checks.specs.Marks.{AreSameCalls, AreOwnedBy, HaveNoHistory, Takes, LooksAt, Collides};

use crate::objects::Objects;
use crate::placed::Placed;
use std::alloc::{AllocError, Global};
use sync_model::{Item, SharedEntry};
use sync_types::Seq;

/// The calls that are entries, by their places, from all calls in the order of places: each call that sets its object where the
/// entries before its place were made. There are none where two such calls have one place, or where a place is left open: then the
/// calls have no history, whatever marks they have.
pub fn entries_among(
    alloc: Global,
    mut objects: Objects,
    lists: &[Seq<Item>],
    placed: &[Placed],
) -> Result<Option<Vec<Placed>>, AllocError>
    requires callers { length lists.now ≤ 2 ^ 32 }
    requires all { AreAllOf lists.now placed.now }
    requires rise { IsNonDecreasingBy (λ p. p.place) placed.now }
    requires on { AreOn (contents_of objects) (calls_in lists.now) }
    ensures { IfOk result (λ found. MatchOption found (HaveNoHistory (contents_of objects) lists.now)
        (λ owners. (calls : ℕ → List Item) (history : List SharedEntry) → AreSameCalls lists.now calls → LawfulHistory (contents_of objects) history calls → AreOwnedBy owners.items calls)) }
{
    let mut owners = Vec::new(alloc);
    let mut history = Vec::new(alloc);
    let mut made = 0;
    for one in placed {
        if one.place > owners.len() as u64 {
            return Ok(None);
        }
        let place = one.place as usize;
        make_up_to(&mut objects, &history, made, place)?;
        made = place;
        if !look_at(&objects, lists, one, &mut owners, &mut history)? {
            return Ok(None);
        }
    }
    Ok(Some(owners))
}

// Makes the next entry, where it stands before a place.
fn make_up_to(
    objects: &mut Objects,
    history: &[SharedEntry],
    made: usize,
    place: usize,
) -> Result<(), AllocError>
    requires there { place ≤ length history.now }
    requires order { made ≤ place }
    requires near { place ≤ made + 1 }
    requires on { (entry : SharedEntry) → slice_get history.now made ≡ Some entry → IsOn (contents_of objects.old) entry.call }
    requires next { (entry : SharedEntry) → slice_get history.now made ≡ Some entry → is_entry entry.call (contents_of objects.old) ≡ true }
    ensures same { OnOk result (made ≡ place → contents_of objects.new ≡ contents_of objects.old) }
    ensures more { OnOk result ((entry : SharedEntry) → made < place → slice_get history.now made ≡ Some entry → contents_of objects.new ≡ shared_after entry.call (contents_of objects.old)) }
{
    if made < place {
        objects.enter(&history[made].call)?;
    }
    Ok(())
}

// Looks at a call, and takes it in where it is an entry.
fn look_at(
    objects: &Objects,
    lists: &[Seq<Item>],
    one: &Placed,
    owners: &mut Vec<Placed>,
    history: &mut Vec<SharedEntry>,
) -> Result<bool, AllocError>
    requires callers { length lists.now ≤ 2 ^ 32 }
    requires call { IsCallOf lists.now one.now }
    requires on { (x : Item) → slice_get (calls_in lists.now one.now.caller) one.now.index ≡ Some x → IsOn (contents_of objects.now) x.call }
    ensures yes { IfOk result (λ looked. looked ≡ true → LooksAt (contents_of objects.now) lists.now one.now (record { owners = owners.old.items; history = history.old.items }) (record { owners = owners.new.items; history = history.new.items })) }
    ensures no { IfOk result (λ looked. looked ≡ false → Collides (contents_of objects.now) lists.now one.now owners.old.items) }
{
    let item = item_of(lists, one);
    if objects.is_entry(&item.call) {
        take_in(one, item, owners, history)
    } else {
        Ok(true)
    }
}

// Takes in an entry at its place; one that was taken in already is passed over.
fn take_in(
    one: &Placed,
    item: &Item,
    owners: &mut Vec<Placed>,
    history: &mut Vec<SharedEntry>,
) -> Result<bool, AllocError>
    requires { one.now.caller < 2 ^ 32 }
    ensures yes { IfOk result (λ taken. taken ≡ true → Takes one.now item.now (record { owners = owners.old.items; history = history.old.items }) (record { owners = owners.new.items; history = history.new.items })) }
    ensures not_last { IfOk result (λ taken. taken ≡ false → one.now.place ≡ length owners.old.items → ⊥) }
    ensures not_there { IfOk result (λ taken. taken ≡ false → slice_get owners.old.items one.now.place ≡ Some one.now → ⊥) }
{
    let place = one.place as usize;
    if place == owners.len() {
        history.push(SharedEntry {
            caller: one.caller as u32,
            call: item.call,
            reply: item.reply,
        })?;
        owners.push(*one)?;
        return Ok(true);
    }
    Ok(owners.get(place) == Some(one))
}

// The call of this caller and number.
fn item_of<'a>(lists: &'a [Seq<Item>], one: &Placed) -> &'a Item
    requires { IsCallOf lists.now one.now }
    ensures { slice_get (calls_in lists.now one.now.caller) one.now.index ≡ Some result.now }
{
    let items = lists[one.caller].as_slice();
    &items[one.index]
}
