//! The history is played on objects for one thread, and each call is compared at its place.
ghost use Rattle.std.specs.Prelude.{◌≡◌, ◌↔◌, ℕ, IsTrue, true, false, Some, slice_get, IfOk};
ghost use Rattle.std.specs.List.Sorted.{IsNonDecreasingBy};
ghost use Rattle.sync_model.specs.declared.item.SharedEntry.{SharedEntry};
ghost use Rattle.sync_model.specs.SharedHistory.{contents_after};
ghost use Rattle.shared_checks.specs.Calls.{calls_in};
ghost use Rattle.shared_checks.specs.Parts.{ArePlaced, AreEntries};
ghost use Rattle.shared_checks.specs.Placing.{contents_of, IsOn, AreOn, Stands, IsStopped, IsCallOf, AreAllOf};

use crate::objects::Objects;
use crate::placed::Placed;
use std::alloc::AllocError;
use sync_model::{Item, SharedEntry};
use sync_types::Seq;

/// Whether each call is answered, and is an entry, as by the objects for one thread at its place in the history. All calls stand
/// in the order of their places, and the objects are those that the history starts from.
pub fn are_placed(
    mut objects: Objects,
    history: &[SharedEntry],
    lists: &[Seq<Item>],
    placed: &[Placed],
) -> Result<bool, AllocError>
    requires entries { AreEntries history.now (calls_in lists.now) }
    requires all { AreAllOf lists.now placed.now }
    requires rise { IsNonDecreasingBy (λ p. p.place) placed.now }
    requires on { AreOn (contents_of objects) (calls_in lists.now) }
    ensures { IfOk result (λ are. IsTrue are ↔ ArePlaced (contents_of objects) history.now (calls_in lists.now)) }
{
    let mut made = 0;
    for one in placed {
        let item = item_of(lists, one);
        if one.place > history.len() as u64 {
            return Ok(false);
        }
        let place = one.place as usize;
        if !play(&mut objects, &history[made..place])? {
            return Ok(false);
        }
        if !stands(&objects, item) {
            return Ok(false);
        }
        made = place;
    }
    Ok(true)
}

// Makes these entries one after the other, as long as each is one there.
fn play(objects: &mut Objects, entries: &[SharedEntry]) -> Result<bool, AllocError>
    requires { (k : ℕ) (entry : SharedEntry) → slice_get entries.now k ≡ Some entry → IsOn (contents_of objects.old) entry.call }
    ensures yes { IfOk result (λ played. played ≡ true → contents_of objects.new ≡ contents_after (contents_of objects.old) entries.now) }
    ensures no { IfOk result (λ played. played ≡ false → IsStopped (contents_of objects.old) entries.now) }
{
    for entry in entries {
        if !objects.is_entry(&entry.call) {
            return Ok(false);
        }
        objects.enter(&entry.call)?;
    }
    Ok(true)
}

// Whether a call is answered, and is an entry, as by the objects here.
fn stands(objects: &Objects, item: &Item) -> bool
    requires { IsOn (contents_of objects.now) item.now.call }
    ensures { IsTrue result ↔ Stands (contents_of objects.now) item.now }
{
    objects.answers(&item.call, &item.reply) && item.entry == objects.is_entry(&item.call)
}

// The call of this caller and number.
fn item_of<'a>(lists: &'a [Seq<Item>], one: &Placed) -> &'a Item
    requires { IsCallOf lists.now one.now }
    ensures { slice_get (calls_in lists.now one.now.caller) one.now.index ≡ Some result.now }
{
    let items = lists[one.caller].as_slice();
    &items[one.index]
}
