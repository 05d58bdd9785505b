//! The marks of all calls.
ghost use Rattle.std.specs.Prelude.{◌≡◌, ◌^◌, ◌≤◌, length, IfOk, MatchOption};
ghost use Rattle.shared_checks.specs.Calls.{calls_in};
ghost use Rattle.shared_checks.specs.Placing.{contents_of, AreOn};
ghost use Rattle.shared_checks.specs.Marks.{HaveNoHistory, AreMarked, all_marked_from, mark, marked_from, owns};

use crate::finding::entries_among;
use crate::objects::Objects;
use crate::placed::{Placed, by_place};
use std::alloc::{AllocError, Global};
use sync_model::Item;
use sync_types::Seq;

/// The callers' calls, each marked as an entry where it is one, whatever marks they have. The history is played on these objects, and
/// there has to be what each call is on. Nothing, where the calls have no lawful history with any marks. A lawful history they have with
/// no marks but these.
pub fn marked(
    alloc: Global,
    objects: Objects,
    lists: Vec<Seq<Item>>,
) -> Result<Option<Vec<Seq<Item>>>, AllocError>
    requires callers { length lists.items ≤ 2 ^ 32 }
    requires on { AreOn (contents_of objects) (calls_in lists.items) }
    ensures { IfOk result (λ found. MatchOption found (HaveNoHistory (contents_of objects) lists.items) (λ marked. AreMarked (contents_of objects) lists.items marked.items)) }
{
    let placed = by_place(alloc, &lists)?;
    let Some(owners) = entries_among(alloc, objects, &lists, &placed)? else {
        return Ok(None);
    };
    let marked = mark_all(alloc, lists, &owners)?;
    Ok(Some(marked))
}

// All calls, marked by the calls that are entries.
fn mark_all(
    alloc: Global,
    lists: Vec<Seq<Item>>,
    owners: &[Placed],
) -> Result<Vec<Seq<Item>>, AllocError>
    ensures { IfOk result (λ marked. marked.items ≡ all_marked_from owners.now 0 lists.items) }
{
    let mut marked = Vec::new(alloc);
    for items in lists {
        let caller = marked.len();
        marked.push(mark_items(alloc, caller, items, owners)?)?;
    }
    Ok(marked)
}

// A caller's calls.
fn mark_items(
    alloc: Global,
    caller: usize,
    items: Seq<Item>,
    owners: &[Placed],
) -> Result<Seq<Item>, AllocError>
    ensures { IfOk result (λ marked. marked ≡ marked_from owners.now caller 0 items) }
{
    let mut marked = Seq::new(alloc);
    for item in items.into_vec() {
        let index = marked.len();
        marked.push(mark(item, caller, index, owners))?;
    }
    Ok(marked)
}

fn mark(item: Item, caller: usize, index: usize, owners: &[Placed]) -> Item
    ensures { result ≡ mark owners.now caller index item }
{
    let entry = owns(owners, caller, index, item.place);
    Item { entry, ..item }
}

// Whether the call of this caller and number is the entry at a place.
fn owns(owners: &[Placed], caller: usize, index: usize, place: u64) -> bool
    ensures { result ≡ owns owners.now caller index place }
{
    match owners.get(place as usize) {
        None => false,
        Some(owner) => owner.caller == caller && owner.index == index,
    }
}
