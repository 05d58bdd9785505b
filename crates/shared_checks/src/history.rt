//! The history of the callers' calls.
ghost use Rattle.std.specs.Prelude.{◌≡◌, ◌^◌, ◌≤◌, List, length, IfOk, MatchOption};
ghost use Rattle.std.specs.List.Sorted.{IsNonDecreasingBy};
ghost use Rattle.sync_model.specs.declared.item.SharedEntry.{SharedEntry};
ghost use Rattle.shared_checks.specs.Calls.{calls_in};
ghost use Rattle.shared_checks.specs.Parts.{AreEntries, LawfulHistory};
ghost use Rattle.shared_checks.specs.Placing.{contents_of, AreOn, AreAllOf, AreOwners, IsMarked, IsEntryOf};

use crate::objects::Objects;
use crate::owners::owners_of;
use crate::placed::{Placed, by_place};
use crate::playing::are_placed;
use std::alloc::{AllocError, Global};
use sync_model::{Item, SharedEntry};
use sync_types::Seq;

/// The history whose entries are the calls that are marked as entries, if there is one. The callers are at most 2^32.
pub fn history_of(
    alloc: Global,
    lists: &[Seq<Item>],
) -> Result<Option<Vec<SharedEntry>>, AllocError>
    requires { length lists.now ≤ 2 ^ 32 }
    ensures { IfOk result (λ found. MatchOption found ((history : List SharedEntry) → AreEntries history (calls_in lists.now) → ⊥) (λ history. AreEntries history.items (calls_in lists.now))) }
{
    let placed = by_place(alloc, lists)?;
    history_from(alloc, lists, &placed)
}

/// The history of the callers' calls, if it is lawful when it is played on these objects. There has to be what each call is on.
pub fn lawful_history_of(
    alloc: Global,
    objects: Objects,
    lists: &[Seq<Item>],
) -> Result<Option<Vec<SharedEntry>>, AllocError>
    requires callers { length lists.now ≤ 2 ^ 32 }
    requires on { AreOn (contents_of objects) (calls_in lists.now) }
    ensures { IfOk result (λ found. MatchOption found ((history : List SharedEntry) → LawfulHistory (contents_of objects) history (calls_in lists.now) → ⊥) (λ history. LawfulHistory (contents_of objects) history.items (calls_in lists.now))) }
{
    let placed = by_place(alloc, lists)?;
    let Some(history) = history_from(alloc, lists, &placed)? else {
        return Ok(None);
    };
    if are_placed(objects, &history, lists, &placed)? {
        Ok(Some(history))
    } else {
        Ok(None)
    }
}

// The history, from all calls in the order of their places.
fn history_from(
    alloc: Global,
    lists: &[Seq<Item>],
    placed: &[Placed],
) -> Result<Option<Vec<SharedEntry>>, AllocError>
    requires callers { length lists.now ≤ 2 ^ 32 }
    requires all { AreAllOf lists.now placed.now }
    requires rise { IsNonDecreasingBy (λ p. p.place) placed.now }
    ensures { IfOk result (λ found. MatchOption found ((history : List SharedEntry) → AreEntries history (calls_in lists.now) → ⊥) (λ history. AreEntries history.items (calls_in lists.now))) }
{
    let Some(owners) = owners_of(alloc, lists, placed)? else {
        return Ok(None);
    };
    let history = entries_of(alloc, lists, &owners)?;
    Ok(Some(history))
}

// The entries that these calls are.
fn entries_of(
    alloc: Global,
    lists: &[Seq<Item>],
    owners: &[Placed],
) -> Result<Vec<SharedEntry>, AllocError>
    requires callers { length lists.now ≤ 2 ^ 32 }
    requires owners { AreOwners lists.now owners.now }
    ensures { IfOk result (λ history. AreEntries history.items (calls_in lists.now)) }
{
    let mut history = Vec::new(alloc);
    for one in owners {
        if let Some(entry) = entry_at(lists, one) {
            history.push(entry)?;
        }
    }
    Ok(history)
}

// The entry that a call is, where it is marked.
fn entry_at(lists: &[Seq<Item>], one: &Placed) -> Option<SharedEntry>
    requires { length lists.now ≤ 2 ^ 32 }
    ensures { MatchOption result (IsMarked lists.now one.now → ⊥) (IsEntryOf lists.now one.now) }
{
    let items = lists.get(one.caller)?;
    let item = items.as_slice().get(one.index)?;
    if item.place != one.place || !item.entry {
        return None;
    }
    Some(SharedEntry {
        caller: one.caller as u32,
        call: item.call,
        reply: item.reply,
    })
}
