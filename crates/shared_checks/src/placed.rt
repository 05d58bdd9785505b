//! The callers' calls in the order of their places, in which a history is played.
ghost use Rattle.std.specs.Prelude.{◌≡◌, ◌++◌, List, length, IfOk, OnOk};
ghost use Rattle.std.specs.List.Sorted.{IsNonDecreasingBy, IsPermutation};
ghost use Rattle.shared_checks.specs.Placing.{placed_from, all_from, AreAllOf};

use std::alloc::{AllocError, Global};
use sync_model::Item;
use sync_types::Seq;

/// A call: its caller, its number in its caller's list, and its place.
#[derive(Clone, Copy, Debug, Drop, PartialEq, Eq)]
pub struct Placed {
    pub caller: usize,
    pub index: usize,
    pub place: u64,
}

/// All calls in the order of their places.
pub fn by_place(alloc: Global, lists: &[Seq<Item>]) -> Result<Vec<Placed>, AllocError>
    ensures all { IfOk result (λ placed. AreAllOf lists.now placed.items) }
    ensures rise { IfOk result (λ placed. IsNonDecreasingBy (λ p. p.place) placed.items) }
{
    let mut placed = all_placed(alloc, lists)?;
    sort_by_place(&mut placed);
    Ok(placed)
}

// All calls, list by list.
fn all_placed(alloc: Global, lists: &[Seq<Item>]) -> Result<Vec<Placed>, AllocError>
    ensures { IfOk result (λ placed. placed.items ≡ all_from 0 lists.now) }
{
    let mut placed = Vec::new(alloc);
    for (caller, items) in lists.iter().enumerate() {
        push_placed(caller, items.as_slice(), &mut placed)?;
    }
    Ok(placed)
}

fn push_placed(caller: usize, items: &[Item], placed: &mut Vec<Placed>) -> Result<(), AllocError>
    ensures { OnOk result (placed.new.items ≡ placed.old.items ++ placed_from caller 0 items.now) }
{
    for (index, item) in items.iter().enumerate() {
        placed.push(Placed {
            caller,
            index,
            place: item.place,
        })?;
    }
    Ok(())
}

fn sort_by_place(placed: &mut Vec<Placed>)
    ensures same { IsPermutation placed.old.items placed.new.items }
    ensures rise { IsNonDecreasingBy (λ p. p.place) placed.new.items }
{
    placed.sort_unstable_by_key(|one| one.place);
}
