//! The items of one worker, object by object.
ghost use Rattle.std.specs.Prelude.{◌≡◌, ◌<◌, ℕ, [], length, map, get_or, IfOk, MatchOption, replicate};
ghost use Rattle.std.specs.List.{filter};
ghost use Rattle.object_checks.specs.JournalItems.{is_on};
ghost use Rattle.object_checks.specs.JournalRows.{IsOnNone};

use crate::journals::item::JournalItem;
use std::alloc::{AllocError, Global};
use sync_types::Seq;

/// For each object one worker's items on it, in order, or nothing where an item is on none of so many objects.
pub fn by_object<'a>(
    alloc: Global,
    items: &'a [JournalItem],
    objects: usize,
) -> Result<Option<Seq<Seq<&'a JournalItem>>>, AllocError>
    ensures { IfOk result (λ found. MatchOption found (IsOnNone objects items.now) (λ rows. (length rows ≡ objects) × ((object : ℕ) → map (λ item. item.now) (get_or rows object []) ≡ filter (is_on object) items.now))) }
{
    let mut rows = empty_rows(alloc, objects)?;
    for item in items {
        if item.object >= rows.len() {
            return Ok(None);
        }
        rows.push_at(item.object, item)?;
    }
    Ok(Some(rows))
}

// So many empty rows.
fn empty_rows<'a>(alloc: Global, objects: usize) -> Result<Seq<Seq<&'a JournalItem>>, AllocError>
    ensures { IfOk result (λ rows. rows ≡ replicate objects []) }
{
    let mut rows = Seq::new(alloc);
    for _ in 0..objects {
        rows.push(Seq::new(alloc))?;
    }
    Ok(rows)
}
