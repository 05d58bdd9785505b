//! The journal of an object, out of each worker's own items on it.
ghost use Rattle.std.specs.Prelude.{◌≡◌, ◌+◌, ◌^◌, ◌<◌, ◌≤◌, ℕ, IsSome, IfSome, [], Some, List, length, map, get_or, set, replicate, slice_get, IfOk, IsTrue, ◌↔◌, MatchOption};
ghost use Rattle.run_record.specs.Record.{ObjectEntry};
ghost use Rattle.object_checks.specs.JournalItems.{IsMerged, entries_in_row};
ghost use Rattle.object_checks.specs.JournalRows.{IsNext, items_in, AreTaken};

use crate::journals::item::JournalItem;
use crate::journals::row::Row;
use std::alloc::{AllocError, Global};
use sync_types::Seq;

/// The entries of an object in one order, in which each has its number, out of the items that each worker made on each object. There
/// is none where a number is missing, stands twice, or doesn't grow along a worker's items.
pub fn merged<'a>(
    alloc: Global,
    tables: &[Seq<Seq<&'a JournalItem>>],
    object: usize,
) -> Result<Option<Seq<Row<'a>>>, AllocError>
    requires { length tables.now ≤ 2 ^ 32 }
    ensures { IfOk result (λ found. MatchOption found ((journal : List ObjectEntry) → IsMerged (items_in tables.now object) journal → ⊥) (λ rows. IsMerged (items_in tables.now object) (entries_in_row rows))) }
{
    let mut heads = no_heads(alloc, tables.len())?;
    let mut rows = Seq::new(alloc);
    while let Some(row) = next_row(tables, object, &heads, rows.len()) {
        rows.push(row)?;
        take_one(&mut heads, row.caller as usize);
    }
    if are_taken(tables, object, &heads) {
        Ok(Some(rows))
    } else {
        Ok(None)
    }
}

// Of each worker's items none is taken.
fn no_heads(alloc: Global, workers: usize) -> Result<Vec<usize>, AllocError>
    ensures { IfOk result (λ heads. heads.items ≡ replicate workers 0) }
{
    let mut heads = Vec::new(alloc);
    for _ in 0..workers {
        heads.push(0)?;
    }
    Ok(heads)
}

// One more of a worker's items is taken.
fn take_one(heads: &mut Vec<usize>, worker: usize)
    requires worker { worker < length heads.old.items }
    requires room { get_or heads.old.items worker 0 + 1 < 2 ^ 64 }
    ensures { heads.new.items ≡ set heads.old.items worker (get_or heads.old.items worker 0 + 1) }
{
    heads[worker] += 1;
}

// The next item of one of the workers, where it has this number. Of each worker's items so many are taken.
fn next_row<'a>(
    tables: &[Seq<Seq<&'a JournalItem>>],
    object: usize,
    heads: &[usize],
    number: usize,
) -> Option<Row<'a>>
    requires callers { length tables.now ≤ 2 ^ 32 }
    requires heads { length heads.now ≡ length tables.now }
    ensures room { IfSome result (λ row. get_or heads.now row.caller 0 + 1 < 2 ^ 64) }
    ensures next { MatchOption result ((worker : ℕ) (item : JournalItem) → IsNext (items_in tables.now object) heads.now number worker item → ⊥) (λ row. IsNext (items_in tables.now object) heads.now number row.caller row.item.now) }
{
    for (worker, table) in tables.iter().enumerate() {
        if let Some(item) = item_at(table.as_slice(), object, heads[worker]) {
            if item.number == number as u64 {
                return Some(Row {
                    caller: worker as u32,
                    item,
                });
            }
        }
    }
    None
}

// The item at a place among those that a worker made on an object.
fn item_at<'a>(
    table: &[Seq<&'a JournalItem>],
    object: usize,
    place: usize,
) -> Option<&'a JournalItem>
    ensures item { MatchOption result (length (get_or table.now object []) ≤ place) (λ item. slice_get (map (λ i. i.now) (get_or table.now object [])) place ≡ Some item.now) }
    ensures room { IsSome result → place + 1 < 2 ^ 64 }
{
    let Some(items) = table.get(object) else {
        return None;
    };
    if place >= items.len() {
        return None;
    }
    Some(items.as_slice()[place])
}

// Whether of each worker's items on an object all are taken.
fn are_taken(tables: &[Seq<Seq<&JournalItem>>], object: usize, heads: &[usize]) -> bool
    requires { length heads.now ≡ length tables.now }
    ensures { IsTrue result ↔ AreTaken (items_in tables.now object) heads.now }
{
    for (worker, table) in tables.iter().enumerate() {
        if let Some(_) = item_at(table.as_slice(), object, heads[worker]) {
            return false;
        }
    }
    true
}
