//! The journals of all objects, out of the workers' lists.
ghost use Rattle.std.specs.Prelude.{◌≡◌, ◌^◌, ◌≤◌, ◌<◌, ℕ, List, [], length, IfOk, MatchOption};
ghost use Rattle.run_record.specs.Record.{ObjectEntry};
ghost use Rattle.object_checks.specs.JournalItems.{AreJournals, IsMerged, items_on, entries_in_row, journals_in};
ghost use Rattle.object_checks.specs.JournalRows.{items_in, IsWithout};

use crate::journals::item::JournalItem;
use crate::journals::merging::merged;
use crate::journals::row::Row;
use crate::journals::rows::by_object;
use std::alloc::{AllocError, Global};
use sync_types::Seq;

/// The journals of so many objects, if the workers' items on each are one by their numbers.
pub fn journals_of<'a>(
    alloc: Global,
    lists: &'a [Seq<JournalItem>],
    objects: usize,
) -> Result<Option<Vec<Seq<Row<'a>>>>, AllocError>
    requires { length lists.now ≤ 2 ^ 32 }
    ensures { IfOk result (λ found. MatchOption found ((journals : List (List ObjectEntry)) → AreJournals lists.now objects journals → ⊥) (λ rows. AreJournals lists.now objects (journals_in rows.items))) }
{
    let Some(tables) = tables_of(alloc, lists, objects)? else {
        return Ok(None);
    };
    let mut journals = Vec::new(alloc);
    for object in 0..objects {
        let Some(journal) = merged(alloc, &tables, object)? else {
            return Ok(None);
        };
        journals.push(journal)?;
    }
    Ok(Some(journals))
}

// Each worker's items, object by object, or nothing where one is on none of so many objects.
fn tables_of<'a>(
    alloc: Global,
    lists: &'a [Seq<JournalItem>],
    objects: usize,
) -> Result<Option<Vec<Seq<Seq<&'a JournalItem>>>>, AllocError>
    ensures { IfOk result (λ found. MatchOption found (IsWithout lists.now objects) (λ tables. (length tables.items ≡ length lists.now) × ((object worker : ℕ) → items_in tables.items object worker ≡ items_on lists.now object worker) × ((object worker : ℕ) → objects ≤ object → items_on lists.now object worker ≡ []))) }
{
    let mut tables = Vec::new(alloc);
    for items in lists {
        let Some(table) = by_object(alloc, items.as_slice(), objects)? else {
            return Ok(None);
        };
        tables.push(table)?;
    }
    Ok(Some(tables))
}
