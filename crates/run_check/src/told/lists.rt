//! The list of a worker, out of the lines of a text.
ghost use Rattle.std.specs.Prelude.{◌≡◌, ◌<◌, [], ◌++◌, ◌∷◌, List, length, IfOk, OnOk, MatchOption, Some, None};
ghost use Rattle.run_record.specs.declared.made.Made.{Made};
ghost use Rattle.run_check.specs.ToldItems.{Sketched, kept_by, keep, keep_said, keep_list, list_told, worker_told, along_start, sketch_told};
ghost use Rattle.run_check.specs.ToldLists.{AreParts, bare, halts, parts_with};
ghost use Rattle.record_text.specs.Told.{items_of};

use crate::told::along::Along;
use crate::told::placing::kept_at;
use crate::told::sketch::{Sketch, along_behind, sketch_told};
use object_checks::journals::JournalItem;
use record_text::{EventWord, ItemLine, Said};
use run_record::{Made, ObjectEvent, ObjectReply};
use std::alloc::{AllocError, Global};
use std::collections::LinkedList;
use sync_model::{Deed, Entry, Item};
use sync_types::Seq;
use workload::Workload;

/// The items of a worker's list, part by part.
#[derive(Drop)]
pub struct ToldList {
    /// Of which call of the script each item is, but for halts.
    pub calls: Seq<Option<usize>>,
    /// What spells the calls: the items without halts, and without places, fronts, workers and marks.
    pub spelt: Seq<Made>,
    /// The same with the halts.
    pub all: Seq<Made>,
    /// The calls on maps and atomics. None is marked as an entry.
    pub shared: Seq<Item>,
    /// The entries of journals.
    pub entries: Seq<JournalItem>,
}

// No items.
fn no_items(alloc: Global) -> ToldList
    ensures { AreParts [] result }
{
    ToldList {
        calls: Seq::new(alloc),
        spelt: Seq::new(alloc),
        all: Seq::new(alloc),
        shared: Seq::new(alloc),
        entries: Seq::new(alloc),
    }
}

// A front as a linked list.
fn linked(alloc: Global, front: &[u64]) -> Result<LinkedList<u64>, AllocError>
    ensures { IfOk result (λ linked. linked ≡ front.now) }
{
    let mut linked = LinkedList::new(alloc);
    for count in front {
        linked.push_back(*count)?;
    }
    Ok(linked)
}

fn copied(alloc: Global, front: &[u64]) -> Result<Seq<u64>, AllocError>
    ensures { IfOk result (λ copied. copied ≡ front.now) }
{
    let mut copied = Seq::new(alloc);
    copied.extend_from_slice(front)?;
    Ok(copied)
}

fn halts(deed: Deed<ObjectEvent, ObjectReply>) -> bool
    ensures { result ≡ halts deed }
{
    match deed {
        Deed::Event(_, _) | Deed::Refused(_, _) => false,
        Deed::Halt(_) => true,
    }
}

// An item with nothing but what spells a call.
fn bare(alloc: Global, sketch: Sketch) -> Made
    ensures { result ≡ bare sketch }
{
    match sketch {
        Sketch::Shared(call, reply, _) => Made::Shared(Item {
            call,
            reply,
            place: 0,
            entry: false,
            front: LinkedList::new(alloc),
        }),
        Sketch::Entered(object, _, deed) => Made::Entered {
            object,
            entry: Entry {
                caller: 0,
                deed,
                front: LinkedList::new(alloc),
                knew: 0,
                time: 0,
            },
        },
    }
}

// Adds an item to the parts of a list.
fn add_item(
    alloc: Global,
    index: Option<usize>,
    front: &[u64],
    sketch: Sketch,
    told: &mut ToldList,
) -> Result<(), AllocError>
    ensures { OnOk result (told.new ≡ parts_with told.old (record { index = index; front = front.now; sketch = sketch })) }
{
    match sketch {
        Sketch::Shared(call, reply, place) => {
            told.shared.push(Item {
                call,
                reply,
                place,
                entry: false,
                front: linked(alloc, front)?,
            })?;
            add_spelt(alloc, index, sketch, told)
        }
        Sketch::Entered(object, number, deed) => {
            told.entries.push(JournalItem {
                object,
                number,
                deed,
                front: copied(alloc, front)?,
            })?;
            if halts(deed) {
                told.all.push(bare(alloc, sketch))
            } else {
                add_spelt(alloc, index, sketch, told)
            }
        }
    }
}

// Adds what an item spells, which is no halt.
fn add_spelt(
    alloc: Global,
    index: Option<usize>,
    sketch: Sketch,
    told: &mut ToldList,
) -> Result<(), AllocError>
    ensures { OnOk result (told.new ≡ record { calls = told.old.calls ++ index ∷ []; spelt = told.old.spelt ++ bare sketch ∷ []; all = told.old.all ++ bare sketch ∷ []; shared = told.old.shared; entries = told.old.entries }) }
{
    told.calls.push(index)?;
    told.spelt.push(bare(alloc, sketch))?;
    told.all.push(bare(alloc, sketch))
}

/// The items that a worker's lines say, where each says one.
pub fn list_told(
    alloc: Global,
    workload: &Workload,
    kept: &[(usize, i64)],
    worker: u32,
    items: &[ItemLine],
) -> Result<Option<ToldList>, AllocError>
    requires { worker < workload.now.workers }
    ensures { IfOk result (λ found. MatchOption found (list_told workload.now kept.now worker along_start (items_of items.now worker) ≡ None)
        (λ told. (list : List Sketched) × (list_told workload.now kept.now worker along_start (items_of items.now worker) ≡ Some list) × AreParts list told)) }
{
    let mut told = no_items(alloc);
    let mut along = Along {
        calls: 0,
        begin: 0,
        sum: 0,
    };
    for index in 0..items.len() {
        let line = &items[index];
        if line.worker != worker {
            continue;
        }
        let found = sketch_told(workload, kept, worker, along, line.index, line.said);
        let Some(sketch) = found else {
            return Ok(None);
        };
        add_item(alloc, line.index, line.front.as_slice(), sketch, &mut told)?;
        along = along_behind(along, line.said);
    }
    Ok(Some(told))
}

// What a line tells of what a once keeps, where the worker's last `add` answered this sum.
fn keep_said(kept: &mut Vec<(usize, i64)>, sum: i64, said: Said) -> Result<(), AllocError>
    ensures { OnOk result (kept.new.items ≡ keep_said kept.old.items sum said) }
{
    match said {
        Said::Entered {
            object,
            number: _,
            event: EventWord::End,
            answer: _,
        } => keep(kept, object, sum),
        _ => Ok(()),
    }
}

// The first that is told of an object counts.
fn keep(kept: &mut Vec<(usize, i64)>, object: usize, sum: i64) -> Result<(), AllocError>
    ensures { OnOk result (kept.new.items ≡ keep kept.old.items object sum) }
{
    match kept_at(kept, object) {
        Some(_) => Ok(()),
        None => {
            kept.push((object, sum))?;
            Ok(())
        }
    }
}

// What a worker's list tells.
fn keep_list(
    kept: &mut Vec<(usize, i64)>,
    worker: u32,
    items: &[ItemLine],
) -> Result<(), AllocError>
    ensures { OnOk result (kept.new.items ≡ keep_list kept.old.items along_start (items_of items.now worker)) }
{
    let mut along = Along {
        calls: 0,
        begin: 0,
        sum: 0,
    };
    for index in 0..items.len() {
        let line = &items[index];
        if line.worker != worker {
            continue;
        }
        keep_said(kept, along.sum, line.said)?;
        along = along_behind(along, line.said);
    }
    Ok(())
}

/// What each once keeps, as the lists of the first so many workers tell it: what the `add` before its `end` answered.
pub fn kept_by(
    alloc: Global,
    items: &[ItemLine],
    workers: u32,
) -> Result<Vec<(usize, i64)>, AllocError>
    ensures { IfOk result (λ kept. kept.items ≡ kept_by items.now workers) }
{
    let mut kept = Vec::new(alloc);
    for worker in 0..workers {
        keep_list(&mut kept, worker, items)?;
    }
    Ok(kept)
}
