//! Lists out of the text of a record.
use crate::deeds::{Kept, deed_of};
use crate::placed::{map_of, placed_call};
use object_checks::journals::JournalItem;
use record_text::{ItemLine, Said};
use run_record::Made;
use script_calls::Call;
use std::alloc::{AllocError, Global};
use std::collections::LinkedList;
use sync_model::{Entry, Item, SharedCall, SharedReply};
use sync_types::{AtomicReply, Number, Seq};
use workload::Workload;

/// The text of a record that is done, of this workload and with these items.
pub(crate) fn text_of(alloc: Global, workload: &[u8], items: &[u8]) -> Result<Vec<u8>, AllocError> {
    let mut text = Vec::from_slice(alloc, workload)?;
    text.extend_from_slice(b"record\n")?;
    text.extend_from_slice(items)?;
    text.extend_from_slice(b"outcome done\n")?;
    Ok(text)
}

/// How far a worker's list is made.
#[derive(Drop)]
pub(crate) struct Progress {
    // How many calls on maps and atomics it has, and which of them began the last cursor.
    shared: u64,
    begin: u64,
    // What the last call on an int64 answered.
    sum: i64,
}

/// A worker's list, or nothing where a line says what no item is.
pub(crate) fn made_list(
    alloc: Global,
    workload: &Workload,
    items: &[ItemLine],
    worker: u32,
) -> Result<Option<Vec<Made>>, AllocError> {
    let mut list = Vec::new(alloc);
    let mut progress = Progress {
        shared: 0,
        begin: 0,
        sum: 0,
    };
    for item in items {
        if item.worker == worker {
            let Some(made) = made_of(alloc, workload, item, &mut progress)? else {
                return Ok(None);
            };
            list.push(made)?;
        }
    }
    Ok(Some(list))
}

fn made_of(
    alloc: Global,
    workload: &Workload,
    item: &ItemLine,
    progress: &mut Progress,
) -> Result<Option<Made>, AllocError> {
    let front = front_of(alloc, item.front.as_slice())?;
    if let Said::Entered {
        object,
        number: _,
        event,
        answer,
    } = item.said
    {
        let kept = Kept { sum: progress.sum };
        let Some(deed) = deed_of(workload, item.worker, object, event, answer, kept) else {
            return Ok(None);
        };
        let entry = Entry {
            caller: item.worker,
            deed,
            front,
            knew: 0,
            time: 0,
        };
        return Ok(Some(Made::Entered { object, entry }));
    }
    let Some((call, reply, place)) = shared_of(workload, item, progress) else {
        return Ok(None);
    };
    Ok(Some(Made::Shared(Item {
        call,
        reply,
        place,
        entry: false,
        front,
    })))
}

fn front_of(alloc: Global, counts: &[u64]) -> Result<LinkedList<u64>, AllocError> {
    let mut front = LinkedList::new(alloc);
    for count in counts {
        front.push_back(*count)?;
    }
    Ok(front)
}

// The call of the script that an item is of.
fn call_of<'a>(workload: &'a Workload, item: &ItemLine) -> Option<&'a Call> {
    if item.worker >= workload.workers() {
        return None;
    }
    workload.script(item.worker).get(item.index?)
}

// A call on a map or an atomic, or a step of a cursor, with its place.
fn shared_of(
    workload: &Workload,
    item: &ItemLine,
    progress: &mut Progress,
) -> Option<(SharedCall, SharedReply, u64)> {
    let call = call_of(workload, item)?;
    let number = progress.shared;
    progress.shared = number.wrapping_add(1);
    match item.said {
        Said::Call { place, reply } => {
            let (call, reply) = placed_call(workload, call, reply)?;
            if let SharedReply::Atomic(AtomicReply::Held(Number::Int64(sum))) = reply {
                progress.sum = sum;
            }
            Some((call, reply, place))
        }
        Said::Begin { reach } => {
            progress.begin = number;
            let map = map_of(workload, call);
            Some((SharedCall::Begin { map }, SharedReply::Begun, reach))
        }
        Said::Next { reach, shown } => {
            let begin = progress.begin;
            Some((SharedCall::Next { begin }, SharedReply::Shown(shown), reach))
        }
        Said::Entered { .. } => None,
    }
}

/// Each worker's entries, or nothing where a line says what no item is.
pub(crate) fn entry_lists(
    alloc: Global,
    workload: &Workload,
    items: &[ItemLine],
) -> Result<Option<Vec<Seq<JournalItem>>>, AllocError> {
    let mut lists = Vec::new(alloc);
    for worker in 0..workload.workers() {
        let Some(list) = entry_list(alloc, workload, items, worker)? else {
            return Ok(None);
        };
        lists.push(list)?;
    }
    Ok(Some(lists))
}

fn entry_list(
    alloc: Global,
    workload: &Workload,
    items: &[ItemLine],
    worker: u32,
) -> Result<Option<Seq<JournalItem>>, AllocError> {
    let mut list = Seq::new(alloc);
    for item in items {
        if item.worker == worker {
            let Some(made) = entry_of(alloc, workload, item)? else {
                return Ok(None);
            };
            list.push(made)?;
        }
    }
    Ok(Some(list))
}

fn entry_of(
    alloc: Global,
    workload: &Workload,
    item: &ItemLine,
) -> Result<Option<JournalItem>, AllocError> {
    let Said::Entered {
        object,
        number,
        event,
        answer,
    } = item.said
    else {
        return Ok(None);
    };
    let kept = Kept { sum: 0 };
    let Some(deed) = deed_of(workload, item.worker, object, event, answer, kept) else {
        return Ok(None);
    };
    let front = Seq::from_vec(Vec::from_slice(alloc, item.front.as_slice())?);
    Ok(Some(JournalItem {
        object,
        number,
        deed,
        front,
    }))
}
