//! The line that an item of a record is written as.
ghost use Rattle.std.specs.Prelude.{◌≡◌, IfOk};
ghost use Rattle.record_text.specs.Written.{entry_said, front_in, item_line, made_said, shared_said};

use crate::answer::AnswerWord;
use crate::deed_words::{answer_of, atomic_reply, event_of, map_reply};
use crate::event::EventWord;
use crate::item_line::{ItemLine, Said};
use run_record::{Made, ObjectEvent, ObjectReply};
use std::alloc::{AllocError, Global};
use std::collections::LinkedList;
use sync_model::{Deed, SharedCall, SharedReply};
use sync_types::Seq;

/// What is said of a shared call at its place.
fn shared_said(place: u64, call: SharedCall, reply: SharedReply) -> Option<Said>
    ensures { result ≡ shared_said place call reply }
{
    match (call, reply) {
        (SharedCall::Map { .. }, SharedReply::Map(reply)) => Some(Said::Call {
            place,
            reply: map_reply(reply),
        }),
        (SharedCall::Atomic { .. }, SharedReply::Atomic(reply)) => Some(Said::Call {
            place,
            reply: atomic_reply(reply),
        }),
        (SharedCall::Begin { .. }, SharedReply::Begun) => Some(Said::Begin { reach: place }),
        (SharedCall::Next { .. }, SharedReply::Shown(shown)) => Some(Said::Next {
            reach: place,
            shown,
        }),
        _ => None,
    }
}

/// What is said of an entry of an object's journal, by its number there.
fn entry_said(object: usize, number: u64, deed: Deed<ObjectEvent, ObjectReply>) -> Option<Said>
    ensures { result ≡ entry_said object number deed }
{
    let (event, answer) = match deed {
        Deed::Event(event, reply) => (event_of(event), answer_of(reply)?),
        Deed::Refused(event, misuse) => (event_of(event), AnswerWord::Halted(misuse)),
        Deed::Halt(misuse) => (EventWord::Halt(misuse), AnswerWord::Done),
    };
    Some(Said::Entered {
        object,
        number,
        event,
        answer,
    })
}

/// What is said of an item of a worker's list, which has this number in its object's journal, if it is an entry.
fn made_said(number: u64, made: &Made) -> Option<Said>
    ensures { result ≡ made_said number made.now }
{
    match made {
        Made::Shared(item) => shared_said(item.place, item.call, item.reply),
        Made::Entered { object, entry } => entry_said(*object, number, entry.deed),
    }
}

/// The front of an item, as a list of its own.
fn front_in(alloc: Global, made: &Made) -> Result<Seq<u64>, AllocError>
    ensures { IfOk result (λ front. front ≡ front_in made.now) }
{
    match made {
        Made::Shared(item) => copied(alloc, &item.front),
        Made::Entered { object: _, entry } => copied(alloc, &entry.front),
    }
}

/// The counts of a front, as a list of its own.
fn copied(alloc: Global, front: &LinkedList<u64>) -> Result<Seq<u64>, AllocError>
    ensures { IfOk result (λ copied. copied ≡ front.now) }
{
    let mut copied = Seq::new(alloc);
    for count in front {
        copied.push(*count)?;
    }
    Ok(copied)
}

/// The line that an item of a worker's list is written as. The item belongs to this call of the worker's script, or to none, and
/// has this number in its object's journal, if it is an entry. An item that no objects for one thread answer so has no line.
pub fn item_of(
    alloc: Global,
    worker: u32,
    index: Option<usize>,
    number: u64,
    made: &Made,
) -> Result<Option<ItemLine>, AllocError>
    ensures { IfOk result (λ line. line ≡ item_line worker index number made.now) }
{
    let Some(said) = made_said(number, made) else {
        return Ok(None);
    };
    let front = front_in(alloc, made)?;
    Ok(Some(ItemLine {
        worker,
        index,
        front,
        said,
    }))
}
