//! An item's line.
ghost use Rattle.std.specs.Prelude.{◌≡◌, ◌↔◌, [], codes, IfOk, IsTrue};
ghost use Rattle.record_text.specs.Cuts.{parts_in};
ghost use Rattle.record_text.specs.ItemLines.{is_item, item_words, spaced};
ghost use Rattle.record_text.specs.Journals.{named_in};
ghost use Rattle.record_text.specs.Parts.{AreFive, AreParts, IsLast, IsPlaced, IsSaid};
ghost use Rattle.record_text.specs.Reading.{IsRead};

use crate::answer_reading::read_answer;
use crate::cut::cut_word;
use crate::directory::Directory;
use crate::event_reading::read_event;
use crate::front::read_front;
use crate::item_line::{ItemLine, Said};
use crate::item_words::{read_index, read_reply};
use crate::number::{read_number, read_worker};
use crate::pair::read_shown;
use std::alloc::{AllocError, Global};
use workload::Workload;

/// A line but for the numbers of its front, of which it has the word.
#[derive(Clone, Copy)]
pub struct Parts<'a> {
    worker: u32,
    index: Option<usize>,
    front: &'a [u8],
    said: Said,
}

/// Whether no word is left.
fn is_end(rest: Option<&[u8]>) -> bool
    ensures { IsTrue result ↔ (parts_in 32 rest.entry ≡ []) }
{
    rest.is_none()
}

/// The word that is left, where it is the only one.
fn cut_last(rest: Option<&[u8]>) -> Option<&[u8]>
    ensures { IsLast rest.entry result }
{
    let (word, rest) = cut_word(rest)?;
    if is_end(rest) { Some(word) } else { None }
}

/// The five words that are left.
fn cut_five(rest: Option<&[u8]>) -> Option<(&[u8], &[u8], &[u8], &[u8], &[u8])>
    ensures { AreFive rest.entry result }
{
    let (first, rest) = cut_word(rest)?;
    let (second, rest) = cut_word(rest)?;
    let (third, rest) = cut_word(rest)?;
    let (fourth, rest) = cut_word(rest)?;
    let fifth = cut_last(rest)?;
    Some((first, second, third, fourth, fifth))
}

/// What is said of a call, with the word of its front.
fn read_call<'a>(rest: Option<&'a [u8]>, workload: &Workload) -> Option<(&'a [u8], Said)>
    ensures { IsSaid workload.now (codes "call") rest.entry result }
{
    let (word, rest) = cut_word(rest)?;
    let place = read_number(word)?;
    let (front, rest) = cut_word(rest)?;
    let reply = read_reply(rest)?;
    Some((front, Said::Call { place, reply }))
}

/// What is said of a cursor's begin.
fn read_begin<'a>(rest: Option<&'a [u8]>, workload: &Workload) -> Option<(&'a [u8], Said)>
    ensures { IsSaid workload.now (codes "begin") rest.entry result }
{
    let (word, rest) = cut_word(rest)?;
    let reach = read_number(word)?;
    let front = cut_last(rest)?;
    Some((front, Said::Begin { reach }))
}

/// What is said of a cursor's step.
fn read_next<'a>(rest: Option<&'a [u8]>, workload: &Workload) -> Option<(&'a [u8], Said)>
    ensures { IsSaid workload.now (codes "next") rest.entry result }
{
    let (word, rest) = cut_word(rest)?;
    let reach = read_number(word)?;
    let (front, rest) = cut_word(rest)?;
    let last = cut_last(rest)?;
    let shown = read_shown(last, workload)?;
    Some((front, Said::Next { reach, shown }))
}

/// What is said of an entry of an object's journal.
fn read_entered<'a>(
    rest: Option<&'a [u8]>,
    workload: &Workload,
    directory: &Directory,
) -> Option<(&'a [u8], Said)>
    requires { directory.now ≡ named_in workload.now }
    ensures { IsSaid workload.now (codes "event") rest.entry result }
{
    let (first, second, front, fourth, fifth) = cut_five(rest)?;
    let (object, kind) = directory.find(first)?;
    let number = read_number(second)?;
    let event = read_event(fourth, workload.workers())?;
    let answer = read_answer(fifth, workload.workers())?;
    if kind.has_answer(event, answer) {
        let said = Said::Entered {
            object,
            number,
            event,
            answer,
        };
        Some((front, said))
    } else {
        None
    }
}

/// What the words behind the index say, in a line that begins with this word.
#[tactic(auto, using(crate::proofs::SaidLemmas::no_first, crate::proofs::SaidLemmas::is_first))]
fn read_said<'a>(
    first: &[u8],
    rest: Option<&'a [u8]>,
    workload: &Workload,
    directory: &Directory,
) -> Option<(&'a [u8], Said)>
    requires { directory.now ≡ named_in workload.now }
    ensures { IsSaid workload.now first.now rest.entry result }
{
    if first == b"event".as_slice() {
        return read_entered(rest, workload, directory);
    }
    if first == b"call".as_slice() {
        return read_call(rest, workload);
    }
    if first == b"begin".as_slice() {
        return read_begin(rest, workload);
    }
    if first == b"next".as_slice() {
        return read_next(rest, workload);
    }
    None
}

/// The worker and the index of a line.
fn read_place<'a>(
    rest: Option<&'a [u8]>,
    workload: &Workload,
) -> Option<(u32, Option<usize>, Option<&'a [u8]>)>
    ensures { IsPlaced workload.now rest.entry result }
{
    let (first, rest) = cut_word(rest)?;
    let worker = read_worker(first, workload.workers())?;
    let (second, rest) = cut_word(rest)?;
    let calls = workload.script(worker).len();
    let index = read_index(second, calls)?;
    Some((worker, index, rest))
}

/// The parts of a line.
fn read_parts<'a>(line: &'a [u8], workload: &Workload, directory: &Directory) -> Option<Parts<'a>>
    requires { directory.now ≡ named_in workload.now }
    ensures { AreParts workload.now line.now result }
{
    let (first, rest) = cut_word(Some(line))?;
    let (worker, index, rest) = read_place(rest, workload)?;
    let (front, said) = read_said(first, rest, workload, directory)?;
    Some(Parts {
        worker,
        index,
        front,
        said,
    })
}

/// The item that a line says.
#[tactic(auto, using(crate::proofs::SaidLemmas::no_parts, crate::proofs::SaidLemmas::no_front_in, crate::proofs::SaidLemmas::an_item))]
pub fn read_item(
    alloc: Global,
    line: &[u8],
    workload: &Workload,
    directory: &Directory,
) -> Result<Option<ItemLine>, AllocError>
    requires { directory.now ≡ named_in workload.now }
    ensures { IfOk result (IsRead (is_item workload.now) (item_words workload.now) (spaced line.now)) }
{
    let Some(parts) = read_parts(line, workload, directory) else {
        return Ok(None);
    };
    let Some(front) = read_front(alloc, parts.front, workload.workers() as usize)? else {
        return Ok(None);
    };
    Ok(Some(ItemLine {
        worker: parts.worker,
        index: parts.index,
        front,
        said: parts.said,
    }))
}
