//! An item's line, as it is written.
ghost use Rattle.std.specs.Prelude.{◌≡◌, ◌+◌, ◌*◌, ◌≤◌, ◌∷◌, length, vec_capacity};
ghost use Rattle.workload.specs.Canonical.{behind_spaces};
ghost use Rattle.workload.specs.Keys.{keys_in};
ghost use Rattle.workload.specs.declared.limits.TheConstants.{MAX_WORKERS};
ghost use Rattle.workload_text.specs.Adding.{Adds, HasRoom};
ghost use Rattle.record_text.specs.AnswerWords.{answer_operand, answer_word};
ghost use Rattle.record_text.specs.EventWords.{event_operand, event_word};
ghost use Rattle.record_text.specs.ItemLines.{index_word, item_text, object_word, reply_words, said_word, said_words, shown_word};
ghost use Rattle.record_text.specs.Journals.{named_in};
ghost use Rattle.record_text.specs.Numbers.{front_word};

use crate::answer::AnswerWord;
use crate::directory::Directory;
use crate::event::EventWord;
use crate::item_line::{ItemLine, PlacedReply, Said};
use crate::limits::RECORD_LINE_ROOM;
use crate::number_writing::{push_front, push_number, push_number_word, push_signed, push_whole};
use crate::word::{misuse_word, truth_word};
use workload::Workload;
use workload::keys::key_name;
use workload_text::{push, push_word};

/// The most bytes behind the index of a line, without its front: the word of an object, a number, an event and an answer.
const SAID_ROOM: usize = 140;

impl Said {
    /// The first word of the line.
    fn word(self) -> &'static [u8]
        ensures word { result.now ≡ said_word self }
        ensures short { length result.now ≤ 5 }
    {
        match self {
            Said::Call { .. } => b"call",
            Said::Begin { .. } => b"begin",
            Said::Next { .. } => b"next",
            Said::Entered { .. } => b"event",
        }
    }
}

/// Adds the place in a script, or `-`, behind a space.
fn push_index(line: &mut Vec<u8>, index: Option<usize>)
    requires { HasRoom line.old 21 }
    ensures { Adds line.old line.new (32 ∷ index_word index) 21 }
{
    match index {
        None => push_word(line, b"-"),
        Some(place) => push_number_word(line, place as u64),
    }
}

/// Adds a front behind a space.
fn push_front_word(line: &mut Vec<u8>, front: &[u64])
    requires { HasRoom line.old (21 * length front.now + 1) }
    ensures { Adds line.old line.new (32 ∷ front_word front.now) (21 * length front.now + 1) }
{
    push(line, b" ");
    push_front(line, front);
}

/// Adds the words of a reply, each behind a space.
fn push_reply(line: &mut Vec<u8>, reply: PlacedReply)
    requires { HasRoom line.old 27 }
    ensures { Adds line.old line.new (behind_spaces (reply_words reply)) 27 }
{
    match reply {
        PlacedReply::Done => push_word(line, b"ok"),
        PlacedReply::Absent => {
            push_word(line, b"-");
            push_word(line, b"false");
        }
        PlacedReply::Valued { value, was_there } => {
            push_number_word(line, value);
            push_word(line, truth_word(was_there));
        }
        PlacedReply::Truth(truth) => push_word(line, truth_word(truth)),
        PlacedReply::Number(number) => {
            push(line, b" ");
            push_whole(line, number);
        }
    }
}

/// Adds what a step of a cursor shows behind a space.
fn push_shown(line: &mut Vec<u8>, workload: &Workload, shown: Option<(u32, u64)>)
    requires { HasRoom line.old 54 }
    ensures { Adds line.old line.new (32 ∷ shown_word (keys_in workload.now.scripts) shown) 54 }
{
    match shown {
        None => push_word(line, b"-"),
        Some((key, value)) => {
            push_word(line, key_name(workload.keys().names(), key));
            push(line, b"=");
            push_number(line, value);
        }
    }
}

/// The word of the object with a number.
#[tactic(auto, using(crate::proofs::WrittenTexts::short_word))]
fn object_word<'a>(workload: &Workload, directory: &'a Directory, object: usize) -> &'a [u8]
    requires { directory.now ≡ named_in workload.now }
    ensures word { result.now ≡ object_word workload.now object }
    ensures short { length result.now ≤ 53 }
{
    // A workload has a text, and so its names are short.
    workload.workers();
    directory.word(object)
}

/// Adds what stands behind the name of an event.
fn push_event_operand(line: &mut Vec<u8>, event: EventWord)
    requires { HasRoom line.old 21 }
    ensures { Adds line.old line.new (event_operand event) 21 }
{
    match event {
        EventWord::Arrive { now }
        | EventWord::Woken { now }
        | EventWord::WriteArrive { now }
        | EventWord::WriteWoken { now } => push_number(line, now),
        EventWord::Add { amount } => push_whole(line, amount),
        EventWord::Put { item } => push_number(line, item),
        EventWord::Acquire { weight }
        | EventWord::TryAcquire { weight }
        | EventWord::Release { weight } => push_number(line, weight),
        EventWord::Join { key } => push_number(line, u64::from(key)),
        EventWord::Land { value } => push_signed(line, value),
        EventWord::Start { worker } => push_number(line, u64::from(worker)),
        EventWord::Halt(misuse) => push(line, misuse_word(misuse)),
        _ => {}
    }
}

/// Adds an event behind a space.
fn push_event(line: &mut Vec<u8>, event: EventWord)
    requires { HasRoom line.old 33 }
    ensures { Adds line.old line.new (32 ∷ event_word event) 33 }
{
    push_word(line, event.name());
    push_event_operand(line, event);
}

/// Adds what stands behind the name of an answer.
fn push_answer_operand(line: &mut Vec<u8>, answer: AnswerWord)
    requires { HasRoom line.old 20 }
    ensures { Adds line.old line.new (answer_operand answer) 20 }
{
    match answer {
        AnswerWord::Woke { worker } | AnswerWord::Handed { worker } => {
            push_number(line, u64::from(worker));
        }
        AnswerWord::Item { item } => push_number(line, item),
        AnswerWord::Left { value } => push_signed(line, value),
        AnswerWord::Halted(misuse) => push(line, misuse_word(misuse)),
        _ => {}
    }
}

/// Adds an answer behind a space.
fn push_answer(line: &mut Vec<u8>, answer: AnswerWord)
    requires { HasRoom line.old 29 }
    ensures { Adds line.old line.new (32 ∷ answer_word answer) 29 }
{
    push_word(line, answer.name());
    push_answer_operand(line, answer);
}

/// Adds the words behind the index, each behind a space.
fn push_said(
    line: &mut Vec<u8>,
    workload: &Workload,
    directory: &Directory,
    front: &[u64],
    said: Said,
)
    requires directory { directory.now ≡ named_in workload.now }
    requires room { HasRoom line.old (21 * length front.now + SAID_ROOM) }
    ensures { Adds line.old line.new (behind_spaces (said_words workload.now (front_word front.now) said)) (21 * length front.now + SAID_ROOM) }
{
    match said {
        Said::Call { place, reply } => {
            push_number_word(line, place);
            push_front_word(line, front);
            push_reply(line, reply);
        }
        Said::Begin { reach } => {
            push_number_word(line, reach);
            push_front_word(line, front);
        }
        Said::Next { reach, shown } => {
            push_number_word(line, reach);
            push_front_word(line, front);
            push_shown(line, workload, shown);
        }
        Said::Entered {
            object,
            number,
            event,
            answer,
        } => {
            push_word(line, object_word(workload, directory, object));
            push_number_word(line, number);
            push_front_word(line, front);
            push_event(line, event);
            push_answer(line, answer);
        }
    }
}

/// Makes the line of an item, without its line feed, for which room is left. It takes no memory: the buffer has room, since a front
/// has at most 32 numbers, and each name at most 32 bytes.
///
/// It is read back as the item, where the item is in range and the line has at most 400 bytes (`is_short_line`).
#[tactic(auto, using(crate::proofs::WrittenTexts::joined_words))]
pub fn set_item_line(
    line: &mut Vec<u8>,
    workload: &Workload,
    directory: &Directory,
    item: &ItemLine,
)
    requires directory { directory.now ≡ named_in workload.now }
    requires few { length item.now.front ≤ MAX_WORKERS }
    requires room { RECORD_LINE_ROOM ≤ vec_capacity line.old }
    ensures line { line.new.items ≡ item_text workload.now item.now }
    ensures end { HasRoom line.new 1 }
    ensures room { vec_capacity line.old ≤ vec_capacity line.new }
{
    line.clear();
    push(line, item.said.word());
    push_number_word(line, u64::from(item.worker));
    push_index(line, item.index);
    push_said(line, workload, directory, item.front.as_slice(), item.said);
}
