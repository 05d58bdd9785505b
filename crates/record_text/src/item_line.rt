//! What the line of an item says.
use crate::answer::AnswerWord;
use crate::event::EventWord;
use sync_types::Seq;

/// What the line of an item says of it, and no more.
#[derive(Drop)]
pub struct ItemLine {
    /// The worker who made the item.
    pub worker: u32,
    /// The place in the worker's script of the call that the item belongs to, or `None` where it belongs to none.
    pub index: Option<usize>,
    /// The worker's front: of a shared call before it, of an entry of a journal after it. It has a number for each worker.
    pub front: Seq<u64>,
    /// What the item is.
    pub said: Said,
}

/// What an item is, as its line says it.
#[derive(Clone, Copy, Debug, PartialEq, Eq)]
pub enum Said {
    /// A call on a map or an atomic: how many entries of the history lie before it, and what it replies.
    Call {
        place: u64,
        reply: PlacedReply,
    },
    /// A cursor begins: how many entries of the history lie before it.
    Begin {
        reach: u64,
    },
    /// A step of the cursor that the worker began last: its reach, and the key that it shows, by number, with the value; or `None`.
    Next {
        reach: u64,
        shown: Option<(u32, u64)>,
    },
    /// An entry of the journal of the object with this number, which is object 0 for Stop: its place there, what was done, and the
    /// answer.
    Entered {
        object: usize,
        number: u64,
        event: EventWord,
        answer: AnswerWord,
    },
}

/// What a call on a map or an atomic replies, as its line says it. It doesn't say of which type a number is.
#[derive(Clone, Copy, Debug, PartialEq, Eq)]
pub enum PlacedReply {
    /// `ok`.
    Done,
    /// `- false`: there was no value.
    Absent,
    /// `V true` or `V false`: this value, and whether it was there.
    Valued { value: u64, was_there: bool },
    /// `true` or `false`.
    Truth(bool),
    /// A number.
    Number(Whole),
}

/// A number from -2^63 to 2^64 - 1.
#[derive(Clone, Copy, Debug, PartialEq, Eq)]
pub enum Whole {
    /// This number.
    Natural(u64),
    /// This number below 0, which is 1 to 2^63.
    Below(u64),
}
