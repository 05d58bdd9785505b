//! What an object answered, as the line of an entry says it.
use sync_types::Misuse;

/// What an object answered, in the word of its line.
#[derive(Clone, Copy, Debug, PartialEq, Eq)]
pub enum AnswerWord {
    /// `acquired`.
    Acquired,
    /// `queued`.
    Queued,
    /// `requeued`.
    Requeued,
    /// `still`.
    Still,
    /// `true` or `false`: whether a lock was had, or whether a flight was shared.
    Tried(bool),
    /// `free`.
    Free,
    /// `woke=I`.
    Woke { worker: u32 },
    /// `handed=I`.
    Handed { worker: u32 },
    /// `m1` to `m6`.
    Misused(Misuse),
    /// `ok`.
    Done,
    /// `run`.
    Run,
    /// `done`.
    Ran,
    /// `item=V`.
    Item { item: u64 },
    /// `none`.
    Nothing,
    /// `refused`.
    Refused,
    /// `lead`.
    Lead,
    /// `left=X`.
    Left { value: i64 },
    /// `go`.
    Go,
    /// `never`.
    Never,
    /// `halted=M`.
    Halted(Misuse),
}

/// The answers that an event may have.
#[derive(Clone, Copy, Debug, PartialEq, Eq)]
pub enum AnswerRow {
    /// `acquired queued`.
    Arrival,
    /// `true false`.
    Trial,
    /// `free woke=I handed=I m1`.
    MutexUnlock,
    /// `acquired requeued still`.
    MutexWoken,
    /// `ok m2`.
    ReadUnlock,
    /// `ok m3`.
    WriteUnlock,
    /// `acquired queued requeued still`.
    WriteWoken,
    /// `ok still`.
    Leaving,
    /// `ok`.
    Made,
    /// `ok m4`.
    Addition,
    /// `ok queued`.
    Waiting,
    /// `ok m5 still`.
    GroupLeaving,
    /// `run queued done`.
    Beginning,
    /// `item=V none`.
    Look,
    /// `ok refused`.
    WeightTrial,
    /// `ok m6`.
    WeightRelease,
    /// `lead queued`.
    Joining,
    /// `left=X still`.
    FlightLeaving,
    /// `go never still`.
    StartLeaving,
    /// `ok`, and nothing that a halt answers.
    Halt,
}
