//! What a run by schedule leaves as a record.
use sync_types::Misuse;

/// The record of a run by schedule, as a text; or why there is none.
#[derive(Drop)]
pub enum Recorded {
    /// The text of the record.
    Text(Vec<u8>),
    /// The text passes a limit: more than 40,000 items, a line of more than 400 bytes behind the line `record`, or more than
    /// 16,777,216 bytes.
    TooLong,
    /// A call was a misuse.
    Misused(Misuse),
    /// Nobody could make an event while a script had calls left.
    Deadlocked,
}
