//! How the program ends.
ghost use Rattle.std.specs.Prelude.{◌≡◌};
ghost use Rattle.gosync_call.specs.Messages.{code_of};

use record_clauses::Verdict;
use record_text::CheckReason;
use sync_types::Misuse;
use workload::{Reason, Workload};

/// How a run of a workload ended.
#[derive(Clone, Copy, Debug, PartialEq, Eq)]
pub enum Ending {
    /// Every script has ended.
    Done,
    /// A worker made a misuse.
    Misused(Misuse),
    /// All workers waited.
    Deadlocked,
    /// Every script has ended, and accesses of plain variables raced.
    Raced,
}

/// Why no workload is read from a file, or no record.
#[derive(Clone, Copy, Debug, PartialEq, Eq)]
pub enum Unread {
    /// The text isn't read: the line of its first fault, or 0 for the text as a whole, and the fault.
    NotAccepted { line: u32, reason: Reason },
    /// The text isn't that of a record: the line of its first fault, or 0 for the text as a whole, and the fault.
    NoRecord { line: u32, reason: CheckReason },
    /// The file can't be opened, or a read of it failed.
    CannotRead,
    /// Memory is out.
    Memory,
}

/// Why a workload that was read has no whole report.
#[derive(Clone, Copy, Debug, PartialEq, Eq)]
pub enum Fault {
    /// A write of the report failed. What was written is a first part of it.
    CannotWrite,
    /// The start of a thread was refused. No worker made a call, and nothing is written.
    CannotStart,
    /// Memory is out. Nothing is written.
    Memory,
    /// The record of the run passes a limit of the text of a record. Nothing is written.
    TooLong,
}

/// How the program ends.
#[derive(Clone, Copy, Debug, PartialEq, Eq)]
pub enum Status {
    /// A run ended, and its report is written.
    Ended(Ending),
    /// The record of a run was judged, and the verdict is written.
    Judged(Verdict),
    /// No workload is read, or no record, and nothing is written.
    Unread(Unread),
    /// A workload is read, or a record, and a fault came before what is told of it was written to the end.
    Failed(Fault),
    /// The words of the command aren't taken.
    Usage,
}

impl Status {
    /// The program's exit status, 0 to 7.
    pub fn code(self) -> u8
        ensures { result ≡ code_of self }
    {
        match self {
            Status::Ended(Ending::Done) | Status::Judged(Verdict::Yes) => 0,
            Status::Ended(Ending::Misused(_) | Ending::Deadlocked) => 2,
            Status::Unread(Unread::NotAccepted { .. } | Unread::NoRecord { .. })
            | Status::Failed(Fault::TooLong) => 1,
            Status::Unread(Unread::CannotRead)
            | Status::Failed(Fault::CannotWrite | Fault::CannotStart) => 3,
            Status::Unread(Unread::Memory) | Status::Failed(Fault::Memory) => 4,
            Status::Usage => 5,
            Status::Ended(Ending::Raced) => 6,
            Status::Judged(Verdict::No(_)) => 7,
        }
    }
}

/// What is left to be done before any thread is started.
#[derive(Drop)]
pub enum Front {
    /// Nothing: the program ends so, and has said it.
    Ended(Status),
    /// A workload is to be run with a thread for each worker. Nothing is written yet.
    Run(Workload),
    /// The workload of this seed is to be made and run with a thread for each worker. Nothing is written yet.
    Make(u64),
}
