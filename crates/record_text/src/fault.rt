//! Why a text isn't read as that of a record.
ghost use Rattle.std.specs.Prelude.{◌≡◌};
ghost use Rattle.record_text.specs.declared.fault.CheckFault.TheVariants as faults;
ghost use Rattle.record_text.specs.Refused.{fault_of};
ghost use Rattle.record_text.specs.Texts.{reason_text};

use std::alloc::AllocError;
use workload::{ParseFault, Reason};

/// What is wrong with a line, or with the text as a whole.
#[derive(Clone, Copy, Debug, PartialEq, Eq)]
pub enum CheckReason {
    /// What `parse` finds in the lines before the line `record`; or the text has more than 16,777,216 bytes.
    Workload(Reason),
    /// A line behind the line `record` is none of the forms, or passes a limit; or a line is wanting.
    BadRecordLine,
}

/// Why a text isn't read as that of a record.
#[derive(Debug, Drop)]
pub enum CheckFault {
    /// The first fault of the text: its line, counted from 1, or 0 for the text as a whole.
    Refused { line: u32, reason: CheckReason },
    /// There was not enough memory.
    Memory,
}

impl CheckReason {
    /// What the program says of the reason, behind the line's number.
    pub fn text(self) -> &'static str
        ensures { result.now ≡ reason_text self }
    {
        match self {
            CheckReason::Workload(reason) => reason.text(),
            CheckReason::BadRecordLine => "bad record line",
        }
    }
}

impl From<ParseFault> for CheckFault {
    ghost from_gives = { λ fault e. e ≡ fault_of fault };

    fn from(fault: ParseFault) -> CheckFault {
        match fault {
            ParseFault::Refused { line, reason } => CheckFault::Refused {
                line,
                reason: CheckReason::Workload(reason),
            },
            ParseFault::Memory => CheckFault::Memory,
        }
    }
}

impl From<AllocError> for CheckFault {
    ghost from_gives = { λ _ e. e ≡ faults.Memory };

    fn from(_e: AllocError) -> CheckFault {
        CheckFault::Memory
    }
}
