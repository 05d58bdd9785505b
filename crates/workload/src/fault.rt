//! Why a text is not read.
ghost use Rattle.std.specs.Prelude.{◌≡◌};
ghost use Rattle.workload.specs.declared.fault.ParseFault.TheVariants as faults;
ghost use Rattle.workload.specs.declared.fault.LineFault.TheVariants as line_faults;

use crate::reason::Reason;
use std::alloc::{AllocError, AllocFailed};
use thiserror::Error;

/// Why a text is not read.
#[derive(Debug, Drop, Error)]
pub enum ParseFault {
    /// The first fault of the text: its line, counted from 1, or 0 for the text as a whole.
    #[error("line {line}: {}", .reason.text())]
    Refused { line: u32, reason: Reason },
    /// There was not enough memory.
    #[error("out of memory")]
    Memory,
}

/// Why a line is not read.
#[derive(Debug, Drop)]
pub enum LineFault {
    /// The first check that fails.
    Refused(Reason),
    /// There was not enough memory.
    Memory,
}

impl From<AllocError> for ParseFault {
    ghost from_gives = { λ _ e. e ≡ faults.Memory };

    fn from(_e: AllocError) -> ParseFault {
        ParseFault::Memory
    }
}

impl From<AllocError> for LineFault {
    ghost from_gives = { λ _ e. e ≡ line_faults.Memory };

    fn from(_e: AllocError) -> LineFault {
        LineFault::Memory
    }
}

impl<T: Drop> From<AllocFailed<T>> for LineFault {
    ghost from_gives = { λ _ e. e ≡ line_faults.Memory };

    fn from(_e: AllocFailed<T>) -> LineFault {
        LineFault::Memory
    }
}
