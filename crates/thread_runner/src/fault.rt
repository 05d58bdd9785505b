//! Why a run by threads comes to nothing.
ghost use Rattle.std.specs.Prelude.{◌≡◌};
ghost use Rattle.thread_runner.specs.declared.fault.RunFault.TheVariants as faults;

use std::alloc::AllocError;
use thiserror::Error;

/// Why no outcome of a run by threads is known.
#[derive(Debug, Drop, Error)]
pub enum RunFault {
    /// The start of a thread was refused. No worker made a call.
    #[error("cannot start the workers")]
    StartRefused,
    /// There was not enough memory.
    #[error("out of memory")]
    Memory,
}

impl From<AllocError> for RunFault {
    ghost from_gives = { λ _ e. e ≡ faults.Memory };

    fn from(_error: AllocError) -> RunFault {
        RunFault::Memory
    }
}
