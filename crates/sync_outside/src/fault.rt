//! Why a call on the outside world was refused.
use thiserror::Error;

/// A read or a write that failed, for a cause outside the program.
#[derive(Clone, Copy, Debug, PartialEq, Eq, Error)]
#[error("the call failed")]
pub struct Failed;

/// Why a name was not opened.
#[derive(Clone, Copy, Debug, PartialEq, Eq, Error)]
pub enum OpenFault {
    /// The name can't be opened: it isn't there, or the system refuses it.
    #[error("the name can't be opened")]
    Failed,
    /// Memory is out.
    #[error("out of memory")]
    Memory,
}
