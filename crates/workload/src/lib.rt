//! The grammar of workload texts: what their lines say, which workload a text is read as, where and why one
//! is refused, and the canonical text of a workload.
#![tactic(auto)]

pub mod draft;
pub mod fault;
mod groups;
pub mod keys;
pub mod keyword;
pub mod laws;
pub mod limits;
pub mod line;
pub mod object;
mod puts;
pub mod reason;
pub mod turn;
pub mod workload;

pub use fault::ParseFault;
pub use keys::Keys;
pub use limits::MAX_INPUT;
pub use object::{ObjectKind, ObjectLine, ObjectWord};
pub use reason::Reason;
pub use turn::Turn;
pub use workload::Workload;
