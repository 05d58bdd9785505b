//! Which workers were started, as a pure machine: what each event does and what it answers, with no thread. It is what
//! `WaitGroup.Go` stands on, where workers wait to be started.
#![tactic(auto)]

pub mod laws;
pub mod protocol;
pub mod starts;

pub use protocol::{StartsOutcome, StartsStage};
pub use starts::{StartEvent, StartPlace, StartReply, StartsCore};
