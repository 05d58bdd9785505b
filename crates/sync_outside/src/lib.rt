//! The outside world as a program meets it: what it reads, what it writes, what time it is, and who starts its threads. Each
//! trait says when a call may fail, and beside it stands a fake. The real starting of threads is here too; the real files,
//! streams and clock are in `system_io`.
#![tactic(auto)]

pub mod at;
pub mod clock;
pub mod count;
pub mod counted;
mod failing_calls;
pub mod fault;
pub mod gate;
pub mod hold_gate;
pub mod mem_clock;
pub mod mem_file;
pub mod mem_sink;
pub mod mem_sources;
pub mod open_gate;
pub mod refuse_start;
pub mod sink;
pub mod sources;
pub mod spawner;
pub mod start_counts;
mod starting;
pub mod thread_spawner;
pub mod work;

pub use at::At;
pub use clock::Clock;
pub use count::Count;
pub use counted::{Refusal, Round};
pub use fault::{Failed, OpenFault};
pub use gate::Gate;
pub use hold_gate::HoldGate;
pub use mem_clock::MemClock;
pub use mem_file::MemFile;
pub use mem_sink::MemSink;
pub use mem_sources::MemSources;
pub use open_gate::OpenGate;
pub use refuse_start::RefuseStart;
pub use sink::Sink;
pub use sources::Sources;
pub use spawner::{Spawner, Started};
pub use start_counts::StartCounts;
pub use thread_spawner::ThreadSpawner;
pub use work::Work;
