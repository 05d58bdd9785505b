//! The real files, streams and clock, behind the traits of `sync_outside`. What they read, write and show is trusted: no clause
//! tells their bytes or moments.
#![tactic(auto)]

pub mod system_clock;
pub mod system_sources;
pub mod writer_sink;

pub use system_clock::SystemClock;
pub use system_sources::SystemSources;
pub use writer_sink::WriterSink;
