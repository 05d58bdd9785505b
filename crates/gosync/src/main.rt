//! Runs written workloads over Go's `sync` and `sync/atomic`.
//!
//! This is the program alone: it hands its words, the real files and streams, the machine's clock and its threads to the call
//! `gosync` of the crate `gosync_call`, where all is that the program does, and where its theorem stands.
#![tactic(auto)]

use gosync_call::{Status, Unread, gosync, say};
use std::env;
use std::io::ErrorKind;
use std::process::ExitCode;
use sync_outside::{OpenGate, ThreadSpawner};
use system_io::{SystemClock, SystemSources, WriterSink};

/// The words of the command line. Those that aren't UTF-8 aren't taken.
fn words_of(rt: &HostRuntime) -> Result<Vec<String>, Status> {
    match env::args(rt) {
        Ok(words) => words
            .collect(rt.alloc())
            .map_err(|_| Status::Unread(Unread::Memory)),
        Err(fault) => {
            if fault.kind() == ErrorKind::OutOfMemory {
                Err(Status::Unread(Unread::Memory))
            } else {
                Err(Status::Usage)
            }
        }
    }
}

/// Runs the program on the words of its command line, its files and its standard streams.
fn main(rt: HostRuntime) -> ExitCode {
    let mut src = SystemSources::new(&rt);
    let mut out = WriterSink::new(rt.stdout());
    let mut err = WriterSink::new(rt.stderr());
    let clock = SystemClock::new(&rt);
    let mut spawner = ThreadSpawner::new();
    let status = match words_of(&rt) {
        Ok(words) => gosync(
            &rt,
            rt.alloc(),
            &words,
            &mut src,
            &mut out,
            &mut err,
            &clock,
            &mut spawner,
            &OpenGate,
        ),
        Err(status) => {
            say(&mut err, "", status);
            status
        }
    };
    ExitCode::from(status.code())
}
