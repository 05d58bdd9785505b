//! The line on the error output.
ghost use Rattle.std.specs.Prelude.{◌≡◌, ◌≤◌, []};
ghost use Rattle.std.specs.List.{flat_map};
ghost use Rattle.gosync_call.specs.Messages.{ending_line, refusal_line, unread_line, fault_line, message_of, WritesOut};

use crate::status::{Ending, Fault, Status, Unread};
use itoa::Buffer;
use run_report::pieces::write_pieces;
use sync_outside::Sink;

/// Writes pieces of text, up to the first that fails.
fn say_pieces<E: Sink>(err: &mut E, pieces: &[&[u8]])
    ensures says { WritesOut (E.contents err.old) (E.contents err.new) (E.faults err.old) (E.faults err.new) (flat_map (λ piece. piece.now) pieces.now) }
    ensures faults { E.faults err.old ≤ E.faults err.new }
{
    let _ = write_pieces(err, pieces);
}

/// Writes a text.
fn say_text<E: Sink>(err: &mut E, text: &[u8])
    ensures says { WritesOut (E.contents err.old) (E.contents err.new) (E.faults err.old) (E.faults err.new) text.now }
    ensures faults { E.faults err.old ≤ E.faults err.new }
{
    let _ = err.write(text);
}

/// Says how a run ended, in Go's words; nothing where every script has ended, whether accesses raced or not.
fn say_ending<E: Sink>(err: &mut E, ending: Ending)
    ensures says { WritesOut (E.contents err.old) (E.contents err.new) (E.faults err.old) (E.faults err.new) (ending_line ending) }
    ensures faults { E.faults err.old ≤ E.faults err.new }
{
    match ending {
        Ending::Done | Ending::Raced => {}
        Ending::Misused(misuse) => say_pieces(err, &[misuse.text().as_bytes(), b"\n"]),
        Ending::Deadlocked => {
            say_text(err, b"fatal error: all goroutines are asleep - deadlock!\n")
        }
    }
}

/// Says where a text has its first fault, and which.
fn say_refusal<E: Sink>(err: &mut E, line: u32, reason: &str)
    ensures says { WritesOut (E.contents err.old) (E.contents err.new) (E.faults err.old) (E.faults err.new) (refusal_line line reason.now) }
    ensures faults { E.faults err.old ≤ E.faults err.new }
{
    let mut digits = Buffer::new();
    let line = digits.format(line).as_bytes();
    say_pieces(
        err,
        &[b"gosync: line ", line, b": ", reason.as_bytes(), b"\n"],
    );
}

/// Says why no workload is read from this file, or no record.
fn say_unread<E: Sink>(err: &mut E, file: &str, why: Unread)
    ensures says { WritesOut (E.contents err.old) (E.contents err.new) (E.faults err.old) (E.faults err.new) (unread_line file.now why) }
    ensures faults { E.faults err.old ≤ E.faults err.new }
{
    match why {
        Unread::NotAccepted { line, reason } => say_refusal(err, line, reason.text()),
        Unread::NoRecord { line, reason } => say_refusal(err, line, reason.text()),
        Unread::CannotRead => say_pieces(err, &[b"gosync: cannot read ", file.as_bytes(), b"\n"]),
        Unread::Memory => say_text(err, b"gosync: out of memory\n"),
    }
}

/// Says why there is no whole report.
fn say_fault<E: Sink>(err: &mut E, fault: Fault)
    ensures says { WritesOut (E.contents err.old) (E.contents err.new) (E.faults err.old) (E.faults err.new) (fault_line fault) }
    ensures faults { E.faults err.old ≤ E.faults err.new }
{
    match fault {
        Fault::CannotWrite => say_text(err, b"gosync: cannot write the report\n"),
        Fault::CannotStart => say_text(err, b"gosync: cannot start the workers\n"),
        Fault::Memory => say_text(err, b"gosync: out of memory\n"),
        Fault::TooLong => say_text(err, b"gosync: line 0: record too long\n"),
    }
}

/// Says on the error output how the program ends, of a run of this file. Where a write fails, a first
/// part of the line is written, and nothing else comes of it.
pub fn say<E: Sink>(err: &mut E, file: &str, status: Status)
    ensures says { WritesOut (E.contents err.old) (E.contents err.new) (E.faults err.old) (E.faults err.new) (message_of file.now status) }
    ensures faults { E.faults err.old ≤ E.faults err.new }
{
    match status {
        Status::Ended(ending) => say_ending(err, ending),
        Status::Judged(_) => {}
        Status::Unread(why) => say_unread(err, file, why),
        Status::Failed(fault) => say_fault(err, fault),
        Status::Usage => say_text(
            err,
            b"usage: gosync run FILE | gosync step FILE | gosync make SEED | gosync race FILE | gosync check FILE | gosync trace FILE\n",
        ),
    }
}

/// Says how the program ends behind a run, and answers it.
pub fn say_run<E: Sink>(err: &mut E, status: Status) -> Status
    ensures status { result ≡ status }
    ensures says { WritesOut (E.contents err.old) (E.contents err.new) (E.faults err.old) (E.faults err.new) (message_of [] status) }
    ensures faults { E.faults err.old ≤ E.faults err.new }
{
    say(err, "", status);
    status
}
