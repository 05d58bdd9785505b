//! Faults, one at a time: each open and read, each write of the report, and each of the one line; want of memory.
use crate::program::rows::{COND_CALLS, Row, STEP, TWO_CALLS, comes_out, comes_out_on};
use gosync_call::{Fault, Status, Unread, say};
use std::test::Fail;
use sync_outside::MemSink;

// The calls on the source are its open, its reads, of which this text takes two, and the read that finds
// its end.
#[test]
fn each_open_and_read_fails_in_turn(rt: HostRuntime) -> Result<(), Fail> {
    let mut text = String::from_str(rt.alloc(), COND_CALLS)?;
    for _ in 0..100 {
        text.push_str("# a comment of fifty bytes, which fills many lines.\n")?;
    }
    let failing: [&[u64]; 4] = [&[1], &[2], &[3], &[4]];
    for source in failing {
        let row = Row {
            source,
            status: 3,
            message: "gosync: cannot read w.txt\n",
            ..STEP
        };
        assert!(rt; comes_out_on(&rt, rt.alloc(), &text, &row)?, "{source:?}");
    }
    // A fifth call isn't made.
    let row = Row {
        source: &[5],
        report: "0.0 lock m -> ok\n0.1 wait c -> ok\n0.2 unlock m -> ok\n1.0 lock m -> ok\n1.1 signal c -> ok\n1.2 unlock m -> ok\n",
        ..STEP
    };
    assert!(rt; comes_out_on(&rt, rt.alloc(), &text, &row)?);
    Ok(())
}

const UNLOCKED_TWICE: &str = "workers 1\nmutex m\nworker 0\nlock m\nunlock m\nunlock m\n";

const FAILED_WRITES: [(&str, &str, &[u64], &str); 16] = [
    ("gosync step w.txt", TWO_CALLS, &[1], ""),
    (
        "gosync step w.txt",
        TWO_CALLS,
        &[2],
        "0.0 store t apple 5 -> ok\n",
    ),
    (
        "gosync step w.txt",
        TWO_CALLS,
        &[3],
        "0.0 store t apple 5 -> ok\n0.1 load t apple -> 5 true\n",
    ),
    ("gosync step w.txt", COND_CALLS, &[1], ""),
    ("gosync step w.txt", COND_CALLS, &[2], "0.0 lock m -> ok\n"),
    (
        "gosync step w.txt",
        COND_CALLS,
        &[3],
        "0.0 lock m -> ok\n0.1 wait c -> ok\n",
    ),
    (
        "gosync step w.txt",
        COND_CALLS,
        &[4],
        "0.0 lock m -> ok\n0.1 wait c -> ok\n0.2 unlock m -> ok\n",
    ),
    (
        "gosync step w.txt",
        COND_CALLS,
        &[5],
        "0.0 lock m -> ok\n0.1 wait c -> ok\n0.2 unlock m -> ok\n1.0 lock m -> ok\n",
    ),
    (
        "gosync step w.txt",
        COND_CALLS,
        &[6],
        "0.0 lock m -> ok\n0.1 wait c -> ok\n0.2 unlock m -> ok\n1.0 lock m -> ok\n1.1 signal c -> ok\n",
    ),
    // Behind a write that failed there is no text of Go's.
    (
        "gosync step w.txt",
        UNLOCKED_TWICE,
        &[2],
        "0.0 lock m -> ok\n",
    ),
    (
        "gosync run w.txt",
        UNLOCKED_TWICE,
        &[2],
        "0.0 lock m -> ok\n",
    ),
    ("gosync make 7", "", &[1], ""),
    ("gosync make 7", "", &[2], "workers 8\n"),
    ("gosync make 7", "", &[3], "workers 8\ncalls 16000\n"),
    (
        "gosync make 7",
        "",
        &[4],
        "workers 8\ncalls 16000\ntotal 2007240\n",
    ),
    (
        "gosync make 7",
        "",
        &[5],
        "workers 8\ncalls 16000\ntotal 2007240\nkeys 347\n",
    ),
];

// Each line of the report is one write, so the lines before the one that fails are written.
#[test]
fn each_write_fails_in_turn(rt: HostRuntime) -> Result<(), Fail> {
    for &(words, text, out, report) in &FAILED_WRITES {
        let row = Row {
            words,
            text,
            out,
            report,
            status: 3,
            message: "gosync: cannot write the report\n",
            ..STEP
        };
        assert!(rt;
            comes_out(&rt, rt.alloc(), &row)?,
            "{words}: {out:?} of {text}"
        );
    }
    Ok(())
}

const MISUSED: &str = "workers 1\nmutex m\nworker 0\nunlock m\n";

const FAILED_LINES: [(&str, &str, u8, &[u64], &str); 13] = [
    ("gosync step x", "", 3, &[1], ""),
    ("gosync step x", "", 3, &[2], "gosync: cannot read "),
    ("gosync step x", "", 3, &[3], "gosync: cannot read x"),
    ("gosync", "", 5, &[1], ""),
    ("gosync step w.txt", "", 1, &[1], ""),
    ("gosync step w.txt", "", 1, &[2], "gosync: line "),
    ("gosync step w.txt", "", 1, &[3], "gosync: line 1"),
    ("gosync step w.txt", "", 1, &[4], "gosync: line 1: "),
    (
        "gosync step w.txt",
        "",
        1,
        &[5],
        "gosync: line 1: no workers line",
    ),
    // Go's text is two writes.
    ("gosync step w.txt", MISUSED, 2, &[1], ""),
    ("gosync run w.txt", MISUSED, 2, &[1], ""),
    (
        "gosync step w.txt",
        MISUSED,
        2,
        &[2],
        "fatal error: sync: unlock of unlocked mutex",
    ),
    (
        "gosync run w.txt",
        MISUSED,
        2,
        &[2],
        "fatal error: sync: unlock of unlocked mutex",
    ),
];

// A line on the error output is one to five writes. What the first of them writes stays, and the status.
#[test]
fn each_write_of_the_one_line_fails_in_turn(rt: HostRuntime) -> Result<(), Fail> {
    for &(words, text, status, err, message) in &FAILED_LINES {
        let row = Row {
            words,
            text,
            err,
            status,
            message,
            ..STEP
        };
        assert!(rt; comes_out(&rt, rt.alloc(), &row)?, "{words}: {message}");
    }
    Ok(())
}

const STATUSES: [(Status, u8, &str); 3] = [
    (
        Status::Failed(Fault::CannotStart),
        3,
        "gosync: cannot start the workers\n",
    ),
    (Status::Unread(Unread::Memory), 4, "gosync: out of memory\n"),
    (Status::Failed(Fault::Memory), 4, "gosync: out of memory\n"),
];

// The other statuses are those of runs that the built program shows.
#[test]
fn want_of_memory_and_of_threads_is_told(rt: HostRuntime) -> Result<(), Fail> {
    for &(status, code, message) in &STATUSES {
        let mut err = MemSink::new(rt.alloc(), 100, Vec::new(rt.alloc()))?;
        say(&mut err, "w.txt", status);
        assert!(rt; status.code() == code);
        assert!(rt; err.as_bytes() == message.as_bytes());
    }
    Ok(())
}
