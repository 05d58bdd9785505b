//! Runs with threads.

use crate::program::rows::{Row, STEP, TWO_CALLS, comes_out, matches_row, run_by, run_through};
use std::alloc::{AllocError, Global};
use std::sync::Wait;
use std::sync::atomic::{AtomicU64, Ordering};
use std::test::Fail;
use std::thread::{self, Threads};
use sync_outside::{Clock, Gate, HoldGate, OpenGate, RefuseStart, ThreadSpawner};

const RUN: Row = Row {
    words: "gosync run w.txt",
    ..STEP
};

// Two workers that wait for each other. Run one after the other, they would never end.
const EACH_WAITS: &str =
    "workers 2\nwaitgroup g0 1\nwaitgroup g1 1\nworker 0\ndone g0\nwait g1\nworker 1\ndone g1\nwait g0\n";

// The five lines of seed 7.
const LINES: &str = "workers 8\ncalls 16000\ntotal 2007240\nkeys 347\nsum 3001507156\n";

const CANNOT_START: &str = "gosync: cannot start the workers\n";

const EACH_REPORT: &str =
    "0.0 done g0 -> ok\n0.1 wait g1 -> ok\n1.0 done g1 -> ok\n1.1 wait g0 -> ok\n";

const TWO_REPORT: &str = "0.0 store t apple 5 -> ok\n0.1 load t apple -> 5 true\nend t apple 5\n";

const HELD: [(u32, &str, &str, u64); 4] = [
    (
        0,
        "workers 2\nint64 a\nworker 0\nadd a 1\nworker 1\nadd a 1\n",
        "0.0 add a 1 -> 2\n1.0 add a 1 -> 1\nend a 2\n",
        2,
    ),
    (
        1,
        "workers 2\nint64 a\nworker 0\nadd a 1\nworker 1\nadd a 1\n",
        "0.0 add a 1 -> 1\n1.0 add a 1 -> 2\nend a 2\n",
        2,
    ),
    (
        0,
        "workers 2\nint64 a\nonce o a 5\nworker 0\ndo o\nload a\nworker 1\ndo o\n",
        "0.0 do o -> done\n0.1 load a -> 5\n1.0 do o -> ran 5\nend a 5\n",
        3,
    ),
    (
        1,
        "workers 2\nint64 a\nonce o a 5\nworker 0\ndo o\nload a\nworker 1\ndo o\n",
        "0.0 do o -> ran 5\n0.1 load a -> 5\n1.0 do o -> done\nend a 5\n",
        3,
    ),
];

// The gate holds the first call of one worker until the other's was answered, so the two work beside each other.
#[test]
fn workers_work_beside_each_other(rt: HostRuntime) -> Result<(), Fail> {
    for &(held, text, report, answered) in &HELD {
        let row = Row {
            text,
            report,
            ..RUN
        };
        let mut spawner = ThreadSpawner::new();
        let gate = HoldGate::new(held);
        let ran = run_through(&rt, rt.alloc(), row.text, 1_000, &row, &mut spawner, &gate)?;
        assert!(rt; matches_row(&ran, &row), "{held}: {text}");
        assert!(rt; !gate.has_given_up(), "{held}: {text}");
        assert!(rt; gate.answered() == answered, "{held}: {text}");
    }
    Ok(())
}

// Worker 1 makes the misuse, and its first call is held until that of worker 0 was answered. The others wait for good, unless said.
const MISUSES: [(&str, &str, &str); 8] = [
    (
        "workers 3\nmutex m\nmutex n\nwaitgroup g 1\nworker 0\nlock m\nlock m\nworker 1\nunlock n\nworker 2\nwait g\n",
        "0.0 lock m -> ok\n",
        "fatal error: sync: unlock of unlocked mutex\n",
    ),
    (
        "workers 3\nrwmutex w\nrwmutex v\nwaitgroup g 1\nworker 0\nrlock w\nlock w\nworker 1\nrunlock v\nworker 2\nwait g\n",
        "0.0 rlock w -> ok\n",
        "fatal error: sync: RUnlock of unlocked RWMutex\n",
    ),
    (
        "workers 2\nrwmutex w\nrwmutex v\nworker 0\nlock w\nrlock w\nworker 1\nunlock v\n",
        "0.0 lock w -> ok\n",
        "fatal error: sync: Unlock of unlocked RWMutex\n",
    ),
    (
        "workers 2\nmutex m\ncond c m\nwaitgroup g 0\nworker 0\nlock m\nwait c\nworker 1\ndone g\n",
        "0.0 lock m -> ok\n",
        "panic: sync: negative WaitGroup counter\n",
    ),
    // Who was signalled waits for the mutex.
    (
        "workers 2\nmutex m\ncond c m\nwaitgroup g 0\nworker 0\nlock m\nwait c\nworker 1\nlock m\nsignal c\ndone g\n",
        "0.0 lock m -> ok\n1.0 lock m -> ok\n1.1 signal c -> ok\n",
        "panic: sync: negative WaitGroup counter\n",
    ),
    (
        "workers 4\nmutex m\ncond c m\nwaitgroup g 1\nworker 0\nadd g 1\nwait g\nworker 1\nwait c\nworker 2\nwait g\nworker 3\nwait g\n",
        "0.0 add g 1 -> ok\n",
        "fatal error: sync: unlock of unlocked mutex\n",
    ),
    // Nobody waits for good on these kinds of object. They are halted when their calls have returned.
    (
        "workers 3\nint64 a\nonce o a 5\noncefunc f 3\noncevalue v 9\npool p\nwaitgroup g 1\nwaitgroup h 1\nmutex m\nworker 0\ncall f\nwait g\nworker 1\nwait h\nunlock m\nworker 2\ndo o\ncall f\nvalue v\nput p 1\nget p\ndone h\nwait g\n",
        "0.0 call f -> err 3\n1.0 wait h -> ok\n2.0 do o -> ran 5\n2.1 call f -> err 3\n2.2 value v -> 9\n2.3 put p 1 -> ok\n2.4 get p -> 1 put\n2.5 done h -> ok\n",
        "fatal error: sync: unlock of unlocked mutex\n",
    ),
    // Who calls only maps and atomics goes on to the end of the script.
    (
        "workers 2\nmap t\nint64 a\nmutex m\nworker 0\nstore t k 1\nload t k\nadd a 1\nrange t\nworker 1\nunlock m\n",
        "0.0 store t k 1 -> ok\n0.1 load t k -> 1 true\n0.2 add a 1 -> 1\n0.3 range t -> k=1\n",
        "fatal error: sync: unlock of unlocked mutex\n",
    ),
];

#[test]
fn a_misuse_ends_all_who_wait(rt: HostRuntime) -> Result<(), Fail> {
    for &(text, report, message) in &MISUSES {
        let row = Row {
            text,
            status: 2,
            report,
            message,
            ..RUN
        };
        let mut spawner = ThreadSpawner::new();
        let gate = HoldGate::new(1);
        let ran = run_through(&rt, rt.alloc(), row.text, 1_000, &row, &mut spawner, &gate)?;
        assert!(rt; matches_row(&ran, &row), "{text}");
        assert!(rt; !gate.has_given_up(), "{text}");
    }
    Ok(())
}

const PASSED: [(&str, &str, u8, &str, &str, u64); 4] = [
    ("gosync run w.txt", EACH_WAITS, 0, EACH_REPORT, "", 4),
    (
        "gosync run w.txt",
        "workers 1\nint64 a\nworker 0\nifeq a 1 2\nload a\nload a\nload a\n",
        0,
        "0.0 ifeq a 1 2 -> false\n0.3 load a -> 0\nend a 0\n",
        "",
        2,
    ),
    (
        "gosync run w.txt",
        "workers 1\nmutex m\nworker 0\nunlock m\n",
        2,
        "",
        "fatal error: sync: unlock of unlocked mutex\n",
        1,
    ),
    ("gosync make 7", "", 0, LINES, "", 16_000),
];

// The gate is passed before and after each call, and counts the calls that were answered.
#[test]
fn each_call_passes_the_gate(rt: HostRuntime) -> Result<(), Fail> {
    for &(words, text, status, report, message, answered) in &PASSED {
        let row = Row {
            words,
            text,
            status,
            report,
            message,
            ..RUN
        };
        let mut spawner = ThreadSpawner::new();
        let gate = HoldGate::new(2);
        let ran = run_through(&rt, rt.alloc(), row.text, 1_000, &row, &mut spawner, &gate)?;
        assert!(rt; matches_row(&ran, &row), "{words}: {text}");
        assert!(rt; gate.answered() == answered, "{words}: {text}");
    }
    Ok(())
}

/// A clock that counts how often it is read.
#[derive(Drop)]
struct ReadClock {
    reads: AtomicU64,
}

impl Clock for ReadClock {
    ghost shows = { λ _ _. Unit {0} };

    fn now(&self) -> u64 {
        self.reads.fetch_add(1, Ordering::SeqCst)
    }
}

/// At so many looks a worker that is held back goes on.
const LOOKS: u32 = 1_000_000;

// Holds worker 0 before its call 2 until the clock was read.
#[derive(Drop)]
struct ReadGate<'a> {
    clock: &'a ReadClock,
}

impl<'a> Gate for ReadGate<'a> {
    fn before<R: Wait>(&self, _rt: &R, worker: u32, index: u32) {
        if worker != 0 || index != 2 {
            return;
        }
        for _ in 0..LOOKS {
            if self.clock.reads.load(Ordering::SeqCst) > 0 {
                return;
            }
            thread::yield_now();
        }
    }

    fn after<R: Wait>(&self, _rt: &R, _worker: u32, _index: u32) {}
}

// Runs a row by a clock that counts its reads, and tells whether it came out and whether the clock was read.
fn reads_clock<R: Threads + Wait + Sync>(
    rt: &R,
    alloc: Global,
    row: &Row,
) -> Result<(bool, bool), AllocError> {
    let clock = ReadClock {
        reads: AtomicU64::new(0),
    };
    let gate = ReadGate { clock: &clock };
    let mut spawner = ThreadSpawner::new();
    let ran = run_by(rt, alloc, row.text, 1_000, row, &clock, &mut spawner, &gate)?;
    Ok((
        matches_row(&ran, row),
        clock.reads.load(Ordering::SeqCst) > 0,
    ))
}

// A lock that has to wait reads the clock that was handed in. One that is had at once reads none.
#[test]
fn a_run_reads_its_own_clock(rt: HostRuntime) -> Result<(), Fail> {
    let at_once = Row {
        text: "workers 1\nmutex m\nrwmutex w\nworker 0\nlock m\nlock w\n",
        report: "0.0 lock m -> ok\n0.1 lock w -> ok\n",
        ..RUN
    };
    let waits = Row {
        text: "workers 2\nmutex m\nwaitgroup g 1\nworker 0\nlock m\ndone g\nunlock m\nworker 1\nwait g\nlock m\n",
        report: "0.0 lock m -> ok\n0.1 done g -> ok\n0.2 unlock m -> ok\n1.0 wait g -> ok\n1.1 lock m -> ok\n",
        ..RUN
    };
    let first = reads_clock(&rt, rt.alloc(), &at_once)?;
    assert!(rt; first == (true, false));
    let second = reads_clock(&rt, rt.alloc(), &waits)?;
    assert!(rt; second == (true, true));
    Ok(())
}

// Which start is refused, what comes out, and how many starts were refused, how many jobs were done, and in how many calls.
const REFUSED_STARTS: [(&str, &str, usize, u8, &str, &str, (u64, u64, u64)); 11] = [
    ("gosync run w.txt", "workers 3\n", 0, 0, "", "", (0, 3, 1)),
    (
        "gosync run w.txt",
        "workers 3\n",
        1,
        3,
        "",
        CANNOT_START,
        (1, 0, 0),
    ),
    (
        "gosync run w.txt",
        "workers 3\n",
        2,
        3,
        "",
        CANNOT_START,
        (1, 0, 0),
    ),
    (
        "gosync run w.txt",
        "workers 3\n",
        3,
        3,
        "",
        CANNOT_START,
        (1, 0, 0),
    ),
    ("gosync run w.txt", "workers 3\n", 4, 0, "", "", (0, 3, 1)),
    (
        "gosync run w.txt",
        EACH_WAITS,
        1,
        3,
        "",
        CANNOT_START,
        (1, 0, 0),
    ),
    (
        "gosync run w.txt",
        EACH_WAITS,
        2,
        3,
        "",
        CANNOT_START,
        (1, 0, 0),
    ),
    (
        "gosync run w.txt",
        EACH_WAITS,
        3,
        0,
        EACH_REPORT,
        "",
        (0, 2, 1),
    ),
    ("gosync make 7", "", 1, 3, "", CANNOT_START, (1, 0, 0)),
    ("gosync make 7", "", 8, 3, "", CANNOT_START, (1, 0, 0)),
    ("gosync make 7", "", 9, 0, LINES, "", (0, 8, 1)),
];

// A run has a start for each worker, and a made one has eight, so one more isn't refused.
#[test]
fn a_refused_start_is_status_3(rt: HostRuntime) -> Result<(), Fail> {
    for &(words, text, refused, status, report, message, numbers) in &REFUSED_STARTS {
        let row = Row {
            words,
            text,
            status,
            report,
            message,
            ..RUN
        };
        let mut spawner = RefuseStart::new(refused);
        let ran = run_through(
            &rt,
            rt.alloc(),
            row.text,
            1_000,
            &row,
            &mut spawner,
            &OpenGate,
        )?;
        assert!(rt; matches_row(&ran, &row), "{words}: {text}: {refused}");
        let counts = spawner.counts();
        let counted = (counts.faults(), counts.ran(), counts.rounds());
        assert!(rt; counted == numbers, "{words}: {text}: {refused}");
    }
    Ok(())
}

const FAULTS: [(&[u64], &[u64], u8, &str, &str); 8] = [
    (&[1], &[], 3, "", "gosync: cannot read w.txt\n"),
    (&[2], &[], 3, "", "gosync: cannot read w.txt\n"),
    (&[3], &[], 3, "", "gosync: cannot read w.txt\n"),
    (&[4], &[], 0, TWO_REPORT, ""),
    (&[], &[1], 3, "", "gosync: cannot write the report\n"),
    (
        &[],
        &[2],
        3,
        "0.0 store t apple 5 -> ok\n",
        "gosync: cannot write the report\n",
    ),
    (
        &[],
        &[3],
        3,
        "0.0 store t apple 5 -> ok\n0.1 load t apple -> 5 true\n",
        "gosync: cannot write the report\n",
    ),
    (&[], &[4], 0, TWO_REPORT, ""),
];

// The source has three calls, an open and two reads, and the output three. A fourth isn't made.
#[test]
fn each_call_on_the_source_and_on_the_output_fails_in_turn(rt: HostRuntime) -> Result<(), Fail> {
    for &(source, out, status, report, message) in &FAULTS {
        let row = Row {
            text: TWO_CALLS,
            source,
            out,
            status,
            report,
            message,
            ..RUN
        };
        assert!(rt; comes_out(&rt, rt.alloc(), &row)?, "{source:?} {out:?}");
    }
    Ok(())
}
