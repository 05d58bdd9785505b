//! Workers that wait to be started, in threads of their own.
ghost use Rattle.std.specs.Thread.{IsSync};

use super::setup::pause;
use super::starts_setup::{Call, Worker, group, workers};
use crate::made::{Made, knows};
use std::sync::Wait;
use std::sync::atomic::{AtomicU64, Ordering};
use std::test::Fail;
use std::thread::{Threads, join};
use sync_types::Misuse;

const REUSED: Misuse = Misuse::WaitGroupReused;

// Waits to be started, and then counts itself, is done, and ends.
fn work<R: Wait>(rt: &R, mut worker: Worker, counted: &AtomicU64) -> Made {
    let started = worker.make(rt, Call::WaitStart);
    if started == Made::Answered(true) {
        counted.fetch_add(1, Ordering::SeqCst);
        worker.make(rt, Call::Done);
        worker.make(rt, Call::End);
    }
    started
}

// Two workers, each in a thread of its own.
fn two_work<R: Threads + Wait + Sync>(
    rt: &R,
    counted: &AtomicU64,
    one: Worker,
    other: Worker,
) -> (Made, Made) {
    join(
        rt,
        move || -> Made
            requires { IsSync R.row }
        { work(rt, one, counted) },
        move || -> Made
            requires { IsSync R.row }
        { work(rt, other, counted) },
    )
}

// Makes calls while the others sleep. Tells what the last one came to, and how many are counted then.
fn lead<R: Wait>(rt: &R, mut worker: Worker, calls: &[Call], counted: &AtomicU64) -> (Made, u64) {
    let mut made = Made::NoCallLeft;
    for call in calls {
        pause();
        made = worker.make(rt, *call);
    }
    (made, counted.load(Ordering::SeqCst))
}

// One leads and one works, each in a thread of its own.
fn lead_beside<R: Threads + Wait + Sync>(
    rt: &R,
    counted: &AtomicU64,
    leader: Worker,
    calls: &[Call],
    worker: Worker,
) -> ((Made, u64), Made) {
    join(
        rt,
        move || -> (Made, u64)
            requires { IsSync R.row }
        { lead(rt, leader, calls, counted) },
        move || -> Made
            requires { IsSync R.row }
        { work(rt, worker, counted) },
    )
}

// What a leader calls, what comes of its last call with how many are counted then, and what comes of the three workers.
type Led = (&'static [Call], (Made, u64), [Made; 3]);

const GO: Made = Made::Answered(true);

const NEVER: Made = Made::Answered(false);

const ALL_STARTED: Led = (
    &[Call::Go(1), Call::Go(2), Call::Go(3), Call::Wait],
    (Made::Done, 3),
    [GO, GO, GO],
);

const ONE_STARTED: Led = (
    &[Call::Go(2), Call::Wait, Call::End],
    (Made::Done, 1),
    [NEVER, GO, NEVER],
);

const NOBODY_STARTED: Led = (&[Call::End], (Made::Done, 0), [NEVER, NEVER, NEVER]);

const HALTED: Led = (
    &[Call::HaltStarts(REUSED)],
    (Made::Done, 0),
    [
        Made::Halted(REUSED),
        Made::Halted(REUSED),
        Made::Halted(REUSED),
    ],
);

// The three sleep, and nobody wakes them but a start, the last end, and a halt.
#[test]
fn three_threads_that_wait_to_be_started_are_woken(rt: HostRuntime) -> Result<(), Fail> {
    for (calls, wanted, found) in [ALL_STARTED, ONE_STARTED, NOBODY_STARTED, HALTED] {
        let (group, mut members) = group(rt.alloc(), 4)?;
        let (starts, mut passes) = workers(rt.alloc(), 4, &[false, true, true, true])?;
        let third = Worker::last(&group, &starts, &mut members, &mut passes, knows(0)).expect(
            &rt, "passes",
        );
        let second = Worker::last(&group, &starts, &mut members, &mut passes, knows(0)).expect(
            &rt, "passes",
        );
        let first = Worker::last(&group, &starts, &mut members, &mut passes, knows(0)).expect(
            &rt, "passes",
        );
        let leader = Worker::last(&group, &starts, &mut members, &mut passes, knows(0)).expect(
            &rt, "passes",
        );
        let counted = AtomicU64::new(0);
        let (led, others) = join(
            &rt,
            || lead_beside(&rt, &counted, leader, calls, first),
            || two_work(&rt, &counted, second, third),
        );
        assert!(rt; (led.0, [led.1, others.0, others.1]) == (wanted, found));
    }
    Ok(())
}
