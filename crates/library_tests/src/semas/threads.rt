//! Semaphores by callers in threads of their own.
ghost use Rattle.std.specs.Thread.{IsSync};

use super::setup::{Call, Member, new};
use crate::made::{Made, knows};
use crate::waits::setup::{pause, until};
use std::sync::Wait;
use std::sync::atomic::{AtomicU64, Ordering};
use std::test::Fail;
use std::thread;
use std::thread::{Threads, join};
use sync_types::Misuse;

// Has one of the weight, and gives it back and takes it again until it is told to end.
fn keep_busy<R: Wait>(rt: &R, come: &AtomicU64, ended: &AtomicU64, mut member: Member) {
    member.make(rt, Call::Acquire(1));
    come.fetch_add(1, Ordering::SeqCst);
    for _ in rt.forever() {
        if ended.load(Ordering::SeqCst) == 1 {
            member.make(rt, Call::Release(1));
            return;
        }
        member.make(rt, Call::Release(1));
        member.make(rt, Call::Acquire(1));
    }
}

// Comes for all of the weight once the others are busy, and then has them end.
fn take_all<R: Wait>(rt: &R, come: &AtomicU64, ended: &AtomicU64, mut member: Member) -> Made {
    until(rt, come, 2);
    let made = member.make(rt, Call::Acquire(2));
    ended.store(1, Ordering::SeqCst);
    member.make(rt, Call::Release(2));
    made
}

// Two callers keep a semaphore of size 2 busy.
fn two_keep_busy<R: Threads + Wait + Sync>(
    rt: &R,
    come: &AtomicU64,
    ended: &AtomicU64,
    one: Member,
    other: Member,
) {
    join(
        rt,
        move || -> ()
            requires { IsSync R.row }
        { keep_busy(rt, come, ended, one) },
        move || -> ()
            requires { IsSync R.row }
        { keep_busy(rt, come, ended, other) },
    );
}

// As x/sync's own test of a large acquire: callers that come and go for little don't keep out one that comes for all.
#[test]
fn a_large_acquire_does_not_starve(rt: HostRuntime) -> Result<(), Fail> {
    let (sema, mut passes) = new(rt.alloc(), 3, 2)?;
    let third = Member::last(&sema, 2, &mut passes, knows(0)).expect(&rt, "a pass");
    let second = Member::last(&sema, 2, &mut passes, knows(0)).expect(&rt, "a pass");
    let first = Member::last(&sema, 2, &mut passes, knows(0)).expect(&rt, "a pass");
    let (come, ended) = (AtomicU64::new(0), AtomicU64::new(0));
    let ((), made) = join(
        &rt,
        || two_keep_busy(&rt, &come, &ended, first, second),
        || take_all(&rt, &come, &ended, third),
    );
    assert!(rt; made == Made::Done);
    Ok(())
}

// Comes for a weight, and tells when it has it.
fn come_for<R: Wait>(rt: &R, had: &AtomicU64, mut member: Member, weight: u64) -> Made {
    let made = member.make(rt, Call::Acquire(weight));
    had.fetch_add(1, Ordering::SeqCst);
    made
}

// Two callers come for weights of their own.
fn two_come<R: Threads + Wait + Sync>(
    rt: &R,
    had: &AtomicU64,
    one: (Member, u64),
    other: (Member, u64),
) -> (Made, Made) {
    join(
        rt,
        move || -> Made
            requires { IsSync R.row }
        { come_for(rt, had, one.0, one.1) },
        move || -> Made
            requires { IsSync R.row }
        { come_for(rt, had, other.0, other.1) },
    )
}

// Gives all of the weight back, one by one, while the others sleep.
fn give_back<R: Wait>(rt: &R, mut member: Member) {
    for _ in 0..3 {
        pause();
        member.make(rt, Call::Release(1));
    }
}

// Whoever is granted its weight is woken, and each by the release that grants it.
#[test]
fn releases_wake_whom_they_grant(rt: HostRuntime) -> Result<(), Fail> {
    let (sema, mut passes) = new(rt.alloc(), 3, 3)?;
    let third = Member::last(&sema, 3, &mut passes, knows(0)).expect(&rt, "a pass");
    let second = Member::last(&sema, 3, &mut passes, knows(0)).expect(&rt, "a pass");
    let mut first = Member::last(&sema, 3, &mut passes, knows(0)).expect(&rt, "a pass");
    first.make(&rt, Call::Acquire(3));
    let had = AtomicU64::new(0);
    let (both, ()) = join(
        &rt,
        || two_come(&rt, &had, (second, 1), (third, 2)),
        || give_back(&rt, first),
    );
    assert!(rt; both == (Made::Done, Made::Done));
    assert!(rt; had.load(Ordering::SeqCst) == 2);
    Ok(())
}
