//! Callers that are asleep, and whom only the one call lets go on that concerns them.
ghost use Rattle.std.specs.Thread.{IsSync};

use super::cond_setup::{Call, Waiter, cond, mutex};
use super::setup::{Member, group, pause, until};
use crate::made::{Made, knows};
use std::sync::Wait;
use std::sync::atomic::{AtomicU64, Ordering};
use std::test::Fail;
use std::thread::{Threads, join};
use sync_model::Answer;
use sync_types::Misuse;

type Waited = Answer<Result<(), Misuse>>;

// Two callers of a group wait in threads of their own.
fn two_wait<R: Threads + Wait + Sync>(
    rt: &R,
    mut one: Member,
    mut other: Member,
) -> (Option<Waited>, Option<Waited>) {
    join(
        rt,
        move || -> Option<Waited>
            requires { IsSync R.row }
        { one.wait(rt) },
        move || -> Option<Waited>
            requires { IsSync R.row }
        { other.wait(rt) },
    )
}

// Is done while the others sleep.
fn done_late<R: Wait>(rt: &R, mut member: Member) -> Option<Waited> {
    pause();
    member.done(rt)
}

#[test]
fn one_done_wakes_all_who_wait(rt: HostRuntime) -> Result<(), Fail> {
    let (group, mut passes) = group(rt.alloc(), 3, 1, 1)?;
    let third = Member::last(&group, &mut passes, knows(0)).expect(&rt, "a pass");
    let second = Member::last(&group, &mut passes, knows(0)).expect(&rt, "a pass");
    let first = Member::last(&group, &mut passes, knows(0)).expect(&rt, "a pass");
    let (both, done) = join(
        &rt,
        || two_wait(&rt, first, second),
        || done_late(&rt, third),
    );
    let fine = Some(Answer::Done(Ok(())));
    assert!(rt; (both.0, both.1, done) == (fine, fine, fine));
    Ok(())
}

// Counts itself and waits, with the mutex locked before and after.
fn wait_counted<R: Wait>(rt: &R, waiting: &AtomicU64, mut caller: Waiter) -> Made {
    caller.make(rt, Call::Lock);
    waiting.fetch_add(1, Ordering::SeqCst);
    let waited = caller.make(rt, Call::Wait);
    caller.make(rt, Call::Unlock);
    waited
}

// Two callers of a cond wait in threads of their own.
fn two_wait_counted<R: Threads + Wait + Sync>(
    rt: &R,
    waiting: &AtomicU64,
    first: Waiter,
    second: Waiter,
) -> (Made, Made) {
    join(
        rt,
        move || -> Made
            requires { IsSync R.row }
        { wait_counted(rt, waiting, first) },
        move || -> Made
            requires { IsSync R.row }
        { wait_counted(rt, waiting, second) },
    )
}

// Notifies two that wait: by one broadcast, or by two signals. Both counted themselves with the mutex locked, so whoever
// has locked it since finds their tickets taken.
fn notify_two<R: Wait>(rt: &R, waiting: &AtomicU64, mut caller: Waiter, at_once: bool) {
    until(rt, waiting, 2);
    caller.make(rt, Call::Lock);
    caller.make(rt, Call::Unlock);
    pause();
    if at_once {
        caller.make(rt, Call::Broadcast);
    } else {
        caller.make(rt, Call::Signal);
        caller.make(rt, Call::Signal);
    }
}

#[test]
fn a_broadcast_wakes_all_who_wait_and_a_signal_one(rt: HostRuntime) -> Result<(), Fail> {
    for at_once in [true, false] {
        let (mutex, mut locks) = mutex(rt.alloc(), 3)?;
        let (cond, mut passes) = cond(rt.alloc(), 3)?;
        let third = Waiter::last(&mutex, &cond, &mut locks, &mut passes, knows(0)).expect(
            &rt, "passes",
        );
        let second = Waiter::last(&mutex, &cond, &mut locks, &mut passes, knows(0)).expect(
            &rt, "passes",
        );
        let first = Waiter::last(&mutex, &cond, &mut locks, &mut passes, knows(0)).expect(
            &rt, "passes",
        );
        let waiting = AtomicU64::new(0);
        let (both, ()) = join(
            &rt,
            || two_wait_counted(&rt, &waiting, first, second),
            || notify_two(&rt, &waiting, third, at_once),
        );
        assert!(rt; both == (Made::Done, Made::Done));
    }
    Ok(())
}
