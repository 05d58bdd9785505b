//! Callers of a mutex in threads of their own.
ghost use Rattle.std.specs.Thread.{IsSync};

use crate::made::{Made, knows};
use crate::mutex;
use crate::waits::setup::pause;
use std::sync::Wait;
use std::sync::atomic::{AtomicU64, Ordering};
use std::test::Fail;
use std::thread::{Threads, join};
use sync_outside::{Clock, MemClock};
use sync_types::Misuse;

// Reads the number and stores one more. Two callers that do this at once lose one of the two.
fn add_one(number: &AtomicU64) {
    let old = number.load(Ordering::SeqCst);
    number.store(old.wrapping_add(1), Ordering::SeqCst);
}

// Adds one so many times, each time with the mutex held.
fn add_locked<C: Clock, R: Wait>(
    rt: &R,
    clock: &C,
    mut caller: mutex::Member,
    number: &AtomicU64,
    times: u64,
) {
    for _ in 0..times {
        caller.make(rt, clock, mutex::Call::Lock);
        add_one(number);
        caller.make(rt, clock, mutex::Call::Unlock);
    }
}

// Two callers add in threads of their own.
fn add_beside<C: Clock + Sync, R: Threads + Wait + Sync>(
    rt: &R,
    clock: &C,
    first: mutex::Member,
    second: mutex::Member,
    number: &AtomicU64,
    times: u64,
) {
    join(
        rt,
        move || -> ()
            requires { IsSync R.row × IsSync C.row }
        { add_locked(rt, clock, first, number, times) },
        move || -> ()
            requires { IsSync R.row × IsSync C.row }
        { add_locked(rt, clock, second, number, times) },
    );
}

#[test]
fn two_threads_lose_no_increment(rt: HostRuntime) -> Result<(), Fail> {
    let (lock, mut passes) = mutex::new(rt.alloc(), 2)?;
    let one = mutex::Member::last(&lock, &mut passes, knows(0)).expect(&rt, "a pass");
    let zero = mutex::Member::last(&lock, &mut passes, knows(0)).expect(&rt, "a pass");
    let clock = MemClock::new(Vec::from_slice(rt.alloc(), &[1, 2, 3, 4, 5, 6, 7, 8])?);
    let number = AtomicU64::new(0);
    add_beside(&rt, &clock, zero, one, &number, 10_000);
    assert!(rt; number.load(Ordering::SeqCst) == 20_000);
    Ok(())
}

// Two callers lock, in threads of their own.
fn lock_beside<R: Threads + Wait + Sync>(
    rt: &R,
    clock: &MemClock,
    mut first: mutex::Member,
    mut second: mutex::Member,
) -> (Made, Made) {
    join(
        rt,
        move || -> Made
            requires { IsSync R.row }
        { first.make(rt, clock, mutex::Call::Lock) },
        move || -> Made
            requires { IsSync R.row }
        { second.make(rt, clock, mutex::Call::Lock) },
    )
}

// Halts the mutex while the others sleep.
fn halt_late<R: Wait>(rt: &R, clock: &MemClock, mut holder: mutex::Member) {
    pause();
    holder.make(rt, clock, mutex::Call::Halt(Misuse::WaitGroupReused));
}

// Two callers wait, and the holder halts the mutex.
#[test]
fn a_halt_ends_the_wait_of_two(rt: HostRuntime) -> Result<(), Fail> {
    let (lock, mut passes) = mutex::new(rt.alloc(), 3)?;
    let two = mutex::Member::last(&lock, &mut passes, knows(0)).expect(&rt, "a pass");
    let one = mutex::Member::last(&lock, &mut passes, knows(0)).expect(&rt, "a pass");
    let mut zero = mutex::Member::last(&lock, &mut passes, knows(0)).expect(&rt, "a pass");
    let clock = MemClock::new(Vec::new(rt.alloc()));
    zero.make(&rt, &clock, mutex::Call::Lock);
    let (both, ()) = join(
        &rt,
        || lock_beside(&rt, &clock, one, two),
        || halt_late(&rt, &clock, zero),
    );
    let halted = Made::Halted(Misuse::WaitGroupReused);
    assert!(rt; both == (halted, halted));
    Ok(())
}
