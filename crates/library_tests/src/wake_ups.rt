//! Callers that are asleep, and whom only the one unlock lets go on that concerns them.
ghost use Rattle.std.specs.Thread.{IsSync};

use crate::made::knows;
use crate::waits::setup::pause;
use crate::{mutex, rw_mutex};
use std::sync::Wait;
use std::test::Fail;
use std::thread::{Threads, join};
use sync_outside::MemClock;

// Locks and unlocks.
fn go_through<R: Wait>(rt: &R, clock: &MemClock, mut caller: mutex::Member) {
    caller.make(rt, clock, mutex::Call::Lock);
    caller.make(rt, clock, mutex::Call::Unlock);
}

// Two callers go through the mutex in threads of their own.
fn two_go_through<R: Threads + Wait + Sync>(
    rt: &R,
    clock: &MemClock,
    first: mutex::Member,
    second: mutex::Member,
) {
    join(
        rt,
        move || -> ()
            requires { IsSync R.row }
        { go_through(rt, clock, first) },
        move || -> ()
            requires { IsSync R.row }
        { go_through(rt, clock, second) },
    );
}

// The holder unlocks while the others sleep.
fn give_back<R: Wait>(rt: &R, clock: &MemClock, mut holder: mutex::Member) {
    pause();
    holder.make(rt, clock, mutex::Call::Unlock);
}

// The holder's unlock wakes one of the two, and that one's unlock the other.
#[test]
fn each_unlock_wakes_the_next_caller(rt: HostRuntime) -> Result<(), Fail> {
    let (lock, mut passes) = mutex::new(rt.alloc(), 3)?;
    let two = mutex::Member::last(&lock, &mut passes, knows(0)).expect(&rt, "a pass");
    let one = mutex::Member::last(&lock, &mut passes, knows(0)).expect(&rt, "a pass");
    let mut zero = mutex::Member::last(&lock, &mut passes, knows(0)).expect(&rt, "a pass");
    let clock = MemClock::new(Vec::new(rt.alloc()));
    zero.make(&rt, &clock, mutex::Call::Lock);
    join(
        &rt,
        || two_go_through(&rt, &clock, one, two),
        || give_back(&rt, &clock, zero),
    );
    Ok(())
}

// Two calls, the second after a pause.
fn make_both<R: Wait>(
    rt: &R,
    clock: &MemClock,
    mut caller: rw_mutex::Member,
    calls: (rw_mutex::Call, rw_mutex::Call),
) {
    caller.make(rt, clock, calls.0);
    pause();
    caller.make(rt, clock, calls.1);
}

const READS: (rw_mutex::Call, rw_mutex::Call) = (rw_mutex::Call::RLock, rw_mutex::Call::RUnlock);

// Two readers go through the lock in threads of their own.
fn two_read_through<R: Threads + Wait + Sync>(
    rt: &R,
    clock: &MemClock,
    first: rw_mutex::Member,
    second: rw_mutex::Member,
) {
    join(
        rt,
        move || -> ()
            requires { IsSync R.row }
        { make_both(rt, clock, first, READS) },
        move || -> ()
            requires { IsSync R.row }
        { make_both(rt, clock, second, READS) },
    );
}

const WRITES: (rw_mutex::Call, rw_mutex::Call) = (rw_mutex::Call::Lock, rw_mutex::Call::Unlock);

// The holder unlocks while the others sleep.
fn give_back_rw<R: Wait>(rt: &R, clock: &MemClock, mut holder: rw_mutex::Member) {
    pause();
    holder.make(rt, clock, rw_mutex::Call::Unlock);
}

// A writer goes through the lock, and the holder unlocks.
fn write_after_the_holder<R: Threads + Wait + Sync>(
    rt: &R,
    clock: &MemClock,
    writer: rw_mutex::Member,
    holder: rw_mutex::Member,
) {
    join(
        rt,
        move || -> ()
            requires { IsSync R.row }
        { make_both(rt, clock, writer, WRITES) },
        move || -> ()
            requires { IsSync R.row }
        { give_back_rw(rt, clock, holder) },
    );
}

// The holder's unlock wakes both readers and the writer, and the last reader's the writer again.
#[test]
fn unlocks_wake_the_readers_and_then_the_writer(rt: HostRuntime) -> Result<(), Fail> {
    let (lock, mut passes) = rw_mutex::new(rt.alloc(), 4)?;
    let three = rw_mutex::Member::last(&lock, &mut passes, knows(0)).expect(&rt, "a pass");
    let two = rw_mutex::Member::last(&lock, &mut passes, knows(0)).expect(&rt, "a pass");
    let one = rw_mutex::Member::last(&lock, &mut passes, knows(0)).expect(&rt, "a pass");
    let mut zero = rw_mutex::Member::last(&lock, &mut passes, knows(0)).expect(&rt, "a pass");
    let clock = MemClock::new(Vec::new(rt.alloc()));
    zero.make(&rt, &clock, rw_mutex::Call::Lock);
    join(
        &rt,
        || two_read_through(&rt, &clock, one, two),
        || write_after_the_holder(&rt, &clock, three, zero),
    );
    Ok(())
}
