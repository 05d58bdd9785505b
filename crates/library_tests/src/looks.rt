//! How often the calls of a lock look at their caller's clock.
use crate::made::{Made, knows};
use crate::{mutex, rw_mutex};
use std::sync::atomic::{AtomicUsize, Ordering};
use std::test::Fail;
use sync_outside::Clock;
use sync_types::Misuse;

// A clock that counts the looks at it. It always shows 0.
#[derive(Drop)]
struct CountingClock {
    looks: AtomicUsize,
}

impl CountingClock {
    fn looks(&self) -> usize {
        self.looks.load(Ordering::SeqCst)
    }
}

impl Clock for CountingClock {
    ghost shows = { λ clock moment. Unit {0} };

    fn now(&self) -> u64 {
        self.looks.fetch_add(1, Ordering::SeqCst);
        0
    }
}

const BY_TEST: Misuse = Misuse::UnlockOfUnlockedMutex;

/// A caller's calls on a mutex, what each comes to, and how often the clock was looked at by then.
const MUTEX: [(mutex::Call, Made, usize); 8] = [
    (mutex::Call::Lock, Made::Done, 0),
    (mutex::Call::TryLock, Made::Answered(false), 0),
    (mutex::Call::Unlock, Made::Done, 0),
    (mutex::Call::TryLock, Made::Answered(true), 0),
    (mutex::Call::Unlock, Made::Done, 0),
    (mutex::Call::Halt(BY_TEST), Made::Done, 0),
    (mutex::Call::TryLock, Made::Halted(BY_TEST), 0),
    (mutex::Call::Lock, Made::Halted(BY_TEST), 1),
];

#[test]
fn a_mutex_that_is_had_at_once_needs_no_look(rt: HostRuntime) -> Result<(), Fail> {
    let (lock, mut passes) = mutex::new(rt.alloc(), 1)?;
    let mut caller = mutex::Member::last(&lock, &mut passes, knows(0)).expect(&rt, "a pass");
    let clock = CountingClock {
        looks: AtomicUsize::new(0),
    };
    for (number, (call, made, looks)) in MUTEX.into_iter().enumerate() {
        let came_to = caller.make(&rt, &clock, call);
        assert!(rt; (came_to, clock.looks()) == (made, looks), "call {number}");
    }
    Ok(())
}

/// The same for a reader/writer lock.
const RW_MUTEX: [(rw_mutex::Call, Made, usize); 11] = [
    (rw_mutex::Call::Lock, Made::Done, 0),
    (rw_mutex::Call::TryRLock, Made::Answered(false), 0),
    (rw_mutex::Call::Unlock, Made::Done, 0),
    (rw_mutex::Call::RLock, Made::Done, 0),
    (rw_mutex::Call::TryLock, Made::Answered(false), 0),
    (rw_mutex::Call::RUnlock, Made::Done, 0),
    (rw_mutex::Call::TryLock, Made::Answered(true), 0),
    (rw_mutex::Call::Unlock, Made::Done, 0),
    (rw_mutex::Call::Halt(BY_TEST), Made::Done, 0),
    (rw_mutex::Call::RLock, Made::Halted(BY_TEST), 0),
    (rw_mutex::Call::Lock, Made::Halted(BY_TEST), 1),
];

#[test]
fn a_writer_that_has_the_lock_at_once_needs_no_look(rt: HostRuntime) -> Result<(), Fail> {
    let (lock, mut passes) = rw_mutex::new(rt.alloc(), 1)?;
    let mut caller = rw_mutex::Member::last(&lock, &mut passes, knows(0)).expect(&rt, "a pass");
    let clock = CountingClock {
        looks: AtomicUsize::new(0),
    };
    for (number, (call, made, looks)) in RW_MUTEX.into_iter().enumerate() {
        let came_to = caller.make(&rt, &clock, call);
        assert!(rt; (came_to, clock.looks()) == (made, looks), "call {number}");
    }
    Ok(())
}
