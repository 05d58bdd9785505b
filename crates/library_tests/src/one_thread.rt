//! Two callers of a lock by turns, in one thread, and a halt.
use crate::made::{Made, knows};
use crate::{mutex, rw_mutex};
use std::test::Fail;
use sync_outside::MemClock;
use sync_types::Misuse;

const OF_UNLOCKED: Misuse = Misuse::UnlockOfUnlockedMutex;

/// Whether caller 0 or caller 1 makes the call, what it comes to, and how many calls of caller 0 caller 1 then knows:
/// a try that fails makes no edge, and what the unlocker knew, the holder knows.
const BY_TURNS: [(bool, mutex::Call, Made, u32); 10] = [
    (true, mutex::Call::Lock, Made::Done, 0),
    (false, mutex::Call::TryLock, Made::Answered(false), 0),
    (true, mutex::Call::Unlock, Made::Done, 0),
    (false, mutex::Call::TryLock, Made::Answered(true), 7),
    (true, mutex::Call::Unlock, Made::Done, 7),
    (true, mutex::Call::Unlock, Made::Misused(OF_UNLOCKED), 7),
    (true, mutex::Call::Halt(OF_UNLOCKED), Made::Done, 7),
    (false, mutex::Call::Lock, Made::Halted(OF_UNLOCKED), 7),
    (false, mutex::Call::TryLock, Made::Halted(OF_UNLOCKED), 7),
    (true, mutex::Call::Unlock, Made::Halted(OF_UNLOCKED), 7),
];

#[test]
fn two_callers_by_turns_and_a_halt(rt: HostRuntime) -> Result<(), Fail> {
    let (lock, mut passes) = mutex::new(rt.alloc(), 2)?;
    let mut one = mutex::Member::last(&lock, &mut passes, knows(0)).expect(&rt, "a pass");
    let mut zero = mutex::Member::last(&lock, &mut passes, knows(7)).expect(&rt, "a pass");
    let clock = MemClock::new(Vec::new(rt.alloc()));
    for (number, (by_zero, call, made, known)) in BY_TURNS.into_iter().enumerate() {
        let came_to = if by_zero {
            zero.make(&rt, &clock, call)
        } else {
            one.make(&rt, &clock, call)
        };
        assert!(rt; (came_to, one.known()) == (made, known), "call {number}");
    }
    Ok(())
}

const OF_UNREAD: Misuse = Misuse::RUnlockOfUnlockedRwMutex;

const OF_UNWRITTEN: Misuse = Misuse::UnlockOfUnlockedRwMutex;

/// The same for a reader/writer lock: the writer knows what the readers knew.
const READERS: [(bool, rw_mutex::Call, Made, u32); 13] = [
    (true, rw_mutex::Call::RLock, Made::Done, 0),
    (false, rw_mutex::Call::TryLock, Made::Answered(false), 0),
    (false, rw_mutex::Call::RLock, Made::Done, 0),
    (true, rw_mutex::Call::RUnlock, Made::Done, 0),
    (false, rw_mutex::Call::RUnlock, Made::Done, 0),
    (true, rw_mutex::Call::RUnlock, Made::Misused(OF_UNREAD), 0),
    (false, rw_mutex::Call::Lock, Made::Done, 3),
    (true, rw_mutex::Call::TryRLock, Made::Answered(false), 3),
    (false, rw_mutex::Call::Unlock, Made::Done, 3),
    (
        false,
        rw_mutex::Call::Unlock,
        Made::Misused(OF_UNWRITTEN),
        3,
    ),
    (true, rw_mutex::Call::TryRLock, Made::Answered(true), 3),
    (true, rw_mutex::Call::Halt(OF_UNWRITTEN), Made::Done, 3),
    (
        false,
        rw_mutex::Call::TryLock,
        Made::Halted(OF_UNWRITTEN),
        3,
    ),
];

#[test]
fn readers_share_and_keep_a_writer_out(rt: HostRuntime) -> Result<(), Fail> {
    let (lock, mut passes) = rw_mutex::new(rt.alloc(), 2)?;
    let mut one = rw_mutex::Member::last(&lock, &mut passes, knows(0)).expect(&rt, "a pass");
    let mut zero = rw_mutex::Member::last(&lock, &mut passes, knows(3)).expect(&rt, "a pass");
    let clock = MemClock::new(Vec::new(rt.alloc()));
    for (number, (by_zero, call, made, known)) in READERS.into_iter().enumerate() {
        let came_to = if by_zero {
            zero.make(&rt, &clock, call)
        } else {
            one.make(&rt, &clock, call)
        };
        assert!(rt; (came_to, one.known()) == (made, known), "call {number}");
    }
    Ok(())
}
