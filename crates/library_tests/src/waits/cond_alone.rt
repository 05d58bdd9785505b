//! Conds by one thread.
use super::cond_setup::{Call, Waiter, cond, mutex};
use crate::made::{Made, knows};
use std::test::Fail;
use sync_types::Misuse;

const OF_UNLOCKED: Misuse = Misuse::UnlockOfUnlockedMutex;

/// Whether the first caller makes the call, and what it comes to. A signal that finds nobody is lost.
const WITHOUT_THE_MUTEX: [(bool, Call, Made); 4] = [
    (true, Call::Lock, Made::Done),
    (true, Call::Signal, Made::Done),
    (true, Call::Unlock, Made::Done),
    (false, Call::Wait, Made::Misused(OF_UNLOCKED)),
];

#[test]
fn a_wait_without_its_mutex_is_a_misuse(rt: HostRuntime) -> Result<(), Fail> {
    let (mutex, mut locks) = mutex(rt.alloc(), 2)?;
    let (cond, mut passes) = cond(rt.alloc(), 2)?;
    let mut second = Waiter::last(&mutex, &cond, &mut locks, &mut passes, knows(0)).expect(
        &rt, "passes",
    );
    let mut first = Waiter::last(&mutex, &cond, &mut locks, &mut passes, knows(0)).expect(
        &rt, "passes",
    );
    for (number, (is_first, call, made)) in WITHOUT_THE_MUTEX.into_iter().enumerate() {
        let came_to = if is_first {
            first.make(&rt, call)
        } else {
            second.make(&rt, call)
        };
        assert!(rt; came_to == made, "call {number}");
    }
    Ok(())
}
