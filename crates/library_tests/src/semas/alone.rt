//! Calls on a semaphore by one thread.
use super::setup::{Call, Member, new};
use crate::made::{Made, knows};
use std::test::Fail;
use sync_types::Misuse;

const TOO_MUCH: Made = Made::Misused(Misuse::SemaphoreOverReleased);

// Of a semaphore of size 3. The tries are those of x/sync's own test.
const CALLS: [(Call, Made); 12] = [
    (Call::Release(1), TOO_MUCH),
    (Call::Acquire(2), Made::Done),
    (Call::Try(1), Made::Answered(true)),
    (Call::Try(1), Made::Answered(false)),
    (Call::Release(3), Made::Done),
    (Call::Try(1), Made::Answered(true)),
    (Call::Acquire(2), Made::Done),
    (Call::Try(1), Made::Answered(false)),
    (Call::Release(2), Made::Done),
    (Call::Release(2), TOO_MUCH),
    (Call::Release(1), Made::Done),
    (Call::Acquire(3), Made::Done),
];

#[test]
fn calls_are_answered_by_what_is_held(rt: HostRuntime) -> Result<(), Fail> {
    let (sema, mut passes) = new(rt.alloc(), 1, 3)?;
    let mut member = Member::last(&sema, 3, &mut passes, knows(0)).expect(&rt, "a pass");
    for (number, (call, made)) in CALLS.into_iter().enumerate() {
        assert!(rt; member.make(&rt, call) == made, "call {number}");
    }
    Ok(())
}
