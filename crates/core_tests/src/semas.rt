//! Whom a release of a weighted semaphore lets go on.
use crate::rows::{NOBODY, WakeRow, first_other_wake};
use sema_core::{SemaCore, SemaEvent};
use std::test::Fail;

const GRANTED: [WakeRow<SemaEvent>; 9] = [
    (0, SemaEvent::Acquire(3), NOBODY),
    (1, SemaEvent::Acquire(2), NOBODY),
    (2, SemaEvent::Acquire(1), NOBODY),
    (3, SemaEvent::Acquire(1), NOBODY),
    // Not enough for the one in front, and so nobody goes on.
    (0, SemaEvent::Release(1), NOBODY),
    (0, SemaEvent::Release(2), [Some(1), Some(2), None]),
    (1, SemaEvent::Leave, NOBODY),
    // A misuse lets nobody go on, whomever the release before let.
    (1, SemaEvent::Release(4), NOBODY),
    (1, SemaEvent::Release(1), [Some(3), None, None]),
];

#[test]
fn a_release_wakes_those_it_grants_and_nobody_else(rt: HostRuntime) -> Result<(), Fail> {
    let mut sema = SemaCore::new(rt.alloc(), 4, 3)?;
    assert!(rt; first_other_wake::<SemaCore>(&mut sema, &GRANTED).is_none());
    Ok(())
}
