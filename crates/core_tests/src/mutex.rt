//! A worked run of the Mutex machine, event by event, and whom each event lets go on.
use crate::rows::{NOBODY, Row, WakeRow, first_other, first_other_wake};
use mutex_core::{Arrival, MutexCore, MutexEvent, MutexReply, Resumption, Unlocking};
use std::test::Fail;

// Caller 1 waits from the moment 0 on, and is woken twice. The mutex is taken from it both times.
const LOST_TWICE: [Row<MutexEvent, MutexReply>; 12] = [
    (
        0,
        MutexEvent::Arrive { now: 0 },
        MutexReply::Arrived(Arrival::Acquired),
    ),
    (
        1,
        MutexEvent::Arrive { now: 0 },
        MutexReply::Arrived(Arrival::Queued(1)),
    ),
    (0, MutexEvent::Try, MutexReply::Tried(false)),
    (
        0,
        MutexEvent::Unlock,
        MutexReply::Unlocked(Unlocking::Woke(1)),
    ),
    (
        0,
        MutexEvent::Arrive { now: 0 },
        MutexReply::Arrived(Arrival::Acquired),
    ),
    (
        2,
        MutexEvent::Arrive { now: 600_000 },
        MutexReply::Arrived(Arrival::Queued(2)),
    ),
    (2, MutexEvent::Woken { now: 600_000 }, MutexReply::Still),
    (
        1,
        MutexEvent::Woken { now: 600_000 },
        MutexReply::Resumed(Resumption::Requeued),
    ),
    (
        0,
        MutexEvent::Unlock,
        MutexReply::Unlocked(Unlocking::Woke(1)),
    ),
    (0, MutexEvent::Try, MutexReply::Tried(true)),
    (
        1,
        MutexEvent::Woken { now: 1_000_001 },
        MutexReply::Resumed(Resumption::Requeued),
    ),
    (
        0,
        MutexEvent::Unlock,
        MutexReply::Unlocked(Unlocking::Handed(1)),
    ),
];

#[test]
fn a_waiter_that_loses_twice_starves_on_the_sum(rt: HostRuntime) -> Result<(), Fail> {
    let mut mutex = MutexCore::new(rt.alloc(), 3)?;
    assert!(rt; first_other::<MutexCore>(&mut mutex, &LOST_TWICE) == None);
    Ok(())
}

const LET_ON: [WakeRow<MutexEvent>; 9] = [
    (0, MutexEvent::Arrive { now: 0 }, NOBODY),
    (1, MutexEvent::Arrive { now: 0 }, NOBODY),
    (2, MutexEvent::Arrive { now: 0 }, NOBODY),
    (0, MutexEvent::Unlock, [Some(1), None, None]),
    (0, MutexEvent::Unlock, NOBODY),
    (0, MutexEvent::Try, NOBODY),
    // Caller 1 is on its way already.
    (0, MutexEvent::Unlock, NOBODY),
    (1, MutexEvent::Woken { now: 0 }, NOBODY),
    (1, MutexEvent::Unlock, [Some(2), None, None]),
];

#[test]
fn an_unlock_lets_one_go_on(rt: HostRuntime) -> Result<(), Fail> {
    let mut mutex = MutexCore::new(rt.alloc(), 3)?;
    assert!(rt; first_other_wake::<MutexCore>(&mut mutex, &LET_ON) == None);
    Ok(())
}
