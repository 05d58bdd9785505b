//! A worked run of the machine of WaitGroup, event by event, and whom each event of it, of Cond and of Once lets go on.
use crate::rows::{NOBODY, Row, WakeRow, first_other, first_other_wake};
use std::test::Fail;
use sync_types::Misuse;
use wait_cores::{GroupCore, GroupEvent, GroupReply, NotifyCore, NotifyEvent, OnceCore, OnceEvent};

const COUNTS: [Row<GroupEvent, GroupReply>; 17] = [
    // From 0 to the highest counter, which one more is past; and back to 0, which one less is below.
    (0, GroupEvent::Add(2147483647), GroupReply::Done),
    (
        0,
        GroupEvent::Add(1),
        GroupReply::Misused(Misuse::NegativeWaitGroupCounter),
    ),
    (0, GroupEvent::Add(-2147483647), GroupReply::Done),
    (
        1,
        GroupEvent::Add(-1),
        GroupReply::Misused(Misuse::NegativeWaitGroupCounter),
    ),
    (1, GroupEvent::Wait, GroupReply::Done),
    // A wait that is released and leaves while the counter is 0.
    (0, GroupEvent::Add(1), GroupReply::Done),
    (1, GroupEvent::Wait, GroupReply::Queued),
    (1, GroupEvent::Leave, GroupReply::Still),
    (0, GroupEvent::Add(-1), GroupReply::Done),
    (1, GroupEvent::Leave, GroupReply::Done),
    // Used again before a released waiter has left, which is out then.
    (0, GroupEvent::Add(1), GroupReply::Done),
    (1, GroupEvent::Wait, GroupReply::Queued),
    (0, GroupEvent::Add(-1), GroupReply::Done),
    (0, GroupEvent::Add(1), GroupReply::Done),
    (
        1,
        GroupEvent::Leave,
        GroupReply::Misused(Misuse::WaitGroupReused),
    ),
    (1, GroupEvent::Leave, GroupReply::Still),
    (2, GroupEvent::Add(1), GroupReply::Still),
];

#[test]
fn counts_and_releases(rt: HostRuntime) -> Result<(), Fail> {
    let mut group = GroupCore::new(rt.alloc(), 2)?;
    assert!(rt; first_other::<GroupCore>(&mut group, &COUNTS) == None);
    Ok(())
}

const GROUP_LETS_ON: [WakeRow<GroupEvent>; 9] = [
    (0, GroupEvent::Add(2), NOBODY),
    (1, GroupEvent::Wait, NOBODY),
    (3, GroupEvent::Wait, NOBODY),
    (0, GroupEvent::Add(1), NOBODY),
    (0, GroupEvent::Add(-2), NOBODY),
    (0, GroupEvent::Add(-5), NOBODY),
    (2, GroupEvent::Add(-1), [Some(1), Some(3), None]),
    (1, GroupEvent::Leave, NOBODY),
    (0, GroupEvent::Add(-1), NOBODY),
];

#[test]
fn an_addition_that_comes_to_0_lets_those_go_on_who_wait(rt: HostRuntime) -> Result<(), Fail> {
    let mut group = GroupCore::new(rt.alloc(), 4)?;
    assert!(rt; first_other_wake::<GroupCore>(&mut group, &GROUP_LETS_ON) == None);
    Ok(())
}

const COND_LETS_ON: [WakeRow<NotifyEvent>; 11] = [
    (0, NotifyEvent::Signal, NOBODY),
    (2, NotifyEvent::Ticket, NOBODY),
    (1, NotifyEvent::Ticket, NOBODY),
    (0, NotifyEvent::Signal, [Some(2), None, None]),
    (2, NotifyEvent::Leave, NOBODY),
    (0, NotifyEvent::Signal, [Some(1), None, None]),
    (1, NotifyEvent::Leave, NOBODY),
    (0, NotifyEvent::Signal, NOBODY),
    (1, NotifyEvent::Ticket, NOBODY),
    (3, NotifyEvent::Ticket, NOBODY),
    (0, NotifyEvent::Broadcast, [Some(1), Some(3), None]),
];

#[test]
fn a_signal_lets_one_go_on_and_a_broadcast_all(rt: HostRuntime) -> Result<(), Fail> {
    let mut cond = NotifyCore::new(rt.alloc(), 4)?;
    assert!(rt; first_other_wake::<NotifyCore>(&mut cond, &COND_LETS_ON) == None);
    Ok(())
}

const ONCE_LETS_ON: [WakeRow<OnceEvent<u64>>; 7] = [
    (2, OnceEvent::Begin, NOBODY),
    (3, OnceEvent::Begin, NOBODY),
    (0, OnceEvent::Begin, NOBODY),
    (1, OnceEvent::End(5), NOBODY),
    (2, OnceEvent::End(5), [Some(0), Some(3), None]),
    (3, OnceEvent::Leave, NOBODY),
    (1, OnceEvent::Begin, NOBODY),
];

#[test]
fn the_end_of_the_function_lets_those_go_on_who_wait(rt: HostRuntime) -> Result<(), Fail> {
    let mut once = OnceCore::new(rt.alloc(), 4)?;
    assert!(rt; (first_other_wake::<OnceCore<u64>>(&mut once, &ONCE_LETS_ON)) == None);
    Ok(())
}
