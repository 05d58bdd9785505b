//! A worked run of the RWMutex machine, event by event, and whom each event lets go on.
use crate::rows::{self, NOBODY, first_other_wake};
use rw_core::{Arrival, Place, RwCore, RwEvent, RwReply, Unlocking};
use std::test::Fail;
use sync_model::Machine;

type WakeRow = rows::WakeRow<RwEvent>;

/// An event of a caller, what it should be answered, and the caller's place after it.
type Row = (u32, RwEvent, RwReply, Place);

/// The place of a caller, `Out` for a number that is none.
fn place(lock: &RwCore, caller: u32) -> Place {
    if caller < lock.callers() {
        lock.place(caller)
    } else {
        Place::Out
    }
}

/// The first event that is answered otherwise than its row says, or leaves its caller at another place.
fn first_other(lock: &mut RwCore, rows: &[Row]) -> Option<usize> {
    for (at, &(caller, event, reply, after)) in rows.iter().enumerate() {
        if RwCore::step(lock, caller, event) != reply || place(lock, caller) != after {
            return Some(at);
        }
    }
    None
}

const HELD_BACK: [Row; 9] = [
    (
        0,
        RwEvent::ReadArrive,
        RwReply::Arrived(Arrival::Acquired),
        Place::Out,
    ),
    (
        1,
        RwEvent::WriteArrive { now: 0 },
        RwReply::Arrived(Arrival::Queued),
        Place::Waiting,
    ),
    (
        2,
        RwEvent::ReadArrive,
        RwReply::Arrived(Arrival::Queued),
        Place::Queued,
    ),
    (3, RwEvent::ReadTry, RwReply::Tried(false), Place::Out),
    (
        0,
        RwEvent::ReadUnlock,
        RwReply::Unlocked(Unlocking::Done),
        Place::Out,
    ),
    (1, RwEvent::Leave, RwReply::Left, Place::Out),
    (
        1,
        RwEvent::WriteUnlock,
        RwReply::Unlocked(Unlocking::Done),
        Place::Out,
    ),
    (2, RwEvent::Leave, RwReply::Left, Place::Out),
    (
        2,
        RwEvent::ReadUnlock,
        RwReply::Unlocked(Unlocking::Done),
        Place::Out,
    ),
];

#[test]
fn a_waiting_writer_holds_back_new_readers(rt: HostRuntime) -> Result<(), Fail> {
    let mut lock = RwCore::new(rt.alloc(), 4)?;
    assert!(rt; first_other(&mut lock, &HELD_BACK[..5]) == None);
    assert!(rt; place(&lock, 1) == Place::Granted);
    assert!(rt; first_other(&mut lock, &HELD_BACK[5..7]) == None);
    assert!(rt; place(&lock, 2) == Place::Admitted);
    assert!(rt; first_other(&mut lock, &HELD_BACK[7..]) == None);
    Ok(())
}

const LET_ON: [WakeRow; 15] = [
    (0, RwEvent::WriteArrive { now: 0 }, NOBODY),
    (1, RwEvent::ReadArrive, NOBODY),
    (2, RwEvent::ReadArrive, NOBODY),
    (3, RwEvent::WriteArrive { now: 0 }, NOBODY),
    (4, RwEvent::WriteArrive { now: 0 }, NOBODY),
    (0, RwEvent::ReadTry, NOBODY),
    // Both readers, and the writer that arrived first.
    (0, RwEvent::WriteUnlock, [Some(1), Some(2), Some(3)]),
    (1, RwEvent::Leave, NOBODY),
    (2, RwEvent::Leave, NOBODY),
    (3, RwEvent::WriteWoken { now: 0 }, NOBODY),
    (1, RwEvent::ReadUnlock, NOBODY),
    // The last reader.
    (2, RwEvent::ReadUnlock, [Some(3), None, None]),
    (2, RwEvent::ReadUnlock, NOBODY),
    (3, RwEvent::Leave, NOBODY),
    (3, RwEvent::WriteUnlock, [Some(4), None, None]),
];

#[test]
fn an_unlock_lets_those_go_on_who_have_the_lock(rt: HostRuntime) -> Result<(), Fail> {
    let mut lock = RwCore::new(rt.alloc(), 5)?;
    assert!(rt; first_other_wake::<RwCore>(&mut lock, &LET_ON) == None);
    Ok(())
}
