//! Lists and journals of the kinds of which no text of a record tells: weighted semaphores and flights.
use flight_core::{FlightEvent, FlightReply};
use list_checks::spell::line::{Ending, spell_line};
use object_checks::journals::{
    JournalItem, follow_machines, fronts_fit, journals_of, keep_all_edges,
};
use run_record::{Made, ObjectEvent, ObjectReply};
use sema_core::{SemaEvent, SemaReply};
use std::alloc::{AllocError, Global};
use std::collections::LinkedList;
use std::test::Fail;
use sync_model::{Deed, Entry, Item, SharedCall, SharedReply};
use sync_types::{AtomicCall, AtomicReply, Misuse, Number, Seq};
use workload::Workload;
use workload_text::parse_run;

// What a worker did on the workload's semaphore or its flights.
#[derive(Clone, Copy)]
enum Did {
    Sema(SemaEvent, SemaReply),
    // An event at the semaphore that this misuse refused.
    Refused(SemaEvent, Misuse),
    Flight(FlightEvent, FlightReply),
    // Adds 5 to the int64, which is this then.
    Add(i64),
}

// What a list or journals are.
#[derive(Clone, Copy, Debug, PartialEq, Eq)]
enum Found {
    // The workload isn't read.
    Unread,
    // No line of the list has ended.
    NoLine,
    // The list ends so, and so many calls were completed.
    Line(Ending, usize),
    // The entries are no journals.
    NoJournals,
    // A journal doesn't follow its machine.
    NoRun,
    // They follow their machines, and somebody who acquires doesn't know what was released.
    NoEdges,
    // All is so.
    Lawful,
}

const MISUSE: Misuse = Misuse::SemaphoreOverReleased;

// The semaphore is object 1, and the flights are object 3.
const SEMA_LIST: &[u8] =
    b"workers 1\nsema s 3\nint64 a\nflight f a 5\nworker 0\nacquire s 2\ntryacquire s 2\nrelease s 2\n";

const FLY_LIST: &[u8] = b"workers 1\nsema s 3\nint64 a\nflight f a 5\nworker 0\nfly f k\n";

const BOTH: &[u8] = b"workers 2\nsema s 3\nint64 a\nflight f a 5\nworker 0\nfly f k\n";

// A workload, what its worker did, and what that spells.
type ListRow = (&'static [u8], &'static [Did], Found);

const LISTS: [ListRow; 12] = [
    (
        SEMA_LIST,
        &[
            Did::Sema(SemaEvent::Acquire(2), SemaReply::Done),
            Did::Sema(SemaEvent::Try(2), SemaReply::Refused),
            Did::Sema(SemaEvent::Release(2), SemaReply::Done),
        ],
        Found::Line(Ending::Whole, 3),
    ),
    (
        SEMA_LIST,
        &[
            Did::Sema(SemaEvent::Acquire(2), SemaReply::Queued),
            Did::Sema(SemaEvent::Leave, SemaReply::Still),
            Did::Sema(SemaEvent::Leave, SemaReply::Done),
            Did::Sema(SemaEvent::Try(2), SemaReply::Done),
            Did::Sema(SemaEvent::Release(2), SemaReply::Done),
        ],
        Found::Line(Ending::Whole, 3),
    ),
    (
        SEMA_LIST,
        &[Did::Sema(SemaEvent::Acquire(2), SemaReply::Queued)],
        Found::Line(Ending::Unfinished, 0),
    ),
    (
        SEMA_LIST,
        &[
            Did::Sema(SemaEvent::Acquire(2), SemaReply::Done),
            Did::Sema(SemaEvent::Try(2), SemaReply::Refused),
            Did::Sema(SemaEvent::Release(2), SemaReply::Misused(MISUSE)),
        ],
        Found::Line(Ending::Misused(MISUSE), 2),
    ),
    (
        SEMA_LIST,
        &[Did::Refused(SemaEvent::Acquire(2), MISUSE)],
        Found::Line(Ending::Halted(MISUSE), 0),
    ),
    // Another weight than the call's.
    (
        SEMA_LIST,
        &[Did::Sema(SemaEvent::Acquire(1), SemaReply::Done)],
        Found::NoLine,
    ),
    // An acquire is never refused.
    (
        SEMA_LIST,
        &[Did::Sema(SemaEvent::Acquire(2), SemaReply::Refused)],
        Found::NoLine,
    ),
    (
        FLY_LIST,
        &[
            Did::Flight(FlightEvent::Join(0), FlightReply::Lead),
            Did::Add(5),
            Did::Flight(FlightEvent::Land(5), FlightReply::Landed(false)),
        ],
        Found::Line(Ending::Whole, 1),
    ),
    (
        FLY_LIST,
        &[
            Did::Flight(FlightEvent::Join(0), FlightReply::Queued),
            Did::Flight(FlightEvent::Leave, FlightReply::Left(5)),
        ],
        Found::Line(Ending::Whole, 1),
    ),
    // Another key than the call's.
    (
        FLY_LIST,
        &[Did::Flight(FlightEvent::Join(1), FlightReply::Lead)],
        Found::NoLine,
    ),
    // It lands with another value than the sum.
    (
        FLY_LIST,
        &[
            Did::Flight(FlightEvent::Join(0), FlightReply::Lead),
            Did::Add(5),
            Did::Flight(FlightEvent::Land(6), FlightReply::Landed(false)),
        ],
        Found::NoLine,
    ),
    // It lands before it adds.
    (
        FLY_LIST,
        &[
            Did::Flight(FlightEvent::Join(0), FlightReply::Lead),
            Did::Flight(FlightEvent::Land(5), FlightReply::Landed(false)),
        ],
        Found::NoLine,
    ),
];

// What a worker did, and the counts of its front behind that.
type Step = (u32, Did, [u64; 2]);

// The entries on the semaphore or on the flights, in order, and what they are.
type JournalRow = (&'static [Step], Found);

const NOTHING: [u64; 2] = [0, 0];

const JOURNALS: [JournalRow; 9] = [
    (
        &[
            (
                0,
                Did::Sema(SemaEvent::Acquire(2), SemaReply::Done),
                NOTHING,
            ),
            (
                1,
                Did::Sema(SemaEvent::Acquire(2), SemaReply::Queued),
                NOTHING,
            ),
            (
                0,
                Did::Sema(SemaEvent::Release(2), SemaReply::Done),
                NOTHING,
            ),
            (1, Did::Sema(SemaEvent::Leave, SemaReply::Done), NOTHING),
        ],
        Found::Lawful,
    ),
    // More is held than its size.
    (
        &[
            (
                0,
                Did::Sema(SemaEvent::Acquire(2), SemaReply::Done),
                NOTHING,
            ),
            (
                1,
                Did::Sema(SemaEvent::Acquire(2), SemaReply::Done),
                NOTHING,
            ),
        ],
        Found::NoRun,
    ),
    (
        &[(
            0,
            Did::Sema(SemaEvent::Release(1), SemaReply::Misused(MISUSE)),
            NOTHING,
        )],
        Found::Lawful,
    ),
    (
        &[(0, Did::Refused(SemaEvent::Acquire(1), MISUSE), NOTHING)],
        Found::NoRun,
    ),
    (
        &[
            (
                0,
                Did::Sema(SemaEvent::Acquire(2), SemaReply::Done),
                NOTHING,
            ),
            (0, Did::Sema(SemaEvent::Release(2), SemaReply::Done), [2, 0]),
            (1, Did::Sema(SemaEvent::Try(3), SemaReply::Done), [1, 0]),
        ],
        Found::NoEdges,
    ),
    (
        &[
            (
                0,
                Did::Flight(FlightEvent::Join(0), FlightReply::Lead),
                NOTHING,
            ),
            (
                1,
                Did::Flight(FlightEvent::Join(0), FlightReply::Queued),
                NOTHING,
            ),
            (
                0,
                Did::Flight(FlightEvent::Land(5), FlightReply::Landed(true)),
                NOTHING,
            ),
            (
                1,
                Did::Flight(FlightEvent::Leave, FlightReply::Left(5)),
                NOTHING,
            ),
        ],
        Found::Lawful,
    ),
    // Two lead one key.
    (
        &[
            (
                0,
                Did::Flight(FlightEvent::Join(0), FlightReply::Lead),
                NOTHING,
            ),
            (
                1,
                Did::Flight(FlightEvent::Join(0), FlightReply::Lead),
                NOTHING,
            ),
        ],
        Found::NoRun,
    ),
    // Nobody joined it.
    (
        &[
            (
                0,
                Did::Flight(FlightEvent::Join(0), FlightReply::Lead),
                NOTHING,
            ),
            (
                0,
                Did::Flight(FlightEvent::Land(5), FlightReply::Landed(true)),
                NOTHING,
            ),
        ],
        Found::NoRun,
    ),
    (
        &[
            (
                0,
                Did::Flight(FlightEvent::Join(0), FlightReply::Lead),
                NOTHING,
            ),
            (
                0,
                Did::Flight(FlightEvent::Land(5), FlightReply::Landed(false)),
                [2, 0],
            ),
            (
                1,
                Did::Flight(FlightEvent::Join(0), FlightReply::Lead),
                [1, 0],
            ),
        ],
        Found::NoEdges,
    ),
];

// The object's number, and what was done on it; nothing of a call on the int64.
fn entered(did: Did) -> Option<(usize, Deed<ObjectEvent, ObjectReply>)> {
    match did {
        Did::Sema(event, reply) => Some((
            1,
            Deed::Event(ObjectEvent::Sema(event), ObjectReply::Sema(reply)),
        )),
        Did::Refused(event, misuse) => Some((1, Deed::Refused(ObjectEvent::Sema(event), misuse))),
        Did::Flight(event, reply) => Some((
            3,
            Deed::Event(ObjectEvent::Flight(event), ObjectReply::Flight(reply)),
        )),
        Did::Add(_) => None,
    }
}

fn made(alloc: Global, did: Did) -> Made {
    let front = LinkedList::new(alloc);
    if let Did::Add(sum) = did {
        let call = AtomicCall::Add {
            operand: Number::Int64(5),
        };
        return Made::Shared(Item {
            call: SharedCall::Atomic { atomic: 0, call },
            reply: SharedReply::Atomic(AtomicReply::Held(Number::Int64(sum))),
            place: 0,
            entry: false,
            front,
        });
    }
    let (object, deed) = entered(did).unwrap_or((0, Deed::Halt(MISUSE)));
    let entry = Entry {
        caller: 0,
        deed,
        front,
        knew: 0,
        time: 0,
    };
    Made::Entered { object, entry }
}

fn spelt(
    alloc: Global,
    workload: &'static [u8],
    dids: &'static [Did],
) -> Result<Found, AllocError> {
    let Ok(workload) = parse_run(alloc, workload) else {
        return Ok(Found::Unread);
    };
    if workload.workers() == 0 {
        return Ok(Found::Unread);
    }
    let mut list = Vec::new(alloc);
    for &did in dids {
        list.push(made(alloc, did))?;
    }
    match spell_line(alloc, &workload, 0, &list)? {
        None => Ok(Found::NoLine),
        Some(line) => Ok(Found::Line(line.ending, line.replies.len())),
    }
}

// The counts of a front.
fn front_of(alloc: Global, counts: [u64; 2]) -> Result<Seq<u64>, AllocError> {
    let mut front = Seq::new(alloc);
    front.push(counts[0])?;
    front.push(counts[1])?;
    Ok(front)
}

// What a worker did, each with its number in the journal.
fn list_of(alloc: Global, steps: &[Step], worker: u32) -> Result<Seq<JournalItem>, AllocError> {
    let mut list = Seq::new(alloc);
    for number in 0..steps.len() {
        let (maker, did, front) = steps[number];
        if maker != worker {
            continue;
        }
        if let Some((object, deed)) = entered(did) {
            let front = front_of(alloc, front)?;
            list.push(JournalItem {
                object,
                number: number as u64,
                deed,
                front,
            })?;
        }
    }
    Ok(list)
}

fn judged(alloc: Global, workload: &Workload, steps: &[Step]) -> Result<Found, AllocError> {
    let mut lists = Vec::new(alloc);
    lists.push(list_of(alloc, steps, 0)?)?;
    lists.push(list_of(alloc, steps, 1)?)?;
    // Stop stands before the three objects.
    let Some(journals) = journals_of(alloc, &lists, 4)? else {
        return Ok(Found::NoJournals);
    };
    if !follow_machines(alloc, workload, &journals)? {
        return Ok(Found::NoRun);
    }
    if !fronts_fit(&journals) {
        return Ok(Found::Unread);
    }
    if !keep_all_edges(alloc, &journals)? {
        return Ok(Found::NoEdges);
    }
    Ok(Found::Lawful)
}

fn journals(alloc: Global, steps: &[Step]) -> Result<Found, AllocError> {
    match parse_run(alloc, BOTH) {
        Err(_) => Ok(Found::Unread),
        Ok(workload) => judged(alloc, &workload, steps),
    }
}

#[test]
fn lists_on_semaphores_and_flights_are_spelt(rt: HostRuntime) -> Result<(), Fail> {
    for number in 0..LISTS.len() {
        let (workload, dids, found) = LISTS[number];
        let is = spelt(rt.alloc(), workload, dids)?;
        assert!(rt; is == found, "row {number}: {is:?}");
    }
    Ok(())
}

#[test]
fn journals_of_semaphores_and_flights_are_judged(rt: HostRuntime) -> Result<(), Fail> {
    for number in 0..JOURNALS.len() {
        let (steps, found) = JOURNALS[number];
        let is = journals(rt.alloc(), steps)?;
        assert!(rt; is == found, "row {number}: {is:?}");
    }
    Ok(())
}
