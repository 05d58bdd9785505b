//! Which calls a worker's list spells.
use crate::texts::{made_list, text_of};
use list_checks::spell::line::{Ending, SpeltLine, spell_line};
use record_text::{RecordText, read_record};
use std::alloc::{AllocError, Global};
use std::test::Fail;
use sync_types::Misuse;

// What is found of a worker's list.
#[derive(Clone, Copy, Debug, PartialEq, Eq)]
enum Found {
    // The text isn't one of a record, or a line is that of no item.
    Unread,
    // No line of the list has ended.
    NoLine,
    // The list ends so, and so many calls were completed.
    Line(Ending, usize),
}

// A workload, a worker, the lines of its items, and what they spell.
type Row = (&'static [u8], u32, &'static [u8], Found);

const WHOLE_1: Found = Found::Line(Ending::Whole, 1);

const WHOLE_2: Found = Found::Line(Ending::Whole, 2);

const MUTEX: &[u8] = b"workers 1\nmutex m\nworker 0\nlock m\nunlock m\n";

const TRY: &[u8] = b"workers 1\nmutex m\nworker 0\ntrylock m\n";

const UNLOCK: &[u8] = b"workers 1\nmutex m\nworker 0\nunlock m\n";

const READER: &[u8] = b"workers 1\nrwmutex w\nworker 0\nrlock w\nrunlock w\n";

const WRITER: &[u8] = b"workers 1\nrwmutex w\nworker 0\nlock w\nunlock w\n";

const WAIT: &[u8] = b"workers 1\nmutex m\ncond c m\nworker 0\nwait c\n";

const NOTIFY: &[u8] = b"workers 1\nmutex m\ncond c m\nworker 0\nsignal c\nbroadcast c\n";

const GROUP: &[u8] = b"workers 1\nwaitgroup g 0\nworker 0\nadd g 2\nwait g\n";

const ONCE: &[u8] = b"workers 1\nint64 a\nonce o a 3\nworker 0\ndo o\n";

const FUNC: &[u8] = b"workers 1\noncefunc f 7\nworker 0\ncall f\n";

const VALUE: &[u8] = b"workers 1\noncevalue v 9\nworker 0\nvalue v\n";

const POOL: &[u8] = b"workers 1\npool p\nworker 0\nput p 5\nget p\n";

const SWEEP: &[u8] = b"workers 2\npool p\nworker 0\nsweep p\n";

const GO: &[u8] =
    b"workers 2\nwaitgroup g 0\nint64 a\ndormant 1\nworker 0\ngo g 1\nworker 1\nload a\n";

const MAP: &[u8] = b"workers 1\nmap t\nworker 0\nstore t k 5\nload t k\n";

const RANGE: &[u8] = b"workers 1\nmap t\nworker 0\nload t k\nrange t\n";

const TEST: &[u8] = b"workers 1\nint64 a\nworker 0\nifeq a 1 1\nadd a 5\nload a\n";

const TWO_BEHIND: &[u8] = b"workers 1\nint64 a\nworker 0\nifeq a 1 2\nadd a 5\nadd a 6\nload a\n";

const WAITFOR: &[u8] = b"workers 1\nmutex m\nint64 a\ncond c m\nworker 0\nwaitfor c a 1 1\n";

const LOCKS: [Row; 20] = [
    (
        MUTEX,
        0,
        b"event 0 0 m 0 0 arrive@0 acquired\nevent 0 1 m 1 0 unlock free\n",
        WHOLE_2,
    ),
    (
        MUTEX,
        0,
        b"event 0 0 m 0 0 arrive@0 queued\nevent 0 0 m 1 0 woken@1 still\nevent 0 0 m 2 0 woken@2 requeued\nevent 0 0 m 3 0 woken@3 acquired\nevent 0 1 m 4 0 unlock woke=0\n",
        WHOLE_2,
    ),
    (
        MUTEX,
        0,
        b"event 0 0 m 0 0 woken@0 acquired\nevent 0 1 m 1 0 unlock free\n",
        Found::NoLine,
    ),
    (
        MUTEX,
        0,
        b"event 0 0 m 0 0 try true\nevent 0 1 m 1 0 unlock free\n",
        Found::NoLine,
    ),
    (
        MUTEX,
        0,
        b"event 0 0 m 0 0 arrive@0 queued\n",
        Found::Line(Ending::Unfinished, 0),
    ),
    (
        MUTEX,
        0,
        b"event 0 0 m 0 0 arrive@0 halted=M1\n",
        Found::Line(Ending::Halted(Misuse::UnlockOfUnlockedMutex), 0),
    ),
    (
        MUTEX,
        0,
        b"event 0 0 m 0 0 arrive@0 halted=M1\nevent 0 1 m 1 0 unlock free\n",
        Found::NoLine,
    ),
    (TRY, 0, b"event 0 0 m 0 0 try false\n", WHOLE_1),
    (
        UNLOCK,
        0,
        b"event 0 0 m 0 0 unlock m1\n",
        Found::Line(Ending::Misused(Misuse::UnlockOfUnlockedMutex), 0),
    ),
    (
        UNLOCK,
        0,
        b"event 0 0 m 0 0 unlock m1\nevent 0 - !stop 0 0 halt=M1 ok\n",
        Found::Line(Ending::Misused(Misuse::UnlockOfUnlockedMutex), 0),
    ),
    (
        UNLOCK,
        0,
        b"event 0 0 m 0 0 unlock m1\nevent 0 - !stop 0 0 halt=M2 ok\n",
        Found::NoLine,
    ),
    (
        UNLOCK,
        0,
        b"event 0 0 m 0 0 unlock free\nevent 0 - m 1 0 halt=M1 ok\n",
        Found::NoLine,
    ),
    (
        READER,
        0,
        b"event 0 0 w 0 0 r_arrive acquired\nevent 0 1 w 1 0 r_unlock ok\n",
        WHOLE_2,
    ),
    (
        READER,
        0,
        b"event 0 0 w 0 0 r_arrive queued\nevent 0 0 w 1 0 leave still\nevent 0 0 w 2 0 leave ok\nevent 0 1 w 3 0 r_unlock ok\n",
        WHOLE_2,
    ),
    (
        READER,
        0,
        b"event 0 0 w 0 0 w_arrive@0 acquired\nevent 0 1 w 1 0 r_unlock ok\n",
        Found::NoLine,
    ),
    (
        READER,
        0,
        b"event 0 0 w 0 0 r_arrive acquired\nevent 0 1 w 1 0 r_unlock m2\n",
        Found::Line(Ending::Misused(Misuse::RUnlockOfUnlockedRwMutex), 1),
    ),
    (
        WRITER,
        0,
        b"event 0 0 w 0 0 w_arrive@0 acquired\nevent 0 1 w 1 0 w_unlock ok\n",
        WHOLE_2,
    ),
    (
        WRITER,
        0,
        b"event 0 0 w 0 0 w_arrive@0 queued\nevent 0 0 w 1 0 w_woken@1 still\nevent 0 0 w 2 0 w_woken@2 acquired\nevent 0 1 w 3 0 w_unlock ok\n",
        WHOLE_2,
    ),
    (
        WRITER,
        0,
        b"event 0 0 w 0 0 w_arrive@0 queued\nevent 0 0 w 1 0 w_woken@1 queued\nevent 0 0 w 2 0 leave ok\nevent 0 1 w 3 0 w_unlock ok\n",
        WHOLE_2,
    ),
    (
        WRITER,
        0,
        b"event 0 0 w 0 0 r_arrive acquired\nevent 0 1 w 1 0 w_unlock ok\n",
        Found::NoLine,
    ),
];

const WAITS: [Row; 21] = [
    (
        WAIT,
        0,
        b"event 0 0 c 0 0 ticket ok\nevent 0 0 m 0 0 unlock free\nevent 0 0 c 1 0 leave still\nevent 0 0 c 2 0 leave ok\nevent 0 0 m 1 0 arrive@0 acquired\n",
        WHOLE_1,
    ),
    (
        WAIT,
        0,
        b"event 0 0 c 0 0 ticket ok\nevent 0 0 c 1 0 leave ok\nevent 0 0 m 0 0 arrive@0 acquired\n",
        Found::NoLine,
    ),
    (
        WAIT,
        0,
        b"event 0 0 c 0 0 ticket ok\nevent 0 0 m 0 0 unlock m1\n",
        Found::Line(Ending::Misused(Misuse::UnlockOfUnlockedMutex), 0),
    ),
    (
        NOTIFY,
        0,
        b"event 0 0 c 0 0 signal ok\nevent 0 1 c 1 0 broadcast ok\n",
        WHOLE_2,
    ),
    (
        NOTIFY,
        0,
        b"event 0 0 c 0 0 broadcast ok\nevent 0 1 c 1 0 signal ok\n",
        Found::NoLine,
    ),
    (
        GROUP,
        0,
        b"event 0 0 g 0 0 add=2 ok\nevent 0 1 g 1 0 wait ok\n",
        WHOLE_2,
    ),
    (
        GROUP,
        0,
        b"event 0 0 g 0 0 add=2 ok\nevent 0 1 g 1 0 wait queued\nevent 0 1 g 2 0 leave still\nevent 0 1 g 3 0 leave ok\n",
        WHOLE_2,
    ),
    (
        GROUP,
        0,
        b"event 0 0 g 0 0 add=1 ok\nevent 0 1 g 1 0 wait ok\n",
        Found::NoLine,
    ),
    (
        GROUP,
        0,
        b"event 0 0 g 0 0 add=2 m4\n",
        Found::Line(Ending::Misused(Misuse::NegativeWaitGroupCounter), 0),
    ),
    (
        ONCE,
        0,
        b"event 0 0 o 0 0 begin run\ncall 0 0 0 0 3\nevent 0 0 o 1 1 end ok\n",
        WHOLE_1,
    ),
    (ONCE, 0, b"event 0 0 o 0 0 begin done\n", WHOLE_1),
    (
        ONCE,
        0,
        b"event 0 0 o 0 0 begin queued\nevent 0 0 o 1 0 leave still\nevent 0 0 o 2 0 leave ok\n",
        WHOLE_1,
    ),
    (
        ONCE,
        0,
        b"event 0 0 o 0 0 begin run\nevent 0 0 o 1 0 end ok\n",
        Found::NoLine,
    ),
    (
        FUNC,
        0,
        b"event 0 0 f 0 0 begin run\nevent 0 0 f 1 0 end ok\n",
        WHOLE_1,
    ),
    (FUNC, 0, b"event 0 0 f 0 0 end ok\n", Found::NoLine),
    (VALUE, 0, b"event 0 0 v 0 0 begin done\n", WHOLE_1),
    (
        VALUE,
        0,
        b"event 0 0 v 0 0 begin done\nevent 0 0 v 1 0 end ok\n",
        Found::NoLine,
    ),
    (
        GO,
        0,
        b"event 0 0 g 0 0 add=1 ok\nevent 0 0 !starts 0 0 start=1 ok\nevent 0 - !starts 1 0 end ok\n",
        Found::Unread,
    ),
    (
        GO,
        0,
        b"event 0 0 g 0 0,0 add=1 ok\nevent 0 0 !starts 0 0,0 start=1 ok\nevent 0 - !starts 1 0,0 end ok\n",
        WHOLE_1,
    ),
    (
        GO,
        1,
        b"event 1 - !starts 0 0,0 leave still\nevent 1 - !starts 1 0,0 leave go\ncall 1 0 0 0,0 0\nevent 1 - g 0 0,1 add=-1 ok\nevent 1 - !starts 2 0,1 end ok\n",
        WHOLE_1,
    ),
    (
        GO,
        1,
        b"event 1 - !starts 0 0,0 leave never\n",
        Found::Line(Ending::Never, 0),
    ),
];

const OTHERS: [Row; 20] = [
    (
        GO,
        1,
        b"event 1 - !starts 0 0,0 leave never\nevent 1 - !starts 1 0,0 end ok\n",
        Found::NoLine,
    ),
    (
        GO,
        1,
        b"event 1 - !starts 0 0,0 leave halted=M4\n",
        Found::Line(Ending::Stopped(Misuse::NegativeWaitGroupCounter), 0),
    ),
    (GO, 1, b"", Found::Line(Ending::Waits, 0)),
    (
        POOL,
        0,
        b"event 0 0 p!0 0 0 put=5 ok\nevent 0 1 p!0 1 0 look_own item=5\n",
        WHOLE_2,
    ),
    (
        POOL,
        0,
        b"event 0 0 p!0 0 0 put=5 ok\nevent 0 1 p!0 1 0 look_own none\nevent 0 1 p!0 2 0 look_victim none\n",
        WHOLE_2,
    ),
    (POOL, 0, b"event 0 0 p!0 0 0 put=6 ok\n", Found::NoLine),
    (
        POOL,
        0,
        b"event 0 0 p!0 0 0 put=5 ok\nevent 0 1 p!0 1 0 look_victim none\n",
        Found::NoLine,
    ),
    (
        SWEEP,
        0,
        b"event 0 0 p!0 0 0,0 sweep ok\nevent 0 0 p!1 0 0,0 sweep ok\n",
        WHOLE_1,
    ),
    (
        SWEEP,
        0,
        b"event 0 0 p!1 0 0,0 sweep ok\nevent 0 0 p!0 0 0,0 sweep ok\n",
        Found::NoLine,
    ),
    (MAP, 0, b"call 0 0 0 0 ok\ncall 0 1 1 1 5 true\n", WHOLE_2),
    (
        MAP,
        0,
        b"call 0 1 1 0 5 true\ncall 0 0 0 1 ok\n",
        Found::NoLine,
    ),
    (
        MAP,
        0,
        b"call 0 0 0 0 ok\n",
        Found::Line(Ending::Unfinished, 1),
    ),
    (
        RANGE,
        0,
        b"call 0 0 0 0 - false\nbegin 0 1 0 1\nnext 0 1 0 2 k=5\nnext 0 1 0 3 -\n",
        WHOLE_2,
    ),
    (
        RANGE,
        0,
        b"call 0 0 0 0 - false\nnext 0 1 0 1 -\n",
        Found::NoLine,
    ),
    (
        RANGE,
        0,
        b"call 0 0 0 0 - false\nbegin 0 1 0 1\nnext 0 1 0 2 k=5\n",
        Found::Line(Ending::Unfinished, 1),
    ),
    (TEST, 0, b"call 0 0 0 0 0\ncall 0 2 0 1 0\n", WHOLE_2),
    (
        TEST,
        0,
        b"call 0 0 0 0 1\ncall 0 1 0 1 6\ncall 0 2 1 2 6\n",
        Found::Line(Ending::Whole, 3),
    ),
    (TWO_BEHIND, 0, b"call 0 0 0 0 0\ncall 0 3 0 1 0\n", WHOLE_2),
    (WAITFOR, 0, b"call 0 0 0 0 1\n", WHOLE_1),
    (
        WAITFOR,
        0,
        b"call 0 0 0 0 0\nevent 0 0 c 0 1 ticket ok\nevent 0 0 m 0 1 unlock free\nevent 0 0 c 1 1 leave ok\nevent 0 0 m 1 1 arrive@0 acquired\ncall 0 0 0 1 0\n",
        WHOLE_1,
    ),
];

// A workload, a worker, the lines of its items, and of which call of the script each item is.
type CallsRow = (&'static [u8], u32, &'static [u8], &'static [Option<usize>]);

const CALLS: [CallsRow; 6] = [
    (
        TEST,
        0,
        b"call 0 0 0 0 0\ncall 0 2 0 1 0\n",
        &[Some(0), Some(2)],
    ),
    (
        TEST,
        0,
        b"call 0 0 0 0 1\ncall 0 1 0 1 6\n",
        &[Some(0), Some(1)],
    ),
    (
        UNLOCK,
        0,
        b"event 0 0 m 0 0 unlock m1\nevent 0 - !stop 0 0 halt=M1 ok\n",
        &[Some(0)],
    ),
    (
        GO,
        1,
        b"event 1 - !starts 0 0,0 leave still\nevent 1 - !starts 1 0,0 leave go\ncall 1 0 0 0,0 0\nevent 1 - g 0 0,1 add=-1 ok\nevent 1 - !starts 2 0,1 end ok\n",
        &[None, None, Some(0), None, None],
    ),
    (GO, 1, b"event 1 - !starts 0 0,0 leave never\n", &[None]),
    (MUTEX, 0, b"event 0 0 m 0 0 arrive@0 queued\n", &[Some(0)]),
];

fn found_in(alloc: Global, text: &RecordText<'_>, worker: u32) -> Result<Found, AllocError> {
    if worker >= text.workload.workers() {
        return Ok(Found::Unread);
    }
    let Some(list) = made_list(alloc, &text.workload, text.items.as_slice(), worker)? else {
        return Ok(Found::Unread);
    };
    match spell_line(alloc, &text.workload, worker, &list)? {
        None => Ok(Found::NoLine),
        Some(line) => Ok(Found::Line(line.ending, line.replies.len())),
    }
}

fn find(alloc: Global, row: Row) -> Result<Found, AllocError> {
    let (workload, worker, items, _) = row;
    let text = text_of(alloc, workload, items)?;
    match read_record(alloc, &text) {
        Err(_) => Ok(Found::Unread),
        Ok(text) => found_in(alloc, &text, worker),
    }
}

// The line that a worker's list spells, where the text is read.
fn spelt(
    alloc: Global,
    workload: &'static [u8],
    worker: u32,
    items: &'static [u8],
) -> Result<Option<SpeltLine>, AllocError> {
    let text = text_of(alloc, workload, items)?;
    let Ok(text) = read_record(alloc, &text) else {
        return Ok(None);
    };
    if worker >= text.workload.workers() {
        return Ok(None);
    }
    let Some(list) = made_list(alloc, &text.workload, text.items.as_slice(), worker)? else {
        return Ok(None);
    };
    spell_line(alloc, &text.workload, worker, &list)
}

#[test]
fn items_are_of_their_calls(rt: HostRuntime) -> Result<(), Fail> {
    for (workload, worker, items, calls) in &CALLS {
        let line = spelt(rt.alloc(), *workload, *worker, *items)?;
        assert!(rt; line.is_some(), "at {items:?}");
        if let Some(line) = line {
            let is = line.calls.as_slice();
            assert!(rt; is == *calls, "at {items:?}: {is:?}");
        }
    }
    Ok(())
}

#[test]
fn lists_on_locks_are_spelt(rt: HostRuntime) -> Result<(), Fail> {
    for &row in &LOCKS {
        let items = row.2;
        let is = find(rt.alloc(), row)?;
        assert!(rt; is == row.3, "at {items:?}: {is:?}");
    }
    Ok(())
}

#[test]
fn lists_on_what_is_waited_for_are_spelt(rt: HostRuntime) -> Result<(), Fail> {
    for &row in &WAITS {
        let items = row.2;
        let is = find(rt.alloc(), row)?;
        assert!(rt; is == row.3, "at {items:?}: {is:?}");
    }
    Ok(())
}

#[test]
fn lists_on_other_objects_are_spelt(rt: HostRuntime) -> Result<(), Fail> {
    for &row in &OTHERS {
        let items = row.2;
        let is = find(rt.alloc(), row)?;
        assert!(rt; is == row.3, "at {items:?}: {is:?}");
    }
    Ok(())
}
