//! What the journals of a record are: whether they are there, follow their machines, and keep the edge law.
use crate::texts::{entry_lists, text_of};
use object_checks::journals::{follow_machines, fronts_fit, journals_of, keep_all_edges};
use record_text::{RecordText, read_record};
use std::alloc::{AllocError, Global};
use std::test::Fail;
use workload::{ObjectKind, Workload};

// What is found of the workers' entries.
#[derive(Clone, Copy, Debug, PartialEq, Eq)]
enum Found {
    // The text isn't one of a record, or a line is that of no entry.
    Unread,
    // The entries are no journals.
    NoJournals,
    // A journal doesn't follow its machine.
    NoRun,
    // They follow their machines, and somebody who acquires doesn't know what was released.
    NoEdges,
    // All is so.
    Lawful,
}

// The lines of items, and what they are.
type Row = (&'static [u8], Found);

// Two workers, and an object of each kind; worker 1 waits to be started. Its scripts say what room the pool has.
const WORKLOAD: &[u8] =
    b"workers 2\nmutex m\nrwmutex w\ncond c m\nwaitgroup g 1\nint64 a\nonce o a 3\noncefunc f 7\noncevalue v 9\npool p\ndormant 1\nworker 0\nput p 5\nput p 6\n";

const LOCKS: [Row; 29] = [
    (b"", Found::Lawful),
    (
        b"event 0 - m 0 0,0 arrive@0 acquired\nevent 0 - m 1 0,0 unlock free\n",
        Found::Lawful,
    ),
    (
        b"event 0 - m 0 0,0 arrive@0 acquired\nevent 1 - m 1 0,0 arrive@0 queued\nevent 0 - m 2 0,0 unlock woke=1\nevent 1 - m 3 0,0 woken@1 acquired\n",
        Found::Lawful,
    ),
    (
        b"event 0 - m 0 0,0 arrive@0 acquired\nevent 1 - m 1 0,0 arrive@0 acquired\n",
        Found::NoRun,
    ),
    (
        b"event 0 - m 0 0,0 arrive@0 acquired\nevent 1 - m 1 0,0 try false\n",
        Found::Lawful,
    ),
    (
        b"event 0 - m 0 0,0 arrive@0 acquired\nevent 1 - m 1 0,0 try true\n",
        Found::NoRun,
    ),
    // Nobody is woken before it arrives.
    (b"event 0 - m 0 0,0 woken@0 acquired\n", Found::NoRun),
    (b"event 0 - m 0 0,0 woken@0 still\n", Found::Lawful),
    (
        b"event 1 - m 0 0,0 woken@1 acquired\nevent 1 - m 1 0,0 arrive@0 acquired\n",
        Found::NoRun,
    ),
    (b"event 0 - m 0 0,0 unlock m1\n", Found::Lawful),
    (b"event 0 - m 0 0,0 unlock free\n", Found::NoRun),
    (b"event 0 - m 1 0,0 arrive@0 acquired\n", Found::NoJournals),
    (
        b"event 0 - m 0 0,0 arrive@0 acquired\nevent 1 - m 0 0,0 try false\n",
        Found::NoJournals,
    ),
    (
        b"event 0 - m 1 0,0 unlock free\nevent 0 - m 0 0,0 arrive@0 acquired\n",
        Found::NoJournals,
    ),
    (
        b"event 0 - m 0 0,0 arrive@0 acquired\nevent 0 - m 2 0,0 unlock free\n",
        Found::NoJournals,
    ),
    (
        b"event 0 - m 0 0,0 arrive@0 acquired\nevent 0 - m 1 1,0 unlock free\nevent 1 - m 2 1,0 try true\n",
        Found::Lawful,
    ),
    (
        b"event 0 - m 0 0,0 arrive@0 acquired\nevent 0 - m 1 1,0 unlock free\nevent 1 - m 2 0,0 try true\n",
        Found::NoEdges,
    ),
    (
        b"event 0 - m 0 1,0 arrive@0 acquired\nevent 1 - m 1 0,0 try false\n",
        Found::Lawful,
    ),
    (
        b"event 0 - m 0 0,0 halt=M1 ok\nevent 1 - m 1 0,0 try halted=M1\n",
        Found::Lawful,
    ),
    (
        b"event 0 - m 0 0,0 halt=M1 ok\nevent 1 - m 1 0,0 try halted=M2\n",
        Found::NoRun,
    ),
    (
        b"event 0 - m 0 0,0 halt=M1 ok\nevent 1 - m 1 0,0 try true\n",
        Found::NoRun,
    ),
    (b"event 0 - m 0 0,0 try halted=M1\n", Found::NoRun),
    (
        b"event 0 - w 0 0,0 r_arrive acquired\nevent 1 - w 1 0,0 r_try true\nevent 0 - w 2 0,0 r_unlock ok\nevent 1 - w 3 0,0 r_unlock ok\nevent 1 - w 4 0,0 w_try true\n",
        Found::Lawful,
    ),
    (
        b"event 0 - w 0 0,0 r_arrive acquired\nevent 1 - w 1 0,0 w_try true\n",
        Found::NoRun,
    ),
    (
        b"event 0 - w 0 0,0 w_arrive@0 acquired\nevent 1 - w 1 0,0 r_arrive queued\nevent 0 - w 2 0,0 w_unlock ok\nevent 1 - w 3 0,0 leave ok\n",
        Found::Lawful,
    ),
    (
        b"event 0 - w 0 0,0 w_arrive@0 acquired\nevent 1 - w 1 0,0 r_arrive queued\nevent 1 - w 2 0,0 leave ok\n",
        Found::NoRun,
    ),
    (
        b"event 0 - w 0 0,0 w_arrive@0 acquired\nevent 0 - w 1 1,0 w_unlock ok\nevent 1 - w 2 0,0 r_arrive acquired\n",
        Found::NoEdges,
    ),
    (b"event 0 - w 0 0,0 r_unlock m2\n", Found::Lawful),
    (b"event 0 - w 0 0,0 w_unlock m2\n", Found::Unread),
];

const WAITS: [Row; 27] = [
    (
        b"event 0 - c 0 0,0 ticket ok\nevent 1 - c 1 0,0 signal ok\nevent 0 - c 2 0,0 leave ok\n",
        Found::Lawful,
    ),
    (
        b"event 0 - c 0 0,0 ticket ok\nevent 0 - c 1 0,0 leave ok\n",
        Found::NoRun,
    ),
    (
        b"event 0 - c 0 0,0 ticket ok\nevent 0 - c 1 0,0 leave still\n",
        Found::Lawful,
    ),
    (
        b"event 0 - c 0 0,0 ticket ok\nevent 1 - c 1 0,2 broadcast ok\nevent 0 - c 2 0,1 leave ok\n",
        Found::NoEdges,
    ),
    (
        b"event 0 - g 0 0,0 wait queued\nevent 1 - g 1 0,0 add=-1 ok\nevent 0 - g 2 0,0 leave ok\n",
        Found::Lawful,
    ),
    (b"event 0 - g 0 0,0 wait ok\n", Found::NoRun),
    (
        b"event 0 - g 0 0,0 add=-1 ok\nevent 0 - g 1 0,0 wait ok\n",
        Found::Lawful,
    ),
    (b"event 0 - g 0 0,0 add=-2 m4\n", Found::Lawful),
    (b"event 0 - g 0 0,0 add=-2 ok\n", Found::NoRun),
    (
        b"event 1 - g 0 0,3 add=-1 ok\nevent 0 - g 1 0,2 wait ok\n",
        Found::NoEdges,
    ),
    (
        b"event 0 - o 0 0,0 begin run\nevent 1 - o 1 0,0 begin queued\nevent 0 - o 2 0,0 end ok\nevent 1 - o 3 0,0 leave ok\n",
        Found::Lawful,
    ),
    (
        b"event 0 - o 0 0,0 begin run\nevent 1 - o 1 0,0 begin run\n",
        Found::NoRun,
    ),
    (
        b"event 0 - o 0 0,0 begin run\nevent 1 - o 1 0,0 begin done\n",
        Found::NoRun,
    ),
    (
        b"event 0 - f 0 0,0 begin run\nevent 0 - f 1 2,0 end ok\nevent 1 - f 2 2,0 begin done\n",
        Found::Lawful,
    ),
    (
        b"event 0 - f 0 0,0 begin run\nevent 0 - f 1 2,0 end ok\nevent 1 - f 2 1,0 begin done\n",
        Found::NoEdges,
    ),
    (
        b"event 0 - v 0 0,0 begin run\nevent 0 - v 1 0,0 end ok\nevent 0 - v 2 0,0 end ok\n",
        Found::NoRun,
    ),
    (
        b"event 0 - p!0 0 0,0 put=5 ok\nevent 0 - p!0 1 0,0 put=6 ok\nevent 1 - p!0 2 0,0 look_other item=6\n",
        Found::Lawful,
    ),
    (
        b"event 0 - p!0 0 0,0 put=5 ok\nevent 0 - p!0 1 0,0 put=6 ok\nevent 1 - p!0 2 0,0 look_other none\n",
        Found::NoRun,
    ),
    (
        b"event 0 - p!0 0 0,0 put=5 ok\nevent 1 - p!0 1 0,0 look_other item=5\n",
        Found::NoRun,
    ),
    (
        b"event 0 - p!0 0 3,0 put=5 ok\nevent 0 - p!0 1 4,0 put=6 ok\nevent 1 - p!0 2 3,0 look_other item=6\n",
        Found::NoEdges,
    ),
    (
        b"event 0 - p!0 0 0,0 put=5 ok\nevent 0 - p!0 1 0,0 sweep ok\nevent 0 - p!0 2 0,0 look_victim item=5\n",
        Found::Lawful,
    ),
    (b"event 0 - p!1 0 0,0 sweep ok\n", Found::Lawful),
    (
        b"event 0 - !starts 0 0,0 start=1 ok\nevent 1 - !starts 1 0,0 leave go\n",
        Found::Lawful,
    ),
    (b"event 1 - !starts 0 0,0 leave go\n", Found::NoRun),
    (
        b"event 1 - !starts 0 0,0 leave still\nevent 0 - !starts 1 2,0 start=1 ok\nevent 1 - !starts 2 1,0 leave go\n",
        Found::NoEdges,
    ),
    (
        b"event 0 - !stop 0 0,0 halt=M3 ok\nevent 1 - !stop 1 0,0 halt=M4 ok\n",
        Found::Lawful,
    ),
    (b"event 0 - !stop 1 0,0 halt=M3 ok\n", Found::NoJournals),
];

// How many objects the record has.
fn object_count(workload: &Workload) -> usize {
    let mut count: usize = 2;
    for line in workload.objects() {
        count = count.wrapping_add(1);
        if line.kind == ObjectKind::Pool {
            count = count.wrapping_add(workload.workers() as usize);
        }
    }
    count
}

fn found_in(alloc: Global, text: &RecordText<'_>) -> Result<Found, AllocError> {
    let Some(lists) = entry_lists(alloc, &text.workload, text.items.as_slice())? else {
        return Ok(Found::Unread);
    };
    if lists.len() > 64 {
        return Ok(Found::Unread);
    }
    let Some(journals) = journals_of(alloc, &lists, object_count(&text.workload))? else {
        return Ok(Found::NoJournals);
    };
    if !follow_machines(alloc, &text.workload, &journals)? {
        return Ok(Found::NoRun);
    }
    if !fronts_fit(&journals) {
        return Ok(Found::Unread);
    }
    if !keep_all_edges(alloc, &journals)? {
        return Ok(Found::NoEdges);
    }
    Ok(Found::Lawful)
}

fn find(alloc: Global, items: &[u8]) -> Result<Found, AllocError> {
    let text = text_of(alloc, WORKLOAD, items)?;
    match read_record(alloc, &text) {
        Err(_) => Ok(Found::Unread),
        Ok(text) => found_in(alloc, &text),
    }
}

#[test]
fn journals_of_locks_are_judged(rt: HostRuntime) -> Result<(), Fail> {
    for &row in &LOCKS {
        let items = row.0;
        let is = find(rt.alloc(), items)?;
        assert!(rt; is == row.1, "at {items:?}: {is:?}");
    }
    Ok(())
}

#[test]
fn journals_of_what_is_waited_for_are_judged(rt: HostRuntime) -> Result<(), Fail> {
    for &row in &WAITS {
        let items = row.0;
        let is = find(rt.alloc(), items)?;
        assert!(rt; is == row.1, "at {items:?}: {is:?}");
    }
    Ok(())
}
