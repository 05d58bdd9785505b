//! What the calls on maps and atomics are: whether they have a lawful history, keep the front law, and show what cursors may.
mod objects;

use crate::shared::objects::{are_on, objects};
use crate::texts::{made_list, text_of};
use record_text::{RecordText, read_record};
use run_record::Made;
use shared_checks::{keeps_fronts, keeps_ranges, lawful_history_of, steps_follow_begins};
use std::alloc::{AllocError, Global};
use std::test::Fail;
use sync_model::Item;
use sync_types::Seq;

// What is found of the workers' calls.
#[derive(Clone, Copy, Debug, PartialEq, Eq)]
enum Found {
    // The text isn't one of a record, a line is that of no call, or what a call is on isn't there.
    Unread,
    // They have no lawful history.
    NoHistory,
    // They have one, and somebody knew what lies behind, or forgot something.
    NoFronts,
    // A step of a cursor doesn't follow a begin.
    NoBegins,
    // A cursor shows what it may not.
    NoRanges,
    // All is so.
    Lawful,
}

// The lines of items, of each worker's items whether they are entries of the history, and what they are.
type Row = (&'static [u8], [&'static [bool]; 2], Found);

const WORKLOAD: &[u8] =
    b"workers 2\nmap t\nint64 a\nworker 0\nstore t k 5\nstore t k 6\ndelete t k\nload t k\nrange t\nadd a 1\nload a\nworker 1\nstore t k 7\nload t k\nadd a 2\n";

const NO: &[bool] = &[];

const CALL: &[bool] = &[false];

const CALLS: &[bool] = &[false, false, false, false];

const ENTRY: &[bool] = &[true];

const ENTRIES: &[bool] = &[true, true];

const HISTORIES: [Row; 18] = [
    (b"", [NO, NO], Found::Lawful),
    (b"call 0 0 0 0,0 ok\n", [ENTRY, NO], Found::Lawful),
    (b"call 0 0 0 0,0 ok\n", [CALL, NO], Found::NoHistory),
    (b"call 0 0 1 0,0 ok\n", [ENTRY, NO], Found::NoHistory),
    (
        b"call 0 0 0 0,0 ok\ncall 1 1 0 0,0 - false\n",
        [ENTRY, CALL],
        Found::Lawful,
    ),
    (
        b"call 0 0 0 0,0 ok\ncall 1 1 1 0,0 5 true\n",
        [ENTRY, CALL],
        Found::Lawful,
    ),
    (
        b"call 0 0 0 0,0 ok\ncall 1 1 0 0,0 5 true\n",
        [ENTRY, CALL],
        Found::NoHistory,
    ),
    (
        b"call 0 0 0 0,0 ok\ncall 1 1 1 0,0 5 true\n",
        [ENTRY, ENTRY],
        Found::NoHistory,
    ),
    // An item stands behind the history's end.
    (
        b"call 0 0 0 0,0 ok\ncall 1 1 2 0,0 5 true\n",
        [ENTRY, CALL],
        Found::NoHistory,
    ),
    (
        b"begin 0 4 0 0,0\nnext 0 4 1 1,0 -\n",
        [CALLS, NO],
        Found::NoHistory,
    ),
    // Two entries have one place.
    (
        b"call 0 0 0 0,0 ok\ncall 1 0 0 0,0 ok\n",
        [ENTRY, ENTRY],
        Found::NoHistory,
    ),
    (
        b"call 0 0 0 0,0 ok\ncall 1 0 1 0,0 ok\n",
        [ENTRY, ENTRY],
        Found::Lawful,
    ),
    // A delete is an entry where the key is there.
    (b"call 0 2 0 0,0 ok\n", [CALL, NO], Found::Lawful),
    (b"call 0 2 0 0,0 ok\n", [ENTRY, NO], Found::NoHistory),
    (
        b"call 0 0 0 0,0 ok\ncall 0 2 1 1,0 ok\n",
        [ENTRIES, NO],
        Found::Lawful,
    ),
    (
        b"call 0 5 0 0,0 1\ncall 1 2 1 0,0 3\n",
        [ENTRY, ENTRY],
        Found::Lawful,
    ),
    (
        b"call 0 5 0 0,0 1\ncall 1 2 1 0,0 2\n",
        [ENTRY, ENTRY],
        Found::NoHistory,
    ),
    (
        b"call 0 6 1 0,0 2\ncall 1 2 0 0,0 2\n",
        [CALL, ENTRY],
        Found::Lawful,
    ),
];

const FRONTS: [Row; 9] = [
    (b"call 0 3 0 1,0 - false\n", [CALL, NO], Found::NoFronts),
    (b"call 0 3 0 0,1 - false\n", [CALL, NO], Found::NoFronts),
    (
        b"call 0 0 0 0,0 ok\ncall 1 1 0 1,0 - false\n",
        [ENTRY, CALL],
        Found::NoFronts,
    ),
    (
        b"call 0 0 0 0,0 ok\ncall 1 1 1 1,0 5 true\n",
        [ENTRY, CALL],
        Found::Lawful,
    ),
    (
        b"call 0 0 0 0,0 ok\ncall 1 1 1 1,0 5 true\ncall 1 1 1 0,1 5 true\n",
        [ENTRY, CALLS],
        Found::NoFronts,
    ),
    (
        b"call 1 0 0 0,0 ok\ncall 0 3 1 0,0 7 true\ncall 0 3 0 1,0 - false\n",
        [CALLS, ENTRY],
        Found::NoFronts,
    ),
    // A step follows the call that began its cursor.
    (b"next 0 4 0 0,0 -\n", [CALL, NO], Found::NoBegins),
    (
        b"call 0 3 0 0,0 - false\nnext 0 4 0 1,0 -\n",
        [CALLS, NO],
        Found::NoBegins,
    ),
    (
        b"begin 0 4 0 0,0\nnext 0 4 0 1,0 -\n",
        [CALLS, NO],
        Found::Lawful,
    ),
];

const RANGES: [Row; 10] = [
    (
        b"call 0 0 0 0,0 ok\nbegin 0 4 1 1,0\nnext 0 4 1 2,0 k=5\nnext 0 4 1 3,0 -\n",
        [&[true, false, false, false], NO],
        Found::Lawful,
    ),
    // No key is shown, and one is there all the while.
    (
        b"call 0 0 0 0,0 ok\nbegin 0 4 1 1,0\nnext 0 4 1 2,0 -\n",
        [&[true, false, false], NO],
        Found::NoRanges,
    ),
    (
        b"begin 0 4 0 0,0\ncall 1 0 0 0,0 ok\nnext 0 4 1 1,0 -\n",
        [CALLS, ENTRY],
        Found::Lawful,
    ),
    (
        b"call 0 0 0 0,0 ok\nbegin 0 4 1 1,0\nnext 0 4 1 2,0 k=5\nnext 0 4 1 3,0 k=5\n",
        [&[true, false, false, false], NO],
        Found::NoRanges,
    ),
    (
        b"call 0 0 0 0,0 ok\nbegin 0 4 1 1,0\nnext 0 4 1 2,0 k=6\n",
        [&[true, false, false], NO],
        Found::NoRanges,
    ),
    // A value stood at the length before the begin's, and no longer.
    (
        b"call 0 0 0 0,0 ok\ncall 0 1 1 1,0 ok\nbegin 0 4 2 2,0\nnext 0 4 2 3,0 k=5\n",
        [&[true, true, false, false], NO],
        Found::NoRanges,
    ),
    (
        b"call 0 0 0 0,0 ok\ncall 0 1 1 1,0 ok\nbegin 0 4 2 2,0\nnext 0 4 2 3,0 k=6\n",
        [&[true, true, false, false], NO],
        Found::Lawful,
    ),
    (
        b"call 0 0 0 0,0 ok\nbegin 0 4 1 1,0\ncall 1 0 1 0,0 ok\nnext 0 4 2 2,0 k=5\n",
        [&[true, false, false], ENTRY],
        Found::Lawful,
    ),
    (
        b"begin 0 4 0 0,0\ncall 1 0 0 0,0 ok\nnext 0 4 1 1,0 k=7\n",
        [CALLS, ENTRY],
        Found::Lawful,
    ),
    (
        b"begin 0 4 0 0,0\ncall 1 0 0 0,0 ok\nnext 0 4 0 1,0 k=7\n",
        [CALLS, ENTRY],
        Found::NoRanges,
    ),
];

// A worker's calls, where its list has nothing else.
fn calls_of(
    alloc: Global,
    text: &RecordText<'_>,
    worker: u32,
    entries: &[bool],
) -> Result<Option<Seq<Item>>, AllocError> {
    let Some(list) = made_list(alloc, &text.workload, text.items.as_slice(), worker)? else {
        return Ok(None);
    };
    let mut calls = Seq::new(alloc);
    for made in list {
        let Made::Shared(item) = made else {
            return Ok(None);
        };
        let Some(entry) = entries.get(calls.len()).copied() else {
            return Ok(None);
        };
        calls.push(Item { entry, ..item })?;
    }
    Ok(Some(calls))
}

fn lists_of(
    alloc: Global,
    text: &RecordText<'_>,
    entries: [&'static [bool]; 2],
) -> Result<Option<Vec<Seq<Item>>>, AllocError> {
    let mut lists = Vec::new(alloc);
    for (worker, entries) in entries.iter().enumerate() {
        let Some(calls) = calls_of(alloc, text, worker as u32, *entries)? else {
            return Ok(None);
        };
        lists.push(calls)?;
    }
    Ok(Some(lists))
}

fn judge(alloc: Global, lists: &[Seq<Item>]) -> Result<Found, AllocError> {
    let start = objects(alloc)?;
    if lists.len() > 2 || !are_on(&start, lists) {
        return Ok(Found::Unread);
    }
    let Some(history) = lawful_history_of(alloc, objects(alloc)?, lists)? else {
        return Ok(Found::NoHistory);
    };
    if !keeps_fronts(lists) {
        return Ok(Found::NoFronts);
    }
    if !steps_follow_begins(lists) {
        return Ok(Found::NoBegins);
    }
    if !keeps_ranges(&start, &history, lists) {
        return Ok(Found::NoRanges);
    }
    Ok(Found::Lawful)
}

fn find(alloc: Global, row: Row) -> Result<Found, AllocError> {
    let (items, entries, _) = row;
    let text = text_of(alloc, WORKLOAD, items)?;
    let Ok(text) = read_record(alloc, &text) else {
        return Ok(Found::Unread);
    };
    match lists_of(alloc, &text, entries)? {
        None => Ok(Found::Unread),
        Some(lists) => judge(alloc, &lists),
    }
}

#[test]
fn histories_are_judged(rt: HostRuntime) -> Result<(), Fail> {
    for &row in &HISTORIES {
        let items = row.0;
        let is = find(rt.alloc(), row)?;
        assert!(rt; is == row.2, "at {items:?}: {is:?}");
    }
    Ok(())
}

#[test]
fn fronts_and_begins_are_judged(rt: HostRuntime) -> Result<(), Fail> {
    for &row in &FRONTS {
        let items = row.0;
        let is = find(rt.alloc(), row)?;
        assert!(rt; is == row.2, "at {items:?}: {is:?}");
    }
    Ok(())
}

#[test]
fn what_cursors_show_is_judged(rt: HostRuntime) -> Result<(), Fail> {
    for &row in &RANGES {
        let items = row.0;
        let is = find(rt.alloc(), row)?;
        assert!(rt; is == row.2, "at {items:?}: {is:?}");
    }
    Ok(())
}
