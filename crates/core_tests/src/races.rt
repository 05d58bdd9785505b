//! Worked traces, and which of their steps race.
use std::alloc::{AllocError, Global};
use std::test::Fail;
use vector_clocks::{Access, Race, Step, fits, races};

// a step: its worker; the channels from which it takes in, into which it gives, and which it sets; its access
type Row = (
    u32,
    &'static [u32],
    &'static [u32],
    &'static [u32],
    Option<Access>,
);

const NONE: Option<Access> = None;

const READ: Option<Access> = Some(Access {
    variable: 0,
    writes: false,
});

const WRITE: Option<Access> = Some(Access {
    variable: 0,
    writes: true,
});

const WRITE_OTHER: Option<Access> = Some(Access {
    variable: 1,
    writes: true,
});

// A write and a read with nothing between them; two reads; two variables.
const PLAIN: [Row; 4] = [
    (0, &[], &[], &[], WRITE),
    (1, &[], &[], &[], READ),
    (2, &[], &[], &[], READ),
    (2, &[], &[], &[], WRITE_OTHER),
];

// A mutex, whose unlocks give into channel 0.
const LOCKED: [Row; 6] = [
    (0, &[0], &[], &[], NONE),
    (0, &[], &[], &[], WRITE),
    (0, &[], &[0], &[], NONE),
    (1, &[0], &[], &[], NONE),
    (1, &[], &[], &[], READ),
    (1, &[], &[0], &[], NONE),
];

// A reader/writer mutex: readers take in what writers give into channel 0, and give into channel 1.
const READERS: [Row; 6] = [
    (0, &[0], &[], &[], NONE),
    (0, &[], &[], &[], WRITE),
    (0, &[], &[1], &[], NONE),
    (1, &[0], &[], &[], NONE),
    (1, &[], &[], &[], WRITE),
    (1, &[], &[1], &[], NONE),
];

// An atomic, whose stores set channel 0 and whose loads take it in: the load finds the second store alone.
const STORED: [Row; 6] = [
    (0, &[], &[], &[], WRITE),
    (0, &[], &[], &[0], NONE),
    (1, &[], &[], &[], WRITE),
    (1, &[], &[], &[0], NONE),
    (2, &[0], &[], &[], NONE),
    (2, &[], &[], &[], READ),
];

fn step(alloc: Global, row: &Row) -> Result<Step, AllocError> {
    Ok(Step {
        worker: row.0,
        takes: Vec::from_slice(alloc, row.1)?,
        gives: Vec::from_slice(alloc, row.2)?,
        sets: Vec::from_slice(alloc, row.3)?,
        access: row.4,
    })
}

fn trace_of(alloc: Global, rows: &[Row]) -> Result<Vec<Step>, AllocError> {
    let mut trace = Vec::new(alloc);
    for row in rows {
        trace.push(step(alloc, row)?)?;
    }
    Ok(trace)
}

// The races as pairs, of a trace of three workers and two channels.
fn found(alloc: Global, rows: &[Row]) -> Result<Option<Vec<Race>>, AllocError> {
    let trace = trace_of(alloc, rows)?;
    if !fits(&trace, 3, 2) {
        return Ok(None);
    }
    Ok(Some(races(alloc, &trace, 3, 2)?))
}

const fn race(earlier: usize, later: usize) -> Race {
    Race { earlier, later }
}

#[test]
fn steps_of_worked_traces_race(rt: HostRuntime) -> Result<(), Fail> {
    for (rows, wanted) in [
        (PLAIN.as_slice(), [race(0, 1), race(0, 2)].as_slice()),
        (LOCKED.as_slice(), [].as_slice()),
        (READERS.as_slice(), [race(1, 4)].as_slice()),
        (STORED.as_slice(), [race(0, 2), race(0, 5)].as_slice()),
    ] {
        let races = found(rt.alloc(), rows)?;
        assert!(rt; races.as_deref() == Some(wanted));
    }
    Ok(())
}
