//! Runs of the call `gosync` as rows of a table: what is handed in, what fails, and what is to come out.
use gosync_call::{Status, gosync};
use std::alloc::{AllocError, Global};
use std::sync::Wait;
use std::thread::Threads;
use sync_outside::{
    Clock, Gate, MemClock, MemFile, MemSink, MemSources, OpenGate, Spawner, ThreadSpawner,
};

/// A run of the program: its file `w.txt`, its words, the calls on its source, on its output and on its
/// error output that fail, and then its status and what it wrote on both.
#[derive(Clone, Copy)]
pub(super) struct Row {
    pub(super) text: &'static str,
    pub(super) words: &'static str,
    pub(super) source: &'static [u64],
    pub(super) out: &'static [u64],
    pub(super) err: &'static [u64],
    pub(super) status: u8,
    pub(super) report: &'static str,
    pub(super) message: &'static str,
}

pub(super) const STEP: Row = Row {
    text: "",
    words: "gosync step w.txt",
    source: &[],
    out: &[],
    err: &[],
    status: 0,
    report: "",
    message: "",
};

pub(super) const TWO_CALLS: &str = "workers 1\nmap t\nworker 0\nstore t apple 5\nload t apple\n";

pub(super) const COND_CALLS: &str =
    "workers 2\nmutex m\ncond c m\nworker 0\nlock m\nwait c\nunlock m\nworker 1\nlock m\nsignal c\nunlock m\n";

/// What the program answers and writes.
#[derive(Drop)]
pub(super) struct Ran {
    pub(super) status: Status,
    pub(super) out: MemSink,
    pub(super) err: MemSink,
}

fn words_of(alloc: Global, line: &str) -> Result<Vec<String>, AllocError> {
    let mut words = Vec::new(alloc);
    for word in line.split(' ') {
        words.push(String::from_str(alloc, word)?)?;
    }
    Ok(words)
}

/// Runs a row on this text, with room for so many bytes of the report, with this clock, this spawner and this gate.
pub(super) fn run_by<R: Threads + Wait + Sync, C: Clock + Sync, P: Spawner, G: Gate + Sync>(
    rt: &R,
    alloc: Global,
    text: &str,
    room: usize,
    row: &Row,
    clock: &C,
    spawner: &mut P,
    gate: &G,
) -> Result<Ran, AllocError> {
    let mut files = Vec::new(alloc);
    let name = String::from_str(alloc, "w.txt")?;
    files.push(MemFile::new(name, Vec::from_slice(alloc, text.as_bytes())?))?;
    let mut src = MemSources::new(files, Vec::from_slice(alloc, row.source)?);
    let mut out = MemSink::new(alloc, room, Vec::from_slice(alloc, row.out)?)?;
    let mut err = MemSink::new(alloc, 1_000, Vec::from_slice(alloc, row.err)?)?;
    let words = words_of(alloc, row.words)?;
    let status = gosync(
        rt, alloc, &words, &mut src, &mut out, &mut err, clock, spawner, gate,
    );
    Ok(Ran { status, out, err })
}

/// The same, by a clock that stands at 0.
pub(super) fn run_through<R: Threads + Wait + Sync, P: Spawner, G: Gate + Sync>(
    rt: &R,
    alloc: Global,
    text: &str,
    room: usize,
    row: &Row,
    spawner: &mut P,
    gate: &G,
) -> Result<Ran, AllocError> {
    let clock = MemClock::new(Vec::new(alloc));
    run_by(rt, alloc, text, room, row, &clock, spawner, gate)
}

/// Runs a row on this text, in threads of the machine, where the row asks for threads.
pub(super) fn run_on<R: Threads + Wait + Sync>(
    rt: &R,
    alloc: Global,
    text: &str,
    room: usize,
    row: &Row,
) -> Result<Ran, AllocError> {
    let mut spawner = ThreadSpawner::new();
    run_through(rt, alloc, text, room, row, &mut spawner, &OpenGate)
}

/// Whether this is what the row says.
pub(super) fn matches_row(ran: &Ran, row: &Row) -> bool {
    ran.status.code() == row.status
        && ran.out.as_bytes() == row.report.as_bytes()
        && ran.err.as_bytes() == row.message.as_bytes()
}

/// Whether the program answers and writes on this text what the row says.
pub(super) fn comes_out_on<R: Threads + Wait + Sync>(
    rt: &R,
    alloc: Global,
    text: &str,
    row: &Row,
) -> Result<bool, AllocError> {
    let ran = run_on(rt, alloc, text, 10_000, row)?;
    Ok(matches_row(&ran, row))
}

/// Whether the program answers and writes what the row says.
pub(super) fn comes_out<R: Threads + Wait + Sync>(
    rt: &R,
    alloc: Global,
    row: &Row,
) -> Result<bool, AllocError> {
    comes_out_on(rt, alloc, row.text, row)
}
