//! A worker's whole list, as what it makes before its script, the calls of a run of its script, and what it makes behind it.
ghost use Rattle.std.specs.Prelude.{◌≡◌, ◌+◌, ◌≤◌, ◌<◌, IfOk, MatchOption, None, Some, [], ◌∷◌, ◌++◌, length, drop, get_or};
ghost use Rattle.std.specs.List.{list_all, slice_range};
ghost use Rattle.script_calls.specs.Runs.{passed_over};
ghost use Rattle.run_record.specs.Record.{shared_in};
ghost use Rattle.run_cuts.specs.CallCuts.{call_cut};
ghost use Rattle.run_cuts.specs.CallsAlong.{calls_along};
ghost use Rattle.run_cuts.specs.LineCuts.{is_halt, same_misuse, cut_from, line_cut};
ghost use Rattle.run_cuts.specs.OneLine.{settles_by};
ghost use Rattle.run_cuts.specs.StartsCuts.{opening_cut, closing_cut};
ghost use Rattle.list_checks.specs.CallMarks.{calls_behind, stop_end, up_to};
ghost use Rattle.list_checks.specs.SpellLines.{ended_at, ended_by, is_shared, line_told, stays_by, HasNoLine, IsLineTold, IsSpelling};

use crate::spell::call::spell_call;
use crate::spell::spelt::{Spelt, Stop};
use crate::spell::starts::{spell_closing, spell_opening};
use run_cuts::laws::{
    a_call_is_cut_as_it_is_spelt, a_list_is_cut_into_one_line,
    a_list_tells_of_which_call_each_item_is,
};
use run_record::Made;
use script_calls::{Call, Reply};
use std::alloc::{AllocError, Global};
use sync_model::Deed;
use sync_types::{BoundedSeq, Misuse, Seq};
use workload::Workload;

/// How a worker's list ends.
#[derive(Clone, Copy, Debug, PartialEq, Eq, Drop)]
pub enum Ending {
    /// At the end of its script.
    Whole,
    /// In a call that is this misuse.
    Misused(Misuse),
    /// In a call that was cut short by a halt.
    Halted(Misuse),
    /// In a call that isn't done yet.
    Unfinished,
    /// Before its script: the worker was told that it is never started.
    Never,
    /// Before its script, where it met a halt.
    Stopped(Misuse),
    /// Before its script: the worker waits to be started.
    Waits,
}

/// What a worker's list spells.
#[derive(Drop)]
pub struct SpeltLine {
    /// The replies of the completed calls, in order.
    pub replies: Seq<Reply<u32>>,
    /// Of which call each item is, by the call's place in the script, up to the halts behind a misuse. An item that stands before the
    /// script or behind it is of none.
    pub calls: Seq<Option<usize>>,
    /// How the list ends.
    pub ending: Ending,
}

/// What a worker's list spells, along a run of its script: the replies of the calls that were completed, of which call each item is, and
/// how the list ends. This is a line of the list, and the only one that has ended, but for the order in which a `range` replies pairs
/// whose keys have one name. Whatever line of the list there is, its items are of these calls. Where it is nothing, no line of the list
/// has ended; and where the workload has no plain variable, the list has no line at all. A list doesn't tell whether a last call whose
/// items are all there has returned: it is told as if it had.
pub fn spell_line(
    alloc: Global,
    workload: &Workload,
    worker: u32,
    items: &[Made],
) -> Result<Option<SpeltLine>, AllocError>
    requires { worker < workload.now.workers }
    ensures { IfOk result (λ found. MatchOption found (HasNoLine workload.now worker items.now) (IsSpelling workload.now worker items.now)) }
{
    a_call_is_cut_as_it_is_spelt();
    a_list_is_cut_into_one_line();
    a_list_tells_of_which_call_each_item_is();
    // The workload is valid.
    let _workers = workload.workers();
    cut_line(alloc, workload, worker, items)
}

// The line that the list and the worker's script are cut into.
fn cut_line(
    alloc: Global,
    workload: &Workload,
    worker: u32,
    items: &[Made],
) -> Result<Option<SpeltLine>, AllocError>
    requires { worker < workload.now.workers }
    ensures { IfOk result (IsLineTold (settles_by workload.now) calls_along (line_cut (opening_cut workload.now worker) (closing_cut workload.now worker) (call_cut workload.now worker) 0 (get_or workload.now.scripts worker []) items.now)) }
{
    let calls = BoundedSeq::with_room(alloc, items.len())?;
    match spell_opening(workload, worker, items) {
        Ok(opened) => {
            let calls = marked(calls, opened.end, None);
            if opened.outcome {
                return cut_script(alloc, workload, worker, items, opened.end, calls);
            }
            Ok(never_started(alloc, items, opened.end, calls))
        }
        Err(stop) => Ok(stopped_before(alloc, items, stop, calls)),
    }
}

// The line of a worker that was told that it is never started, where its list ends here.
fn never_started(
    alloc: Global,
    items: &[Made],
    end: usize,
    calls: BoundedSeq<Option<usize>>,
) -> Option<SpeltLine>
    ensures { result ≡ line_told [] calls.items (ended_at items.now end Ending.Never) }
{
    line_of(Seq::new(alloc), calls, ending_at(items, end, Ending::Never))
}

// The line of a worker that was stopped before its script.
fn stopped_before(
    alloc: Global,
    items: &[Made],
    stop: Stop,
    calls: BoundedSeq<Option<usize>>,
) -> Option<SpeltLine>
    requires from { length calls.items ≤ stop_end items.now stop }
    requires room { stop_end items.now stop ≤ calls.room }
    ensures { result ≡ line_told [] (up_to calls.items (stop_end items.now stop) None) (stays_by items.now stop) }
{
    let calls = marked(calls, stop_end(items, stop), None);
    let ending = match stop {
        Stop::Halted(end, misuse) => ending_at(items, end, Ending::Stopped(misuse)),
        Stop::Within => Some(Ending::Waits),
        Stop::Misused(_, _) | Stop::Wrong => None,
    };
    line_of(Seq::new(alloc), calls, ending)
}

// How far a list is read.
#[derive(Drop)]
struct Progress {
    // The place behind the completed calls.
    at: usize,
    // How many calls on maps and atomics stand before it.
    before: usize,
    // How many of the next calls of the script are passed over.
    passes: usize,
    replies: Seq<Reply<u32>>,
    // Of which call each item before the place is.
    calls: BoundedSeq<Option<usize>>,
}

// The calls of a run of the script, and what stands behind them, from a place on.
fn cut_script(
    alloc: Global,
    workload: &Workload,
    worker: u32,
    items: &[Made],
    from: usize,
    calls: BoundedSeq<Option<usize>>,
) -> Result<Option<SpeltLine>, AllocError>
    requires worker { worker < workload.now.workers }
    requires from { from ≤ length items.now }
    requires calls { length calls.items ≡ from }
    requires room { calls.room ≡ length items.now }
    ensures { IfOk result (IsLineTold (settles_by workload.now) (calls_behind calls.items) (cut_from (closing_cut workload.now worker) (call_cut workload.now worker) 0 0 (get_or workload.now.scripts worker []) (drop from items.now))) }
{
    a_call_is_cut_as_it_is_spelt();
    let mut progress = Progress {
        at: from,
        before: 0,
        passes: 0,
        replies: Seq::new(alloc),
        calls,
    };
    let script = workload.script(worker);
    for index in 0..script.len() {
        if progress.passes > 0 {
            progress.passes -= 1;
            continue;
        }
        let call = &script[index];
        let found = spell_call(
            alloc,
            workload,
            worker,
            progress.before,
            call,
            items,
            progress.at,
        )?;
        match found {
            Ok(spelt) => progress = advanced(progress, items, index, call, spelt)?,
            Err(stop) => {
                return Ok(ended(items, stop, progress.replies, progress.calls, Some(index)));
            }
        }
    }
    match spell_closing(workload, worker, items, progress.at) {
        Ok(closed) => Ok(whole(items, closed.end, progress.replies, progress.calls)),
        Err(stop) => Ok(ended(items, stop, progress.replies, progress.calls, None)),
    }
}

// The list is read behind one more completed call, which stands at this place of the script.
fn advanced(
    progress: Progress,
    items: &[Made],
    place: usize,
    call: &Call,
    spelt: Spelt<Reply<u32>>,
) -> Result<Progress, AllocError>
    requires from { progress.at ≤ spelt.end }
    requires end { spelt.end ≤ length items.now }
    requires few { progress.before ≤ progress.at }
    requires calls { length progress.calls.items ≤ spelt.end }
    requires room { spelt.end ≤ progress.calls.room }
    ensures { IfOk result (λ next. next ≡ record { at = spelt.end; before = progress.before + length (shared_in (slice_range items.now progress.at spelt.end)); passes = passed_over call.now spelt.outcome; replies = progress.replies ++ spelt.outcome ∷ []; calls = record progress.calls { items = up_to progress.calls.items spelt.end (Some place) } }) }
{
    let Progress {
        at,
        before,
        passes: _,
        mut replies,
        calls,
    } = progress;
    let Spelt { end, outcome } = spelt;
    let more = shared_between(items, at, end);
    let passes = call.passed_over(&outcome);
    replies.push(outcome)?;
    let calls = marked(calls, end, Some(place));
    Ok(Progress {
        at: end,
        before: before + more,
        passes,
        replies,
        calls,
    })
}

// How many calls on maps and atomics stand between two places.
fn shared_between(items: &[Made], from: usize, end: usize) -> usize
    requires from { from ≤ end }
    requires end { end ≤ length items.now }
    ensures count { result ≡ length (shared_in (slice_range items.now from end)) }
    ensures few { result + from ≤ end }
{
    let mut count = 0;
    for index in from..end {
        if !is_shared(&items[index]) {
            continue;
        }
        count += 1;
    }
    count
}

fn is_shared(item: &Made) -> bool
    ensures { result ≡ is_shared item.now }
{
    match item {
        Made::Shared(_) => true,
        Made::Entered { .. } => false,
    }
}

// The line of a worker that has made all that it is to make, where its list ends here.
fn whole(
    items: &[Made],
    end: usize,
    replies: Seq<Reply<u32>>,
    calls: BoundedSeq<Option<usize>>,
) -> Option<SpeltLine>
    requires from { length calls.items ≤ end }
    requires room { end ≤ calls.room }
    ensures { result ≡ line_told replies (up_to calls.items end None) (ended_at items.now end Ending.Whole) }
{
    let calls = marked(calls, end, None);
    line_of(replies, calls, ending_at(items, end, Ending::Whole))
}

// The line of a worker whose last call isn't done: the one at this place of the script, or none, behind it.
fn ended(
    items: &[Made],
    stop: Stop,
    replies: Seq<Reply<u32>>,
    calls: BoundedSeq<Option<usize>>,
    last: Option<usize>,
) -> Option<SpeltLine>
    requires from { length calls.items ≤ stop_end items.now stop }
    requires room { stop_end items.now stop ≤ calls.room }
    ensures { result ≡ line_told replies (up_to calls.items (stop_end items.now stop) last) (ended_by items.now stop) }
{
    let calls = marked(calls, stop_end(items, stop), last);
    line_of(replies, calls, ending_by(items, stop))
}

// The line with these replies, whose items are of these calls, where its list ends as one may.
fn line_of(
    replies: Seq<Reply<u32>>,
    calls: BoundedSeq<Option<usize>>,
    ending: Option<Ending>,
) -> Option<SpeltLine>
    ensures { result ≡ line_told replies calls.items ending }
{
    let ending = ending?;
    Some(SpeltLine {
        replies,
        calls: calls.into_seq(),
        ending,
    })
}

// The place behind the items of a call that isn't done.
fn stop_end(items: &[Made], stop: Stop) -> usize
    ensures { result ≡ stop_end items.now stop }
{
    match stop {
        Stop::Misused(end, _) | Stop::Halted(end, _) => end,
        Stop::Within | Stop::Wrong => items.len(),
    }
}

// The marks of a list: its next items, up to a place, are of this call.
fn marked(
    calls: BoundedSeq<Option<usize>>,
    end: usize,
    call: Option<usize>,
) -> BoundedSeq<Option<usize>>
    requires from { length calls.items ≤ end }
    requires room { end ≤ calls.room }
    ensures { result ≡ record calls { items = up_to calls.items end call } }
{
    let mut marks = calls;
    let from = marks.as_slice().len();
    for _ in from..end {
        marks.push(call);
    }
    marks
}

// How a list ends that is to end here.
fn ending_at(items: &[Made], end: usize, ending: Ending) -> Option<Ending>
    ensures { result ≡ ended_at items.now end ending }
{
    if end < items.len() {
        None
    } else {
        Some(ending)
    }
}

// How a list ends whose last call isn't done.
fn ending_by(items: &[Made], stop: Stop) -> Option<Ending>
    ensures { result ≡ ended_by items.now stop }
{
    match stop {
        Stop::Misused(end, misuse) => {
            if are_halts(items, end, misuse) {
                Some(Ending::Misused(misuse))
            } else {
                None
            }
        }
        Stop::Halted(end, misuse) => ending_at(items, end, Ending::Halted(misuse)),
        Stop::Within => Some(Ending::Unfinished),
        Stop::Wrong => None,
    }
}

// Whether all items from a place on are halts by a misuse.
fn are_halts(items: &[Made], from: usize, misuse: Misuse) -> bool
    ensures { result ≡ list_all (is_halt misuse) (drop from items.now) }
{
    for index in from..items.len() {
        if !is_halt(&items[index], misuse) {
            return false;
        }
    }
    true
}

fn is_halt(item: &Made, misuse: Misuse) -> bool
    ensures { result ≡ is_halt misuse item.now }
{
    match item {
        Made::Entered { object: _, entry } => match &entry.deed {
            Deed::Halt(other) => is_same_misuse(*other, misuse),
            Deed::Event(_, _) | Deed::Refused(_, _) => false,
        },
        Made::Shared(_) => false,
    }
}

fn is_same_misuse(misuse: Misuse, other: Misuse) -> bool
    ensures { result ≡ same_misuse misuse other }
{
    match (misuse, other) {
        (Misuse::UnlockOfUnlockedMutex, Misuse::UnlockOfUnlockedMutex)
        | (Misuse::RUnlockOfUnlockedRwMutex, Misuse::RUnlockOfUnlockedRwMutex)
        | (Misuse::UnlockOfUnlockedRwMutex, Misuse::UnlockOfUnlockedRwMutex)
        | (Misuse::NegativeWaitGroupCounter, Misuse::NegativeWaitGroupCounter)
        | (Misuse::WaitGroupReused, Misuse::WaitGroupReused)
        | (Misuse::SemaphoreOverReleased, Misuse::SemaphoreOverReleased) => true,
        _ => false,
    }
}
