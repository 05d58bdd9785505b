//! One line, read after those before it.
ghost use Rattle.std.specs.Prelude.{◌≡◌, ◌∷◌, [], true, count_by, map, MatchResult, None};
ghost use Rattle.std.specs.Fmt.{decimal};
ghost use Rattle.workload.specs.Words.{turn_word};
ghost use Rattle.workload.specs.Draft.{may_follow, is_access, is_item, keys_of, tries_of};
ghost use Rattle.workload.specs.Checks.{dormant_checks, item_checks, ranges_in, accesses_in, limit_checks, first_failing};
ghost use Rattle.workload_text.specs.LineResult.{IsFault, IsTurns, IsWorkers, IsLineOf, IsLine};

use crate::call_reading::read_call_on;
use crate::number::number;
use crate::object_reading::{parameter_count, read_kind};
use crate::word_reading::{check_name, read_name, read_worker};
use script_calls::Call;
use std::alloc::Global;
use sync_types::{MAX_VALUE, Seq};
use workload::draft::{Draft, accesses_in, tries_in};
use workload::fault::LineFault;
use workload::keyword::{Dialect, Keyword, Verb, read_keyword};
use workload::laws::{calls_pass_their_checks, checks_go_in_order, dialects, keywords};
use workload::limits::{
    MAX_ACCESSES, MAX_ALL_TRIES, MAX_CALLS, MAX_RANGES, MAX_TURNS, MAX_WORKERS,
};
use workload::line::{Line, NameWord};
use workload::object::{ObjectLine, ObjectWord};
use workload::reason::Reason;
use workload::turn::Turn;

/// An item of the schedule.
fn read_turn(workers: u32, word: &[u8]) -> Result<Turn, LineFault>
    ensures { MatchResult result (λ turn. (turn_word turn ≡ word.now) × (is_item workers turn ≡ true) × (first_failing (item_checks workers word.now) ≡ None)) (IsFault (item_checks workers word.now)) }
{
    match word.split_first() {
        None => Err(LineFault::Refused(Reason::BadNumber)),
        Some((first, moment)) => {
            if *first == b'@' {
                match number(moment, MAX_VALUE) {
                    None => Err(LineFault::Refused(Reason::BadNumber)),
                    Some(moment) => Ok(Turn::Moment(moment)),
                }
            } else {
                Ok(Turn::Worker(read_worker(workers, word)?))
            }
        }
    }
}

/// Whether one more call is within the limits.
fn check_limits(draft: &Draft, verb: Verb, call: &Call) -> Result<(), LineFault>
    ensures { MatchResult result (λ _. first_failing (limit_checks draft.now (keys_of call.now) (ranges_in verb) (tries_of call.now.operation) (count_by is_access (call.now ∷ []))) ≡ None) (IsFault (limit_checks draft.now (keys_of call.now) (ranges_in verb) (tries_of call.now.operation) (count_by is_access (call.now ∷ [])))) }
{
    let ranges = match verb {
        Verb::Range => draft.ranges().saturating_add(1),
        _ => draft.ranges(),
    };
    let tries = draft.tries().saturating_add(tries_in(call));
    let accesses = draft.accesses().saturating_add(accesses_in(call));
    if draft.calls() >= MAX_CALLS
        || !draft.has_room_for_key(call)
        || ranges > MAX_RANGES
        || tries > MAX_ALL_TRIES
        || accesses > MAX_ACCESSES
    {
        return Err(LineFault::Refused(Reason::LimitReached));
    }
    Ok(())
}

/// A call of the worker named last.
fn read_call<'a>(
    alloc: Global,
    draft: &Draft,
    verb: Verb,
    arguments: &[&'a [u8]],
) -> Result<Line<'a>, LineFault>
    ensures { IsLineOf draft.now (Keyword.Call verb) (map (λ word. word.now) arguments.now) result }
{
    checks_go_in_order();
    calls_pass_their_checks();
    draft.numbers_are_in_range();
    if !draft.is_in_worker() {
        return Err(LineFault::Refused(Reason::CallOutsideWorker));
    }
    let Some((name, words)) = arguments.split_first() else {
        return Err(LineFault::Refused(Reason::WrongNumberOfWords));
    };
    check_name(name)?;
    let Some(found) = draft.declared(name) else {
        return Err(LineFault::Refused(Reason::UnknownName));
    };
    let (second, operation) = read_call_on(alloc, draft, found.kind, verb, words)?;
    let call = Call {
        object: found.place,
        operation,
    };
    check_limits(draft, verb, &call)?;
    Ok(Line::Call(NameWord::new(name), second, call))
}

/// A line that declares an object.
fn read_object<'a>(
    alloc: Global,
    draft: &Draft,
    word: ObjectWord,
    arguments: &[&'a [u8]],
) -> Result<Line<'a>, LineFault>
    ensures { IsLineOf draft.now (Keyword.Object word) (map (λ word. word.now) arguments.now) result }
{
    checks_go_in_order();
    let Some((name, words)) = arguments.split_first() else {
        return Err(LineFault::Refused(Reason::WrongNumberOfWords));
    };
    if words.len() != parameter_count(word) {
        return Err(LineFault::Refused(Reason::WrongNumberOfWords));
    }
    let object = read_name(alloc, name)?;
    if draft.declared(name).is_some() {
        return Err(LineFault::Refused(Reason::NameTaken));
    }
    let (kind, reference) = read_kind(alloc, draft, word, words)?;
    if !draft.has_room_for(word) {
        return Err(LineFault::Refused(Reason::LimitReached));
    }
    Ok(Line::Object(ObjectLine { name: object, kind }, reference))
}

/// The number of a worker that no `dormant` line names yet.
fn read_dormant(draft: &Draft, word: &[u8]) -> Result<u32, LineFault>
    ensures { MatchResult result (λ worker. (decimal worker ≡ word.now) × (may_follow draft.now (Line.Dormant worker) ≡ true) × (first_failing (dormant_checks draft.now word.now) ≡ None)) (IsFault (dormant_checks draft.now word.now)) }
{
    checks_go_in_order();
    let worker = read_worker(draft.workers(), word)?;
    if draft.is_dormant(worker) {
        return Err(LineFault::Refused(Reason::NameTaken));
    }
    Ok(worker)
}

/// A line that says which worker waits to be started.
fn read_dormant_line<'a>(draft: &Draft, arguments: &[&'a [u8]]) -> Result<Line<'a>, LineFault>
    ensures { IsLineOf draft.now Keyword.Dormant (map (λ word. word.now) arguments.now) result }
{
    let [worker] = arguments else {
        return Err(LineFault::Refused(Reason::WrongNumberOfWords));
    };
    Ok(Line::Dormant(read_dormant(draft, worker)?))
}

/// A line that says whose calls follow.
fn read_worker_line<'a>(draft: &Draft, arguments: &[&'a [u8]]) -> Result<Line<'a>, LineFault>
    ensures { IsLineOf draft.now Keyword.Worker (map (λ word. word.now) arguments.now) result }
{
    let [worker] = arguments else {
        return Err(LineFault::Refused(Reason::WrongNumberOfWords));
    };
    Ok(Line::Worker(read_worker(draft.workers(), worker)?))
}

/// The items of a `schedule` line.
fn read_turns(alloc: Global, workers: u32, words: &[&[u8]]) -> Result<Seq<Turn>, LineFault>
    ensures { IsTurns workers (map (λ word. word.now) words.now) result }
{
    checks_go_in_order();
    let mut turns = Seq::new(alloc);
    for word in words {
        turns.push(read_turn(workers, word)?)?;
    }
    Ok(turns)
}

/// A `schedule` line.
fn read_schedule<'a>(
    alloc: Global,
    draft: &Draft,
    arguments: &[&'a [u8]],
) -> Result<Line<'a>, LineFault>
    ensures { IsLineOf draft.now Keyword.Schedule (map (λ word. word.now) arguments.now) result }
{
    checks_go_in_order();
    if arguments.is_empty() {
        return Err(LineFault::Refused(Reason::WrongNumberOfWords));
    }
    let turns = read_turns(alloc, draft.workers(), arguments)?;
    if draft.turns().saturating_add(turns.len()) > MAX_TURNS {
        return Err(LineFault::Refused(Reason::LimitReached));
    }
    Ok(Line::Schedule(turns))
}

/// A line of a text of this dialect, behind the first significant one: its first word and the others.
pub fn read_line<'a>(
    alloc: Global,
    dialect: Dialect,
    draft: &Draft,
    word: &[u8],
    arguments: &[&'a [u8]],
) -> Result<Line<'a>, LineFault>
    ensures { IsLine dialect draft.now word.now (map (λ word. word.now) arguments.now) result }
{
    keywords();
    dialects();
    match read_keyword(dialect, word) {
        None => Err(LineFault::Refused(Reason::UnknownWord)),
        Some(Keyword::Workers) => Err(LineFault::Refused(Reason::NameTaken)),
        Some(Keyword::Object(word)) => read_object(alloc, draft, word, arguments),
        Some(Keyword::Dormant) => read_dormant_line(draft, arguments),
        Some(Keyword::Worker) => read_worker_line(draft, arguments),
        Some(Keyword::Schedule) => read_schedule(alloc, draft, arguments),
        Some(Keyword::Call(verb)) => read_call(alloc, draft, verb, arguments),
    }
}

/// The first significant line, which gives the number of workers.
pub fn read_workers(word: &[u8], arguments: &[&[u8]]) -> Result<u32, LineFault>
    ensures { IsWorkers word.now (map (λ word. word.now) arguments.now) result }
{
    if word != Keyword::Workers.text() {
        return Err(LineFault::Refused(Reason::NoWorkersLine));
    }
    let [workers] = arguments else {
        return Err(LineFault::Refused(Reason::WrongNumberOfWords));
    };
    match number(workers, MAX_WORKERS) {
        Some(workers) if workers > 0 => Ok(workers as u32),
        _ => Err(LineFault::Refused(Reason::BadNumber)),
    }
}
