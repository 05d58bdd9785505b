//! The canonical text of a workload.
ghost use Rattle.std.specs.Prelude.{◌≡◌, ◌∷◌, ◌++◌, [], false, map, slice_get, IfOk, OnOk};
ghost use Rattle.std.specs.Fmt.{decimal, signed_decimal};
ghost use Rattle.std.specs.Option.{option_to_list};
ghost use Rattle.workload.specs.KeywordWords.{keyword_word};
ghost use Rattle.workload.specs.NumberWords.{number_word};
ghost use Rattle.workload.specs.CallWords.{operands_of};
ghost use Rattle.workload.specs.Words.{turn_word, kind_parameters, spelled};
ghost use Rattle.workload.specs.declared.line.Line.TheVariants as Line;
ghost use Rattle.workload.specs.Dialect.{has_variables, has_x_sync, has_unrecorded};
ghost use Rattle.workload.specs.Reads.{Reads, ReadsIn};
ghost use Rattle.workload.specs.Canonical.{text_line, call_line, object_line, name_of, reference_name, second_name, dormant_lines, script_lines, eights, canonical_lines, canonical, behind_spaces, lines_text};
ghost use Rattle.workload_text.specs.Numbers.{numbers_in};

use crate::call::{second, verb};
use crate::operands::{Numbers, operands_of};
use script_calls::{Call, Operation};
use std::alloc::{AllocError, Global};
use sync_types::Number;
use workload::keyword::{Dialect, Keyword};
use workload::laws::{
    canonical_reads, race_texts_are_read_or_refused, run_texts_are_read_or_refused,
    schedules_go_by_eights,
};
use workload::object::name_at;
use workload::{ObjectKind, ObjectLine, Turn, Workload};

/// Writes the word that a line begins with.
fn put_keyword(text: &mut Vec<u8>, keyword: Keyword) -> Result<(), AllocError>
    ensures { OnOk result (text.new.items ≡ text.old.items ++ keyword_word keyword) }
{
    text.extend_from_slice(keyword.text())
}

/// Writes a word behind a space.
fn put_word(text: &mut Vec<u8>, word: &[u8]) -> Result<(), AllocError>
    ensures { OnOk result (text.new.items ≡ text.old.items ++ 32 ∷ word.now) }
{
    text.push(b' ')?;
    text.extend_from_slice(word)
}

/// Writes a number behind a space.
fn put_number(alloc: Global, text: &mut Vec<u8>, number: u64) -> Result<(), AllocError>
    ensures { OnOk result (text.new.items ≡ text.old.items ++ 32 ∷ decimal number) }
{
    let digits = number.to_string(alloc)?;
    put_word(text, digits.as_bytes())
}

/// Writes a number that may be below 0 behind a space.
fn put_signed(alloc: Global, text: &mut Vec<u8>, number: i64) -> Result<(), AllocError>
    ensures { OnOk result (text.new.items ≡ text.old.items ++ 32 ∷ signed_decimal number) }
{
    let digits = number.to_string(alloc)?;
    put_word(text, digits.as_bytes())
}

/// Writes a number of an atomic's type behind a space.
fn put_atomic_number(alloc: Global, text: &mut Vec<u8>, number: Number) -> Result<(), AllocError>
    ensures { OnOk result (text.new.items ≡ text.old.items ++ 32 ∷ number_word number) }
{
    match number {
        Number::Int32(n) => put_signed(alloc, text, i64::from(n)),
        Number::Int64(n) => put_signed(alloc, text, n),
        Number::Uint32(n) => put_number(alloc, text, u64::from(n)),
        Number::Uint64(n) => put_number(alloc, text, n),
        Number::Bool(false) => put_word(text, b"false"),
        Number::Bool(true) => put_word(text, b"true"),
    }
}

/// Writes numbers of atomics' types, each behind a space.
fn put_numbers(alloc: Global, text: &mut Vec<u8>, numbers: Numbers) -> Result<(), AllocError>
    ensures { OnOk result (text.new.items ≡ text.old.items ++ behind_spaces (map number_word (numbers_in numbers))) }
{
    match numbers {
        Numbers::Empty => Ok(()),
        Numbers::One(number) => put_atomic_number(alloc, text, number),
        Numbers::Two(old, new) => {
            put_atomic_number(alloc, text, old)?;
            put_atomic_number(alloc, text, new)
        }
    }
}

/// Writes the operands of a call, each behind a space.
fn put_operands(alloc: Global, text: &mut Vec<u8>, operation: &Operation) -> Result<(), AllocError>
    ensures { OnOk result (text.new.items ≡ text.old.items ++ behind_spaces (operands_of operation.now)) }
{
    let (key, numbers) = operands_of(operation);
    if let Some(key) = key {
        put_word(text, key.as_bytes())?;
    }
    put_numbers(alloc, text, numbers)
}

/// Writes the names of a call's objects, each behind a space.
fn put_names(text: &mut Vec<u8>, objects: &[ObjectLine], call: &Call) -> Result<(), AllocError>
    ensures { OnOk result (text.new.items ≡ text.old.items ++ behind_spaces (name_of (slice_get objects.now call.now.object) ∷ option_to_list (second_name objects.now call.now.operation))) }
{
    put_word(text, name_at(objects, call.object))?;
    match second(&call.operation) {
        None => Ok(()),
        Some(place) => put_word(text, name_at(objects, place)),
    }
}

/// Writes the line of a call.
fn put_call(
    alloc: Global,
    text: &mut Vec<u8>,
    objects: &[ObjectLine],
    call: &Call,
) -> Result<(), AllocError>
    ensures { OnOk result (text.new.items ≡ text.old.items ++ text_line (spelled (call_line objects.now call.now))) }
{
    put_keyword(text, Keyword::Call(verb(&call.operation)))?;
    put_names(text, objects, call)?;
    put_operands(alloc, text, &call.operation)?;
    text.push(b'\n')?;
    Ok(())
}

/// Writes a line of its first word and a number.
fn put_numbered(
    alloc: Global,
    text: &mut Vec<u8>,
    keyword: Keyword,
    number: u32,
) -> Result<(), AllocError>
    ensures { OnOk result (text.new.items ≡ text.old.items ++ text_line (keyword_word keyword ∷ decimal number ∷ [])) }
{
    put_keyword(text, keyword)?;
    put_number(alloc, text, u64::from(number))?;
    text.push(b'\n')?;
    Ok(())
}

/// Writes an item of the schedule behind a space.
fn put_turn(alloc: Global, text: &mut Vec<u8>, turn: Turn) -> Result<(), AllocError>
    ensures { OnOk result (text.new.items ≡ text.old.items ++ 32 ∷ turn_word turn) }
{
    match turn {
        Turn::Worker(worker) => put_number(alloc, text, u64::from(worker)),
        Turn::Moment(moment) => {
            text.extend_from_slice(b" @")?;
            let digits = moment.to_string(alloc)?;
            text.extend_from_slice(digits.as_bytes())
        }
    }
}

/// Writes what the line of an object has behind the object's name, each word behind a space.
fn put_parameters(
    alloc: Global,
    text: &mut Vec<u8>,
    objects: &[ObjectLine],
    kind: ObjectKind,
) -> Result<(), AllocError>
    ensures { OnOk result (text.new.items ≡ text.old.items ++ behind_spaces (option_to_list (reference_name objects.now kind) ++ kind_parameters kind)) }
{
    match kind {
        ObjectKind::Cond { mutex } => put_word(text, name_at(objects, mutex)),
        ObjectKind::WaitGroup { start } => put_number(alloc, text, u64::from(start)),
        ObjectKind::Once { atomic, delta } => {
            put_word(text, name_at(objects, atomic))?;
            put_signed(alloc, text, delta)
        }
        ObjectKind::Flight { atomic, delta } => {
            put_word(text, name_at(objects, atomic))?;
            put_signed(alloc, text, delta)
        }
        ObjectKind::OnceFunc { code } => put_number(alloc, text, u64::from(code)),
        ObjectKind::OnceValue { value } => put_number(alloc, text, value),
        ObjectKind::Sema { size } => put_number(alloc, text, size),
        ObjectKind::Map
        | ObjectKind::Atomic(_)
        | ObjectKind::Mutex
        | ObjectKind::RwMutex
        | ObjectKind::Pool
        | ObjectKind::Var => Ok(()),
    }
}

/// Writes the line of an object.
fn put_object(
    alloc: Global,
    text: &mut Vec<u8>,
    objects: &[ObjectLine],
    object: &ObjectLine,
) -> Result<(), AllocError>
    ensures { OnOk result (text.new.items ≡ text.old.items ++ text_line (spelled (object_line objects.now object.now))) }
{
    put_keyword(text, Keyword::Object(object.kind.word()))?;
    put_word(text, object.name.as_bytes())?;
    put_parameters(alloc, text, objects, object.kind)?;
    text.push(b'\n')?;
    Ok(())
}

/// Writes the lines of the objects.
fn put_objects(alloc: Global, text: &mut Vec<u8>, objects: &[ObjectLine]) -> Result<(), AllocError>
    ensures { OnOk result (text.new.items ≡ text.old.items ++ lines_text (map (object_line objects.now) objects.now)) }
{
    for object in objects {
        put_object(alloc, text, objects, object)?;
    }
    Ok(())
}

/// Writes a line for each worker that waits to be started.
fn put_dormant(alloc: Global, text: &mut Vec<u8>, workload: &Workload) -> Result<(), AllocError>
    ensures { OnOk result (text.new.items ≡ text.old.items ++ lines_text (dormant_lines 0 workload.now.dormant)) }
{
    for worker in 0..workload.workers() {
        if workload.is_dormant(worker) {
            put_numbered(alloc, text, Keyword::Dormant, worker)?;
        }
    }
    Ok(())
}

/// Writes the lines of calls.
fn put_calls(
    alloc: Global,
    text: &mut Vec<u8>,
    objects: &[ObjectLine],
    calls: &[Call],
) -> Result<(), AllocError>
    ensures { OnOk result (text.new.items ≡ text.old.items ++ lines_text (map (call_line objects.now) calls.now)) }
{
    for call in calls {
        put_call(alloc, text, objects, call)?;
    }
    Ok(())
}

/// Writes a `worker` line and the lines of the worker's calls.
fn put_script(
    alloc: Global,
    text: &mut Vec<u8>,
    objects: &[ObjectLine],
    worker: u32,
    script: &[Call],
) -> Result<(), AllocError>
    ensures { OnOk result (text.new.items ≡ text.old.items ++ lines_text (Line.Worker worker ∷ map (call_line objects.now) script.now)) }
{
    put_numbered(alloc, text, Keyword::Worker, worker)?;
    put_calls(alloc, text, objects, script)
}

/// Writes a `schedule` line.
fn put_turns(alloc: Global, text: &mut Vec<u8>, turns: &[Turn]) -> Result<(), AllocError>
    ensures { OnOk result (text.new.items ≡ text.old.items ++ text_line (spelled (Line.Schedule turns.now))) }
{
    put_keyword(text, Keyword::Schedule)?;
    for turn in turns {
        put_turn(alloc, text, *turn)?;
    }
    text.push(b'\n')?;
    Ok(())
}

/// Writes the `schedule` lines, of eight items each.
fn put_schedule(alloc: Global, text: &mut Vec<u8>, schedule: &[Turn]) -> Result<(), AllocError>
    ensures { OnOk result (text.new.items ≡ text.old.items ++ lines_text (map (λ turns. Line.Schedule turns) (eights 7 schedule.now))) }
{
    schedules_go_by_eights();
    let mut rest = schedule;
    while !rest.is_empty() {
        let (turns, behind) = rest.split_at(rest.len().min(8));
        put_turns(alloc, text, turns)?;
        rest = behind;
    }
    Ok(())
}

/// Writes the lines of all workers.
fn put_scripts(alloc: Global, text: &mut Vec<u8>, workload: &Workload) -> Result<(), AllocError>
    ensures { OnOk result (text.new.items ≡ text.old.items ++ lines_text (script_lines workload.now.objects 0 workload.now.scripts)) }
{
    for worker in 0..workload.workers() {
        put_script(
            alloc,
            text,
            workload.objects(),
            worker,
            workload.script(worker),
        )?;
    }
    Ok(())
}

/// Writes the lines behind the first one.
fn put_lines(alloc: Global, text: &mut Vec<u8>, workload: &Workload) -> Result<(), AllocError>
    ensures { OnOk result (text.new.items ≡ text.old.items ++ lines_text (canonical_lines workload.now)) }
{
    put_objects(alloc, text, workload.objects())?;
    put_dormant(alloc, text, workload)?;
    put_scripts(alloc, text, workload)?;
    put_schedule(alloc, text, workload.schedule())
}

/// The canonical text of a workload: the `workers` line, the objects in order of declaration, a `dormant`
/// line for each worker that waits to be started, from 0 up, for each worker from 0 up a `worker` line and
/// its calls, and the schedule, eight items a line.
///
/// It is read as the workload again, as a text of each reader that knows the words of its objects.
pub fn print(alloc: Global, workload: &Workload) -> Result<Vec<u8>, AllocError>
    ensures text { IfOk result (λ text. text.items ≡ canonical workload.now) }
    ensures read { IfOk result (λ text. has_unrecorded workload.now ≡ false → Reads text.items workload.now) }
    ensures runs { IfOk result (λ text. has_variables workload.now ≡ false → ReadsIn Dialect.Runs text.items workload.now) }
    ensures races { IfOk result (λ text. has_x_sync workload.now ≡ false → ReadsIn Dialect.Races text.items workload.now) }
{
    canonical_reads();
    run_texts_are_read_or_refused();
    race_texts_are_read_or_refused();
    let mut text = Vec::new(alloc);
    put_numbered(alloc, &mut text, Keyword::Workers, workload.workers())?;
    put_lines(alloc, &mut text, workload)?;
    Ok(text)
}
