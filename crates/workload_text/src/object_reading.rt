//! What the words of an object's line say behind the object's name.
ghost use Rattle.std.specs.Prelude.{◌≡◌, [], map, length};
ghost use Rattle.sync_types.specs.declared.atomic_object.AtomicKind.TheVariants as AtomicKind;
ghost use Rattle.workload.specs.Plan.{word_of};
ghost use Rattle.workload.specs.Checks.{parameters_of, is_mutex, is_int64};
ghost use Rattle.workload_text.specs.LineResult.{IsReferenceTo, IsAtomicOf, IsKindOf};
ghost use Rattle.workload.specs.declared.object.ObjectKind.TheVariants as ObjectKind;

use crate::word_reading::{read_amount, read_name, read_none, read_number_to, read_weight};
use std::alloc::Global;
use sync_types::{AtomicKind, MAX_VALUE, Name};
use workload::draft::Draft;
use workload::fault::LineFault;
use workload::limits::{MAX_AMOUNT, MAX_CODE, MAX_SIZE};
use workload::object::{Declared, ObjectKind, ObjectWord};
use workload::reason::Reason;

/// A mutex that is declared before: its name and its place.
fn read_mutex(alloc: Global, draft: &Draft, word: &[u8]) -> Result<(Name, usize), LineFault>
    ensures { IsReferenceTo draft.now ObjectKind.Mutex is_mutex word.now result }
{
    let name = read_name(alloc, word)?;
    match draft.declared(word) {
        None => Err(LineFault::Refused(Reason::UnknownName)),
        Some(
            Declared {
                place,
                kind: ObjectKind::Mutex,
            },
        ) => Ok((name, place)),
        Some(_) => Err(LineFault::Refused(Reason::WrongKind)),
    }
}

/// An int64 that is declared before: its name and its place.
fn read_int64(alloc: Global, draft: &Draft, word: &[u8]) -> Result<(Name, usize), LineFault>
    ensures { IsReferenceTo draft.now (ObjectKind.Atomic AtomicKind.Int64) is_int64 word.now result }
{
    let name = read_name(alloc, word)?;
    match draft.declared(word) {
        None => Err(LineFault::Refused(Reason::UnknownName)),
        Some(
            Declared {
                place,
                kind: ObjectKind::Atomic(AtomicKind::Int64),
            },
        ) => Ok((name, place)),
        Some(_) => Err(LineFault::Refused(Reason::WrongKind)),
    }
}

/// An atomic that is declared before: its name, its place and its type.
pub fn read_atomic(
    alloc: Global,
    draft: &Draft,
    word: &[u8],
) -> Result<(Name, usize, AtomicKind), LineFault>
    ensures { IsAtomicOf draft.now word.now result }
{
    let name = read_name(alloc, word)?;
    match draft.declared(word) {
        None => Err(LineFault::Refused(Reason::UnknownName)),
        Some(
            Declared {
                place,
                kind: ObjectKind::Atomic(kind),
            },
        ) => Ok((name, place, kind)),
        Some(_) => Err(LineFault::Refused(Reason::WrongKind)),
    }
}

/// A cond, and the name of its mutex.
fn read_cond(
    alloc: Global,
    draft: &Draft,
    words: &[&[u8]],
) -> Result<(ObjectKind, Option<Name>), LineFault>
    ensures { IsKindOf draft.now ObjectWord.Cond (map (λ word. word.now) words.now) result }
{
    let [mutex] = words else {
        return Err(LineFault::Refused(Reason::WrongNumberOfWords));
    };
    let (name, mutex) = read_mutex(alloc, draft, mutex)?;
    Ok((ObjectKind::Cond { mutex }, Some(name)))
}

/// A wait group with its counter.
fn read_wait_group(draft: &Draft, words: &[&[u8]]) -> Result<(ObjectKind, Option<Name>), LineFault>
    ensures { IsKindOf draft.now ObjectWord.WaitGroup (map (λ word. word.now) words.now) result }
{
    let [start] = words else {
        return Err(LineFault::Refused(Reason::WrongNumberOfWords));
    };
    let start = read_number_to(MAX_AMOUNT, start)? as u32;
    Ok((ObjectKind::WaitGroup { start }, None))
}

/// A once, and the name of its int64.
fn read_once(
    alloc: Global,
    draft: &Draft,
    words: &[&[u8]],
) -> Result<(ObjectKind, Option<Name>), LineFault>
    ensures { IsKindOf draft.now ObjectWord.Once (map (λ word. word.now) words.now) result }
{
    let [atomic, delta] = words else {
        return Err(LineFault::Refused(Reason::WrongNumberOfWords));
    };
    let (name, atomic) = read_int64(alloc, draft, atomic)?;
    let delta = i64::from(read_amount(delta)?);
    Ok((ObjectKind::Once { atomic, delta }, Some(name)))
}

/// A weighted semaphore with its size.
fn read_sema(draft: &Draft, words: &[&[u8]]) -> Result<(ObjectKind, Option<Name>), LineFault>
    ensures { IsKindOf draft.now ObjectWord.Sema (map (λ word. word.now) words.now) result }
{
    let [size] = words else {
        return Err(LineFault::Refused(Reason::WrongNumberOfWords));
    };
    let size = read_weight(MAX_SIZE, size)?;
    Ok((ObjectKind::Sema { size }, None))
}

/// A group of flights, and the name of its int64.
fn read_flight(
    alloc: Global,
    draft: &Draft,
    words: &[&[u8]],
) -> Result<(ObjectKind, Option<Name>), LineFault>
    ensures { IsKindOf draft.now ObjectWord.Flight (map (λ word. word.now) words.now) result }
{
    let [atomic, delta] = words else {
        return Err(LineFault::Refused(Reason::WrongNumberOfWords));
    };
    let (name, atomic) = read_int64(alloc, draft, atomic)?;
    let delta = i64::from(read_amount(delta)?);
    Ok((ObjectKind::Flight { atomic, delta }, Some(name)))
}

/// A function made by `OnceFunc` with its code.
fn read_once_func(draft: &Draft, words: &[&[u8]]) -> Result<(ObjectKind, Option<Name>), LineFault>
    ensures { IsKindOf draft.now ObjectWord.OnceFunc (map (λ word. word.now) words.now) result }
{
    let [code] = words else {
        return Err(LineFault::Refused(Reason::WrongNumberOfWords));
    };
    let code = read_number_to(MAX_CODE, code)? as u32;
    Ok((ObjectKind::OnceFunc { code }, None))
}

/// A function made by `OnceValue` with its value.
fn read_once_value(draft: &Draft, words: &[&[u8]]) -> Result<(ObjectKind, Option<Name>), LineFault>
    ensures { IsKindOf draft.now ObjectWord.OnceValue (map (λ word. word.now) words.now) result }
{
    let [value] = words else {
        return Err(LineFault::Refused(Reason::WrongNumberOfWords));
    };
    let value = read_number_to(MAX_VALUE, value)?;
    Ok((ObjectKind::OnceValue { value }, None))
}

/// An object whose line says no more than its name.
fn read_plain(
    draft: &Draft,
    kind: ObjectKind,
    words: &[&[u8]],
) -> Result<(ObjectKind, Option<Name>), LineFault>
    requires { parameters_of (word_of kind) ≡ [] }
    ensures { IsKindOf draft.now (word_of kind) (map (λ word. word.now) words.now) result }
{
    read_none(words)?;
    Ok((kind, None))
}

/// What the words behind an object's name say, with the name of the object to which it refers.
pub fn read_kind(
    alloc: Global,
    draft: &Draft,
    word: ObjectWord,
    words: &[&[u8]],
) -> Result<(ObjectKind, Option<Name>), LineFault>
    ensures { IsKindOf draft.now word (map (λ word. word.now) words.now) result }
{
    match word {
        ObjectWord::Map => read_plain(draft, ObjectKind::Map, words),
        ObjectWord::Atomic(kind) => read_plain(draft, ObjectKind::Atomic(kind), words),
        ObjectWord::Mutex => read_plain(draft, ObjectKind::Mutex, words),
        ObjectWord::RwMutex => read_plain(draft, ObjectKind::RwMutex, words),
        ObjectWord::Cond => read_cond(alloc, draft, words),
        ObjectWord::WaitGroup => read_wait_group(draft, words),
        ObjectWord::Once => read_once(alloc, draft, words),
        ObjectWord::OnceFunc => read_once_func(draft, words),
        ObjectWord::OnceValue => read_once_value(draft, words),
        ObjectWord::Pool => read_plain(draft, ObjectKind::Pool, words),
        ObjectWord::Sema => read_sema(draft, words),
        ObjectWord::Flight => read_flight(alloc, draft, words),
        ObjectWord::Var => read_plain(draft, ObjectKind::Var, words),
    }
}

/// How many words the line of an object has behind the object's name.
pub fn parameter_count(word: ObjectWord) -> usize
    ensures { result ≡ length (parameters_of word) }
{
    match word {
        ObjectWord::Cond
        | ObjectWord::WaitGroup
        | ObjectWord::OnceFunc
        | ObjectWord::OnceValue
        | ObjectWord::Sema => 1,
        ObjectWord::Once | ObjectWord::Flight => 2,
        _ => 0,
    }
}
