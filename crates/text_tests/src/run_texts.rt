//! Texts that are run, and of whose run a report is all that is told: what they may say beside the words of plain texts, how they
//! are printed, and how they are refused.
use crate::race_texts::refusal;
use std::alloc::Global;
use std::test::Fail;
use sync_types::AtomicKind;
use workload::ObjectKind;
use workload::reason::Reason;
use workload_text::{parse, parse_race, parse_run, print};

const BOTH_KINDS: &[u8] =
    b"workers 2\nsema s 1000000\nint64 a\nflight f a -10000\nsema t 1\nworker 0\nacquire s 1000000\nrelease s 1\nfly f k\nworker 1\ntryacquire t 1\n";

const KINDS: [ObjectKind; 4] = [
    ObjectKind::Sema { size: 1_000_000 },
    ObjectKind::Atomic(AtomicKind::Int64),
    ObjectKind::Flight {
        atomic: 1,
        delta: -10_000,
    },
    ObjectKind::Sema { size: 1 },
];

#[test]
fn a_run_text_has_semaphores_and_flights(rt: HostRuntime) -> Result<(), Fail> {
    let workload = parse_run(rt.alloc(), BOTH_KINDS)
        .ok()
        .ok_or("the text is read")?;
    assert!(rt; workload.objects().len() == KINDS.len());
    for (object, kind) in workload.objects().iter().zip(&KINDS) {
        assert!(rt; object.kind == *kind && object.kind.word() == kind.word());
    }
    if workload.workers() == 2 {
        assert!(rt; (workload.script(0).len(), workload.script(1).len()) == (3, 1));
    }
    Ok(())
}

// A text, and how it is printed.
const PRINTED: [(&[u8], &[u8]); 3] = [
    (BOTH_KINDS, BOTH_KINDS),
    (
        b"workers 1\nworker 0\nsema s 3\n acquire  s 3\ntryacquire s 2\nrelease s 1\nsema u 1\nacquire u 1",
        b"workers 1\nsema s 3\nsema u 1\nworker 0\nacquire s 3\ntryacquire s 2\nrelease s 1\nacquire u 1\n",
    ),
    (
        b"workers 2\nmap t\nint64 fly\nflight sema  fly 0\nworker 1\nfly sema fly\nload t k\nworker 0\nfly sema a23456789_123456789_123456789_12\n",
        b"workers 2\nmap t\nint64 fly\nflight sema fly 0\nworker 0\nfly sema a23456789_123456789_123456789_12\nworker 1\nfly sema fly\nload t k\n",
    ),
];

#[test]
fn a_run_text_is_printed_and_read_again(rt: HostRuntime) -> Result<(), Fail> {
    for &(text, canonical) in &PRINTED {
        let workload = parse_run(rt.alloc(), text).ok().ok_or("the text is read")?;
        let printed = print(rt.alloc(), &workload)?;
        assert!(rt; printed.as_slice() == canonical, "at {text:?}");
        let again = parse_run(rt.alloc(), &printed)
            .ok()
            .ok_or("what is printed is read")?;
        let twice = print(rt.alloc(), &again)?;
        assert!(rt; twice == printed, "at {text:?}");
    }
    Ok(())
}

// A line behind those of these objects and a worker's, and the reason for which it is refused by `parse_run`.
const OBJECTS: &[u8] = b"workers 1\nmutex m\nint32 b\nint64 a\nsema s 3\nflight f a 5\nworker 0\n";

const REFUSED: [(&[u8], Reason); 48] = [
    (b"sema", Reason::WrongNumberOfWords),
    (b"sema t", Reason::WrongNumberOfWords),
    (b"sema t 1 1", Reason::WrongNumberOfWords),
    (b"sema T 1", Reason::BadName),
    (b"sema s 0", Reason::NameTaken),
    (b"sema t 0", Reason::BadNumber),
    (b"sema t 1000001", Reason::BadNumber),
    (b"sema t 18446744073709551617", Reason::BadNumber),
    (b"sema t -1", Reason::BadNumber),
    (b"sema t 01", Reason::BadNumber),
    (b"sema t m", Reason::BadNumber),
    (b"acquire", Reason::WrongNumberOfWords),
    (b"acquire s", Reason::WrongNumberOfWords),
    (b"acquire s 1 1", Reason::WrongNumberOfWords),
    (b"acquire 9 1", Reason::BadName),
    (b"acquire t 1", Reason::UnknownName),
    (b"acquire m 1", Reason::WrongKind),
    (b"acquire f k", Reason::WrongKind),
    (b"acquire s 4", Reason::BadNumber),
    (b"acquire s 0", Reason::BadNumber),
    (b"acquire s 01", Reason::BadNumber),
    (b"acquire s 18446744073709551617", Reason::BadNumber),
    (b"tryacquire s", Reason::WrongNumberOfWords),
    (b"tryacquire s 4", Reason::BadNumber),
    (b"tryacquire a 1", Reason::WrongKind),
    (b"release s", Reason::WrongNumberOfWords),
    (b"release s 4", Reason::BadNumber),
    (b"release s 0", Reason::BadNumber),
    (b"lock s", Reason::WrongKind),
    (b"wait s", Reason::WrongKind),
    (b"go s 0", Reason::WrongKind),
    (b"flight g", Reason::WrongNumberOfWords),
    (b"flight g a", Reason::WrongNumberOfWords),
    (b"flight g a 1 1", Reason::WrongNumberOfWords),
    (b"flight g n 1", Reason::UnknownName),
    (b"flight g m 1", Reason::WrongKind),
    (b"flight g b 1", Reason::WrongKind),
    (b"flight g a 10001", Reason::BadNumber),
    (b"flight g a -10001", Reason::BadNumber),
    (b"flight a a 1", Reason::NameTaken),
    (b"fly f", Reason::WrongNumberOfWords),
    (b"fly f k k", Reason::WrongNumberOfWords),
    (b"fly f 9", Reason::BadName),
    (b"fly g k", Reason::UnknownName),
    (b"fly s 1", Reason::WrongKind),
    (b"do f", Reason::WrongKind),
    (b"Fly f k", Reason::UnknownWord),
    (b"var x", Reason::UnknownWord),
];

#[test]
fn a_run_text_is_refused_by_its_first_fault(rt: HostRuntime) -> Result<(), Fail> {
    for &(line, reason) in &REFUSED {
        let mut text = Vec::from_slice(rt.alloc(), OBJECTS)?;
        text.extend_from_slice(line)?;
        let told = refusal(parse_run(rt.alloc(), &text))?;
        assert!(rt; told == (8, reason.text()), "at {line:?}");
    }
    Ok(())
}

// A text with words of semaphores or of flights, and the line of the first of them.
const UNKNOWN: [(&[u8], u32); 8] = [
    (BOTH_KINDS, 2),
    (b"workers 1\nint64 a\nflight f a 1", 3),
    (b"workers 1\nsema", 2),
    (b"workers 1\nacquire s 1", 2),
    (b"workers 1\nworker 0\ntryacquire s 1", 3),
    (b"workers 1\nworker 0\nrelease s 1", 3),
    (b"workers 1\nworker 0\nfly f k", 3),
    (b"workers 1\n\n  fly", 3),
];

#[test]
fn plain_texts_and_race_texts_do_not_know_the_words(rt: HostRuntime) -> Result<(), Fail> {
    for &(text, line) in &UNKNOWN {
        let plain = refusal(parse(rt.alloc(), text))?;
        assert!(rt; plain == (line, Reason::UnknownWord.text()), "at {text:?}");
        let race = refusal(parse_race(rt.alloc(), text))?;
        assert!(rt; race == (line, Reason::UnknownWord.text()), "at {text:?}");
    }
    Ok(())
}

// The text of so many semaphores and groups of flights, the first of which has a call for each of so many keys.
fn text_of(alloc: Global, semas: u32, flights: u32, keys: u32) -> Result<Vec<u8>, Fail> {
    let mut text = Vec::new(alloc);
    text.extend_from_slice(b"workers 1\nint64 a\n")?;
    for sema in 0..semas {
        text.extend_from_slice(b"sema s")?;
        text.extend_from_slice(sema.to_string(alloc)?.as_bytes())?;
        text.extend_from_slice(b" 3\n")?;
    }
    for flight in 0..flights {
        text.extend_from_slice(b"flight f")?;
        text.extend_from_slice(flight.to_string(alloc)?.as_bytes())?;
        text.extend_from_slice(b" a 5\n")?;
    }
    text.extend_from_slice(b"worker 0\n")?;
    for key in 0..keys {
        text.extend_from_slice(b"fly f0 k")?;
        text.extend_from_slice(key.to_string(alloc)?.as_bytes())?;
        text.push(b'\n')?;
    }
    Ok(text)
}

// Semaphores, groups of flights and keys, and the line that passes a limit, or 1,000,000 where the text is read.
const LIMITS: [(u32, u32, u32, u32); 5] = [
    (32, 32, 0, 1_000_000),
    (33, 0, 0, 35),
    (32, 33, 0, 67),
    (0, 1, 4_096, 1_000_000),
    (0, 1, 4_097, 4_101),
];

#[test]
fn semaphores_flights_and_keys_are_few(rt: HostRuntime) -> Result<(), Fail> {
    for &(semas, flights, keys, line) in &LIMITS {
        let text = text_of(rt.alloc(), semas, flights, keys)?;
        let (at, said) = refusal(parse_run(rt.alloc(), &text))?;
        assert!(rt; at == line, "at {semas} {flights} {keys}: {at} {said}");
        assert!(rt;
            at == 1_000_000 || said == Reason::LimitReached.text(),
            "at {semas} {flights} {keys}: {said}"
        );
    }
    Ok(())
}
