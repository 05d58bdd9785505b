//! Texts whose races are asked for: what they may say beside the words of plain texts, and how they are refused.
use std::alloc::Global;
use std::test::Fail;
use workload::reason::Reason;
use workload::{ObjectKind, ParseFault, Workload};
use workload_text::{parse, parse_race};

const TWO_WORKERS: &[u8] =
    b"workers 2\nvar x\nmutex m\nvar y\nworker 0\nwrite x 9223372036854775807\nlock m\nread y\nunlock m\nworker 1\nread x\nwrite y 0\n";

#[test]
fn a_race_text_has_variables(rt: HostRuntime) -> Result<(), Fail> {
    let workload = parse_race(rt.alloc(), TWO_WORKERS)
        .ok()
        .ok_or("the text is read")?;
    let kinds = [ObjectKind::Var, ObjectKind::Mutex, ObjectKind::Var];
    assert!(rt; workload.objects().len() == kinds.len());
    for (object, kind) in workload.objects().iter().zip(&kinds) {
        assert!(rt; object.kind == *kind);
    }
    if workload.workers() == 2 {
        assert!(rt; (workload.script(0).len(), workload.script(1).len()) == (4, 2));
    }
    Ok(())
}

// How a text is refused, or line 1,000,000 where it is read.
pub fn refusal(read: Result<Workload, ParseFault>) -> Result<(u32, &'static str), Fail> {
    match read {
        Ok(_) => Ok((1_000_000, "read")),
        Err(ParseFault::Refused { line, reason }) => Ok((line, reason.text())),
        Err(ParseFault::Memory) => Err("out of memory")?,
    }
}

// A text, and its line and reason by `parse_race`.
const REFUSED: [(&[u8], u32, Reason); 16] = [
    (b"workers 1\nvar", 2, Reason::WrongNumberOfWords),
    (b"workers 1\nvar x 0", 2, Reason::WrongNumberOfWords),
    (b"workers 1\nvar X", 2, Reason::BadName),
    (b"workers 1\nvar x\nmutex x", 3, Reason::NameTaken),
    (b"workers 1\nvar x\nread x", 3, Reason::CallOutsideWorker),
    (
        b"workers 1\nvar x\nworker 0\nread y",
        4,
        Reason::UnknownName,
    ),
    (
        b"workers 1\nvar x\nworker 0\nread x 1",
        4,
        Reason::WrongNumberOfWords,
    ),
    (
        b"workers 1\nvar x\nworker 0\nwrite x",
        4,
        Reason::WrongNumberOfWords,
    ),
    (
        b"workers 1\nvar x\nworker 0\nwrite x 9223372036854775808",
        4,
        Reason::BadNumber,
    ),
    (
        b"workers 1\nvar x\nworker 0\nwrite x -1",
        4,
        Reason::BadNumber,
    ),
    (b"workers 1\nvar x\nworker 0\nload x", 4, Reason::WrongKind),
    (
        b"workers 1\nvar x\nworker 0\nstore x 1",
        4,
        Reason::WrongKind,
    ),
    (
        b"workers 1\nint64 a\nworker 0\nread a",
        4,
        Reason::WrongKind,
    ),
    (
        b"workers 1\nint64 a\nworker 0\nwrite a 1",
        4,
        Reason::WrongKind,
    ),
    (b"workers 1\nvar x\nonce o x 1", 3, Reason::WrongKind),
    (
        b"workers 1\nvar x\nworker 0\nRead x",
        4,
        Reason::UnknownWord,
    ),
];

#[test]
fn a_race_text_is_refused_by_its_first_fault(rt: HostRuntime) -> Result<(), Fail> {
    for &(text, line, reason) in &REFUSED {
        let told = refusal(parse_race(rt.alloc(), text))?;
        assert!(rt; told == (line, reason.text()), "at {text:?}");
    }
    Ok(())
}

// A text of plain variables, and the line with the first of their words.
const UNKNOWN: [(&[u8], u32); 4] = [
    (TWO_WORKERS, 2),
    (b"workers 1\nworker 0\nread x", 3),
    (b"workers 1\nwrite x 5", 2),
    (b"workers 1\n\n  var", 3),
];

#[test]
fn other_texts_do_not_know_the_words(rt: HostRuntime) -> Result<(), Fail> {
    for &(text, line) in &UNKNOWN {
        let told = refusal(parse(rt.alloc(), text))?;
        assert!(rt; told == (line, Reason::UnknownWord.text()), "at {text:?}");
    }
    Ok(())
}

// The text of so many variables, of which the first is written so often by one worker and read so often by the other.
fn text_of(alloc: Global, variables: u32, writes: u32, reads: u32) -> Result<Vec<u8>, Fail> {
    let mut text = Vec::new(alloc);
    text.extend_from_slice(b"workers 2\n")?;
    for variable in 0..variables {
        text.extend_from_slice(b"var x")?;
        text.extend_from_slice(variable.to_string(alloc)?.as_bytes())?;
        text.push(b'\n')?;
    }
    text.extend_from_slice(b"worker 0\n")?;
    for _ in 0..writes {
        text.extend_from_slice(b"write x0 7\n")?;
    }
    text.extend_from_slice(b"worker 1\n")?;
    for _ in 0..reads {
        text.extend_from_slice(b"read x0\n")?;
    }
    Ok(text)
}

// Variables, writes and reads, and the line that passes a limit, or 1,000,000 where the text is read.
const LIMITS: [(u32, u32, u32, u32); 5] = [
    (32, 0, 0, 1_000_000),
    (33, 0, 0, 34),
    (1, 1_000, 0, 1_000_000),
    (1, 600, 400, 1_000_000),
    (1, 600, 401, 1_005),
];

#[test]
fn variables_and_their_calls_are_few(rt: HostRuntime) -> Result<(), Fail> {
    for &(variables, writes, reads, line) in &LIMITS {
        let text = text_of(rt.alloc(), variables, writes, reads)?;
        let (at, said) = refusal(parse_race(rt.alloc(), &text))?;
        assert!(rt; at == line, "at {variables} {writes} {reads}: {at} {said}");
        assert!(rt;
            at == 1_000_000 || said == Reason::LimitReached.text(),
            "at {variables} {writes} {reads}: {said}"
        );
    }
    Ok(())
}
