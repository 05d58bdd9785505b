//! The text of a record: which lines are read, and which is refused.
use record_text::reading::read_record;
use record_text::{CheckFault, CheckReason};
use std::alloc::{AllocError, Global};
use std::test::Fail;
use workload::Reason;

// Two workers, and an object of each kind. Worker 0 makes two calls, worker 1 none.
const WORKLOAD: &[u8] =
    b"workers 2\nmap t\nint64 a\nmutex m\nrwmutex w\ncond c m\nwaitgroup g 0\nonce o a 1\noncefunc f 0\noncevalue v 0\npool p\ndormant 1\nworker 0\nstore t k 1\nload a\n";

// The number of the line behind the line `record`.
const FIRST: u32 = 17;

const BAD: CheckReason = CheckReason::BadRecordLine;

// The line and the reason of a refusal, or line 0 and `bad record line` where the text is read.
fn refusal(alloc: Global, text: &[u8]) -> (u32, CheckReason) {
    match read_record(alloc, text) {
        Ok(_) => (0, BAD),
        Err(CheckFault::Refused { line, reason }) => (line, reason),
        Err(CheckFault::Memory) => (u32::MAX, BAD),
    }
}

// The workload's text, the line `record`, and this text.
fn with_workload(alloc: Global, lines: &[u8]) -> Result<Vec<u8>, AllocError> {
    let mut text = Vec::from_slice(alloc, WORKLOAD)?;
    text.extend_from_slice(b"record\n")?;
    text.extend_from_slice(lines)?;
    Ok(text)
}

// Lines of the forms, in a text of this workload.
const READ: [&[u8]; 74] = [
    b"call 0 0 0 0,0 ok",
    b"call 0 1 18446744073709551615 18446744073709551615,0 -9223372036854775808",
    b"call 0 - 0 0,0 - false",
    b"call 0 0 0 0,0 18446744073709551615 true",
    b"call 0 0 0 0,0 0 false",
    b"call 0 0 0 0,0 true",
    b"call 0 0 0 0,0 false",
    b"call 0 0 0 0,0 18446744073709551615",
    b"begin 0 0 7 0,0",
    b"next 0 0 7 0,0 k=18446744073709551615",
    b"next 1 - 7 0,0 -",
    b"event 0 0 m 0 0,0 arrive@18446744073709551615 acquired",
    b"event 0 0 m 0 0,0 arrive@0 queued",
    b"event 0 0 m 0 0,0 try true",
    b"event 0 0 m 0 0,0 try false",
    b"event 0 0 m 0 0,0 unlock free",
    b"event 0 0 m 0 0,0 unlock woke=1",
    b"event 0 0 m 0 0,0 unlock handed=0",
    b"event 0 0 m 0 0,0 unlock m1",
    b"event 0 0 m 0 0,0 woken@5 acquired",
    b"event 0 0 m 0 0,0 woken@5 requeued",
    b"event 0 0 m 0 0,0 woken@5 still",
    b"event 0 0 m 0 0,0 try halted=M1",
    b"event 0 - m 0 0,0 halt=M5 ok",
    b"event 0 0 w 0 0,0 r_arrive acquired",
    b"event 0 0 w 0 0,0 r_try true",
    b"event 0 0 w 0 0,0 w_try false",
    b"event 0 0 w 0 0,0 r_unlock ok",
    b"event 0 0 w 0 0,0 r_unlock m2",
    b"event 0 0 w 0 0,0 w_unlock ok",
    b"event 0 0 w 0 0,0 w_unlock m3",
    b"event 0 0 w 0 0,0 w_arrive@1 queued",
    b"event 0 0 w 0 0,0 w_woken@1 acquired",
    b"event 0 0 w 0 0,0 w_woken@1 queued",
    b"event 0 0 w 0 0,0 w_woken@1 requeued",
    b"event 0 0 w 0 0,0 w_woken@1 still",
    b"event 0 0 w 0 0,0 leave ok",
    b"event 0 0 w 0 0,0 leave still",
    b"event 0 0 c 0 0,0 ticket ok",
    b"event 0 0 c 0 0,0 signal ok",
    b"event 0 0 c 0 0,0 broadcast ok",
    b"event 0 0 c 0 0,0 leave still",
    b"event 0 0 g 0 0,0 add=18446744073709551615 ok",
    b"event 0 0 g 0 0,0 add=-9223372036854775808 m4",
    b"event 0 0 g 0 0,0 wait ok",
    b"event 0 0 g 0 0,0 wait queued",
    b"event 0 0 g 0 0,0 leave m5",
    b"event 0 0 g 0 0,0 leave ok",
    b"event 0 0 g 0 0,0 leave still",
    b"event 0 0 o 0 0,0 begin run",
    b"event 0 0 o 0 0,0 begin queued",
    b"event 0 0 o 0 0,0 begin done",
    b"event 0 0 f 0 0,0 end ok",
    b"event 0 0 f 0 0,0 leave ok",
    b"event 0 0 v 0 0,0 leave still",
    b"event 0 0 p!0 0 0,0 put=18446744073709551615 ok",
    b"event 0 0 p!1 0 0,0 look_own item=0",
    b"event 0 0 p!1 0 0,0 look_other none",
    b"event 0 0 p!1 0 0,0 look_victim none",
    b"event 0 0 p!1 0 0,0 sweep ok",
    b"event 0 0 p!1 0 0,0 sweep halted=M4",
    b"event 0 - p!1 0 0,0 halt=M4 ok",
    b"event 0 - !stop 0 0,0 halt=M2 ok",
    b"event 0 - !starts 0 0,0 halt=M3 ok",
    b"event 0 0 !starts 0 0,0 start=1 ok",
    b"event 0 - !starts 0 0,0 end ok",
    b"event 1 - !starts 0 0,0 leave go",
    b"event 1 - !starts 0 0,0 leave never",
    b"event 1 - !starts 0 0,0 leave still",
    b"event 1 - !starts 0 0,0 leave halted=M1",
    b"event 1 - g 0 0,0 add=-1 ok",
    b"event 0 0 o 18446744073709551615 0,0 end ok",
    b"event 0 1 c 0 0,0 ticket halted=M2",
    b"event 0 0 g 0 0,0 wait halted=M5",
];

#[test]
fn lines_of_the_forms_are_read(rt: HostRuntime) -> Result<(), Fail> {
    for &line in &READ {
        let mut text = with_workload(rt.alloc(), line)?;
        text.extend_from_slice(b"\noutcome done\n0.0 store t k 1 -> ok\n")?;
        assert!(rt; refusal(rt.alloc(), &text) == (0, BAD), "at {line:?}");
        match read_record(rt.alloc(), &text) {
            Ok(told) => assert!(rt;
                told.items.len() == 1
                    && told.misused.is_none()
                    && told.report == b"0.0 store t k 1 -> ok\n".as_slice()
            ),
            Err(_) => Err("the text isn't read")?,
        }
    }
    Ok(())
}

// Lines of no form.
const NO_FORM: [&[u8]; 62] = [
    b"",
    b" ",
    b"record",
    b"outcome",
    b"outcome misused",
    b"outcome misused M0",
    b"outcome misused M7",
    b"outcome misused m1",
    b"outcome done ",
    b"call 2 0 0 0,0 ok",
    b"call 00 0 0 0,0 ok",
    b"call 0 2 0 0,0 ok",
    b"call 1 0 0 0,0 ok",
    b"call 0 0 0 0 ok",
    b"call 0 0 0 0,0,0 ok",
    b"call 0 0 0 0,,0 ok",
    b"call 0 0 0 0,00 ok",
    b"call 0 0 18446744073709551616 0,0 ok",
    b"call 0 0 0 18446744073709551616,0 ok",
    b"call 0 0 0 0,0 18446744073709551616",
    b"call 0 0 0 0,0 -9223372036854775809",
    b"call 0 0 0 0,0 -0",
    b"call 0 0 0 0,0 -1 true",
    b"call 0 0 0 0,0 - true",
    b"call 0 0 0 0,0 -",
    b"call 0 0 0 0,0 5 maybe",
    b"call 0 0 0 0,0 k=1 l=2",
    b"call 0 0 0 0,0 ok ok",
    b"call 0 0 0 0,0 ok ",
    b"call  0 0 0 0,0 ok",
    b"call 0 0 0 0,0",
    b"begin 0 0 0 0,0 ok",
    b"begin 0 0 -1 0,0",
    b"next 0 0 0 0,0",
    b"next 0 0 0 0,0 l=1",
    b"next 0 0 0 0,0 k=",
    b"next 0 0 0 0,0 k=18446744073709551616",
    b"next 0 0 0 0,0 k=-1",
    b"event 0 0 x 0 0,0 try true",
    b"event 0 0 t 0 0,0 halt=M1 ok",
    b"event 0 0 a 0 0,0 halt=M1 ok",
    b"event 0 0 p 0 0,0 sweep ok",
    b"event 0 0 p!2 0 0,0 sweep ok",
    b"event 0 0 p!00 0 0,0 sweep ok",
    b"event 0 0 m!0 0 0,0 try true",
    b"event 0 0 !stop 0 0,0 try true",
    b"event 0 0 !go 0 0,0 try true",
    b"event 0 0 m 0 0,0 r_try true",
    b"event 0 0 m 0 0,0 arrive acquired",
    b"event 0 0 m 0 0,0 arrive@ acquired",
    b"event 0 0 m 0 0,0 try@1 true",
    b"event 0 0 m 0 0,0 try ok",
    b"event 0 0 m 0 0,0 unlock woke=2",
    b"event 0 0 m 0 0,0 unlock m2",
    b"event 0 0 m 0 0,0 halt=M1 halted=M1",
    b"event 0 0 m 0 0,0 halt=m1 ok",
    b"event 0 0 m 0 0,0 try halted=m1",
    b"event 0 0 g 0 0,0 add=-9223372036854775809 ok",
    b"event 0 0 g 0 0,0 add=+1 ok",
    b"event 0 0 !starts 0 0,0 start=2 ok",
    b"event 0 0 p!0 0 0,0 put=1 ok none",
    b"Call 0 0 0 0,0 ok",
];

#[test]
fn lines_of_no_form_are_refused(rt: HostRuntime) -> Result<(), Fail> {
    for &line in &NO_FORM {
        let mut text = with_workload(rt.alloc(), b"call 0 0 0 0,0 ok\n")?;
        text.extend_from_slice(line)?;
        text.extend_from_slice(b"\noutcome done\n")?;
        assert!(rt;
            refusal(rt.alloc(), &text) == (FIRST + 1, BAD),
            "at {line:?}"
        );
    }
    Ok(())
}

// Whole texts, and their refusals; line 0 where one is read.
const TEXTS: [(&[u8], u32, CheckReason); 15] = [
    (b"workers 1\nrecord\noutcome done\n", 0, BAD),
    (b"workers 1\nrecord\noutcome done", 0, BAD),
    (b"workers 1\nrecord\noutcome misused M5\nany\n\n", 0, BAD),
    (b"", 1, CheckReason::Workload(Reason::NoWorkersLine)),
    (
        b"record\noutcome done\n",
        1,
        CheckReason::Workload(Reason::NoWorkersLine),
    ),
    (
        b"map t\nrecord\noutcome done\n",
        1,
        CheckReason::Workload(Reason::NoWorkersLine),
    ),
    (
        b"workers 1\nmap t\nmap t\nrecord\nx\n",
        3,
        CheckReason::Workload(Reason::NameTaken),
    ),
    (b"workers 1\n", 1, BAD),
    (b"workers 1\n\n# none", 3, BAD),
    (b"workers 1\nrecord", 2, BAD),
    (b"workers 1\nrecord\n", 2, BAD),
    (b"workers 1\nrecord\nx\n", 3, BAD),
    (
        b"workers 1\nrecord \noutcome done\n",
        2,
        CheckReason::Workload(Reason::UnknownWord),
    ),
    (
        b"workers 1\n record\noutcome done\n",
        2,
        CheckReason::Workload(Reason::UnknownWord),
    ),
    (b"workers 1\nrecord\nrecord\noutcome done\n", 3, BAD),
];

#[test]
fn whole_texts_and_their_refusals(rt: HostRuntime) -> Result<(), Fail> {
    for &(text, line, reason) in &TEXTS {
        assert!(rt; refusal(rt.alloc(), text) == (line, reason), "at {text:?}");
    }
    Ok(())
}

// A text with so many item lines.
fn with_items(alloc: Global, count: u32) -> Result<Vec<u8>, AllocError> {
    let mut text = with_workload(alloc, b"")?;
    for _ in 0..count {
        text.extend_from_slice(b"call 0 0 0 0,0 ok\n")?;
    }
    text.extend_from_slice(b"outcome done\n")?;
    Ok(text)
}

#[test]
fn the_limit_of_item_lines(rt: HostRuntime) -> Result<(), Fail> {
    let most = with_items(rt.alloc(), 40_000)?;
    assert!(rt; refusal(rt.alloc(), &most) == (0, BAD));
    let more = with_items(rt.alloc(), 40_001)?;
    assert!(rt; refusal(rt.alloc(), &more) == (FIRST + 40_000, BAD));
    Ok(())
}

// A text with a line of the report of so many bytes.
fn with_report(alloc: Global, bytes: u32) -> Result<Vec<u8>, AllocError> {
    let mut text = with_workload(alloc, b"outcome done\n")?;
    for _ in 0..bytes {
        text.push(b'x')?;
    }
    Ok(text)
}

// A text with an item line of 386 bytes and so many.
fn with_front(alloc: Global, digits: u32) -> Result<Vec<u8>, AllocError> {
    let mut text = Vec::from_slice(alloc, b"workers 32\nrecord\ncall 0 - 0 ")?;
    for _ in 0..digits {
        text.push(b'1')?;
    }
    for _ in 0..31 {
        text.extend_from_slice(b",11111111111")?;
    }
    text.extend_from_slice(b" ok\noutcome done\n")?;
    Ok(text)
}

#[test]
fn the_limit_of_a_line(rt: HostRuntime) -> Result<(), Fail> {
    let most = with_front(rt.alloc(), 14)?;
    assert!(rt; refusal(rt.alloc(), &most) == (0, BAD));
    let more = with_front(rt.alloc(), 15)?;
    assert!(rt; refusal(rt.alloc(), &more) == (3, BAD));
    let most = with_report(rt.alloc(), 400)?;
    assert!(rt; refusal(rt.alloc(), &most) == (0, BAD));
    let more = with_report(rt.alloc(), 401)?;
    assert!(rt; refusal(rt.alloc(), &more) == (FIRST + 1, BAD));
    Ok(())
}

// A workload's text that is cut off behind so many bytes, a line feed, and a record without items.
fn with_comments(alloc: Global, bytes: usize) -> Result<Vec<u8>, AllocError> {
    let mut text = Vec::from_slice(alloc, b"workers 1\n")?;
    let mut line = [b'#'; 128];
    line[127] = b'\n';
    for _ in 0..65_536 {
        text.extend_from_slice(&line)?;
    }
    text.truncate(bytes);
    text.extend_from_slice(b"\nrecord\noutcome done\n")?;
    Ok(text)
}

#[test]
fn the_limit_of_what_stands_before_a_record(rt: HostRuntime) -> Result<(), Fail> {
    let most = with_comments(rt.alloc(), 8_388_607)?;
    assert!(rt; refusal(rt.alloc(), &most) == (0, BAD));
    let more = with_comments(rt.alloc(), 8_388_608)?;
    assert!(rt; refusal(rt.alloc(), &more) == (0, CheckReason::Workload(Reason::InputTooLong)));
    Ok(())
}

#[test]
fn the_limit_of_a_text(rt: HostRuntime) -> Result<(), Fail> {
    let mut text = with_workload(rt.alloc(), b"outcome done\n")?;
    let mut line = [b'x'; 256];
    line[255] = b'\n';
    for _ in 0..65_536 {
        text.extend_from_slice(&line)?;
    }
    let most: usize = 16_777_216;
    text.truncate(most);
    assert!(rt; refusal(rt.alloc(), &text) == (0, BAD));
    text.push(b'\n')?;
    assert!(rt; refusal(rt.alloc(), &text) == (0, CheckReason::Workload(Reason::InputTooLong)));
    Ok(())
}
