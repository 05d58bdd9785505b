//! The items of lists, written back as their lines.
use crate::texts::{made_list, text_of};
use record_text::{
    Directory, ItemLine, RECORD_LINE_ROOM, Said, item_of, read_record, set_item_line,
};
use std::alloc::{AllocError, Global};
use std::test::Fail;
use workload::Workload;
use workload::limits::MAX_WORKERS;

// Two workers, and an object of each kind.
const WORKLOAD: &[u8] =
    b"workers 2\nmap t\nint64 a\nmutex m\nrwmutex w\ncond c m\nwaitgroup g 0\nonce o a 1\noncefunc f 7\noncevalue v 9\npool p\ndormant 1\nworker 0\nstore t k 1\nload t k\nadd a 5\nrange t\n";

// Lines of worker 0.
const LINES: [&[u8]; 30] = [
    b"call 0 0 0 0,0 ok",
    b"call 0 1 1 1,0 1 true",
    b"call 0 1 18446744073709551615 18446744073709551615,0 - false",
    b"call 0 2 1 2,7 -9223372036854775807",
    b"call 0 2 1 2,7 5",
    b"begin 0 3 7 0,0",
    b"next 0 3 7 0,0 k=18446744073709551615",
    b"next 0 3 7 0,0 -",
    b"event 0 0 m 0 0,0 arrive@18446744073709551615 acquired",
    b"event 0 0 m 0 0,0 unlock woke=1",
    b"event 0 0 m 0 0,0 unlock handed=0",
    b"event 0 0 m 0 0,0 unlock m1",
    b"event 0 0 m 0 0,0 woken@5 requeued",
    b"event 0 0 m 0 0,0 try halted=M1",
    b"event 0 - m 0 0,0 halt=M5 ok",
    b"event 0 0 w 0 0,0 w_arrive@1 queued",
    b"event 0 0 w 0 0,0 r_unlock m2",
    b"event 0 0 w 0 0,0 leave ok",
    b"event 0 0 c 0 0,0 ticket ok",
    b"event 0 0 g 0 0,0 add=-2147483647 m4",
    b"event 0 0 g 0 0,0 add=3 ok",
    b"event 0 0 o 0 0,0 begin done",
    b"event 0 0 f 0 0,0 end ok",
    b"event 0 0 v 0 0,0 leave still",
    b"event 0 0 p!0 0 0,0 put=18446744073709551615 ok",
    b"event 0 0 p!1 3 0,0 look_victim item=0",
    b"event 0 0 p!1 4 0,0 sweep ok",
    b"event 0 - !stop 0 0,0 halt=M2 ok",
    b"event 0 0 !starts 0 0,0 start=1 ok",
    b"event 0 - !starts 0 0,0 leave never",
];

// The number that a line says of an entry.
fn number_in(said: Said) -> u64 {
    match said {
        Said::Entered { number, .. } => number,
        _ => 0,
    }
}

// An item's line, or nothing where its front is too long.
fn line_of(
    alloc: Global,
    workload: &Workload,
    item: &ItemLine,
) -> Result<Option<Vec<u8>>, AllocError> {
    if item.front.len() > MAX_WORKERS as usize {
        return Ok(None);
    }
    let directory = Directory::of(alloc, workload)?;
    let mut line = Vec::with_capacity(alloc, RECORD_LINE_ROOM)?;
    set_item_line(&mut line, workload, &directory, item);
    Ok(Some(line))
}

// The line of the first item of worker 0, made of the item that its line in this text says.
fn written_back(alloc: Global, text: &[u8]) -> Result<Option<Vec<u8>>, AllocError> {
    let Ok(text) = read_record(alloc, text) else {
        return Ok(None);
    };
    let Some(list) = made_list(alloc, &text.workload, text.items.as_slice(), 0)? else {
        return Ok(None);
    };
    let (Some(item), Some(made)) = (text.items.as_slice().first(), list.first()) else {
        return Ok(None);
    };
    let Some(written) = item_of(alloc, 0, item.index, number_in(item.said), made)? else {
        return Ok(None);
    };
    line_of(alloc, &text.workload, &written)
}

#[test]
fn items_are_written_as_their_lines(rt: HostRuntime) -> Result<(), Fail> {
    for &line in &LINES {
        let mut items = Vec::from_slice(rt.alloc(), line)?;
        items.push(b'\n')?;
        let text = text_of(rt.alloc(), WORKLOAD, &items)?;
        let written = written_back(rt.alloc(), &text)?;
        assert!(rt; written.is_some(), "at {line:?}");
        if let Some(written) = written {
            assert!(rt; written.as_slice() == line, "at {line:?}: {written:?}");
        }
    }
    Ok(())
}
