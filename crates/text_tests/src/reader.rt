//! What the lines of a text say of its workload.
use std::alloc::Global;
use std::test::Fail;
use sync_types::AtomicKind;
use workload::{ObjectKind, Turn, Workload};
use workload_text::parse;

// The workload of a text.
fn read(alloc: Global, text: &[u8]) -> Result<Workload, Fail> {
    match parse(alloc, text) {
        Ok(workload) => Ok(workload),
        Err(_) => Err("the text isn't read")?,
    }
}

const PARTS: &[u8] =
    b"workers 2\nmap t\nworker 1\nstore t k 1\nworker 0\nload t k\nworker 1\nload t l\nschedule 1 @5\ndormant 1\nschedule 0\n";

const TURNS: [Turn; 3] = [Turn::Worker(1), Turn::Moment(5), Turn::Worker(0)];

#[test]
fn the_parts_of_a_workload(rt: HostRuntime) -> Result<(), Fail> {
    let workload = read(rt.alloc(), PARTS)?;
    let counts = (workload.workers(), workload.objects().len());
    assert!(rt; counts == (2, 1));
    if workload.workers() == 2 {
        assert!(rt; (workload.script(0).len(), workload.script(1).len()) == (1, 2));
        assert!(rt; (workload.is_dormant(0), workload.is_dormant(1)) == (false, true));
    }
    assert!(rt; workload.dormant() == [false, true].as_slice());
    assert!(rt; workload.has_dormant());
    assert!(rt; workload.schedule() == TURNS.as_slice());
    Ok(())
}

const EACH_OBJECT: &[u8] =
    b"workers 1\nint64 b\nmutex n\nmutex m\nint64 a\ncond c m\nonce o a -7\nwaitgroup g 3\noncefunc f 4\noncevalue v 9\npool p\n";

const KINDS: [ObjectKind; 10] = [
    ObjectKind::Atomic(AtomicKind::Int64),
    ObjectKind::Mutex,
    ObjectKind::Mutex,
    ObjectKind::Atomic(AtomicKind::Int64),
    ObjectKind::Cond { mutex: 2 },
    ObjectKind::Once {
        atomic: 3,
        delta: -7,
    },
    ObjectKind::WaitGroup { start: 3 },
    ObjectKind::OnceFunc { code: 4 },
    ObjectKind::OnceValue { value: 9 },
    ObjectKind::Pool,
];

#[test]
fn what_an_object_line_says(rt: HostRuntime) -> Result<(), Fail> {
    let workload = read(rt.alloc(), EACH_OBJECT)?;
    assert!(rt; workload.objects().len() == KINDS.len());
    for (object, kind) in workload.objects().iter().zip(&KINDS) {
        assert!(rt; object.kind == *kind && object.kind.word() == kind.word());
    }
    Ok(())
}
