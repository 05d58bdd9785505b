//! The canonical text of a workload.
use std::test::Fail;
use workload_text::{parse, print};

const CANONICAL_TEXTS: [(&[u8], &[u8]); 11] = [
    (
        b"workers 1\nmap t\nint32 a\nint64 b\nuint32 c\nuint64 d\nbool e\nworker 0\nstore a -2147483648\nadd b -1\nand c 7\nor d 18446744073709551615\ncas e false true\nswap e true\nload a\n",
        b"workers 1\nmap t\nint32 a\nint64 b\nuint32 c\nuint64 d\nbool e\nworker 0\nstore a -2147483648\nadd b -1\nand c 7\nor d 18446744073709551615\ncas e false true\nswap e true\nload a\n",
    ),
    (
        b"workers 1\nmap t\nworker 0\nlos t k 1\nlad t k\ndelete t k\nswap t k 2\ncas t k 2 3\ncad t k 3\nclear t\nrange t\n",
        b"workers 1\nmap t\nworker 0\nlos t k 1\nlad t k\ndelete t k\nswap t k 2\ncas t k 2 3\ncad t k 3\nclear t\nrange t\n",
    ),
    (
        b"workers 1\nmap t\nworker 0\nstore t apple 5\nload t apple\n",
        b"workers 1\nmap t\nworker 0\nstore t apple 5\nload t apple\n",
    ),
    (
        b"workers 1\nworker 0\nmutex m\nlock m\ntrylock m\nunlock m\nrwmutex w\nlock w\ntrylock w\nunlock w\nrlock w\ntryrlock w\nrunlock w\n",
        b"workers 1\nmutex m\nrwmutex w\nworker 0\nlock m\ntrylock m\nunlock m\nlock w\ntrylock w\nunlock w\nrlock w\ntryrlock w\nrunlock w\n",
    ),
    (
        b"workers 1\nmutex m\nworker 0\ncond c m\nwait c\nsignal c\nbroadcast c\nint64 a\nonce o  a -10000\ndo o\nwaitgroup g 10000\nadd g -1\nadd g 10000\ndone g\nwait g\noncefunc f 1000\ncall f\noncevalue v 0\nvalue v\npool p\nput p 7\nget p\nsweep p\n",
        b"workers 1\nmutex m\ncond c m\nint64 a\nonce o a -10000\nwaitgroup g 10000\noncefunc f 1000\noncevalue v 0\npool p\nworker 0\nwait c\nsignal c\nbroadcast c\ndo o\nadd g -1\nadd g 10000\ndone g\nwait g\ncall f\nvalue v\nput p 7\nget p\nsweep p\n",
    ),
    (b" # none\n workers  2", b"workers 2\nworker 0\nworker 1\n"),
    (
        b"workers 2\nworker 1\nmap u\nload u k\nworker 0\nmap t\nstore t k 0\nworker 1\nload t k\n",
        b"workers 2\nmap u\nmap t\nworker 0\nstore t k 0\nworker 1\nload u k\nload t k\n",
    ),
    (
        b"workers 5\ndormant 3\nworker 1\nmutex m\nlock m\n dormant  0\nunlock m\nschedule 0 3\ndormant 4",
        b"workers 5\nmutex m\ndormant 0\ndormant 3\ndormant 4\nworker 0\nworker 1\nlock m\nunlock m\nworker 2\nworker 3\nworker 4\nschedule 0 3\n",
    ),
    (
        b"workers 2\ndormant 1\ndormant 0\n",
        b"workers 2\ndormant 0\ndormant 1\nworker 0\nworker 1\n",
    ),
    (
        b"workers 3\nwaitgroup g 1\nworker 1\ndormant 2\n go  g 2\nworker 0\ndormant 1\ngo g 1\ndone g\n",
        b"workers 3\nwaitgroup g 1\ndormant 1\ndormant 2\nworker 0\ngo g 1\ndone g\nworker 1\ngo g 2\nworker 2\n",
    ),
    (
        b"workers 2\nschedule 0 1 0 1\nschedule 0 @5 0 1 1\n",
        b"workers 2\nworker 0\nworker 1\nschedule 0 1 0 1 0 @5 0 1\nschedule 1\n",
    ),
];

#[test]
fn the_canonical_text(rt: HostRuntime) -> Result<(), Fail> {
    for &(text, canonical) in &CANONICAL_TEXTS {
        let workload = parse(rt.alloc(), text).ok().ok_or("the text is read")?;
        let printed = print(rt.alloc(), &workload)?;
        assert!(rt; printed.as_slice() == canonical, "at {text:?}");
    }
    Ok(())
}

const IFEQS: [(&[u8], &[u8]); 10] = [
    (b"int32", b"ifeq a -2147483648 1"),
    (b"int32", b"ifeq a 2147483647 1000"),
    (b"int64", b"ifeq a -9223372036854775808 1000"),
    (b"int64", b"ifeq a 9223372036854775807 1"),
    (b"uint32", b"ifeq a 0 1"),
    (b"uint32", b"ifeq a 4294967295 999"),
    (b"uint64", b"ifeq a 0 1000"),
    (b"uint64", b"ifeq a 18446744073709551615 2"),
    (b"bool", b"ifeq a true 1"),
    (b"bool", b"ifeq a false 1000"),
];

#[test]
fn an_ifeq_is_printed_as_it_is_read(rt: HostRuntime) -> Result<(), Fail> {
    for &(kind, call) in &IFEQS {
        let mut text = Vec::new(rt.alloc());
        text.extend_from_slice(b"workers 1\n")?;
        text.extend_from_slice(kind)?;
        text.extend_from_slice(b" a\nworker 0\n")?;
        text.extend_from_slice(call)?;
        text.push(b'\n')?;
        let workload = parse(rt.alloc(), &text).ok().ok_or("the text is read")?;
        let printed = print(rt.alloc(), &workload)?;
        assert!(rt; printed == text, "at {text:?}");
    }
    Ok(())
}
