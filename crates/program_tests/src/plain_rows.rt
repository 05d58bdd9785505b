//! Runs over maps and atomics that take turns.
use crate::plain_maps::threaded_plain;
use script_calls::{Outcome, Reply, Report, VarReply};
use std::alloc::{AllocError, Global};
use std::sync::Wait;
use std::test::Fail;
use std::thread::Threads;
use sync_outside::{Clock, OpenGate, ThreadSpawner};
use sync_types::{DoReply, PoolCallReply};
use system_io::SystemClock;
use thread_runner::RunFault;
use workload::laws::plain_texts_are_race_texts_without_variables;
use workload_text::parse;

// A reply, in words.
fn told_reply(alloc: Global, reply: &Reply<u32>) -> Result<String, AllocError> {
    match reply {
        Reply::Map(reply) => format!(in alloc; "Map({reply:?})"),
        Reply::Pairs(pairs) => {
            let pairs = pairs.as_slice();
            format!(in alloc; "Pairs({pairs:?})")
        }
        Reply::Atomic(reply) => format!(in alloc; "Atomic({reply:?})"),
        Reply::Lock(reply) => format!(in alloc; "Lock({reply:?})"),
        Reply::Returned => String::from_str(alloc, "Returned"),
        Reply::Once(DoReply::Ran(sum)) => format!(in alloc; "Once(Ran({sum}))"),
        Reply::Once(DoReply::Done) => String::from_str(alloc, "Once(Done)"),
        Reply::OnceFunc(code) => format!(in alloc; "OnceFunc({code:?})"),
        Reply::OnceValue(value) => format!(in alloc; "OnceValue({value})"),
        Reply::Pool(PoolCallReply::Put(item)) => format!(in alloc; "Pool(Put({item}))"),
        Reply::Pool(PoolCallReply::Done) => String::from_str(alloc, "Pool(Done)"),
        Reply::Pool(PoolCallReply::New) => String::from_str(alloc, "Pool(New)"),
        Reply::Flown(value, shared) => format!(in alloc; "Flown({value}, {shared})"),
        Reply::Var(VarReply::Held(value)) => format!(in alloc; "Var(Held({value}))"),
        Reply::Var(VarReply::Done) => String::from_str(alloc, "Var(Done)"),
    }
}

// The replies of each worker, and what the objects hold at the end.
fn told(alloc: Global, report: &Report) -> Result<String, AllocError> {
    let mut text = String::new(alloc);
    for replies in report.replies.as_slice() {
        text.push_str("[")?;
        for (place, reply) in replies.as_slice().iter().enumerate() {
            if place > 0 {
                text.push_str(", ")?;
            }
            let words = told_reply(alloc, reply)?;
            text.push_str(&words)?;
        }
        text.push_str("] ")?;
    }
    let ends = report.ends.as_slice();
    let words = format!(in alloc; "{ends:?}")?;
    text.push_str(&words)?;
    Ok(text)
}

// What the run of a text comes to: what it leaves behind, and then how it ends where it isn't Done.
fn told_of<C: Clock + Sync, R: Threads + Wait + Sync>(
    rt: &R,
    alloc: Global,
    text: &str,
    clock: &C,
) -> Result<String, AllocError> {
    plain_texts_are_race_texts_without_variables();
    let Ok(workload) = parse(alloc, text.as_bytes()) else {
        return String::from_str(alloc, "not read");
    };
    let mut spawner = ThreadSpawner::new();
    match threaded_plain(rt, alloc, &workload, clock, &mut spawner, &OpenGate) {
        Ok(Outcome::Done(report)) => told(alloc, &report),
        Ok(Outcome::Misused(report, misuse)) => {
            let left = told(alloc, &report)?;
            let words = misuse.text();
            format!(in alloc; "{left} {words}")
        }
        Ok(Outcome::Deadlocked(_report)) => String::from_str(alloc, "deadlocked"),
        Err(RunFault::StartRefused) => String::from_str(alloc, "refused"),
        Err(RunFault::Memory) => Err(AllocError),
    }
}

// Two workers that wait for each other. Run one after the other, they would never end.
const EACH_WAITS: &str =
    "workers 2\nwaitgroup g0 1\nwaitgroup g1 1\nworker 0\ndone g0\nwait g1\nworker 1\ndone g1\nwait g0\n";

// Each leaves the same in every order of its workers that their calls allow.
const PLAIN: [(&str, &str); 12] = [
    (
        "workers 1\nmap t\nworker 0\nstore t apple 5\nload t apple\n",
        "[Map(Done), Map(Found(Some(5)))] [Pair { object: 0, key: 0, value: 5 }]",
    ),
    (
        "workers 1\nmap t\nworker 0\nlos t k 7\nlos t k 8\nrange t\nclear t\nrange t\n",
        "[Map(Settled { value: 7, loaded: false }), Map(Settled { value: 7, loaded: true }), Pairs([(0, 7)]), Map(Done), Pairs([])] []",
    ),
    (
        "workers 1\nint32 a\nworker 0\nadd a 1\nadd a -1\ncas a 0 1\n",
        "[Atomic(Held(Int32(1))), Atomic(Held(Int32(0))), Atomic(Compared(true))] [Number { object: 0, number: Int32(1) }]",
    ),
    (
        "workers 2\nint64 a\nonce o a 5\noncefunc g 3\nworker 0\ndo o\ncall g\ncall g\nworker 1\n",
        "[Once(Ran(5)), OnceFunc(Some(3)), OnceFunc(Some(3))] [] [Number { object: 0, number: Int64(5) }]",
    ),
    // Each worker has keys of its own.
    (
        "workers 3\nmap t\nworker 0\nstore t b 1\nload t b\nswap t b 2\ncas t b 2 3\nworker 1\nlos t a 4\nlad t a\nlos t a 5\ncad t a 6\nworker 2\nstore t c 7\ndelete t c\nload t c\nload t d\n",
        "[Map(Done), Map(Found(Some(1))), Map(Found(Some(1))), Map(Compared(true))] [Map(Settled { value: 4, loaded: false }), Map(Found(Some(4))), Map(Settled { value: 5, loaded: false }), Map(Compared(false))] [Map(Done), Map(Done), Map(Found(None)), Map(Found(None))] [Pair { object: 0, key: 1, value: 5 }, Pair { object: 0, key: 0, value: 3 }]",
    ),
    // What others stored is shown, in byte order of the keys.
    (
        "workers 3\nmap t\nmap u\nwaitgroup g 2\nworker 0\nstore t b 1\nstore u z 9\ndone g\nworker 1\nstore t a 2\ndone g\nworker 2\nwait g\nrange t\nrange u\nclear t\nrange t\n",
        "[Map(Done), Map(Done), Returned] [Map(Done), Returned] [Returned, Pairs([(2, 2), (0, 1)]), Pairs([(1, 9)]), Map(Done), Pairs([])] [Pair { object: 1, key: 1, value: 9 }]",
    ),
    // Each type of atomic, at an end of its range.
    (
        "workers 2\nint32 a\nint64 b\nuint32 c\nuint64 d\nbool e\nwaitgroup g 1\nworker 0\nstore a 2147483647\nstore b -9223372036854775808\nstore c 4294967295\nstore d 18446744073709551615\nstore e true\ndone g\nworker 1\nwait g\nadd a 1\nadd b -1\nadd c 2\nand d 7\nor d 8\ncas e true false\nswap a 3\n",
        "[Atomic(Done), Atomic(Done), Atomic(Done), Atomic(Done), Atomic(Done), Returned] [Returned, Atomic(Held(Int32(-2147483648))), Atomic(Held(Int64(9223372036854775807))), Atomic(Held(Uint32(1))), Atomic(Held(Uint64(18446744073709551615))), Atomic(Held(Uint64(7))), Atomic(Compared(true)), Atomic(Held(Int32(-2147483648)))] [Number { object: 0, number: Int32(3) }, Number { object: 1, number: Int64(9223372036854775807) }, Number { object: 2, number: Uint32(1) }, Number { object: 3, number: Uint64(15) }, Number { object: 4, number: Bool(false) }]",
    ),
    // Who holds the mutex finds 0 and leaves 0.
    (
        "workers 4\nmutex m\nint64 a\nworker 0\nlock m\ncas a 0 1\ncas a 1 0\nunlock m\nworker 1\nlock m\ncas a 0 1\ncas a 1 0\nunlock m\nworker 2\nlock m\ncas a 0 1\ncas a 1 0\nunlock m\nworker 3\nlock m\ncas a 0 1\ncas a 1 0\nunlock m\n",
        "[Lock(Done), Atomic(Compared(true)), Atomic(Compared(true)), Lock(Done)] [Lock(Done), Atomic(Compared(true)), Atomic(Compared(true)), Lock(Done)] [Lock(Done), Atomic(Compared(true)), Atomic(Compared(true)), Lock(Done)] [Lock(Done), Atomic(Compared(true)), Atomic(Compared(true)), Lock(Done)] [Number { object: 1, number: Int64(0) }]",
    ),
    (
        "workers 4\nrwmutex w\nint64 a\nworker 0\nlock w\ncas a 0 1\ncas a 1 0\nunlock w\nworker 1\nlock w\ncas a 0 1\ncas a 1 0\nunlock w\nworker 2\nrlock w\nload a\nrunlock w\nworker 3\nrlock w\nload a\nrunlock w\n",
        "[Lock(Done), Atomic(Compared(true)), Atomic(Compared(true)), Lock(Done)] [Lock(Done), Atomic(Compared(true)), Atomic(Compared(true)), Lock(Done)] [Lock(Done), Atomic(Held(Int64(0))), Lock(Done)] [Lock(Done), Atomic(Held(Int64(0))), Lock(Done)] [Number { object: 1, number: Int64(0) }]",
    ),
    (
        "workers 3\nint64 a\nonce o a 5\nwaitgroup g 1\nworker 0\ndo o\ndone g\nworker 1\nwait g\ndo o\nload a\nworker 2\nwait g\ndo o\n",
        "[Once(Ran(5)), Returned] [Returned, Once(Done), Atomic(Held(Int64(5)))] [Returned, Once(Done)] [Number { object: 0, number: Int64(5) }]",
    ),
    (EACH_WAITS, "[Returned, Returned] [Returned, Returned] []"),
    (
        "workers 1\nmutex m\nworker 0\nunlock m\n",
        "[] [] fatal error: sync: unlock of unlocked mutex",
    ),
];

// `.ci/check-rows` has these texts too, over the program's own maps.
#[test]
fn maps_and_atomics_that_take_turns(rt: HostRuntime) -> Result<(), Fail> {
    let clock = SystemClock::new(&rt);
    for &(text, want) in &PLAIN {
        let got = told_of(&rt, rt.alloc(), text, &clock)?;
        assert!(rt; got.as_str() == want, "{text}: {got}");
    }
    Ok(())
}
