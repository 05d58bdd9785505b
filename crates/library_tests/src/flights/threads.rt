//! Flights by callers in threads of their own.
ghost use Rattle.std.specs.Thread.{IsSync};

use super::setup::{Flown, Flyer, new};
use crate::made::knows;
use crate::waits::setup::{pause, until};
use std::sync::Wait;
use std::sync::atomic::{AtomicU64, Ordering};
use std::test::Fail;
use std::thread::{Threads, join};
use sync_model::Answer;

// How many are about to come, and how often work was done.
#[derive(Drop)]
struct Counts {
    come: AtomicU64,
    done: AtomicU64,
}

impl Counts {
    fn new() -> Self {
        Counts {
            come: AtomicU64::new(0),
            done: AtomicU64::new(0),
        }
    }
}

// Comes for a key. The work takes so long that all others come and fall asleep, and its value tells its key and its number.
fn come<R: Wait>(rt: &R, counts: &Counts, all: u64, mut caller: Flyer, key: u32) -> Flown {
    counts.come.fetch_add(1, Ordering::SeqCst);
    caller.fly(rt, key, || -> i64 {
        until(rt, &counts.come, all);
        pause();
        let number = counts.done.fetch_add(1, Ordering::SeqCst) % 100;
        i64::from(key) * 100 + i64::from(number as u32)
    })
}

// Two callers come for a key each.
fn two_come<R: Threads + Wait + Sync>(
    rt: &R,
    counts: &Counts,
    all: u64,
    one: (Flyer, u32),
    other: (Flyer, u32),
) -> (Flown, Flown) {
    join(
        rt,
        move || -> Flown
            requires { IsSync R.row }
        { come(rt, counts, all, one.0, one.1) },
        move || -> Flown
            requires { IsSync R.row }
        { come(rt, counts, all, other.0, other.1) },
    )
}

// How many came to this value.
fn count(found: &[Flown], wanted: i64) -> usize {
    found
        .iter()
        .filter(|flown| matches!(**flown, Some(Answer::Done((value, _))) if value == wanted))
        .count()
}

// Whether each call came to a value of its key, and is told that it shares it exactly where another call came to it too.
fn fit(found: &[Flown], keys: &[u32]) -> bool {
    found.iter().zip(keys).all(|(flown, key)| match *flown {
        Some(Answer::Done((value, shared))) => {
            value / 100 == i64::from(*key) && shared == (count(found, value) > 1)
        }
        _ => false,
    })
}

// As x/sync's own test of calls that come at once. Where a joiner comes late it leads a flight of its own, which is as right:
// then they come once more.
#[test]
fn the_work_is_done_once_for_two_joiners(rt: HostRuntime) -> Result<(), Fail> {
    let mut once = false;
    for _ in 0..100 {
        let (group, mut passes) = new(rt.alloc(), 3)?;
        let third = Flyer::last(&group, &mut passes, knows(0)).expect(&rt, "a pass");
        let second = Flyer::last(&group, &mut passes, knows(0)).expect(&rt, "a pass");
        let first = Flyer::last(&group, &mut passes, knows(0)).expect(&rt, "a pass");
        let counts = Counts::new();
        let (both, last) = join(
            &rt,
            || two_come(&rt, &counts, 3, (first, 7), (second, 7)),
            || come(&rt, &counts, 3, third, 7),
        );
        let found = [both.0, both.1, last];
        assert!(rt; fit(&found, &[7, 7, 7]));
        once = found == [Some(Answer::Done((700, true))); 3];
        if once {
            break;
        }
    }
    assert!(rt; once);
    Ok(())
}
