//! The packed word: events that it decides take no turn, and what it tells while callers wait.
ghost use Rattle.std.specs.Thread.{IsSync};

use crate::made::{Made, knows};
use crate::mutex::{Call, Member, new};
use std::alloc::Global;
use std::sync::Wait;
use std::sync::atomic::{AtomicU64, AtomicUsize, Ordering};
use std::test::Fail;
use std::thread;
use std::thread::{Threads, join};
use sync_outside::{Clock, MemClock};

// A caller locks, tries and unlocks so many times: how often all three answers were right.
fn rounds<R: Wait>(rt: &R, clock: &MemClock, caller: &mut Member, times: u64) -> u64 {
    let mut right = 0u64;
    for _ in 0..times {
        let locked = caller.make(rt, clock, Call::Lock) == Made::Done;
        let tried = caller.make(rt, clock, Call::TryLock) == Made::Answered(false);
        let unlocked = caller.make(rt, clock, Call::Unlock) == Made::Done;
        if locked && tried && unlocked {
            right = right.wrapping_add(1);
        }
    }
    right
}

#[test]
fn uncontended_rounds_take_no_turn(rt: HostRuntime) -> Result<(), Fail> {
    let (lock, mut passes) = new(rt.alloc(), 2)?;
    let mut caller = Member::last(&lock, &mut passes, knows(0)).expect(&rt, "a pass");
    let clock = MemClock::new(Vec::new(rt.alloc()));
    let before = caller.turns();
    assert!(rt; rounds(&rt, &clock, &mut caller, 1_000) == 1_000);
    assert!(rt; caller.turns() == before);
    assert!(rt; caller.word() == 0);
    Ok(())
}

// How often a caller looks at a gate or at the word before it gives up.
const LOOKS: u64 = 50_000_000;

// Looks at the gate until this step has come.
fn wait_for(gate: &AtomicU64, step: u64) {
    for _ in 0..LOOKS {
        if gate.load(Ordering::SeqCst) >= step {
            return;
        }
        thread::yield_now();
    }
}

// Looks at the word until it is this: whether it came to be.
fn comes_to(caller: &mut Member, word: u64) -> bool {
    for _ in 0..LOOKS {
        if caller.word() == word {
            return true;
        }
        thread::yield_now();
    }
    false
}

// The clock of one caller. Each look waits at the gate until the step has come that is stated for it, and shows the moment
// that is stated for it.
#[derive(Drop)]
struct HeldClock<'a> {
    gate: &'a AtomicU64,
    steps: Vec<u64>,
    moments: Vec<u64>,
    looks: AtomicUsize,
}

impl Clock for HeldClock<'_> {
    ghost shows = { λ clock moment. Unit {0} };

    fn now(&self) -> u64 {
        let look = self.looks.fetch_add(1, Ordering::SeqCst);
        wait_for(self.gate, self.steps.get(look).copied().unwrap_or(0));
        self.moments.get(look).copied().unwrap_or(0)
    }
}

// What callers of a row share: the gate, and how many answers were wrong.
#[derive(Drop)]
struct Row {
    gate: AtomicU64,
    wrong: AtomicU64,
}

impl Row {
    fn opens(&self, step: u64) {
        self.gate.store(step, Ordering::SeqCst);
    }

    fn expects(&self, right: bool) {
        if !right {
            self.wrong.fetch_add(1, Ordering::SeqCst);
        }
    }
}

// Caller 0 locks, unlocks, locks before the woken caller does, and unlocks once that one has lost and the word is `lost`. Then
// it tries, and unlocks again where the try took the mutex.
fn first_caller<R: Wait>(
    rt: &R,
    clock: &HeldClock,
    mut caller: Member,
    row: &Row,
    lost: u64,
    takes: bool,
) {
    row.expects(caller.make(rt, clock, Call::Lock) == Made::Done);
    row.expects(caller.word() == 1);
    row.opens(1);
    row.expects(comes_to(&mut caller, 9));
    row.expects(caller.make(rt, clock, Call::Unlock) == Made::Done);
    row.expects(caller.word() == 2);
    row.expects(caller.make(rt, clock, Call::Lock) == Made::Done);
    row.opens(2);
    row.expects(comes_to(&mut caller, 11));
    row.opens(3);
    row.expects(comes_to(&mut caller, lost));
    row.expects(caller.make(rt, clock, Call::Unlock) == Made::Done);
    row.expects(caller.make(rt, clock, Call::TryLock) == Made::Answered(takes));
    if takes {
        row.expects(caller.make(rt, clock, Call::Unlock) == Made::Done);
    }
    // The first lock alone found nobody waiting and nobody in flight.
    row.expects(caller.turns() == if takes { 5 } else { 4 });
    row.opens(4);
}

// Another caller locks and unlocks, once this step has come.
fn later_caller<R: Wait>(rt: &R, clock: &HeldClock, mut caller: Member, row: &Row, step: u64) {
    wait_for(&row.gate, step);
    row.expects(caller.make(rt, clock, Call::Lock) == Made::Done);
    row.expects(caller.make(rt, clock, Call::Unlock) == Made::Done);
}

// The two callers that wait, in threads of their own.
fn later_callers<R: Threads + Wait + Sync>(
    rt: &R,
    clock_one: &HeldClock,
    clock_two: &HeldClock,
    one: Member,
    two: Member,
    row: &Row,
) {
    join(
        rt,
        move || -> ()
            requires { IsSync R.row }
        { later_caller(rt, clock_one, one, row, 1) },
        move || -> ()
            requires { IsSync R.row }
        { later_caller(rt, clock_two, two, row, 2) },
    );
}

// Caller 1 is woken, and loses against caller 0 at the moment `late`, when caller 2 has queued behind it. The word is then
// `lost`, and caller 0's try after its unlock takes the mutex or doesn't. The answers that were wrong, and how often each
// caller looked at its clock. Caller 0 never does, since it has the mutex at once each time.
fn loses_at<R: Threads + Wait + Sync>(
    rt: &R,
    alloc: Global,
    late: u64,
    lost: u64,
    takes: bool,
) -> Result<(u64, usize, usize, usize), Fail> {
    let (lock, mut passes) = new(alloc, 3)?;
    let Some(two) = Member::last(&lock, &mut passes, knows(0)) else {
        return Ok((1, 0, 0, 0));
    };
    let Some(one) = Member::last(&lock, &mut passes, knows(0)) else {
        return Ok((1, 0, 0, 0));
    };
    let Some(zero) = Member::last(&lock, &mut passes, knows(0)) else {
        return Ok((1, 0, 0, 0));
    };
    let row = Row {
        gate: AtomicU64::new(0),
        wrong: AtomicU64::new(0),
    };
    let clock_zero = HeldClock {
        gate: &row.gate,
        steps: Vec::from_slice(alloc, &[0, 0])?,
        moments: Vec::from_slice(alloc, &[0, 0])?,
        looks: AtomicUsize::new(0),
    };
    let clock_one = HeldClock {
        gate: &row.gate,
        steps: Vec::from_slice(alloc, &[1, 3, 4])?,
        moments: Vec::from_slice(alloc, &[0, late, late])?,
        looks: AtomicUsize::new(0),
    };
    let clock_two = HeldClock {
        gate: &row.gate,
        steps: Vec::from_slice(alloc, &[2, 4])?,
        moments: Vec::from_slice(alloc, &[late, late])?,
        looks: AtomicUsize::new(0),
    };
    join(
        rt,
        || first_caller(rt, &clock_zero, zero, &row, lost, takes),
        || later_callers(rt, &clock_one, &clock_two, one, two, &row),
    );
    Ok((
        row.wrong.load(Ordering::SeqCst),
        clock_zero.looks.load(Ordering::SeqCst),
        clock_one.looks.load(Ordering::SeqCst),
        clock_two.looks.load(Ordering::SeqCst),
    ))
}

// More than a millisecond after its arrival caller 1 starves: the mutex is handed to it, and a try fails.
#[test]
fn a_starving_loser_is_handed_the_mutex(rt: HostRuntime) -> Result<(), Fail> {
    assert!(rt; loses_at(&rt, rt.alloc(), 1_000_001, 21, false)? == (0, 0, 3, 2));
    Ok(())
}

// After a millisecond itself it doesn't, and a try takes the mutex.
#[test]
fn a_loser_that_does_not_starve_loses_again(rt: HostRuntime) -> Result<(), Fail> {
    assert!(rt; loses_at(&rt, rt.alloc(), 1_000_000, 17, true)? == (0, 0, 3, 2));
    Ok(())
}
