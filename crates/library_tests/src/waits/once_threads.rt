//! Onces by callers in threads of their own.
ghost use Rattle.std.specs.Thread.{IsSync};
ghost use Rattle.go_waits.specs.OnceValues.{once_of, function_of};
ghost use Rattle.library_tests.specs.Fresh.{IsFresh};

use super::once_setup::{Runner, last_stored, once, stored};
use super::setup::{HERE, pause};
use crate::made::knows;
use go_waits::{OncePass, OnceRun, OnceValue};
use std::sync::Wait;
use std::sync::atomic::{AtomicU64, Ordering};
use std::test::Fail;
use std::thread::{Threads, join};
use sync_model::{Answer, FrontNote};

// What a call came to, and how many functions had been run by then.
type Ran = (Option<Answer<OnceRun<u32>>>, u64);

const RAN: Ran = (Some(Answer::Done(OnceRun::Ran(Ok(())))), 1);

const ALREADY: Ran = (Some(Answer::Done(OnceRun::Already)), 1);

// Comes with a function that takes so long that the others fall asleep, and then counts itself.
fn run<R: Wait>(rt: &R, mut caller: Runner, counted: &AtomicU64) -> Ran {
    let answer = caller.run(rt, || -> Result<(), u32> {
        pause();
        counted.fetch_add(1, Ordering::SeqCst);
        Ok(())
    });
    (answer, counted.load(Ordering::SeqCst))
}

// Two callers race, each in a thread of its own.
fn two_race<R: Threads + Wait + Sync>(
    rt: &R,
    counted: &AtomicU64,
    one: Runner,
    other: Runner,
) -> (Ran, Ran) {
    join(
        rt,
        move || -> Ran
            requires { IsSync R.row }
        { run(rt, one, counted) },
        move || -> Ran
            requires { IsSync R.row }
        { run(rt, other, counted) },
    )
}

// How many found this.
fn count(found: &[Ran], wanted: Ran) -> usize {
    found.iter().filter(|found| **found == wanted).count()
}

// Those that don't run the function sleep, and nobody wakes them but its end. By then the function has done what it does.
#[test]
fn one_of_four_threads_runs_the_function_and_wakes_the_others(rt: HostRuntime) -> Result<(), Fail> {
    let (once, mut passes) = once(rt.alloc(), 4)?;
    let fourth = Runner::last(&once, &mut passes, knows(0)).expect(&rt, "a pass");
    let third = Runner::last(&once, &mut passes, knows(0)).expect(&rt, "a pass");
    let second = Runner::last(&once, &mut passes, knows(0)).expect(&rt, "a pass");
    let first = Runner::last(&once, &mut passes, knows(0)).expect(&rt, "a pass");
    let counted = AtomicU64::new(0);
    let (left, right) = join(
        &rt,
        || two_race(&rt, &counted, first, second),
        || two_race(&rt, &counted, third, fourth),
    );
    let found = [left.0, left.1, right.0, right.1];
    assert!(rt; (count(&found, RAN), count(&found, ALREADY)) == (1, 3));
    Ok(())
}

// One call of a stored function, by a caller that made none before.
fn call_stored<R: Wait, F: FnOnce() -> u64 + Drop>(
    rt: &R,
    function: &OnceValue<u64, F, FrontNote>,
    mut pass: OncePass<u64, FrontNote>,
) -> Answer<u64>
    requires pass { IsFresh (once_of function.now) pass }
    requires function { F.pre (function_of function.now) }
{
    function.call(rt, &HERE, &mut pass, &mut knows(0))
}

// The function tells how often it was called before. Who runs it takes it out, and the other one is answered what it came to.
#[test]
fn two_threads_call_a_stored_function(rt: HostRuntime) -> Result<(), Fail> {
    let runs = AtomicU64::new(0);
    let (function, mut passes) = stored(rt.alloc(), 2, || -> u64 {
        pause();
        runs.fetch_add(1, Ordering::SeqCst)
    })?;
    let second = last_stored(&function, &mut passes);
    let first = last_stored(&function, &mut passes);
    let found = join(
        &rt,
        || call_stored(&rt, &function, first),
        || call_stored(&rt, &function, second),
    );
    assert!(rt; found == (Answer::Done(0), Answer::Done(0)));
    assert!(rt; runs.load(Ordering::SeqCst) == 1);
    Ok(())
}
