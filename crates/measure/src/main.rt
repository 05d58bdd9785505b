//! Measures what a pair of calls on each running type costs.
#![tactic(auto)]

mod flight;
mod fresh;
mod group;
mod map_and_int;
mod measured;
mod mutex;
mod once;
mod one_call;
mod plain_objects;
mod plan;
mod pool;
mod run;
mod rw_mutex;
mod sema;
mod standing_clock;
mod table_objects;

use crate::flight::Flights;
use crate::fresh::FreshNote;
use crate::map_and_int::MapAndInt;
use crate::one_call::{Add, Churn, Load, Mix, On, OneCall, Path, Store, Wide};
use crate::plain_objects::PlainObjects;
use crate::plan::{Call, Notes, Plan, Reads, What, plan_of};
use crate::run::measure;
use crate::rw_mutex::{Reading, Writing};
use crate::standing_clock::StandingClock;
use crate::table_objects::TableObjects;
use go_locks::Mutex;
use go_pool::Pool;
use go_waits::{Once, WaitGroup};
use std::alloc::{AllocError, Global};
use std::process::ExitCode;
use std::sync::Wait;
use std::thread::Threads;
use std::{env, io, rt};
use sync_model::{FrontNote, NoNote};
use sync_outside::Clock;
use system_io::SystemClock;
use weighted_sema::Sema;

/// What is printed where the words aren't taken.
const USAGE: &str = "usage: measure WHAT HOW NOTES CLOCK CALLERS ROUNDS
Prints how many nanoseconds a pair of calls takes, for each thread.
  WHAT     mutex | read | write | group | once | pool
           sema | sema-one | flight | flight-joined
           plain-load | plain-store | plain-churn | plain-wide | plain-mix | plain-add
           trie-load | trie-store | trie-churn | trie-path | trie-wide | trie-mix | word-add
  HOW      one | two-own | four-own | two-shared | four-shared | eight-shared
  NOTES    front | empty
  CLOCK    machine | standing
  CALLERS  the callers of each object, whether they call or not: 4 to 64, with eight-shared 8 to 64.
           Maps and atomics have one for each thread
  ROUNDS   the pairs of each thread: 1 to 100000, with churn 1 to 50000, with path 1 to 25000";

/// How many tenths of a nanosecond this call on a shared map or atomic takes. It reads no clock.
fn with_one_call<S: MapAndInt, K: OneCall, R: Threads + Wait + rt::Clock + Sync>(
    rt: &R,
    alloc: Global,
    plan: Plan,
) -> Result<u64, AllocError> {
    measure::<On<S, K>, StandingClock, R>(rt, alloc, &StandingClock, plan)
}

/// How many tenths of a nanosecond a call on a shared map or atomic takes.
fn with_shared_call<S: MapAndInt, R: Threads + Wait + rt::Clock + Sync>(
    rt: &R,
    alloc: Global,
    plan: Plan,
    call: Call,
) -> Result<u64, AllocError> {
    match call {
        Call::Load => with_one_call::<S, Load, R>(rt, alloc, plan),
        Call::Store => with_one_call::<S, Store, R>(rt, alloc, plan),
        Call::Churn => with_one_call::<S, Churn, R>(rt, alloc, plan),
        Call::Path => with_one_call::<S, Path, R>(rt, alloc, plan),
        Call::Wide => with_one_call::<S, Wide, R>(rt, alloc, plan),
        Call::Mix => with_one_call::<S, Mix, R>(rt, alloc, plan),
        Call::Add => with_one_call::<S, Add, R>(rt, alloc, plan),
    }
}

/// How many tenths of a nanosecond a pair takes, with notes of this type.
fn with_notes<N: FreshNote, C: Clock + Sync, R: Threads + Wait + rt::Clock + Sync>(
    rt: &R,
    alloc: Global,
    clock: &C,
    plan: Plan,
) -> Result<u64, AllocError> {
    match plan.what {
        What::Mutex => measure::<Mutex<N>, C, R>(rt, alloc, clock, plan),
        What::Read => measure::<Reading<N>, C, R>(rt, alloc, clock, plan),
        What::Write => measure::<Writing<N>, C, R>(rt, alloc, clock, plan),
        What::Group => measure::<WaitGroup<N>, C, R>(rt, alloc, clock, plan),
        What::Once => measure::<Once<(), N>, C, R>(rt, alloc, clock, plan),
        What::Pool => measure::<Pool<N>, C, R>(rt, alloc, clock, plan),
        What::Sema(_) => measure::<Sema<N>, C, R>(rt, alloc, clock, plan),
        What::Flight(_) => measure::<Flights<N>, C, R>(rt, alloc, clock, plan),
        What::Plain(call) => with_shared_call::<PlainObjects, R>(rt, alloc, plan, call),
        What::Table(call) => with_shared_call::<TableObjects, R>(rt, alloc, plan, call),
    }
}

/// How many tenths of a nanosecond a pair takes, with this clock.
fn with_clock<C: Clock + Sync, R: Threads + Wait + rt::Clock + Sync>(
    rt: &R,
    alloc: Global,
    clock: &C,
    plan: Plan,
) -> Result<u64, AllocError> {
    match plan.notes {
        Notes::Front => with_notes::<FrontNote, C, R>(rt, alloc, clock, plan),
        Notes::Empty => with_notes::<NoNote, C, R>(rt, alloc, clock, plan),
    }
}

fn main(rt: HostRuntime) -> io::Result<ExitCode> {
    let words: Vec<String> = env::args(&rt)?.skip(1).collect(rt.alloc())?;
    let Some(plan) = plan_of(&words) else {
        println!(rt; "{USAGE}")?;
        return Ok(ExitCode::from(2));
    };
    let tenths = match plan.reads {
        Reads::Machine => with_clock(&rt, rt.alloc(), &SystemClock::new(&rt), plan)?,
        Reads::Standing => with_clock(&rt, rt.alloc(), &StandingClock, plan)?
    };
    println!(rt; "{}.{}", tenths / 10, tenths % 10)?;
    Ok(ExitCode::SUCCESS)
}
