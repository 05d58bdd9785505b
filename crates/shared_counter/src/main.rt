//! Four threads add to one counter under a mutex, each a thousand times.
#![tactic(auto)]

use go_sync::{Clock, Guarded, GuardedCaller};
use std::io;
use std::sync::Wait;
use std::thread::map_vec;
use system_io::SystemClock;

fn add<C: Clock, R: Wait>(rt: &R, mut counter: GuardedCaller<u64, C>) {
    for _ in 0..1000 {
        counter.with(rt, |n: &mut u64| *n = n.wrapping_add(1));
    }
}

fn main(rt: HostRuntime) -> io::Result<()> {
    let clock = SystemClock::new(&rt);
    let (counter, passes) = Guarded::new(rt.alloc(), 4, 0u64)?;
    let callers = counter.callers(rt.alloc(), &clock, passes)?;
    map_vec(&rt, callers, &|caller| add(&rt, caller))?;
    let total = counter.into_inner();
    println!(rt; "{total}")
}
