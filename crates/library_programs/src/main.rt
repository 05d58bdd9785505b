//! Programs to copy, a file each: its `run` makes the objects, starts the threads and prints what they come to. Here all of them run, one after the other.
#![tactic(auto)]

mod exact_counter;
mod gathered_results;
mod job_queue;
mod shared_cache;
mod started_workers;
mod word_count;

use std::io;

fn main(rt: HostRuntime) -> io::Result<()> {
    let alloc = rt.alloc();
    println!(rt; "word_count")?;
    word_count::run(&rt, alloc)?;
    println!(rt; "job_queue")?;
    job_queue::run(&rt, alloc)?;
    println!(rt; "shared_cache")?;
    shared_cache::run(&rt, alloc)?;
    println!(rt; "started_workers")?;
    started_workers::run(&rt, alloc)?;
    println!(rt; "gathered_results")?;
    gathered_results::run(&rt, alloc)?;
    println!(rt; "exact_counter")?;
    exact_counter::run(&rt, alloc)
}
