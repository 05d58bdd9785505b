//! Tests of Go's types for threads, by public calls: Mutex and RWMutex here, Cond, WaitGroup and Once in `waits`, and Pool in
//! `pools`. Map and the typed atomics have theirs in the crate `table_tests`.
#![tactic(auto)]

mod flights;
#[cfg(test)]
mod looks;
#[cfg(test)]
mod made;
#[cfg(test)]
mod mutex;
#[cfg(test)]
mod one_thread;
#[cfg(test)]
mod packed;
mod pools;
#[cfg(test)]
mod rw_mutex;
mod semas;
#[cfg(test)]
mod threads;
mod waits;
#[cfg(test)]
mod wake_ups;
