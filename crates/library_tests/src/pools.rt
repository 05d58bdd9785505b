//! Tests of Pool for threads.

#[cfg(test)]
mod one_thread;
#[cfg(test)]
mod setup;
#[cfg(test)]
mod threads;
