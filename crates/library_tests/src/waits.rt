//! Tests of Cond, WaitGroup and Once for threads.

#[cfg(test)]
mod cond_alone;
#[cfg(test)]
mod cond_setup;
#[cfg(test)]
mod group_alone;
#[cfg(test)]
mod once_alone;
#[cfg(test)]
mod once_setup;
#[cfg(test)]
mod once_threads;
#[cfg(test)]
pub(crate) mod setup;
#[cfg(test)]
mod starts_setup;
#[cfg(test)]
mod starts_threads;
#[cfg(test)]
mod wake_ups;
