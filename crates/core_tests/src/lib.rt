//! Tests of what stands below Go's types, where no clause says it: words of numbers and paths of keys, whom an event of a machine
//! lets go on, worked runs of machines, the races of worked traces, and the outside world, faked and real.
#![tactic(auto)]

#[cfg(test)]
mod flights;
#[cfg(test)]
mod mutex;
#[cfg(test)]
mod nodes;
#[cfg(test)]
mod outside;
#[cfg(test)]
mod pool;
#[cfg(test)]
mod races;
#[cfg(test)]
mod rows;
#[cfg(test)]
mod rw_mutex;
#[cfg(test)]
mod semas;
#[cfg(test)]
mod starts;
#[cfg(test)]
mod streams;
#[cfg(test)]
mod waits;
#[cfg(test)]
mod words;
