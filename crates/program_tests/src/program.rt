//! Tests of the call `gosync`, over sources, outputs, clocks, gates and starts of threads in memory. What the built program
//! shows by itself, the checks of `.ci` try.

#[cfg(test)]
mod faults;
#[cfg(test)]
mod rows;
#[cfg(test)]
mod threads;
