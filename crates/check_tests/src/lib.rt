//! Tests of the parts of a checker: hand-made lists of each kind of object, and calls on maps and atomics, right and wrong. They are
//! written as the texts of records, and back.
#![tactic(auto)]

#[cfg(test)]
mod deeds;
#[cfg(test)]
mod lists;
#[cfg(test)]
mod machines;
#[cfg(test)]
mod placed;
#[cfg(test)]
mod shared;
#[cfg(test)]
mod texts;
#[cfg(test)]
mod unrecorded;
#[cfg(test)]
mod written;
