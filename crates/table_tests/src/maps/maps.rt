//! Tests of Map.

mod clears;
mod crew;
mod deep;
mod ends;
mod merged;
mod race;
mod ranges;
mod started;
mod threads;
