//! What holds of the record of a run. Each law is the contract of a function that does nothing.
pub mod edges;
pub mod endings;
pub mod examples;
pub mod flights;
pub mod limits;
pub mod locks;
pub mod numbers;
pub mod objects;
pub mod order;
pub mod ranges;
pub mod returns;
pub mod runs;
pub mod spelling;
pub mod starts;
pub mod waits;
pub mod writers;
