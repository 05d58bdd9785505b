//! Laws of logs, journals, shared maps and atomics, their callers and their ends, in the words of their users. Each is the contract of a function that does nothing.

pub mod callers;
pub mod ends;
pub mod journals;
pub mod logs;
pub mod order;
pub mod shared;
pub mod shared_steps;
