//! The typed atomics by two callers, in one thread and in two.
mod pair;
mod threads;
