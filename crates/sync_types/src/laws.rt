//! Laws of the one-thread objects and of names, in the words of their users. Each is the contract of a function that does nothing.

pub mod atomics;
pub mod layout;
pub mod maps;
pub mod names;
pub mod renaming;
pub mod words;
