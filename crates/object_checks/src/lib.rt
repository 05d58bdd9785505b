//! Whether what a record tells of its objects is so: that the entries on each object are one journal, that the journal follows
//! the object's machine, and that it keeps the edge law.
#![tactic(auto)]

pub mod journals;
