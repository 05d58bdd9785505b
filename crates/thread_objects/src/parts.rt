//! What a worker does at one object, whatever its kind: a part of a call, in the words of the record that explains a run, a call on
//! a map or an atomic, and a halt. And Stop, the object on which a misuse ends the run.

mod answer;
mod catalog;
mod halting;
mod int64;
pub mod laws;
mod parts;
mod placed_calls;
mod range;
mod replies;
mod stop;
mod worker;

pub use answer::CallAnswer;
pub use catalog::Catalog;
pub use halting::halt_one;
pub use int64::add_at;
pub use parts::{part, part_from};
pub use placed_calls::{atomic_at, call_map};
pub use range::call_range;
pub use replies::{gone_on, lock_reply, returned};
pub use stop::{NoEvent, StopCore};
pub use worker::Worker;
