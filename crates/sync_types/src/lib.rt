//! The plain types that every layer speaks of: names, lists and values, the calls of each kind of object with their replies,
//! maps and atomics for one thread, which say what a call answers, and the 64-bit words that hold an atomic's number.
#![tactic(auto)]

pub mod atomic_object;
pub mod bounded_seq;
pub mod by_name;
pub mod end;
pub mod laws;
pub mod lock_call;
pub mod map_object;
pub mod misuse;
pub mod name;
pub mod once_call;
pub mod pool_call;
pub mod sema_call;
pub mod seq;
pub mod value;
pub mod wait_call;
pub mod word;

pub use atomic_object::{AtomicCall, AtomicKind, AtomicReply, Number};
pub use bounded_seq::BoundedSeq;
pub use by_name::ByName;
pub use end::End;
pub use lock_call::{LockReply, MutexCall, RwMutexCall};
pub use map_object::{MapCall, MapReply};
pub use misuse::Misuse;
pub use name::Name;
pub use once_call::DoReply;
pub use pool_call::{PoolCall, PoolCallReply};
pub use sema_call::SemaCall;
pub use seq::Seq;
pub use value::MAX_VALUE;
pub use wait_call::{CondCall, WaitGroupCall};
pub use word::{and_word, of_word, or_word, sum_word, to_word};
