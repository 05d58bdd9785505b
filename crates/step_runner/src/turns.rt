//! What one turn of a worker does at the objects of a run, whatever the workload: what an object holds, how it begins, what a
//! turn makes of it and answers, and which events of a call it spells.

pub mod answer;
pub mod due;
pub mod flight_turn;
pub mod item;
pub mod laws;
pub mod lock_turn;
mod noting;
pub mod object_state;
pub mod once_turn;
pub mod plain_turn;
pub mod pool_turn;
pub mod stages;
pub mod turn;
mod turn_kind;
pub mod wait_turn;
pub mod within;

pub use answer::Answer;
pub use item::{Deed, Item};
pub use object_state::ObjectState;
pub use stages::Taker;
pub use turn::take_turn_at;
pub use within::{take_done_turn, take_turn_within};
