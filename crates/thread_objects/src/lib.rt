//! The objects of a run in threads, whatever their kind, and its workers' passes to them: made as the workload declares, dealt to
//! workers, collected and halted. A worker's call on one of them is put in the words of the record that explains a run. What is
//! of one kind alone is a file of `kinds`; what is of every kind is in `parts`.
#![tactic(auto)]

mod by_kind;
mod calling;
mod column;
mod crew;
mod dealing;
mod first_halt;
mod gathering;
mod halting;
mod kind;
mod kinds;
pub mod laws;
mod making;
mod object;
pub mod parts;
mod pass;
mod rows;
mod seated;
mod starting;

pub use calling::call_any;
pub use column::AnyColumn;
pub use crew::Crew;
pub use gathering::journals;
pub use halting::halt_any;
pub use making::{make_object, make_part, make_starts, make_stop};
pub use object::AnyObject;
pub use parts::{
    CallAnswer, Catalog, NoEvent, StopCore, Worker, add_at, atomic_at, call_map, call_range,
    gone_on, halt_one, lock_reply, part, part_from, returned,
};
pub use pass::AnyPass;
pub use rows::{deal_row, put_row};
pub use starting::{start, tell_end, wait_start};
