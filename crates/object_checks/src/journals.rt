//! The journals of a record, out of its workers' lists.
pub mod edge;
pub mod gathering;
pub mod item;
pub mod kind;
mod kinds;
pub mod laws;
mod machine;
mod merging;
pub mod replay;
pub mod row;
mod rows;
pub mod walk;

pub use edge::{fronts_fit, keep_all_edges, keeps_the_edge_law};
pub use gathering::journals_of;
pub use item::JournalItem;
pub use replay::follows_machine;
pub use row::Row;
pub use walk::follow_machines;
