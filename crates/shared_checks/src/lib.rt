//! Whether what a record tells is so: each question is the definition's own, and is decided over plain lists.
#![tactic(auto)]

pub mod begins;
pub mod counts;
pub mod edges;
pub mod finding;
pub mod fronts;
pub mod history;
pub mod known;
pub mod laws;
pub mod marking;
pub mod number_map;
pub mod objects;
pub mod owners;
pub mod placed;
pub mod playing;
pub mod ranges;
pub mod shown;
pub mod stood;

pub use begins::steps_follow_begins;
pub use counts::Counts;
pub use edges::{Note, keeps_edges};
pub use fronts::{count_of, is_at_least, keeps_fronts};
pub use history::{history_of, lawful_history_of};
pub use known::known_of;
pub use marking::marked;
pub use number_map::NumberMap;
pub use objects::Objects;
pub use owners::owners_of;
pub use placed::{Placed, by_place};
pub use playing::are_placed;
pub use ranges::keeps_ranges;
pub use stood::stood_between;
