//! Which steps of a trace are before which, and which of them race, by vector clocks. A step is what one worker did at once: the
//! channels from which it takes in and through which it hands on, and an access of a variable.
#![tactic(auto)]

pub mod clock;
pub mod clocks;
pub mod laws;
pub mod limits;
pub mod race;
pub mod race_list;
pub mod step;

pub use clock::Clock;
pub use clocks::{clocks_of, is_before};
pub use limits::fits;
pub use race::Race;
pub use race_list::races;
pub use step::{Access, Step};
