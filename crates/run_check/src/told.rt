//! The items that the lines of a record's text say.

pub mod along;
pub mod deeds;
pub mod lists;
pub mod placing;
pub mod replies;
pub mod sketch;
