//! The races of a run by schedule, told behind its report.

pub mod laws;
pub mod report;
pub mod variables;
