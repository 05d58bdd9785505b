//! Tests of a run over maps and atomics that take turns, and in `program` of the whole call `gosync`.
#![tactic(auto)]

#[cfg(test)]
mod plain_maps;
#[cfg(test)]
mod plain_rows;
mod program;
