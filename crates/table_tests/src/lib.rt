//! Tests of Go's types that share a table, by public calls, where no clause says it: Map and the typed atomics.
#![tactic(auto)]

mod maps;
