//! Maps and atomics in one row of words.
ghost use Rattle.table_rule.specs.Layout.{IsBegin};
ghost use Rattle.table_words.specs.Seats.{begin_of};

use table_words::TableWords;

/// Maps and typed atomics, which their callers share. Each lies in words that change in single atomic steps, under one
/// rule.
#[derive(Drop)]
pub struct SharedTable {
    pub(crate) words: TableWords,
    ghost made: { IsBegin (begin_of words) },
}
