//! The row of words of a table, which seats change step by step.
ghost use Rattle.std.specs.Prelude.{◌≡◌};
ghost use Rattle.table_rule.specs.Layout.{size_of, IsBegin};

use crate::rule::SharedRule;
use atomic_table::Table;
use std::alloc::Global;
use table_rule::begin::Begin;
use table_rule::view::View;

/// The words of maps and typed atomics. They change in single atomic steps, which seats make under one rule.
#[derive(Drop)]
pub struct TableWords {
    pub(crate) table: Table<(), View, Begin, SharedRule, Global>,
    // What the table was made of.
    pub(crate) begin: Begin,
    ghost same: { table.shared.key ≡ begin },
    ghost made: { IsBegin table.shared.key },
    ghost sized: { (table.shared.table_id.words ≡ size_of table.shared.key) × (table.shared.table_id.slots ≡ 0) },
}
