//! The rule of a shared table.
ghost use Rattle.table_rule.specs.Rule.{Kept};
ghost use Rattle.table_rule.specs.Views.{first_view};

use atomic_table::TableRule;
use table_rule::begin::Begin;
use table_rule::view::View;

/// The rule of shared tables.
pub struct SharedRule;

impl TableRule<(), View, Begin> for SharedRule {
    ghost holds = { Kept };

    ghost first = { first_view };
}
