//! That a run is explained which should be, and that others aren't.
ghost use Rattle.run_record.specs.Example.{plan, replies_by, done, held, example};
ghost use Rattle.run_record.specs.Explains.{Explains};
ghost use Rattle.run_record.specs.Record.{Record};

use crate::laws::runs::scripts_without_tests_are_spelt_call_by_call;
use sync_model::laws::shared::{
    a_callers_calls_are_in_order, a_load_finds_the_last_store, each_entry_is_a_call,
};

/// The record explains that the store answers nothing and the load answers 5.
pub fn a_store_and_a_load_are_explained()
    ensures { Explains plan (replies_by done (held 5)) example }
{
    scripts_without_tests_are_spelt_call_by_call();
}

/// No record explains that the load answers 0, which is what stood there at the start, nor that the two replies are exchanged.
pub fn nothing_explains_a_wrong_reply()
    ensures opening_state { (r : Record) → Explains plan (replies_by done (held 0)) r → ⊥ }
    ensures exchanged { (r : Record) → Explains plan (replies_by (held 5) done) r → ⊥ }
{
    scripts_without_tests_are_spelt_call_by_call();
    each_entry_is_a_call();
    a_callers_calls_are_in_order();
    a_load_finds_the_last_store();
}
