//! The law of new tables, and laws of shared histories and of tries that the proofs here stand on.
ghost use Rattle.std.specs.Prelude.{ℕ, List, []};
ghost use Rattle.atomic_table.specs.Table.{opening};
ghost use Rattle.table_rule.specs.declared.begin.Begin.{Begin};
ghost use Rattle.table_rule.specs.Layout.{IsBegin};
ghost use Rattle.table_rule.specs.LawWords.{IsSeat, AllAtRest};
ghost use Rattle.table_rule.specs.Rule.{Kept};
ghost use Rattle.table_rule.specs.Views.{first_view};
ghost use Rattle.table_words.specs.Blank.{IsBlank};
ghost use Rattle.table_words.specs.Laws.{HistoryLaws, KeyLaws};
ghost use Rattle.table_words.specs.TrieLaws.{TrieLaws};

use sync_model::laws::shared_steps::{
    a_lawful_call_is_as_promised, fronts_stay_known, histories_go_on, maps_and_atomics_stay,
    one_more_call_keeps_the_law,
};
use sync_types::laws::maps::{calls_leave_other_keys, its_key_decides_a_call};
use trie_nodes::laws::chains::each_node_of_a_chain_shows_what_the_map_has;
use trie_nodes::laws::paths::{
    a_path_has_a_slot_of_each_level, paths_that_part_stay_apart, the_paths_of_different_keys_part,
};
use trie_nodes::laws::words::a_word_is_that_of_one_slot;

// What a call does at its key, and at another one.
fn key_laws()
    ensures { KeyLaws }
{
    its_key_decides_a_call::<u32>();
    calls_leave_other_keys::<u32>();
}

// How a lawful history goes on, and what a call does at a key.
pub(crate) fn history_laws()
    ensures { HistoryLaws }
{
    key_laws();
    one_more_call_keeps_the_law();
    a_lawful_call_is_as_promised();
    fronts_stay_known();
    histories_go_on();
    maps_and_atomics_stay();
}

// Paths, slots and chains.
pub(crate) fn trie_laws()
    ensures { TrieLaws }
{
    a_path_has_a_slot_of_each_level();
    the_paths_of_different_keys_part();
    paths_that_part_stay_apart();
    a_word_is_that_of_one_slot();
    each_node_of_a_chain_shows_what_the_map_has();
}

/// In a new table the rule holds, its one seat counts, and each caller is between two calls. So what the laws of `table_rule` ask of a
/// table, of its seats and of its callers is met by each new table.
pub fn the_callers_of_a_new_table_are_between_two_calls()
    ensures rule { (k : Begin) (words : List ℕ) → IsBegin k → IsBlank k words → Kept k (opening words [] (first_view k)) }
    ensures seat { (k : Begin) (words : List ℕ) → IsSeat (opening words [] (first_view k)) 0 (first_view k) }
    ensures callers { (k : Begin) (words : List ℕ) → AllAtRest k (opening words [] (first_view k)) }
{
    history_laws();
}
