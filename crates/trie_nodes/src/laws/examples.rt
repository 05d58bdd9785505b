//! Laws of a worked row of words: keys 0 and 16, which go together at the root and part at level 1.
ghost use Rattle.std.specs.Prelude.{◌≡◌, Some, None};
ghost use Rattle.trie_nodes.specs.Nodes.{stands_for};
ghost use Rattle.trie_nodes.specs.Plans.{Expands, Prunes};
ghost use Rattle.trie_nodes.specs.Examples.{one_key, two_keys, expansion_to_two, no_keys, no_nodes, empty_node, pruning_to_none};

/// Key 0 stands in the root's slot. Key 16 comes by an expansion of one node. Then both have their values.
pub fn a_second_key_comes_by_an_expansion()
    ensures expands { Expands one_key two_keys 0 1 1 0 16 2 expansion_to_two }
    ensures before { stands_for one_key 0 0 1 0 ≡ Some 1 }
    ensures not_yet { stands_for one_key 0 0 1 16 ≡ None }
    ensures still { stands_for two_keys 0 0 1 0 ≡ Some 1 }
    ensures then { stands_for two_keys 0 0 1 16 ≡ Some 2 }
{}

/// Both keys are deleted, and the node is cut off.
pub fn an_empty_node_goes_by_a_pruning()
    ensures prunes { Prunes no_keys no_nodes 1 21 empty_node pruning_to_none }
    ensures first { stands_for no_keys 0 0 1 0 ≡ None }
    ensures second { stands_for no_keys 0 0 1 16 ≡ None }
{}
