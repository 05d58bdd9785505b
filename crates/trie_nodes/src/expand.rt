//! The plan of an expansion: an entry stands in the slot that a node has for another key, which is to be stored too.
ghost use Rattle.std.specs.Prelude.{◌≡◌, ◌≢◌, ℕ, ◌+◌, ◌-◌, ◌<◌, ◌≤◌, ◌==◌, if◌then◌else◌, List, Some};
ghost use Rattle.trie_nodes.specs.Paths.{nibble, route};
ghost use Rattle.trie_nodes.specs.Nodes.{stands_for};
ghost use Rattle.trie_nodes.specs.Plans.{IsExpansion, Expands};

use crate::layout::LEVELS;
use crate::path::nibble;
use crate::plan::Expansion;

/// The chain of new nodes that leads to the entries of two keys. `held` is the key of the entry that stands in the slot, `key`
/// the other one, and `level`, 1 to 7, is that of the chain's first node: the paths of the keys go together down to there.
pub fn expansion(held: u32, key: u32, seed: u32, level: u32) -> Expansion
    requires below_a_root { 0 < level }
    requires level { level < 8 }
    requires differ { held ≢ key }
    requires together { route seed level held ≡ route seed level key }

    ensures plan { IsExpansion held key seed level result }

    // the node whose slot it is then stands for the same map, but for the one key, which has its value
    ensures keeps { (old new : List ℕ) (node value other : ℕ) → Expands old new seed level node held key value result
        → stands_for new seed (level - 1) node other
        ≡ (if other == key then Some value else stands_for old seed (level - 1) node other) }
{
    let last = parting(held, key, seed, level);
    Expansion {
        nodes: last - level + 1,
        held_slot: nibble(held, seed, last),
        key_slot: nibble(key, seed, last),
    }
}

// The first level from this one on at which the paths of two keys part.
fn parting(held: u32, key: u32, seed: u32, level: u32) -> u32
    requires level { level < 8 }
    requires differ { held ≢ key }
    requires together { route seed level held ≡ route seed level key }
    ensures from { level ≤ result }
    ensures to { result < 8 }
    ensures together { route seed result held ≡ route seed result key }
    ensures part { nibble held seed result ≢ nibble key seed result }
{
    for last in level..LEVELS - 1 {
        if nibble(held, seed, last) != nibble(key, seed, last) {
            return last;
        }
    }
    LEVELS - 1
}
