//! The plan of a pruning: a node below a root that has become empty is cut off from its parent.
ghost use Rattle.std.specs.Prelude.{◌≡◌, ◌≢◌, ◌↔◌, ℕ, ◌+◌, ◌-◌, ◌<◌, ◌⊎◌, List, slice_index, IsTrue, IsFalse, IsSome, IsNone, IfSome};
ghost use Rattle.trie_nodes.specs.Paths.{nibble};
ghost use Rattle.trie_nodes.specs.Nodes.{stands_for};
ghost use Rattle.trie_nodes.specs.Plans.{Prunes, HasOnlyEmptySlots, HasAFullSlot};

use crate::layout::SLOTS;
use crate::path::nibble;
use crate::plan::Pruning;

/// The slot that is to be emptied where a node, of which these are the words, is empty and isn't a root: the slot that its parent
/// has for the key. The node is that of this level, 1 to 7, on the path of the key. None exactly where one of its slots isn't empty
/// or its parent is 0.
pub fn pruning(node: &[u64; 18], key: u32, seed: u32, level: u32) -> Option<Pruning>
    requires below_a_root { 0 < level }
    requires level { level < 8 }

    ensures some { IsSome result ↔ (HasOnlyEmptySlots node.now × (slice_index node.now 1 ≢ 0)) }
    ensures none { IsNone result ↔ (HasAFullSlot node.now ⊎ (slice_index node.now 1 ≡ 0)) }
    ensures parent { IfSome result (λ plan. plan.parent ≡ slice_index node.now 1) }
    ensures slot { IfSome result (λ plan. plan.slot ≡ nibble key seed (level - 1)) }

    // the parent then stands for the same map
    ensures keeps { IfSome result (λ plan. (old new : List ℕ) (place other : ℕ) → Prunes old new level place node.now plan
        → stands_for new seed (level - 1) plan.parent other ≡ stands_for old seed (level - 1) plan.parent other) }
{
    let parent = node[1];
    if parent == 0 || !is_empty(node) {
        return None;
    }
    Some(Pruning {
        parent,
        slot: nibble(key, seed, level - 1),
    })
}

// Whether all slots of a node that has these words are empty.
fn is_empty(node: &[u64; 18]) -> bool
    ensures empty { IsTrue result ↔ HasOnlyEmptySlots node.now }
    ensures full { IsFalse result ↔ HasAFullSlot node.now }
{
    for slot in 0..SLOTS as usize {
        if node[2 + slot] != 0 {
            return false;
        }
    }
    true
}
