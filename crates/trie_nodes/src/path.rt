//! The path of a key down a map's nodes.
ghost use Rattle.std.specs.Prelude.{◌≡◌, ◌↔◌, ◌<◌, ◌≤◌, IsTrue};
ghost use Rattle.trie_nodes.specs.Paths.{nibble, route};

/// The slot that a node of this level, 0 to 7, has for the key: one of the eight nibbles of the key's exclusive or with the seed,
/// the low nibble for the root, which has level 0.
#[tactic(auto, unfolding(crate::specs::Paths::nibble))]
pub fn nibble(key: u32, seed: u32, level: u32) -> u32
    requires { level < 8 }
    ensures is { result ≡ nibble key seed level }
    ensures slot { result < 16 }
{
    ((key ^ seed) >> (4 * level)) % 16
}

/// Whether the paths of two keys go together down to the node of this level, 0 to 8.
pub fn go_together(key: u32, other: u32, seed: u32, level: u32) -> bool
    requires { level ≤ 8 }
    ensures { IsTrue result ↔ (route seed level key ≡ route seed level other) }
{
    for above in 0..level {
        if nibble(key, seed, above) != nibble(other, seed, above) {
            return false;
        }
    }
    true
}
