//! The pairs of a map, from the least key up.
ghost use Rattle.std.specs.Prelude.{◌≡◌, ◌<◌, ◌≤◌, length, vec_capacity};
ghost use Rattle.std.specs.FinMap.{entries};
ghost use Rattle.std.specs.List.Sorted.{IsNonDecreasingBy, IsPermutation};
ghost use Rattle.sync_model.specs.SharedHistory.{map_at};
ghost use Rattle.table_words.specs.EndContents.{contents_of};

use crate::ended::TableEnds;
use trie_nodes::LEVELS;

impl TableEnds {
    /// How many keys a map has.
    pub fn count(&self, map: u32) -> u64
        requires { map < length (contents_of self.now).maps }
        ensures { result ≡ length (entries (map_at (contents_of self.now) map)) }
    {
        self.count_below(LEVELS, self.root(map))
    }

    /// Replaces what a list holds by all keys of a map with their values, each once, from the least key up. The list has room
    /// for them, so it takes no memory.
    pub fn pairs(&self, map: u32, pairs: &mut Vec<(u32, u64)>)
        requires map { map < length (contents_of self.now).maps }
        requires room { length (entries (map_at (contents_of self.now) map)) ≤ vec_capacity pairs.old }
        ensures pairs { pairs.new.items ≡ entries (map_at (contents_of self.now) map) }
        ensures room { vec_capacity pairs.new ≡ vec_capacity pairs.old }
    {
        pairs.clear();
        self.push_below(LEVELS, self.root(map), pairs);
        sort_by_key(pairs);
    }
}

// Sorts pairs by their keys.
fn sort_by_key(pairs: &mut Vec<(u32, u64)>)
    ensures same { IsPermutation pairs.old.items pairs.new.items }
    ensures rise { IsNonDecreasingBy (λ pair. pair.0) pairs.new.items }
    ensures room { vec_capacity pairs.new ≡ vec_capacity pairs.old }
{
    pairs.sort_unstable_by_key(|pair| pair.0);
}
