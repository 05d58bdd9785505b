//! Walks through a map's nodes: down the path of one key, and through all slots.
ghost use Rattle.std.specs.Prelude.{◌≡◌, ◌+◌, ◌^◌, ◌<◌, ◌≤◌, ◌++◌, All, length, slice_index, vec_len, vec_capacity};
ghost use Rattle.sync_model.specs.SharedHistory.{value_at};
ghost use Rattle.trie_nodes.specs.Nodes.{entry_value, stands_for};
ghost use Rattle.trie_nodes.specs.Walks.{pairs_within};
ghost use Rattle.table_words.specs.EndContents.{contents_of, words_of};

use crate::ended::TableEnds;
use trie_nodes::laws::nodes::a_node_gives_what_its_slot_gives;
use trie_nodes::layout::{key_word, value_word};
use trie_nodes::{LEVELS, SLOTS, Slot, nibble};

impl TableEnds {
    /// The value of a map's key, if it has one.
    pub fn value(&self, map: u32, key: u32) -> Option<u64>
        requires { map < length (contents_of self.now).maps }
        ensures { result ≡ value_at (contents_of self.now) map key }
    {
        self.find(self.root(map), key)
    }

    // What a root stands for gives the key.
    fn find(&self, root: u64, key: u32) -> Option<u64>
        requires { root < 2 ^ 63 }
        ensures { result ≡ stands_for (words_of self.now) self.now.seed 0 root key }
    {
        a_node_gives_what_its_slot_gives();
        let mut node = root;
        for level in 0..LEVELS {
            match self.slot(node, nibble(key, self.seed, level)) {
                Slot::Empty => return None,
                Slot::Node(below) => node = below,
                Slot::Entry(entry) => return self.entry_value(entry, key),
            }
        }
        None
    }

    // What an entry gives a key.
    fn entry_value(&self, entry: u64, key: u32) -> Option<u64>
        requires { entry < 2 ^ 63 }
        ensures { result ≡ entry_value (words_of self.now) entry key }
    {
        if self.word(key_word(entry)) == key as u64 {
            Some(self.word(value_word(entry)))
        } else {
            None
        }
    }

    // Adds the pairs that a node leads to, where so many levels are left.
    pub(crate) fn push_below(&self, levels: u32, node: u64, pairs: &mut Vec<(u32, u64)>)
        requires node { node < 2 ^ 63 }
        requires keys { All (λ pair. pair.0 < 2 ^ 32) (pairs_within (words_of self.now) levels node) }
        requires room { vec_len pairs.old + length (pairs_within (words_of self.now) levels node) ≤ vec_capacity pairs.old }
        ensures pairs { pairs.new.items ≡ pairs.old.items ++ pairs_within (words_of self.now) levels node }
        ensures room { vec_capacity pairs.new ≡ vec_capacity pairs.old }
    {
        if levels == 0 {
            return;
        }
        for slot in 0..SLOTS {
            match self.slot(node, slot) {
                Slot::Empty => {}
                Slot::Node(below) => self.push_below(levels - 1, below, pairs),
                Slot::Entry(entry) => pairs.push_reserved(self.pair(entry)),
            }
        }
    }

    // The key and the value of an entry, whose key is one of 32 bits.
    fn pair(&self, entry: u64) -> (u32, u64)
        requires entry { entry < 2 ^ 63 }
        requires key { slice_index (words_of self.now) entry < 2 ^ 32 }
        ensures { result ≡ (slice_index (words_of self.now) entry, slice_index (words_of self.now) (entry + 1)) }
    {
        (
            self.word(key_word(entry)) as u32,
            self.word(value_word(entry)),
        )
    }

    // How many pairs a node leads to, where so many levels are left.
    pub(crate) fn count_below(&self, levels: u32, node: u64) -> u64
        requires node { node < 2 ^ 63 }
        requires levels { levels ≤ 8 }
        ensures { result ≡ length (pairs_within (words_of self.now) levels node) }
    {
        if levels == 0 {
            return 0;
        }
        let mut count = 0;
        for slot in 0..SLOTS {
            count += match self.slot(node, slot) {
                Slot::Empty => 0,
                Slot::Node(below) => self.count_below(levels - 1, below),
                Slot::Entry(_) => 1,
            };
        }
        count
    }
}
