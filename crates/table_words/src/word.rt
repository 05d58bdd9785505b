//! Reading words, roots and slots.
ghost use Rattle.std.specs.Prelude.{◌≡◌, ◌^◌, ◌<◌, length, slice_index};
ghost use Rattle.trie_nodes.specs.Nodes.{slot_at};
ghost use Rattle.trie_nodes.specs.Slots.{place_of_slot};
ghost use Rattle.table_words.specs.EndContents.{contents_of, words_of};
ghost use Rattle.table_words.specs.EndWords.{root_in};

use crate::ended::TableEnds;
use trie_nodes::layout::slot_word;
use trie_nodes::{Layout, Slot};

impl TableEnds {
    // A word, or 0 behind the last.
    pub(crate) fn word(&self, index: usize) -> u64
        ensures { result ≡ slice_index (words_of self.now) index }
    {
        if index < self.closed.words.len() {
            self.closed.word(index)
        } else {
            0
        }
    }

    // The place of a map's root.
    pub(crate) fn root(&self, map: u32) -> u64
        requires { map < length (contents_of self.now).maps }
        ensures is { result ≡ root_in self.now.kinds (words_of self.now) map }
        ensures place { result < 2 ^ 63 }
    {
        let layout = Layout {
            atomics: self.kinds.len() as u32,
            maps: self.maps,
        };
        self.word(layout.root_word(map))
    }

    // What a slot of a node holds.
    pub(crate) fn slot(&self, node: u64, slot: u32) -> Slot
        requires { node < 2 ^ 63 }
        ensures is { result ≡ slot_at (words_of self.now) node slot }
        ensures place { place_of_slot result < 2 ^ 63 }
    {
        Slot::of_word(self.word(slot_word(node, slot)))
    }
}
