//! How a shared table begins.
ghost use Rattle.std.specs.Prelude.{◌≡◌, length};
ghost use Rattle.table_rule.specs.Layout.{IsBegin};

use sync_types::{AtomicKind, Seq};
use trie_nodes::Layout;

/// What a shared table is made of, and stays. Its rule and each view speak of it.
#[derive(Drop)]
pub struct Begin {
    /// The types of the atomics, by number.
    pub kinds: Seq<AtomicKind>,
    /// How many maps there are.
    pub maps: u32,
    /// What the hash of a key is made with.
    pub seed: u32,
    /// For each caller, how many of its calls on maps may store an entry.
    pub spares: Seq<u32>,
}

impl Begin {
    /// Where the words of the table stand.
    pub fn layout(&self) -> Layout
        requires { IsBegin self.now }
        ensures atomics { result.atomics ≡ length self.now.kinds }
        ensures maps { result.maps ≡ self.now.maps }
    {
        Layout {
            atomics: self.kinds.len() as u32,
            maps: self.maps,
        }
    }
}
