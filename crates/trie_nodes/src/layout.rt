//! Where things stand in the row of words of a shared table. A place is the number of the first word of a node or an entry.
ghost use Rattle.std.specs.Prelude.{◌≡◌, ◌<◌, ◌^◌};
ghost use Rattle.trie_nodes.specs.Layout as words;

/// How many words a node has: its lock, the place of its parent, and 16 slots.
pub const NODE_WORDS: usize = 18;

/// How many slots a node has.
pub const SLOTS: u32 = 16;

/// How many levels of nodes there are, and nibbles in a path.
pub const LEVELS: u32 = 8;

/// How many words an entry has: its key and its value.
pub const ENTRY_WORDS: usize = 2;

/// How many words one writing call may use: those of an entry and of seven nodes.
pub const UNIT_WORDS: usize = 128;

/// So many words lie from a map's root word to its gate word, and from its gate word to the next map's root word: 128 bytes, a
/// cache line and the one that a processor may fetch with it. The words between are nobody's. A writer changes the gate twice,
/// and so takes its cache line from all others, which read the root word.
pub const LINE_WORDS: usize = 16;

/// What the lock of a node holds that nobody has locked.
pub const FREE: u64 = 0;

/// What the lock of a dead node holds. Nobody takes it any more.
pub const DEAD: u64 = 1 << 32;

/// What the lock of a node holds that this caller has locked.
pub fn held_word(caller: u32) -> u64
    ensures { result ≡ words.held_word caller }
{
    caller as u64 + 1
}

/// Where the words of the atomics and the maps stand, and where nodes and entries begin: word 0 is nobody's, then come the
/// atomics, a word each, then for each map its root word and its gate word, each at some distance from all that stands before and
/// behind it, then the nodes that are the maps' first roots, and last the room of the callers.
#[derive(Clone, Copy, Drop, PartialEq, Eq)]
pub struct Layout {
    /// How many atomics the table has.
    pub atomics: u32,
    /// How many maps it has.
    pub maps: u32,
}

impl Layout {
    /// The word of an atomic.
    pub fn atomic_word(&self, atomic: u32) -> usize
        ensures { result ≡ words.atomic_word atomic }
    {
        1 + atomic as usize
    }

    /// The word that holds the place of a map's root node.
    pub fn root_word(&self, map: u32) -> usize
        ensures { result ≡ words.root_word self.now.atomics map }
    {
        1 + self.atomics as usize + LINE_WORDS + 2 * LINE_WORDS * map as usize
    }

    /// The word of the gate of a map's writers.
    pub fn gate_word(&self, map: u32) -> usize
        ensures { result ≡ words.gate_word self.now.atomics map }
    {
        self.root_word(map) + LINE_WORDS
    }

    /// The first word of nodes and entries.
    pub fn heads(&self) -> usize
        ensures { result ≡ words.heads self.now.atomics self.now.maps }
    {
        1 + self.atomics as usize + LINE_WORDS + 2 * LINE_WORDS * self.maps as usize
    }

    /// The place of the node that is a map's first root.
    pub fn first_root(&self, map: u32) -> usize
        ensures { result ≡ words.first_root self.now.atomics self.now.maps map }
    {
        self.heads() + NODE_WORDS * map as usize
    }

    /// The first word of the callers' room.
    pub fn first_room(&self) -> usize
        ensures { result ≡ words.first_room self.now.atomics self.now.maps }
    {
        self.heads() + NODE_WORDS * self.maps as usize
    }
}

/// The word of a node's lock.
pub fn lock_word(node: u64) -> usize
    ensures { result ≡ words.lock_word node }
{
    node as usize
}

/// The word of the place of a node's parent, which is 0 for a root.
pub fn parent_word(node: u64) -> usize
    requires { node < 2 ^ 63 }
    ensures { result ≡ words.parent_word node }
{
    node as usize + 1
}

/// The word of one of a node's slots, 0 to 15.
pub fn slot_word(node: u64, slot: u32) -> usize
    requires { node < 2 ^ 63 }
    ensures { result ≡ words.slot_word node slot }
{
    node as usize + 2 + slot as usize
}

/// The word of an entry's value.
pub fn value_word(entry: u64) -> usize
    requires { entry < 2 ^ 63 }
    ensures { result ≡ words.value_word entry }
{
    entry as usize + 1
}

/// The word of an entry's key.
pub fn key_word(entry: u64) -> usize
    ensures { result ≡ words.key_word entry }
{
    entry as usize
}
