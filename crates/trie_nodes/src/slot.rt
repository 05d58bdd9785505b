//! What a slot of a node holds.
ghost use Rattle.std.specs.Prelude.{◌≡◌, ◌^◌, ◌<◌};
ghost use Rattle.trie_nodes.specs.Slots.{word_of_slot, slot_in, place_of_slot};

/// What a slot of a node holds. A place is the number of a node's or an entry's first word. It is never 0.
#[derive(Clone, Copy, Drop, PartialEq, Eq)]
pub enum Slot {
    /// Nothing: no key of this slot is there.
    Empty,
    /// The place of a node of the next level.
    Node(u64),
    /// The place of an entry: one key of this slot is there.
    Entry(u64),
}

impl Slot {
    /// The slot whose word it is: 0 for an empty one, twice the place for a node, and one more than twice the place for an
    /// entry.
    pub fn of_word(word: u64) -> Slot
        ensures { result ≡ slot_in word }
    {
        if word == 0 {
            Slot::Empty
        } else if word % 2 == 0 {
            Slot::Node(word / 2)
        } else {
            Slot::Entry(word / 2)
        }
    }

    /// The slot's word.
    pub fn to_word(self) -> u64
        requires { place_of_slot self < 2 ^ 63 }
        ensures { result ≡ word_of_slot self }
    {
        match self {
            Slot::Empty => 0,
            Slot::Node(place) => 2 * place,
            Slot::Entry(place) => 2 * place + 1,
        }
    }
}
