//! The words of a chain, as a call drafts them.
ghost use Rattle.std.specs.Prelude.{◌≡◌, ◌+◌, ◌*◌, ◌<◌, ◌≤◌, ◌^◌};
ghost use Rattle.trie_nodes.specs.Plans.{last_slots};
ghost use Rattle.table_rule.specs.Units.{link_at, link_slots, link_word, unit_word};

use trie_nodes::{Expansion, Slot, nibble};

/// A chain to the entries of two keys, behind the entry of the one that comes.
#[derive(Drop)]
pub(crate) struct Chain {
    pub(crate) key: u32,
    pub(crate) value: u64,
    pub(crate) seed: u32,
    /// The level of the chain's first node.
    pub(crate) level: u32,
    /// The node above it.
    pub(crate) above: u64,
    /// The place of the entry that stands there.
    pub(crate) held: u64,
    /// Where the unit begins that the chain is drafted in.
    pub(crate) unit: u64,
    pub(crate) plan: Expansion,
    ghost placed: { unit < 2 ^ 32 },
    ghost stands: { held < 2 ^ 32 },
    ghost below_root: { 0 < level },
    ghost within: { level + plan.nodes ≤ 8 },
}

impl Chain {
    /// How many words it has: the entry's two, and 18 for each node.
    pub(crate) fn len(&self) -> u64
        ensures { result ≡ 2 + 18 * self.now.plan.nodes }
    {
        2 + 18 * self.plan.nodes as u64
    }

    /// A word of the unit.
    pub(crate) fn word(&self, index: u64) -> u64
        requires { index < 2 + 18 * self.now.plan.nodes }
        ensures { result ≡ unit_word self.now.seed self.now.key self.now.value self.now.level self.now.above self.now.held self.now.unit self.now.plan index }
    {
        if index == 0 {
            return self.key as u64;
        }
        if index == 1 {
            return self.value;
        }
        self.node_word((index - 2) / 18, (index - 2) % 18)
    }

    // A word of one of the nodes.
    fn node_word(&self, number: u64, word: u64) -> u64
        requires number { number < self.now.plan.nodes }
        requires word { word < 18 }
        ensures { result ≡ link_word self.now.seed self.now.key self.now.value self.now.level self.now.above self.now.held self.now.unit self.now.plan number word }
    {
        if word == 0 {
            return 0;
        }
        if word == 1 {
            return self.parent(number);
        }
        self.slot(number, word - 2)
    }

    // The place of one of the nodes.
    fn place(&self, number: u64) -> u64
        requires { number ≤ 8 }
        ensures { result ≡ link_at self.now.unit number }
    {
        self.unit + 2 + 18 * number
    }

    // The place above one of the nodes.
    fn parent(&self, number: u64) -> u64
        requires { number < self.now.plan.nodes }
        ensures { result ≡ link_word self.now.seed self.now.key self.now.value self.now.level self.now.above self.now.held self.now.unit self.now.plan number 1 }
    {
        if number == 0 {
            return self.above;
        }
        self.place(number - 1)
    }

    // The word in a slot of one of the nodes.
    fn slot(&self, number: u64, slot: u64) -> u64
        requires { number < self.now.plan.nodes }
        ensures { result ≡ link_slots self.now.seed self.now.key self.now.value self.now.level self.now.above self.now.held self.now.unit self.now.plan number slot }
    {
        if number + 1 == self.plan.nodes as u64 {
            return self.last_slot(slot);
        }
        let next = nibble(self.key, self.seed, self.level + number as u32);
        if slot == next as u64 {
            Slot::Node(self.place(number + 1)).to_word()
        } else {
            0
        }
    }

    // The word in a slot of the last node.
    fn last_slot(&self, slot: u64) -> u64
        ensures { result ≡ last_slots self.now.plan self.now.held self.now.unit slot }
    {
        if slot == self.plan.held_slot as u64 {
            Slot::Entry(self.held).to_word()
        } else if slot == self.plan.key_slot as u64 {
            Slot::Entry(self.unit).to_word()
        } else {
            0
        }
    }
}
