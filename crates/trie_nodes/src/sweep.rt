//! A walk through all slots of a map, from slot 0 up and deep first: its steps.
ghost use Rattle.std.specs.Prelude.{◌≡◌, ◌<◌, ◌≤◌, [], ◌∷◌, ◌++◌, length};
ghost use Rattle.trie_nodes.specs.Places.{bump, but_last, last_of, steps_left};
ghost use Rattle.trie_nodes.specs.PlaceLists.{nodes_of, slots_of};

use crate::place::Place;

impl Place {
    /// The first slot of a map's root.
    pub fn first(root: u64) -> Self
        ensures nodes { nodes_of result ≡ root ∷ [] }
        ensures slots { slots_of result ≡ 0 ∷ [] }
    {
        Place {
            nodes: [root, 0, 0, 0, 0, 0, 0, 0],
            slots: [0; 8],
            depth: 1,
        }
    }

    /// How many nodes there are, 1 to 8.
    pub fn depth(&self) -> usize
        ensures { result ≡ length (slots_of self.now) }
    {
        self.depth
    }

    /// The last node.
    pub fn node(&self) -> u64
        ensures { result ≡ last_of (nodes_of self.now) }
    {
        self.nodes[self.depth - 1]
    }

    /// The slot of the last node where the walk stands, or 16 where it has passed all.
    pub fn slot(&self) -> u32
        ensures is { result ≡ last_of (slots_of self.now) }
        ensures to { result ≤ 16 }
    {
        self.slots[self.depth - 1]
    }

    /// Goes on to the next slot.
    pub fn go_on(&mut self)
        requires { last_of (slots_of self.old) < 16 }
        ensures nodes { nodes_of self.new ≡ nodes_of self.old }
        ensures slots { slots_of self.new ≡ bump (slots_of self.old) }
        ensures less { steps_left (slots_of self.new) < steps_left (slots_of self.old) }
    {
        self.slots[self.depth - 1] += 1;
    }

    /// Goes down into the node that the slot has.
    pub fn go_down(&mut self, node: u64)
        requires slot { last_of (slots_of self.old) < 16 }
        requires depth { length (slots_of self.old) < 8 }
        ensures nodes { nodes_of self.new ≡ nodes_of self.old ++ node ∷ [] }
        ensures slots { slots_of self.new ≡ slots_of self.old ++ 0 ∷ [] }
        ensures less { steps_left (slots_of self.new) < steps_left (slots_of self.old) }
    {
        self.nodes[self.depth] = node;
        self.slots[self.depth] = 0;
        self.depth += 1;
    }

    /// Goes up, and on to the next slot there.
    pub fn go_up(&mut self)
        requires { 1 < length (slots_of self.old) }
        ensures nodes { nodes_of self.new ≡ but_last (nodes_of self.old) }
        ensures slots { slots_of self.new ≡ bump (but_last (slots_of self.old)) }
        ensures less { steps_left (slots_of self.new) < steps_left (slots_of self.old) }
    {
        self.depth -= 1;
        self.slots[self.depth - 1] += 1;
    }
}
