//! What a call that changes a map adds. It is drafted in its caller's room, where nobody sees it. One write to a slot, under its
//! node's lock, then shows it.
ghost use Rattle.std.specs.Prelude.{◌≡◌, ◌≢◌, ◌+◌, ◌*◌, ◌<◌, List, Some, None};
ghost use Rattle.table_rule.specs.declared.view.Own.{Own};
ghost use Rattle.sync_types.specs.KeyCalls.{key_after};
ghost use Rattle.table_rule.specs.Making.{leaf_value, HasNoOther, Publishes};
ghost use Rattle.table_words.specs.Seats.{begin_of, IsSeatOf};
ghost use Rattle.table_rule.specs.Units.{unit_word};
ghost use Rattle.table_rule.specs.Walking.{HasWords};
ghost use Rattle.table_rule.specs.Writing.{HasDraft};
ghost use Rattle.shared_table.specs.Drafts.{IsPoised, Drafted};

use crate::chain::Chain;
use atomic_table::Seat;
use sync_types::MapCall;
use table_words::{Leaf, TableWords, View};
use trie_nodes::laws::paths::the_paths_of_different_keys_part;
use trie_nodes::{Slot, expansion};

/// Empties the slot of a key that has its own entry there.
pub fn remove(
    words: &TableWords,
    seat: &mut Seat<(), View>,
    call: MapCall<u32>,
    map: u32,
    key: u32,
    node: u64,
    level: u32,
    _next: u64,
)
    requires table { IsSeatOf words.now seat.old }
    requires poised { IsPoised (begin_of words.now) seat.old.me.0 call map key node level _next }
    requires after { key_after call (leaf_value seat.old.me.0.leaf key) ≡ None }
    requires free { HasNoOther seat.old.me.0.leaf key }
    requires words { HasWords seat.old.me.0 node 18 }
    requires level { level < 8 }
    ensures table { seat.new.table_id ≡ seat.old.table_id }
    ensures published { Publishes map call 2 seat.old.me seat.new.me }
{
    words.publish(seat, call, map, key, node, level, Slot::Empty.to_word());
}

/// Shows a new entry in the slot of a key that is empty, or has the key's own entry.
pub fn show_entry(
    words: &TableWords,
    seat: &mut Seat<(), View>,
    call: MapCall<u32>,
    map: u32,
    key: u32,
    node: u64,
    level: u32,
    next: u64,
    value: u64,
)
    requires table { IsSeatOf words.now seat.old }
    requires poised { IsPoised (begin_of words.now) seat.old.me.0 call map key node level next }
    requires after { key_after call (leaf_value seat.old.me.0.leaf key) ≡ Some value }
    requires free { HasNoOther seat.old.me.0.leaf key }
    requires words { HasWords seat.old.me.0 node 18 }
    requires level { level < 8 }
    ensures table { seat.new.table_id ≡ seat.old.table_id }
    ensures published { Publishes map call 2 seat.old.me seat.new.me }
{
    words.draft(seat, next, 0, key as u64);
    words.draft(seat, next, 1, value);
    words.publish(
        seat,
        call,
        map,
        key,
        node,
        level,
        Slot::Entry(next).to_word(),
    );
}

// Drafts a chain, word by word.
fn draft_chain(words: &TableWords, seat: &mut Seat<(), View>, chain: &Chain)
    requires table { IsSeatOf words.now seat.old }
    requires room { (own : Own) × (owns : List Own) × HasDraft (begin_of words.now) seat.old.me own owns chain.now.unit 0 }
    ensures table { seat.new.table_id ≡ seat.old.table_id }
    ensures drafted { Drafted seat.old.me seat.new.me (2 + 18 * chain.now.plan.nodes) (unit_word chain.now.seed chain.now.key chain.now.value chain.now.level chain.now.above chain.now.held chain.now.unit chain.now.plan) }
{
    for index in 0..chain.len() {
        words.draft(seat, chain.unit, index, chain.word(index));
    }
}

/// Shows a chain to two entries in the slot of a key that has the entry of another. Tells how many words of the room it used.
pub fn show_chain(
    words: &TableWords,
    seat: &mut Seat<(), View>,
    call: MapCall<u32>,
    map: u32,
    key: u32,
    node: u64,
    level: u32,
    next: u64,
    value: u64,
    other: &Leaf,
) -> u64
    requires table { IsSeatOf words.now seat.old }
    requires poised { IsPoised (begin_of words.now) seat.old.me.0 call map key node level next }
    requires after { key_after call (leaf_value seat.old.me.0.leaf key) ≡ Some value }
    requires other { (seat.old.me.0.leaf ≡ Some other.now) × (other.now.key ≢ key) }
    requires words { HasWords seat.old.me.0 node 18 × HasWords seat.old.me.0 other.now.place 2 }
    requires level { level < 8 }
    ensures table { seat.new.table_id ≡ seat.old.table_id }
    ensures published { Publishes map call result seat.old.me seat.new.me }
{
    the_paths_of_different_keys_part();
    let seed = words.seed();
    let chain = Chain {
        key,
        value,
        seed,
        level: level + 1,
        above: node,
        held: other.place,
        unit: next,
        plan: expansion(other.key as u32, key, seed, level + 1),
    };
    draft_chain(words, seat, &chain);
    words.publish(
        seat,
        call,
        map,
        key,
        node,
        level,
        Slot::Node(next + 2).to_word(),
    );
    chain.len()
}
