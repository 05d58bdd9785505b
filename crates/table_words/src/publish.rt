//! The write of a call that changes a map: one write to a slot, under its node's lock, shows what its caller has drafted.
ghost use Rattle.std.specs.Prelude.{◌≡◌, ◌<◌};
ghost use Rattle.table_rule.specs.declared.view.Lock.{Lock};
ghost use Rattle.table_rule.specs.Making.{used_in, IsLockAt, MayPublish, Publishes};
ghost use Rattle.table_words.specs.Seats.{begin_of, IsSeatOf};
ghost use Rattle.table_rule.specs.Walking.{HasWords};

use crate::laws::{history_laws, trie_laws};
use crate::words::TableWords;
use atomic_table::Seat;
use std::marker::Brand;
use sync_types::MapCall;
use table_rule::publish::Publish;
use table_rule::subject::Making;
use table_rule::view::View;
use trie_nodes::layout::slot_word;
use trie_nodes::nibble;

impl TableWords {
    /// Writes the slot of a key. This places the call.
    pub fn publish(
        &self,
        seat: &mut Seat<(), View>,
        call: MapCall<u32>,
        map: u32,
        key: u32,
        node: u64,
        level: u32,
        new: u64,
    )
        requires table { IsSeatOf self.now seat.old }
        requires may { (l : Lock) × IsLockAt l key node level × MayPublish (begin_of self.now) seat.old.me.0 call map l new }
        requires words { HasWords seat.old.me.0 node 18 }
        requires level { level < 8 }
        ensures table { seat.new.table_id ≡ seat.old.table_id }
        ensures published { Publishes map call (used_in seat.old.me.0.owns) seat.old.me seat.new.me }
    {
        self.publish_as::<Brand>(seat, call, map, key, node, level, new)
    }

    // The same, with a call that is told by a type.
    fn publish_as<C: Making>(
        &self,
        seat: &mut Seat<(), View>,
        _call: MapCall<u32>,
        _map: u32,
        key: u32,
        node: u64,
        level: u32,
        new: u64,
    )
        requires table { IsSeatOf self.now seat.old }
        requires may { (l : Lock) × IsLockAt l key node level × MayPublish (begin_of self.now) seat.old.me.0 C.call C.map l new }
        requires words { HasWords seat.old.me.0 node 18 }
        requires level { level < 8 }
        ensures table { seat.new.table_id ≡ seat.old.table_id }
        ensures published { Publishes C.map C.call (used_in seat.old.me.0.owns) seat.old.me seat.new.me }
    {
        history_laws();
        trie_laws();
        let word = slot_word(node, nibble(key, self.begin.seed, level));
        self.table.shared.store::<Publish<C>>(seat, word, new);
    }
}
