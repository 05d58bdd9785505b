//! The reads of a seat on its way to a key.
ghost use Rattle.table_rule.specs.Walking.{told_at, Enters, LooksIn, ReadsKey, KeepsValue, ReadsValue};
ghost use Rattle.trie_nodes.specs.Slots.{slot_in};

use crate::subject::{Making, Timed, Way};
use crate::view::View;
use atomic_table::Play;
use std::marker::PhantomData;

/// A seat reads the root word of a map, and is told the number of its caller's last event.
pub struct Enter<W> {
    marker: PhantomData<W>,
}

impl<W: Way + Timed> Play<(), View> for Enter<W> {
    ghost then = { λ step before found after. Enters W.map W.key (told_at W.time before) found after };
}

/// A seat reads a slot, and its call is placed there, where it is no entry of the history.
pub struct LookIn<C> {
    marker: PhantomData<C>,
}

impl<C: Making> Play<(), View> for LookIn<C> {
    ghost then = { λ step before found after. LooksIn C.call before (slot_in found) after };
}

/// A seat reads the key of an entry.
pub struct ReadKey;

impl Play<(), View> for ReadKey {
    ghost then = { λ step before found after. ReadsKey before found after };
}

/// A seat reads the value of an entry, which it keeps in mind.
pub struct KeepValue;

impl Play<(), View> for KeepValue {
    ghost then = { λ step before found after. KeepsValue before found after };
}

/// A seat reads the value of an entry.
pub struct ReadValue;

impl Play<(), View> for ReadValue {
    ghost then = { λ step before found after. ReadsValue before found after };
}
