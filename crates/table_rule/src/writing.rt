//! The steps of a seat that writes a map, up to the write.
ghost use Rattle.std.specs.Prelude.{◌≡◌, Some};
ghost use Rattle.table_rule.specs.declared.view.Walk.{Walk};
ghost use Rattle.table_rule.specs.Making.{LooksHeld};
ghost use Rattle.table_rule.specs.Writing.{TriesLock, Unlocks, ComesIn, GoesOut, Drafts};
ghost use Rattle.trie_nodes.specs.Slots.{slot_in};

use crate::subject::{Making, Timed, Way};
use crate::view::View;
use atomic_table::Play;
use std::marker::PhantomData;

/// A seat comes in as a writer of a map, and is told the number of its caller's last event.
pub struct ComeIn<W> {
    marker: PhantomData<W>,
}

impl<W: Way + Timed> Play<(), View> for ComeIn<W> {
    ghost then = { λ step before found after. ComesIn W.map W.time step.first before found after };
}

/// A seat goes out.
pub struct GoOut;

impl Play<(), View> for GoOut {
    ghost then = { λ step before found after. GoesOut before found after };
}

/// A seat tries the lock of the node where it stands.
pub struct TryLock;

impl Play<(), View> for TryLock {
    ghost then = { λ step before found after. (w : Walk) → before.0.walk ≡ Some w → TriesLock w before found after };
}

/// A seat looks at its key's slot under the lock of the node where it stands.
pub struct LookHeld<C> {
    marker: PhantomData<C>,
}

impl<C: Making> Play<(), View> for LookHeld<C> {
    ghost then = { λ step before found after. LooksHeld C.call before (slot_in found) after };
}

/// A seat gives its lock back.
pub struct Unlock;

impl Play<(), View> for Unlock {
    ghost then = { λ step before found after. Unlocks before found after };
}

/// A seat lets the next word of its own room stay 0.
pub struct DraftZero;

impl Play<(), View> for DraftZero {
    ghost then = { λ step before found after. Drafts 0 before 0 after };
}

/// A seat writes the next word of its own room.
pub struct Draft;

impl Play<(), View> for Draft {
    ghost then = { λ step before found after. Drafts step.first before found after };
}
