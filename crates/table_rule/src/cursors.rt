//! The steps of a cursor over a map.
ghost use Rattle.table_rule.specs.Cursors.{mounted, unmounted, cursor_seat, BeginsCursor, SweepsSlot, GoesUp, ShowsNone};
ghost use Rattle.table_rule.specs.Views.{spent};
ghost use Rattle.trie_nodes.specs.Slots.{slot_in};

use crate::subject::{Timed, Way};
use crate::view::View;
use atomic_table::{Join, Play, Split};
use std::marker::PhantomData;

/// A seat begins a cursor at the root of a map.
pub struct BeginCursor<W> {
    marker: PhantomData<W>,
}

impl<W: Way + Timed> Play<(), View> for BeginCursor<W> {
    ghost then = { λ step before found after. BeginsCursor W.map W.time before found after };
}

/// A seat's cursor reads the slot where it stands.
pub struct Sweep;

impl Play<(), View> for Sweep {
    ghost then = { λ step before found after. SweepsSlot before (slot_in found) after };
}

/// A seat's cursor goes up.
pub struct Rise;

impl Play<(), View> for Rise {
    ghost then = { λ step before found after. GoesUp before found after };
}

/// A seat's cursor shows none.
pub struct ShowNone;

impl Play<(), View> for ShowNone {
    ghost then = { λ step before found after. ShowsNone before found after };
}

/// A seat takes in its cursor's, and is told the number of its caller's last event.
pub struct Mount<T> {
    marker: PhantomData<T>,
}

impl<T: Timed> Join<View> for Mount<T> {
    ghost both = { mounted T.time };

    ghost spent = { spent };
}

/// A seat lets its cursor go.
pub struct Unmount;

impl Split<View> for Unmount {
    ghost left = { unmounted };

    ghost right = { cursor_seat };
}
