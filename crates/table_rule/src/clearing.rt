//! The steps of a seat that clears a map.
ghost use Rattle.table_rule.specs.Clearing.{Closes, LooksInside, Clears};
ghost use Rattle.table_rule.specs.Writing.{GoesOut};

use crate::subject::{Timed, Way};
use crate::view::View;
use atomic_table::Play;
use std::marker::PhantomData;

/// A seat closes the gate of a map, and is told the number of its caller's last event.
pub struct Close<W> {
    marker: PhantomData<W>,
}

impl<W: Way + Timed> Play<(), View> for Close<W> {
    ghost then = { λ step before found after. Closes W.map W.time step.first before found after };
}

/// A seat looks whether a writer is inside the gate that it has closed.
pub struct LookInside<W> {
    marker: PhantomData<W>,
}

impl<W: Way> Play<(), View> for LookInside<W> {
    ghost then = { λ step before found after. LooksInside W.map before found after };
}

/// A seat writes a new empty root. This step places the call of the seat's first caller.
pub struct WriteRoot<W> {
    marker: PhantomData<W>,
}

impl<W: Way> Play<(), View> for WriteRoot<W> {
    ghost then = { λ step before found after. Clears W.map before after };
}

/// A seat opens the gate that it has closed, and is outside.
pub struct Open;

impl Play<(), View> for Open {
    ghost then = { λ step before found after. GoesOut before found after };
}
