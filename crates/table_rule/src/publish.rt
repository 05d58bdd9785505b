//! The write of a call that changes a map.
ghost use Rattle.table_rule.specs.Making.{used_in, Publishes};

use crate::subject::Making;
use crate::view::View;
use atomic_table::Play;
use std::marker::PhantomData;

/// A seat writes a slot of the node whose lock it holds. This step places the call of the seat's first caller.
pub struct Publish<C> {
    marker: PhantomData<C>,
}

impl<C: Making> Play<(), View> for Publish<C> {
    ghost then = { λ step before found after. Publishes C.map C.call (used_in before.0.owns) before after };
}
