//! The step of a call on an atomic.
ghost use Rattle.table_rule.specs.Operations.{Operates};

use crate::subject::{Operation, Timed};
use crate::view::View;
use atomic_table::Play;
use std::marker::PhantomData;

/// A seat makes an operation on an atomic's word. This step places the call of the seat's first caller.
pub struct Operate<O> {
    marker: PhantomData<O>,
}

impl<O: Operation + Timed> Play<(), View> for Operate<O> {
    ghost then = { λ step before found after. Operates O.atomic O.call O.time before found after };
}
