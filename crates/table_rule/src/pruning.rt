//! The steps of a seat that cuts off an empty node.
ghost use Rattle.table_rule.specs.Pruning.{LooksAtSlot, ReadsParent, TriesUpper, Marks, CutsOff};

use crate::view::View;
use atomic_table::Play;

/// A seat looks at a slot of the node whose lock it holds.
pub struct LookAtSlot;

impl Play<(), View> for LookAtSlot {
    ghost then = { λ step before found after. LooksAtSlot before found after };
}

/// A seat reads the parent's place of the node whose lock it holds.
pub struct ReadParent;

impl Play<(), View> for ReadParent {
    ghost then = { λ step before found after. ReadsParent before found after };
}

/// A seat tries the lock of the parent of the node whose lock it holds.
pub struct TryUpper;

impl Play<(), View> for TryUpper {
    ghost then = { λ step before found after. TriesUpper before found after };
}

/// A seat marks the node dead whose lock it holds.
pub struct Mark;

impl Play<(), View> for Mark {
    ghost then = { λ step before found after. Marks before after };
}

/// A seat empties the slot of a dead node's parent.
pub struct CutOff;

impl Play<(), View> for CutOff {
    ghost then = { λ step before found after. CutsOff before after };
}
