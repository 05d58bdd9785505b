//! What a step is about, told by a type, for proofs: a map and a key, a call, or a number of its caller.
ghost use Rattle.std.specs.Prelude.{ℕ};
ghost use Rattle.sync_types.specs.declared.atomic_object.AtomicCall.{AtomicCall};
ghost use Rattle.sync_types.specs.declared.atomic_object.AtomicCall.TheVariants.{Load};
ghost use Rattle.sync_types.specs.declared.map_object.MapCall.{MapCall};
ghost use Rattle.sync_types.specs.declared.map_object.MapCall.TheVariants.{Clear};

use std::marker::Brand;

/// The map and the key of a walk, for proofs. A call at `Brand` picks them.
pub trait Way {
    ghost map: { ℕ };

    ghost key: { ℕ };
}

impl Way for Brand {
    ghost map = { 0 };

    ghost key = { 0 };
}

/// The number of the last event of a seat's caller, for proofs. A call at `Brand` picks it.
pub trait Timed {
    ghost time: { ℕ };
}

impl Timed for Brand {
    ghost time = { 0 };
}

/// The call on a map that a seat makes, for proofs. A call at `Brand` picks it.
pub trait Making {
    ghost call: { MapCall ℕ };

    ghost map: { ℕ };
}

impl Making for Brand {
    ghost call = { Clear };

    ghost map = { 0 };
}

/// The call on an atomic that an operation on its word is, for proofs. A call at `Brand` picks it.
pub trait Operation {
    ghost atomic: { ℕ };

    ghost call: { AtomicCall };
}

impl Operation for Brand {
    ghost atomic = { 0 };

    ghost call = { Load };
}
