//! Room for the passes of all callers.
ghost use Rattle.std.specs.Prelude.{◌≡◌, []};

use crate::machine::PlainMachine;
use ruled_object::PassOf;
use sync_model::NoNote;

/// Room for `Plain::ends`, so that it takes no memory: a run takes it before its first start.
#[derive(Drop)]
pub struct EndsRoom {
    pub(crate) passes: Vec<PassOf<PlainMachine, NoNote>>,
    ghost empty: { passes.items ≡ [] },
}
