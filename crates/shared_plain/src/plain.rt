//! Plain maps and atomics that callers share.
ghost use Rattle.std.specs.Prelude.{◌≡◌, length, map};
ghost use Rattle.sync_types.specs.SequentialAtomic.{kind_of};
ghost use Rattle.ruled_object.specs.Passes.{start_of};
ghost use Rattle.shared_plain.specs.PlainMachine.{first_holdings};

use crate::machine::PlainMachine;
use ruled_object::Object;
use sync_model::NoNote;

/// Maps and typed atomics, which their callers share on one object. Each call takes the object's turn.
#[derive(Drop)]
pub struct Plain {
    pub(crate) object: Object<PlainMachine, NoNote>,
    pub(crate) keys: u32,
    ghost begun: { start_of object ≡ first_holdings (length (start_of object).maps) keys (map kind_of (start_of object).numbers) },
}
