//! What a program writes to.
ghost use Rattle.std.specs.Prelude.{◌≡◌, ℕ, List, Option, ◌≤◌, OnOk, OnErr};
ghost use Rattle.sync_outside.specs.Bytes.{Appends, AppendsFront};
ghost use Rattle.sync_outside.specs.Faults.{Rose, raised};

use crate::fault::Failed;

/// An output that bytes are appended to.
///
/// Its faults and its writes are counted. A count never falls, and stands still at 2^64 - 1. Where a sink doesn't
/// tell its bytes, `contents` is `None`.
pub trait Sink {
    // The bytes that were appended so far.
    ghost contents: { Self → Option (List ℕ) };

    // How many writes failed.
    ghost faults: { Self → ℕ };

    // How many writes were made, failed ones included.
    ghost writes: { Self → ℕ };

    /// Appends the whole piece. A write that fails may have appended a first part of it, or nothing.
    fn write(&mut self, piece: &[u8]) -> Result<(), Failed>
        ensures ok { OnOk result (Appends (contents self.old) (contents self.new) piece.now) }
        ensures err { OnErr result (AppendsFront (contents self.old) (contents self.new) piece.now) }
        ensures failed { OnErr result (Rose (faults self.old) (faults self.new)) }
        ensures faults { faults self.old ≤ faults self.new }
        ensures writes { writes self.new ≡ raised (writes self.old) };
}
