//! What a program reads.
ghost use Rattle.std.specs.Prelude.{◌≡◌, ℕ, Bool, List, Option, ◌<◌, ◌≤◌, ◌↔◌, length, take, IsTrue, IsOk, IfOk, OnOk, OnErr, IsErrOf};
ghost use Rattle.std.specs.Io.KnownBytes.{IsAtEnd};
ghost use Rattle.sync_outside.specs.Bytes.{Gives};
ghost use Rattle.sync_outside.specs.Faults.{Rose, raised};

use crate::fault::{Failed, OpenFault};

/// Named inputs, of which one at most is open.
///
/// Two kinds of faults are counted: opens, by name, and reads. The calls of `read` are counted too. A
/// count never falls, and stands still at 2^64 - 1. Where a source doesn't tell its bytes, `contents` and `remaining` are `None`.
pub trait Sources {
    // The bytes under a name, those of the open name that were not read yet, and whether a name is open.
    ghost contents: { Self → List ℕ → Option (List ℕ) };

    ghost remaining: { Self → Option (List ℕ) };

    ghost is_open: { Self → Bool };

    // How many opens of a name failed, and how many reads.
    ghost open_faults: { Self → List ℕ → ℕ };

    ghost read_faults: { Self → ℕ };

    // How many reads were made, failed ones included.
    ghost reads: { Self → ℕ };

    /// Opens a name at its first byte, in place of the one that was open. After a refusal none is.
    fn open(&mut self, name: &str) -> Result<(), OpenFault>
        ensures opened { IsTrue (is_open self.new) ↔ IsOk result }
        ensures begins { OnOk result (remaining self.new ≡ contents self.new name.now) }
        ensures failed { IsErrOf result OpenFault.Failed → Rose (open_faults self.old name.now) (open_faults self.new name.now) }
        ensures open_faults { (other : List ℕ) → open_faults self.old other ≤ open_faults self.new other }

        // What an open leaves alone.
        ensures read_faults { read_faults self.new ≡ read_faults self.old }
        ensures reads { reads self.new ≡ reads self.old }
        ensures contents { (other : List ℕ) → contents self.new other ≡ contents self.old other };

    /// Reads the next bytes of the open name to the front of `buf`, and answers how many. A failed
    /// read takes none.
    fn read(&mut self, buf: &mut [u8]) -> Result<usize, Failed>
        requires { IsTrue (is_open self.old) }
        ensures fits { IfOk result (λ n. n ≤ length buf.old) }
        ensures gives { IfOk result (λ n. Gives (remaining self.old) (remaining self.new) (take n buf.new)) }
        ensures ends { IfOk result (λ n. n ≡ 0 → 0 < length buf.old → IsAtEnd (remaining self.new)) }
        ensures err { OnErr result (remaining self.new ≡ remaining self.old) }
        ensures failed { OnErr result (Rose (read_faults self.old) (read_faults self.new)) }
        ensures read_faults { read_faults self.old ≤ read_faults self.new }
        ensures reads { reads self.new ≡ raised (reads self.old) }

        // What a read leaves alone.
        ensures open { is_open self.new ≡ is_open self.old }
        ensures open_faults { (name : List ℕ) → open_faults self.new name ≡ open_faults self.old name }
        ensures contents { (name : List ℕ) → contents self.new name ≡ contents self.old name };
}
