//! The bytes of a file.
ghost use Rattle.std.specs.Prelude.{◌≡◌, ℕ, List, ◌+◌, ◌≤◌, IsTrue, IfOk, OnErr, IsErrOf};
ghost use Rattle.sync_outside.specs.Faults.{Rose};
ghost use Rattle.record_text.specs.declared.limits.TheConstants.{MAX_RECORD};
ghost use Rattle.gosync_call.specs.Input.{IsInputTo, ReadFailed, TakesTo};
ghost use Rattle.gosync_call.specs.declared.input.InputFault.TheVariants as faults;

use std::alloc::{AllocError, Global};
use sync_outside::{Failed, OpenFault, Sources};

/// How many bytes a read asks for at most.
const CHUNK: usize = 4_096;

/// Why the bytes of a file were not read.
#[derive(Clone, Copy)]
pub enum InputFault {
    /// The file can't be opened, or a read failed.
    Failed,
    /// Memory is out.
    Memory,
}

impl From<OpenFault> for InputFault {
    ghost use Rattle.sync_outside.specs.declared.fault.OpenFault.TheVariants as opens;

    ghost from_gives = { λ e f. (e ≡ opens.Failed → f ≡ faults.Failed) × (f ≡ faults.Failed → e ≡ opens.Failed) };

    fn from(fault: OpenFault) -> InputFault {
        match fault {
            OpenFault::Failed => InputFault::Failed,
            OpenFault::Memory => InputFault::Memory,
        }
    }
}

impl From<Failed> for InputFault {
    ghost from_gives = { λ _ f. f ≡ faults.Failed };

    fn from(_fault: Failed) -> InputFault {
        InputFault::Failed
    }
}

impl From<AllocError> for InputFault {
    ghost from_gives = { λ _ f. f ≡ faults.Memory };

    fn from(_fault: AllocError) -> InputFault {
        InputFault::Memory
    }
}

/// Reads the open file to its end, or to one byte past this limit.
///
/// Each read that goes on takes at least one byte, so there are at most as many reads.
fn read_open<S: Sources>(alloc: Global, limit: usize, src: &mut S) -> Result<Vec<u8>, InputFault>
    requires open { IsTrue (S.is_open src.old) }
    requires limit { limit ≤ MAX_RECORD }
    ensures bytes { IfOk result (λ bytes. IsInputTo limit (S.remaining src.old) bytes.items) }
    ensures taken { IfOk result (λ bytes. TakesTo limit (S.remaining src.old) (S.remaining src.new) bytes.items) }
    ensures err { OnErr result ((bytes : List ℕ) × TakesTo limit (S.remaining src.old) (S.remaining src.new) bytes) }
    ensures reads { S.reads src.new ≤ S.reads src.old + (limit + 1) }
    ensures failed { IsErrOf result InputFault.Failed → Rose (S.read_faults src.old) (S.read_faults src.new) }
    ensures read_faults { S.read_faults src.old ≤ S.read_faults src.new }
    ensures open_faults { (name : List ℕ) → S.open_faults src.new name ≡ S.open_faults src.old name }
{
    let mut bytes = Vec::new(alloc);
    let mut chunk = [0; CHUNK];
    while bytes.len() <= limit {
        let room = (limit + 1 - bytes.len()).min(CHUNK);
        let count = src.read(&mut chunk[..room])?;
        if count == 0 {
            return Ok(bytes);
        }
        bytes.extend_from_slice(&chunk[..count])?;
    }
    Ok(bytes)
}

/// Opens a file and reads it to its end, or to one byte past this limit. The longest text that is read is that of a record.
pub fn read_input<S: Sources>(
    alloc: Global,
    limit: usize,
    file: &str,
    src: &mut S,
) -> Result<Vec<u8>, InputFault>
    requires { limit ≤ MAX_RECORD }
    ensures bytes { IfOk result (λ bytes. IsInputTo limit (S.contents src.old file.now) bytes.items) }
    ensures taken { IfOk result (λ bytes. TakesTo limit (S.contents src.old file.now) (S.remaining src.new) bytes.items) }
    ensures reads { S.reads src.new ≤ S.reads src.old + (limit + 1) }
    ensures failed { IsErrOf result InputFault.Failed → ReadFailed (S.open_faults src.old file.now) (S.open_faults src.new file.now) (S.read_faults src.old) (S.read_faults src.new) }
    ensures read_faults { S.read_faults src.old ≤ S.read_faults src.new }
    ensures open_faults { (name : List ℕ) → S.open_faults src.old name ≤ S.open_faults src.new name }
{
    src.open(file)?;
    read_open(alloc, limit, src)
}
