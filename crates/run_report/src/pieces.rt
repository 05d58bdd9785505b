//! A text in pieces.
ghost use Rattle.std.specs.Prelude.{◌≤◌, length, OnOk, OnErr};
ghost use Rattle.std.specs.List.{flat_map};
ghost use Rattle.sync_outside.specs.Bytes.{Appends, AppendsFront};
ghost use Rattle.sync_outside.specs.Faults.{Rose};

use sync_outside::{Failed, Sink};

/// Writes pieces of text, up to the first that fails.
pub fn write_pieces<O: Sink>(out: &mut O, pieces: &[&[u8]]) -> Result<(), Failed>
    ensures ok { OnOk result (Appends (O.contents out.old) (O.contents out.new) (flat_map (λ piece. piece.now) pieces.now)) }
    ensures err { OnErr result (AppendsFront (O.contents out.old) (O.contents out.new) (flat_map (λ piece. piece.now) pieces.now)) }
    ensures failed { OnErr result (Rose (O.faults out.old) (O.faults out.new)) }
    ensures faults { O.faults out.old ≤ O.faults out.new }
{
    for piece in pieces {
        out.write(piece)?;
    }
    Ok(())
}
