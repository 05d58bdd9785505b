//! A sink over a writer of std.
ghost use Rattle.std.specs.Prelude.{◌≡◌, ◌<◌, ◌≤◌, length, None, IfOk, OnOk, OnErr};
ghost use Rattle.std.specs.Io.KnownBytes.{WriteAppends};
ghost use Rattle.std.specs.Io.KnownBytes as known;
ghost use Rattle.sync_outside.specs.Bytes.{Appends};
ghost use Rattle.sync_outside.specs.Faults.{Rose, raised, count_after};
ghost use Rattle.system_io.specs.System.{AppendsSome};

use std::io::{ErrorKind, Write};
use std::marker::Model;
use sync_outside::{Count, Failed, Sink};

/// Standard output, standard error or another writer. As a sink it tells nothing of its bytes.
#[derive(Drop)]
pub struct WriterSink<W> {
    writer: W,
    faults: Count,
    writes: Count,
}

impl<W> Model for WriterSink<W> {
    ghost use Rattle.system_io.specs.System.{Output};

    ghost Value = { Output W };

    ghost view = { λ s. record { writer = s.writer; faults = s.faults; writes = s.writes } };
}

impl<W: Write> WriterSink<W> {
    /// A sink that writes to this writer.
    pub fn new(writer: W) -> Self
        ensures { result ≡ record { writer = writer; faults = 0; writes = 0 } }
    {
        WriterSink {
            writer,
            faults: Count::new(),
            writes: Count::new(),
        }
    }

    /// How many writes failed.
    pub fn faults(&self) -> u64
        ensures { result ≡ self.now.faults }
    {
        self.faults.get()
    }
}

impl<W: Write> Sink for WriterSink<W> {
    ghost contents = { λ _. None };

    ghost faults = { λ s. s.faults };

    ghost writes = { λ s. s.writes };

    fn write(&mut self, piece: &[u8]) -> Result<(), Failed>
        // What every sink promises; of its bytes, which it doesn't tell, nothing is left to say.
        ensures failed { OnErr result (Rose self.old.faults self.new.faults) }
        ensures faults { self.old.faults ≤ self.new.faults }
        ensures writes { self.new.writes ≡ raised self.old.writes }

        ensures counted { self.new.faults ≡ count_after result self.old.faults }

        // What becomes of the bytes of a writer that tells them.
        ensures whole { OnOk result (known.Appends (W.contents self.old.writer) (W.contents self.new.writer) piece.now) }
        ensures front { OnErr result (AppendsSome (W.contents self.old.writer) (W.contents self.new.writer) piece.now) }
    {
        self.writes.raise();
        let written = write_whole(&mut self.writer, piece);
        if written.is_err() {
            self.faults.raise();
        }
        written
    }
}

/// Writes the whole piece, in as many writes as it takes.
fn write_whole<W: Write>(writer: &mut W, piece: &[u8]) -> Result<(), Failed>
    ensures ok { OnOk result (known.Appends (W.contents writer.old) (W.contents writer.new) piece.now) }
    ensures err { OnErr result (AppendsSome (W.contents writer.old) (W.contents writer.new) piece.now) }
{
    let mut rest = piece;
    for _ in 0..u64::MAX {
        if rest.is_empty() {
            return Ok(());
        }
        let count = write_once(writer, rest)?;
        rest = &rest[count..];
    }
    Err(Failed)
}

/// Writes once, and answers how many bytes of the piece were taken. A write that takes none fails,
/// and one that a signal cut short is tried again.
fn write_once<W: Write>(writer: &mut W, piece: &[u8]) -> Result<usize, Failed>
    ensures fits { IfOk result (λ n. (0 < n) × (n ≤ length piece.now)) }
    ensures bytes { WriteAppends (W.contents writer.old) (W.contents writer.new) result piece.now }
{
    for _ in 0..u64::MAX {
        match writer.write(piece) {
            Ok(count) => return if count == 0 { Err(Failed) } else { Ok(count) },
            Err(error) => {
                if error.kind() != ErrorKind::Interrupted {
                    return Err(Failed);
                }
            }
        }
    }
    Err(Failed)
}
