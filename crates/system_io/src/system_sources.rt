//! Files and standard input.
ghost use Rattle.std.specs.Prelude.{◌≡◌, ℕ, List, false, length, take, ◌<◌, ◌≤◌, ◌↔◌, IsTrue, IsOk, IfOk, OnOk, OnErr, IsErrOf, is_some};
ghost use Rattle.std.specs.Io.KnownBytes.{ReadConsumes, IsAtEnd};
ghost use Rattle.sync_outside.specs.Bytes.{Gives};
ghost use Rattle.sync_outside.specs.Faults.{Rose, raised};
ghost use Rattle.system_io.specs.System.{Inputs, untold, after_open, after_read};

use std::fs;
use std::io::{ErrorKind, Read};
use std::marker::Model;
use std::rt::Files;
use sync_outside::{Count, Failed, OpenFault, Sources};

/// The name of standard input.
pub const STANDARD_INPUT: &str = "-";

/// Files by their paths, and standard input as `-`. They tell nothing of their bytes.
#[derive(Drop)]
pub struct SystemSources<'a, R: Files + Input> {
    rt: &'a R,
    opened: Option<Opened<R::File, R::Reader>>,
    open_faults: Count,
    read_faults: Count,
    reads: Count,
}

#[derive(Drop)]
enum Opened<F, I> {
    File(F),
    StandardInput(I),
}

impl<'a, R: Files + Input> Model for SystemSources<'a, R> {
    ghost Value = { Inputs };

    ghost view = { λ s. record { is_open = is_some s.opened; open_faults = s.open_faults; read_faults = s.read_faults; reads = s.reads } };
}

impl<'a, R: Files + Input> SystemSources<'a, R> {
    /// The runtime's files and standard input, none of them open.
    pub fn new(rt: &'a R) -> Self
        ensures { result ≡ record { is_open = false; open_faults = 0; read_faults = 0; reads = 0 } }
    {
        SystemSources {
            rt,
            opened: None,
            open_faults: Count::new(),
            read_faults: Count::new(),
            reads: Count::new(),
        }
    }

    /// How many opens failed, of all names together.
    pub fn open_faults(&self) -> u64
        ensures { result ≡ self.now.open_faults }
    {
        self.open_faults.get()
    }

    /// How many reads failed.
    pub fn read_faults(&self) -> u64
        ensures { result ≡ self.now.read_faults }
    {
        self.read_faults.get()
    }
}

impl<R: Files + Input> Sources for SystemSources<'_, R> {
    ghost contents = { λ _ _. untold };

    ghost remaining = { λ _. untold };

    ghost is_open = { λ s. s.is_open };

    ghost open_faults = { λ s _. s.open_faults };

    ghost read_faults = { λ s. s.read_faults };

    ghost reads = { λ s. s.reads };

    fn open(&mut self, name: &str) -> Result<(), OpenFault>
        // Of a source that tells no bytes the trait's clause on them says nothing.
        ensures begins { OnOk result (untold ≡ untold) }

        // What every source promises.
        ensures opened { IsTrue self.new.is_open ↔ IsOk result }
        ensures failed { IsErrOf result OpenFault.Failed → Rose self.old.open_faults self.new.open_faults }
        ensures open_faults { List ℕ → self.old.open_faults ≤ self.new.open_faults }
        ensures read_faults { self.new.read_faults ≡ self.old.read_faults }
        ensures reads { self.new.reads ≡ self.old.reads }

        // What becomes of its counts.
        ensures after { self.new ≡ after_open result self.old }
    {
        self.opened = None;
        if name == STANDARD_INPUT {
            self.opened = Some(Opened::StandardInput(self.rt.reader()));
            return Ok(());
        }
        match fs::open(self.rt, name) {
            Ok(file) => {
                self.opened = Some(Opened::File(file));
                Ok(())
            }
            Err(error) => {
                if error.kind() == ErrorKind::OutOfMemory {
                    return Err(OpenFault::Memory);
                }
                self.open_faults.raise();
                Err(OpenFault::Failed)
            }
        }
    }

    fn read(&mut self, buf: &mut [u8]) -> Result<usize, Failed>
        requires { IsTrue self.old.is_open }

        // Of a source that tells no bytes the trait's clauses on them say nothing.
        ensures gives { IfOk result (λ n. Gives untold untold (take n buf.new)) }
        ensures ends { IfOk result (λ n. n ≡ 0 → 0 < length buf.old → IsAtEnd untold) }
        ensures err { OnErr result (untold ≡ untold) }

        // What every source promises.
        ensures fits { IfOk result (λ n. n ≤ length buf.old) }
        ensures failed { OnErr result (Rose self.old.read_faults self.new.read_faults) }
        ensures read_faults { self.old.read_faults ≤ self.new.read_faults }
        ensures reads { self.new.reads ≡ raised self.old.reads }
        ensures open_faults { List ℕ → self.new.open_faults ≡ self.old.open_faults }

        // What becomes of its counts.
        ensures after { self.new ≡ after_read result self.old }
    {
        self.reads.raise();
        let read = match &mut self.opened {
            Some(Opened::File(file)) => read_once(file, buf),
            Some(Opened::StandardInput(reader)) => read_once(reader, buf),
            None => unreachable!(),
        };
        if read.is_err() {
            self.read_faults.raise();
        }
        read
    }
}

/// Reads once. A read that a signal cut short is tried again.
pub fn read_once<I: Read>(input: &mut I, buf: &mut [u8]) -> Result<usize, Failed>
    ensures fits { IfOk result (λ n. n ≤ length buf.old) }
    ensures bytes { ReadConsumes (I.remaining input.old) (I.remaining input.new) result buf.new }
{
    for _ in 0..u64::MAX {
        match input.read(buf) {
            Ok(count) => return Ok(count),
            Err(error) => {
                if error.kind() != ErrorKind::Interrupted {
                    return Err(Failed);
                }
            }
        }
    }
    Err(Failed)
}
