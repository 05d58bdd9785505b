//! A sink in memory.
ghost use Rattle.std.specs.Prelude.{◌≡◌, ◌-◌, ◌+◌, [], ◌≤◌, ◌↔◌, IsTrue, IsErr, IfOk, OnOk, OnErr, Some, vec_len, vec_capacity};
ghost use Rattle.sync_outside.specs.Bytes.{Appends, AppendsFront};
ghost use Rattle.sync_outside.specs.Faults.{Rose, raised};
ghost use Rattle.sync_outside.specs.Memory.{Taken, refuses, after_write};

use crate::count::Count;
use crate::failing_calls::FailingCalls;
use crate::fault::Failed;
use crate::sink::Sink;
use std::alloc::{AllocError, Global};
use std::marker::Model;

/// Bytes in memory, and writes that fail as they are told to.
///
/// The writes are counted from 1, and those with the given numbers fail, as does one past the room.
/// A write that fails takes nothing.
#[derive(Drop)]
pub struct MemSink {
    bytes: Vec<u8>,
    calls: FailingCalls,
    room: usize,
    faults: Count,
}

impl Model for MemSink {
    ghost Value = { Taken };

    ghost view = { λ s. record { bytes = s.bytes.items; calls = s.calls; room = s.room; faults = s.faults } };

    ghost invariant = { λ s. vec_len s.bytes + s.room ≤ vec_capacity s.bytes };
}

impl MemSink {
    /// An empty sink with room for this many bytes, and the numbers of the writes that fail.
    pub fn new(alloc: Global, room: usize, failing: Vec<u64>) -> Result<Self, AllocError>
        ensures { IfOk result (λ sink. sink ≡ record {
          bytes = [];
          calls = record { failing = failing.items; made = 0 };
          room = room;
          faults = 0;
        }) }
    {
        Ok(MemSink {
            bytes: Vec::with_capacity(alloc, room)?,
            calls: FailingCalls::new(failing),
            room,
            faults: Count::new(),
        })
    }

    /// The bytes that were written.
    pub fn as_bytes(&self) -> &[u8]
        ensures { result.now ≡ self.now.bytes }
    {
        &self.bytes
    }

    /// How many writes failed.
    pub fn faults(&self) -> u64
        ensures { result ≡ self.now.faults }
    {
        self.faults.get()
    }
}

impl Sink for MemSink {
    ghost contents = { λ s. Some s.bytes };

    ghost faults = { λ s. s.faults };

    ghost writes = { λ s. s.calls.made };

    fn write(&mut self, piece: &[u8]) -> Result<(), Failed>
        // What every sink promises.
        ensures ok { OnOk result (Appends (Some self.old.bytes) (Some self.new.bytes) piece.now) }
        ensures err { OnErr result (AppendsFront (Some self.old.bytes) (Some self.new.bytes) piece.now) }
        ensures failed { OnErr result (Rose self.old.faults self.new.faults) }
        ensures faults { self.old.faults ≤ self.new.faults }
        ensures writes { self.new.calls.made ≡ raised self.old.calls.made }

        // All that it does.
        ensures refused { IsErr result ↔ IsTrue (refuses self.old piece.now) }
        ensures after { self.new ≡ after_write self.old piece.now }
    {
        let fails = self.calls.next_fails();
        if fails || piece.len() > self.room {
            self.faults.raise();
            return Err(Failed);
        }
        self.bytes.extend_from_slice(piece).unwrap();
        self.room -= piece.len();
        Ok(())
    }
}
