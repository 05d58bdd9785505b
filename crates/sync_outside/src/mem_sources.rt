//! Sources in memory.
ghost use Rattle.std.specs.Prelude.{◌≡◌, ℕ, List, ◌<◌, ◌≤◌, ◌↔◌, length, take, drop, min, IsTrue, IsOk, is_err, IfOk, IfSome, OnOk, OnErr, IsErrOf, None, Some, IsSomeAnd, is_some};
ghost use Rattle.std.specs.Option.{option_map};
ghost use Rattle.std.specs.Io.KnownBytes.{IsAtEnd};
ghost use Rattle.sync_outside.specs.Bytes.{Gives};
ghost use Rattle.sync_outside.specs.Faults.{Rose, raised};
ghost use Rattle.sync_outside.specs.Calls.{fails_next};
ghost use Rattle.sync_outside.specs.Memory.{bytes_of, place_of, open_faults, open_result, after_open, read_count, after_read};

use crate::count::Count;
use crate::failing_calls::FailingCalls;
use crate::fault::{Failed, OpenFault};
use crate::mem_file::MemFile;
use crate::sources::Sources;
use std::marker::Model;

/// A list of files, and calls that fail as they are told to.
///
/// The calls of `open` and `read` are counted together, from 1, and those with the given numbers
/// fail. An open of a name that isn't listed fails too, and raises the count of such names alone.
#[derive(Drop)]
pub struct MemSources {
    files: Vec<MemFile>,
    calls: FailingCalls,
    // The place of the open file in the list, and how many of its bytes were read.
    opened: Option<usize>,
    taken: usize,
    listed_faults: Count,
    unlisted_faults: Count,
    read_faults: Count,
    reads: Count,
}

impl Model for MemSources {
    ghost use Rattle.sync_outside.specs.Memory.{Files, left_of, IsWithin};

    ghost Value = { Files };

    ghost view = { λ s. record {
      listed = s.files.items;
      calls = s.calls;
      left = left_of s.files.items s.opened s.taken;
      listed_faults = s.listed_faults;
      unlisted_faults = s.unlisted_faults;
      read_faults = s.read_faults;
      reads = s.reads;
    } };

    ghost invariant = { λ s. IsWithin s.files.items s.opened s.taken };
}

impl MemSources {
    /// These files, and the numbers of the calls that fail. Of files with one name the first counts.
    pub fn new(files: Vec<MemFile>, failing: Vec<u64>) -> Self
        ensures { result ≡ record {
          listed = files.items;
          calls = record { failing = failing.items; made = 0 };
          left = None;
          listed_faults = 0;
          unlisted_faults = 0;
          read_faults = 0;
          reads = 0;
        } }
    {
        MemSources {
            files,
            calls: FailingCalls::new(failing),
            opened: None,
            taken: 0,
            listed_faults: Count::new(),
            unlisted_faults: Count::new(),
            read_faults: Count::new(),
            reads: Count::new(),
        }
    }

    // The bytes of the open file that were not read yet.
    fn left(&self) -> &[u8]
        requires { IsTrue (is_some self.now.left) }
        ensures { self.now.left ≡ Some result.now }
    {
        let Some(place) = self.opened else {
            unreachable!()
        };
        &self.files[place].as_bytes()[self.taken..]
    }

    // Takes this many of the bytes that are left.
    fn take(&mut self, count: usize)
        requires { IsSomeAnd self.old.left (λ left. count ≤ length left) }
        ensures { self.new ≡ record self.old { left = option_map (drop count) self.old.left } }
    {
        let Some(place) = self.opened else {
            unreachable!()
        };
        let all = self.files[place].as_bytes().len();
        prove!(count <= all - self.taken);
        self.taken += count;
    }
}

impl Sources for MemSources {
    ghost contents = { λ s name. bytes_of s.listed name };

    ghost remaining = { λ s. s.left };

    ghost is_open = { λ s. is_some s.left };

    ghost open_faults = { open_faults };

    ghost read_faults = { λ s. s.read_faults };

    ghost reads = { λ s. s.reads };

    fn open(&mut self, name: &str) -> Result<(), OpenFault>
        // What every source promises.
        ensures opened { IsTrue (is_some self.new.left) ↔ IsOk result }
        ensures begins { OnOk result (self.new.left ≡ bytes_of self.new.listed name.now) }
        ensures failed { IsErrOf result OpenFault.Failed → Rose (open_faults self.old name.now) (open_faults self.new name.now) }
        ensures open_faults { (other : List ℕ) → open_faults self.old other ≤ open_faults self.new other }
        ensures read_faults { self.new.read_faults ≡ self.old.read_faults }
        ensures reads { self.new.reads ≡ self.old.reads }
        ensures contents { (other : List ℕ) → bytes_of self.new.listed other ≡ bytes_of self.old.listed other }

        // All that it does.
        ensures result { result ≡ open_result self.old name.now }
        ensures after { self.new ≡ after_open self.old name.now }
    {
        let fails = self.calls.next_fails();
        self.opened = first_named(&self.files, name);
        self.taken = 0;
        if self.opened.is_none() {
            self.unlisted_faults.raise();
            return Err(OpenFault::Failed);
        }
        if fails {
            self.opened = None;
            self.listed_faults.raise();
            return Err(OpenFault::Failed);
        }
        Ok(())
    }

    fn read(&mut self, buf: &mut [u8]) -> Result<usize, Failed>
        requires { IsTrue (is_some self.old.left) }

        // What every source promises.
        ensures fits { IfOk result (λ n. n ≤ length buf.old) }
        ensures gives { IfOk result (λ n. Gives self.old.left self.new.left (take n buf.new)) }
        ensures ends { IfOk result (λ n. n ≡ 0 → 0 < length buf.old → IsAtEnd self.new.left) }
        ensures err { OnErr result (self.new.left ≡ self.old.left) }
        ensures failed { OnErr result (Rose self.old.read_faults self.new.read_faults) }
        ensures read_faults { self.old.read_faults ≤ self.new.read_faults }
        ensures reads { self.new.reads ≡ raised self.old.reads }
        ensures open { is_some self.new.left ≡ is_some self.old.left }
        ensures open_faults { (name : List ℕ) → open_faults self.new name ≡ open_faults self.old name }
        ensures contents { (name : List ℕ) → bytes_of self.new.listed name ≡ bytes_of self.old.listed name }

        // All that it does.
        ensures fails { is_err result ≡ fails_next self.old.calls }
        ensures count { IfOk result (λ n. n ≡ read_count self.old (length buf.old)) }
        ensures after { self.new ≡ after_read self.old (length buf.old) }
    {
        self.reads.raise();
        if self.calls.next_fails() {
            self.read_faults.raise();
            return Err(Failed);
        }
        let count = copy_front(self.left(), buf);
        self.take(count);
        Ok(count)
    }
}

/// The place of the first file with this name.
fn first_named(files: &[MemFile], name: &str) -> Option<usize>
    ensures place { result ≡ place_of files.now name.now }
    ensures within { IfSome result (λ place. place < length files.now) }
{
    files.iter().position(|file| file.is_named(name))
}

/// Copies as many bytes as there are, or as there is room for, and answers how many.
fn copy_front(from: &[u8], to: &mut [u8]) -> usize
    ensures count { result ≡ min (length from.now) (length to.old) }
    ensures copied { take result to.new ≡ take result from.now }
{
    let count = from.len().min(to.len());
    to[..count].copy_from_slice(&from[..count]);
    count
}
