//! The objects of a record by the words that name them.
ghost use Rattle.std.specs.Prelude.{◌≡◌, List, [], ◌∷◌, ◌++◌, map, codes, slice_get, IfOk, MatchOption, Some, None};
ghost use Rattle.std.specs.List.{flat_map};
ghost use Rattle.record_text.specs.Journals.{kind_in, kind_of, named_in, named_object, named_part, named_parts, number_named, part_count, word_at};

use crate::event::JournalKind;
use itoa::Buffer;
use name_table::NameTable;
use std::alloc::{AllocError, Global};
use std::marker::Model;
use sync_types::Seq;
use workload::{ObjectKind, ObjectLine, Workload};

/// An object of a record: the word that names it, and what its journal may have.
#[derive(Drop)]
pub struct Named {
    pub word: Seq<u8>,
    pub kind: JournalKind,
}

/// Objects, each with its number: its place among them. A word that names several names the first.
#[derive(Drop)]
pub struct Directory {
    names: Seq<Named>,
    numbers: NameTable<usize>,
}

impl Model for Directory {
    ghost use Rattle.std.specs.Prelude.{◌≡◌, ℕ, List};
    ghost use Rattle.std.specs.FinMap.{get};
    ghost use Rattle.record_text.specs.Journals.{number_named};
    ghost use Rattle.record_text.specs.declared.directory.Named.{Named};

    ghost Value = { List Named };

    ghost view = { λ d. d.names };

    ghost invariant = { λ d. (word : List ℕ) → get d.numbers word ≡ number_named d.names word };
}

/// What the journal of an object of a kind may have.
fn kind_of(kind: ObjectKind) -> JournalKind
    ensures { result ≡ kind_of kind }
{
    match kind {
        ObjectKind::Map | ObjectKind::Atomic(_) | ObjectKind::Pool | ObjectKind::Var => {
            JournalKind::Empty
        }
        ObjectKind::Mutex => JournalKind::Mutex,
        ObjectKind::RwMutex => JournalKind::RwMutex,
        ObjectKind::Cond { .. } => JournalKind::Cond,
        ObjectKind::WaitGroup { .. } => JournalKind::WaitGroup,
        ObjectKind::Once { .. } | ObjectKind::OnceFunc { .. } | ObjectKind::OnceValue { .. } => {
            JournalKind::Once
        }
        ObjectKind::Sema { .. } => JournalKind::Sema,
        ObjectKind::Flight { .. } => JournalKind::Flight,
    }
}

/// How many parts an object has in a run of so many workers.
fn part_count(workers: u32, kind: ObjectKind) -> u32
    ensures { result ≡ part_count workers kind }
{
    match kind {
        ObjectKind::Pool => workers,
        _ => 0,
    }
}

impl Directory {
    /// No objects.
    fn new(alloc: Global) -> Result<Self, AllocError>
        ensures { IfOk result (λ directory. directory ≡ []) }
    {
        Ok(Directory {
            names: Seq::new(alloc),
            numbers: NameTable::new(alloc)?,
        })
    }

    /// Adds an object at the end, whose word names another one.
    fn add_again(self, alloc: Global, word: &[u8], kind: JournalKind) -> Result<Self, AllocError>
        requires { number_named self word.now ≡ None → ⊥ }
        ensures { IfOk result (λ directory. directory ≡ self ++ record { word = word.now; kind = kind } ∷ []) }
    {
        let Directory { mut names, numbers } = self;
        let word = Seq::from_vec(Vec::from_slice(alloc, word)?);
        names.push(Named { word, kind })?;
        Ok(Directory { names, numbers })
    }

    /// Adds an object at the end, whose word names no other one.
    fn add_new(self, alloc: Global, word: &[u8], kind: JournalKind) -> Result<Self, AllocError>
        requires { number_named self word.now ≡ None }
        ensures { IfOk result (λ directory. directory ≡ self ++ record { word = word.now; kind = kind } ∷ []) }
    {
        let Directory {
            mut names,
            mut numbers,
        } = self;
        numbers.insert(alloc, word, names.len())?;
        let word = Seq::from_vec(Vec::from_slice(alloc, word)?);
        names.push(Named { word, kind })?;
        Ok(Directory { names, numbers })
    }

    /// The number of the object that a word names.
    fn number(&self, word: &[u8]) -> Option<usize>
        ensures { result ≡ number_named self.now word.now }
    {
        self.numbers.get(word)
    }

    /// Adds an object at the end.
    fn add(self, alloc: Global, word: &[u8], kind: JournalKind) -> Result<Self, AllocError>
        ensures { IfOk result (λ directory. directory ≡ self ++ record { word = word.now; kind = kind } ∷ []) }
    {
        match self.number(word) {
            None => self.add_new(alloc, word, kind),
            Some(_) => self.add_again(alloc, word, kind),
        }
    }

    /// Adds the objects of a workload.
    fn add_objects(self, alloc: Global, objects: &[ObjectLine]) -> Result<Self, AllocError>
        ensures { IfOk result (λ directory. directory ≡ self ++ map named_object objects.now) }
    {
        let mut directory = self;
        for object in objects {
            directory = directory.add(alloc, object.name.as_bytes(), kind_of(object.kind))?;
        }
        Ok(directory)
    }

    /// Adds a part of a pool.
    fn add_part(self, alloc: Global, object: &ObjectLine, part: u32) -> Result<Self, AllocError>
        ensures { IfOk result (λ directory. directory ≡ self ++ named_part object.now part ∷ []) }
    {
        let mut word = Vec::from_slice(alloc, object.name.as_bytes())?;
        word.push(b'!')?;
        let mut digits = Buffer::new();
        word.extend_from_slice(digits.format(part).as_bytes())?;
        self.add(alloc, &word, JournalKind::PoolPart)
    }

    /// Adds the parts of an object, if it is a pool.
    fn add_parts(self, alloc: Global, object: &ObjectLine, workers: u32) -> Result<Self, AllocError>
        ensures { IfOk result (λ directory. directory ≡ self ++ named_parts workers object.now) }
    {
        let mut directory = self;
        for part in 0..part_count(workers, object.kind) {
            directory = directory.add_part(alloc, object, part)?;
        }
        Ok(directory)
    }

    /// Adds the parts of all pools.
    fn add_pools(
        self,
        alloc: Global,
        objects: &[ObjectLine],
        workers: u32,
    ) -> Result<Self, AllocError>
        ensures { IfOk result (λ directory. directory ≡ self ++ flat_map (named_parts workers) objects.now) }
    {
        let mut directory = self;
        for object in objects {
            directory = directory.add_parts(alloc, object, workers)?;
        }
        Ok(directory)
    }

    /// The objects of a record of the workload.
    pub fn of(alloc: Global, workload: &Workload) -> Result<Self, AllocError>
        ensures { IfOk result (λ directory. directory ≡ named_in workload.now) }
    {
        let objects = workload.objects();
        Directory::new(alloc)?
            .add(alloc, b"!stop", JournalKind::Stop)?
            .add_objects(alloc, objects)?
            .add_pools(alloc, objects, workload.workers())?
            .add(alloc, b"!starts", JournalKind::Starts)
    }

    /// What the journal of the object with a number may have.
    fn kind_at(&self, number: usize) -> Option<JournalKind>
        ensures { result ≡ kind_in (slice_get self.now number) }
    {
        match self.names.as_slice().get(number) {
            None => None,
            Some(named) => Some(named.kind),
        }
    }

    /// The word of the object with a number; nothing, where there is none.
    pub fn word(&self, number: usize) -> &[u8]
        ensures { result.now ≡ word_at self.now number }
    {
        match self.names.as_slice().get(number) {
            None => &[],
            Some(named) => named.word.as_slice(),
        }
    }

    /// The number of the object that a word names, and what its journal may have.
    pub fn find(&self, word: &[u8]) -> Option<(usize, JournalKind)>
        ensures { MatchOption result (number_named self.now word.now ≡ None) (λ found. (number_named self.now word.now ≡ Some found.0) × ((named : Named) × (slice_get self.now found.0 ≡ Some named) × (named.word ≡ word.now) × (named.kind ≡ found.1))) }
    {
        let number = self.number(word)?;
        let kind = self.kind_at(number)?;
        Some((number, kind))
    }
}
