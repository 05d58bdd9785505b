//! The objects that a workload declares.
ghost use Rattle.std.specs.Prelude.{◌≡◌, ◌≤◌, length, slice_get};
ghost use Rattle.workload.specs.Canonical.{name_of};
ghost use Rattle.workload.specs.KeywordWords.{object_word};
ghost use Rattle.workload.specs.Plan.{word_of};

use sync_types::{AtomicKind, Name};

/// What an object is, with what its line says of it.
#[derive(Clone, Copy, Debug, PartialEq, Eq)]
pub enum ObjectKind {
    /// A map, which is empty at the start.
    Map,
    /// An atomic of this type, which is 0 or false at the start.
    Atomic(AtomicKind),
    /// A mutex, which is unlocked at the start.
    Mutex,
    /// A reader/writer mutex, which is unlocked at the start.
    RwMutex,
    /// A cond, whose `L` is the mutex at this place among the objects.
    Cond { mutex: usize },
    /// A wait group, whose counter is this at the start, 0 to 10,000.
    WaitGroup { start: u32 },
    /// A once, whose function adds this amount, -10,000 to 10,000, to the int64 at this place.
    Once { atomic: usize, delta: i64 },
    /// A function made by `OnceFunc`, which fails with this code, 1 to 1,000, or succeeds where it is 0.
    OnceFunc { code: u32 },
    /// A function made by `OnceValue`, which gives this value, 0 to 2^63 - 1.
    OnceValue { value: u64 },
    /// A pool, which is empty at the start. A new item of it is 0.
    Pool,
    /// A weighted semaphore of this size, 1 to 1,000,000, of which nothing is held at the start.
    Sema { size: u64 },
    /// A group of flights, whose function adds this amount, -10,000 to 10,000, to the int64 at this place.
    Flight { atomic: usize, delta: i64 },
    /// A plain variable, which is 0 at the start. Only race texts have any.
    Var,
}

/// The word that the line of an object begins with. Objects with one word have the same calls, and
/// count together, as the atomics of all types do.
#[derive(Clone, Copy, PartialEq, Eq)]
pub enum ObjectWord {
    Map,
    Atomic(AtomicKind),
    Mutex,
    RwMutex,
    Cond,
    WaitGroup,
    Once,
    OnceFunc,
    OnceValue,
    Pool,
    Sema,
    Flight,
    Var,
}

/// An object as a workload declares it.
#[derive(Drop)]
pub struct ObjectLine {
    /// The object's name, which no other object has.
    pub name: Name,
    /// What the object is.
    pub kind: ObjectKind,
}

/// Where an object is declared, and what it is.
#[derive(Clone, Copy)]
pub struct Declared {
    /// The object's place in order of declaration, from 0.
    pub place: usize,
    /// What the object is.
    pub kind: ObjectKind,
}

impl ObjectWord {
    /// The text of the word.
    pub fn text(self) -> &'static [u8]
        ensures { result.now ≡ object_word self }
    {
        match self {
            ObjectWord::Map => b"map",
            ObjectWord::Atomic(AtomicKind::Int32) => b"int32",
            ObjectWord::Atomic(AtomicKind::Int64) => b"int64",
            ObjectWord::Atomic(AtomicKind::Uint32) => b"uint32",
            ObjectWord::Atomic(AtomicKind::Uint64) => b"uint64",
            ObjectWord::Atomic(AtomicKind::Bool) => b"bool",
            ObjectWord::Mutex => b"mutex",
            ObjectWord::RwMutex => b"rwmutex",
            ObjectWord::Cond => b"cond",
            ObjectWord::WaitGroup => b"waitgroup",
            ObjectWord::Once => b"once",
            ObjectWord::OnceFunc => b"oncefunc",
            ObjectWord::OnceValue => b"oncevalue",
            ObjectWord::Pool => b"pool",
            ObjectWord::Sema => b"sema",
            ObjectWord::Flight => b"flight",
            ObjectWord::Var => b"var",
        }
    }
}

impl ObjectKind {
    /// The word of the object's line.
    pub fn word(self) -> ObjectWord
        ensures { result ≡ word_of self }
    {
        match self {
            ObjectKind::Map => ObjectWord::Map,
            ObjectKind::Atomic(kind) => ObjectWord::Atomic(kind),
            ObjectKind::Mutex => ObjectWord::Mutex,
            ObjectKind::RwMutex => ObjectWord::RwMutex,
            ObjectKind::Cond { .. } => ObjectWord::Cond,
            ObjectKind::WaitGroup { .. } => ObjectWord::WaitGroup,
            ObjectKind::Once { .. } => ObjectWord::Once,
            ObjectKind::OnceFunc { .. } => ObjectWord::OnceFunc,
            ObjectKind::OnceValue { .. } => ObjectWord::OnceValue,
            ObjectKind::Pool => ObjectWord::Pool,
            ObjectKind::Sema { .. } => ObjectWord::Sema,
            ObjectKind::Flight { .. } => ObjectWord::Flight,
            ObjectKind::Var => ObjectWord::Var,
        }
    }
}

/// The name of the object at a place, or nothing where there is none.
pub fn name_at(objects: &[ObjectLine], place: usize) -> &[u8]
    ensures name { result.now ≡ name_of (slice_get objects.now place) }
    ensures short { length result.now ≤ 32 }
{
    match objects.get(place) {
        None => &[],
        Some(object) => object.name.as_bytes(),
    }
}
