//! The words that a line begins with.
ghost use Rattle.std.specs.Prelude.{◌≡◌, ◌∷◌, ℕ, List};
ghost use Rattle.workload.specs.Dialect.{knows, keyword_in, is_variable_word, is_x_sync_word};
ghost use Rattle.workload.specs.KeywordWords.{verb_word, call_verbs, keyword_word, first_named, keyword_at};

use crate::object::ObjectWord;
use sync_types::AtomicKind;

/// Which words a text may have.
#[derive(Clone, Copy, PartialEq, Eq)]
pub enum Dialect {
    /// Those of `trace` and `check`: all but those of plain variables, weighted semaphores and flights, of which no record tells.
    Plain,
    /// Those of `step` and `run`: all but those of plain variables.
    Runs,
    /// Those of `race`: all but those of weighted semaphores and flights.
    Races,
}

/// What a line's first word announces.
#[derive(Clone, Copy, PartialEq, Eq)]
pub enum Keyword {
    /// The number of workers, which the first line gives.
    Workers,
    /// An object.
    Object(ObjectWord),
    /// Which worker waits to be started.
    Dormant,
    /// Whose calls follow.
    Worker,
    /// Items of the schedule.
    Schedule,
    /// A call.
    Call(Verb),
}

/// The word of a call, which objects of several kinds may have.
#[derive(Clone, Copy, PartialEq, Eq)]
pub enum Verb {
    Load,
    Store,
    /// `los`
    LoadOrStore,
    /// `lad`
    LoadAndDelete,
    Delete,
    Swap,
    /// `cas`
    CompareAndSwap,
    /// `cad`
    CompareAndDelete,
    Clear,
    Range,
    Add,
    And,
    Or,
    Lock,
    Unlock,
    TryLock,
    /// `rlock`
    RLock,
    /// `runlock`
    RUnlock,
    /// `tryrlock`
    TryRLock,
    Wait,
    Signal,
    Broadcast,
    Done,
    Do,
    Call,
    Value,
    Put,
    Get,
    Sweep,
    /// `ifeq`
    IfEqual,
    /// `waitfor`
    WaitFor,
    Go,
    Acquire,
    /// `tryacquire`
    TryAcquire,
    Release,
    Fly,
    /// Of a plain variable, as `write`.
    Read,
    Write,
}

/// What a word of a call behind the object's name stands for.
#[derive(Clone, Copy, PartialEq, Eq)]
pub enum Operand {
    /// A key of a map or of flights.
    Key,
    /// A value of a map, a pool or a plain variable, 0 to 2^63 - 1.
    Value,
    /// A number of an atomic of this type.
    Number(AtomicKind),
    /// An amount for a wait group, -10,000 to 10,000.
    Amount,
    /// How many calls are passed over, 1 to 1,000.
    Passes,
    /// How many waits may be made, 1 to 1,000.
    Tries,
    /// A weight of a semaphore of this size, 1 to the size.
    Weight(u64),
    /// An atomic that is declared before.
    Atomic,
    /// A worker that waits to be started, and that no call starts yet.
    Worker,
}

/// What a word of an object's line behind the object's name stands for.
#[derive(Clone, Copy, PartialEq, Eq)]
pub enum Parameter {
    /// A mutex that is declared before.
    Mutex,
    /// An int64 that is declared before.
    Int64,
    /// A number from 0 to this one.
    Number(u64),
    /// An amount, -10,000 to 10,000.
    Amount,
    /// A size of a semaphore, 1 to 1,000,000.
    Size,
}

/// The keywords other than calls.
const OTHERS: [Keyword; 21] = [
    Keyword::Schedule,
    Keyword::Worker,
    Keyword::Workers,
    Keyword::Dormant,
    Keyword::Object(ObjectWord::Map),
    Keyword::Object(ObjectWord::Atomic(AtomicKind::Int32)),
    Keyword::Object(ObjectWord::Atomic(AtomicKind::Int64)),
    Keyword::Object(ObjectWord::Atomic(AtomicKind::Uint32)),
    Keyword::Object(ObjectWord::Atomic(AtomicKind::Uint64)),
    Keyword::Object(ObjectWord::Atomic(AtomicKind::Bool)),
    Keyword::Object(ObjectWord::Mutex),
    Keyword::Object(ObjectWord::RwMutex),
    Keyword::Object(ObjectWord::Cond),
    Keyword::Object(ObjectWord::WaitGroup),
    Keyword::Object(ObjectWord::Once),
    Keyword::Object(ObjectWord::OnceFunc),
    Keyword::Object(ObjectWord::OnceValue),
    Keyword::Object(ObjectWord::Pool),
    Keyword::Object(ObjectWord::Sema),
    Keyword::Object(ObjectWord::Flight),
    Keyword::Object(ObjectWord::Var),
];

impl Verb {
    /// The word of a call.
    pub fn text(self) -> &'static [u8]
        ensures { result.now ≡ verb_word self }
    {
        match self {
            Verb::Load => b"load",
            Verb::Store => b"store",
            Verb::LoadOrStore => b"los",
            Verb::LoadAndDelete => b"lad",
            Verb::Delete => b"delete",
            Verb::Swap => b"swap",
            Verb::CompareAndSwap => b"cas",
            Verb::CompareAndDelete => b"cad",
            Verb::Clear => b"clear",
            Verb::Range => b"range",
            Verb::Add => b"add",
            Verb::And => b"and",
            Verb::Or => b"or",
            Verb::Lock => b"lock",
            Verb::Unlock => b"unlock",
            Verb::TryLock => b"trylock",
            Verb::RLock => b"rlock",
            Verb::RUnlock => b"runlock",
            Verb::TryRLock => b"tryrlock",
            Verb::Wait => b"wait",
            Verb::Signal => b"signal",
            Verb::Broadcast => b"broadcast",
            Verb::Done => b"done",
            Verb::Do => b"do",
            Verb::Call => b"call",
            Verb::Value => b"value",
            Verb::Put => b"put",
            Verb::Get => b"get",
            Verb::Sweep => b"sweep",
            Verb::IfEqual => b"ifeq",
            Verb::WaitFor => b"waitfor",
            Verb::Go => b"go",
            Verb::Acquire => b"acquire",
            Verb::TryAcquire => b"tryacquire",
            Verb::Release => b"release",
            Verb::Fly => b"fly",
            Verb::Read => b"read",
            Verb::Write => b"write",
        }
    }
}

impl Keyword {
    /// The word that a line begins with.
    pub fn text(self) -> &'static [u8]
        ensures { result.now ≡ keyword_word self }
    {
        match self {
            Keyword::Workers => b"workers",
            Keyword::Object(word) => word.text(),
            Keyword::Dormant => b"dormant",
            Keyword::Worker => b"worker",
            Keyword::Schedule => b"schedule",
            Keyword::Call(verb) => verb.text(),
        }
    }
}

/// The calls whose words begin with a byte.
fn verbs_with(first: u8) -> &'static [Verb]
    ensures { (rest : List ℕ) → first_named verb_word result.now (first ∷ rest) ≡ first_named verb_word call_verbs (first ∷ rest) }
{
    match first {
        b'a' => &[Verb::Add, Verb::And, Verb::Acquire],
        b'b' => &[Verb::Broadcast],
        b'c' => &[
            Verb::CompareAndSwap,
            Verb::CompareAndDelete,
            Verb::Clear,
            Verb::Call,
        ],
        b'd' => &[Verb::Delete, Verb::Done, Verb::Do],
        b'f' => &[Verb::Fly],
        b'g' => &[Verb::Get, Verb::Go],
        b'i' => &[Verb::IfEqual],
        b'l' => &[
            Verb::Load,
            Verb::LoadOrStore,
            Verb::LoadAndDelete,
            Verb::Lock,
        ],
        b'o' => &[Verb::Or],
        b'p' => &[Verb::Put],
        b'r' => &[
            Verb::Range,
            Verb::RLock,
            Verb::RUnlock,
            Verb::Release,
            Verb::Read,
        ],
        b's' => &[Verb::Store, Verb::Swap, Verb::Signal, Verb::Sweep],
        b't' => &[Verb::TryLock, Verb::TryRLock, Verb::TryAcquire],
        b'u' => &[Verb::Unlock],
        b'v' => &[Verb::Value],
        b'w' => &[Verb::Wait, Verb::WaitFor, Verb::Write],
        _ => &[],
    }
}

/// The first of some calls whose word it is.
fn find_verb(verbs: &[Verb], word: &[u8]) -> Option<Verb>
    ensures { result ≡ first_named verb_word verbs.now word.now }
{
    for verb in verbs {
        if word == verb.text() {
            return Some(*verb);
        }
    }
    None
}

/// The call that a word is, if it is one.
fn read_verb(word: &[u8]) -> Option<Verb>
    ensures { result ≡ first_named verb_word call_verbs word.now }
{
    match word.split_first() {
        None => None,
        Some((first, _)) => find_verb(verbs_with(*first), word),
    }
}

/// The first of some keywords whose word it is.
fn find_keyword(keywords: &[Keyword], word: &[u8]) -> Option<Keyword>
    ensures { result ≡ first_named keyword_word keywords.now word.now }
{
    for keyword in keywords {
        if word == keyword.text() {
            return Some(*keyword);
        }
    }
    None
}

/// The keyword that a word is, if it is one in any dialect.
fn find_any(word: &[u8]) -> Option<Keyword>
    ensures { result ≡ keyword_at word.now }
{
    match read_verb(word) {
        Some(verb) => Some(Keyword::Call(verb)),
        None => find_keyword(&OTHERS, word),
    }
}

/// Whether a keyword is one of plain variables.
fn is_variable_word(keyword: Keyword) -> bool
    ensures { result ≡ is_variable_word keyword }
{
    match keyword {
        Keyword::Object(ObjectWord::Var) => true,
        Keyword::Call(Verb::Read | Verb::Write) => true,
        _ => false,
    }
}

/// Whether a keyword is one of weighted semaphores or of flights.
fn is_x_sync_word(keyword: Keyword) -> bool
    ensures { result ≡ is_x_sync_word keyword }
{
    match keyword {
        Keyword::Object(ObjectWord::Sema | ObjectWord::Flight) => true,
        Keyword::Call(Verb::Acquire | Verb::TryAcquire | Verb::Release | Verb::Fly) => true,
        _ => false,
    }
}

/// Whether texts of a dialect may have a keyword.
fn knows(dialect: Dialect, keyword: Keyword) -> bool
    ensures { result ≡ knows dialect keyword }
{
    match dialect {
        Dialect::Plain => !is_variable_word(keyword) && !is_x_sync_word(keyword),
        Dialect::Runs => !is_variable_word(keyword),
        Dialect::Races => !is_x_sync_word(keyword),
    }
}

/// The keyword that a word is in texts of a dialect, if it is one there.
pub fn read_keyword(dialect: Dialect, word: &[u8]) -> Option<Keyword>
    ensures { result ≡ keyword_in dialect word.now }
{
    match find_any(word) {
        Some(keyword) if knows(dialect, keyword) => Some(keyword),
        _ => None,
    }
}
