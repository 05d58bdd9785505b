//! What to measure, as the words of the command say.
ghost use Rattle.std.specs.Prelude.{◌<◌, ◌≤◌};

/// The object, and the pair of calls on it.
#[derive(Clone, Copy)]
pub enum What {
    /// A mutex's `lock` and `unlock`.
    Mutex,
    /// A reader/writer lock's `r_lock` and `r_unlock`.
    Read,
    /// A reader/writer lock's `lock` and `unlock`.
    Write,
    /// A wait group's `add` of 1 and `done`.
    Group,
    /// One `do_once` of a once that has been run.
    Once,
    /// A pool's `put` and `get`.
    Pool,
    /// A semaphore's `acquire` and `release` of weight 1.
    Sema(Room),
    /// A group's `begin`, and the `land` where the caller leads a flight.
    Flight(Keys),
    /// A call on a map or an int64 that take turns.
    Plain(Call),
    /// A call on a map or an int64 on words.
    Table(Call),
}

/// How many callers a semaphore has room for.
#[derive(Clone, Copy)]
pub enum Room {
    /// All of them, so nobody waits.
    All,
    /// One.
    One,
}

/// Which keys callers come for.
#[derive(Clone, Copy)]
pub enum Keys {
    /// Each for its own, so it leads a flight of its own. Its work is nothing.
    Own,
    /// All for one. The work takes some microseconds, so that others join.
    One,
}

/// The call on a shared map or atomic.
#[derive(Clone, Copy)]
pub enum Call {
    /// One load of a map.
    Load,
    /// One store to a map.
    Store,
    /// One store and one delete.
    Churn,
    /// Two stores and two deletes, of keys whose paths differ at their last nibble alone.
    Path,
    /// One call on a map: many keys are stored one after the other, and then deleted one after the other.
    Wide,
    /// One call on a map: each tenth is a store, and the others are loads.
    Mix,
    /// One `add` to an int64.
    Add,
}

/// The words of what is measured.
const WHATS: [(&str, What); 23] = [
    ("mutex", What::Mutex),
    ("read", What::Read),
    ("write", What::Write),
    ("group", What::Group),
    ("once", What::Once),
    ("pool", What::Pool),
    ("sema", What::Sema(Room::All)),
    ("sema-one", What::Sema(Room::One)),
    ("flight", What::Flight(Keys::Own)),
    ("flight-joined", What::Flight(Keys::One)),
    ("plain-load", What::Plain(Call::Load)),
    ("plain-store", What::Plain(Call::Store)),
    ("plain-churn", What::Plain(Call::Churn)),
    ("plain-wide", What::Plain(Call::Wide)),
    ("plain-mix", What::Plain(Call::Mix)),
    ("plain-add", What::Plain(Call::Add)),
    ("trie-load", What::Table(Call::Load)),
    ("trie-store", What::Table(Call::Store)),
    ("trie-churn", What::Table(Call::Churn)),
    ("trie-path", What::Table(Call::Path)),
    ("trie-wide", What::Table(Call::Wide)),
    ("trie-mix", What::Table(Call::Mix)),
    ("word-add", What::Table(Call::Add)),
];

/// What stands beside a word.
fn of_word<T: Copy>(word: &str, rows: &[(&str, T)]) -> Option<T> {
    for (name, meaning) in rows {
        if *name == word {
            return Some(*meaning);
        }
    }
    None
}

/// How many threads call, each as one caller.
#[derive(Clone, Copy)]
pub enum How {
    /// So many threads, each on an object of its own.
    Own(usize),
    /// So many threads on one object.
    Shared(usize),
}

/// The words of how many threads call.
const HOWS: [(&str, How); 6] = [
    ("one", How::Own(1)),
    ("two-own", How::Own(2)),
    ("four-own", How::Own(4)),
    ("two-shared", How::Shared(2)),
    ("four-shared", How::Shared(4)),
    ("eight-shared", How::Shared(8)),
];

impl How {
    /// How many threads call on one object, and at most 8.
    pub fn callers(self) -> usize
        ensures { (0 < result) × (result ≤ 8) }
    {
        match self {
            How::Own(_) => 1,
            How::Shared(threads) => threads.clamp(1, 8),
        }
    }
}

/// The notes of the callers.
#[derive(Clone, Copy)]
pub enum Notes {
    /// `FrontNote`: 64 counts.
    Front,
    /// `NoNote`, which carries nothing.
    Empty,
}

/// The words of the notes.
const NOTES: [(&str, Notes); 2] = [("front", Notes::Front), ("empty", Notes::Empty)];

/// The clock that the calls read.
#[derive(Clone, Copy)]
pub enum Reads {
    /// The machine's clock.
    Machine,
    /// A clock that stands, which costs nothing.
    Standing,
}

/// The words of the clocks.
const CLOCKS: [(&str, Reads); 2] = [("machine", Reads::Machine), ("standing", Reads::Standing)];

/// One measurement.
#[derive(Clone, Copy)]
pub struct Plan {
    pub what: What,
    pub how: How,
    pub notes: Notes,
    pub reads: Reads,
    /// How many callers each object has, whether they call or not: 4 to 64. Maps and atomics have one for each thread.
    pub callers: u32,
    /// How many pairs each thread makes: 1 to 100,000.
    pub rounds: u32,
    /// How many stores and deletes each thread makes at most: 0 to 100,000.
    pub stores: u32,
    ghost sized: { (4 ≤ callers) × (callers ≤ 64) },
    ghost runs: { (0 < rounds) × (rounds ≤ 100_000) },
    ghost few: { stores ≤ 100_000 },
}

// How many stores and deletes so many pairs make at most.
fn stores_of(what: What, rounds: u32) -> u32
    requires { rounds ≤ 100_000 }
{
    match what {
        What::Plain(call) | What::Table(call) => match call {
            Call::Load | Call::Add => 0,
            Call::Store | Call::Mix | Call::Wide => rounds,
            Call::Churn => 2 * rounds,
            Call::Path => 4 * rounds,
        },
        _ => 0,
    }
}

/// The measurement that the words after the program's name ask for, where they are taken.
pub fn plan_of(words: &[String]) -> Option<Plan> {
    let [what, how, notes, reads, callers, rounds] = words else {
        return None;
    };
    let what = of_word(what.as_str(), &WHATS)?;
    let how = of_word(how.as_str(), &HOWS)?;
    let notes = of_word(notes.as_str(), &NOTES)?;
    let reads = of_word(reads.as_str(), &CLOCKS)?;
    let callers: u32 = callers.parse().ok()?;
    let rounds: u32 = rounds.parse().ok()?;
    if callers < 4 || 64 < callers || rounds == 0 || 100_000 < rounds {
        return None;
    }
    let stores = stores_of(what, rounds);
    if (callers as usize) < how.callers() || 100_000 < stores {
        return None;
    }
    Some(Plan {
        what,
        how,
        notes,
        reads,
        callers,
        rounds,
        stores,
    })
}
