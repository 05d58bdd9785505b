//! What was done on an object, as the line of an entry says it.
use crate::item_line::Whole;
use sync_types::Misuse;

/// What the journals of an object may have. Objects of one kind have the same events.
#[derive(Clone, Copy, Debug, PartialEq, Eq)]
pub enum JournalKind {
    /// No entries: a map, an atomic, and a pool at its own place.
    Empty,
    /// Stop, which is halted and does nothing else.
    Stop,
    Mutex,
    RwMutex,
    Cond,
    WaitGroup,
    /// A once, or a function made by `OnceFunc` or `OnceValue`.
    Once,
    /// A part of a pool.
    PoolPart,
    Sema,
    /// A group of flights.
    Flight,
    /// Starts, on which workers start each other.
    Starts,
}

/// What was done on an object, in the word of its line. Objects of several kinds may have one word.
#[derive(Clone, Copy, Debug, PartialEq, Eq)]
pub enum EventWord {
    /// `arrive@T`, of a mutex: `Lock` begins at this moment.
    Arrive { now: u64 },
    /// `try`, of a mutex.
    Try,
    /// `unlock`, of a mutex.
    Unlock,
    /// `woken@T`, of a mutex.
    Woken { now: u64 },
    /// `r_arrive`, of a reader/writer mutex.
    ReadArrive,
    /// `r_try`.
    ReadTry,
    /// `r_unlock`.
    ReadUnlock,
    /// `w_arrive@T`.
    WriteArrive { now: u64 },
    /// `w_try`.
    WriteTry,
    /// `w_woken@T`.
    WriteWoken { now: u64 },
    /// `w_unlock`.
    WriteUnlock,
    /// `leave`, of all who were waiting but for a mutex.
    Leave,
    /// `ticket`, of a cond.
    Ticket,
    /// `signal`.
    Signal,
    /// `broadcast`.
    Broadcast,
    /// `add=D`, of a wait group.
    Add { amount: Whole },
    /// `wait`.
    Wait,
    /// `begin`, of a once.
    Begin,
    /// `end`, of a once or of Starts.
    End,
    /// `put=V`, of a part of a pool.
    Put { item: u64 },
    /// `look_own`.
    LookOwn,
    /// `look_other`.
    LookOther,
    /// `look_victim`.
    LookVictim,
    /// `sweep`.
    Sweep,
    /// `acquire=W`, of a weighted semaphore.
    Acquire { weight: u64 },
    /// `try=W`.
    TryAcquire { weight: u64 },
    /// `release=W`.
    Release { weight: u64 },
    /// `join=N`, of a group of flights: a key by its number among the workload's.
    Join { key: u32 },
    /// `land=X`.
    Land { value: i64 },
    /// `start=I`, of Starts.
    Start { worker: u32 },
    /// `halt=M`.
    Halt(Misuse),
}
