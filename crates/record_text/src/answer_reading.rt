//! The answer that a word is, and whether an event may have it.
ghost use Rattle.std.specs.Prelude.{◌≡◌, ◌≤◌, true, length, MatchOption};
ghost use Rattle.workload.specs.KeywordWords.{first_named};
ghost use Rattle.record_text.specs.AnswerWords.{answer_name, answer_operand, answer_word, cond_row, flight_row, has_answer, is_answer, is_in, mutex_row, once_row, pool_part_row, row_of, rw_mutex_row, sema_row, starts_row, wait_group_row};
ghost use Rattle.record_text.specs.Names.{plain_answer, plain_answers};
ghost use Rattle.record_text.specs.Reading.{IsRead};

use crate::answer::{AnswerRow, AnswerWord};
use crate::event::{EventWord, JournalKind};
use crate::number::{read_int64, read_number, read_worker};
use crate::word::{read_misuse, split_name, truth_word};
use sync_types::Misuse;

/// One answer of each name.
const ANSWERS: [AnswerWord; 26] = [
    AnswerWord::Acquired,
    AnswerWord::Queued,
    AnswerWord::Free,
    AnswerWord::Woke { worker: 0 },
    AnswerWord::Done,
    AnswerWord::Requeued,
    AnswerWord::Still,
    AnswerWord::Handed { worker: 0 },
    AnswerWord::Tried(true),
    AnswerWord::Tried(false),
    AnswerWord::Misused(Misuse::UnlockOfUnlockedMutex),
    AnswerWord::Misused(Misuse::RUnlockOfUnlockedRwMutex),
    AnswerWord::Misused(Misuse::UnlockOfUnlockedRwMutex),
    AnswerWord::Misused(Misuse::NegativeWaitGroupCounter),
    AnswerWord::Misused(Misuse::WaitGroupReused),
    AnswerWord::Misused(Misuse::SemaphoreOverReleased),
    AnswerWord::Run,
    AnswerWord::Ran,
    AnswerWord::Item { item: 0 },
    AnswerWord::Nothing,
    AnswerWord::Refused,
    AnswerWord::Lead,
    AnswerWord::Left { value: 0 },
    AnswerWord::Go,
    AnswerWord::Never,
    AnswerWord::Halted(Misuse::UnlockOfUnlockedMutex),
];

impl AnswerWord {
    /// What the answer's word begins with.
    pub fn name(self) -> &'static [u8]
        ensures name { result.now ≡ answer_name self }
        ensures short { length result.now ≤ 8 }
    {
        match self {
            AnswerWord::Acquired => b"acquired",
            AnswerWord::Queued => b"queued",
            AnswerWord::Requeued => b"requeued",
            AnswerWord::Still => b"still",
            AnswerWord::Tried(taken) => truth_word(taken),
            AnswerWord::Free => b"free",
            AnswerWord::Woke { .. } => b"woke=",
            AnswerWord::Handed { .. } => b"handed=",
            AnswerWord::Misused(Misuse::UnlockOfUnlockedMutex) => b"m1",
            AnswerWord::Misused(Misuse::RUnlockOfUnlockedRwMutex) => b"m2",
            AnswerWord::Misused(Misuse::UnlockOfUnlockedRwMutex) => b"m3",
            AnswerWord::Misused(Misuse::NegativeWaitGroupCounter) => b"m4",
            AnswerWord::Misused(Misuse::WaitGroupReused) => b"m5",
            AnswerWord::Misused(Misuse::SemaphoreOverReleased) => b"m6",
            AnswerWord::Done => b"ok",
            AnswerWord::Run => b"run",
            AnswerWord::Ran => b"done",
            AnswerWord::Item { .. } => b"item=",
            AnswerWord::Nothing => b"none",
            AnswerWord::Refused => b"refused",
            AnswerWord::Lead => b"lead",
            AnswerWord::Left { .. } => b"left=",
            AnswerWord::Go => b"go",
            AnswerWord::Never => b"never",
            AnswerWord::Halted(_) => b"halted=",
        }
    }
}

impl AnswerRow {
    /// Whether an answer is one of the row.
    pub fn has(self, answer: AnswerWord) -> bool
        ensures { result ≡ is_in self answer }
    {
        match (self, answer) {
            (AnswerRow::Halt, AnswerWord::Done) => true,
            (AnswerRow::Halt, _) => false,
            (_, AnswerWord::Halted(_)) => true,
            (AnswerRow::Arrival, AnswerWord::Acquired | AnswerWord::Queued) => true,
            (AnswerRow::Trial, AnswerWord::Tried(_)) => true,
            (
                AnswerRow::MutexUnlock,
                AnswerWord::Free
                | AnswerWord::Woke { .. }
                | AnswerWord::Handed { .. }
                | AnswerWord::Misused(Misuse::UnlockOfUnlockedMutex),
            ) => true,
            (
                AnswerRow::MutexWoken,
                AnswerWord::Acquired | AnswerWord::Requeued | AnswerWord::Still,
            ) => true,
            (
                AnswerRow::ReadUnlock,
                AnswerWord::Done | AnswerWord::Misused(Misuse::RUnlockOfUnlockedRwMutex),
            ) => true,
            (
                AnswerRow::WriteUnlock,
                AnswerWord::Done | AnswerWord::Misused(Misuse::UnlockOfUnlockedRwMutex),
            ) => true,
            (
                AnswerRow::WriteWoken,
                AnswerWord::Acquired
                | AnswerWord::Queued
                | AnswerWord::Requeued
                | AnswerWord::Still,
            ) => true,
            (AnswerRow::Leaving, AnswerWord::Done | AnswerWord::Still) => true,
            (AnswerRow::Made, AnswerWord::Done) => true,
            (
                AnswerRow::Addition,
                AnswerWord::Done | AnswerWord::Misused(Misuse::NegativeWaitGroupCounter),
            ) => true,
            (AnswerRow::Waiting, AnswerWord::Done | AnswerWord::Queued) => true,
            (
                AnswerRow::GroupLeaving,
                AnswerWord::Done | AnswerWord::Misused(Misuse::WaitGroupReused) | AnswerWord::Still,
            ) => true,
            (AnswerRow::Beginning, AnswerWord::Run | AnswerWord::Queued | AnswerWord::Ran) => true,
            (AnswerRow::Look, AnswerWord::Item { .. } | AnswerWord::Nothing) => true,
            (AnswerRow::WeightTrial, AnswerWord::Done | AnswerWord::Refused) => true,
            (
                AnswerRow::WeightRelease,
                AnswerWord::Done | AnswerWord::Misused(Misuse::SemaphoreOverReleased),
            ) => true,
            (AnswerRow::Joining, AnswerWord::Lead | AnswerWord::Queued) => true,
            (AnswerRow::FlightLeaving, AnswerWord::Left { .. } | AnswerWord::Still) => true,
            (AnswerRow::StartLeaving, AnswerWord::Go | AnswerWord::Never | AnswerWord::Still) => {
                true
            }
            _ => false,
        }
    }
}

/// The first of some answers whose name it is.
fn find_answer(answers: &[AnswerWord], name: &[u8]) -> Option<AnswerWord>
    ensures { result ≡ first_named answer_name answers.now name.now }
{
    for answer in answers {
        if name == answer.name() {
            return Some(*answer);
        }
    }
    None
}

/// The answer of the same name with the operand that a word is, in a run of so many workers.
fn with_operand(answer: AnswerWord, operand: &[u8], workers: u32) -> Option<AnswerWord>
    ensures { MatchOption result
        ((a : AnswerWord) → is_answer workers a ≡ true → plain_answer a ≡ plain_answer answer → answer_operand a ≡ operand.now → ⊥)
        (λ a. (is_answer workers a ≡ true) × (plain_answer a ≡ plain_answer answer) × (answer_operand a ≡ operand.now)) }
{
    match answer {
        AnswerWord::Woke { .. } => Some(AnswerWord::Woke {
            worker: read_worker(operand, workers)?,
        }),
        AnswerWord::Handed { .. } => Some(AnswerWord::Handed {
            worker: read_worker(operand, workers)?,
        }),
        AnswerWord::Item { .. } => Some(AnswerWord::Item {
            item: read_number(operand)?,
        }),
        AnswerWord::Left { .. } => Some(AnswerWord::Left {
            value: read_int64(operand)?,
        }),
        AnswerWord::Halted(_) => Some(AnswerWord::Halted(read_misuse(operand)?)),
        other => {
            if operand.is_empty() {
                Some(other)
            } else {
                None
            }
        }
    }
}

/// The answer that a word is, in a run of so many workers.
pub fn read_answer(word: &[u8], workers: u32) -> Option<AnswerWord>
    ensures { IsRead (is_answer workers) answer_word word.now result }
{
    let (name, operand) = split_name(word);
    let answer = find_answer(&ANSWERS, name)?;
    with_operand(answer, operand, workers)
}

/// The answers that an event of a mutex may have.
fn mutex_row(event: EventWord) -> Option<AnswerRow>
    ensures { result ≡ mutex_row event }
{
    match event {
        EventWord::Arrive { .. } => Some(AnswerRow::Arrival),
        EventWord::Try => Some(AnswerRow::Trial),
        EventWord::Unlock => Some(AnswerRow::MutexUnlock),
        EventWord::Woken { .. } => Some(AnswerRow::MutexWoken),
        _ => None,
    }
}

/// Those that an event of a reader/writer mutex may have.
fn rw_mutex_row(event: EventWord) -> Option<AnswerRow>
    ensures { result ≡ rw_mutex_row event }
{
    match event {
        EventWord::ReadArrive | EventWord::WriteArrive { .. } => Some(AnswerRow::Arrival),
        EventWord::ReadTry | EventWord::WriteTry => Some(AnswerRow::Trial),
        EventWord::ReadUnlock => Some(AnswerRow::ReadUnlock),
        EventWord::WriteUnlock => Some(AnswerRow::WriteUnlock),
        EventWord::WriteWoken { .. } => Some(AnswerRow::WriteWoken),
        EventWord::Leave => Some(AnswerRow::Leaving),
        _ => None,
    }
}

/// Those that an event of a cond may have.
fn cond_row(event: EventWord) -> Option<AnswerRow>
    ensures { result ≡ cond_row event }
{
    match event {
        EventWord::Ticket | EventWord::Signal | EventWord::Broadcast => Some(AnswerRow::Made),
        EventWord::Leave => Some(AnswerRow::Leaving),
        _ => None,
    }
}

/// Those that an event of a wait group may have.
fn wait_group_row(event: EventWord) -> Option<AnswerRow>
    ensures { result ≡ wait_group_row event }
{
    match event {
        EventWord::Add { .. } => Some(AnswerRow::Addition),
        EventWord::Wait => Some(AnswerRow::Waiting),
        EventWord::Leave => Some(AnswerRow::GroupLeaving),
        _ => None,
    }
}

/// Those that an event of a once may have.
fn once_row(event: EventWord) -> Option<AnswerRow>
    ensures { result ≡ once_row event }
{
    match event {
        EventWord::Begin => Some(AnswerRow::Beginning),
        EventWord::End => Some(AnswerRow::Made),
        EventWord::Leave => Some(AnswerRow::Leaving),
        _ => None,
    }
}

/// Those that an event of a part of a pool may have.
fn pool_part_row(event: EventWord) -> Option<AnswerRow>
    ensures { result ≡ pool_part_row event }
{
    match event {
        EventWord::Put { .. } | EventWord::Sweep => Some(AnswerRow::Made),
        EventWord::LookOwn | EventWord::LookOther | EventWord::LookVictim => Some(AnswerRow::Look),
        _ => None,
    }
}

/// Those that an event of a weighted semaphore may have.
fn sema_row(event: EventWord) -> Option<AnswerRow>
    ensures { result ≡ sema_row event }
{
    match event {
        EventWord::Acquire { .. } => Some(AnswerRow::Waiting),
        EventWord::TryAcquire { .. } => Some(AnswerRow::WeightTrial),
        EventWord::Release { .. } => Some(AnswerRow::WeightRelease),
        EventWord::Leave => Some(AnswerRow::Leaving),
        _ => None,
    }
}

/// Those that an event of a group of flights may have.
fn flight_row(event: EventWord) -> Option<AnswerRow>
    ensures { result ≡ flight_row event }
{
    match event {
        EventWord::Join { .. } => Some(AnswerRow::Joining),
        EventWord::Land { .. } => Some(AnswerRow::Trial),
        EventWord::Leave => Some(AnswerRow::FlightLeaving),
        _ => None,
    }
}

/// Those that an event of Starts may have.
fn starts_row(event: EventWord) -> Option<AnswerRow>
    ensures { result ≡ starts_row event }
{
    match event {
        EventWord::Start { .. } | EventWord::End => Some(AnswerRow::Made),
        EventWord::Leave => Some(AnswerRow::StartLeaving),
        _ => None,
    }
}

impl JournalKind {
    /// The answers that an event may have in a journal of this kind, if it may stand there.
    pub fn row(self, event: EventWord) -> Option<AnswerRow>
        ensures { result ≡ row_of self event }
    {
        if let JournalKind::Empty = self {
            return None;
        }
        if let EventWord::Halt(_) = event {
            return Some(AnswerRow::Halt);
        }
        match self {
            JournalKind::Empty | JournalKind::Stop => None,
            JournalKind::Mutex => mutex_row(event),
            JournalKind::RwMutex => rw_mutex_row(event),
            JournalKind::Cond => cond_row(event),
            JournalKind::WaitGroup => wait_group_row(event),
            JournalKind::Once => once_row(event),
            JournalKind::PoolPart => pool_part_row(event),
            JournalKind::Sema => sema_row(event),
            JournalKind::Flight => flight_row(event),
            JournalKind::Starts => starts_row(event),
        }
    }

    /// Whether a journal of this kind may have the event with the answer.
    pub fn has_answer(self, event: EventWord, answer: AnswerWord) -> bool
        ensures { result ≡ has_answer self event answer }
    {
        match self.row(event) {
            None => false,
            Some(row) => row.has(answer),
        }
    }
}
