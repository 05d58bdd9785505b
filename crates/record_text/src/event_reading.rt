//! The event that a word is.
ghost use Rattle.std.specs.Prelude.{◌≡◌, ◌≤◌, true, length, MatchOption};
ghost use Rattle.workload.specs.KeywordWords.{first_named};
ghost use Rattle.record_text.specs.EventWords.{event_name, event_operand, event_word, is_event};
ghost use Rattle.record_text.specs.Names.{plain_event, plain_events};
ghost use Rattle.record_text.specs.Reading.{IsRead};

use crate::event::EventWord;
use crate::item_line::Whole;
use crate::number::{read_int64, read_key, read_number, read_whole, read_worker};
use crate::word::{read_misuse, split_name};
use sync_types::Misuse;

/// One event of each name; those of mutexes come first, since most lines are theirs.
const EVENTS: [EventWord; 31] = [
    EventWord::Arrive { now: 0 },
    EventWord::Unlock,
    EventWord::Woken { now: 0 },
    EventWord::ReadArrive,
    EventWord::ReadUnlock,
    EventWord::WriteArrive { now: 0 },
    EventWord::WriteUnlock,
    EventWord::WriteWoken { now: 0 },
    EventWord::Leave,
    EventWord::Try,
    EventWord::ReadTry,
    EventWord::WriteTry,
    EventWord::Ticket,
    EventWord::Signal,
    EventWord::Broadcast,
    EventWord::Add {
        amount: Whole::Natural(0),
    },
    EventWord::Wait,
    EventWord::Begin,
    EventWord::End,
    EventWord::Put { item: 0 },
    EventWord::LookOwn,
    EventWord::LookOther,
    EventWord::LookVictim,
    EventWord::Sweep,
    EventWord::Acquire { weight: 0 },
    EventWord::TryAcquire { weight: 0 },
    EventWord::Release { weight: 0 },
    EventWord::Join { key: 0 },
    EventWord::Land { value: 0 },
    EventWord::Start { worker: 0 },
    EventWord::Halt(Misuse::UnlockOfUnlockedMutex),
];

impl EventWord {
    /// What the event's word begins with.
    pub fn name(self) -> &'static [u8]
        ensures name { result.now ≡ event_name self }
        ensures short { length result.now ≤ 11 }
    {
        match self {
            EventWord::Arrive { .. } => b"arrive@",
            EventWord::Try => b"try",
            EventWord::Unlock => b"unlock",
            EventWord::Woken { .. } => b"woken@",
            EventWord::ReadArrive => b"r_arrive",
            EventWord::ReadTry => b"r_try",
            EventWord::ReadUnlock => b"r_unlock",
            EventWord::WriteArrive { .. } => b"w_arrive@",
            EventWord::WriteTry => b"w_try",
            EventWord::WriteWoken { .. } => b"w_woken@",
            EventWord::WriteUnlock => b"w_unlock",
            EventWord::Leave => b"leave",
            EventWord::Ticket => b"ticket",
            EventWord::Signal => b"signal",
            EventWord::Broadcast => b"broadcast",
            EventWord::Add { .. } => b"add=",
            EventWord::Wait => b"wait",
            EventWord::Begin => b"begin",
            EventWord::End => b"end",
            EventWord::Put { .. } => b"put=",
            EventWord::LookOwn => b"look_own",
            EventWord::LookOther => b"look_other",
            EventWord::LookVictim => b"look_victim",
            EventWord::Sweep => b"sweep",
            EventWord::Acquire { .. } => b"acquire=",
            EventWord::TryAcquire { .. } => b"try=",
            EventWord::Release { .. } => b"release=",
            EventWord::Join { .. } => b"join=",
            EventWord::Land { .. } => b"land=",
            EventWord::Start { .. } => b"start=",
            EventWord::Halt(_) => b"halt=",
        }
    }
}

/// The first of some events whose name it is.
fn find_event(events: &[EventWord], name: &[u8]) -> Option<EventWord>
    ensures { result ≡ first_named event_name events.now name.now }
{
    for event in events {
        if name == event.name() {
            return Some(*event);
        }
    }
    None
}

/// The event of the same name with the operand that a word is, in a run of so many workers.
fn with_operand(event: EventWord, operand: &[u8], workers: u32) -> Option<EventWord>
    ensures { MatchOption result
        ((e : EventWord) → is_event workers e ≡ true → plain_event e ≡ plain_event event → event_operand e ≡ operand.now → ⊥)
        (λ e. (is_event workers e ≡ true) × (plain_event e ≡ plain_event event) × (event_operand e ≡ operand.now)) }
{
    match event {
        EventWord::Arrive { .. } => Some(EventWord::Arrive {
            now: read_number(operand)?,
        }),
        EventWord::Woken { .. } => Some(EventWord::Woken {
            now: read_number(operand)?,
        }),
        EventWord::WriteArrive { .. } => Some(EventWord::WriteArrive {
            now: read_number(operand)?,
        }),
        EventWord::WriteWoken { .. } => Some(EventWord::WriteWoken {
            now: read_number(operand)?,
        }),
        EventWord::Add { .. } => Some(EventWord::Add {
            amount: read_whole(operand)?,
        }),
        EventWord::Put { .. } => Some(EventWord::Put {
            item: read_number(operand)?,
        }),
        EventWord::Acquire { .. } => Some(EventWord::Acquire {
            weight: read_number(operand)?,
        }),
        EventWord::TryAcquire { .. } => Some(EventWord::TryAcquire {
            weight: read_number(operand)?,
        }),
        EventWord::Release { .. } => Some(EventWord::Release {
            weight: read_number(operand)?,
        }),
        EventWord::Join { .. } => Some(EventWord::Join {
            key: read_key(operand)?,
        }),
        EventWord::Land { .. } => Some(EventWord::Land {
            value: read_int64(operand)?,
        }),
        EventWord::Start { .. } => Some(EventWord::Start {
            worker: read_worker(operand, workers)?,
        }),
        EventWord::Halt(_) => Some(EventWord::Halt(read_misuse(operand)?)),
        other => {
            if operand.is_empty() {
                Some(other)
            } else {
                None
            }
        }
    }
}

/// The event that a word is, in a run of so many workers.
pub fn read_event(word: &[u8], workers: u32) -> Option<EventWord>
    ensures { IsRead (is_event workers) event_word word.now result }
{
    let (name, operand) = split_name(word);
    let event = find_event(&EVENTS, name)?;
    with_operand(event, operand, workers)
}
