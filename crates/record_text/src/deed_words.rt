//! The words by which the line of an item says what was done, and what was answered. Their numbers have 64 bits, as those of a program have.
ghost use Rattle.std.specs.Prelude.{◌≡◌, ◌^◌, true, IfSome};
ghost use Rattle.std.specs.Option.{option_map_or};
ghost use Rattle.record_text.specs.AnswerWords.{is_answer};
ghost use Rattle.record_text.specs.EventWords.{is_event};
ghost use Rattle.record_text.specs.ItemLines.{is_reply};
ghost use Rattle.record_text.specs.Numbers.{has_64_bits, is_whole};
ghost use Rattle.record_text.specs.Written.{whole_of, number_reply, atomic_reply, map_reply, mutex_event, rw_event, cond_event, group_event, once_event, pool_event, sema_event, flight_event, start_event, event_of, mutex_answer, rw_answer, cond_answer, group_answer, once_answer, pool_answer, sema_answer, flight_answer, start_answer, answer_of};

use crate::answer::AnswerWord;
use crate::event::EventWord;
use crate::item_line::{PlacedReply, Whole};
use flight_core::{FlightEvent, FlightReply};
use mutex_core::{Arrival, MutexEvent, MutexReply, Resumption, Unlocking};
use pool_core::{PoolEvent, PoolReply};
use run_record::{ObjectEvent, ObjectReply};
use rw_core::{
    Arrival as RwArrival, Resumption as RwResumption, RwEvent, RwReply, Unlocking as RwUnlocking,
};
use sema_core::{SemaEvent, SemaReply};
use starts_core::{StartEvent, StartReply};
use sync_types::{AtomicReply, MapReply, Number};
use wait_cores::{GroupEvent, GroupReply, NotifyEvent, NotifyReply, OnceEvent, OnceReply};

/// A number of a program has 64 bits.
pub fn number_fits(number: u64)
    ensures { has_64_bits number ≡ true }
{}

/// So has the value that a step shows.
pub fn shown_fits(shown: Option<(u32, u64)>)
    ensures { option_map_or (λ pair. has_64_bits pair.1) shown true ≡ true }
{}

fn whole_of(number: i64) -> Whole
    ensures word { result ≡ whole_of number }
    ensures fits { is_whole result ≡ true }
{
    if number < 0 {
        Whole::Below(number.unsigned_abs())
    } else {
        Whole::Natural(number as u64)
    }
}

fn number_reply(number: Number) -> PlacedReply
    ensures word { result ≡ number_reply number }
    ensures fits { is_reply result ≡ true }
{
    match number {
        Number::Int32(number) => PlacedReply::Number(whole_of(number as i64)),
        Number::Int64(number) => PlacedReply::Number(whole_of(number)),
        Number::Uint32(number) => PlacedReply::Number(Whole::Natural(number as u64)),
        Number::Uint64(number) => PlacedReply::Number(Whole::Natural(number)),
        Number::Bool(truth) => PlacedReply::Truth(truth),
    }
}

/// The word of what an atomic replies.
pub fn atomic_reply(reply: AtomicReply) -> PlacedReply
    ensures word { result ≡ atomic_reply reply }
    ensures fits { is_reply result ≡ true }
{
    match reply {
        AtomicReply::Done => PlacedReply::Done,
        AtomicReply::Held(number) => number_reply(number),
        AtomicReply::Compared(is_old) => PlacedReply::Truth(is_old),
    }
}

/// The word of what a map replies.
pub fn map_reply(reply: MapReply) -> PlacedReply
    ensures word { result ≡ map_reply reply }
    ensures fits { is_reply result ≡ true }
{
    match reply {
        MapReply::Done => PlacedReply::Done,
        MapReply::Found(None) => PlacedReply::Absent,
        MapReply::Found(Some(value)) => PlacedReply::Valued {
            value,
            was_there: true,
        },
        MapReply::Settled { value, loaded } => PlacedReply::Valued {
            value,
            was_there: loaded,
        },
        MapReply::Compared(is_old) => PlacedReply::Truth(is_old),
    }
}

fn mutex_event(event: MutexEvent) -> EventWord
    ensures word { result ≡ mutex_event event }
    ensures fits { is_event (2 ^ 64) result ≡ true }
{
    match event {
        MutexEvent::Arrive { now } => EventWord::Arrive { now },
        MutexEvent::Try => EventWord::Try,
        MutexEvent::Unlock => EventWord::Unlock,
        MutexEvent::Woken { now } => EventWord::Woken { now },
    }
}

fn rw_event(event: RwEvent) -> EventWord
    ensures word { result ≡ rw_event event }
    ensures fits { is_event (2 ^ 64) result ≡ true }
{
    match event {
        RwEvent::ReadArrive => EventWord::ReadArrive,
        RwEvent::ReadTry => EventWord::ReadTry,
        RwEvent::ReadUnlock => EventWord::ReadUnlock,
        RwEvent::WriteArrive { now } => EventWord::WriteArrive { now },
        RwEvent::WriteTry => EventWord::WriteTry,
        RwEvent::WriteWoken { now } => EventWord::WriteWoken { now },
        RwEvent::WriteUnlock => EventWord::WriteUnlock,
        RwEvent::Leave => EventWord::Leave,
    }
}

fn cond_event(event: NotifyEvent) -> EventWord
    ensures word { result ≡ cond_event event }
    ensures fits { is_event (2 ^ 64) result ≡ true }
{
    match event {
        NotifyEvent::Ticket => EventWord::Ticket,
        NotifyEvent::Signal => EventWord::Signal,
        NotifyEvent::Broadcast => EventWord::Broadcast,
        NotifyEvent::Leave => EventWord::Leave,
    }
}

fn group_event(event: GroupEvent) -> EventWord
    ensures word { result ≡ group_event event }
    ensures fits { is_event (2 ^ 64) result ≡ true }
{
    match event {
        GroupEvent::Add(delta) => EventWord::Add {
            amount: whole_of(delta as i64),
        },
        GroupEvent::Wait => EventWord::Wait,
        GroupEvent::Leave => EventWord::Leave,
    }
}

fn once_event<T: Copy>(event: OnceEvent<T>) -> EventWord
    ensures word { result ≡ once_event event }
    ensures fits { is_event (2 ^ 64) result ≡ true }
{
    match event {
        OnceEvent::Begin => EventWord::Begin,
        OnceEvent::End(_) => EventWord::End,
        OnceEvent::Leave => EventWord::Leave,
    }
}

fn pool_event(event: PoolEvent<u64>) -> EventWord
    ensures word { result ≡ pool_event event }
    ensures fits { is_event (2 ^ 64) result ≡ true }
{
    match event {
        PoolEvent::Put(item) => EventWord::Put { item },
        PoolEvent::LookOwn => EventWord::LookOwn,
        PoolEvent::LookOther(_) => EventWord::LookOther,
        PoolEvent::LookVictim(_) => EventWord::LookVictim,
        PoolEvent::Sweep => EventWord::Sweep,
    }
}

fn sema_event(event: SemaEvent) -> EventWord
    ensures word { result ≡ sema_event event }
    ensures fits { is_event (2 ^ 64) result ≡ true }
{
    match event {
        SemaEvent::Acquire(weight) => EventWord::Acquire { weight },
        SemaEvent::Try(weight) => EventWord::TryAcquire { weight },
        SemaEvent::Release(weight) => EventWord::Release { weight },
        SemaEvent::Leave => EventWord::Leave,
    }
}

fn flight_event(event: FlightEvent) -> EventWord
    ensures word { result ≡ flight_event event }
    ensures fits { is_event (2 ^ 64) result ≡ true }
{
    match event {
        FlightEvent::Join(key) => EventWord::Join { key },
        FlightEvent::Land(value) => EventWord::Land { value },
        FlightEvent::Leave => EventWord::Leave,
    }
}

fn start_event(event: StartEvent) -> EventWord
    ensures word { result ≡ start_event event }
    ensures fits { is_event (2 ^ 64) result ≡ true }
{
    match event {
        StartEvent::Start(worker) => EventWord::Start { worker },
        StartEvent::End => EventWord::End,
        StartEvent::Leave => EventWord::Leave,
    }
}

/// The word of an event. What the function of a once came to isn't said, nor the part of a pool.
pub fn event_of(event: ObjectEvent) -> EventWord
    ensures word { result ≡ event_of event }
    ensures fits { is_event (2 ^ 64) result ≡ true }
{
    match event {
        ObjectEvent::Mutex(event) => mutex_event(event),
        ObjectEvent::RwMutex(event) => rw_event(event),
        ObjectEvent::Cond(event) => cond_event(event),
        ObjectEvent::WaitGroup(event) => group_event(event),
        ObjectEvent::Once(event) => once_event(event),
        ObjectEvent::OnceFunc(event) => once_event(event),
        ObjectEvent::OnceValue(event) => once_event(event),
        ObjectEvent::Pool(event) => pool_event(event),
        ObjectEvent::Sema(event) => sema_event(event),
        ObjectEvent::Flight(event) => flight_event(event),
        ObjectEvent::Starts(event) => start_event(event),
    }
}

fn mutex_answer(reply: MutexReply) -> AnswerWord
    ensures word { result ≡ mutex_answer reply }
    ensures fits { is_answer (2 ^ 64) result ≡ true }
{
    match reply {
        MutexReply::Arrived(Arrival::Acquired) => AnswerWord::Acquired,
        MutexReply::Arrived(Arrival::Queued(_)) => AnswerWord::Queued,
        MutexReply::Tried(taken) => AnswerWord::Tried(taken),
        MutexReply::Unlocked(Unlocking::Free) => AnswerWord::Free,
        MutexReply::Unlocked(Unlocking::Woke(worker)) => AnswerWord::Woke { worker },
        MutexReply::Unlocked(Unlocking::Handed(worker)) => AnswerWord::Handed { worker },
        MutexReply::Unlocked(Unlocking::Misuse(misuse)) => AnswerWord::Misused(misuse),
        MutexReply::Resumed(Resumption::Acquired) => AnswerWord::Acquired,
        MutexReply::Resumed(Resumption::Requeued) => AnswerWord::Requeued,
        MutexReply::Still => AnswerWord::Still,
    }
}

fn rw_answer(reply: RwReply) -> AnswerWord
    ensures word { result ≡ rw_answer reply }
    ensures fits { is_answer (2 ^ 64) result ≡ true }
{
    match reply {
        RwReply::Arrived(RwArrival::Acquired) => AnswerWord::Acquired,
        RwReply::Arrived(RwArrival::Queued) => AnswerWord::Queued,
        RwReply::Tried(taken) => AnswerWord::Tried(taken),
        RwReply::Unlocked(RwUnlocking::Done) => AnswerWord::Done,
        RwReply::Unlocked(RwUnlocking::Misuse(misuse)) => AnswerWord::Misused(misuse),
        RwReply::Resumed(RwResumption::Acquired) => AnswerWord::Acquired,
        RwReply::Resumed(RwResumption::Queued) => AnswerWord::Queued,
        RwReply::Resumed(RwResumption::Requeued) => AnswerWord::Requeued,
        RwReply::Left => AnswerWord::Done,
        RwReply::Still => AnswerWord::Still,
    }
}

fn cond_answer(reply: NotifyReply) -> AnswerWord
    ensures word { result ≡ cond_answer reply }
    ensures fits { is_answer (2 ^ 64) result ≡ true }
{
    match reply {
        NotifyReply::Done => AnswerWord::Done,
        NotifyReply::Still => AnswerWord::Still,
    }
}

fn group_answer(reply: GroupReply) -> AnswerWord
    ensures word { result ≡ group_answer reply }
    ensures fits { is_answer (2 ^ 64) result ≡ true }
{
    match reply {
        GroupReply::Done => AnswerWord::Done,
        GroupReply::Queued => AnswerWord::Queued,
        GroupReply::Misused(misuse) => AnswerWord::Misused(misuse),
        GroupReply::Still => AnswerWord::Still,
    }
}

fn once_answer<T: Copy>(reply: OnceReply<T>) -> AnswerWord
    ensures word { result ≡ once_answer reply }
    ensures fits { is_answer (2 ^ 64) result ≡ true }
{
    match reply {
        OnceReply::Run => AnswerWord::Run,
        OnceReply::Queued => AnswerWord::Queued,
        OnceReply::Done(_) => AnswerWord::Ran,
        OnceReply::Ended | OnceReply::Left(_) => AnswerWord::Done,
        OnceReply::Still => AnswerWord::Still,
    }
}

fn pool_answer(reply: PoolReply<u64>) -> Option<AnswerWord>
    ensures word { result ≡ pool_answer reply }
    ensures fits { IfSome result (λ answer. is_answer (2 ^ 64) answer ≡ true) }
{
    match reply {
        PoolReply::Kept | PoolReply::Swept => Some(AnswerWord::Done),
        PoolReply::Dropped(_) => None,
        PoolReply::Item(item) => Some(AnswerWord::Item { item }),
        PoolReply::Nothing => Some(AnswerWord::Nothing),
        PoolReply::Still => Some(AnswerWord::Still),
    }
}

fn sema_answer(reply: SemaReply) -> AnswerWord
    ensures word { result ≡ sema_answer reply }
    ensures fits { is_answer (2 ^ 64) result ≡ true }
{
    match reply {
        SemaReply::Done => AnswerWord::Done,
        SemaReply::Queued => AnswerWord::Queued,
        SemaReply::Refused => AnswerWord::Refused,
        SemaReply::Misused(misuse) => AnswerWord::Misused(misuse),
        SemaReply::Still => AnswerWord::Still,
    }
}

fn flight_answer(reply: FlightReply) -> AnswerWord
    ensures word { result ≡ flight_answer reply }
    ensures fits { is_answer (2 ^ 64) result ≡ true }
{
    match reply {
        FlightReply::Lead => AnswerWord::Lead,
        FlightReply::Queued => AnswerWord::Queued,
        FlightReply::Landed(shared) => AnswerWord::Tried(shared),
        FlightReply::Left(value) => AnswerWord::Left { value },
        FlightReply::Still => AnswerWord::Still,
    }
}

fn start_answer(reply: StartReply) -> AnswerWord
    ensures word { result ≡ start_answer reply }
    ensures fits { is_answer (2 ^ 64) result ≡ true }
{
    match reply {
        StartReply::Done => AnswerWord::Done,
        StartReply::Go => AnswerWord::Go,
        StartReply::Never => AnswerWord::Never,
        StartReply::Still => AnswerWord::Still,
    }
}

/// The word of an answer. That an item was dropped has none.
pub fn answer_of(reply: ObjectReply) -> Option<AnswerWord>
    ensures word { result ≡ answer_of reply }
    ensures fits { IfSome result (λ answer. is_answer (2 ^ 64) answer ≡ true) }
{
    match reply {
        ObjectReply::Mutex(reply) => Some(mutex_answer(reply)),
        ObjectReply::RwMutex(reply) => Some(rw_answer(reply)),
        ObjectReply::Cond(reply) => Some(cond_answer(reply)),
        ObjectReply::WaitGroup(reply) => Some(group_answer(reply)),
        ObjectReply::Once(reply) => Some(once_answer(reply)),
        ObjectReply::OnceFunc(reply) => Some(once_answer(reply)),
        ObjectReply::OnceValue(reply) => Some(once_answer(reply)),
        ObjectReply::Pool(reply) => pool_answer(reply),
        ObjectReply::Sema(reply) => Some(sema_answer(reply)),
        ObjectReply::Flight(reply) => Some(flight_answer(reply)),
        ObjectReply::Starts(reply) => Some(start_answer(reply)),
    }
}
