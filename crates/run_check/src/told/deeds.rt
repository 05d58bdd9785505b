//! What was done on an object, and what it answered, read from their words.
ghost use Rattle.std.specs.Prelude.{◌≡◌};
ghost use Rattle.run_check.specs.Deeds.{mutex_event_told, mutex_reply_told, rw_event_told, rw_arrival_told, rw_trial_told, rw_unlocking_told, rw_resumption_told, rw_leaving_told, rw_reply_told, cond_event_told, cond_reply_told, group_event_told, group_reply_told, once_event_told, once_reply_told, pool_event_told, put_reply_told, look_reply_told, sweep_reply_told, pool_reply_told, sema_event_told, sema_reply_told, flight_event_told, flight_reply_told, start_event_told, start_reply_told, event_told, answer_told, halted_in, entry_told, deed_told};

use crate::told::replies::int32_told;
use flight_core::{FlightEvent, FlightReply};
use mutex_core::{Arrival, MutexEvent, MutexReply, Resumption, Unlocking};
use pool_core::{PoolEvent, PoolReply};
use record_text::{AnswerWord, EventWord};
use run_record::{ObjectEvent, ObjectReply};
use rw_core::{
    Arrival as RwArrival, Resumption as RwResumption, RwEvent, RwReply, Unlocking as RwUnlocking,
};
use sema_core::{SemaEvent, SemaReply};
use starts_core::{StartEvent, StartReply};
use sync_model::Deed;
use sync_types::Misuse;
use wait_cores::{GroupEvent, GroupReply, NotifyEvent, NotifyReply, OnceEvent, OnceReply};

/// An object whose journal an entry is of, with what the words of its events and answers don't say.
#[derive(Clone, Copy, Debug, Drop, PartialEq, Eq)]
pub enum Speaker {
    /// It has nothing but halts.
    Silent,
    /// A mutex. The worker's ticket is its number.
    Mutex(u32),
    RwMutex,
    Cond,
    WaitGroup,
    /// A once: what its function comes to where it ends here, and what the once keeps.
    Once(i64, i64),
    /// A function made by `OnceFunc`, with its code.
    OnceFunc(u32),
    /// A function made by `OnceValue`, with its value.
    OnceValue(u64),
    /// This part of a pool.
    PoolPart(u32),
    Sema,
    /// A group of flights.
    Flight,
    Starts,
}

fn mutex_event_told(event: EventWord) -> Option<MutexEvent>
    ensures { result ≡ mutex_event_told event }
{
    match event {
        EventWord::Arrive { now } => Some(MutexEvent::Arrive { now }),
        EventWord::Try => Some(MutexEvent::Try),
        EventWord::Unlock => Some(MutexEvent::Unlock),
        EventWord::Woken { now } => Some(MutexEvent::Woken { now }),
        _ => None,
    }
}

fn mutex_reply_told(worker: u32, event: MutexEvent, answer: AnswerWord) -> Option<MutexReply>
    ensures { result ≡ mutex_reply_told worker event answer }
{
    match (event, answer) {
        (MutexEvent::Arrive { .. }, AnswerWord::Acquired) => {
            Some(MutexReply::Arrived(Arrival::Acquired))
        }
        (MutexEvent::Arrive { .. }, AnswerWord::Queued) => {
            Some(MutexReply::Arrived(Arrival::Queued(worker)))
        }
        (MutexEvent::Try, AnswerWord::Tried(taken)) => Some(MutexReply::Tried(taken)),
        (MutexEvent::Unlock, AnswerWord::Free) => Some(MutexReply::Unlocked(Unlocking::Free)),
        (MutexEvent::Unlock, AnswerWord::Woke { worker: ticket }) => {
            Some(MutexReply::Unlocked(Unlocking::Woke(ticket)))
        }
        (MutexEvent::Unlock, AnswerWord::Handed { worker: ticket }) => {
            Some(MutexReply::Unlocked(Unlocking::Handed(ticket)))
        }
        (MutexEvent::Unlock, AnswerWord::Misused(misuse)) => {
            Some(MutexReply::Unlocked(Unlocking::Misuse(misuse)))
        }
        (MutexEvent::Woken { .. }, AnswerWord::Acquired) => {
            Some(MutexReply::Resumed(Resumption::Acquired))
        }
        (MutexEvent::Woken { .. }, AnswerWord::Requeued) => {
            Some(MutexReply::Resumed(Resumption::Requeued))
        }
        (MutexEvent::Woken { .. }, AnswerWord::Still) => Some(MutexReply::Still),
        _ => None,
    }
}

fn rw_event_told(event: EventWord) -> Option<RwEvent>
    ensures { result ≡ rw_event_told event }
{
    match event {
        EventWord::ReadArrive => Some(RwEvent::ReadArrive),
        EventWord::ReadTry => Some(RwEvent::ReadTry),
        EventWord::ReadUnlock => Some(RwEvent::ReadUnlock),
        EventWord::WriteArrive { now } => Some(RwEvent::WriteArrive { now }),
        EventWord::WriteTry => Some(RwEvent::WriteTry),
        EventWord::WriteWoken { now } => Some(RwEvent::WriteWoken { now }),
        EventWord::WriteUnlock => Some(RwEvent::WriteUnlock),
        EventWord::Leave => Some(RwEvent::Leave),
        _ => None,
    }
}

fn rw_arrival_told(answer: AnswerWord) -> Option<RwReply>
    ensures { result ≡ rw_arrival_told answer }
{
    match answer {
        AnswerWord::Acquired => Some(RwReply::Arrived(RwArrival::Acquired)),
        AnswerWord::Queued => Some(RwReply::Arrived(RwArrival::Queued)),
        _ => None,
    }
}

fn rw_trial_told(answer: AnswerWord) -> Option<RwReply>
    ensures { result ≡ rw_trial_told answer }
{
    match answer {
        AnswerWord::Tried(taken) => Some(RwReply::Tried(taken)),
        _ => None,
    }
}

fn rw_unlocking_told(answer: AnswerWord) -> Option<RwReply>
    ensures { result ≡ rw_unlocking_told answer }
{
    match answer {
        AnswerWord::Done => Some(RwReply::Unlocked(RwUnlocking::Done)),
        AnswerWord::Misused(misuse) => Some(RwReply::Unlocked(RwUnlocking::Misuse(misuse))),
        _ => None,
    }
}

fn rw_resumption_told(answer: AnswerWord) -> Option<RwReply>
    ensures { result ≡ rw_resumption_told answer }
{
    match answer {
        AnswerWord::Acquired => Some(RwReply::Resumed(RwResumption::Acquired)),
        AnswerWord::Queued => Some(RwReply::Resumed(RwResumption::Queued)),
        AnswerWord::Requeued => Some(RwReply::Resumed(RwResumption::Requeued)),
        AnswerWord::Still => Some(RwReply::Still),
        _ => None,
    }
}

fn rw_leaving_told(answer: AnswerWord) -> Option<RwReply>
    ensures { result ≡ rw_leaving_told answer }
{
    match answer {
        AnswerWord::Done => Some(RwReply::Left),
        AnswerWord::Still => Some(RwReply::Still),
        _ => None,
    }
}

fn rw_reply_told(event: RwEvent, answer: AnswerWord) -> Option<RwReply>
    ensures { result ≡ rw_reply_told event answer }
{
    match event {
        RwEvent::ReadArrive | RwEvent::WriteArrive { .. } => rw_arrival_told(answer),
        RwEvent::ReadTry | RwEvent::WriteTry => rw_trial_told(answer),
        RwEvent::ReadUnlock | RwEvent::WriteUnlock => rw_unlocking_told(answer),
        RwEvent::WriteWoken { .. } => rw_resumption_told(answer),
        RwEvent::Leave => rw_leaving_told(answer),
    }
}

fn cond_event_told(event: EventWord) -> Option<NotifyEvent>
    ensures { result ≡ cond_event_told event }
{
    match event {
        EventWord::Ticket => Some(NotifyEvent::Ticket),
        EventWord::Signal => Some(NotifyEvent::Signal),
        EventWord::Broadcast => Some(NotifyEvent::Broadcast),
        EventWord::Leave => Some(NotifyEvent::Leave),
        _ => None,
    }
}

fn cond_reply_told(answer: AnswerWord) -> Option<NotifyReply>
    ensures { result ≡ cond_reply_told answer }
{
    match answer {
        AnswerWord::Done => Some(NotifyReply::Done),
        AnswerWord::Still => Some(NotifyReply::Still),
        _ => None,
    }
}

fn group_event_told(event: EventWord) -> Option<GroupEvent>
    ensures { result ≡ group_event_told event }
{
    match event {
        EventWord::Add { amount } => int32_told(amount).map(GroupEvent::Add),
        EventWord::Wait => Some(GroupEvent::Wait),
        EventWord::Leave => Some(GroupEvent::Leave),
        _ => None,
    }
}

fn group_reply_told(answer: AnswerWord) -> Option<GroupReply>
    ensures { result ≡ group_reply_told answer }
{
    match answer {
        AnswerWord::Done => Some(GroupReply::Done),
        AnswerWord::Queued => Some(GroupReply::Queued),
        AnswerWord::Misused(misuse) => Some(GroupReply::Misused(misuse)),
        AnswerWord::Still => Some(GroupReply::Still),
        _ => None,
    }
}

fn once_event_told<T: Copy + Drop>(comes_to: T, event: EventWord) -> Option<OnceEvent<T>>
    ensures { result ≡ once_event_told comes_to event }
{
    match event {
        EventWord::Begin => Some(OnceEvent::Begin),
        EventWord::End => Some(OnceEvent::End(comes_to)),
        EventWord::Leave => Some(OnceEvent::Leave),
        _ => None,
    }
}

fn once_reply_told<T: Copy + Drop>(
    kept: T,
    event: OnceEvent<T>,
    answer: AnswerWord,
) -> Option<OnceReply<T>>
    ensures { result ≡ once_reply_told kept event answer }
{
    match (event, answer) {
        (OnceEvent::Begin, AnswerWord::Run) => Some(OnceReply::Run),
        (OnceEvent::Begin, AnswerWord::Queued) => Some(OnceReply::Queued),
        (OnceEvent::Begin, AnswerWord::Ran) => Some(OnceReply::Done(kept)),
        (OnceEvent::End(_), AnswerWord::Done) => Some(OnceReply::Ended),
        (OnceEvent::Leave, AnswerWord::Done) => Some(OnceReply::Left(kept)),
        (OnceEvent::Leave, AnswerWord::Still) => Some(OnceReply::Still),
        _ => None,
    }
}

fn pool_event_told(part: u32, event: EventWord) -> Option<PoolEvent<u64>>
    ensures { result ≡ pool_event_told part event }
{
    match event {
        EventWord::Put { item } => Some(PoolEvent::Put(item)),
        EventWord::LookOwn => Some(PoolEvent::LookOwn),
        EventWord::LookOther => Some(PoolEvent::LookOther(part)),
        EventWord::LookVictim => Some(PoolEvent::LookVictim(part)),
        EventWord::Sweep => Some(PoolEvent::Sweep),
        _ => None,
    }
}

fn put_reply_told(answer: AnswerWord) -> Option<PoolReply<u64>>
    ensures { result ≡ put_reply_told answer }
{
    match answer {
        AnswerWord::Done => Some(PoolReply::Kept),
        _ => None,
    }
}

fn look_reply_told(answer: AnswerWord) -> Option<PoolReply<u64>>
    ensures { result ≡ look_reply_told answer }
{
    match answer {
        AnswerWord::Item { item } => Some(PoolReply::Item(item)),
        AnswerWord::Nothing => Some(PoolReply::Nothing),
        _ => None,
    }
}

fn sweep_reply_told(answer: AnswerWord) -> Option<PoolReply<u64>>
    ensures { result ≡ sweep_reply_told answer }
{
    match answer {
        AnswerWord::Done => Some(PoolReply::Swept),
        _ => None,
    }
}

fn pool_reply_told(event: PoolEvent<u64>, answer: AnswerWord) -> Option<PoolReply<u64>>
    ensures { result ≡ pool_reply_told event answer }
{
    match event {
        PoolEvent::Put(_) => put_reply_told(answer),
        PoolEvent::LookOwn | PoolEvent::LookOther(_) | PoolEvent::LookVictim(_) => look_reply_told(
            answer,
        ),
        PoolEvent::Sweep => sweep_reply_told(answer),
    }
}

fn sema_event_told(event: EventWord) -> Option<SemaEvent>
    ensures { result ≡ sema_event_told event }
{
    match event {
        EventWord::Acquire { weight } => Some(SemaEvent::Acquire(weight)),
        EventWord::TryAcquire { weight } => Some(SemaEvent::Try(weight)),
        EventWord::Release { weight } => Some(SemaEvent::Release(weight)),
        EventWord::Leave => Some(SemaEvent::Leave),
        _ => None,
    }
}

fn sema_reply_told(answer: AnswerWord) -> Option<SemaReply>
    ensures { result ≡ sema_reply_told answer }
{
    match answer {
        AnswerWord::Done => Some(SemaReply::Done),
        AnswerWord::Queued => Some(SemaReply::Queued),
        AnswerWord::Refused => Some(SemaReply::Refused),
        AnswerWord::Misused(misuse) => Some(SemaReply::Misused(misuse)),
        AnswerWord::Still => Some(SemaReply::Still),
        _ => None,
    }
}

fn flight_event_told(event: EventWord) -> Option<FlightEvent>
    ensures { result ≡ flight_event_told event }
{
    match event {
        EventWord::Join { key } => Some(FlightEvent::Join(key)),
        EventWord::Land { value } => Some(FlightEvent::Land(value)),
        EventWord::Leave => Some(FlightEvent::Leave),
        _ => None,
    }
}

fn flight_reply_told(answer: AnswerWord) -> Option<FlightReply>
    ensures { result ≡ flight_reply_told answer }
{
    match answer {
        AnswerWord::Lead => Some(FlightReply::Lead),
        AnswerWord::Queued => Some(FlightReply::Queued),
        AnswerWord::Tried(shared) => Some(FlightReply::Landed(shared)),
        AnswerWord::Left { value } => Some(FlightReply::Left(value)),
        AnswerWord::Still => Some(FlightReply::Still),
        _ => None,
    }
}

fn start_event_told(event: EventWord) -> Option<StartEvent>
    ensures { result ≡ start_event_told event }
{
    match event {
        EventWord::Start { worker } => Some(StartEvent::Start(worker)),
        EventWord::End => Some(StartEvent::End),
        EventWord::Leave => Some(StartEvent::Leave),
        _ => None,
    }
}

fn start_reply_told(answer: AnswerWord) -> Option<StartReply>
    ensures { result ≡ start_reply_told answer }
{
    match answer {
        AnswerWord::Done => Some(StartReply::Done),
        AnswerWord::Go => Some(StartReply::Go),
        AnswerWord::Never => Some(StartReply::Never),
        AnswerWord::Still => Some(StartReply::Still),
        _ => None,
    }
}

fn event_told(speaker: Speaker, event: EventWord) -> Option<ObjectEvent>
    ensures { result ≡ event_told speaker event }
{
    match speaker {
        Speaker::Silent => None,
        Speaker::Mutex(_) => mutex_event_told(event).map(ObjectEvent::Mutex),
        Speaker::RwMutex => rw_event_told(event).map(ObjectEvent::RwMutex),
        Speaker::Cond => cond_event_told(event).map(ObjectEvent::Cond),
        Speaker::WaitGroup => group_event_told(event).map(ObjectEvent::WaitGroup),
        Speaker::Once(comes_to, _) => once_event_told(comes_to, event).map(ObjectEvent::Once),
        Speaker::OnceFunc(code) => once_event_told(code, event).map(ObjectEvent::OnceFunc),
        Speaker::OnceValue(value) => once_event_told(value, event).map(ObjectEvent::OnceValue),
        Speaker::PoolPart(part) => pool_event_told(part, event).map(ObjectEvent::Pool),
        Speaker::Sema => sema_event_told(event).map(ObjectEvent::Sema),
        Speaker::Flight => flight_event_told(event).map(ObjectEvent::Flight),
        Speaker::Starts => start_event_told(event).map(ObjectEvent::Starts),
    }
}

fn answer_told(speaker: Speaker, event: ObjectEvent, answer: AnswerWord) -> Option<ObjectReply>
    ensures { result ≡ answer_told speaker event answer }
{
    match (speaker, event) {
        (Speaker::Mutex(worker), ObjectEvent::Mutex(event)) => mutex_reply_told(
            worker, event, answer,
        ).map(ObjectReply::Mutex),
        (Speaker::RwMutex, ObjectEvent::RwMutex(event)) => rw_reply_told(event, answer).map(
            ObjectReply::RwMutex,
        ),
        (Speaker::Cond, ObjectEvent::Cond(_)) => cond_reply_told(answer).map(ObjectReply::Cond),
        (Speaker::WaitGroup, ObjectEvent::WaitGroup(_)) => group_reply_told(answer).map(
            ObjectReply::WaitGroup,
        ),
        (Speaker::Once(_, kept), ObjectEvent::Once(event)) => once_reply_told(
            kept, event, answer,
        ).map(ObjectReply::Once),
        (Speaker::OnceFunc(code), ObjectEvent::OnceFunc(event)) => once_reply_told(
            code, event, answer,
        ).map(ObjectReply::OnceFunc),
        (Speaker::OnceValue(value), ObjectEvent::OnceValue(event)) => once_reply_told(
            value, event, answer,
        ).map(ObjectReply::OnceValue),
        (Speaker::PoolPart(_), ObjectEvent::Pool(event)) => pool_reply_told(event, answer).map(
            ObjectReply::Pool,
        ),
        (Speaker::Sema, ObjectEvent::Sema(_)) => sema_reply_told(answer).map(ObjectReply::Sema),
        (Speaker::Flight, ObjectEvent::Flight(_)) => flight_reply_told(answer).map(
            ObjectReply::Flight,
        ),
        (Speaker::Starts, ObjectEvent::Starts(_)) => start_reply_told(answer).map(
            ObjectReply::Starts,
        ),
        _ => None,
    }
}

// The misuse of the halt that an answer tells of.
fn halted_in(answer: AnswerWord) -> Option<Misuse>
    ensures { result ≡ halted_in answer }
{
    match answer {
        AnswerWord::Halted(misuse) => Some(misuse),
        _ => None,
    }
}

fn entry_told(
    speaker: Speaker,
    event: Option<ObjectEvent>,
    answer: AnswerWord,
) -> Option<Deed<ObjectEvent, ObjectReply>>
    ensures { result ≡ entry_told speaker event answer }
{
    let event = event?;
    match halted_in(answer) {
        Some(misuse) => Some(Deed::Refused(event, misuse)),
        None => match answer_told(speaker, event, answer) {
            None => None,
            Some(reply) => Some(Deed::Event(event, reply)),
        },
    }
}

/// What was done on an object. Nothing, where the object has no such event, or no such answer to it.
pub fn deed_told(
    speaker: Speaker,
    event: EventWord,
    answer: AnswerWord,
) -> Option<Deed<ObjectEvent, ObjectReply>>
    ensures { result ≡ deed_told speaker event answer }
{
    match event {
        EventWord::Halt(misuse) => Some(Deed::Halt(misuse)),
        _ => entry_told(speaker, event_told(speaker, event), answer),
    }
}
