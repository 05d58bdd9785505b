//! What was done on an object, by the words of a line. A word that the object's kind hasn't is `None`.
use mutex_core::reply::{Arrival, Resumption, Unlocking};
use mutex_core::{MutexEvent, MutexReply};
use pool_core::{PoolEvent, PoolReply};
use record_text::{AnswerWord, EventWord, Whole};
use run_record::{ObjectEvent, ObjectReply};
use rw_core::{RwEvent, RwReply, reply as rw};
use starts_core::{StartEvent, StartReply};
use sync_model::Deed;
use wait_cores::{GroupEvent, GroupReply, NotifyEvent, NotifyReply, OnceEvent, OnceReply};
use workload::{ObjectKind, Workload};

/// A deed on an object of whatever kind.
pub(crate) type ObjectDeed = Deed<ObjectEvent, ObjectReply>;

/// What stands for the value that a once keeps: a text doesn't say it.
#[derive(Clone, Copy)]
pub(crate) struct Kept {
    pub(crate) sum: i64,
}

/// What a worker did on the object with a number.
pub(crate) fn deed_of(
    workload: &Workload,
    worker: u32,
    object: usize,
    event: EventWord,
    answer: AnswerWord,
    kept: Kept,
) -> Option<ObjectDeed> {
    if let EventWord::Halt(misuse) = event {
        return Some(Deed::Halt(misuse));
    }
    let made = event_of(workload, object, event, kept)?;
    if let AnswerWord::Halted(misuse) = answer {
        return Some(Deed::Refused(made, misuse));
    }
    Some(Deed::Event(
        made,
        reply_of(workload, worker, object, event, answer, kept)?,
    ))
}

// The kind of the declared object with a number.
fn kind_at(workload: &Workload, object: usize) -> Option<ObjectKind> {
    let place = object.checked_sub(1)?;
    let line = workload.objects().get(place)?;
    Some(line.kind)
}

fn event_of(
    workload: &Workload,
    object: usize,
    event: EventWord,
    kept: Kept,
) -> Option<ObjectEvent> {
    match kind_at(workload, object) {
        Some(ObjectKind::Mutex) => Some(ObjectEvent::Mutex(mutex_event(event)?)),
        Some(ObjectKind::RwMutex) => Some(ObjectEvent::RwMutex(rw_event(event)?)),
        Some(ObjectKind::Cond { .. }) => Some(ObjectEvent::Cond(cond_event(event)?)),
        Some(ObjectKind::WaitGroup { .. }) => Some(ObjectEvent::WaitGroup(group_event(event)?)),
        Some(ObjectKind::Once { .. }) => Some(ObjectEvent::Once(once_event(event, kept.sum)?)),
        Some(ObjectKind::OnceFunc { code }) => Some(ObjectEvent::OnceFunc(once_event(
            event, code,
        )?)),
        Some(ObjectKind::OnceValue { value }) => {
            Some(ObjectEvent::OnceValue(once_event(event, value)?))
        }
        Some(_) => None,
        None => behind_event(workload, object, event),
    }
}

// On a part of a pool, or on Starts.
fn behind_event(workload: &Workload, object: usize, event: EventWord) -> Option<ObjectEvent> {
    match event {
        EventWord::Start { worker } => Some(ObjectEvent::Starts(StartEvent::Start(worker))),
        EventWord::End => Some(ObjectEvent::Starts(StartEvent::End)),
        EventWord::Leave => Some(ObjectEvent::Starts(StartEvent::Leave)),
        _ => Some(ObjectEvent::Pool(pool_event(event, part_of(workload, object)?)?)),
    }
}

// Which part of its pool an object is.
fn part_of(workload: &Workload, object: usize) -> Option<u32> {
    let behind = object
        .checked_sub(1)?
        .checked_sub(workload.objects().len())?;
    let workers = workload.workers() as usize;
    u32::try_from(behind.checked_rem(workers)?).ok()
}

fn mutex_event(event: EventWord) -> Option<MutexEvent> {
    match event {
        EventWord::Arrive { now } => Some(MutexEvent::Arrive { now }),
        EventWord::Try => Some(MutexEvent::Try),
        EventWord::Unlock => Some(MutexEvent::Unlock),
        EventWord::Woken { now } => Some(MutexEvent::Woken { now }),
        _ => None,
    }
}

fn rw_event(event: EventWord) -> Option<RwEvent> {
    match event {
        EventWord::ReadArrive => Some(RwEvent::ReadArrive),
        EventWord::ReadTry => Some(RwEvent::ReadTry),
        EventWord::ReadUnlock => Some(RwEvent::ReadUnlock),
        EventWord::WriteArrive { now } => Some(RwEvent::WriteArrive { now }),
        EventWord::WriteTry => Some(RwEvent::WriteTry),
        EventWord::WriteWoken { now } => Some(RwEvent::WriteWoken { now }),
        EventWord::WriteUnlock => Some(RwEvent::WriteUnlock),
        EventWord::Leave => Some(RwEvent::Leave),
        _ => None,
    }
}

fn cond_event(event: EventWord) -> Option<NotifyEvent> {
    match event {
        EventWord::Ticket => Some(NotifyEvent::Ticket),
        EventWord::Signal => Some(NotifyEvent::Signal),
        EventWord::Broadcast => Some(NotifyEvent::Broadcast),
        EventWord::Leave => Some(NotifyEvent::Leave),
        _ => None,
    }
}

fn group_event(event: EventWord) -> Option<GroupEvent> {
    match event {
        EventWord::Add { amount } => Some(GroupEvent::Add(amount_of(amount)?)),
        EventWord::Wait => Some(GroupEvent::Wait),
        EventWord::Leave => Some(GroupEvent::Leave),
        _ => None,
    }
}

fn amount_of(amount: Whole) -> Option<i32> {
    match amount {
        Whole::Natural(number) => i32::try_from(number).ok(),
        Whole::Below(number) => i32::try_from(number).ok()?.checked_neg(),
    }
}

fn once_event<T>(event: EventWord, kept: T) -> Option<OnceEvent<T>>
where
    T: Copy,
{
    match event {
        EventWord::Begin => Some(OnceEvent::Begin),
        EventWord::End => Some(OnceEvent::End(kept)),
        EventWord::Leave => Some(OnceEvent::Leave),
        _ => None,
    }
}

fn pool_event(event: EventWord, part: u32) -> Option<PoolEvent<u64>> {
    match event {
        EventWord::Put { item } => Some(PoolEvent::Put(item)),
        EventWord::LookOwn => Some(PoolEvent::LookOwn),
        EventWord::LookOther => Some(PoolEvent::LookOther(part)),
        EventWord::LookVictim => Some(PoolEvent::LookVictim(part)),
        EventWord::Sweep => Some(PoolEvent::Sweep),
        _ => None,
    }
}

fn reply_of(
    workload: &Workload,
    worker: u32,
    object: usize,
    event: EventWord,
    answer: AnswerWord,
    kept: Kept,
) -> Option<ObjectReply> {
    match kind_at(workload, object) {
        Some(ObjectKind::Mutex) => Some(ObjectReply::Mutex(mutex_reply(worker, event, answer)?)),
        Some(ObjectKind::RwMutex) => Some(ObjectReply::RwMutex(rw_reply(event, answer)?)),
        Some(ObjectKind::Cond { .. }) => Some(ObjectReply::Cond(cond_reply(answer)?)),
        Some(ObjectKind::WaitGroup { .. }) => Some(ObjectReply::WaitGroup(group_reply(answer)?)),
        Some(ObjectKind::Once { .. }) => {
            Some(ObjectReply::Once(once_reply(event, answer, kept.sum)?))
        }
        Some(ObjectKind::OnceFunc { code }) => {
            Some(ObjectReply::OnceFunc(once_reply(event, answer, code)?))
        }
        Some(ObjectKind::OnceValue { value }) => {
            Some(ObjectReply::OnceValue(once_reply(event, answer, value)?))
        }
        Some(_) => None,
        None => behind_reply(event, answer),
    }
}

fn behind_reply(event: EventWord, answer: AnswerWord) -> Option<ObjectReply> {
    match event {
        EventWord::Start { .. } | EventWord::End | EventWord::Leave => {
            Some(ObjectReply::Starts(start_reply(answer)?))
        }
        _ => Some(ObjectReply::Pool(pool_reply(event, answer)?)),
    }
}

fn mutex_reply(worker: u32, event: EventWord, answer: AnswerWord) -> Option<MutexReply> {
    match answer {
        AnswerWord::Acquired => match event {
            EventWord::Arrive { .. } => Some(MutexReply::Arrived(Arrival::Acquired)),
            _ => Some(MutexReply::Resumed(Resumption::Acquired)),
        },
        AnswerWord::Queued => Some(MutexReply::Arrived(Arrival::Queued(worker))),
        AnswerWord::Tried(taken) => Some(MutexReply::Tried(taken)),
        AnswerWord::Free => Some(MutexReply::Unlocked(Unlocking::Free)),
        AnswerWord::Woke { worker } => Some(MutexReply::Unlocked(Unlocking::Woke(worker))),
        AnswerWord::Handed { worker } => Some(MutexReply::Unlocked(Unlocking::Handed(worker))),
        AnswerWord::Misused(misuse) => Some(MutexReply::Unlocked(Unlocking::Misuse(misuse))),
        AnswerWord::Requeued => Some(MutexReply::Resumed(Resumption::Requeued)),
        AnswerWord::Still => Some(MutexReply::Still),
        _ => None,
    }
}

fn rw_reply(event: EventWord, answer: AnswerWord) -> Option<RwReply> {
    match answer {
        AnswerWord::Acquired => match event {
            EventWord::WriteWoken { .. } => Some(RwReply::Resumed(rw::Resumption::Acquired)),
            _ => Some(RwReply::Arrived(rw::Arrival::Acquired)),
        },
        AnswerWord::Queued => match event {
            EventWord::WriteWoken { .. } => Some(RwReply::Resumed(rw::Resumption::Queued)),
            _ => Some(RwReply::Arrived(rw::Arrival::Queued)),
        },
        AnswerWord::Tried(taken) => Some(RwReply::Tried(taken)),
        AnswerWord::Done => match event {
            EventWord::Leave => Some(RwReply::Left),
            _ => Some(RwReply::Unlocked(rw::Unlocking::Done)),
        },
        AnswerWord::Misused(misuse) => Some(RwReply::Unlocked(rw::Unlocking::Misuse(misuse))),
        AnswerWord::Requeued => Some(RwReply::Resumed(rw::Resumption::Requeued)),
        AnswerWord::Still => Some(RwReply::Still),
        _ => None,
    }
}

fn cond_reply(answer: AnswerWord) -> Option<NotifyReply> {
    match answer {
        AnswerWord::Done => Some(NotifyReply::Done),
        AnswerWord::Still => Some(NotifyReply::Still),
        _ => None,
    }
}

fn group_reply(answer: AnswerWord) -> Option<GroupReply> {
    match answer {
        AnswerWord::Done => Some(GroupReply::Done),
        AnswerWord::Queued => Some(GroupReply::Queued),
        AnswerWord::Misused(misuse) => Some(GroupReply::Misused(misuse)),
        AnswerWord::Still => Some(GroupReply::Still),
        _ => None,
    }
}

fn once_reply<T>(event: EventWord, answer: AnswerWord, kept: T) -> Option<OnceReply<T>>
where
    T: Copy,
{
    match answer {
        AnswerWord::Run => Some(OnceReply::Run),
        AnswerWord::Queued => Some(OnceReply::Queued),
        AnswerWord::Ran => Some(OnceReply::Done(kept)),
        AnswerWord::Done => match event {
            EventWord::Leave => Some(OnceReply::Left(kept)),
            _ => Some(OnceReply::Ended),
        },
        AnswerWord::Still => Some(OnceReply::Still),
        _ => None,
    }
}

fn pool_reply(event: EventWord, answer: AnswerWord) -> Option<PoolReply<u64>> {
    match answer {
        AnswerWord::Done => match event {
            EventWord::Sweep => Some(PoolReply::Swept),
            _ => Some(PoolReply::Kept),
        },
        AnswerWord::Item { item } => Some(PoolReply::Item(item)),
        AnswerWord::Nothing => Some(PoolReply::Nothing),
        _ => None,
    }
}

fn start_reply(answer: AnswerWord) -> Option<StartReply> {
    match answer {
        AnswerWord::Done => Some(StartReply::Done),
        AnswerWord::Go => Some(StartReply::Go),
        AnswerWord::Never => Some(StartReply::Never),
        AnswerWord::Still => Some(StartReply::Still),
        _ => None,
    }
}
