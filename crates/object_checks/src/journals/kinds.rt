//! The kinds of objects that have journals.
ghost use Rattle.run_record.specs.declared.entered.ObjectEvent.TheVariants as events;
ghost use Rattle.run_record.specs.declared.entered.ObjectReply.TheVariants as replies;

use crate::journals::kind::JournalKind;
use flight_core::{FlightCore, FlightEvent, FlightReply};
use mutex_core::{MutexCore, MutexEvent, MutexReply};
use pool_core::{PartCore, PoolEvent, PoolReply};
use run_record::{ObjectEvent, ObjectReply};
use rw_core::{RwCore, RwEvent, RwReply};
use sema_core::{SemaCore, SemaEvent, SemaReply};
use starts_core::{StartEvent, StartReply, StartsCore};
use wait_cores::{
    GroupCore, GroupEvent, GroupReply, NotifyCore, NotifyEvent, NotifyReply, OnceCore, OnceEvent,
    OnceReply,
};

impl JournalKind for MutexCore {
    ghost event = { events.Mutex };

    ghost reply = { replies.Mutex };

    fn own_event(said: &ObjectEvent) -> Option<MutexEvent> {
        match said {
            ObjectEvent::Mutex(own) => Some(*own),
            _ => None,
        }
    }

    fn own_reply(said: &ObjectReply) -> Option<MutexReply> {
        match said {
            ObjectReply::Mutex(own) => Some(*own),
            _ => None,
        }
    }

    fn is_same(first: &MutexReply, second: &MutexReply) -> bool {
        first == second
    }

    fn laws() {}
}

impl JournalKind for RwCore {
    ghost event = { events.RwMutex };

    ghost reply = { replies.RwMutex };

    fn own_event(said: &ObjectEvent) -> Option<RwEvent> {
        match said {
            ObjectEvent::RwMutex(own) => Some(*own),
            _ => None,
        }
    }

    fn own_reply(said: &ObjectReply) -> Option<RwReply> {
        match said {
            ObjectReply::RwMutex(own) => Some(*own),
            _ => None,
        }
    }

    fn is_same(first: &RwReply, second: &RwReply) -> bool {
        first == second
    }

    fn laws() {}
}

impl JournalKind for NotifyCore {
    ghost event = { events.Cond };

    ghost reply = { replies.Cond };

    fn own_event(said: &ObjectEvent) -> Option<NotifyEvent> {
        match said {
            ObjectEvent::Cond(own) => Some(*own),
            _ => None,
        }
    }

    fn own_reply(said: &ObjectReply) -> Option<NotifyReply> {
        match said {
            ObjectReply::Cond(own) => Some(*own),
            _ => None,
        }
    }

    fn is_same(first: &NotifyReply, second: &NotifyReply) -> bool {
        first == second
    }

    fn laws() {}
}

impl JournalKind for GroupCore {
    ghost event = { events.WaitGroup };

    ghost reply = { replies.WaitGroup };

    fn own_event(said: &ObjectEvent) -> Option<GroupEvent> {
        match said {
            ObjectEvent::WaitGroup(own) => Some(*own),
            _ => None,
        }
    }

    fn own_reply(said: &ObjectReply) -> Option<GroupReply> {
        match said {
            ObjectReply::WaitGroup(own) => Some(*own),
            _ => None,
        }
    }

    fn is_same(first: &GroupReply, second: &GroupReply) -> bool {
        first == second
    }

    fn laws() {}
}

impl JournalKind for OnceCore<i64> {
    ghost event = { events.Once };

    ghost reply = { replies.Once };

    fn own_event(said: &ObjectEvent) -> Option<OnceEvent<i64>> {
        match said {
            ObjectEvent::Once(own) => Some(*own),
            _ => None,
        }
    }

    fn own_reply(said: &ObjectReply) -> Option<OnceReply<i64>> {
        match said {
            ObjectReply::Once(own) => Some(*own),
            _ => None,
        }
    }

    fn is_same(first: &OnceReply<i64>, second: &OnceReply<i64>) -> bool {
        first == second
    }

    fn laws() {}
}

impl JournalKind for OnceCore<u32> {
    ghost event = { events.OnceFunc };

    ghost reply = { replies.OnceFunc };

    fn own_event(said: &ObjectEvent) -> Option<OnceEvent<u32>> {
        match said {
            ObjectEvent::OnceFunc(own) => Some(*own),
            _ => None,
        }
    }

    fn own_reply(said: &ObjectReply) -> Option<OnceReply<u32>> {
        match said {
            ObjectReply::OnceFunc(own) => Some(*own),
            _ => None,
        }
    }

    fn is_same(first: &OnceReply<u32>, second: &OnceReply<u32>) -> bool {
        first == second
    }

    fn laws() {}
}

impl JournalKind for OnceCore<u64> {
    ghost event = { events.OnceValue };

    ghost reply = { replies.OnceValue };

    fn own_event(said: &ObjectEvent) -> Option<OnceEvent<u64>> {
        match said {
            ObjectEvent::OnceValue(own) => Some(*own),
            _ => None,
        }
    }

    fn own_reply(said: &ObjectReply) -> Option<OnceReply<u64>> {
        match said {
            ObjectReply::OnceValue(own) => Some(*own),
            _ => None,
        }
    }

    fn is_same(first: &OnceReply<u64>, second: &OnceReply<u64>) -> bool {
        first == second
    }

    fn laws() {}
}

impl JournalKind for SemaCore {
    ghost event = { events.Sema };

    ghost reply = { replies.Sema };

    fn own_event(said: &ObjectEvent) -> Option<SemaEvent> {
        match said {
            ObjectEvent::Sema(own) => Some(*own),
            _ => None,
        }
    }

    fn own_reply(said: &ObjectReply) -> Option<SemaReply> {
        match said {
            ObjectReply::Sema(own) => Some(*own),
            _ => None,
        }
    }

    fn is_same(first: &SemaReply, second: &SemaReply) -> bool {
        first == second
    }

    fn laws() {}
}

impl JournalKind for FlightCore {
    ghost event = { events.Flight };

    ghost reply = { replies.Flight };

    fn own_event(said: &ObjectEvent) -> Option<FlightEvent> {
        match said {
            ObjectEvent::Flight(own) => Some(*own),
            _ => None,
        }
    }

    fn own_reply(said: &ObjectReply) -> Option<FlightReply> {
        match said {
            ObjectReply::Flight(own) => Some(*own),
            _ => None,
        }
    }

    fn is_same(first: &FlightReply, second: &FlightReply) -> bool {
        first == second
    }

    fn laws() {}
}

impl JournalKind for PartCore {
    ghost event = { events.Pool };

    ghost reply = { replies.Pool };

    fn own_event(said: &ObjectEvent) -> Option<PoolEvent<u64>> {
        match said {
            ObjectEvent::Pool(own) => Some(*own),
            _ => None,
        }
    }

    fn own_reply(said: &ObjectReply) -> Option<PoolReply<u64>> {
        match said {
            ObjectReply::Pool(own) => Some(*own),
            _ => None,
        }
    }

    fn is_same(first: &PoolReply<u64>, second: &PoolReply<u64>) -> bool {
        first == second
    }

    fn laws() {}
}

impl JournalKind for StartsCore {
    ghost event = { events.Starts };

    ghost reply = { replies.Starts };

    fn own_event(said: &ObjectEvent) -> Option<StartEvent> {
        match said {
            ObjectEvent::Starts(own) => Some(*own),
            _ => None,
        }
    }

    fn own_reply(said: &ObjectReply) -> Option<StartReply> {
        match said {
            ObjectReply::Starts(own) => Some(*own),
            _ => None,
        }
    }

    fn is_same(first: &StartReply, second: &StartReply) -> bool {
        first == second
    }

    fn laws() {}
}
