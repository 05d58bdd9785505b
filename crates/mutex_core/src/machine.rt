//! The mutex as a machine that callers share event by event.
ghost use Rattle.std.specs.Prelude.{◌≡◌, ◌↔◌, true, IsFalse};
ghost use Rattle.mutex_core.specs.Edges.{acquires, releases};
ghost use Rattle.mutex_core.specs.MutexMachine.{next, may_make};
ghost use Rattle.mutex_core.specs.declared.reply.MutexReply.{MutexReply};

use crate::event::MutexEvent;
use crate::mutex::MutexCore;
use crate::place::Place;
use crate::reply::{Arrival, MutexReply, Resumption, Unlocking};
use sync_model::{Callers, Machine};

/// After Go's memory model, an unlock that takes the mutex away synchronizes before each later event
/// that gives it: the arrival or the going on that acquires it, and the try that succeeds.
impl Machine for MutexCore {
    type State = MutexCore;

    type Event = MutexEvent;

    type Reply = MutexReply;

    const HALTS: bool = true;

    ghost HALTS = { true };

    ghost next = { next };

    ghost frees = { λ event reply. releases reply };

    ghost takes = { λ event reply. acquires reply };

    /// Makes the event where its caller is one of the mutex's and at the place that the event needs.
    /// Else nothing changes, and the answer is `Still`.
    #[inline(always)]
    fn step(state: &mut MutexCore, caller: u32, event: MutexEvent) -> MutexReply
        ensures step { (state.new, result) ≡ next state.old caller event }
        ensures still { result ≡ MutexReply.Still ↔ IsFalse (may_make state.old caller event) }
        ensures unchanged { result ≡ MutexReply.Still → state.new ≡ state.old }
    {
        if caller >= state.callers() {
            return MutexReply::Still;
        }
        let place = state.place(caller);
        match event {
            MutexEvent::Arrive { now } if place == Place::Out => MutexReply::Arrived(state.arrive(
                caller, now,
            )),
            MutexEvent::Try if place == Place::Out => MutexReply::Tried(state.try_arrive(caller)),
            MutexEvent::Unlock => MutexReply::Unlocked(state.unlock(caller)),
            MutexEvent::Woken { now } if place == Place::Woken || place == Place::Handed =>
                MutexReply::Resumed(state.woken(caller, now)),
            _ => MutexReply::Still,
        }
    }

    fn releases(_event: &MutexEvent, reply: &MutexReply) -> bool {
        match reply {
            MutexReply::Unlocked(Unlocking::Misuse(_)) => false,
            MutexReply::Unlocked(_) => true,
            _ => false,
        }
    }

    fn acquires(_event: &MutexEvent, reply: &MutexReply) -> bool {
        match reply {
            MutexReply::Arrived(Arrival::Acquired) => true,
            MutexReply::Tried(acquired) => *acquired,
            MutexReply::Resumed(Resumption::Acquired) => true,
            _ => false,
        }
    }

    /// An unlock lets the caller go on that it woke or handed the mutex.
    fn wakes(_state: &MutexCore, _event: &MutexEvent, reply: &MutexReply) -> Callers {
        match reply {
            MutexReply::Unlocked(Unlocking::Woke(caller) | Unlocking::Handed(caller)) => {
                Callers::nobody().with(*caller)
            }
            _ => Callers::nobody(),
        }
    }
}
