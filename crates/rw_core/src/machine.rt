//! The reader/writer lock as a machine that callers share event by event.
ghost use Rattle.std.specs.Prelude.{◌≡◌, ◌↔◌, true, IsFalse};
ghost use Rattle.rw_core.specs.Edges.{acquires, releases};
ghost use Rattle.rw_core.specs.RwMachine.{next, may_make};
ghost use Rattle.rw_core.specs.declared.reply.RwReply.{RwReply};

use crate::event::RwEvent;
use crate::place::Place;
use crate::reply::{Arrival, Resumption, RwReply, Unlocking};
use crate::rw::RwCore;
use sync_model::{Callers, Machine, Worded};

/// After Go's memory model, an unlock that isn't a misuse, of a reader or of a writer, synchronizes
/// before each later event that completes a lock: the one by which the lock is acquired at once or after
/// waiting at the inner mutex, the try that succeeds, and the leaving of a granted or admitted caller.
impl Machine for RwCore {
    type State = RwCore;

    type Event = RwEvent;

    type Reply = RwReply;

    const HALTS: bool = true;

    ghost HALTS = { true };

    ghost next = { next };

    ghost frees = { λ event reply. releases reply };

    ghost takes = { λ event reply. acquires reply };

    /// Makes the event where its caller is one of the lock's and at the place that the event needs. Else
    /// nothing changes, and the answer is `Still`.
    #[inline(always)]
    fn step(state: &mut RwCore, caller: u32, event: RwEvent) -> RwReply
        ensures step { (state.new, result) ≡ next state.old caller event }
        ensures still { result ≡ RwReply.Still ↔ IsFalse (may_make state.old caller event) }
        ensures unchanged { result ≡ RwReply.Still → state.new ≡ state.old }
    {
        if caller >= state.callers() {
            return RwReply::Still;
        }
        let place = state.place(caller);
        match event {
            RwEvent::ReadArrive if place == Place::Out => RwReply::Arrived(state.r_arrive(caller)),
            RwEvent::ReadTry if place == Place::Out => RwReply::Tried(state.r_try(caller)),
            RwEvent::ReadUnlock => RwReply::Unlocked(state.r_unlock(caller)),
            RwEvent::WriteArrive { now } if place == Place::Out => RwReply::Arrived(state.w_arrive(
                caller, now,
            )),
            RwEvent::WriteTry if place == Place::Out => RwReply::Tried(state.w_try(caller)),
            RwEvent::WriteWoken { now } if place == Place::Woken || place == Place::Handed =>
                RwReply::Resumed(state.w_woken(caller, now)),
            RwEvent::WriteUnlock => RwReply::Unlocked(state.w_unlock(caller)),
            RwEvent::Leave if place == Place::Granted || place == Place::Admitted => {
                state.leave(caller);
                RwReply::Left
            }
            _ => RwReply::Still,
        }
    }

    fn releases(_event: &RwEvent, reply: &RwReply) -> bool {
        match reply {
            RwReply::Unlocked(Unlocking::Done) => true,
            _ => false,
        }
    }

    fn acquires(_event: &RwEvent, reply: &RwReply) -> bool {
        match reply {
            RwReply::Arrived(Arrival::Acquired) => true,
            RwReply::Tried(acquired) => *acquired,
            RwReply::Resumed(Resumption::Acquired) => true,
            RwReply::Left => true,
            _ => false,
        }
    }

    /// The last reader's unlock lets the writer go on that it granted the lock, a writer's unlock the readers that it
    /// admitted and the writer that it woke or handed the inner mutex. Who was let go on before, and hasn't gone on since, may
    /// be named again.
    fn wakes(state: &RwCore, event: &RwEvent, reply: &RwReply) -> Callers {
        match (event, reply) {
            (RwEvent::ReadUnlock, RwReply::Unlocked(Unlocking::Done)) => state.granted(),
            (RwEvent::WriteUnlock, RwReply::Unlocked(Unlocking::Done)) => state.let_on(),
            _ => Callers::nobody(),
        }
    }
}

// Its objects' word tells nothing.
impl Worded for RwCore {
    const TELLS: bool = false;

    #[inline(always)]
    fn word(_state: &RwCore) -> u64 {
        0
    }

    #[inline(always)]
    fn refresh(_kept: &mut RwCore, _word: u64) {}

    #[inline(always)]
    fn quick(kept: &mut RwCore, _word: u64, caller: u32, event: RwEvent) -> Option<(u64, RwReply)> {
        Some((0, Self::step(kept, caller, event)))
    }
}
