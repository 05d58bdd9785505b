//! The reader/writer machine, in memory that is taken once.
ghost use Rattle.std.specs.Prelude.{◌≡◌, ◌⊎◌, ◌<◌, ◌≤◌, IfOk, IsFalse};
ghost use Rattle.mutex_core.specs.MutexMachine as mutex;
ghost use Rattle.mutex_core.specs.declared.event.MutexEvent.{MutexEvent};
ghost use Rattle.rw_core.specs.RwMachine.{is_holding, is_open, next, one_more, place_of, start, IsValid};
ghost use Rattle.rw_core.specs.declared.event.RwEvent.{RwEvent};
ghost use Rattle.rw_core.specs.declared.reply.RwReply.{RwReply};

use crate::list;
use crate::place::Place;
use crate::reply::{Arrival, Resumption, Unlocking};
use crate::writer::Writer;
use mutex_core::MutexCore;
use std::alloc::{AllocError, Global};
use std::marker::Model;
use sync_model::Callers;
use sync_types::Misuse;

/// A reader/writer lock of some callers, as a value that each event changes. Who holds it isn't kept,
/// so another caller may unlock it.
#[derive(Drop)]
pub struct RwCore {
    callers: u32,
    readers: u64,
    writer: Writer,
    queue: Vec<u32>,
    admitted: Vec<u32>,
    granted: Vec<u32>,
    inner: MutexCore,
}

impl Model for RwCore {
    ghost use Rattle.rw_core.specs.RwMachine.{State};

    ghost Value = { State };

    ghost use Rattle.rw_core.specs.RwCore.{state_of, IsSound};

    ghost view = { state_of };

    ghost invariant = { IsSound };
}

impl RwCore {
    /// An unlocked lock for the callers `0` to `callers - 1`, with room for all of them to wait. No
    /// other call takes memory.
    pub fn new(alloc: Global, callers: u32) -> Result<Self, AllocError>
        requires some { 1 ≤ callers }
        requires few { callers ≤ 64 }
        ensures { IfOk result (λ lock. lock ≡ start callers) }
    {
        let room = callers as usize;
        Ok(RwCore {
            callers,
            readers: 0,
            writer: Writer::Nobody,
            queue: Vec::with_capacity(alloc, room)?,
            admitted: Vec::with_capacity(alloc, room)?,
            granted: Vec::with_capacity(alloc, room)?,
            inner: MutexCore::new(alloc, callers)?,
        })
    }

    /// `RLock` begins: the caller reads beside other readers, unless a writer is announced, which
    /// it waits for.
    pub fn r_arrive(&mut self, caller: u32) -> Arrival
        requires is_caller { caller < self.old.callers }
        requires is_out { place_of self.old caller ≡ Place.Out }
        ensures { next self.old caller RwEvent.ReadArrive ≡ (self.new, RwReply.Arrived result) }
    {
        if let Writer::Nobody = self.writer {
            self.readers = one_more(self.readers);
            return Arrival::Acquired;
        }
        self.queue.push_reserved(caller);
        Arrival::Queued
    }

    /// `TryRLock`: whether the caller reads, which it does exactly where an arrival would.
    pub fn r_try(&mut self, caller: u32) -> bool
        requires is_caller { caller < self.old.callers }
        requires is_out { place_of self.old caller ≡ Place.Out }
        ensures { next self.old caller RwEvent.ReadTry ≡ (self.new, RwReply.Tried result) }
    {
        let Writer::Nobody = self.writer else {
            return false;
        };
        self.readers = one_more(self.readers);
        true
    }

    /// `RUnlock`, by whichever caller. The last reader grants the lock to a writer that waits. A lock
    /// that no reader holds stays as it is: that is a misuse, Go's fatal error.
    pub fn r_unlock(&mut self, caller: u32) -> Unlocking
        requires { caller < self.old.callers }
        ensures step { next self.old caller RwEvent.ReadUnlock ≡ (self.new, RwReply.Unlocked result) }
        ensures misuse { (m : Misuse) → result ≡ Unlocking.Misuse m → (self.new ≡ self.old) × (self.old.readers ≡ 0) }
    {
        if self.readers == 0 {
            return Unlocking::Misuse(Misuse::RUnlockOfUnlockedRwMutex);
        }
        self.readers -= 1;
        if self.readers != 0 {
            return Unlocking::Done;
        }
        if let Writer::Waiting(writer) = self.writer {
            self.writer = Writer::Holding;
            self.granted.push_reserved(writer);
        }
        Unlocking::Done
    }

    /// `Lock` begins: the caller arrives at the mutex that writers go through, and where it acquires
    /// that one it announces itself.
    pub fn w_arrive(&mut self, caller: u32, now: u64) -> Arrival
        requires is_caller { caller < self.old.callers }
        requires is_out { place_of self.old caller ≡ Place.Out }
        ensures { next self.old caller (RwEvent.WriteArrive now) ≡ (self.new, RwReply.Arrived result) }
    {
        match self.inner.arrive(caller, now) {
            mutex_core::Arrival::Queued(_) => Arrival::Queued,
            mutex_core::Arrival::Acquired => {
                if self.readers == 0 {
                    self.writer = Writer::Holding;
                    return Arrival::Acquired;
                }
                self.writer = Writer::Waiting(caller);
                Arrival::Queued
            }
        }
    }

    /// Whether the lock is open: no reader holds it, and the mutex that writers go through is open. A writer that arrives then
    /// acquires it at once.
    pub fn is_open(&self) -> bool
        ensures open { result ≡ is_open self.now }
        ensures valid { IsValid self.now }
    {
        self.readers == 0 && self.inner.is_open()
    }

    /// `TryLock`: whether the caller writes, which it does where no reader holds the lock and a try of
    /// the inner mutex succeeds.
    pub fn w_try(&mut self, caller: u32) -> bool
        requires is_caller { caller < self.old.callers }
        requires is_out { place_of self.old caller ≡ Place.Out }
        ensures { next self.old caller RwEvent.WriteTry ≡ (self.new, RwReply.Tried result) }
    {
        if self.readers > 0 {
            return false;
        }
        if !self.inner.try_arrive(caller) {
            return false;
        }
        self.writer = Writer::Holding;
        true
    }

    /// A writer that the inner mutex woke or handed on goes on, and announces itself where it acquires
    /// that mutex.
    pub fn w_woken(&mut self, caller: u32, now: u64) -> Resumption
        requires is_caller { caller < self.old.callers }
        requires in_flight { (place_of self.old caller ≡ Place.Woken) ⊎ (place_of self.old caller ≡ Place.Handed) }
        ensures { next self.old caller (RwEvent.WriteWoken now) ≡ (self.new, RwReply.Resumed result) }
    {
        match self.inner.woken(caller, now) {
            mutex_core::Resumption::Requeued => Resumption::Requeued,
            mutex_core::Resumption::Acquired => {
                if self.readers == 0 {
                    self.writer = Writer::Holding;
                    return Resumption::Acquired;
                }
                self.writer = Writer::Waiting(caller);
                Resumption::Queued
            }
        }
    }

    /// `Unlock`, by whichever caller. All readers that wait are admitted, before the next writer can
    /// announce itself. A lock that no writer holds stays as it is: that is a misuse, Go's fatal error.
    pub fn w_unlock(&mut self, caller: u32) -> Unlocking
        requires { caller < self.old.callers }
        ensures step { next self.old caller RwEvent.WriteUnlock ≡ (self.new, RwReply.Unlocked result) }
        ensures misuse { (m : Misuse) → result ≡ Unlocking.Misuse m
            → (self.new ≡ self.old) × IsFalse (is_holding self.old.writer) }
    {
        let Writer::Holding = self.writer else {
            return Unlocking::Misuse(Misuse::UnlockOfUnlockedRwMutex);
        };
        self.writer = Writer::Nobody;
        self.readers = self.queue.len() as u64;
        list::move_all(&mut self.queue, &mut self.admitted);
        pass_on(&mut self.inner, caller);
        Unlocking::Done
    }

    /// A writer that was granted the lock, or a reader that was admitted, ends its wait. It has held
    /// the lock since.
    pub fn leave(&mut self, caller: u32)
        requires is_caller { caller < self.old.callers }
        requires has_lock { (place_of self.old caller ≡ Place.Granted) ⊎ (place_of self.old caller ≡ Place.Admitted) }
        ensures { next self.old caller RwEvent.Leave ≡ (self.new, RwReply.Left) }
    {
        if list::is_among(&self.admitted, caller) {
            list::remove(&mut self.admitted, caller);
        } else {
            list::remove(&mut self.granted, caller);
        }
    }

    /// The writers that were granted the lock and haven't left.
    pub fn granted(&self) -> Callers {
        list::as_set(&self.granted)
    }

    /// Whom a writer's unlock lets go on: the readers that were admitted and haven't left, and the writer that was woken
    /// or handed the inner mutex.
    pub fn let_on(&self) -> Callers {
        let readers = list::as_set(&self.admitted);
        match self.inner.in_flight() {
            Some(writer) => readers.with(writer),
            None => readers,
        }
    }

    /// How many callers it has.
    pub fn callers(&self) -> u32
        ensures { result ≡ self.now.callers }
    {
        self.callers
    }

    /// Where a caller is.
    pub fn place(&self, caller: u32) -> Place
        requires { caller < self.now.callers }
        ensures { result ≡ place_of self.now caller }
    {
        if list::is_among(&self.admitted, caller) {
            return Place::Admitted;
        }
        if list::is_among(&self.granted, caller) {
            return Place::Granted;
        }
        match self.writer {
            Writer::Waiting(writer) if caller == writer => return Place::Waiting,
            _ => {}
        }
        if list::is_among(&self.queue, caller) {
            return Place::Queued;
        }
        match self.inner.place(caller) {
            mutex_core::Place::Out => Place::Out,
            mutex_core::Place::Waiting => Place::Queued,
            mutex_core::Place::Woken => Place::Woken,
            mutex_core::Place::Handed => Place::Handed,
        }
    }
}

/// Unlocks the inner mutex. Whom that wakes or hands it on to shows in the places.
fn pass_on(inner: &mut MutexCore, caller: u32)
    requires { caller < inner.old.callers }
    ensures step { inner.new ≡ (mutex.next inner.old caller MutexEvent.Unlock).0 }
    ensures valid { mutex.IsValid inner.new }
{
    let _ = inner.unlock(caller);
}

/// One reader more. The count can't pass the end of its type, which no run comes near.
fn one_more(readers: u64) -> u64
    ensures { result ≡ one_more readers }
{
    if readers < u64::MAX {
        readers + 1
    } else {
        readers
    }
}
