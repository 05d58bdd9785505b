//! `sync.Cond` as a machine: tickets are taken in order and notified in that order.
ghost use Rattle.std.specs.Prelude.{◌≡◌, ℕ, ◌<◌, ◌≤◌, true, IfOk};
ghost use Rattle.wait_cores.specs.NotifyEdges.{notify_releases, notify_acquires};
ghost use Rattle.wait_cores.specs.NotifyMachine.{start, next, callers_of, place_of};

use std::alloc::{AllocError, Global};
use std::marker::Model;
use sync_model::{Callers, Machine, Worded};

/// What a caller does at a cond.
#[derive(Clone, Copy, PartialEq, Eq)]
pub enum NotifyEvent {
    /// Takes the next ticket, to wait with it.
    Ticket,
    /// Notifies the oldest ticket that isn't notified yet, if there is one.
    Signal,
    /// Notifies every ticket that was taken.
    Broadcast,
    /// Leaves, its ticket being notified.
    Leave,
}

/// What an event at a cond answers.
#[derive(Clone, Copy, PartialEq, Eq)]
pub enum NotifyReply {
    /// The event was made.
    Done,
    /// The caller isn't at the place that the event needs, and nothing changed.
    Still,
}

/// Where a caller stands at a cond.
#[derive(Clone, Copy, PartialEq, Eq)]
pub enum NotifyPlace {
    /// It has no ticket.
    Out,
    /// Its ticket isn't notified yet.
    Waiting,
    /// Its ticket is notified, and it may leave.
    Notified,
}

/// The state of a cond: the next ticket, how many are notified, and the ticket that each caller took last.
#[derive(Drop)]
pub struct NotifyCore {
    next_ticket: u64,
    notified: u64,
    tickets: Vec<Option<u64>>,
}

impl Model for NotifyCore {
    ghost use Rattle.wait_cores.specs.NotifyMachine.{NotifyState};

    ghost Value = { NotifyState };

    ghost view = { λ c. record { next_ticket = c.next_ticket; notified = c.notified; tickets = c.tickets.items } };
}

impl NotifyCore {
    /// A cond at which nobody waits, for callers 0 to `callers - 1`. This call alone takes memory.
    pub fn new(alloc: Global, callers: u32) -> Result<Self, AllocError>
        requires some { 1 ≤ callers }
        requires few { callers ≤ 64 }
        ensures start { IfOk result (λ core. core ≡ start callers) }
        ensures callers { IfOk result (λ core. callers_of core ≡ callers) }
    {
        Ok(NotifyCore {
            next_ticket: 0,
            notified: 0,
            tickets: vec![in alloc; None; callers as usize]?,
        })
    }

    /// Gives the caller the next ticket, in place of any that it has.
    pub fn ticket(&mut self, caller: u32)
        requires { caller < callers_of self.old }
        ensures step { next self.old caller NotifyEvent.Ticket ≡ (self.new, NotifyReply.Done) }
        ensures callers { callers_of self.new ≡ callers_of self.old }
    {
        self.tickets[caller as usize] = Some(self.next_ticket);
        self.next_ticket = self.next_ticket.saturating_add(1);
    }

    /// Notifies the oldest ticket that isn't notified. Where there is none, nothing is kept for a later one.
    pub fn signal(&mut self)
        ensures step { (caller : ℕ) → caller < callers_of self.old
            → next self.old caller NotifyEvent.Signal ≡ (self.new, NotifyReply.Done) }
        ensures callers { callers_of self.new ≡ callers_of self.old }
    {
        if self.notified < self.next_ticket {
            self.notified += 1;
        }
    }

    /// Notifies every ticket that was taken.
    pub fn broadcast(&mut self)
        ensures step { (caller : ℕ) → caller < callers_of self.old
            → next self.old caller NotifyEvent.Broadcast ≡ (self.new, NotifyReply.Done) }
        ensures callers { callers_of self.new ≡ callers_of self.old }
    {
        self.notified = self.next_ticket;
    }

    /// Takes a notified caller out.
    pub fn leave(&mut self, caller: u32)
        requires { place_of self.old caller ≡ NotifyPlace.Notified }
        ensures step { next self.old caller NotifyEvent.Leave ≡ (self.new, NotifyReply.Done) }
        ensures callers { callers_of self.new ≡ callers_of self.old }
    {
        self.tickets[caller as usize] = None;
    }

    /// Where the caller stands.
    pub fn place(&self, caller: u32) -> NotifyPlace
        requires { caller < callers_of self.now }
        ensures { result ≡ place_of self.now caller }
    {
        match self.tickets[caller as usize] {
            None => NotifyPlace::Out,
            Some(ticket) if ticket < self.notified => NotifyPlace::Notified,
            Some(_) => NotifyPlace::Waiting,
        }
    }

    // Those whose tickets are notified, from this one on.
    fn notified_from(&self, first: u64) -> Callers {
        let mut notified = Callers::nobody();
        for (caller, ticket) in (0..64).zip(&self.tickets) {
            match ticket {
                Some(ticket) if first <= *ticket && *ticket < self.notified => {
                    notified = notified.with(caller);
                }
                _ => {}
            }
        }
        notified
    }

    /// What an event of a caller does, whoever it is and wherever it stands: the call of that event, or nothing where the
    /// call's conditions aren't met.
    pub fn step(&mut self, caller: u32, event: NotifyEvent) -> NotifyReply
        ensures step { next self.old caller event ≡ (self.new, result) }
        ensures callers { callers_of self.new ≡ callers_of self.old }
    {
        if caller as usize >= self.tickets.len() {
            return NotifyReply::Still;
        }
        match (event, self.place(caller)) {
            (NotifyEvent::Ticket, _) => self.ticket(caller),
            (NotifyEvent::Signal, _) => self.signal(),
            (NotifyEvent::Broadcast, _) => self.broadcast(),
            (NotifyEvent::Leave, NotifyPlace::Notified) => self.leave(caller),
            (NotifyEvent::Leave, _) => return NotifyReply::Still,
        }
        NotifyReply::Done
    }
}

/// After the documentation of Go's `sync`, a signal or a broadcast synchronizes before the return of a wait that it
/// unblocks, which begins with the leaving of the ticket.
impl Machine for NotifyCore {
    type State = NotifyCore;

    type Event = NotifyEvent;

    type Reply = NotifyReply;

    const HALTS: bool = true;

    ghost HALTS = { true };

    ghost next = { next };

    ghost frees = { notify_releases };

    ghost takes = { notify_acquires };

    #[inline(always)]
    fn step(state: &mut NotifyCore, caller: u32, event: NotifyEvent) -> NotifyReply {
        state.step(caller, event)
    }

    fn releases(event: &NotifyEvent, reply: &NotifyReply) -> bool {
        matches!(event, NotifyEvent::Signal | NotifyEvent::Broadcast)
            && matches!(reply, NotifyReply::Done)
    }

    fn acquires(event: &NotifyEvent, reply: &NotifyReply) -> bool {
        matches!(event, NotifyEvent::Leave) && matches!(reply, NotifyReply::Done)
    }

    /// A signal lets the one go on whose ticket it notified, and a broadcast all whose tickets are notified. One that was
    /// notified before, and hasn't left since, may be named again.
    fn wakes(state: &NotifyCore, event: &NotifyEvent, reply: &NotifyReply) -> Callers {
        match (event, reply) {
            (NotifyEvent::Signal, NotifyReply::Done) => state.notified_from(
                state.notified.saturating_sub(1),
            ),
            (NotifyEvent::Broadcast, NotifyReply::Done) => state.notified_from(0),
            _ => Callers::nobody(),
        }
    }
}

// Its objects' word tells nothing.
impl Worded for NotifyCore {
    const TELLS: bool = false;

    #[inline(always)]
    fn word(_state: &NotifyCore) -> u64 {
        0
    }

    #[inline(always)]
    fn refresh(_kept: &mut NotifyCore, _word: u64) {}

    #[inline(always)]
    fn quick(
        kept: &mut NotifyCore,
        _word: u64,
        caller: u32,
        event: NotifyEvent,
    ) -> Option<(u64, NotifyReply)> {
        Some((0, Self::step(kept, caller, event)))
    }
}
