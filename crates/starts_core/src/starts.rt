//! Who waits to be started, who was started, and who has ended.
ghost use Rattle.std.specs.Prelude.{◌≡◌, ◌<◌, ◌≤◌, true, length, IfOk};
ghost use Rattle.std.specs.List.{list_any};
ghost use Rattle.starts_core.specs.StartsEdges.{starts_releases, starts_acquires};
ghost use Rattle.starts_core.specs.StartsMachine.{begun, first_place, is_live, next, callers_of, place_of, left_from, with_place, started, ended};

use std::alloc::{AllocError, Global};
use std::marker::Model;
use sync_model::{Callers, Machine, Worded};

/// What a worker does.
#[derive(Clone, Copy, Debug, PartialEq, Eq)]
pub enum StartEvent {
    /// Starts the worker with this number, if there is one that waits to be started.
    Start(u32),
    /// Has made all its calls.
    End,
    /// A worker that waits to be started asks whether it was.
    Leave,
}

/// What an event answers.
#[derive(Clone, Copy, Debug, PartialEq, Eq)]
pub enum StartReply {
    /// A start or an end was made.
    Done,
    /// The worker was started.
    Go,
    /// The worker wasn't started, and nobody is left who could.
    Never,
    /// The worker has to wait, or the caller isn't one of the workers. Nothing changed.
    Still,
}

/// Where a worker stands.
#[derive(Clone, Copy, Debug, PartialEq, Eq)]
pub enum StartPlace {
    /// It waits to be started.
    Dormant,
    /// It makes its calls.
    Live,
    /// It has made all its calls.
    Ended,
}

impl StartPlace {
    // Where a worker stands at the beginning, by whether it waits to be started.
    fn first(dormant: bool) -> Self
        ensures { result ≡ first_place dormant }
    {
        if dormant {
            StartPlace::Dormant
        } else {
            StartPlace::Live
        }
    }

    // Whether the worker makes its calls.
    fn is_live(self) -> bool
        ensures { result ≡ is_live self }
    {
        matches!(self, StartPlace::Live)
    }

    // Where it stands once it is started.
    fn started(self) -> Self
        ensures { result ≡ started self }
    {
        match self {
            StartPlace::Dormant => StartPlace::Live,
            StartPlace::Live | StartPlace::Ended => self,
        }
    }

    // Where it stands once it has made its calls.
    fn ended(self) -> Self
        ensures { result ≡ ended self }
    {
        match self {
            StartPlace::Live => StartPlace::Ended,
            StartPlace::Dormant | StartPlace::Ended => self,
        }
    }
}

/// Where each worker stands.
#[derive(Debug, Drop)]
pub struct StartsCore {
    places: Vec<StartPlace>,
}

impl Model for StartsCore {
    ghost use Rattle.starts_core.specs.StartsMachine.{StartsState};

    ghost Value = { StartsState };

    ghost view = { λ c. record { places = c.places.items } };
}

impl StartsCore {
    /// Workers 0 to `dormant.len() - 1`, of which these wait to be started and the others make their calls. This call
    /// alone takes memory.
    pub fn new(alloc: Global, dormant: &[bool]) -> Result<Self, AllocError>
        requires some { 1 ≤ length dormant.now }
        requires few { length dormant.now ≤ 64 }
        ensures start { IfOk result (λ core. core ≡ begun dormant.now) }
        ensures callers { IfOk result (λ core. callers_of core ≡ length dormant.now) }
    {
        let mut places = Vec::with_capacity(alloc, dormant.len())?;
        for waits in dormant {
            places.push_reserved(StartPlace::first(*waits));
        }
        Ok(StartsCore { places })
    }

    /// Where a worker stands.
    pub fn place(&self, worker: u32) -> StartPlace
        requires { worker < callers_of self.now }
        ensures { result ≡ place_of self.now worker }
    {
        self.places[worker as usize]
    }

    // Whether any worker makes its calls.
    fn is_any_live(&self) -> bool
        ensures { result ≡ list_any is_live self.now.places }
    {
        for place in &self.places {
            if place.is_live() {
                return true;
            }
        }
        false
    }

    // Starts a worker that waits to be started. A number that is nobody's starts nobody.
    fn start(&mut self, worker: u32)
        ensures { self.new ≡ with_place self.old worker (started (place_of self.old worker)) }
    {
        if (worker as usize) < self.places.len() {
            self.places[worker as usize] = self.place(worker).started();
        }
    }

    // What a worker is answered that asks whether it was started.
    fn left(&self, worker: u32) -> StartReply
        requires { worker < callers_of self.now }
        ensures { result ≡ left_from (place_of self.now worker) self.now }
    {
        match self.place(worker) {
            StartPlace::Live => StartReply::Go,
            StartPlace::Ended => StartReply::Still,
            StartPlace::Dormant if self.is_any_live() => StartReply::Still,
            StartPlace::Dormant => StartReply::Never,
        }
    }

    /// What an event of a worker does, whoever it is and wherever it stands.
    pub fn step(&mut self, caller: u32, event: StartEvent) -> StartReply
        ensures step { next self.old caller event ≡ (self.new, result) }
        ensures callers { callers_of self.new ≡ callers_of self.old }
    {
        if caller as usize >= self.places.len() {
            return StartReply::Still;
        }
        match event {
            StartEvent::Start(worker) => {
                self.start(worker);
                StartReply::Done
            }
            StartEvent::End => {
                self.places[caller as usize] = self.place(caller).ended();
                StartReply::Done
            }
            StartEvent::Leave => self.left(caller),
        }
    }

    // All workers that wait to be started, where nobody is left who could start them.
    fn left_behind(&self) -> Callers {
        let mut behind = Callers::nobody();
        if self.is_any_live() {
            return behind;
        }
        for (worker, place) in (0..64).zip(&self.places) {
            if matches!(place, StartPlace::Dormant) {
                behind = behind.with(worker);
            }
        }
        behind
    }
}

/// After Go's memory model, the `go` statement that starts a goroutine is synchronized before the start of its execution:
/// here a start, before the going of the worker. An end releases, too, though nothing of Go's asks for it.
impl Machine for StartsCore {
    type State = StartsCore;

    type Event = StartEvent;

    type Reply = StartReply;

    const HALTS: bool = true;

    ghost HALTS = { true };

    ghost next = { next };

    ghost frees = { starts_releases };

    ghost takes = { starts_acquires };

    #[inline(always)]
    fn step(state: &mut StartsCore, caller: u32, event: StartEvent) -> StartReply {
        state.step(caller, event)
    }

    fn releases(event: &StartEvent, reply: &StartReply) -> bool {
        matches!(event, StartEvent::Start(_) | StartEvent::End) && matches!(reply, StartReply::Done)
    }

    fn acquires(event: &StartEvent, reply: &StartReply) -> bool {
        matches!(event, StartEvent::Leave) && matches!(reply, StartReply::Go)
    }

    /// A start lets the worker go on that it names, and the end of the last one that could start others all that wait.
    fn wakes(state: &StartsCore, event: &StartEvent, reply: &StartReply) -> Callers {
        match (event, reply) {
            (StartEvent::Start(worker), StartReply::Done) => Callers::nobody().with(*worker),
            (StartEvent::End, StartReply::Done) => state.left_behind(),
            _ => Callers::nobody(),
        }
    }
}

// Its objects' word tells nothing.
impl Worded for StartsCore {
    const TELLS: bool = false;

    #[inline(always)]
    fn word(_state: &StartsCore) -> u64 {
        0
    }

    #[inline(always)]
    fn refresh(_kept: &mut StartsCore, _word: u64) {}

    #[inline(always)]
    fn quick(
        kept: &mut StartsCore,
        _word: u64,
        caller: u32,
        event: StartEvent,
    ) -> Option<(u64, StartReply)> {
        Some((0, Self::step(kept, caller, event)))
    }
}
