//! `sync.Once` as a machine: one caller runs the function, and every return has what it came to.
ghost use Rattle.std.specs.Prelude.{◌≡◌, ◌<◌, ◌≤◌, true, IfOk};
ghost use Rattle.wait_cores.specs.OnceEdges.{once_releases, once_acquires};
ghost use Rattle.wait_cores.specs.OnceMachine.{start, next, callers_of, place_of, runner_of, reply_of};

use std::alloc::{AllocError, Global};
use std::marker::Model;
use sync_model::{Callers, Machine, Worded};

/// What a caller does at a once whose function comes to a `T`.
#[derive(Clone, Copy, PartialEq, Eq)]
pub enum OnceEvent<T> {
    /// Comes to have the function run.
    Begin,
    /// Ends the function, which it runs, with what the function came to.
    End(T),
    /// Returns, having been released.
    Leave,
}

/// What an event at a once answers.
#[derive(Clone, Copy, PartialEq, Eq)]
pub enum OnceReply<T> {
    /// The caller is to run the function.
    Run,
    /// Another caller runs it, or this one does: the caller waits.
    Queued,
    /// The function has ended, with this.
    Done(T),
    /// What the function came to is kept.
    Ended,
    /// The caller has left, with what the function came to.
    Left(T),
    /// The caller isn't at the place that the event needs, and nothing changed.
    Still,
}

/// How far a once has come.
#[derive(Clone, Copy, PartialEq, Eq)]
pub enum OnceProgress<T> {
    /// Nobody has begun the function.
    NotRun,
    /// This caller runs it.
    Running(u32),
    /// It has ended, with this.
    Ended(T),
}

/// Where a caller stands at a once.
#[derive(Clone, Copy, PartialEq, Eq)]
pub enum OncePlace {
    /// It doesn't wait.
    Out,
    /// It waits for the end of the function.
    Waiting,
    /// The function has ended, and it may leave.
    Released,
}

/// What `OnceCore::begin` answers.
#[derive(Clone, Copy, PartialEq, Eq)]
pub enum Beginning<T> {
    /// The caller is to run the function.
    Run,
    /// The function is being run: the caller waits.
    Queued,
    /// The function has ended, with this.
    Done(T),
}

impl<T> From<Beginning<T>> for OnceReply<T> {
    ghost from_gives = { λ beginning reply. reply ≡ reply_of beginning };

    fn from(beginning: Beginning<T>) -> Self {
        match beginning {
            Beginning::Run => OnceReply::Run,
            Beginning::Queued => OnceReply::Queued,
            Beginning::Done(kept) => OnceReply::Done(kept),
        }
    }
}

/// The state of a once, and who waits there.
#[derive(Drop)]
pub struct OnceCore<T> {
    progress: OnceProgress<T>,
    waits: Vec<bool>,
}

impl<T> Model for OnceCore<T> {
    ghost use Rattle.wait_cores.specs.OnceMachine.{OnceState};

    ghost Value = { OnceState T };

    ghost view = { λ c. record { progress = c.progress; waits = c.waits.items } };
}

impl<T: Copy> OnceCore<T> {
    /// A once that hasn't run, for callers 0 to `callers - 1`. This call alone takes memory.
    pub fn new(alloc: Global, callers: u32) -> Result<Self, AllocError>
        requires some { 1 ≤ callers }
        requires few { callers ≤ 64 }
        ensures start { IfOk result (λ core. core ≡ start callers) }
        ensures callers { IfOk result (λ core. callers_of core ≡ callers) }
    {
        Ok(OnceCore {
            progress: OnceProgress::NotRun,
            waits: vec![in alloc; false; callers as usize]?,
        })
    }

    /// Comes to have the function run: the first caller runs it, others wait for its end, and after that nobody waits.
    pub fn begin(&mut self, caller: u32) -> Beginning<T>
        requires is_caller { caller < callers_of self.old }
        requires is_out { place_of self.old caller ≡ OncePlace.Out }
        ensures step { next self.old caller OnceEvent.Begin ≡ (self.new, reply_of result) }
        ensures callers { callers_of self.new ≡ callers_of self.old }
    {
        match self.progress {
            OnceProgress::NotRun => {
                self.progress = OnceProgress::Running(caller);
                Beginning::Run
            }
            OnceProgress::Running(_) => {
                self.waits[caller as usize] = true;
                Beginning::Queued
            }
            OnceProgress::Ended(kept) => Beginning::Done(kept),
        }
    }

    /// Keeps what the function came to, an error too, and releases all who wait.
    pub fn end(&mut self, caller: u32, kept: T)
        requires is_caller { caller < callers_of self.old }
        requires is_runner { runner_of self.old ≡ Some caller }
        ensures step { next self.old caller (OnceEvent.End kept) ≡ (self.new, OnceReply.Ended) }
        ensures callers { callers_of self.new ≡ callers_of self.old }
    {
        self.progress = OnceProgress::Ended(kept);
    }

    /// Takes a released caller out, with what the function came to.
    pub fn leave(&mut self, caller: u32) -> T
        requires { place_of self.old caller ≡ OncePlace.Released }
        ensures step { next self.old caller OnceEvent.Leave ≡ (self.new, OnceReply.Left result) }
        ensures callers { callers_of self.new ≡ callers_of self.old }
    {
        match self.progress {
            OnceProgress::Ended(kept) => {
                self.waits[caller as usize] = false;
                kept
            }
            _ => unreachable!(),
        }
    }

    /// The caller that runs the function, if one does.
    pub fn runner(&self) -> Option<u32>
        ensures { result ≡ runner_of self.now }
    {
        match self.progress {
            OnceProgress::Running(caller) => Some(caller),
            _ => None,
        }
    }

    /// Where the caller stands. The one that runs the function is out, unless it waits for itself.
    pub fn place(&self, caller: u32) -> OncePlace
        requires { caller < callers_of self.now }
        ensures { result ≡ place_of self.now caller }
    {
        if !self.waits[caller as usize] {
            return OncePlace::Out;
        }
        match self.progress {
            OnceProgress::Ended(_) => OncePlace::Released,
            _ => OncePlace::Waiting,
        }
    }

    // Those who came while the function ran, and haven't left.
    fn waiting(&self) -> Callers {
        let mut waiting = Callers::nobody();
        for (caller, waits) in (0..64).zip(&self.waits) {
            if *waits {
                waiting = waiting.with(caller);
            }
        }
        waiting
    }

    /// What an event of a caller does, whoever it is and wherever it stands: the call of that event, or nothing where the
    /// call's conditions aren't met.
    pub fn step(&mut self, caller: u32, event: OnceEvent<T>) -> OnceReply<T>
        ensures step { next self.old caller event ≡ (self.new, result) }
        ensures callers { callers_of self.new ≡ callers_of self.old }
    {
        if caller as usize >= self.waits.len() {
            return OnceReply::Still;
        }
        match (event, self.place(caller)) {
            (OnceEvent::Begin, OncePlace::Out) => self.begin(caller).into(),
            (OnceEvent::End(kept), _) if self.runner() == Some(caller) => {
                self.end(caller, kept);
                OnceReply::Ended
            }
            (OnceEvent::Leave, OncePlace::Released) => OnceReply::Left(self.leave(caller)),
            _ => OnceReply::Still,
        }
    }
}

/// After the documentation of Go's `sync`, the return from the function synchronizes before the return of any call on the
/// once.
impl<T: Copy> Machine for OnceCore<T> {
    type State = OnceCore<T>;

    type Event = OnceEvent<T>;

    type Reply = OnceReply<T>;

    const HALTS: bool = true;

    ghost HALTS = { true };

    ghost next = { next };

    ghost frees = { once_releases };

    ghost takes = { once_acquires };

    #[inline(always)]
    fn step(state: &mut OnceCore<T>, caller: u32, event: OnceEvent<T>) -> OnceReply<T> {
        state.step(caller, event)
    }

    fn releases(_event: &OnceEvent<T>, reply: &OnceReply<T>) -> bool {
        matches!(reply, OnceReply::Ended)
    }

    fn acquires(_event: &OnceEvent<T>, reply: &OnceReply<T>) -> bool {
        matches!(reply, OnceReply::Done(_) | OnceReply::Left(_))
    }

    /// The end of the function lets those go on who wait.
    fn wakes(state: &OnceCore<T>, _event: &OnceEvent<T>, reply: &OnceReply<T>) -> Callers {
        match reply {
            OnceReply::Ended => state.waiting(),
            _ => Callers::nobody(),
        }
    }
}

// Its objects' word tells nothing.
impl<T: Copy> Worded for OnceCore<T> {
    const TELLS: bool = false;

    #[inline(always)]
    fn word(_state: &OnceCore<T>) -> u64 {
        0
    }

    #[inline(always)]
    fn refresh(_kept: &mut OnceCore<T>, _word: u64) {}

    #[inline(always)]
    fn quick(
        kept: &mut OnceCore<T>,
        _word: u64,
        caller: u32,
        event: OnceEvent<T>,
    ) -> Option<(u64, OnceReply<T>)> {
        Some((0, Self::step(kept, caller, event)))
    }
}
