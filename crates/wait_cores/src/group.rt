//! `sync.WaitGroup` as a machine: a counter, and callers that wait until it is 0.
ghost use Rattle.std.specs.Prelude.{◌≡◌, ℕ, ◌<◌, ◌≤◌, true, map, IfOk};
ghost use Rattle.std.specs.List.{list_any};
ghost use Rattle.wait_cores.specs.GroupEdges.{group_releases, group_acquires};
ghost use Rattle.wait_cores.specs.GroupMachine.{start, next, callers_of, place_of, reply_of_wait, reply_of_result, is_reused, is_waiting, released};

use std::alloc::{AllocError, Global};
use std::marker::Model;
use sync_model::{Callers, Machine, Worded};
use sync_types::Misuse;

/// The highest counter, 2^31 - 1.
pub const MAX_COUNTER: u32 = 2147483647;

/// What a caller does at a wait group.
#[derive(Clone, Copy, PartialEq, Eq)]
pub enum GroupEvent {
    /// Adds to the counter, or takes from it.
    Add(i32),
    /// Comes to wait until the counter is 0.
    Wait,
    /// Returns from a wait, having been released.
    Leave,
}

/// What an event at a wait group answers.
#[derive(Clone, Copy, PartialEq, Eq)]
pub enum GroupReply {
    /// The event was made; of a wait, that it returned at once.
    Done,
    /// The caller waits.
    Queued,
    /// The event is a misuse of the group.
    Misused(Misuse),
    /// The caller isn't at the place that the event needs, and nothing changed.
    Still,
}

/// Where a caller stands at a wait group.
#[derive(Clone, Copy, PartialEq, Eq)]
pub enum GroupPlace {
    /// It doesn't wait.
    Out,
    /// It waits for the counter to be 0.
    Waiting,
    /// The counter was 0, and it may leave.
    Released,
}

impl GroupPlace {
    // Where the caller stands once those who wait are released.
    fn released(self) -> Self
        ensures { result ≡ released self }
    {
        match self {
            GroupPlace::Waiting => GroupPlace::Released,
            GroupPlace::Out | GroupPlace::Released => self,
        }
    }
}

/// What `GroupCore::wait` answers.
#[derive(Clone, Copy, PartialEq, Eq)]
pub enum GroupWait {
    /// The counter is 0: the wait returned at once.
    Done,
    /// The caller waits.
    Queued,
}

impl From<GroupWait> for GroupReply {
    ghost from_gives = { λ wait reply. reply ≡ reply_of_wait wait };

    fn from(wait: GroupWait) -> Self {
        match wait {
            GroupWait::Done => GroupReply::Done,
            GroupWait::Queued => GroupReply::Queued,
        }
    }
}

impl From<Result<(), Misuse>> for GroupReply {
    ghost from_gives = { λ outcome reply. reply ≡ reply_of_result outcome };

    fn from(outcome: Result<(), Misuse>) -> Self {
        match outcome {
            Ok(()) => GroupReply::Done,
            Err(misuse) => GroupReply::Misused(misuse),
        }
    }
}

/// The state of a wait group: its counter, 0 to 2^31 - 1, and where each caller stands.
#[derive(Drop)]
pub struct GroupCore {
    counter: u32,
    places: Vec<GroupPlace>,
    // Whether somebody waits. Else the places needn't be looked through.
    waiting: bool,
    // Those whom the latest addition released.
    released: Callers,
}

impl Model for GroupCore {
    ghost use Rattle.std.specs.Prelude.{◌≡◌};
    ghost use Rattle.std.specs.List.{list_any};
    ghost use Rattle.wait_cores.specs.GroupMachine.{GroupState, is_waiting};

    ghost Value = { GroupState };

    ghost view = { λ c. record { counter = c.counter; places = c.places.items } };

    ghost invariant = { λ c. c.waiting ≡ list_any is_waiting c.places.items };
}

impl GroupCore {
    /// A group with counter 0 at which nobody waits, for callers 0 to `callers - 1`. This call alone takes memory.
    pub fn new(alloc: Global, callers: u32) -> Result<Self, AllocError>
        requires some { 1 ≤ callers }
        requires few { callers ≤ 64 }
        ensures start { IfOk result (λ core. core ≡ start callers) }
        ensures callers { IfOk result (λ core. callers_of core ≡ callers) }
    {
        Ok(GroupCore {
            counter: 0,
            places: vec![in alloc; GroupPlace::Out; callers as usize]?,
            waiting: false,
            released: Callers::nobody(),
        })
    }

    /// Adds to the counter, and releases all who wait where it comes to 0. Refused, with nothing changed, exactly where
    /// the counter would be below 0 or above 2^31 - 1.
    pub fn add(&mut self, delta: i32) -> Result<(), Misuse>
        ensures step { (caller : ℕ) → caller < callers_of self.old
            → next self.old caller (GroupEvent.Add delta) ≡ (self.new, reply_of_result result) }
        ensures callers { callers_of self.new ≡ callers_of self.old }
    {
        match self.counter.checked_add_signed(delta) {
            Some(counter) if counter <= MAX_COUNTER => {
                self.counter = counter;
                self.released = Callers::nobody();
                if counter == 0 {
                    self.release_all();
                }
                Ok(())
            }
            _ => Err(Misuse::NegativeWaitGroupCounter),
        }
    }

    /// Comes to wait until the counter is 0.
    pub fn wait(&mut self, caller: u32) -> GroupWait
        requires is_caller { caller < callers_of self.old }
        requires is_out { place_of self.old caller ≡ GroupPlace.Out }
        ensures step { next self.old caller GroupEvent.Wait ≡ (self.new, reply_of_wait result) }
        ensures callers { callers_of self.new ≡ callers_of self.old }
    {
        if self.counter == 0 {
            return GroupWait::Done;
        }
        self.places[caller as usize] = GroupPlace::Waiting;
        self.waiting = true;
        GroupWait::Queued
    }

    /// Takes a released caller out. It is a misuse exactly where the group is in use again, with a counter other than 0
    /// or somebody who waits.
    pub fn leave(&mut self, caller: u32) -> Result<(), Misuse>
        requires { place_of self.old caller ≡ GroupPlace.Released }
        ensures step { next self.old caller GroupEvent.Leave ≡ (self.new, reply_of_result result) }
        ensures callers { callers_of self.new ≡ callers_of self.old }
    {
        let reused = self.is_reused();
        self.places[caller as usize] = GroupPlace::Out;
        if reused {
            Err(Misuse::WaitGroupReused)
        } else {
            Ok(())
        }
    }

    /// Where the caller stands.
    pub fn place(&self, caller: u32) -> GroupPlace
        requires { caller < callers_of self.now }
        ensures { result ≡ place_of self.now caller }
    {
        self.places[caller as usize]
    }

    /// What an event of a caller does, whoever it is and wherever it stands: the call of that event, or nothing where the
    /// call's conditions aren't met.
    pub fn step(&mut self, caller: u32, event: GroupEvent) -> GroupReply
        ensures step { next self.old caller event ≡ (self.new, result) }
        ensures callers { callers_of self.new ≡ callers_of self.old }
    {
        if caller as usize >= self.places.len() {
            return GroupReply::Still;
        }
        match (event, self.place(caller)) {
            (GroupEvent::Add(delta), _) => self.add(delta).into(),
            (GroupEvent::Wait, GroupPlace::Out) => self.wait(caller).into(),
            (GroupEvent::Leave, GroupPlace::Released) => self.leave(caller).into(),
            _ => GroupReply::Still,
        }
    }

    // Releases all who wait, and keeps who they are.
    fn release_all(&mut self)
        ensures { self.new ≡ record self.old { places = map released self.old.places } }
    {
        if !self.waiting {
            return;
        }
        self.released = waiters(&self.places);
        release(&mut self.places);
        self.waiting = false;
    }

    // Whether the group is in use again: its counter isn't 0, or somebody waits.
    fn is_reused(&self) -> bool
        ensures { result ≡ is_reused self.now }
    {
        self.counter != 0 || self.waiting
    }
}

/// After the documentation of Go's `sync`, an addition of a number below 0, as `Done` makes one, synchronizes before the
/// return of a wait that it unblocks.
impl Machine for GroupCore {
    type State = GroupCore;

    type Event = GroupEvent;

    type Reply = GroupReply;

    const HALTS: bool = true;

    ghost HALTS = { true };

    ghost next = { next };

    ghost frees = { group_releases };

    ghost takes = { group_acquires };

    #[inline(always)]
    fn step(state: &mut GroupCore, caller: u32, event: GroupEvent) -> GroupReply {
        state.step(caller, event)
    }

    fn releases(event: &GroupEvent, reply: &GroupReply) -> bool {
        match event {
            GroupEvent::Add(delta) => *delta < 0 && matches!(reply, GroupReply::Done),
            GroupEvent::Wait | GroupEvent::Leave => false,
        }
    }

    fn acquires(event: &GroupEvent, reply: &GroupReply) -> bool {
        match event {
            GroupEvent::Add(_) => false,
            GroupEvent::Wait | GroupEvent::Leave => matches!(reply, GroupReply::Done),
        }
    }

    /// An addition that comes to 0 lets those go on whom it releases.
    fn wakes(state: &GroupCore, event: &GroupEvent, reply: &GroupReply) -> Callers {
        match (event, reply) {
            (GroupEvent::Add(_), GroupReply::Done) => state.released,
            _ => Callers::nobody(),
        }
    }
}

// Its objects' word tells nothing.
impl Worded for GroupCore {
    const TELLS: bool = false;

    #[inline(always)]
    fn word(_state: &GroupCore) -> u64 {
        0
    }

    #[inline(always)]
    fn refresh(_kept: &mut GroupCore, _word: u64) {}

    #[inline(always)]
    fn quick(
        kept: &mut GroupCore,
        _word: u64,
        caller: u32,
        event: GroupEvent,
    ) -> Option<(u64, GroupReply)> {
        Some((0, Self::step(kept, caller, event)))
    }
}

// Those who wait.
fn waiters(places: &[GroupPlace]) -> Callers {
    let mut waiters = Callers::nobody();
    for (caller, place) in (0..64).zip(places) {
        if let GroupPlace::Waiting = place {
            waiters = waiters.with(caller);
        }
    }
    waiters
}

// Releases all who wait.
fn release(places: &mut [GroupPlace])
    ensures { places.new ≡ map released places.old }
{
    for place in places.iter_mut() {
        *place = place.released();
    }
}
