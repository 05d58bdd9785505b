//! One part of a pool as a machine of its own. A pool that threads share is made of these, one for each caller.
ghost use Rattle.std.specs.Prelude.{◌≡◌, true, if◌then◌else◌, IfOk};
ghost use Rattle.pool_core.specs.Edges.{pool_releases, pool_acquires};
ghost use Rattle.pool_core.specs.PartMachine.{part_start, part_next, in_victims};
ghost use Rattle.pool_core.specs.PoolParts.{take_tail, take_victim, reply_of_look};

use crate::part::Part;
use crate::pool::PoolCore;
use crate::pool_event::{PoolEvent, PoolReply};
use std::alloc::{AllocError, Global};
use std::marker::Model;
use std::mem;
use sync_model::{Machine, Worded};

/// The state of one part: its items in the primary generation, and those among the victims.
#[derive(Drop)]
pub struct PartCore {
    primary: Part,
    victims: Part,
}

impl Model for PartCore {
    ghost use Rattle.std.specs.Prelude.{ℕ};
    ghost use Rattle.pool_core.specs.PartMachine.{PartState};

    ghost Value = { PartState ℕ };

    ghost view = { λ c. record { primary = c.primary; victims = c.victims } };
}

impl PartCore {
    /// An empty part, with memory for `room` shared items in both generations. This call alone takes memory.
    pub fn new(alloc: Global, room: u32) -> Result<Self, AllocError>
        ensures { IfOk result (λ core. core ≡ part_start room) }
    {
        let primary = Part::new(alloc, room)?;
        let victims = Part::new(alloc, room)?;
        Ok(PartCore { primary, victims })
    }

    /// What an event about this part does, whoever makes it.
    pub fn step(&mut self, caller: u32, event: PoolEvent<u64>) -> PoolReply<u64>
        ensures { part_next self.old caller event ≡ (self.new, result) }
    {
        match event {
            PoolEvent::Put(item) => self.primary.put(item).into(),
            PoolEvent::LookOwn => self.primary.take_own().into(),
            PoolEvent::LookOther(_) => self.primary.take_tail().into(),
            PoolEvent::LookVictim(part) => self.look_victim(part == caller).into(),
            PoolEvent::Sweep => {
                mem::swap(&mut self.primary, &mut self.victims);
                self.primary.clear();
                PoolReply::Swept
            }
        }
    }

    // Takes an item of the victims: the private one only where the part is the caller's own.
    fn look_victim(&mut self, own: bool) -> Option<u64>
        ensures { in_victims ((if own then take_victim else take_tail) self.old.victims) self.old ≡ (self.new, reply_of_look result) }
    {
        if own {
            self.victims.take_victim()
        } else {
            self.victims.take_tail()
        }
    }
}

/// As in the whole pool: a put that is kept synchronizes before the look that takes its item.
impl Machine for PartCore {
    type State = PartCore;

    type Event = PoolEvent<u64>;

    type Reply = PoolReply<u64>;

    const HALTS: bool = true;

    ghost HALTS = { true };

    ghost next = { part_next };

    ghost frees = { pool_releases };

    ghost takes = { pool_acquires };

    #[inline(always)]
    fn step(state: &mut PartCore, caller: u32, event: PoolEvent<u64>) -> PoolReply<u64> {
        state.step(caller, event)
    }

    fn releases(event: &PoolEvent<u64>, reply: &PoolReply<u64>) -> bool {
        PoolCore::releases(event, reply)
    }

    fn acquires(event: &PoolEvent<u64>, reply: &PoolReply<u64>) -> bool {
        PoolCore::acquires(event, reply)
    }
}

// Its objects' word tells nothing.
impl Worded for PartCore {
    const TELLS: bool = false;

    #[inline(always)]
    fn word(_state: &PartCore) -> u64 {
        0
    }

    #[inline(always)]
    fn refresh(_kept: &mut PartCore, _word: u64) {}

    #[inline(always)]
    fn quick(
        kept: &mut PartCore,
        _word: u64,
        caller: u32,
        event: PoolEvent<u64>,
    ) -> Option<(u64, PoolReply<u64>)> {
        Some((0, Self::step(kept, caller, event)))
    }
}
