//! A pool, and the passes of its callers.
ghost use Rattle.std.specs.Prelude.{◌≡◌, ◌≤◌, IfOk};
ghost use Rattle.sync_model.specs.Note.{SameHome};
ghost use Rattle.pool_core.specs.PartMachine.{part_start};
ghost use Rattle.protocols.specs.PoolStages.{pool_stands};
ghost use Rattle.ruled_object.specs.Passes.{callers_of, start_of};
ghost use Rattle.ruled_object.specs.Passes as object;
ghost use Rattle.call_loop.specs.Between.{AreNewBetween};
ghost use Rattle.go_pool.specs.Parts.{AreParts};

use crate::columns::transpose;
use crate::pass::PartPass;
pub use crate::pass::PoolPass;
use pool_core::PartCore;
use ruled_object::{MAX_CALLS, Object};
use std::alloc::{AllocError, Global};
use sync_model::{MAX_CALLERS, Note};

/// A pool of numbers that callers share. Each part is an object of its own, so that callers at different parts don't wait for
/// each other.
#[derive(Drop)]
pub struct Pool<N: Note> {
    pub(crate) parts: Vec<Object<PartCore, N>>,
    pub(crate) callers: u32,
    pub(crate) room: u32,
    pub(crate) fresh: u64,
    ghost few: { (1 ≤ callers) × (callers ≤ 64) },
    ghost are: { AreParts callers room parts.items },
}

impl<N: Note> Pool<N> {
    ghost use Rattle.go_pool.specs.Pools.{parts_of, room_of, fresh_of, AreNew, IsHomeOf};

    /// An empty pool for callers 0 to `callers - 1`, and their passes, each good for `calls` calls. Each caller's part has
    /// room for a private item and `room` shared ones, in memory that is taken here. `fresh` is what a get answers that
    /// finds nothing. Each part keeps a copy of `note` for what puts leave.
    pub fn new(
        alloc: Global,
        home: &N::Home,
        callers: u32,
        room: u32,
        fresh: u64,
        calls: u64,
        note: N,
    ) -> Result<(Self, Vec<PoolPass<N>>), AllocError>
        requires callers { (1 ≤ callers) × (callers ≤ MAX_CALLERS) }
        requires calls { calls ≤ MAX_CALLS }
        requires home { N.at home.now note }
        ensures pool { IfOk result (λ made. (parts_of made.0 ≡ callers) × (room_of made.0 ≡ room) × (fresh_of made.0 ≡ fresh)) }
        ensures home { IfOk result (λ made. (home : N.Home) → N.at home note → IsHomeOf N.at made.0 home) }
        ensures passes { IfOk result (λ made. AreNew made.0 calls made.1.items) }
    {
        let mut parts = Vec::with_capacity(alloc, callers as usize)?;
        let mut passes = Vec::with_capacity(alloc, callers as usize)?;
        let mut note = note;
        for number in 0..callers {
            let (part, column) = new_part(alloc, home, callers, room, &mut note)?;
            parts.push(part)?;
            passes.push(PoolPass {
                number,
                left: calls,
                parts: column,
            })?;
        }
        transpose(&mut passes);
        let pool = Pool {
            parts,
            callers,
            room,
            fresh,
        };
        Ok((pool, passes))
    }

    /// How many shared items each part has room for.
    pub fn room(&self) -> u32
        ensures { result ≡ room_of self.now }
    {
        self.room
    }
}

// An empty part, which keeps a copy of the note, and the passes of its callers. The calls are counted by the pool's pass.
fn new_part<N: Note>(
    alloc: Global,
    home: &N::Home,
    callers: u32,
    room: u32,
    note: &mut N,
) -> Result<(Object<PartCore, N>, Vec<PartPass<N>>), AllocError>
    requires callers { (1 ≤ callers) × (callers ≤ MAX_CALLERS) }
    requires home { N.at home.now note.old }
    ensures note { SameHome N.at note.old note.new }
    ensures part { IfOk result (λ made. (callers_of made.0 ≡ callers) × (start_of made.0 ≡ part_start room)) }
    ensures home { IfOk result (λ made. (home : N.Home) → N.at home note.old → object.IsHomeOf N.at made.0 home) }
    ensures passes { IfOk result (λ made. AreNewBetween tt pool_stands made.0 0 made.1.items) }
{
    let core = PartCore::new(alloc, room)?;
    let own = note.copy(home);
    let (object, passes) = call_loop::new(alloc, callers, 0, core, own)?;
    Ok((object, passes))
}
