//! Putting an item into a pool, and removing what lies there.
ghost use Rattle.std.specs.Prelude.{◌<◌};
ghost use Rattle.sync_model.specs.Front.{SameCounts};
ghost use Rattle.ruled_object.specs.Growth.{KeepsNote};
ghost use Rattle.go_pool.specs.Calls.{Puts, Sweeps};
ghost use Rattle.go_pool.specs.Items.{DropsWhereFull};
ghost use Rattle.go_pool.specs.Pools.{left_of, IsHomeOf, IsPassOf, IsLawful, IsOneLess, Did};

use crate::answers::{kept_or_dropped, swept};
use crate::pool::{Pool, PoolPass};
use pool_core::part_laws::a_part_drops_where_full;
use pool_core::{PartCore, PoolPut};
use protocols::PoolStage;
use ruled_object::laws::notes_are_kept;
use std::sync::Wait;
use sync_model::laws::journals::journal_is_log;
use sync_model::{Answer, Note};
use sync_outside::{At, Clock};

impl<N: Note> Pool<N> {
    /// Puts an item into the caller's part. It is dropped exactly where that part holds a private item and as many shared
    /// ones as it has room for. A put that is kept synchronizes before the get that takes its item.
    pub fn put<C: Clock, R: Wait>(
        &self,
        rt: &R,
        at: &At<N, C>,
        pass: &mut PoolPass<N>,
        note: &mut N,
        item: u64,
    ) -> Answer<PoolPut>
        requires pass { IsPassOf self.now pass.old × (0 < left_of pass.old) }
        requires home { IsHomeOf N.at self.now at.now.home.now × N.at at.now.home.now note.old }
        ensures pass { IsPassOf self.now pass.new × IsOneLess pass.old pass.new }
        ensures note { KeepsNote N.at N.own N.front note.old note.new }
        ensures events { Did self.now (Puts item) pass.old (N.front note.old) result pass.new (N.front note.new) }
        ensures dropped { DropsWhereFull self.now pass.new item result }
        ensures no_edge { SameCounts (N.front note.new) (N.front note.old) }
        ensures journal { IsLawful self.now pass.new }
    {
        journal_is_log::<PartCore>();
        a_part_drops_where_full();
        pass.left -= 1;
        let own = pass.number();
        kept_or_dropped(self.at_part(rt, at, pass, note, own, PoolStage::Put(item)))
    }

    /// Removes the victims, and makes the items of the parts the victims, part by part from 0 up: an item is removed by the
    /// second sweep after its put.
    pub fn sweep<C: Clock, R: Wait>(
        &self,
        rt: &R,
        at: &At<N, C>,
        pass: &mut PoolPass<N>,
        note: &mut N,
    ) -> Answer<()>
        requires pass { IsPassOf self.now pass.old × (0 < left_of pass.old) }
        requires home { IsHomeOf N.at self.now at.now.home.now × N.at at.now.home.now note.old }
        ensures pass { IsPassOf self.now pass.new × IsOneLess pass.old pass.new }
        ensures note { KeepsNote N.at N.own N.front note.old note.new }
        ensures events { Did self.now Sweeps pass.old (N.front note.old) result pass.new (N.front note.new) }
        ensures no_edge { SameCounts (N.front note.new) (N.front note.old) }
        ensures journal { IsLawful self.now pass.new }
    {
        notes_are_kept::<N>();
        pass.left -= 1;
        for part in 0..self.callers {
            match swept(self.at_part(rt, at, pass, note, part, PoolStage::Sweep)) {
                Answer::Done(()) => {}
                Answer::Halted(misuse) => return Answer::Halted(misuse),
            }
        }
        Answer::Done(())
    }
}
