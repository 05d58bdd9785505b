//! One event at one part of a pool.
ghost use Rattle.std.specs.Prelude.{◌≡◌, ◌<◌, false};
ghost use Rattle.sync_model.specs.Front.{SameCounts};
ghost use Rattle.protocols.specs.PoolStages.{pool_event, pool_meaning, pool_moment, pool_gives, pool_gains};
ghost use Rattle.protocols.specs.Spelling.{Spells, AreTimely};
ghost use Rattle.ruled_object.specs.Growth.{KeepsNote};
ghost use Rattle.call_loop.specs.Calls.{IsGiven, has_gained};
ghost use Rattle.go_pool.specs.AtParts.{DidAt};
ghost use Rattle.go_pool.specs.Pools.{parts_of, IsHomeOf, IsPassOf, SamePass};

use crate::pool::{Pool, PoolPass};
use call_loop::call_within;
use protocols::{PoolOutcome, PoolStage};
use std::sync::Wait;
use sync_model::{Answer, Note};
use sync_outside::{At, Clock};
use sync_types::Misuse;

impl<N: Note> Pool<N> {
    // Makes the event of a stage at a part. It takes nothing off the calls that are left.
    pub(crate) fn at_part<C: Clock, R: Wait>(
        &self,
        rt: &R,
        at: &At<N, C>,
        pass: &mut PoolPass<N>,
        note: &mut N,
        part: u32,
        stage: PoolStage,
    ) -> Answer<Result<PoolOutcome, Misuse>>
        requires part { part < parts_of self.now }
        requires pass { IsPassOf self.now pass.old }
        requires home { IsHomeOf N.at self.now at.now.home.now × N.at at.now.home.now note.old }
        ensures pass { IsPassOf self.now pass.new × SamePass pass.old pass.new }
        ensures note { KeepsNote N.at N.own N.front note.old note.new }
        ensures events { DidAt self.now part (Spells pool_event pool_meaning stage) (AreTimely pool_moment (C.shows at.now.clock.now)) pass.old (N.front note.old) result pass.new (N.front note.new) }
        ensures gives { IsGiven (pool_gives stage) result }
        ensures no_edge { has_gained (pool_gains stage) result ≡ false → SameCounts (N.front note.new) (N.front note.old) }
    {
        let object = &self.parts[part as usize];
        let seat = &mut pass.parts[part as usize];
        call_within(object, rt, at, seat, note, stage)
    }
}
