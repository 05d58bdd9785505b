//! The wait group of a synced map.
ghost use Rattle.std.specs.Prelude.{◌≡◌, ℕ, ◌<◌, Ok, negsuc};
ghost use Rattle.sync_model.specs.declared.answer.Answer.TheVariants.{Done};
ghost use Rattle.wait_cores.specs.GroupEdges.{group_releases};
ghost use Rattle.go_waits.specs.GroupCalls.{Adds, Waits};
ghost use Rattle.go_waits.specs.Groups.{IsPassOf};
ghost use Rattle.ruled_object.specs.Passes.{left_of};
ghost use Rattle.ruled_object.specs.Renewals.{IsRenewed};
ghost use Rattle.synced_map.specs.SyncedCalls.{known_by, OnGroup};
ghost use Rattle.synced_map.specs.Telling.{KnowsBy, Tells};

use super::SyncedMapCaller;
use go_waits::{GroupPass, WaitGroup};
use ruled_object::MAX_CALLS;
use shared_table::SharedNote;
use std::sync::Wait;
use sync_model::Answer;
use sync_outside::{At, Clock};
use sync_types::Misuse;

// A pass that is good for a call: where none is left it is renewed.
fn ready(group: &WaitGroup<SharedNote>, pass: &mut GroupPass<SharedNote>)
    requires { IsPassOf group.now pass.old }
    ensures pass { IsPassOf group.now pass.new × (0 < left_of pass.new) }
    ensures same { (calls : ℕ) × IsRenewed calls pass.old pass.new }
{
    if pass.left() == 0 {
        group.renew(pass, MAX_CALLS);
    }
}

impl<C: Clock> SyncedMapCaller<'_, C> {
    /// Go's `Add`. A counter below 0, or above 2^31 - 1, is a misuse, which it answers, and nothing changes.
    #[tactic(auto, using(crate::proofs::Renewed::grew_with))]
    pub fn add<R: Wait>(&mut self, rt: &R, delta: i32) -> Answer<Result<(), Misuse>>
        ensures { OnGroup (Adds delta) self.old result self.new }
    {
        ready(&self.map.group, &mut self.group_pass);
        let at: At<SharedNote, C> = At {
            home: &self.map.table,
            clock: self.clock,
        };
        self.map.group.add(rt, &at, &mut self.group_pass, &mut self.caller.note, delta)
    }

    /// Go's `Done`: takes 1 from the counter, and tells each later `wait` that returns all that the caller knows.
    #[tactic(auto, using(crate::proofs::Renewed::grew_with))]
    pub fn done<R: Wait>(&mut self, rt: &R) -> Answer<Result<(), Misuse>>
        ensures made { OnGroup (Adds (negsuc 0)) self.old result self.new }
        ensures tells { result ≡ Done (Ok tt) → Tells group_releases (known_by self.old) self.old.group_pass self.new.group_pass }
    {
        ready(&self.map.group, &mut self.group_pass);
        let at: At<SharedNote, C> = At {
            home: &self.map.table,
            clock: self.clock,
        };
        self.map
            .group
            .done(rt, &at, &mut self.group_pass, &mut self.caller.note)
    }

    /// Go's `Wait`: waits until the counter is 0. The caller then knows all that each `done` before it knew.
    #[tactic(auto, using(crate::proofs::Renewed::grew_with))]
    pub fn wait<R: Wait>(&mut self, rt: &R) -> Answer<Result<(), Misuse>>
        ensures made { OnGroup Waits self.old result self.new }
        ensures told { result ≡ Done (Ok tt) → KnowsBy group_releases self.new.group_pass (known_by self.new) }
    {
        ready(&self.map.group, &mut self.group_pass);
        let at: At<SharedNote, C> = At {
            home: &self.map.table,
            clock: self.clock,
        };
        self.map
            .group
            .wait(rt, &at, &mut self.group_pass, &mut self.caller.note)
    }
}
