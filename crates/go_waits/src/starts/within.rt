//! `start` as a part of a longer call, which takes one off the calls that are left: a wait group's `go`.
ghost use Rattle.std.specs.Prelude.{◌≡◌, ◌<◌};
ghost use Rattle.sync_model.specs.Front.{SameCounts};
ghost use Rattle.starts_core.specs.declared.starts.StartEvent.{StartEvent};
ghost use Rattle.ruled_object.specs.Growth.{KeepsNote};
ghost use Rattle.ruled_object.specs.Passes.{left_of, IsSpent, SamePass};
ghost use Rattle.go_waits.specs.StartCalls.{StartsDid, MakesStart};
ghost use Rattle.go_waits.specs.Startings.{IsHomeOf, IsPassOf, IsStartsLawful};

use super::{Starts, StartsPass};
use crate::answers::done;
use call_loop::call_within;
use starts_core::StartsStage;
use std::sync::Wait;
use sync_model::{Answer, Note};
use sync_outside::{At, Clock};

impl<N: Note> Starts<N> {
    // Takes one off the calls that are left, for a longer call. It is no event.
    pub(crate) fn spend_within(&self, pass: &mut StartsPass<N>)
        requires { IsPassOf self.now pass.old × (0 < left_of pass.old) }
        ensures { IsPassOf self.now pass.new × IsSpent pass.old pass.new }
    {
        self.object.spend(pass);
    }

    // The event of `start`, and its answer. It takes nothing off the calls that are left.
    pub(crate) fn start_within<C: Clock, R: Wait>(
        &self,
        rt: &R,
        at: &At<N, C>,
        pass: &mut StartsPass<N>,
        note: &mut N,
        worker: u32,
    ) -> Answer<()>
        requires pass { IsPassOf self.now pass.old }
        requires home { IsHomeOf N.at self.now at.now.home.now × N.at at.now.home.now note.old }
        ensures pass { IsPassOf self.now pass.new × SamePass pass.old pass.new }
        ensures note { KeepsNote N.at N.own N.front note.old note.new }
        ensures events { StartsDid self.now (MakesStart (StartEvent.Start worker)) pass.old (N.front note.old) result pass.new (N.front note.new) }
        ensures no_edge { SameCounts (N.front note.new) (N.front note.old) }
        ensures journal { IsStartsLawful self.now pass.new }
    {
        done(call_within(&self.object, rt, at, pass, note, StartsStage::Start(worker)))
    }
}
