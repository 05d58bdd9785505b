//! The calls of a worker.
ghost use Rattle.std.specs.Prelude.{◌≡◌, ◌≢◌, ◌<◌, true};
ghost use Rattle.sync_model.specs.declared.answer.Answer.TheVariants.{Done};
ghost use Rattle.sync_model.specs.Front.{SameCounts};
ghost use Rattle.starts_core.specs.declared.starts.StartEvent.{StartEvent};
ghost use Rattle.ruled_object.specs.Growth.{KeepsNote};
ghost use Rattle.ruled_object.specs.Passes.{left_of, IsOneLess};
ghost use Rattle.go_waits.specs.StartCalls.{StartsDid, MakesStart, WaitsStart};
ghost use Rattle.go_waits.specs.Startings.{IsHomeOf, IsPassOf, IsStartsLawful};

use super::{Starts, StartsPass};
use crate::answers::{done, started};
use call_loop::call;
use starts_core::StartsStage;
use std::sync::Wait;
use sync_model::{Answer, Note};
use sync_outside::{At, Clock};

impl<N: Note> Starts<N> {
    /// Starts the worker with this number, if there is one that waits to be started. A start of anybody else changes nothing.
    ///
    /// It synchronizes before the return of the worker's `wait_start`. Its own caller learns nothing.
    pub fn start<C: Clock, R: Wait>(
        &self,
        rt: &R,
        at: &At<N, C>,
        pass: &mut StartsPass<N>,
        note: &mut N,
        worker: u32,
    ) -> Answer<()>
        requires pass { IsPassOf self.now pass.old × (0 < left_of pass.old) }
        requires home { IsHomeOf N.at self.now at.now.home.now × N.at at.now.home.now note.old }
        ensures pass { IsPassOf self.now pass.new × IsOneLess pass.old pass.new }
        ensures note { KeepsNote N.at N.own N.front note.old note.new }
        ensures events { StartsDid self.now (MakesStart (StartEvent.Start worker)) pass.old (N.front note.old) result pass.new (N.front note.new) }
        ensures no_edge { SameCounts (N.front note.new) (N.front note.old) }
        ensures journal { IsStartsLawful self.now pass.new }
    {
        done(call(&self.object, rt, at, pass, note, StartsStage::Start(worker)))
    }

    /// Says that a live worker has made all its calls. Where nobody is live any more, all who wait to be started are woken. An end
    /// of anybody else changes nothing.
    ///
    /// It synchronizes before each later return of a `wait_start` that was started. Its own caller learns nothing.
    pub fn end<C: Clock, R: Wait>(
        &self,
        rt: &R,
        at: &At<N, C>,
        pass: &mut StartsPass<N>,
        note: &mut N,
    ) -> Answer<()>
        requires pass { IsPassOf self.now pass.old × (0 < left_of pass.old) }
        requires home { IsHomeOf N.at self.now at.now.home.now × N.at at.now.home.now note.old }
        ensures pass { IsPassOf self.now pass.new × IsOneLess pass.old pass.new }
        ensures note { KeepsNote N.at N.own N.front note.old note.new }
        ensures events { StartsDid self.now (MakesStart StartEvent.End) pass.old (N.front note.old) result pass.new (N.front note.new) }
        ensures no_edge { SameCounts (N.front note.new) (N.front note.old) }
        ensures journal { IsStartsLawful self.now pass.new }
    {
        done(call(&self.object, rt, at, pass, note, StartsStage::End))
    }

    /// Waits until the caller is started, or nobody is left who could start it. True where it was started: it is live, and makes its
    /// calls. False where nobody is live: then it is never started, if live workers alone start others.
    ///
    /// A live caller is told to go at once. One that has ended waits until it is halted.
    ///
    /// Each earlier `start` and `end` synchronizes before the return with true. Whoever is never started, or halted, learns nothing.
    pub fn wait_start<C: Clock, R: Wait>(
        &self,
        rt: &R,
        at: &At<N, C>,
        pass: &mut StartsPass<N>,
        note: &mut N,
    ) -> Answer<bool>
        requires pass { IsPassOf self.now pass.old × (0 < left_of pass.old) }
        requires home { IsHomeOf N.at self.now at.now.home.now × N.at at.now.home.now note.old }
        ensures pass { IsPassOf self.now pass.new × IsOneLess pass.old pass.new }
        ensures note { KeepsNote N.at N.own N.front note.old note.new }
        ensures events { StartsDid self.now WaitsStart pass.old (N.front note.old) result pass.new (N.front note.new) }
        ensures no_edge { result ≢ Done true → SameCounts (N.front note.new) (N.front note.old) }
        ensures journal { IsStartsLawful self.now pass.new }
    {
        started(call(&self.object, rt, at, pass, note, StartsStage::WaitStart))
    }
}
