//! The calls of a once.
ghost use Rattle.std.specs.Prelude.{◌≡◌, ◌≢◌, ◌<◌, List};
ghost use Rattle.sync_model.specs.declared.answer.Answer.TheVariants.{Done};
ghost use Rattle.sync_model.specs.Front.{SameCounts};
ghost use Rattle.wait_cores.specs.declared.once.OnceEvent.{OnceEvent};
ghost use Rattle.wait_cores.specs.declared.once.OnceReply.{OnceReply};
ghost use Rattle.ruled_object.specs.Growth.{Placed, KeepsNote, MeetsHalt, deeds_of};
ghost use Rattle.ruled_object.specs.Passes.{left_of, number_of, IsOneLess, SamePass};
ghost use Rattle.go_waits.specs.declared.once_begun.OnceBegun.TheVariants.{Already};
ghost use Rattle.go_waits.specs.OnceCalls.{Begins, EndsFunction, RunsOnce, StandsAs};
ghost use Rattle.go_waits.specs.Onces.{OnceGrows, IsHomeOf, IsPassOf, IsRunnerOf, IsOnceLawful};

use super::{Once, OncePass};
use crate::answers::{begun, done};
use crate::once_begun::{OnceBegun, Running};
use call_loop::{call, call_within};
use protocols::OnceStage;
use std::sync::Wait;
use sync_model::laws::journals::journal_is_log;
use sync_model::{Answer, Note};
use sync_outside::{At, Clock};
use wait_cores::OnceCore;
use wait_cores::laws::once::runs_once;

impl<T: Copy, N: Note> Once<T, N> {
    /// Comes to have the function run. The first caller is to run it, and has to `end` it; each other one waits for that end.
    ///
    /// The end synchronizes before the return of each call that finds the function ended. Where the caller is to run it, and
    /// where it is halted, its note knows what it knew.
    pub fn begin<C: Clock, R: Wait>(
        &self,
        rt: &R,
        at: &At<N, C>,
        pass: &mut OncePass<T, N>,
        note: &mut N,
    ) -> Answer<OnceBegun<T>>
        requires pass { IsPassOf self.now pass.old × (0 < left_of pass.old) }
        requires home { IsHomeOf N.at self.now at.now.home.now × N.at at.now.home.now note.old }
        ensures pass { StandsAs self.now pass.new result × IsOneLess pass.old pass.new }
        ensures note { KeepsNote N.at N.own N.front note.old note.new }
        ensures events { (es : List (Placed (OnceEvent T) (OnceReply T))) × OnceGrows self.now pass.old (N.front note.old) es pass.new (N.front note.new) × Begins (deeds_of es) result × MeetsHalt es result }
        ensures once { RunsOnce pass.new }
        ensures no_edge { ((kept : T) → result ≢ Done (Already kept)) → SameCounts (N.front note.new) (N.front note.old) }
        ensures journal { IsOnceLawful self.now pass.new }
    {
        journal_is_log::<OnceCore<T>>();
        runs_once::<T>();
        let caller = pass.number();
        let answer = call(&self.object, rt, at, pass, note, OnceStage::Begin);
        begun(answer, caller)
    }

    /// Ends the function that the caller was to run, with what it came to, and releases all who wait.
    pub fn end<C: Clock, R: Wait>(
        &self,
        running: Running,
        rt: &R,
        at: &At<N, C>,
        pass: &mut OncePass<T, N>,
        note: &mut N,
        kept: T,
    ) -> Answer<()>
        requires running { running.caller ≡ number_of pass.old }
        requires pass { IsRunnerOf self.now pass.old }
        requires home { IsHomeOf N.at self.now at.now.home.now × N.at at.now.home.now note.old }
        ensures pass { IsPassOf self.now pass.new × SamePass pass.old pass.new }
        ensures note { KeepsNote N.at N.own N.front note.old note.new }
        ensures events { (es : List (Placed (OnceEvent T) (OnceReply T))) × OnceGrows self.now pass.old (N.front note.old) es pass.new (N.front note.new) × EndsFunction kept (deeds_of es) result × MeetsHalt es result }
        ensures once { RunsOnce pass.new }
        ensures no_edge { SameCounts (N.front note.new) (N.front note.old) }
        ensures journal { IsOnceLawful self.now pass.new }
    {
        journal_is_log::<OnceCore<T>>();
        runs_once::<T>();
        let Running { caller: _ } = running;
        done(call_within(&self.object, rt, at, pass, note, OnceStage::End(kept)))
    }
}
