//! The calls of a wait group.
ghost use Rattle.std.specs.Prelude.{◌≡◌, ◌≢◌, ◌<◌, List, negsuc, Ok};
ghost use Rattle.sync_model.specs.declared.answer.Answer.TheVariants.{Done};
ghost use Rattle.sync_model.specs.Front.{SameCounts};
ghost use Rattle.ruled_object.specs.Growth.{Placed, KeepsNote, MeetsHalt, deeds_of};
ghost use Rattle.ruled_object.specs.Passes.{left_of, IsOneLess};
ghost use Rattle.wait_cores.specs.declared.group.GroupEvent.{GroupEvent};
ghost use Rattle.wait_cores.specs.declared.group.GroupReply.{GroupReply};
ghost use Rattle.go_waits.specs.GroupCalls.{Adds, Waits};
ghost use Rattle.go_waits.specs.Groups.{GroupGrows, IsHomeOf, IsPassOf, IsGroupLawful};

use super::{GroupPass, WaitGroup};
use call_loop::call;
use protocols::GroupStage;
use std::sync::Wait;
use sync_model::{Answer, Note};
use sync_outside::{At, Clock};
use sync_types::Misuse;

impl<N: Note> WaitGroup<N> {
    /// Go's `Add`: adds to the counter, and releases all who wait where it comes to 0. A counter below 0, or above
    /// 2^31 - 1, is a misuse, and nothing changes.
    ///
    /// An `add` of a number below 0 synchronizes before the return of each later `wait`. Its own caller learns nothing.
    pub fn add<C: Clock, R: Wait>(
        &self,
        rt: &R,
        at: &At<N, C>,
        pass: &mut GroupPass<N>,
        note: &mut N,
        delta: i32,
    ) -> Answer<Result<(), Misuse>>
        requires pass { IsPassOf self.now pass.old × (0 < left_of pass.old) }
        requires home { IsHomeOf N.at self.now at.now.home.now × N.at at.now.home.now note.old }
        ensures pass { IsPassOf self.now pass.new × IsOneLess pass.old pass.new }
        ensures note { KeepsNote N.at N.own N.front note.old note.new }
        ensures events { (es : List (Placed GroupEvent GroupReply)) × GroupGrows self.now pass.old (N.front note.old) es pass.new (N.front note.new) × Adds delta (deeds_of es) result × MeetsHalt es result }
        ensures no_edge { SameCounts (N.front note.new) (N.front note.old) }
        ensures journal { IsGroupLawful self.now pass.new }
    {
        call(&self.object, rt, at, pass, note, GroupStage::Add(delta))
    }

    /// Go's `Done`: takes 1 from the counter.
    pub fn done<C: Clock, R: Wait>(
        &self,
        rt: &R,
        at: &At<N, C>,
        pass: &mut GroupPass<N>,
        note: &mut N,
    ) -> Answer<Result<(), Misuse>>
        requires pass { IsPassOf self.now pass.old × (0 < left_of pass.old) }
        requires home { IsHomeOf N.at self.now at.now.home.now × N.at at.now.home.now note.old }
        ensures pass { IsPassOf self.now pass.new × IsOneLess pass.old pass.new }
        ensures note { KeepsNote N.at N.own N.front note.old note.new }
        ensures events { (es : List (Placed GroupEvent GroupReply)) × GroupGrows self.now pass.old (N.front note.old) es pass.new (N.front note.new) × Adds (negsuc 0) (deeds_of es) result × MeetsHalt es result }
        ensures no_edge { SameCounts (N.front note.new) (N.front note.old) }
        ensures journal { IsGroupLawful self.now pass.new }
    {
        self.add(rt, at, pass, note, -1)
    }

    /// Go's `Wait`: waits until the counter is 0. It is a misuse exactly where the group is in use again, with a counter
    /// other than 0 or somebody who waits, before the caller that was released has left.
    ///
    /// Each earlier `done`, and `add` of a number below 0, synchronizes before its return, but where it is a misuse or
    /// halted: then its note knows what it knew.
    pub fn wait<C: Clock, R: Wait>(
        &self,
        rt: &R,
        at: &At<N, C>,
        pass: &mut GroupPass<N>,
        note: &mut N,
    ) -> Answer<Result<(), Misuse>>
        requires pass { IsPassOf self.now pass.old × (0 < left_of pass.old) }
        requires home { IsHomeOf N.at self.now at.now.home.now × N.at at.now.home.now note.old }
        ensures pass { IsPassOf self.now pass.new × IsOneLess pass.old pass.new }
        ensures note { KeepsNote N.at N.own N.front note.old note.new }
        ensures events { (es : List (Placed GroupEvent GroupReply)) × GroupGrows self.now pass.old (N.front note.old) es pass.new (N.front note.new) × Waits (deeds_of es) result × MeetsHalt es result }
        ensures no_edge { result ≢ Done (Ok tt) → SameCounts (N.front note.new) (N.front note.old) }
        ensures journal { IsGroupLawful self.now pass.new }
    {
        call(&self.object, rt, at, pass, note, GroupStage::Wait)
    }
}
