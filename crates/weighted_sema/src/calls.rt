//! The calls of a semaphore.
ghost use Rattle.std.specs.Prelude.{◌≡◌, ◌≢◌, ◌<◌, ◌≤◌, List, true};
ghost use Rattle.sync_types.specs.declared.misuse.Misuse.{Misuse};
ghost use Rattle.sync_model.specs.declared.answer.Answer.TheVariants.{Done, Halted};
ghost use Rattle.sync_model.specs.Front.{SameCounts};
ghost use Rattle.ruled_object.specs.Growth.{Placed, KeepsNote, MeetsHalt, deeds_of};
ghost use Rattle.ruled_object.specs.Passes.{left_of, IsOneLess};
ghost use Rattle.sema_core.specs.declared.event.SemaEvent.{SemaEvent};
ghost use Rattle.sema_core.specs.declared.event.SemaReply.{SemaReply};
ghost use Rattle.weighted_sema.specs.SemaCalls.{Acquires, Tries, Releases};
ghost use Rattle.weighted_sema.specs.Semas.{SemaGrows, IsHomeOf, IsPassOf, IsSemaLawful, IsWeightOf};

use crate::answers::{acquired, released, tried};
use crate::sema::{Sema, SemaPass};
use call_loop::call;
use sema_core::SemaStage;
use std::sync::Wait;
use sync_model::{Answer, Note};
use sync_outside::{At, Clock};
use sync_types::Misuse;

impl<N: Note> Sema<N> {
    /// Go's `Acquire`: waits until the caller has the weight. Callers are served in the order in which they came: one that comes for
    /// little waits behind one that waits for much.
    ///
    /// Each earlier `release` synchronizes before its return, but where it is halted: then its note knows what it knew.
    pub fn acquire<C: Clock, R: Wait>(
        &self,
        rt: &R,
        at: &At<N, C>,
        pass: &mut SemaPass<N>,
        note: &mut N,
        weight: u64,
    ) -> Answer<()>
        requires pass { IsPassOf self.now pass.old × (0 < left_of pass.old) }
        requires home { IsHomeOf N.at self.now at.now.home.now × N.at at.now.home.now note.old }
        requires weight { IsWeightOf self.now weight }
        ensures pass { IsPassOf self.now pass.new × IsOneLess pass.old pass.new }
        ensures note { KeepsNote N.at N.own N.front note.old note.new }
        ensures events { (es : List (Placed SemaEvent SemaReply)) × SemaGrows self.now pass.old (N.front note.old) es pass.new (N.front note.new) × Acquires weight (deeds_of es) result × MeetsHalt es result }
        ensures halted { (misuse : Misuse) → result ≡ Halted misuse → SameCounts (N.front note.new) (N.front note.old) }
        ensures journal { IsSemaLawful self.now pass.new }
    {
        acquired(call(&self.object, rt, at, pass, note, SemaStage::Acquire(weight)))
    }

    /// Go's `TryAcquire`: whether the caller has the weight, which it has exactly where an `acquire` would have it at once.
    ///
    /// Each earlier `release` synchronizes before it where it succeeds. A try that fails makes no edge.
    pub fn try_acquire<C: Clock, R: Wait>(
        &self,
        rt: &R,
        at: &At<N, C>,
        pass: &mut SemaPass<N>,
        note: &mut N,
        weight: u64,
    ) -> Answer<bool>
        requires pass { IsPassOf self.now pass.old × (0 < left_of pass.old) }
        requires home { IsHomeOf N.at self.now at.now.home.now × N.at at.now.home.now note.old }
        requires weight { IsWeightOf self.now weight }
        ensures pass { IsPassOf self.now pass.new × IsOneLess pass.old pass.new }
        ensures note { KeepsNote N.at N.own N.front note.old note.new }
        ensures events { (es : List (Placed SemaEvent SemaReply)) × SemaGrows self.now pass.old (N.front note.old) es pass.new (N.front note.new) × Tries weight (deeds_of es) result × MeetsHalt es result }
        ensures no_edge { result ≢ Done true → SameCounts (N.front note.new) (N.front note.old) }
        ensures journal { IsSemaLawful self.now pass.new }
    {
        tried(call(&self.object, rt, at, pass, note, SemaStage::Try(weight)))
    }

    /// Go's `Release`, by whichever caller: gives a weight back, and grants those their weights who wait in front, as long as they
    /// fit. More than is held is a misuse, and nothing changes.
    ///
    /// It synchronizes before each later `acquire` and each later `try_acquire` that succeeds. Its own caller learns nothing.
    pub fn release<C: Clock, R: Wait>(
        &self,
        rt: &R,
        at: &At<N, C>,
        pass: &mut SemaPass<N>,
        note: &mut N,
        weight: u64,
    ) -> Answer<Result<(), Misuse>>
        requires pass { IsPassOf self.now pass.old × (0 < left_of pass.old) }
        requires home { IsHomeOf N.at self.now at.now.home.now × N.at at.now.home.now note.old }
        requires weight { IsWeightOf self.now weight }
        ensures pass { IsPassOf self.now pass.new × IsOneLess pass.old pass.new }
        ensures note { KeepsNote N.at N.own N.front note.old note.new }
        ensures events { (es : List (Placed SemaEvent SemaReply)) × SemaGrows self.now pass.old (N.front note.old) es pass.new (N.front note.new) × Releases weight (deeds_of es) result × MeetsHalt es result }
        ensures no_edge { SameCounts (N.front note.new) (N.front note.old) }
        ensures journal { IsSemaLawful self.now pass.new }
    {
        released(call(&self.object, rt, at, pass, note, SemaStage::Release(weight)))
    }
}
