//! The calls of a cond that notify.
ghost use Rattle.std.specs.Prelude.{◌≡◌, ◌<◌};
ghost use Rattle.sync_model.specs.Front.{SameCounts};
ghost use Rattle.wait_cores.specs.declared.notify.NotifyEvent.{NotifyEvent};
ghost use Rattle.ruled_object.specs.Growth.{KeepsNote};
ghost use Rattle.ruled_object.specs.Passes.{left_of, IsOneLess};
ghost use Rattle.go_waits.specs.CondCalls.{CondDid, Makes};
ghost use Rattle.go_waits.specs.Conds.{IsHomeOf, IsPassOf, IsCondLawful};

use super::{Cond, CondPass};
use crate::answers::done;
use call_loop::call;
use protocols::CondStage;
use std::sync::Wait;
use sync_model::{Answer, Note};
use sync_outside::{At, Clock};

impl<N: Note> Cond<N> {
    /// Go's `Signal`: notifies the oldest ticket that isn't notified, if there is one. Its caller may hold the mutex, and
    /// needn't.
    ///
    /// It synchronizes before the leaving of the ticket that it notifies. Its own caller learns nothing.
    pub fn signal<C: Clock, R: Wait>(
        &self,
        rt: &R,
        at: &At<N, C>,
        pass: &mut CondPass<N>,
        note: &mut N,
    ) -> Answer<()>
        requires pass { IsPassOf self.now pass.old × (0 < left_of pass.old) }
        requires home { IsHomeOf N.at self.now at.now.home.now × N.at at.now.home.now note.old }
        ensures pass { IsPassOf self.now pass.new × IsOneLess pass.old pass.new }
        ensures note { KeepsNote N.at N.own N.front note.old note.new }
        ensures events { CondDid self.now (Makes NotifyEvent.Signal) pass.old (N.front note.old) result pass.new (N.front note.new) }
        ensures no_edge { SameCounts (N.front note.new) (N.front note.old) }
        ensures journal { IsCondLawful self.now pass.new }
    {
        done(call(&self.object, rt, at, pass, note, CondStage::Signal))
    }

    /// Go's `Broadcast`: notifies every ticket that was taken. Its caller may hold the mutex, and needn't.
    ///
    /// It synchronizes before the leaving of each of them. Its own caller learns nothing.
    pub fn broadcast<C: Clock, R: Wait>(
        &self,
        rt: &R,
        at: &At<N, C>,
        pass: &mut CondPass<N>,
        note: &mut N,
    ) -> Answer<()>
        requires pass { IsPassOf self.now pass.old × (0 < left_of pass.old) }
        requires home { IsHomeOf N.at self.now at.now.home.now × N.at at.now.home.now note.old }
        ensures pass { IsPassOf self.now pass.new × IsOneLess pass.old pass.new }
        ensures note { KeepsNote N.at N.own N.front note.old note.new }
        ensures events { CondDid self.now (Makes NotifyEvent.Broadcast) pass.old (N.front note.old) result pass.new (N.front note.new) }
        ensures no_edge { SameCounts (N.front note.new) (N.front note.old) }
        ensures journal { IsCondLawful self.now pass.new }
    {
        done(call(&self.object, rt, at, pass, note, CondStage::Broadcast))
    }
}
