//! A wait group's `go`: a call of the group and one of the starts, one after the other.
ghost use Rattle.std.specs.Prelude.{◌≡◌, ◌<◌};
ghost use Rattle.sync_model.specs.Front.{SameCounts};
ghost use Rattle.ruled_object.specs.Growth.{KeepsNote};
ghost use Rattle.ruled_object.specs.Passes.{left_of, IsOneLess, IsSpent};
ghost use Rattle.go_waits.specs.GoCalls.{Goes};
ghost use Rattle.go_waits.specs.Groups.{IsHomeOf, IsPassOf, IsGroupLawful};
ghost use Rattle.go_waits.specs.Startings as startings;
ghost use Rattle.go_waits.specs.Startings.{StartsPass};

use super::{GroupPass, WaitGroup};
use crate::starts::{Starts, StartsPass};
use ruled_object::laws::notes_are_kept;
use std::sync::Wait;
use sync_model::{Answer, Note};
use sync_outside::{At, Clock};
use sync_types::Misuse;

impl<N: Note> WaitGroup<N> {
    /// Go's `WaitGroup.Go`, which adds 1 to the counter, calls a function in a new goroutine, and takes the 1 off when the function
    /// returns. Here a worker that waits to be started takes the function's place: `go` adds 1, and then starts the worker, which
    /// calls `done` behind its calls. The addition comes first, so that no `wait` finds the counter at 0 between the two.
    ///
    /// It is a misuse as an `add` of 1 is one, and then nobody is started. It takes one call off both passes. The start synchronizes
    /// before the return of the worker's `wait_start`; its own caller learns nothing.
    pub fn go<C: Clock, R: Wait>(
        &self,
        rt: &R,
        at: &At<N, C>,
        pass: &mut GroupPass<N>,
        note: &mut N,
        starts: &Starts<N>,
        starts_pass: &mut StartsPass<N>,
        worker: u32,
    ) -> Answer<Result<(), Misuse>>
        requires pass { IsPassOf self.now pass.old × (0 < left_of pass.old) }
        requires starts { startings.IsPassOf starts.now starts_pass.old × (0 < left_of starts_pass.old) }
        requires home { IsHomeOf N.at self.now at.now.home.now × startings.IsHomeOf N.at starts.now at.now.home.now × N.at at.now.home.now note.old }
        ensures pass { IsPassOf self.now pass.new × IsOneLess pass.old pass.new }
        ensures starts { startings.IsPassOf starts.now starts_pass.new × IsOneLess starts_pass.old starts_pass.new }
        ensures note { KeepsNote N.at N.own N.front note.old note.new }
        ensures events { (spent : StartsPass N) × IsSpent starts_pass.old spent × Goes worker self.now starts.now pass.old spent (N.front note.old) result pass.new starts_pass.new (N.front note.new) }
        ensures no_edge { SameCounts (N.front note.new) (N.front note.old) }
        ensures journal { IsGroupLawful self.now pass.new × (startings.IsStartsLawful starts.now starts_pass.old → startings.IsStartsLawful starts.now starts_pass.new) }
    {
        notes_are_kept::<N>();
        starts.spend_within(starts_pass);
        match self.add(rt, at, pass, note, 1) {
            Answer::Halted(misuse) => Answer::Halted(misuse),
            Answer::Done(Err(misuse)) => Answer::Done(Err(misuse)),
            Answer::Done(Ok(())) => match starts.start_within(rt, at, starts_pass, note, worker) {
                Answer::Halted(misuse) => Answer::Halted(misuse),
                Answer::Done(()) => Answer::Done(Ok(())),
            },
        }
    }
}
