//! Go's `Once.Do`.
ghost use Rattle.std.specs.Prelude.{◌≡◌, ◌≢◌, ◌<◌, List};
ghost use Rattle.sync_model.specs.declared.answer.Answer.TheVariants.{Done};
ghost use Rattle.sync_model.specs.Front.{SameCounts};
ghost use Rattle.wait_cores.specs.declared.once.OnceEvent.{OnceEvent};
ghost use Rattle.wait_cores.specs.declared.once.OnceReply.{OnceReply};
ghost use Rattle.ruled_object.specs.Growth.{Placed, KeepsNote, MeetsHalt, deeds_of};
ghost use Rattle.ruled_object.specs.Passes.{left_of, IsOneLess};
ghost use Rattle.go_waits.specs.declared.once_run.OnceRun.TheVariants.{Already};
ghost use Rattle.go_waits.specs.OnceCalls.{HasBegun, RunsOnce};
ghost use Rattle.go_waits.specs.OnceRuns.{Runs};
ghost use Rattle.go_waits.specs.Onces.{OncePass, OnceGrows, IsHomeOf, IsPassOf, IsOnceLawful};

use crate::keeps::Keeps;
use crate::once::{Once, OncePass};
use crate::once_begun::OnceBegun;
use crate::once_run::OnceRun;
use ruled_object::laws::growth;
use std::sync::Wait;
use sync_model::{Answer, Note};
use sync_outside::{At, Clock};
use wait_cores::OnceCore;

impl<T: Copy, N: Note> Once<T, N> {
    /// Go's `Do`: calls the function where no call did before, and else waits for the return of the one that did. The
    /// function isn't called again, whether it succeeded or failed. It is called only where its condition holds once the
    /// caller is known to run it (`HasBegun`): the caller's beginning was answered so, and nobody else's. It has returned
    /// before the end, which keeps of its outcome what the once's type keeps: Go's, a `Once<()>`, nothing.
    ///
    /// The return from the function synchronizes before the return of each call that finds it run. The caller that ran it,
    /// and one that is halted, learn nothing.
    pub fn do_once<E: Drop, F: FnOnce() -> Result<(), E> + Drop, C: Clock, R: Wait>(
        &self,
        rt: &R,
        at: &At<N, C>,
        pass: &mut OncePass<T, N>,
        note: &mut N,
        function: F,
    ) -> Answer<OnceRun<E>>
    where
        T: Keeps<Result<(), E>>,
        requires function { (runner : OncePass T N) → HasBegun self.now pass.old (N.front note.old) runner → F.pre function }
        requires pass { IsPassOf self.now pass.old × (0 < left_of pass.old) }
        requires home { IsHomeOf N.at self.now at.now.home.now × N.at at.now.home.now note.old }
        ensures pass { IsPassOf self.now pass.new × IsOneLess pass.old pass.new }
        ensures note { KeepsNote N.at N.own N.front note.old note.new }
        ensures events { (es : List (Placed (OnceEvent T) (OnceReply T))) × OnceGrows self.now pass.old (N.front note.old) es pass.new (N.front note.new) × Runs T.kept (F.post function) (deeds_of es) result × MeetsHalt es result }
        ensures once { RunsOnce pass.new }
        ensures no_edge { result ≢ Done Already → SameCounts (N.front note.new) (N.front note.old) }
        ensures journal { IsOnceLawful self.now pass.new }
    {
        growth::<OnceCore<T>, N>();
        match self.begin(rt, at, pass, note) {
            Answer::Done(OnceBegun::Run(running)) => {
                let outcome = function();
                let kept = T::kept_of(&outcome);
                match self.end(running, rt, at, pass, note, kept) {
                    Answer::Done(()) => Answer::Done(OnceRun::Ran(outcome)),
                    Answer::Halted(misuse) => Answer::Halted(misuse),
                }
            }
            Answer::Done(OnceBegun::Already(_)) => Answer::Done(OnceRun::Already),
            Answer::Halted(misuse) => Answer::Halted(misuse),
        }
    }
}
