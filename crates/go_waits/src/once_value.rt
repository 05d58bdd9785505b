//! Go's `sync.OnceFunc` and `sync.OnceValue`: a function that is called once, whose result each call answers.
ghost use Rattle.std.specs.Prelude.{◌≡◌, ◌≤◌, ◌<◌, IfOk, List};
ghost use Rattle.sync_types.specs.declared.misuse.Misuse.{Misuse};
ghost use Rattle.sync_model.specs.declared.answer.Answer.TheVariants.{Halted};
ghost use Rattle.sync_model.specs.declared.journal.Deed.TheVariants.{Halt};
ghost use Rattle.sync_model.specs.Front.{SameCounts, Later};
ghost use Rattle.sync_model.specs.Journal.{front_at, halt_of};
ghost use Rattle.wait_cores.specs.declared.once.OnceEvent.{OnceEvent};
ghost use Rattle.wait_cores.specs.declared.once.OnceReply.{OnceReply};
ghost use Rattle.wait_cores.specs.OnceMachine.{start};
ghost use Rattle.ruled_object.specs.Growth.{Placed, KeepsNote, MeetsHalt, deeds_of};
ghost use Rattle.ruled_object.specs.Gathered.{SamePasses};
ghost use Rattle.ruled_object.specs.Passes.{left_of, IsOneLess, SamePass};
ghost use Rattle.go_waits.specs.OnceCalls.{Gives, HasBegun, RunsOnce};
ghost use Rattle.go_waits.specs.OnceValues.{once_of, function_of};
ghost use Rattle.go_waits.specs.Onces.{OnceJournal, OnceMade, OncePass, callers_of, start_of, OnceGrows, OnceHalts, AreAllPasses, AreNew, IsHomeOf, IsPassOf, IsOnceLawful, IsOnceWhole, IsOnceSeen};

mod renew;

use crate::once::{Once, OncePass};
use crate::once_begun::OnceBegun;
use crate::stored::Stored;
use ruled_object::MAX_CALLS;
use ruled_object::laws::growth;
use std::alloc::{AllocError, Global};
use std::sync::Wait;
use sync_model::{Answer, MAX_CALLERS, Note};
use sync_outside::{At, Clock};
use sync_types::Misuse;
use wait_cores::OnceCore;

/// A stored function that is called at most once, by the first call, and whose result every call answers. It may be one that
/// can't be called twice. A pair of values serves for Go's `OnceValues`.
#[derive(Drop)]
pub struct OnceValue<T: Copy, F, N: Note> {
    pub(crate) once: Once<T, N>,
    pub(crate) function: Stored<F>,
}

/// A stored function that is called at most once, and that succeeds or fails: every call answers which.
pub type OnceFunc<E, F, N> = OnceValue<Result<(), E>, F, N>;

impl<T: Copy, F: FnOnce() -> T + Drop, N: Note> OnceValue<T, F, N> {
    /// A function that hasn't been called, for callers 0 to `callers - 1`, and their passes, each good for `calls` calls.
    pub fn new(
        alloc: Global,
        callers: u32,
        calls: u64,
        function: F,
        note: N,
    ) -> Result<(Self, Vec<OncePass<T, N>>), AllocError>
        requires callers { (1 ≤ callers) × (callers ≤ MAX_CALLERS) }
        requires calls { calls ≤ MAX_CALLS }
        ensures once { IfOk result (λ made. (callers_of (once_of made.0) ≡ callers) × (start_of (once_of made.0) ≡ start callers) × ((home : N.Home) → N.at home note → IsHomeOf N.at (once_of made.0) home)) }
        ensures function { IfOk result (λ made. function_of made.0 ≡ function) }
        ensures passes { IfOk result (λ made. AreNew (once_of made.0) calls made.1.items) }
    {
        let (once, passes) = Once::new(alloc, callers, calls, note)?;
        let function = Stored::new(function);
        Ok((OnceValue { once, function }, passes))
    }

    /// The function's result. The first call moves it out and calls it, once its caller is known to run it (`HasBegun`), and
    /// each other one waits for its return, which synchronizes before that call's.
    pub fn call<C: Clock, R: Wait>(
        &self,
        rt: &R,
        at: &At<N, C>,
        pass: &mut OncePass<T, N>,
        note: &mut N,
    ) -> Answer<T>
        requires function { (runner : OncePass T N) → HasBegun (once_of self.now) pass.old (N.front note.old) runner → F.pre (function_of self.now) }
        requires pass { IsPassOf (once_of self.now) pass.old × (0 < left_of pass.old) }
        requires home { IsHomeOf N.at (once_of self.now) at.now.home.now × N.at at.now.home.now note.old }
        ensures pass { IsPassOf (once_of self.now) pass.new × IsOneLess pass.old pass.new }
        ensures note { KeepsNote N.at N.own N.front note.old note.new }
        ensures events { (es : List (Placed (OnceEvent T) (OnceReply T))) × OnceGrows (once_of self.now) pass.old (N.front note.old) es pass.new (N.front note.new) × Gives (F.post (function_of self.now)) (deeds_of es) result × MeetsHalt es result }
        ensures once { RunsOnce pass.new }
        ensures halted { (misuse : Misuse) → result ≡ Halted misuse → SameCounts (N.front note.new) (N.front note.old) }
        ensures journal { IsOnceLawful (once_of self.now) pass.new }
    {
        growth::<OnceCore<T>, N>();
        match self.once.begin(rt, at, pass, note) {
            Answer::Done(OnceBegun::Run(running)) => {
                let function = self.function.take(rt, &self.once, pass);
                let value = function();
                match self.once.end(running, rt, at, pass, note, value) {
                    Answer::Done(()) => Answer::Done(value),
                    Answer::Halted(misuse) => Answer::Halted(misuse),
                }
            }
            Answer::Done(OnceBegun::Already(kept)) => Answer::Done(kept),
            Answer::Halted(misuse) => Answer::Halted(misuse),
        }
    }

    /// Halts the function by a misuse, and wakes all who wait: from then on each call is answered `Halted` with the first
    /// halt's misuse.
    pub fn halt<R: Wait>(&self, rt: &R, pass: &mut OncePass<T, N>, note: &mut N, misuse: Misuse)
        requires pass { IsPassOf (once_of self.now) pass.old }
        ensures pass { IsPassOf (once_of self.now) pass.new × SamePass pass.old pass.new }
        ensures entry { (e : OnceMade T) × OnceHalts (once_of self.now) pass.old e pass.new × (e.deed ≡ Halt misuse) × (front_at e ≡ N.front note.new) }
        ensures later { Later (N.front note.new) (N.front note.old) }
        ensures note { KeepsNote N.at N.own N.front note.old note.new }
        ensures no_edge { SameCounts (N.front note.new) (N.front note.old) }
    {
        self.once.halt(rt, pass, note, misuse);
    }

    /// The misuse of the first halt, and `None` exactly where there was none. It takes all passes, so that no call is under
    /// way. Afterwards each pass has seen all that was done.
    pub fn first_halt(&self, passes: &mut [OncePass<T, N>]) -> Option<Misuse>
        requires { AreAllPasses (once_of self.now) passes.old }
        ensures passes { AreAllPasses (once_of self.now) passes.new × SamePasses passes.old passes.new }
        ensures one_journal { (journal : OnceJournal T) × (result ≡ halt_of journal) × IsOnceWhole (once_of self.now) journal passes.old × IsOnceSeen (once_of self.now) journal passes.new }
    {
        self.once.first_halt(passes)
    }
}
