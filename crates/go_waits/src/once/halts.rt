//! Halting a once by a misuse.
ghost use Rattle.std.specs.Prelude.{◌≡◌};
ghost use Rattle.sync_model.specs.declared.journal.Deed.TheVariants.{Halt};
ghost use Rattle.sync_model.specs.Front.{SameCounts, Later};
ghost use Rattle.sync_model.specs.Journal.{front_at, halt_of};
ghost use Rattle.ruled_object.specs.Gathered.{SamePasses};
ghost use Rattle.ruled_object.specs.Growth.{KeepsNote};
ghost use Rattle.ruled_object.specs.Passes.{SamePass};
ghost use Rattle.go_waits.specs.Onces.{OnceJournal, OnceMade, OnceHalts, AreAllPasses, IsPassOf, IsOnceWhole, IsOnceSeen};

use super::{Once, OncePass};
use std::sync::Wait;
use sync_model::Note;
use sync_types::Misuse;

impl<T: Copy, N: Note> Once<T, N> {
    /// Halts the once by a misuse, and wakes all who wait: from then on each call is answered `Halted` with the first
    /// halt's misuse.
    pub fn halt<R: Wait>(&self, rt: &R, pass: &mut OncePass<T, N>, note: &mut N, misuse: Misuse)
        requires pass { IsPassOf self.now pass.old }
        ensures pass { IsPassOf self.now pass.new × SamePass pass.old pass.new }
        ensures entry { (e : OnceMade T) × OnceHalts self.now pass.old e pass.new × (e.deed ≡ Halt misuse) × (front_at e ≡ N.front note.new) }
        ensures later { Later (N.front note.new) (N.front note.old) }
        ensures note { KeepsNote N.at N.own N.front note.old note.new }
        ensures no_edge { SameCounts (N.front note.new) (N.front note.old) }
    {
        call_loop::halt(&self.object, rt, pass, note, misuse);
    }

    /// The misuse of the first halt, and `None` exactly where there was none. It takes all passes, so that no call is under
    /// way. Afterwards each pass has seen all that was done on the once.
    pub fn first_halt(&self, passes: &mut [OncePass<T, N>]) -> Option<Misuse>
        requires { AreAllPasses self.now passes.old }
        ensures passes { AreAllPasses self.now passes.new × SamePasses passes.old passes.new }
        ensures history { (journal : OnceJournal T) × (result ≡ halt_of journal) × IsOnceWhole self.now journal passes.old × IsOnceWhole self.now journal passes.new }
        ensures seen { (journal : OnceJournal T) × IsOnceSeen self.now journal passes.new }
        ensures one_journal { (journal : OnceJournal T) × (result ≡ halt_of journal) × IsOnceWhole self.now journal passes.old × IsOnceSeen self.now journal passes.new }
    {
        call_loop::first_halt(&self.object, passes)
    }
}
