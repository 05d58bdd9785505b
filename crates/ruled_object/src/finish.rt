//! What all passes together know of an object's history.
ghost use Rattle.std.specs.Prelude.{◌≡◌, ◌<◌, ◌^◌, false, List, None};
ghost use Rattle.sync_model.specs.declared.journal.Entry.{Entry};
ghost use Rattle.sync_model.specs.Journal.{halt_of, state_after};
ghost use Rattle.ruled_object.specs.Gathered.{AreAllPasses, SamePasses, SameOwn, SameTurns, IsWhole, IsSeen};
ghost use Rattle.ruled_object.specs.Passes.{start_of};

use crate::cell::Cell;
use crate::object::Object;
use crate::pass::PassOf;
use crate::rule::Silent;
use crate::turn::{SLOT, WORD};
use std::marker::Brand;
use sync_model::{Note, Worded};
use sync_types::Misuse;

impl<M: Worded, N: Note> Object<M, N> {
    /// The misuse of the history's first halt, and `None` exactly where there is none. It takes all passes, so that no
    /// call is under way, and adds no entry. Afterwards each pass has seen all of the history.
    pub fn first_halt(&self, passes: &mut [PassOf<M, N>]) -> Option<Misuse>
        requires { AreAllPasses self.now passes.old }
        ensures passes { AreAllPasses self.now passes.new × SamePasses passes.old passes.new }
        ensures history { (journal : List (Entry M.Event M.Reply)) × (result ≡ halt_of journal) × IsWhole M.next M.HALTS M.frees M.takes (start_of self.now) journal passes.old × IsWhole M.next M.HALTS M.frees M.takes (start_of self.now) journal passes.new }
        ensures seen { (journal : List (Entry M.Event M.Reply)) × IsSeen M.next M.HALTS M.frees M.takes (start_of self.now) journal passes.new }
        ensures one_journal { (journal : List (Entry M.Event M.Reply)) × (result ≡ halt_of journal) × IsWhole M.next M.HALTS M.frees M.takes (start_of self.now) journal passes.old × IsSeen M.next M.HALTS M.frees M.takes (start_of self.now) journal passes.new }
        ensures own { SameOwn passes.old passes.new }
        ensures turns { SameTurns passes.old passes.new }
        ensures halts { M.HALTS ≡ false → result ≡ None }
    {
        self.look_at_rest(passes).1
    }

    /// The word while nobody has it, which tells of the state that the whole history left. It takes all passes, so that no
    /// call is under way, and adds no entry. Afterwards each pass has seen all of the history.
    pub fn word_at_rest(&self, passes: &mut [PassOf<M, N>]) -> u64
        requires { AreAllPasses self.now passes.old }
        ensures passes { AreAllPasses self.now passes.new × SamePasses passes.old passes.new }
        ensures one_journal { (journal : List (Entry M.Event M.Reply)) × (result ≡ M.tells (state_after M.next (start_of self.now) journal)) × IsWhole M.next M.HALTS M.frees M.takes (start_of self.now) journal passes.old × IsSeen M.next M.HALTS M.frees M.takes (start_of self.now) journal passes.new }
        ensures free { result < 2 ^ 63 }
        ensures own { SameOwn passes.old passes.new }
        ensures turns { SameTurns passes.old passes.new }
    {
        self.look_at_rest(passes).0
    }

    // The word while nobody has it, and the misuse of the history's first halt. One seat takes in all passes, takes the word,
    // gives it back as it was, and deals the callers out again.
    fn look_at_rest(&self, passes: &mut [PassOf<M, N>]) -> (u64, Option<Misuse>)
        requires { AreAllPasses self.now passes.old }
        ensures passes { AreAllPasses self.now passes.new × SamePasses passes.old passes.new }
        ensures one_journal { (journal : List (Entry M.Event M.Reply)) × (result.0 ≡ M.tells (state_after M.next (start_of self.now) journal)) × (result.1 ≡ halt_of journal) × IsWhole M.next M.HALTS M.frees M.takes (start_of self.now) journal passes.old × IsSeen M.next M.HALTS M.frees M.takes (start_of self.now) journal passes.new }
        ensures free { result.0 < 2 ^ 63 }
        ensures own { SameOwn passes.old passes.new }
        ensures turns { SameTurns passes.old passes.new }
    {
        let mut all = self.gather(passes);
        let word = self.take_rest::<Brand>(&mut all);
        let halted = self.halted_in(&mut all);
        self.give_word::<Silent>(&mut all, word);
        self.deal_out(&mut all, passes);
        (word, halted)
    }

    /// Ends the object, with all its passes, and gives the machine's state after the whole history: each entry of it
    /// stands in exactly one pass's own list.
    pub fn finish(self, mut passes: Vec<PassOf<M, N>>) -> M::State
        requires { AreAllPasses self passes.items }
        ensures { (journal : List (Entry M.Event M.Reply)) × IsWhole M.next M.HALTS M.frees M.takes (start_of self) journal passes.items × (result ≡ state_after M.next (start_of self) journal) }
    {
        let all = self.gather(&mut passes);
        let Object { table, .. } = self;
        let mut closed = table.close_with(all);
        let word = closed.word(WORD);
        let Cell { mut state, .. } = closed.take(SLOT).unwrap();
        closed.free();
        M::refresh(&mut state, word);
        state
    }
}
