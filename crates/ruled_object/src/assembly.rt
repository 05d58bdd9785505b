//! Passes that lie inside callers of the layers above, looked at together. `first_halt` does the same for passes that lie
//! side by side: bring each caller's pass, look at all, and hand each its pass back.
ghost use Rattle.std.specs.Prelude.{◌≡◌, ◌+◌, ◌<◌, List, [], ◌∷◌, ◌++◌, Some, length, slice_get};
ghost use Rattle.sync_model.specs.declared.journal.Entry.{Entry};
ghost use Rattle.sync_model.specs.Journal.{halt_of};
ghost use Rattle.ruled_object.specs.declared.pass.Pass.{Pass};
ghost use Rattle.ruled_object.specs.Assembled.{Brought, HandsBack};
ghost use Rattle.ruled_object.specs.Gathered.{AreAllPasses, IsWhole};
ghost use Rattle.ruled_object.specs.Passes.{callers_of, number_of, own_by, seen_by, start_of, turns_of, IsPassOf, SamePass};

use crate::cell::Cell;
use crate::object::Object;
use crate::pass::PassOf;
use crate::rule::Silent;
use crate::turn::SeatOf;
use crate::view::View;
use atomic_table::Seat;
use std::marker::Brand;
use sync_model::{MAX_CALLERS, Machine, Note, Worded};
use sync_types::Misuse;

/// What the passes know that were brought together, and how often each took the turn. Who has it can hand them back.
#[derive(Drop)]
pub struct Assembly<S, N, E, R> {
    pub(crate) seat: Seat<Option<Cell<S, N>>, View<E, R>>,
    pub(crate) turns: [u64; MAX_CALLERS],
}

/// An assembly of passes to an object of this machine.
pub type AssemblyOf<M, N> = Assembly<
    <M as Machine>::State,
    N,
    <M as Machine>::Event,
    <M as Machine>::Reply,
>;

impl<M: Worded, N: Note> Object<M, N> {
    /// An assembly to which no pass was brought yet.
    pub fn assembly(&self) -> AssemblyOf<M, N>
        ensures { Brought self.now [] result }
    {
        Assembly {
            seat: self.newcomer(),
            turns: [0; MAX_CALLERS],
        }
    }

    /// Brings the pass of the next caller to the assembly, in order of number from 0. Until `hand_back` the pass is good
    /// for no call.
    pub fn bring(&self, all: &mut AssemblyOf<M, N>, pass: &mut PassOf<M, N>)
        requires pass { IsPassOf self.now pass.old }
        requires all { (passes : List (Pass M.State N M.Event M.Reply)) × Brought self.now passes all.old × (number_of pass.old ≡ length passes) }
        ensures pass { SamePass pass.old pass.new }
        ensures turns { turns_of pass.new ≡ turns_of pass.old }
        ensures all { (passes : List (Pass M.State N M.Event M.Reply)) → Brought self.now passes all.old → Brought self.now (passes ++ pass.old ∷ []) all.new }
    {
        all.turns[pass.number as usize] = pass.turns;
        self.take_in(&mut all.seat, pass);
    }

    /// Looks at the object once all passes were brought, so that no call is under way, and gives the misuse of the
    /// history's first halt: `None` exactly where there is none. It adds no entry. Each entry of the history stands in
    /// exactly one pass's own list.
    pub fn look_at_all(&self, all: &mut AssemblyOf<M, N>) -> Option<Misuse>
        requires { (passes : List (Pass M.State N M.Event M.Reply)) × Brought self.now passes all.old × AreAllPasses self.now passes }
        ensures { (passes : List (Pass M.State N M.Event M.Reply)) → Brought self.now passes all.old → AreAllPasses self.now passes
            → (journal : List (Entry M.Event M.Reply)) × (result ≡ halt_of journal) × IsWhole M.next M.HALTS M.frees M.takes (start_of self.now) journal passes × HandsBack self.now 0 journal passes all.new }
    {
        let word = self.take_rest::<Brand>(&mut all.seat);
        let halted = self.halted_in(&mut all.seat);
        self.give_word::<Silent>(&mut all.seat, word);
        halted
    }

    /// Hands the pass of the next caller back, in the order in which they were brought. It has seen the whole history, and
    /// has the entries of its caller that it had, and as many turns.
    pub fn hand_back(&self, all: &mut AssemblyOf<M, N>, pass: &mut PassOf<M, N>)
        requires pass { number_of pass.old < callers_of self.now }
        requires all { (journal : List (Entry M.Event M.Reply)) × (passes : List (Pass M.State N M.Event M.Reply)) × HandsBack self.now (number_of pass.old) journal passes all.old }
        ensures pass { IsPassOf self.now pass.new × SamePass pass.old pass.new }
        ensures turns { (journal : List (Entry M.Event M.Reply)) (passes : List (Pass M.State N M.Event M.Reply)) (before : Pass M.State N M.Event M.Reply) → HandsBack self.now (number_of pass.old) journal passes all.old
            → slice_get passes (number_of pass.old) ≡ Some before → turns_of pass.new ≡ turns_of before }
        ensures all { (journal : List (Entry M.Event M.Reply)) (passes : List (Pass M.State N M.Event M.Reply)) → HandsBack self.now (number_of pass.old) journal passes all.old
            → HandsBack self.now (number_of pass.old + 1) journal passes all.new }
        ensures seen { (journal : List (Entry M.Event M.Reply)) (passes : List (Pass M.State N M.Event M.Reply)) → HandsBack self.now (number_of pass.old) journal passes all.old → seen_by pass.new ≡ journal }
        ensures own { (journal : List (Entry M.Event M.Reply)) (passes : List (Pass M.State N M.Event M.Reply)) (before : Pass M.State N M.Event M.Reply) → HandsBack self.now (number_of pass.old) journal passes all.old
            → slice_get passes (number_of pass.old) ≡ Some before → own_by pass.new ≡ own_by before }
    {
        pass.turns = all.turns[pass.number as usize];
        self.deal_to(&mut all.seat, pass);
    }
}
