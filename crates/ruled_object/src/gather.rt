//! Passes that are brought together in one seat, and dealt out again.
ghost use Rattle.std.specs.Prelude.{◌≡◌, ℕ, ◌+◌, ◌<◌, [], Some, length, slice_get};
ghost use Rattle.ruled_object.specs.declared.view.Stage.TheVariants.{Idle};
ghost use Rattle.ruled_object.specs.Gathered.{AreAllPasses, SamePasses, SameTurns, HaveCounted, Gathered, Dealing, IsDealt};
ghost use Rattle.ruled_object.specs.Passes.{IsPassOf, SamePass, callers_of, number_of, turns_of};
ghost use Rattle.ruled_object.specs.Steps.{blank, dealt, kept, joined, IsSameSeat};

use crate::object::Object;
use crate::pass::PassOf;
use crate::rule::{Come, Deal, Gather};
use crate::turn::{SeatOf, WORD};
use std::marker::Brand;
use std::mem;
use sync_model::{Note, Worded};

impl<M: Worded, N: Note> Object<M, N> {
    // A seat that knows nothing and stands for nobody.
    pub(crate) fn newcomer(&self) -> SeatOf<M, N>
        ensures { (result.table_id ≡ self.now.table.shared.table_id) × (result.me ≡ (blank, [])) }
    {
        self.table.shared.load_new_seat::<Come>(WORD).1
    }

    // The seat takes in all that a pass knows, and stands for its caller. It stood for the callers before that one.
    pub(crate) fn take_in(&self, all: &mut SeatOf<M, N>, pass: &mut PassOf<M, N>)
        requires all { (all.old.table_id ≡ self.now.table.shared.table_id) × (all.old.me.1 ≡ []) }
        requires pass { IsPassOf self.now pass.old }
        requires order { all.old.me.0.number + length all.old.me.0.owns ≡ pass.old.number }
        ensures all { IsSameSeat all.old all.new × (all.new.me ≡ (joined all.old.me.0 pass.old.seat.me.0, [])) }
        ensures pass { SamePass pass.old pass.new }
        ensures turns { turns_of pass.new ≡ turns_of pass.old }
    {
        let seat = mem::replace(&mut pass.seat, self.newcomer());
        self.table.shared.join_seat::<Gather>(all, seat);
    }

    // A seat of its own for the first caller that the seat stands for.
    pub(crate) fn deal(&self, all: &mut SeatOf<M, N>) -> SeatOf<M, N>
        requires all { (all.old.table_id ≡ self.now.table.shared.table_id) × (all.old.me.1 ≡ []) }
        requires idle { all.old.me.0.stage ≡ Idle }
        requires some { 0 < length all.old.me.0.owns }
        ensures all { IsSameSeat all.old all.new × (all.new.me ≡ (kept all.old.me.0, [])) }
        ensures dealt { (result.table_id ≡ self.now.table.shared.table_id) × (result.me ≡ (dealt all.old.me.0, [])) }
    {
        self.table.shared.split_seat::<Deal>(all)
    }

    // Deals the first caller that the seat stands for out again, to its pass, whose count of turns stays.
    pub(crate) fn deal_to(&self, all: &mut SeatOf<M, N>, pass: &mut PassOf<M, N>)
        requires all { (all.old.table_id ≡ self.now.table.shared.table_id) × (all.old.me.1 ≡ []) }
        requires idle { all.old.me.0.stage ≡ Idle }
        requires some { 0 < length all.old.me.0.owns }
        ensures all { IsSameSeat all.old all.new × (all.new.me ≡ (kept all.old.me.0, [])) }
        ensures pass { (pass.new.number ≡ pass.old.number) × (pass.new.left ≡ pass.old.left) × (turns_of pass.new ≡ turns_of pass.old) }
        ensures dealt { (pass.new.seat.table_id ≡ self.now.table.shared.table_id) × (pass.new.seat.me ≡ (dealt all.old.me.0, [])) }
    {
        pass.seat = self.deal(all);
    }

    // One seat that knows all that the passes know, and stands for all callers.
    pub(crate) fn gather(&self, passes: &mut [PassOf<M, N>]) -> SeatOf<M, N>
        requires { AreAllPasses self.now passes.old }
        ensures seat { (result.table_id ≡ self.now.table.shared.table_id) × (result.me.1 ≡ []) }
        ensures gathered { Gathered (length passes.old) passes.old result.me.0 }
        ensures passes { SamePasses passes.old passes.new }
        ensures turns { SameTurns passes.old passes.new }
    {
        let mut all = self.newcomer();
        for pass in passes.iter_mut() {
            self.take_in(&mut all, pass);
        }
        all
    }

    // Deals each caller out again, to its own pass.
    pub(crate) fn deal_out(&self, all: &mut SeatOf<M, N>, passes: &mut [PassOf<M, N>])
        requires all { (all.old.table_id ≡ self.now.table.shared.table_id) × (all.old.me.1 ≡ []) × Dealing 0 all.old.me.0.seen all.old.me.0.owns all.old.me.0 }
        requires count { (length passes.old ≡ length all.old.me.0.owns) × (length passes.old ≡ callers_of self.now) }
        requires order { (i : ℕ) (pass : _) → slice_get passes.old i ≡ Some pass → number_of pass ≡ i }
        requires counted { HaveCounted all.old.me.0.owns passes.old }
        ensures passes { SamePasses passes.old passes.new }
        ensures turns { SameTurns passes.old passes.new }
        ensures dealt { (i : ℕ) (pass : _) → slice_get passes.new i ≡ Some pass → IsDealt self.now i all.old.me.0.seen all.old.me.0.owns pass }
    {
        for pass in passes.iter_mut() {
            self.deal_to(all, pass);
        }
    }
}
