//! All callers look at the whole history together, while none makes a call.
ghost use Rattle.std.specs.Prelude.{◌≡◌, ℕ, ◌+◌, ◌<◌, true, [], Some, length, slice_get};
ghost use Rattle.sync_model.specs.declared.caller.Caller.{Caller};
ghost use Rattle.sync_model.specs.Front.{AtLeast};
ghost use Rattle.sync_model.specs.Shared.{AreAllCallers, SameCalls, Settled};
ghost use Rattle.shared_table.specs.declared.note.SharedNote.{SharedNote};
ghost use Rattle.shared_table.specs.Notes.{counts_by, front_by, own_by, seen_by, IsNoteOf};
ghost use Rattle.shared_table.specs.Settling.{IsSameCaller, AreSameCallers, Gathered, MayTake, IsBack};
ghost use Rattle.shared_table.specs.Tables.{caller_count, first_of};
ghost use Rattle.table_words.specs.Seats.{IsSeatOf};
ghost use Rattle.table_rule.specs.Views.{copied, dealt, joined, kept, next_in, spare_in, IsIdle};

use crate::note::SharedNote;
use crate::table::SharedTable;
use atomic_table::Seat;
use std::mem;
use sync_model::Caller;
use sync_model::laws::shared_steps::one_more_call_keeps_the_law;
use table_words::View;

impl SharedTable {
    /// Lets all callers see the whole history. It makes no shared call, takes all callers, in order of number, so that none
    /// is under way, and waits for nobody.
    pub fn settle(&self, callers: &mut [Caller<SharedNote>])
        requires { AreAllCallers IsNoteOf own_by self.now callers.old (caller_count self.now) }
        ensures callers { AreAllCallers IsNoteOf own_by self.now callers.new (caller_count self.now) }
        ensures same { SameCalls own_by front_by seen_by callers.old callers.new }
        ensures settled { Settled own_by front_by seen_by (first_of self.now) callers.new }
    {
        one_more_call_keeps_the_law();
        let mut all = self.gather(callers);
        self.words.look_at_all(&mut all);
        self.hand_all_back(&mut all, callers);
    }

    // One seat for all callers, of whom each keeps a copy of its own.
    pub(crate) fn gather(&self, callers: &mut [Caller<SharedNote>]) -> Seat<(), View>
        requires { AreAllCallers IsNoteOf own_by self.now callers.old (caller_count self.now) }
        ensures table { IsSeatOf self.now.words result }
        ensures gathered { Gathered self.now callers.old (length callers.old) result.me }
        ensures callers { AreSameCallers callers.old callers.new }
    {
        let mut all = self.seat_like(&mut callers[0].note);
        self.bring_all(&mut all, callers);
        all
    }

    // A seat that knows what a note's knows, and stands for nobody.
    fn seat_like(&self, note: &mut SharedNote) -> Seat<(), View>
        requires { IsNoteOf self.now note.old }
        ensures note { note.new ≡ note.old }
        ensures seat { IsSeatOf self.now.words result × (result.me ≡ (copied note.old.seat.me.0, [])) }
    {
        self.words.copy(&mut note.seat)
    }

    // The seat takes in a caller's, which keeps a copy.
    fn bring(&self, all: &mut Seat<(), View>, note: &mut SharedNote)
        requires note { IsNoteOf self.now note.old }
        requires all { IsSeatOf self.now.words all.old × (all.old.me.0.live ≡ true) }
        requires next { all.old.me.0.number + length all.old.me.0.owns ≡ note.old.number }
        ensures all { (all.new.table_id ≡ all.old.table_id) × (all.new.me ≡ (joined all.old.me.0 note.old.seat.me.0, all.old.me.1)) }
        ensures knows { AtLeast all.new.me.0.front all.old.me.0.front × AtLeast all.new.me.0.front (counts_by note.old) }
        ensures note { IsSameCaller note.old note.new }
    {
        let copy = self.seat_like(note);
        let seat = mem::replace(&mut note.seat, copy);
        self.words.join(all, seat);
    }

    // One seat takes in all callers'.
    fn bring_all(&self, all: &mut Seat<(), View>, callers: &mut [Caller<SharedNote>])
        requires callers { AreAllCallers IsNoteOf own_by self.now callers.old (caller_count self.now) }
        requires all { IsSeatOf self.now.words all.old × Gathered self.now callers.old 0 all.old.me }
        ensures all { IsSeatOf self.now.words all.new × Gathered self.now callers.old (length callers.old) all.new.me }
        ensures callers { AreSameCallers callers.old callers.new }
    {
        for caller in callers.iter_mut() {
            self.bring(all, &mut caller.note);
        }
    }

    // A caller's note takes its seat again.
    fn hand_back(&self, all: &mut Seat<(), View>, note: &mut SharedNote)
        requires all { IsSeatOf self.now.words all.old × (all.old.me.0.live ≡ true) × IsIdle all.old.me.0 × (0 < length all.old.me.0.owns) }
        requires note { (note.old.number ≡ all.old.me.0.number) × (next_in note.old.next all.old.me.0.owns ≡ note.old.next) × (spare_in note.old.spare all.old.me.0.owns ≡ note.old.spare) }
        ensures all { (all.new.table_id ≡ all.old.table_id) × (all.new.me ≡ (kept all.old.me.0, all.old.me.1)) }
        ensures note { IsSameCaller note.old note.new × IsSeatOf self.now.words note.new.seat × (note.new.seat.me ≡ (dealt all.old.me.0, [])) }
    {
        note.seat = self.words.deal(all);
    }

    // Each caller's note takes its seat again, in order.
    fn hand_all_back(&self, all: &mut Seat<(), View>, callers: &mut [Caller<SharedNote>])
        requires all { IsSeatOf self.now.words all.old × (all.old.me.1 ≡ []) × (all.old.me.0.live ≡ true) × (all.old.me.0.number ≡ 0) × IsIdle all.old.me.0 }
        requires count { length callers.old ≡ length all.old.me.0.owns }
        requires each { (i : ℕ) (caller : Caller SharedNote) → slice_get callers.old i ≡ Some caller → MayTake all.old.me.0 i caller.note }
        ensures callers { AreSameCallers callers.old callers.new }
        ensures back { (i : ℕ) (caller : Caller SharedNote) → slice_get callers.new i ≡ Some caller → IsBack self.now all.old.me.0 i caller.note }
    {
        for caller in callers.iter_mut() {
            self.hand_back(all, &mut caller.note);
        }
    }
}
