//! What a seat that has the word does to the cell, which stays where it lies.
ghost use Rattle.std.specs.Prelude.{◌≡◌, ◌<◌, ◌^◌, ℕ, false, length, None, IsTrue, IfNone, IfSome};
ghost use Rattle.sync_model.specs.declared.journal.Deed.TheVariants.{Event, Halt};
ghost use Rattle.sync_model.specs.Front.{SameCounts, Later};
ghost use Rattle.sync_model.specs.Journal.{is_such};
ghost use Rattle.sync_model.specs.Note.{SameHome};
ghost use Rattle.ruled_object.specs.declared.view.Stage.TheVariants.{Deep, Taken};
ghost use Rattle.ruled_object.specs.Cells.{deed_of, Acts};
ghost use Rattle.ruled_object.specs.Growth.{IsAlone, MayBeMade};
ghost use Rattle.ruled_object.specs.Passes.{turns_of, CountsTurns};
ghost use Rattle.ruled_object.specs.Steps.{counted, HasCell, IsSameSeat};

use crate::event_source::EventSource;
use crate::object::Object;
use crate::pass::PassOf;
use crate::turn::{SLOT, SeatOf};
use sync_model::{Answer, Callers, Note, Worded};
use sync_types::Misuse;

impl<M: Worded, N: Note> Object<M, N> {
    // Makes one event of a caller, or refuses it. Tells its answer, whom it lets go on, and the word after it. Where the
    // word alone doesn't decide the event it takes the turn for it, and gives it back.
    #[inline(always)]
    pub(crate) fn act(
        &self,
        pass: &mut PassOf<M, N>,
        home: &N::Home,
        note: &mut N,
        event: M::Event,
        word: u64,
    ) -> (Answer<M::Reply>, Callers, u64)
        requires pass { (pass.old.seat.table_id ≡ self.now.table.shared.table_id) × (pass.old.seat.me.0.stage ≡ Taken) × (0 < length pass.old.seat.me.0.owns) × CountsTurns pass.old }
        requires held { HasCell pass.old.seat.me (λ cell. N.at home.now cell.note × (word ≡ M.tells (M.means cell.state word))) }
        requires free { word < 2 ^ 63 }
        requires home { N.at home.now note.old }
        ensures pass { (pass.new.number ≡ pass.old.number) × (pass.new.left ≡ pass.old.left) × CountsTurns pass.new }
        ensures seat { IsSameSeat pass.old.seat pass.new.seat × ((n : ℕ) × (pass.new.seat.me.0 ≡ counted n pass.old.seat.me.0)) }
        ensures acts { HasCell pass.old.seat.me (λ old. HasCell pass.new.seat.me (λ new. Acts M.next M.HALTS M.frees M.takes N.front M.tells M.means pass.old.number (deed_of event result.0) (N.front note.new) word old result.2 new × SameHome N.at old.note new.note
            × (IsAlone M.alone (M.means old.state word) pass.old.number (deed_of event result.0) → turns_of pass.new ≡ turns_of pass.old))) }
        ensures free { result.2 < 2 ^ 63 }
        ensures home { SameHome N.at note.old note.new }
        ensures note { (N.own note.new ≡ N.own note.old) × Later (N.front note.new) (N.front note.old) }
        ensures no_edge { is_such M.takes (deed_of event result.0) ≡ false → SameCounts (N.front note.new) (N.front note.old) }
    {
        if let Some(did) = self.act_quick(&mut pass.seat, home, pass.number, note, event, word) {
            return did;
        }
        self.take_turn(&mut pass.seat);
        pass.turns = pass.turns.saturating_add(1);
        let (reply, wakes, after) = self.act_deep(
            &mut pass.seat,
            home,
            pass.number,
            note,
            event,
            word,
        );
        self.give_turn(&mut pass.seat);
        (Answer::Done(reply), wakes, after)
    }

    // Makes one event that the word alone decides, or refuses it. Where the word alone doesn't decide it, it does nothing.
    #[inline(always)]
    fn act_quick(
        &self,
        seat: &mut SeatOf<M, N>,
        home: &N::Home,
        caller: u32,
        note: &mut N,
        event: M::Event,
        word: u64,
    ) -> Option<(Answer<M::Reply>, Callers, u64)>
        requires seat { seat.old.table_id ≡ self.now.table.shared.table_id }
        requires held { HasCell seat.old.me (λ cell. N.at home.now cell.note × (word ≡ M.tells (M.means cell.state word))) }
        requires free { word < 2 ^ 63 }
        requires home { N.at home.now note.old }
        ensures seat { IsSameSeat seat.old seat.new × (seat.new.me.0 ≡ seat.old.me.0) }
        ensures acts { IfSome result (λ did. HasCell seat.old.me (λ old. HasCell seat.new.me (λ new. Acts M.next M.HALTS M.frees M.takes N.front M.tells M.means caller (deed_of event did.0) (N.front note.new) word old did.2 new × SameHome N.at old.note new.note))) }
        ensures free { IfSome result (λ did. did.2 < 2 ^ 63) }
        ensures no_edge { IfSome result (λ did. is_such M.takes (deed_of event did.0) ≡ false → SameCounts (N.front note.new) (N.front note.old)) }
        ensures left { IfNone result ((note.new ≡ note.old) × HasCell seat.old.me (λ cell. (seat.new.me ≡ seat.old.me) × (cell.halted ≡ None) × (M.alone (M.means cell.state word) caller event ≡ false))) }
        ensures home { SameHome N.at note.old note.new }
        ensures note { IfSome result (λ _. (N.own note.new ≡ N.own note.old) × Later (N.front note.new) (N.front note.old)) }
    {
        match seat.slot_mut(&self.table.shared, SLOT) {
            Some(cell) => cell.apply_quick::<M>(home, caller, note, event, word),
            None => unreachable!(),
        }
    }

    // Makes one event on the state, with the turn.
    #[inline(always)]
    fn act_deep(
        &self,
        seat: &mut SeatOf<M, N>,
        home: &N::Home,
        caller: u32,
        note: &mut N,
        event: M::Event,
        word: u64,
    ) -> (M::Reply, Callers, u64)
        requires seat { (seat.old.table_id ≡ self.now.table.shared.table_id) × (seat.old.me.0.stage ≡ Deep) }
        requires held { HasCell seat.old.me (λ cell. N.at home.now cell.note × (cell.halted ≡ None)) }
        requires home { N.at home.now note.old }
        ensures seat { IsSameSeat seat.old seat.new × (seat.new.me.0 ≡ seat.old.me.0) }
        ensures acts { HasCell seat.old.me (λ old. HasCell seat.new.me (λ new. Acts M.next M.HALTS M.frees M.takes N.front M.tells M.means caller (Event event result.0) (N.front note.new) word old result.2 new × SameHome N.at old.note new.note)) }
        ensures free { result.2 < 2 ^ 63 }
        ensures no_edge { M.takes event result.0 ≡ false → SameCounts (N.front note.new) (N.front note.old) }
        ensures home { SameHome N.at note.old note.new }
        ensures note { (N.own note.new ≡ N.own note.old) × Later (N.front note.new) (N.front note.old) }
    {
        match seat.slot_mut(&self.table.shared, SLOT) {
            Some(cell) => cell.apply::<M>(home, caller, note, event, word),
            None => unreachable!(),
        }
    }

    // Halts the object. The first misuse is kept.
    pub(crate) fn act_halt(&self, seat: &mut SeatOf<M, N>, misuse: Misuse, note: &mut N, word: u64)
        requires halts { IsTrue M.HALTS }
        requires seat { seat.old.table_id ≡ self.now.table.shared.table_id }
        requires held { HasCell seat.old.me (λ cell. word ≡ M.tells (M.means cell.state word)) }
        ensures seat { IsSameSeat seat.old seat.new × (seat.new.me.0 ≡ seat.old.me.0) }
        ensures acts { HasCell seat.old.me (λ old. HasCell seat.new.me (λ new. ((caller : ℕ) → Acts M.next M.HALTS M.frees M.takes N.front M.tells M.means caller (Halt misuse) (N.front note.new) word old word new) × SameHome N.at old.note new.note)) }
        ensures home { SameHome N.at note.old note.new }
        ensures note { (N.own note.new ≡ N.own note.old) × Later (N.front note.new) (N.front note.old) }
        ensures no_edge { SameCounts (N.front note.new) (N.front note.old) }
    {
        match seat.slot_mut(&self.table.shared, SLOT) {
            Some(cell) => cell.halt::<M>(misuse, note, word),
            None => unreachable!(),
        }
    }

    // Makes an event by the cell and the word. Nothing changes.
    #[inline(always)]
    pub(crate) fn choose<K: EventSource<M>>(
        &self,
        seat: &mut SeatOf<M, N>,
        source: &K,
        word: u64,
    ) -> M::Event
        requires seat { seat.old.table_id ≡ self.now.table.shared.table_id }
        requires held { HasCell seat.old.me (λ cell. word ≡ M.tells (M.means cell.state word)) }
        ensures seat { IsSameSeat seat.old seat.new × (seat.new.me ≡ seat.old.me) }
        ensures chosen { HasCell seat.old.me (λ cell. MayBeMade (K.may source.now) (K.refused source.now) cell.halted (M.means cell.state word) result) }
    {
        match seat.slot_mut(&self.table.shared, SLOT) {
            Some(cell) => cell.choose::<M, K>(source, word),
            None => unreachable!(),
        }
    }

    // The misuse that halted the object. Nothing changes.
    pub(crate) fn halted_in(&self, seat: &mut SeatOf<M, N>) -> Option<Misuse>
        requires seat { seat.old.table_id ≡ self.now.table.shared.table_id }
        requires held { HasCell seat.old.me (λ _. Unit {0}) }
        ensures seat { IsSameSeat seat.old seat.new × (seat.new.me ≡ seat.old.me) }
        ensures halted { HasCell seat.old.me (λ cell. result ≡ cell.halted) }
    {
        match seat.slot_mut(&self.table.shared, SLOT) {
            Some(cell) => cell.halted,
            None => unreachable!(),
        }
    }
}
