//! Calls on an object.
ghost use Rattle.std.specs.Prelude.{◌≡◌, ◌<◌, [], Some, length, false, IsTrue};
ghost use Rattle.sync_types.specs.declared.misuse.Misuse.{Misuse};
ghost use Rattle.sync_model.specs.declared.answer.Answer.TheVariants.{Halted};
ghost use Rattle.sync_model.specs.declared.journal.Deed.TheVariants.{Halt};
ghost use Rattle.sync_model.specs.declared.journal.Entry.{Entry};
ghost use Rattle.sync_model.specs.Front.{SameCounts, Later};
ghost use Rattle.sync_model.specs.Journal.{front_at, is_such};
ghost use Rattle.ruled_object.specs.Cells.{deed_of};
ghost use Rattle.ruled_object.specs.Growth.{IsLawful, KeepsNote, Makes, MakesWith, MayBeMade, NeedsNoTurn};
ghost use Rattle.ruled_object.specs.Passes.{start_of, turns_of, IsHomeOf, IsPassOf, Adds, SamePass};
ghost use Rattle.ruled_object.specs.Steps.{HasCell, IsSameSeat, TakesRest};

use crate::cell::deed;
use crate::event_source::{EventSource, Ready};
use crate::object::Object;
use crate::pass::PassOf;
use crate::rule::Origin;
use crate::turn::SeatOf;
use std::marker::Brand;
use std::sync::Wait;
use sync_model::{Answer, Deed, Note, Worded};
use sync_types::Misuse;

impl<M: Worded, N: Note> Object<M, N> {
    /// Makes one event. It is one entry of the object's one history, placed at the step that gives the word back: all
    /// that the caller had seen of the history stands before it. Where a halt stands before it the answer is `Halted`,
    /// with the first halt's misuse, and the machine stays as it was; else the answer is the machine's reply.
    ///
    /// Once the word is given back, the callers that the event lets go on are woken, as the machine names them
    /// (`Machine::wakes`), each as `unpark` does.
    ///
    /// Where the word alone decides the event, and where it is refused, no turn is taken for it (`NeedsNoTurn`).
    ///
    /// An event that acquires synchronizes after each earlier one that releases: the caller's note then knows all that
    /// theirs knew. After any other event, and after `Halted`, it knows what it knew before.
    ///
    /// Whatever the event, and whatever its answer, it has a number past that of each event before it in the history, and
    /// past that of each event that its caller had made before, on whichever objects.
    #[inline(always)]
    pub fn call<R: Wait>(
        &self,
        rt: &R,
        home: &N::Home,
        pass: &mut PassOf<M, N>,
        note: &mut N,
        event: M::Event,
    ) -> Answer<M::Reply>
        requires pass { IsPassOf self.now pass.old }
        requires home { IsHomeOf N.at self.now home.now × N.at home.now note.old }
        ensures pass { IsPassOf self.now pass.new × SamePass pass.old pass.new }
        ensures entry { (e : Entry M.Event M.Reply) × Adds M.next M.HALTS M.frees M.takes (start_of self.now) pass.old e pass.new × (e.deed ≡ deed_of event result) × (front_at e ≡ N.front note.new) }
        ensures makes { Makes M.next M.HALTS (start_of self.now) pass.old (N.front note.old) event result pass.new (N.front note.new) }
        ensures journal { IsLawful M.next M.HALTS M.frees M.takes (start_of self.now) pass.new }
        ensures note { KeepsNote N.at N.own N.front note.old note.new }
        ensures no_edge { is_such M.takes (deed_of event result) ≡ false → SameCounts (N.front note.new) (N.front note.old) }
        ensures halts { M.HALTS ≡ false → (m : Misuse) → result ≡ Halted m → ⊥ }
        ensures quick { NeedsNoTurn M.next M.HALTS M.alone (start_of self.now) pass.old (N.front note.old) pass.new (N.front note.new) }
    {
        let ready = Ready::<M> { event };
        let did = self.call_with(rt, home, pass, note, &ready);
        did.1
    }

    /// `call`, but that `source` gives the event once its caller has the word: by the state that the event finds, or for the
    /// halt that refuses it. Gives the event and its answer.
    #[inline(always)]
    pub fn call_with<K: EventSource<M>, R: Wait>(
        &self,
        rt: &R,
        home: &N::Home,
        pass: &mut PassOf<M, N>,
        note: &mut N,
        source: &K,
    ) -> (M::Event, Answer<M::Reply>)
        requires pass { IsPassOf self.now pass.old }
        requires home { IsHomeOf N.at self.now home.now × N.at home.now note.old }
        ensures pass { IsPassOf self.now pass.new × SamePass pass.old pass.new }
        ensures entry { (e : Entry M.Event M.Reply) × Adds M.next M.HALTS M.frees M.takes (start_of self.now) pass.old e pass.new × (e.deed ≡ deed_of result.0 result.1) × (front_at e ≡ N.front note.new) }
        ensures makes { MakesWith M.next M.HALTS (start_of self.now) (K.may source.now) (K.refused source.now) pass.old (N.front note.old) result.0 result.1 pass.new (N.front note.new) }
        ensures journal { IsLawful M.next M.HALTS M.frees M.takes (start_of self.now) pass.new }
        ensures note { KeepsNote N.at N.own N.front note.old note.new }
        ensures no_edge { is_such M.takes (deed_of result.0 result.1) ≡ false → SameCounts (N.front note.new) (N.front note.old) }
        ensures halts { M.HALTS ≡ false → (m : Misuse) → result.1 ≡ Halted m → ⊥ }
        ensures quick { NeedsNoTurn M.next M.HALTS M.alone (start_of self.now) pass.old (N.front note.old) pass.new (N.front note.new) }
    {
        let number = pass.number;
        let (word, event) = self.take_for::<Brand, K, R>(rt, &mut pass.seat, source);
        let (answer, wakes, after) = self.act(pass, home, note, event, word);
        let deed = deed(event, &answer);
        self.give_entry::<Brand>(&mut pass.seat, after, number, &deed, note);
        self.unpark_all(wakes);
        (event, answer)
    }

    // Waits for the word, and takes an event from its source by what it finds.
    #[inline(always)]
    fn take_for<B: Origin<M::State, N>, K: EventSource<M>, R: Wait>(
        &self,
        rt: &R,
        seat: &mut SeatOf<M, N>,
        source: &K,
    ) -> (u64, M::Event)
        requires begun { B.begun ≡ Some self.now.table.shared.key }
        requires seat { (seat.old.table_id ≡ self.now.table.shared.table_id) × (seat.old.me.1 ≡ []) × (0 < length seat.old.me.0.owns) }
        ensures seat { IsSameSeat seat.old seat.new }
        ensures takes { TakesRest M.next M.HALTS M.frees M.takes N.front N.at M.tells M.means self.now.table.shared.key result.0 seat.old.me seat.new.me }
        ensures chosen { HasCell seat.new.me (λ cell. MayBeMade (K.may source.now) (K.refused source.now) cell.halted (M.means cell.state result.0) result.1) }
    {
        let word = self.take_word::<B, R>(rt, seat);
        let event = self.choose(seat, source, word);
        (word, event)
    }

    /// Halts the object by a misuse. It is one entry of the history, placed as a call's is. The first halt is kept: from
    /// then on each event is answered `Halted` with its misuse. It neither releases nor acquires, so the caller knows what it
    /// knew before.
    pub fn halt<R: Wait>(&self, rt: &R, pass: &mut PassOf<M, N>, note: &mut N, misuse: Misuse)
        requires halts { IsTrue M.HALTS }
        requires pass { IsPassOf self.now pass.old }
        ensures pass { IsPassOf self.now pass.new × SamePass pass.old pass.new }
        ensures entry { (e : Entry M.Event M.Reply) × Adds M.next M.HALTS M.frees M.takes (start_of self.now) pass.old e pass.new × (e.deed ≡ Halt misuse) × (front_at e ≡ N.front note.new) }
        ensures later { Later (N.front note.new) (N.front note.old) }
        ensures note { KeepsNote N.at N.own N.front note.old note.new }
        ensures no_edge { SameCounts (N.front note.new) (N.front note.old) }
        ensures turns { turns_of pass.new ≡ turns_of pass.old }
    {
        let word = self.take_word::<Brand, R>(rt, &mut pass.seat);
        self.act_halt(&mut pass.seat, misuse, note, word);
        let deed = Deed::Halt(misuse);
        self.give_entry::<Brand>(&mut pass.seat, word, pass.number, &deed, note);
    }
}
