//! What lies in the slot of an object, and what an event does to it.
ghost use Rattle.std.specs.Prelude.{◌≡◌, ◌<◌, ◌^◌, ℕ, false, true, None, IsTrue, IfNone, IfSome};
ghost use Rattle.sync_model.specs.declared.journal.Deed.TheVariants.{Event, Halt};
ghost use Rattle.sync_model.specs.Front.{AtLeast, SameCounts, Later};
ghost use Rattle.sync_model.specs.Journal.{is_such};
ghost use Rattle.sync_model.specs.Note.{SameHome};
ghost use Rattle.ruled_object.specs.Cells.{deed_of, Acts};
ghost use Rattle.ruled_object.specs.Growth.{MayBeMade};

use crate::event_source::EventSource;
use sync_model::{Answer, Callers, Deed, Machine, Note, Worded};
use sync_types::Misuse;

/// The machine's state, the misuse that halted the object, and what the releasing events left.
#[derive(Drop)]
pub struct Cell<S, N> {
    pub state: S,
    pub halted: Option<Misuse>,
    pub note: N,
}

impl<S, N: Note> Cell<S, N> {
    // Makes an event by what the cell and the word stand for.
    #[inline(always)]
    pub(crate) fn choose<M: Worded<State = S>, K: EventSource<M>>(
        &self,
        source: &K,
        word: u64,
    ) -> M::Event
        requires { word ≡ M.tells (M.means self.now.state word) }
        ensures { MayBeMade (K.may source.now) (K.refused source.now) self.now.halted (M.means self.now.state word) result }
    {
        if self.halted.is_some() {
            return source.refused_event();
        }
        source.event(&self.state, word)
    }

    // Makes one event that the word alone decides, or refuses it where the object is halted: the answer, whom it lets go on,
    // and the word after it. Where the word alone doesn't decide the event it does nothing.
    #[inline(always)]
    pub(crate) fn apply_quick<M: Worded<State = S>>(
        &mut self,
        home: &N::Home,
        caller: u32,
        note: &mut N,
        event: M::Event,
        word: u64,
    ) -> Option<(Answer<M::Reply>, Callers, u64)>
        requires home { N.at home.now self.old.note × N.at home.now note.old }
        requires word { (word ≡ M.tells (M.means self.old.state word)) × (word < 2 ^ 63) }
        ensures acts { IfSome result (λ did. Acts M.next M.HALTS M.frees M.takes N.front M.tells M.means caller (deed_of event did.0) (N.front note.new) word self.old did.2 self.new × (did.2 < 2 ^ 63)) }
        ensures no_edge { IfSome result (λ did. is_such M.takes (deed_of event did.0) ≡ false → SameCounts (N.front note.new) (N.front note.old)) }
        ensures left { IfNone result ((self.new ≡ self.old) × (note.new ≡ note.old) × (self.old.halted ≡ None) × (M.alone (M.means self.old.state word) caller event ≡ false)) }
        ensures home { SameHome N.at self.old.note self.new.note × SameHome N.at note.old note.new }
        ensures note { IfSome result (λ _. (N.own note.new ≡ N.own note.old) × Later (N.front note.new) (N.front note.old)) }
    {
        if let Some(misuse) = self.halted {
            note.meet(&mut self.note);
            return Some((Answer::Halted(misuse), Callers::nobody(), word));
        }
        let Some((after, answer)) = M::quick(&mut self.state, word, caller, event) else {
            return None;
        };
        self.share::<M>(home, note, event, answer);
        let wakes = M::wakes(&self.state, &event, &answer);
        Some((Answer::Done(answer), wakes, after))
    }

    // Makes one event on the state, which it brings up to date by the word: the reply, whom the event lets go on, and the
    // word after it.
    #[inline(always)]
    pub(crate) fn apply<M: Worded<State = S>>(
        &mut self,
        home: &N::Home,
        caller: u32,
        note: &mut N,
        event: M::Event,
        word: u64,
    ) -> (M::Reply, Callers, u64)
        requires home { N.at home.now self.old.note × N.at home.now note.old }
        requires live { self.old.halted ≡ None }
        ensures acts { Acts M.next M.HALTS M.frees M.takes N.front M.tells M.means caller (Event event result.0) (N.front note.new) word self.old result.2 self.new × (result.2 < 2 ^ 63) }
        ensures no_edge { M.takes event result.0 ≡ false → SameCounts (N.front note.new) (N.front note.old) }
        ensures home { SameHome N.at self.old.note self.new.note × SameHome N.at note.old note.new }
        ensures note { (N.own note.new ≡ N.own note.old) × Later (N.front note.new) (N.front note.old) }
    {
        M::refresh(&mut self.state, word);
        let reply = M::step(&mut self.state, caller, event);
        self.share::<M>(home, note, event, reply);
        let wakes = M::wakes(&self.state, &event, &reply);
        (reply, wakes, M::word(&self.state))
    }

    // What an event that was made does to the notes: one that acquires takes in what earlier releasing ones left, and then
    // one that releases leaves all that its caller knows. The event gets its number, past all that either had.
    #[inline(always)]
    fn share<M: Worded<State = S>>(
        &mut self,
        home: &N::Home,
        note: &mut N,
        event: M::Event,
        reply: M::Reply,
    )
        requires home { N.at home.now self.old.note × N.at home.now note.old }
        ensures cell { (self.new.state ≡ self.old.state) × (self.new.halted ≡ self.old.halted) }
        ensures more { AtLeast (N.front self.new.note).counts (N.front self.old.note).counts }
        ensures left { M.frees event reply ≡ true → AtLeast (N.front self.new.note).counts (N.front note.new).counts }
        ensures taken { M.takes event reply ≡ true → AtLeast (N.front note.new).counts (N.front self.old.note).counts }
        ensures kept { M.frees event reply ≡ false → SameCounts (N.front self.new.note) (N.front self.old.note) }
        ensures no_edge { M.takes event reply ≡ false → SameCounts (N.front note.new) (N.front note.old) }
        ensures home { SameHome N.at self.old.note self.new.note × SameHome N.at note.old note.new }
        ensures note { (N.own note.new ≡ N.own note.old) × Later (N.front note.new) (N.front note.old) }
        ensures meet { ((N.front self.old.note).time < (N.front note.new).time) × ((N.front self.new.note).time ≡ (N.front note.new).time) }
    {
        if M::acquires(&event, &reply) {
            note.take_in(home, &mut self.note);
        }
        if M::releases(&event, &reply) {
            self.note.take_in(home, note);
        }
        note.meet(&mut self.note);
    }

    // Halts the object. The first misuse is kept.
    pub(crate) fn halt<M: Worded<State = S>>(&mut self, misuse: Misuse, note: &mut N, word: u64)
        requires halts { IsTrue M.HALTS }
        requires word { word ≡ M.tells (M.means self.old.state word) }
        ensures acts { (caller : ℕ) → Acts M.next M.HALTS M.frees M.takes N.front M.tells M.means caller (Halt misuse) (N.front note.new) word self.old word self.new }
        ensures home { SameHome N.at self.old.note self.new.note × SameHome N.at note.old note.new }
        ensures note { (N.own note.new ≡ N.own note.old) × Later (N.front note.new) (N.front note.old) }
        ensures no_edge { SameCounts (N.front note.new) (N.front note.old) }
    {
        self.halted = self.halted.or(Some(misuse));
        note.meet(&mut self.note);
    }
}

// An event with its answer, as the journal has it.
#[inline(always)]
pub(crate) fn deed<E, R: Copy>(event: E, answer: &Answer<R>) -> Deed<E, R>
    ensures { result ≡ deed_of event answer.now }
{
    match answer {
        Answer::Done(reply) => Deed::Event(event, *reply),
        Answer::Halted(misuse) => Deed::Refused(event, *misuse),
    }
}
