//! What the journal of a kind of objects has.
ghost use Rattle.std.specs.Prelude.{◌≡◌, ◌≢◌, ◌↔◌, IsTrue, MatchOption};
ghost use Rattle.run_record.specs.declared.entered.ObjectEvent.{ObjectEvent};
ghost use Rattle.run_record.specs.declared.entered.ObjectReply.{ObjectReply};

use run_record::{ObjectEvent, ObjectReply};
use sync_model::Machine;

/// A kind of objects with journals: its machine, and how a journal has its events and answers.
pub trait JournalKind: Machine {
    // The event and the answer as a journal has them.
    ghost event: { Self.Event → ObjectEvent };

    ghost reply: { Self.Reply → ObjectReply };

    /// The event of this kind that a journal has.
    fn own_event(said: &ObjectEvent) -> Option<Self::Event>
        ensures { MatchOption result ((own : Self.Event) → said.now ≢ event own) (λ own. said.now ≡ event own) };

    /// The answer of this kind that a journal has.
    fn own_reply(said: &ObjectReply) -> Option<Self::Reply>
        ensures { MatchOption result ((own : Self.Reply) → said.now ≢ reply own) (λ own. said.now ≡ reply own) };

    /// Whether two answers are one.
    fn is_same(first: &Self::Reply, second: &Self::Reply) -> bool
        ensures { IsTrue result ↔ (first.now ≡ second.now) };

    /// A journal has different events and answers as different ones. It does nothing.
    fn laws()
        ensures events { (first second : Self.Event) → event first ≡ event second → first ≡ second }
        ensures replies { (first second : Self.Reply) → reply first ≡ reply second → first ≡ second };
}
