//! A journal that follows its machine: the machine is replayed, and answers each event as the journal says.
ghost use Rattle.std.specs.Prelude.{◌≡◌, ◌↔◌, ℕ, true, false, map, None, IsTrue, MatchOption};
ghost use Rattle.sync_model.specs.declared.journal.Deed.{Deed};
ghost use Rattle.sync_model.specs.Journal.{Right, state_next, halt_next};
ghost use Rattle.run_record.specs.Parts.{lifted_deed};
ghost use Rattle.object_checks.specs.JournalItems.{entry_in};
ghost use Rattle.object_checks.specs.JournalParts.{FollowsMachine};

use crate::journals::kind::JournalKind;
use crate::journals::row::Row;
use run_record::{ObjectEvent, ObjectReply};
use sync_model::Deed;
use sync_types::Misuse;

/// Whether a journal is all of this kind, and follows the kind's machine from a state.
pub fn follows_machine<K: JournalKind>(start: K::State, journal: &[Row<'_>]) -> bool
    ensures { IsTrue result ↔ FollowsMachine K.event K.reply K.next start (map entry_in journal.now) }
{
    K::laws();
    let mut state = start;
    let mut halted = None;
    for row in journal {
        if !goes_on::<K>(&mut state, &mut halted, row.caller, &row.item.deed) {
            return false;
        }
    }
    true
}

// Whether a deed may follow at a state, where a misuse may stand. Then both are as it leaves them.
fn goes_on<K: JournalKind>(
    state: &mut K::State,
    halted: &mut Option<Misuse>,
    caller: u32,
    deed: &Deed<ObjectEvent, ObjectReply>,
) -> bool
    ensures yes { result ≡ true → (own : Deed K.Event K.Reply) × (deed.now ≡ lifted_deed K.event K.reply own) × Right K.next true state.old halted.old caller own × (state.new ≡ state_next K.next state.old caller own) × (halted.new ≡ halt_next halted.old own) }
    ensures no { result ≡ false → (own : Deed K.Event K.Reply) → deed.now ≡ lifted_deed K.event K.reply own → Right K.next true state.old halted.old caller own → ⊥ }
{
    K::laws();
    match own_deed::<K>(deed) {
        None => false,
        Some(own) => is_right::<K>(state, halted, caller, own),
    }
}

// The deed as one of this kind.
fn own_deed<K: JournalKind>(
    deed: &Deed<ObjectEvent, ObjectReply>,
) -> Option<Deed<K::Event, K::Reply>>
    ensures { MatchOption result ((own : Deed K.Event K.Reply) → deed.now ≡ lifted_deed K.event K.reply own → ⊥) (λ own. deed.now ≡ lifted_deed K.event K.reply own) }
{
    match deed {
        Deed::Event(event, reply) => match K::own_event(event) {
            None => None,
            Some(event) => match K::own_reply(reply) {
                None => None,
                Some(reply) => Some(Deed::Event(event, reply)),
            },
        },
        Deed::Refused(event, misuse) => match K::own_event(event) {
            None => None,
            Some(event) => Some(Deed::Refused(event, *misuse)),
        },
        Deed::Halt(misuse) => Some(Deed::Halt(*misuse)),
    }
}

// Whether a deed of this kind is right at a state. Then the state and the misuse that stands are as it leaves them.
fn is_right<K: JournalKind>(
    state: &mut K::State,
    halted: &mut Option<Misuse>,
    caller: u32,
    deed: Deed<K::Event, K::Reply>,
) -> bool
    ensures right { IsTrue result ↔ Right K.next true state.old halted.old caller deed }
    ensures state { result ≡ true → state.new ≡ state_next K.next state.old caller deed }
    ensures halted { result ≡ true → halted.new ≡ halt_next halted.old deed }
{
    match deed {
        Deed::Event(event, reply) => {
            if halted.is_some() {
                return false;
            }
            let answer = K::step(state, caller, event);
            K::is_same(&reply, &answer)
        }
        Deed::Refused(_, misuse) => *halted == Some(misuse),
        Deed::Halt(misuse) => {
            if halted.is_none() {
                *halted = Some(misuse);
            }
            true
        }
    }
}
