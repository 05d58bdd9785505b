//! The calls of one object, event by event.
ghost use Rattle.std.specs.Prelude.{◌≡◌, ◌≤◌, Bool, List, ◌∷◌, Option, Some, length, drop};
ghost use Rattle.sync_model.specs.declared.journal.Deed.{Deed};
ghost use Rattle.run_record.specs.declared.entered.ObjectEvent.{ObjectEvent};
ghost use Rattle.run_record.specs.declared.entered.ObjectReply.{ObjectReply};
ghost use Rattle.run_record.specs.declared.made.Made.{Made};
ghost use Rattle.run_cuts.specs.Cuts.{Move, move, event_move, refusal_move, by_move, stages_cut};
ghost use Rattle.list_checks.specs.SpellFound.{move_of, IsFound};

use crate::spell::spelt::{Found, Spelt, Stop};
use protocols::{Protocol, Step};
use run_record::{Made, ObjectEvent, ObjectReply};
use sync_model::Deed;
use sync_types::Misuse;

/// How a call goes on by what its object did.
#[derive(Clone, Copy, Drop)]
pub enum Moved<G, O> {
    /// From this stage.
    On(G),
    /// It is done.
    Done(O),
    /// It is a misuse.
    Misused(Misuse),
    /// It met a halt.
    Halted(Misuse),
    /// No call goes on so.
    Wrong,
}

/// The calls of an object of one kind, as an automaton that reads what its object did.
pub trait Automaton {
    /// Where a call is.
    type Stage: Copy + Drop;

    /// What a call can come to that isn't a misuse.
    type Outcome: Copy + Drop;

    // How a call at a stage goes on by a deed.
    ghost moves: { Self.Stage → Deed ObjectEvent ObjectReply → Move Self.Stage Self.Outcome };

    /// How a call at a stage goes on by a deed.
    fn moves(
        stage: Self::Stage,
        deed: &Deed<ObjectEvent, ObjectReply>,
    ) -> Moved<Self::Stage, Self::Outcome>
        ensures { move_of result ≡ moves stage deed.now };
}

/// A kind of object whose calls are those of its protocol.
pub trait Kind: Protocol {
    // The kind's events and answers among those of all kinds.
    ghost event_in: { ObjectEvent → Option Self.Event };

    ghost reply_in: { ObjectReply → Option Self.Reply };

    // Whether an event is the stage's, at some moment.
    ghost is_event: { Self.Stage → Self.Event → Bool };

    /// The event, where it is one of this kind.
    fn event_in(event: ObjectEvent) -> Option<Self::Event>
        ensures { result ≡ event_in event };

    /// The answer, where it is one of this kind.
    fn reply_in(reply: ObjectReply) -> Option<Self::Reply>
        ensures { result ≡ reply_in reply };

    /// Whether the event is the stage's, at some moment.
    fn is_event(stage: Self::Stage, event: &Self::Event) -> bool
        ensures { result ≡ is_event stage event.now };
}

impl<P: Kind> Automaton for P {
    type Stage = P::Stage;

    type Outcome = P::Outcome;

    ghost moves = { move P.event_in P.reply_in P.is_event P.meaning };

    fn moves(
        stage: P::Stage,
        deed: &Deed<ObjectEvent, ObjectReply>,
    ) -> Moved<P::Stage, P::Outcome> {
        match deed {
            Deed::Event(event, reply) => match (P::event_in(*event), P::reply_in(*reply)) {
                (Some(event), Some(reply)) => answered::<P>(stage, &event, &reply),
                _ => Moved::Wrong,
            },
            Deed::Refused(event, misuse) => match P::event_in(*event) {
                Some(event) => refused::<P>(stage, &event, *misuse),
                None => Moved::Wrong,
            },
            Deed::Halt(_) => Moved::Wrong,
        }
    }
}

// How a call at a stage goes on by the answer to an event.
fn answered<P: Kind>(
    stage: P::Stage,
    event: &P::Event,
    reply: &P::Reply,
) -> Moved<P::Stage, P::Outcome>
    ensures { move_of result ≡ event_move P.event_in P.reply_in P.is_event P.meaning stage (Some event.now) (Some reply.now) }
{
    if !P::is_event(stage, event) {
        return Moved::Wrong;
    }
    match P::meaning(stage, reply) {
        Step::Finished(outcome) => Moved::Done(outcome),
        Step::Misused(misuse) => Moved::Misused(misuse),
        Step::Waits(later) | Step::Next(later) => Moved::On(later),
        Step::Never => Moved::Wrong,
    }
}

// How a call at a stage goes on by the refusal of an event.
fn refused<P: Kind>(
    stage: P::Stage,
    event: &P::Event,
    misuse: Misuse,
) -> Moved<P::Stage, P::Outcome>
    ensures { move_of result ≡ refusal_move P.event_in P.reply_in P.is_event P.meaning stage (Some event.now) misuse }
{
    if P::is_event(stage, event) {
        Moved::Halted(misuse)
    } else {
        Moved::Wrong
    }
}

// How a call on an object goes on by an item of its caller's list.
fn read_item<A: Automaton>(
    object: usize,
    stage: A::Stage,
    item: &Made,
) -> Moved<A::Stage, A::Outcome>
    ensures { (rest : List Made) → stages_cut A.moves object stage (item.now ∷ rest) ≡ by_move A.moves object item.now (move_of result) rest (λ later. stages_cut A.moves object later rest) }
{
    match item {
        Made::Shared(_) => Moved::Wrong,
        Made::Entered {
            object: other,
            entry,
        } => {
            if *other == object {
                A::moves(stage, &entry.deed)
            } else {
                Moved::Wrong
            }
        }
    }
}

/// The call from a stage on, on the object of this number, with which a list goes on behind a place.
pub fn spell_stages<A: Automaton>(
    object: usize,
    stage: A::Stage,
    items: &[Made],
    from: usize,
) -> Found<A::Outcome>
    requires { from ≤ length items.now }
    ensures { IsFound items.now from (stages_cut A.moves object stage (drop from items.now)) result }
{
    let mut at = stage;
    for next in from..items.len() {
        let end = next + 1;
        match read_item::<A>(object, at, &items[next]) {
            Moved::On(later) => at = later,
            Moved::Done(outcome) => return Ok(Spelt { end, outcome }),
            Moved::Misused(misuse) => return Err(Stop::Misused(end, misuse)),
            Moved::Halted(misuse) => return Err(Stop::Halted(end, misuse)),
            Moved::Wrong => return Err(Stop::Wrong),
        }
    }
    Err(Stop::Within)
}
