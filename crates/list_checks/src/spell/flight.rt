//! The calls of a group of flights, as a list spells them.
ghost use Rattle.std.specs.Prelude.{◌≡◌, ◌≤◌, length, drop};
ghost use Rattle.run_record.specs.FlightKind.{was_shared};
ghost use Rattle.run_cuts.specs.FlightCuts.{flight_event_in, flight_reply_in, is_flight_event, fly_cut};
ghost use Rattle.list_checks.specs.SpellFound.{IsFound, lead_cut, land_cut};

use crate::spell::automaton::{Kind, spell_stages};
use crate::spell::placed::{AddTo, spell_placed};
use crate::spell::spelt::{Found, Spelt, Stop};
use flight_core::{FlightCore, FlightEvent, FlightOutcome, FlightReply, FlightStage};
use run_record::{Made, ObjectEvent, ObjectReply};
use script_calls::Reply;

impl Kind for FlightCore {
    ghost event_in = { flight_event_in };

    ghost reply_in = { flight_reply_in };

    ghost is_event = { is_flight_event };

    fn event_in(event: ObjectEvent) -> Option<FlightEvent> {
        match event {
            ObjectEvent::Flight(event) => Some(event),
            _ => None,
        }
    }

    fn reply_in(reply: ObjectReply) -> Option<FlightReply> {
        match reply {
            ObjectReply::Flight(reply) => Some(reply),
            _ => None,
        }
    }

    fn is_event(stage: FlightStage, event: &FlightEvent) -> bool {
        match (stage, event) {
            (FlightStage::Join(key), FlightEvent::Join(told)) => *told == key,
            (FlightStage::Land(value), FlightEvent::Land(told)) => *told == value,
            (FlightStage::Leave, FlightEvent::Leave) => true,
            _ => false,
        }
    }
}

/// The `fly` for the key of a number, of a group whose function adds an amount to the int64 of this number, with which a list goes on
/// behind a place.
pub fn spell_fly(
    object: usize,
    atomic: usize,
    amount: i64,
    key: u32,
    items: &[Made],
    from: usize,
) -> Found<Reply<u32>>
    requires { from ≤ length items.now }
    ensures { IsFound items.now from (fly_cut object atomic amount key (drop from items.now)) result }
{
    let joined = spell_stages::<FlightCore>(object, FlightStage::Join(key), items, from)?;
    match joined.outcome {
        FlightOutcome::Lead => spell_lead(object, atomic, amount, items, joined.end),
        FlightOutcome::Got(value) => Ok(Spelt {
            end: joined.end,
            outcome: Reply::Flown(value, true),
        }),
        FlightOutcome::Landed(_) => Err(Stop::Wrong),
    }
}

// What the leader of a flight does: the function, which adds an amount to the int64, and the landing.
fn spell_lead(
    object: usize,
    atomic: usize,
    amount: i64,
    items: &[Made],
    from: usize,
) -> Found<Reply<u32>>
    requires { from ≤ length items.now }
    ensures { IsFound items.now from (lead_cut object atomic amount (drop from items.now)) result }
{
    let sum = spell_placed(&AddTo { atomic, amount }, items, from)?;
    spell_landing(object, sum.outcome, items, sum.end)
}

// The landing of a flight that came to a sum.
fn spell_landing(object: usize, sum: i64, items: &[Made], from: usize) -> Found<Reply<u32>>
    requires { from ≤ length items.now }
    ensures { IsFound items.now from (land_cut object sum (drop from items.now)) result }
{
    let landed = spell_stages::<FlightCore>(object, FlightStage::Land(sum), items, from)?;
    Ok(Spelt {
        end: landed.end,
        outcome: Reply::Flown(sum, was_shared(landed.outcome)),
    })
}

// Whether a flight that landed had a joiner.
fn was_shared(outcome: FlightOutcome) -> bool
    ensures { result ≡ was_shared outcome }
{
    match outcome {
        FlightOutcome::Landed(shared) => shared,
        FlightOutcome::Lead | FlightOutcome::Got(_) => false,
    }
}
