//! The flight of each call on a group of flights.
ghost use Rattle.std.specs.Prelude.{◌≡◌, ℕ, ◌<◌, ℤ, Bool, List, Some, slice_get};
ghost use Rattle.sync_model.specs.Front.{AtLeast};
ghost use Rattle.workload.specs.Keys.{keys_in, key_number};
ghost use Rattle.workload.specs.Plan.{Plan};
ghost use Rattle.run_record.specs.Explains.{AreLines, IsRecordOf};
ghost use Rattle.run_record.specs.Flights.{IsOnFlights, FliesOnce};
ghost use Rattle.run_record.specs.Lines.{Line, SpeltCall};
ghost use Rattle.run_record.specs.Objects.{atomic_number};
ghost use Rattle.run_record.specs.Record.{Record, ObjectEntry, object_number, journal_of};

use flight_core::laws::{joins_one_flight, tells_whether_it_was_shared};
use flight_core::{FlightCore, FlightEvent, FlightReply};
use protocols::laws::calls_give_what_they_may;
use script_calls::{Operation, Outcome, Reply};
use sync_model::laws::journals::journal_is_log;
use sync_model::laws::logs::logs_go_on;
use workload::{ObjectKind, ObjectLine};

/// For each completed `fly` there is exactly one flight of its key that the call led or joined. It answers what that flight came to,
/// which is the reply of the one `add` that the flight's leader made between its lead and its landing. The landing stands behind the
/// coming of the call, and before its leaving. And it answers `true` exactly where somebody joined that flight.
pub fn each_fly_is_of_one_flight()
    ensures { (plan : Plan) (r : Record) (outcome : Outcome) (lines : List Line) (worker i atomic : ℕ) (amount : ℤ) (key : List ℕ) (line : Line) (fly : SpeltCall) (object : ObjectLine)
        → AreLines plan r outcome lines → IsRecordOf plan r → slice_get lines worker ≡ Some line → slice_get line.spelt i ≡ Some fly
        → slice_get plan.objects fly.call.object ≡ Some object → object.kind ≡ ObjectKind.Flight atomic amount → fly.call.operation ≡ Operation.Fly key
        → (value : ℤ) × (shared : Bool) × (fly.reply ≡ Reply.Flown value shared)
        × FliesOnce r (object_number fly.call.object) (atomic_number plan.objects atomic) amount worker (key_number (keys_in plan.scripts) key) fly.items value shared }
{
    journal_is_log::<FlightCore>();
    logs_go_on::<FlightCore>();
    calls_give_what_they_may::<FlightCore>();
    joins_one_flight();
    tells_whether_it_was_shared();
}

/// A landing makes known: whoever leaves a flight of the group later, and whoever leads one later, knows from then on what the caller
/// that landed knew.
pub fn a_landing_makes_known()
    ensures left { (plan : Plan) (r : Record) (place m n : ℕ) (value other : ℤ) (shared : Bool) (landing leaving : ObjectEntry)
        → IsRecordOf plan r → m < n → slice_get (journal_of r (object_number place)) m ≡ Some landing → slice_get (journal_of r (object_number place)) n ≡ Some leaving
        → IsOnFlights (FlightEvent.Land value) (FlightReply.Landed shared) landing → IsOnFlights FlightEvent.Leave (FlightReply.Left other) leaving
        → AtLeast leaving.front landing.front }
    ensures led { (plan : Plan) (r : Record) (place m n key : ℕ) (value : ℤ) (shared : Bool) (landing lead : ObjectEntry)
        → IsRecordOf plan r → m < n → slice_get (journal_of r (object_number place)) m ≡ Some landing → slice_get (journal_of r (object_number place)) n ≡ Some lead
        → IsOnFlights (FlightEvent.Land value) (FlightReply.Landed shared) landing → IsOnFlights (FlightEvent.Join key) FlightReply.Lead lead
        → AtLeast lead.front landing.front }
{}
