//! What a range replies. Each law is the contract of a function that does nothing.
ghost use Rattle.std.specs.Prelude.{◌≡◌, ℕ, List, ◌++◌, length, Some, Ok, slice_get};
ghost use Rattle.workload.specs.Plan.{Plan};
ghost use Rattle.run_record.specs.Calls.{SpellsCall};
ghost use Rattle.run_record.specs.Explains.{IsRecordOf};
ghost use Rattle.run_record.specs.Objects.{map_number};
ghost use Rattle.run_record.specs.Ranges.{ShowsWhatWasThere};
ghost use Rattle.run_record.specs.Record.{Record, list_of, shared_in};

use crate::made::Made;
use script_calls::{Call, Operation, Reply};
use sync_model::Answer;
use sync_model::laws::shared::a_callers_calls_are_in_order;
use workload::{ObjectKind, ObjectLine};

/// A range replies what was in its map while it went on: each pair that it shows stood there at some moment, behind all that its
/// worker knew when it began; a key that it doesn't show was absent at some such moment, so it misses none that stood all the
/// while; and it shows none twice.
pub fn a_range_replies_what_was_there()
    ensures { (plan : Plan) (r : Record) (worker : ℕ) (object : ObjectLine) (call : Call) (earlier items later : List Made) (pairs : List (ℕ × ℕ))
        → IsRecordOf plan r → slice_get plan.objects call.object ≡ Some object → object.kind ≡ ObjectKind.Map → call.operation ≡ Operation.Range
        → list_of r worker ≡ earlier ++ (items ++ later) → SpellsCall plan worker (length (shared_in earlier)) call items (Answer.Done (Ok (Reply.Pairs pairs)))
        → ShowsWhatWasThere plan r (map_number plan.objects call.object) items pairs }
{
    a_callers_calls_are_in_order();
}
