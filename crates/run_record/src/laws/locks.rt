//! Who has a reader/writer mutex, by its journal.
ghost use Rattle.std.specs.Prelude.{◌≡◌, ℕ, Some, slice_get};
ghost use Rattle.rw_core.specs.Edges as rw;
ghost use Rattle.workload.specs.Plan.{Plan};
ghost use Rattle.run_record.specs.Exclusion.{KeepsApart};
ghost use Rattle.run_record.specs.Explains.{IsRecordOf};
ghost use Rattle.run_record.specs.Logs.{Shows};
ghost use Rattle.run_record.specs.Record.{Record, object_number, journal_of};

use crate::entered::{ObjectEvent, ObjectReply};
use rw_core::RwCore;
use sync_model::laws::journals::journal_is_log;
use workload::{ObjectKind, ObjectLine};

/// A writer of a reader/writer mutex excludes all others, and its readers exclude writers: so between a writer's lock and
/// anybody's stands a writer's unlock, and between a reader's lock and a writer's a reader's unlock.
pub fn a_writer_excludes_all_others()
    ensures { (plan : Plan) (r : Record) (place : ℕ) (object : ObjectLine)
        → IsRecordOf plan r → slice_get plan.objects place ≡ Some object → object.kind ≡ ObjectKind.RwMutex
        → (log : rw.Log) × Shows ObjectEvent.RwMutex ObjectReply.RwMutex (journal_of r (object_number place)) log × KeepsApart plan.workers log }
{
    journal_is_log::<RwCore>();
    rw_core::laws::exclusion();
    rw_core::laws::announced_writer();
    rw_core::laws::validity();
}
