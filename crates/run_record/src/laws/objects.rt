//! What the objects' journals say. Each follows its machine, so each law of the machine holds of it; these are the ones that
//! users of the objects know.
ghost use Rattle.std.specs.Prelude.{◌≡◌, ℕ, ℤ, ◌+◌, ◌<◌, ◌≤◌, false, Some, slice_get, count_by};
ghost use Rattle.mutex_core.specs.Edges as mutex;
ghost use Rattle.mutex_core.specs.Exclusion.{TakesTurns};
ghost use Rattle.wait_cores.specs.OnceLaws as once;
ghost use Rattle.pool_core.specs.PoolLaws as pool;
ghost use Rattle.workload.specs.Plan.{Plan};
ghost use Rattle.run_record.specs.Explains.{IsRecordOf};
ghost use Rattle.run_record.specs.Logs.{Shows};
ghost use Rattle.run_record.specs.Objects.{first_part};
ghost use Rattle.run_record.specs.Record.{Record, object_number, journal_of};

use crate::entered::{ObjectEvent, ObjectReply};
use mutex_core::MutexCore;
use pool_core::PartCore;
use sync_model::laws::journals::journal_is_log;
use wait_cores::OnceCore;
use workload::{ObjectKind, ObjectLine};

/// Mutual exclusion: nobody acquires a mutex while somebody has it, so between two replies to `lock` stands an unlock. An
/// unlock while nobody has it is no more than a misuse.
pub fn a_mutex_is_held_by_one()
    ensures { (plan : Plan) (r : Record) (place : ℕ) (object : ObjectLine)
        → IsRecordOf plan r → slice_get plan.objects place ≡ Some object → object.kind ≡ ObjectKind.Mutex
        → (log : mutex.Log) × Shows ObjectEvent.Mutex ObjectReply.Mutex (journal_of r (object_number place)) log × TakesTurns false log }
{
    journal_is_log::<MutexCore>();
    mutex_core::laws::mutual_exclusion();
}

/// The function of a once runs at most once, however many call it. The same is so of functions made by `OnceFunc` and
/// `OnceValue`.
pub fn a_function_runs_once()
    ensures once { (plan : Plan) (r : Record) (place atomic : ℕ) (delta : ℤ) (object : ObjectLine)
        → IsRecordOf plan r → slice_get plan.objects place ≡ Some object → object.kind ≡ ObjectKind.Once atomic delta
        → (log : once.Log ℤ) × Shows ObjectEvent.Once ObjectReply.Once (journal_of r (object_number place)) log × (count_by once.begins log ≤ 1) }
    ensures func { (plan : Plan) (r : Record) (place code : ℕ) (object : ObjectLine)
        → IsRecordOf plan r → slice_get plan.objects place ≡ Some object → object.kind ≡ ObjectKind.OnceFunc code
        → (log : once.Log ℕ) × Shows ObjectEvent.OnceFunc ObjectReply.OnceFunc (journal_of r (object_number place)) log × (count_by once.begins log ≤ 1) }
    ensures value { (plan : Plan) (r : Record) (place value : ℕ) (object : ObjectLine)
        → IsRecordOf plan r → slice_get plan.objects place ≡ Some object → object.kind ≡ ObjectKind.OnceValue value
        → (log : once.Log ℕ) × Shows ObjectEvent.OnceValue ObjectReply.OnceValue (journal_of r (object_number place)) log × (count_by once.begins log ≤ 1) }
{
    journal_is_log::<OnceCore<i64>>();
    journal_is_log::<OnceCore<u32>>();
    journal_is_log::<OnceCore<u64>>();
    wait_cores::laws::once::runs_once::<i64>();
    wait_cores::laws::once::runs_once::<u32>();
    wait_cores::laws::once::runs_once::<u64>();
}

/// Each item that a look of a pool's part takes was put into that part by one put before, no other look takes it, and at most one
/// sweep of the part stands between.
pub fn each_item_got_was_put()
    ensures { (plan : Plan) (r : Record) (place part : ℕ) (object : ObjectLine)
        → IsRecordOf plan r → slice_get plan.objects place ≡ Some object → object.kind ≡ ObjectKind.Pool → part < plan.workers
        → (log : pool.Log ℕ) × Shows ObjectEvent.Pool ObjectReply.Pool (journal_of r (first_part plan place + part)) log × (origin : ℕ → ℕ) × pool.ComeFrom log origin }
{
    journal_is_log::<PartCore>();
    pool_core::part_laws::a_part_gives_each_once();
}
