//! How many items a workload puts into a pool.
ghost use Rattle.std.specs.Prelude.{◌≡◌, ◌≤◌, count_by, length, sum_by};
ghost use Rattle.workload.specs.Puts.{is_put, is_put_at, puts_at};
ghost use Rattle.workload.specs.declared.limits.TheConstants.{MAX_CALLS};

use script_calls::{Call, Operation};
use sync_types::{PoolCall, Seq};

/// Whether an operation puts an item into a pool.
fn is_put(operation: &Operation) -> bool
    ensures { result ≡ is_put operation.now }
{
    matches!(operation, Operation::Pool(PoolCall::Put(_)))
}

/// Whether a call puts an item into the pool at this place.
fn is_put_at(call: &Call, place: usize) -> bool
    ensures { result ≡ is_put_at place call.now }
{
    call.object == place && is_put(&call.operation)
}

/// How many puts a script makes into the pool at this place.
fn puts_in(script: &[Call], place: usize) -> usize
    ensures { result ≡ count_by (is_put_at place) script.now }
{
    script.iter().filter(|call| is_put_at(call, place)).count()
}

/// How many puts the scripts make into the pool at this place: no more than calls.
pub(crate) fn puts_at(scripts: &[Seq<Call>], place: usize) -> u32
    requires { sum_by length scripts.now ≤ MAX_CALLS }
    ensures { result ≡ puts_at place scripts.now }
{
    let mut puts = 0;
    for script in scripts {
        puts += puts_in(script.as_slice(), place);
    }
    puts as u32
}
