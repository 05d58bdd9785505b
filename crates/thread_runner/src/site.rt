//! What the workers of a run share.
ghost use Rattle.std.specs.Prelude.{◌≡◌, ◌+◌, ◌<◌, ◌^◌, cond, IfOk};
ghost use Rattle.run_record.specs.Objects.{is_map, is_atomic, is_pool};
ghost use Rattle.thread_runner.specs.Sites.{AreNumbers, kind_number};

use std::alloc::{AllocError, Global};
use sync_model::Shared;
use thread_objects::{AnyObject, Catalog};
use workload::{ObjectKind, Workload};

/// What all workers of a run share.
#[derive(Drop)]
pub(crate) struct Site<'a, S: Shared> {
    /// The workload that is run, and its maps and atomics.
    pub catalog: Catalog<'a, S>,
    /// Stop, behind it the workload's other objects in order of declaration, behind these the parts of its pools, and behind all Starts,
    /// where some workers wait to be started.
    pub objects: &'a [AnyObject<S::Mark>],
}

// The number of an object of this kind behind so many maps, atomics and pools, which counts it among them.
fn next_number(kind: ObjectKind, maps: &mut u32, atomics: &mut u32, pools: &mut u32) -> u32
    requires maps { maps.old < 2 ^ 31 }
    requires atomics { atomics.old < 2 ^ 31 }
    requires pools { pools.old < 2 ^ 31 }
    ensures number { result ≡ kind_number maps.old atomics.old pools.old kind }
    ensures maps { maps.new ≡ maps.old + cond (is_map kind) 1 0 }
    ensures atomics { atomics.new ≡ atomics.old + cond (is_atomic kind) 1 0 }
    ensures pools { pools.new ≡ pools.old + cond (is_pool kind) 1 0 }
{
    match kind {
        ObjectKind::Map => {
            *maps += 1;
            *maps - 1
        }
        ObjectKind::Atomic(_) => {
            *atomics += 1;
            *atomics - 1
        }
        ObjectKind::Pool => {
            *pools += 1;
            *pools - 1
        }
        _ => 0,
    }
}

/// The number of each of a workload's maps among the maps, of each atomic among the atomics, and of each pool among the pools, by
/// place. An object of another kind has 0.
pub(crate) fn numbers_of(alloc: Global, workload: &Workload) -> Result<Vec<u32>, AllocError>
    ensures { IfOk result (λ numbers. AreNumbers workload.now.objects numbers.items) }
{
    let _workers = workload.workers();
    let mut maps = 0;
    let mut atomics = 0;
    let mut pools = 0;
    let mut numbers = Vec::new(alloc);
    for object in workload.objects() {
        numbers.push(next_number(object.kind, &mut maps, &mut atomics, &mut pools))?;
    }
    Ok(numbers)
}
