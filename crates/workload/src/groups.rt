//! Under which group a worker is started.
ghost use Rattle.std.specs.Prelude.{◌≡◌};
ghost use Rattle.script_calls.specs.Starts.{starts, group_in, group_of};

use script_calls::{Call, ComposedCall, Operation};
use sync_types::Seq;

/// Whether a call starts this worker.
fn starts(call: &Call, worker: u32) -> bool
    ensures { result ≡ starts worker call.now }
{
    match call.operation {
        Operation::Composed(ComposedCall::Go { worker: started }) => started == worker,
        _ => false,
    }
}

/// The place of the group of the first call of a script that starts this worker.
fn group_in(script: &[Call], worker: u32) -> Option<usize>
    ensures { result ≡ group_in worker script.now }
{
    for call in script {
        if starts(call, worker) {
            return Some(call.object);
        }
    }
    None
}

/// The same of all scripts: the group under which the worker is started, if any call may start it.
pub(crate) fn group_of(scripts: &[Seq<Call>], worker: u32) -> Option<usize>
    ensures { result ≡ group_of worker scripts.now }
{
    for script in scripts {
        let group = group_in(script.as_slice(), worker);
        if group.is_some() {
            return group;
        }
    }
    None
}
