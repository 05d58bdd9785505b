//! Lists of callers, in room that stands before.
ghost use Rattle.std.specs.Prelude.{◌≡◌, ◌+◌, ◌≤◌, [], ◌++◌, vec_len, vec_capacity};
ghost use Rattle.rw_core.specs.RwMachine.{is_among, without};

use sync_model::Callers;

/// Whether the caller is in the list.
pub fn is_among(callers: &[u32], caller: u32) -> bool
    ensures { result ≡ is_among caller callers.now }
{
    callers.iter().any(|other| caller == *other)
}

/// The callers of the list, as a set.
pub fn as_set(callers: &[u32]) -> Callers {
    let mut all = Callers::nobody();
    for caller in callers {
        all = all.with(*caller);
    }
    all
}

/// Takes the caller out of the list.
pub fn remove(callers: &mut Vec<u32>, caller: u32)
    ensures items { callers.new.items ≡ without caller callers.old.items }
    ensures capacity { vec_capacity callers.new ≡ vec_capacity callers.old }
{
    callers.retain(|other| caller != *other);
}

/// Moves the callers of one list to the end of another, which has room for them.
pub fn move_all(from: &mut Vec<u32>, to: &mut Vec<u32>)
    requires { vec_len to.old + vec_len from.old ≤ vec_capacity to.old }
    ensures from { from.new.items ≡ [] }
    ensures to { to.new.items ≡ to.old.items ++ from.old.items }
    ensures from_capacity { vec_capacity from.new ≡ vec_capacity from.old }
    ensures to_capacity { vec_capacity to.old ≤ vec_capacity to.new }
{
    to.extend_from_slice(from).unwrap();
    from.clear();
}
