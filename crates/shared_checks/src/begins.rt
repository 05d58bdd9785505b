//! Whether each step of a cursor follows the call that began the cursor.
ghost use Rattle.std.specs.Prelude.{◌≡◌, ◌↔◌, ℕ, ◌<◌, IsTrue, Some, slice_get, length};
ghost use Rattle.shared_checks.specs.Calls.{calls_in};
ghost use Rattle.shared_checks.specs.Parts.{LawfulBegins, HasBegun};

use sync_model::{Item, SharedCall};
use sync_types::Seq;

/// Whether each step of a cursor in the callers' lists follows the call of its caller that began the cursor.
pub fn steps_follow_begins(lists: &[Seq<Item>]) -> bool
    ensures { IsTrue result ↔ LawfulBegins (calls_in lists.now) }
{
    for items in lists {
        if !have_begun(items.as_slice()) {
            return false;
        }
    }
    true
}

fn have_begun(items: &[Item]) -> bool
    ensures { IsTrue result ↔ ((j : ℕ) (x : Item) → slice_get items.now j ≡ Some x → HasBegun items.now j x) }
{
    for (index, item) in items.iter().enumerate() {
        if !has_begun(items, index, item) {
            return false;
        }
    }
    true
}

// Whether a call is no step of a cursor, or one of a cursor that an earlier call began.
fn has_begun(items: &[Item], index: usize, item: &Item) -> bool
    requires { index < length items.now }
    ensures { IsTrue result ↔ HasBegun items.now index item.now }
{
    let SharedCall::Next { begin } = item.call else {
        return true;
    };
    if begin >= index as u64 {
        return false;
    }
    let first = &items[begin as usize];
    matches!(first.call, SharedCall::Begin { .. })
}
