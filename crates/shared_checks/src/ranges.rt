//! The Range law: whether each step of each cursor shows what it may.
ghost use Rattle.std.specs.Prelude.{◌≡◌, ◌↔◌, ℕ, ◌<◌, IsTrue, Some, None, slice_get, length};
ghost use Rattle.sync_model.specs.SharedHistory.{value_at};
ghost use Rattle.shared_checks.specs.Calls.{calls_in};
ghost use Rattle.shared_checks.specs.Fronts.{LawfulFronts};
ghost use Rattle.shared_checks.specs.Parts.{LawfulHistory, LawfulBegins, LawfulRanges};
ghost use Rattle.shared_checks.specs.Placing.{contents_of, AreOn};
ghost use Rattle.shared_checks.specs.Showing.{KeepsStep};

use crate::known::known_of;
use crate::objects::Objects;
use crate::shown::{Step, may_show};
use sync_model::{Item, SharedCall, SharedEntry, SharedReply};
use sync_types::Seq;

/// Whether each cursor of the callers' calls keeps the Range law, where the other parts of their law hold. No key is there at the
/// start.
pub fn keeps_ranges(objects: &Objects, history: &[SharedEntry], lists: &[Seq<Item>]) -> bool
    requires on { AreOn (contents_of objects.now) (calls_in lists.now) }
    requires empty { (m key : ℕ) → value_at (contents_of objects.now) m key ≡ None }
    requires law { LawfulHistory (contents_of objects.now) history.now (calls_in lists.now) }
    requires fronts { LawfulFronts (calls_in lists.now) }
    requires begins { LawfulBegins (calls_in lists.now) }
    ensures { IsTrue result ↔ LawfulRanges (contents_of objects.now) history.now (calls_in lists.now) }
{
    for (caller, items) in lists.iter().enumerate() {
        if !keep_ranges(objects, history, lists, caller, items.as_slice()) {
            return false;
        }
    }
    true
}

// Whether each step of a caller's cursors shows what it may.
fn keep_ranges(
    objects: &Objects,
    history: &[SharedEntry],
    lists: &[Seq<Item>],
    caller: usize,
    items: &[Item],
) -> bool
    requires same { items.now ≡ calls_in lists.now caller }
    requires on { AreOn (contents_of objects.now) (calls_in lists.now) }
    requires empty { (m key : ℕ) → value_at (contents_of objects.now) m key ≡ None }
    requires law { LawfulHistory (contents_of objects.now) history.now (calls_in lists.now) }
    requires fronts { LawfulFronts (calls_in lists.now) }
    requires begins { LawfulBegins (calls_in lists.now) }
    ensures { IsTrue result ↔ ((i : ℕ) (x : Item) → slice_get items.now i ≡ Some x → KeepsStep (contents_of objects.now) history.now lists.now items.now i x) }
{
    for index in 0..items.len() {
        if !keeps_step(objects, history, lists, caller, items, index) {
            return false;
        }
    }
    true
}

// Whether a call, where it is a step of a cursor, shows what it may.
fn keeps_step(
    objects: &Objects,
    history: &[SharedEntry],
    lists: &[Seq<Item>],
    caller: usize,
    items: &[Item],
    index: usize,
) -> bool
    requires inside { index < length items.now }
    requires same { items.now ≡ calls_in lists.now caller }
    requires on { AreOn (contents_of objects.now) (calls_in lists.now) }
    requires empty { (m key : ℕ) → value_at (contents_of objects.now) m key ≡ None }
    requires law { LawfulHistory (contents_of objects.now) history.now (calls_in lists.now) }
    requires fronts { LawfulFronts (calls_in lists.now) }
    requires begins { LawfulBegins (calls_in lists.now) }
    ensures { IsTrue result ↔ ((x : Item) → slice_get items.now index ≡ Some x → KeepsStep (contents_of objects.now) history.now lists.now items.now index x) }
{
    let item = &items[index];
    let SharedCall::Next { begin } = item.call else {
        return true;
    };
    let SharedReply::Shown(shown) = item.reply else {
        return true;
    };
    if begin >= items.len() as u64 {
        return true;
    }
    let first = &items[begin as usize];
    let SharedCall::Begin { map } = first.call else {
        return true;
    };
    let from = known_of(lists, &first.front) as usize;
    let step = Step {
        begin,
        map,
        index,
        from,
        reach: item.place as usize,
    };
    may_show(objects, history, items, step, shown)
}
