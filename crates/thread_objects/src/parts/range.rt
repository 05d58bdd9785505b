//! `range` on a map: one cursor, taken until it shows none, and the pairs that it showed sorted by the bytes of their keys.
ghost use Rattle.std.specs.Prelude.{◌≡◌, ℕ, ◌<◌, ◌≤◌, List, [], length, IfSome, IfNone, IsPermutation, IsSortedByKey, Ok};
ghost use Rattle.std.specs.Cmp.Lexicographic.{slice_cmp};
ghost use Rattle.std.specs.Option.{ForSome};
ghost use Rattle.std.specs.Ordering.{nat_cmp};
ghost use Rattle.sync_model.specs.declared.answer.Answer.TheVariants.{Done};
ghost use Rattle.sync_model.specs.Note.{SameHome};
ghost use Rattle.sync_model.specs.Shared.{IsCallerAt, items_of};
ghost use Rattle.workload.specs.Keys.{key_name};
ghost use Rattle.workload.specs.Plan.{Plan};
ghost use Rattle.run_record.specs.Limits.{IsCallOf};
ghost use Rattle.run_record.specs.MapKind.{range_call};
ghost use Rattle.run_record.specs.Record.{ObjectEntry};
ghost use Rattle.thread_objects.specs.GivenUp.{MakesOnly, ShowedTooMany};
ghost use Rattle.thread_objects.specs.PlacedCalls.{placed, shows, shows_all};
ghost use Rattle.thread_objects.specs.Spending.{Spends};
ghost use Rattle.thread_objects.specs.Working.{Works, desk_with};

use crate::parts::answer::CallAnswer;
use script_calls::Reply;
use std::cmp::Ordering;
use std::sync::Wait;
use sync_model::{Answer, Caller, Shared};
use sync_types::{BoundedSeq, Name, Seq};
use workload::keys::key_name;

// Sorts pairs by the bytes of their keys, in place.
fn sorted(keys: &[Name], shown: Seq<(u32, u64)>) -> Seq<(u32, u64)>
    ensures permutation { IsPermutation shown result }
    ensures sorted { IsSortedByKey (λ pair. key_name keys.now pair.0) (slice_cmp nat_cmp) result }
{
    let mut pairs = shown.into_vec();
    pairs.sort_unstable_by(
        |a, b| -> Ordering
            ensures { result ≡ slice_cmp nat_cmp (key_name keys.entry.now a.now.0) (key_name keys.entry.now b.now.0) }
        { key_name(keys, a.0).cmp(key_name(keys, b.0)) },
    );
    Seq::from_vec(pairs)
}

// Takes a cursor until it shows none. What it shows goes into the list. `None`, once it shows more than there is room for.
fn take_all<S: Shared, R: Wait>(
    rt: &R,
    shared: &S,
    caller: &mut Caller<S::Mark>,
    cursor: &mut S::Cursor,
    room: BoundedSeq<(u32, u64)>,
) -> Option<BoundedSeq<(u32, u64)>>
    requires caller { IsCallerAt S.Mark.at S.Mark.own (S.home_of shared.now) caller.old }
    requires cursor { (map : ℕ) × (begin : ℕ) × ForSome (S.Mark.own caller.old.note) (λ holding. S.stands shared.now cursor.old map begin holding.items) }
    requires empty { room.items ≡ [] }
    ensures home { SameHome S.Mark.at caller.old.note caller.new.note }
    ensures spends { Spends S.Mark.own 0 caller.old.note caller.new.note }
    ensures calls { (plan : Plan) → MakesOnly (IsCallOf plan) (items_of (S.Mark.own caller.old.note)) (items_of (S.Mark.own caller.new.note)) }
    ensures many { IfNone result ((map begin : ℕ) (owns : ℕ → List ObjectEntry) → ForSome (S.Mark.own caller.old.note) (λ holding. S.stands shared.now cursor.old map begin holding.items)
        → (shown : List (ℕ × ℕ)) × (room.room < length shown) × Works (placed (shows begin shown)) (desk_with S.Mark.own S.Mark.front owns caller.old.note) (Done (Ok tt)) (desk_with S.Mark.own S.Mark.front owns caller.new.note)) }
    ensures works { IfSome result (λ shown. (map begin : ℕ) (owns : ℕ → List ObjectEntry) → ForSome (S.Mark.own caller.old.note) (λ holding. S.stands shared.now cursor.old map begin holding.items)
        → Works (placed (shows_all begin shown.items)) (desk_with S.Mark.own S.Mark.front owns caller.old.note) (Done (Ok tt)) (desk_with S.Mark.own S.Mark.front owns caller.new.note)) }
{
    let mut shown = room;
    for _ in rt.forever() {
        match shared.next(rt, caller, cursor) {
            None => return Some(shown),
            Some(pair) => {
                if shown.as_slice().len() >= shown.room() {
                    return None;
                }
                shown.push(pair);
            }
        }
    }
    unreachable!()
}

/// Shows all keys of a map with their values, sorted by the bytes of the keys. It may wait for other callers. The pairs go into
/// the list, which was made before and has room for all keys; `None`, once more pairs than that are shown.
pub fn call_range<S: Shared, R: Wait>(
    rt: &R,
    shared: &S,
    caller: &mut Caller<S::Mark>,
    map: u32,
    keys: &[Name],
    room: BoundedSeq<(u32, u64)>,
) -> Option<CallAnswer>
    requires caller { IsCallerAt S.Mark.at S.Mark.own (S.home_of shared.now) caller.old }
    requires map { map < S.maps shared.now }
    requires empty { room.items ≡ [] }
    requires room { length keys.now ≤ room.room }
    ensures home { SameHome S.Mark.at caller.old.note caller.new.note }
    ensures spends { Spends S.Mark.own 0 caller.old.note caller.new.note }
    ensures calls { (plan : Plan) → MakesOnly (IsCallOf plan) (items_of (S.Mark.own caller.old.note)) (items_of (S.Mark.own caller.new.note)) }
    ensures many { IfNone result (ShowedTooMany (length keys.now) (items_of (S.Mark.own caller.new.note))) }
    ensures works { IfSome result (λ answer. (owns : ℕ → List ObjectEntry)
        → Works (range_call keys.now map (length (items_of (S.Mark.own caller.old.note)))) (desk_with S.Mark.own S.Mark.front owns caller.old.note) answer (desk_with S.Mark.own S.Mark.front owns caller.new.note)) }
{
    let mut cursor = shared.begin(rt, caller, map);
    let shown = take_all(rt, shared, caller, &mut cursor, room)?;
    Some(Answer::Done(Ok(Reply::Pairs(sorted(keys, shown.into_seq())))))
}
