//! Calls on the map at a place among the workload's objects.
ghost use Rattle.std.specs.Prelude.{◌≡◌, ℕ, ◌≤◌, true, List, [], length, IfSome, IfNone, Some};
ghost use Rattle.std.specs.List.{list_any};
ghost use Rattle.std.specs.Option.{ForSome};
ghost use Rattle.std.specs.Str.{bytes_eq};
ghost use Rattle.sync_model.specs.Note.{SameHome};
ghost use Rattle.sync_types.specs.SequentialMap.{map_key};
ghost use Rattle.sync_model.specs.Shared.{cost_of, IsCallerAt, items_of};
ghost use Rattle.workload.specs.declared.object.ObjectKind.TheVariants.{Map};
ghost use Rattle.workload.specs.Draft.{all_keys, is_map_call};
ghost use Rattle.workload.specs.Keys.{keys_in, map_call_number};
ghost use Rattle.run_record.specs.Limits.{IsCallOf};
ghost use Rattle.run_record.specs.MapKind.{map_call, range_call};
ghost use Rattle.run_record.specs.Objects.{map_number};
ghost use Rattle.run_record.specs.Record.{ObjectEntry};
ghost use Rattle.thread_objects.specs.GivenUp.{MakesOnly, ShowedTooMany};
ghost use Rattle.thread_objects.specs.Catalog.{IsAt};
ghost use Rattle.thread_runner.specs.Sites.{IsSite};
ghost use Rattle.thread_objects.specs.Spending.{Spends};
ghost use Rattle.thread_objects.specs.Working.{Works, desk_with};

use crate::numbering::numbered;
use crate::site::Site;
use std::sync::Wait;
use sync_model::{Caller, Shared};
use sync_types::{BoundedSeq, MapCall, Name};
use thread_objects::{CallAnswer, call_map, call_range};
use workload::laws::keys_are_numbered_by_first_appearance;

/// Makes a call on the map at a place; the number is that of its key. It may wait for other callers.
pub(crate) fn map_at<S: Shared, R: Wait>(
    rt: &R,
    site: &Site<S>,
    caller: &mut Caller<S::Mark>,
    place: usize,
    call: &MapCall<Name>,
    number: u32,
) -> CallAnswer
    requires site { IsSite S.Mark.at (S.home_of site.now.catalog.shared.now) site.now.catalog.workload.now (S.maps site.now.catalog.shared.now) (S.kinds site.now.catalog.shared.now) (S.takes site.now.catalog.shared.now) site.now.objects.now site.now.catalog.numbers.now }
    requires place { IsAt site.now.catalog.workload.now place Map }
    requires caller { IsCallerAt S.Mark.at S.Mark.own (S.home_of site.now.catalog.shared.now) caller.old }
    requires call { is_map_call call.now ≡ true }
    requires number { number ≡ map_call_number (keys_in site.now.catalog.workload.now.scripts) call.now }
    requires key { (name : List ℕ) → map_key call.now ≡ Some name → list_any (bytes_eq name) (all_keys site.now.catalog.workload.now.scripts) ≡ true }
    requires spare { ForSome (S.Mark.own caller.old.note) (λ holding. cost_of call.now ≤ holding.spare) }
    ensures home { SameHome S.Mark.at caller.old.note caller.new.note }
    ensures spends { Spends S.Mark.own (cost_of call.now) caller.old.note caller.new.note }
    ensures calls { MakesOnly (IsCallOf site.now.catalog.workload.now) (items_of (S.Mark.own caller.old.note)) (items_of (S.Mark.own caller.new.note)) }
    ensures works { (owns : ℕ → List ObjectEntry) → Works (map_call (keys_in site.now.catalog.workload.now.scripts) (map_number site.now.catalog.workload.now.objects place) call.now) (desk_with S.Mark.own S.Mark.front owns caller.old.note) result (desk_with S.Mark.own S.Mark.front owns caller.new.note) }
{
    keys_are_numbered_by_first_appearance();
    let map = site.catalog.numbers[place];
    let by_number = numbered(number, call);
    call_map(rt, site.catalog.shared, caller, map, by_number)
}

/// Shows all keys of the map at a place with their values. It may wait for other callers. The list has room for all keys of the
/// workload; `None`, once more pairs than that are shown.
pub(crate) fn range_at<S: Shared, R: Wait>(
    rt: &R,
    site: &Site<S>,
    caller: &mut Caller<S::Mark>,
    place: usize,
    room: BoundedSeq<(u32, u64)>,
) -> Option<CallAnswer>
    requires site { IsSite S.Mark.at (S.home_of site.now.catalog.shared.now) site.now.catalog.workload.now (S.maps site.now.catalog.shared.now) (S.kinds site.now.catalog.shared.now) (S.takes site.now.catalog.shared.now) site.now.objects.now site.now.catalog.numbers.now }
    requires place { IsAt site.now.catalog.workload.now place Map }
    requires caller { IsCallerAt S.Mark.at S.Mark.own (S.home_of site.now.catalog.shared.now) caller.old }
    requires empty { room.items ≡ [] }
    requires room { length (keys_in site.now.catalog.workload.now.scripts) ≤ room.room }
    ensures home { SameHome S.Mark.at caller.old.note caller.new.note }
    ensures spends { Spends S.Mark.own 0 caller.old.note caller.new.note }
    ensures calls { MakesOnly (IsCallOf site.now.catalog.workload.now) (items_of (S.Mark.own caller.old.note)) (items_of (S.Mark.own caller.new.note)) }
    ensures many { IfNone result (ShowedTooMany (length (keys_in site.now.catalog.workload.now.scripts)) (items_of (S.Mark.own caller.new.note))) }
    ensures works { IfSome result (λ answer. (owns : ℕ → List ObjectEntry)
        → Works (range_call (keys_in site.now.catalog.workload.now.scripts) (map_number site.now.catalog.workload.now.objects place) (length (items_of (S.Mark.own caller.old.note)))) (desk_with S.Mark.own S.Mark.front owns caller.old.note) answer (desk_with S.Mark.own S.Mark.front owns caller.new.note)) }
{
    let map = site.catalog.numbers[place];
    let names = site.catalog.workload.keys().names();
    call_range(rt, site.catalog.shared, caller, map, names, room)
}
