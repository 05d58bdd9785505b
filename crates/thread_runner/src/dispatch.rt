//! Each call of a script, by the kind of its object.
ghost use Rattle.std.specs.Prelude.{◌≡◌, ℕ, ◌+◌, ◌<◌, ◌≤◌, ◌*◌, ◌^◌, [], length, vec_len, IfSome, IfNone};
ghost use Rattle.std.specs.Option.{ForSome};
ghost use Rattle.sync_model.specs.Note.{SameHome};
ghost use Rattle.sync_model.specs.Shared.{IsCallerAt, items_of};
ghost use Rattle.workload.specs.declared.object.ObjectKind.TheVariants.{Cond, Mutex, Pool};
ghost use Rattle.workload.specs.Keys.{keys_in, call_number, operation_number};
ghost use Rattle.ruled_object.specs.Growth.{KeepsNote};
ghost use Rattle.run_record.specs.Calls.{SpellsCall, call_on};
ghost use Rattle.run_record.specs.CondKind.{wait_part};
ghost use Rattle.run_record.specs.Limits.{IsCallOf};
ghost use Rattle.run_record.specs.Objects.{first_part, object_count};
ghost use Rattle.run_record.specs.PoolKind.{pool_call};
ghost use Rattle.run_record.specs.Record.{object_number};
ghost use Rattle.thread_objects.specs.AsDeclared.{AreDeclared};
ghost use Rattle.thread_objects.specs.Desks.{AreSeats};
ghost use Rattle.thread_objects.specs.GivenUp.{GaveUp, MakesOnly};
ghost use Rattle.thread_objects.specs.Passes.{owns_of};
ghost use Rattle.thread_runner.specs.Sites.{AreNumbers, AreRooms, HasCallAt, IsScripted, IsWorkerAt, operation_cost, operation_ranges, cost_of_call, ranges_in_call};
ghost use Rattle.thread_objects.specs.Catalog.{IsAt};
ghost use Rattle.thread_objects.specs.Spending.{Spends};
ghost use Rattle.thread_objects.specs.Working.{Works, desk_with};

use crate::by_number::{object_at, wait_at};
use crate::composed::composed_at;
use crate::placed_calls::{map_at, range_at};
use crate::pool::call_pool;
use crate::site::Site;
use run_record::laws::numbers::parts_have_numbers_of_their_own;
use script_calls::{Call, Operation};
use std::sync::Wait;
use sync_model::{Caller, Shared};
use sync_outside::Clock;
use sync_types::{BoundedSeq, CondCall, PoolCall};
use thread_objects::laws::objects_are_of_their_kinds;
use thread_objects::{AnyPass, CallAnswer, Worker, atomic_at};
use workload::laws::only_variables_are_read_and_written;
use workload::{ObjectKind, Workload};

// Of which kind the object at a place is.
fn kind_at(workload: &Workload, place: usize) -> ObjectKind
    requires { place < length workload.now.objects }
    ensures { IsAt workload.now place result }
{
    workload.objects()[place].kind
}

// Takes one of the lists that were made for the pairs of `range` calls.
fn take_room(rooms: &mut Vec<BoundedSeq<(u32, u64)>>) -> BoundedSeq<(u32, u64)>
    requires some { 0 < vec_len rooms.old }
    ensures taken { (keys : ℕ) → AreRooms keys rooms.old.items → (result.items ≡ []) × (keys ≤ result.room) }
    ensures rooms { (keys : ℕ) → AreRooms keys rooms.old.items → AreRooms keys rooms.new.items }
    ensures left { vec_len rooms.new + 1 ≡ vec_len rooms.old }
{
    rooms.pop().unwrap()
}

// The number of part 0 of the pool behind so many pools, of a workload with so many objects.
fn part_behind(objects: usize, pools: u32, workers: u32) -> usize
    requires { objects + 1 + pools * workers < 2 ^ 63 }
    ensures { result ≡ objects + 1 + pools * workers }
{
    objects + 1 + pools as usize * workers as usize
}

// The number of the object that is part 0 of the pool at a place.
fn first_part_of<S: Shared>(site: &Site<S>, place: usize) -> usize
    requires numbered { AreNumbers site.now.catalog.workload.now.objects site.now.catalog.numbers.now }
    requires room { object_count site.now.catalog.workload.now ≤ length site.now.objects.now }
    requires place { IsAt site.now.catalog.workload.now place Pool }
    ensures { result ≡ first_part site.now.catalog.workload.now place }
{
    parts_have_numbers_of_their_own();
    let workers = site.catalog.workload.workers();
    let _count = site.objects.len();
    let pools = site.catalog.numbers[place];
    let lines = site.catalog.workload.objects();
    part_behind(lines.len(), pools, workers)
}

// Waits on the cond at a place, whose mutex is at that one.
fn wait_on<S: Shared, C: Clock, R: Wait>(
    rt: &R,
    site: &Site<S>,
    worker: &Worker<S::Mark, C>,
    passes: &mut [AnyPass<S::Mark>],
    note: &mut S::Mark,
    place: usize,
    mutex: usize,
) -> CallAnswer
    requires declared { AreDeclared S.Mark.at worker.now.at.home.now site.now.catalog.workload.now site.now.objects.now }
    requires cond { IsAt site.now.catalog.workload.now place (Cond mutex) }
    requires mutex { IsAt site.now.catalog.workload.now mutex Mutex }
    requires seats { AreSeats S.Mark.at worker.now.at.home.now worker.now.workers worker.now.number site.now.objects.now passes.old }
    requires note { S.Mark.at worker.now.at.home.now note.old }
    ensures seats { AreSeats S.Mark.at worker.now.at.home.now worker.now.workers worker.now.number site.now.objects.now passes.new }
    ensures note { KeepsNote S.Mark.at S.Mark.own S.Mark.front note.old note.new }
    ensures works { Works (wait_part (object_number place) (object_number mutex)) (desk_with S.Mark.own S.Mark.front (owns_of passes.old) note.old) result (desk_with S.Mark.own S.Mark.front (owns_of passes.new) note.new) }
{
    objects_are_of_their_kinds::<S::Mark>();
    wait_at(rt, worker, site.objects, passes, note, place, mutex)
}

// Makes a call on the pool at a place.
fn pool_at<S: Shared, C: Clock, R: Wait>(
    rt: &R,
    site: &Site<S>,
    worker: &Worker<S::Mark, C>,
    passes: &mut [AnyPass<S::Mark>],
    note: &mut S::Mark,
    place: usize,
    call: PoolCall,
) -> CallAnswer
    requires site { IsWorkerAt S.Mark.at worker.now.at.home.now (S.home_of site.now.catalog.shared.now) site.now.catalog.workload.now (S.maps site.now.catalog.shared.now) (S.kinds site.now.catalog.shared.now) (S.takes site.now.catalog.shared.now) site.now.objects.now site.now.catalog.numbers.now worker.now.workers }
    requires own { worker.now.number < worker.now.workers }
    requires place { IsAt site.now.catalog.workload.now place Pool }
    requires seats { AreSeats S.Mark.at worker.now.at.home.now worker.now.workers worker.now.number site.now.objects.now passes.old }
    requires note { S.Mark.at worker.now.at.home.now note.old }
    ensures seats { AreSeats S.Mark.at worker.now.at.home.now worker.now.workers worker.now.number site.now.objects.now passes.new }
    ensures note { KeepsNote S.Mark.at S.Mark.own S.Mark.front note.old note.new }
    ensures works { Works (pool_call worker.now.workers worker.now.number (first_part site.now.catalog.workload.now place) call) (desk_with S.Mark.own S.Mark.front (owns_of passes.old) note.old) result (desk_with S.Mark.own S.Mark.front (owns_of passes.new) note.new) }
{
    objects_are_of_their_kinds::<S::Mark>();
    let first = first_part_of(site, place);
    call_pool(rt, worker, site.objects, passes, note, first, call)
}

// Makes a call on the object at a place, which is of this kind and has the call. The number is that of the call's key.
fn call_at<S: Shared, C: Clock, R: Wait>(
    rt: &R,
    site: &Site<S>,
    worker: &Worker<S::Mark, C>,
    caller: &mut Caller<S::Mark>,
    passes: &mut [AnyPass<S::Mark>],
    rooms: &mut Vec<BoundedSeq<(u32, u64)>>,
    place: usize,
    kind: ObjectKind,
    operation: &Operation,
    number: u32,
) -> Option<CallAnswer>
    requires site { IsWorkerAt S.Mark.at worker.now.at.home.now (S.home_of site.now.catalog.shared.now) site.now.catalog.workload.now (S.maps site.now.catalog.shared.now) (S.kinds site.now.catalog.shared.now) (S.takes site.now.catalog.shared.now) site.now.objects.now site.now.catalog.numbers.now worker.now.workers }
    requires own { worker.now.number < worker.now.workers }
    requires call { HasCallAt site.now.catalog.workload.now place kind operation.now }
    requires number { number ≡ operation_number (keys_in site.now.catalog.workload.now.scripts) operation.now }
    requires caller { IsCallerAt S.Mark.at S.Mark.own worker.now.at.home.now caller.old }
    requires spare { ForSome (S.Mark.own caller.old.note) (λ holding. operation_cost operation.now ≤ holding.spare) }
    requires seats { AreSeats S.Mark.at worker.now.at.home.now worker.now.workers worker.now.number site.now.objects.now passes.old }
    requires rooms { AreRooms (length (keys_in site.now.catalog.workload.now.scripts)) rooms.old.items }
    requires enough { operation_ranges operation.now ≤ vec_len rooms.old }
    ensures seats { AreSeats S.Mark.at worker.now.at.home.now worker.now.workers worker.now.number site.now.objects.now passes.new }
    ensures home { SameHome S.Mark.at caller.old.note caller.new.note }
    ensures spends { Spends S.Mark.own (operation_cost operation.now) caller.old.note caller.new.note }
    ensures rooms { AreRooms (length (keys_in site.now.catalog.workload.now.scripts)) rooms.new.items }
    ensures left { vec_len rooms.old ≤ vec_len rooms.new + operation_ranges operation.now }
    ensures calls { MakesOnly (IsCallOf site.now.catalog.workload.now) (items_of (S.Mark.own caller.old.note)) (items_of (S.Mark.own caller.new.note)) }
    ensures given_up { IfNone result (GaveUp site.now.catalog.workload.now (items_of (S.Mark.own caller.new.note))) }
    ensures works { IfSome result (λ answer. Works (call_on site.now.catalog.workload.now worker.now.number (length (items_of (S.Mark.own caller.old.note))) place kind operation.now)
        (desk_with S.Mark.own S.Mark.front (owns_of passes.old) caller.old.note) answer (desk_with S.Mark.own S.Mark.front (owns_of passes.new) caller.new.note)) }
{
    objects_are_of_their_kinds::<S::Mark>();
    match operation {
        Operation::Map(call) => Some(map_at(rt, site, caller, place, call, number)),
        Operation::Atomic(call) => Some(atomic_at(rt, &site.catalog, caller, place, *call)),
        Operation::Composed(call) => Some(composed_at(
            rt, site, worker, caller, passes, place, kind, *call,
        )),
        Operation::Range => range_at(rt, site, caller, place, take_room(rooms)),
        Operation::Cond(CondCall::Wait) => match kind {
            ObjectKind::Cond { mutex } => Some(wait_on(
                rt,
                site,
                worker,
                passes,
                &mut caller.note,
                place,
                mutex,
            )),
            _ => unreachable!(),
        },
        Operation::Var(_) => {
            only_variables_are_read_and_written();
            unreachable!()
        }
        Operation::Pool(call) => Some(pool_at(
            rt,
            site,
            worker,
            passes,
            &mut caller.note,
            place,
            *call,
        )),
        _ => object_at(
            rt,
            worker,
            &site.catalog,
            caller,
            site.objects,
            passes,
            place,
            kind,
            operation,
            number,
        ),
    }
}

/// Makes a call of the worker's script; the number is that of its key. It may wait for other workers. `None`, where it has seen what
/// can't be, and gives the call up: a `range` that shows more pairs than the workload has keys, or an int64 that answers by a number
/// of another type. What all workers did shows that neither was, once they have ended.
pub(crate) fn make_call<S: Shared, C: Clock, R: Wait>(
    rt: &R,
    site: &Site<S>,
    worker: &Worker<S::Mark, C>,
    caller: &mut Caller<S::Mark>,
    passes: &mut [AnyPass<S::Mark>],
    rooms: &mut Vec<BoundedSeq<(u32, u64)>>,
    call: &Call,
    number: u32,
) -> Option<CallAnswer>
    requires site { IsWorkerAt S.Mark.at worker.now.at.home.now (S.home_of site.now.catalog.shared.now) site.now.catalog.workload.now (S.maps site.now.catalog.shared.now) (S.kinds site.now.catalog.shared.now) (S.takes site.now.catalog.shared.now) site.now.objects.now site.now.catalog.numbers.now worker.now.workers }
    requires call { IsScripted site.now.catalog.workload.now worker.now.number call.now }
    requires number { number ≡ call_number (keys_in site.now.catalog.workload.now.scripts) call.now }
    requires caller { IsCallerAt S.Mark.at S.Mark.own worker.now.at.home.now caller.old }
    requires spare { ForSome (S.Mark.own caller.old.note) (λ holding. cost_of_call call.now ≤ holding.spare) }
    requires seats { AreSeats S.Mark.at worker.now.at.home.now worker.now.workers worker.now.number site.now.objects.now passes.old }
    requires rooms { AreRooms (length (keys_in site.now.catalog.workload.now.scripts)) rooms.old.items }
    requires enough { ranges_in_call call.now ≤ vec_len rooms.old }
    ensures seats { AreSeats S.Mark.at worker.now.at.home.now worker.now.workers worker.now.number site.now.objects.now passes.new }
    ensures caller { IsCallerAt S.Mark.at S.Mark.own worker.now.at.home.now caller.new }
    ensures spends { Spends S.Mark.own (cost_of_call call.now) caller.old.note caller.new.note }
    ensures rooms { AreRooms (length (keys_in site.now.catalog.workload.now.scripts)) rooms.new.items }
    ensures left { vec_len rooms.old ≤ vec_len rooms.new + ranges_in_call call.now }
    ensures calls { MakesOnly (IsCallOf site.now.catalog.workload.now) (items_of (S.Mark.own caller.old.note)) (items_of (S.Mark.own caller.new.note)) }
    ensures given_up { IfNone result (GaveUp site.now.catalog.workload.now (items_of (S.Mark.own caller.new.note))) }
    ensures works { IfSome result (λ answer. Works (SpellsCall site.now.catalog.workload.now worker.now.number (length (items_of (S.Mark.own caller.old.note))) call.now)
        (desk_with S.Mark.own S.Mark.front (owns_of passes.old) caller.old.note) answer (desk_with S.Mark.own S.Mark.front (owns_of passes.new) caller.new.note)) }
{
    let _workers = site.catalog.workload.workers();
    let kind = kind_at(site.catalog.workload, call.object);
    let operation = &call.operation;
    call_at(
        rt,
        site,
        worker,
        caller,
        passes,
        rooms,
        call.object,
        kind,
        operation,
        number,
    )
}
