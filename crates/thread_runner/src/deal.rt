//! The objects of a run, and dealing their passes to the workers.
ghost use Rattle.std.specs.Prelude.{◌≡◌, ℕ, ◌+◌, ◌<◌, ◌≤◌, IfOk, List, [], length, get_or, map, Some, slice_get};
ghost use Rattle.sync_model.specs.Note.{SameHome};
ghost use Rattle.run_record.specs.Objects.{first_part, object_count, starts_number};
ghost use Rattle.run_record.specs.Record.{object_number};
ghost use Rattle.thread_objects.specs.AsDeclared.{AreDeclared};
ghost use Rattle.thread_objects.specs.Catalog.{IsAt};
ghost use Rattle.thread_objects.specs.Desks.{AreSeats};
ghost use Rattle.thread_objects.specs.Passes.{owns_of};
ghost use Rattle.thread_objects.specs.Rows.{AreColumns, made_on};
ghost use Rattle.thread_runner.specs.Dealing.{AreMade, MadeNothingFrom, AreRows, SameNotes};

use crate::counts::parts_of;
use run_record::laws::numbers::parts_have_numbers_of_their_own;
use std::alloc::{AllocError, Global};
use sync_model::{Caller, Note};
use thread_objects::{
    AnyColumn, AnyObject, AnyPass, Crew, deal_row, make_object, make_part, make_starts, make_stop,
    put_row,
};
use workload::{ObjectKind, Workload};

// The parts of the object at a place, behind the objects that were made: a pool has one for each worker, any other object none.
fn make_parts<N: Note>(
    alloc: Global,
    crew: &Crew<N>,
    workload: &Workload,
    place: usize,
    kind: ObjectKind,
    note: &mut N,
    objects: &mut Vec<AnyObject<N>>,
    columns: &mut Vec<AnyColumn<N>>,
) -> Result<(), AllocError>
    requires workers { crew.now.workers ≡ workload.now.workers }
    requires note { N.at crew.now.home.now note.old }
    requires place { IsAt workload.now place kind }
    requires made { AreMade N.at crew.now.home.now crew.now.workers workload.now (first_part workload.now place) objects.old.items columns.old.items }
    ensures note { SameHome N.at note.old note.new × (N.own note.new ≡ N.own note.old) × (N.front note.new ≡ N.front note.old) }
    ensures made { IfOk result (λ done. AreMade N.at crew.now.home.now crew.now.workers workload.now (first_part workload.now (place + 1)) objects.new.items columns.new.items) }
{
    parts_have_numbers_of_their_own();
    for _part in 0..parts_of(kind, crew.workers) {
        let (object, passes) = make_part(alloc, crew, workload, place, note.copy(crew.home))?;
        objects.push(object)?;
        columns.push(passes)?;
    }
    Ok(())
}

// The parts of all pools, behind the other objects.
fn make_pools<N: Note>(
    alloc: Global,
    crew: &Crew<N>,
    workload: &Workload,
    note: &mut N,
    objects: &mut Vec<AnyObject<N>>,
    columns: &mut Vec<AnyColumn<N>>,
) -> Result<(), AllocError>
    requires workers { crew.now.workers ≡ workload.now.workers }
    requires note { N.at crew.now.home.now note.old }
    requires made { AreMade N.at crew.now.home.now crew.now.workers workload.now (object_number (length workload.now.objects)) objects.old.items columns.old.items }
    ensures note { SameHome N.at note.old note.new × (N.own note.new ≡ N.own note.old) × (N.front note.new ≡ N.front note.old) }
    ensures made { IfOk result (λ done. AreMade N.at crew.now.home.now crew.now.workers workload.now (starts_number workload.now) objects.new.items columns.new.items) }
{
    parts_have_numbers_of_their_own();
    let _workers = workload.workers();
    let lines = workload.objects();
    for place in 0..lines.len() {
        let kind = lines[place].kind;
        make_parts(alloc, crew, workload, place, kind, note, objects, columns)?;
    }
    Ok(())
}

// Starts, behind the parts of all pools, where some workers wait to be started.
fn make_last<N: Note>(
    alloc: Global,
    crew: &Crew<N>,
    workload: &Workload,
    note: &mut N,
    objects: &mut Vec<AnyObject<N>>,
    columns: &mut Vec<AnyColumn<N>>,
) -> Result<(), AllocError>
    requires workers { crew.now.workers ≡ workload.now.workers }
    requires note { N.at crew.now.home.now note.old }
    requires made { AreMade N.at crew.now.home.now crew.now.workers workload.now (starts_number workload.now) objects.old.items columns.old.items }
    ensures note { SameHome N.at note.old note.new × (N.own note.new ≡ N.own note.old) × (N.front note.new ≡ N.front note.old) }
    ensures made { IfOk result (λ done. AreMade N.at crew.now.home.now crew.now.workers workload.now (object_count workload.now) objects.new.items columns.new.items) }
{
    parts_have_numbers_of_their_own();
    if !workload.has_dormant() {
        return Ok(());
    }
    let (object, passes) = make_starts(alloc, crew, workload, note.copy(crew.home))?;
    objects.push(object)?;
    columns.push(passes)?;
    Ok(())
}

/// Stop, the objects that the workload declares, the parts of its pools, and Starts where some workers wait to be started, with the
/// passes of all workers. Each object keeps a copy of the note.
pub(crate) fn make_objects<N: Note>(
    alloc: Global,
    crew: &Crew<N>,
    workload: &Workload,
    note: &mut N,
) -> Result<(Vec<AnyObject<N>>, Vec<AnyColumn<N>>), AllocError>
    requires workers { crew.now.workers ≡ workload.now.workers }
    requires note { N.at crew.now.home.now note.old }
    ensures note { SameHome N.at note.old note.new × (N.own note.new ≡ N.own note.old) × (N.front note.new ≡ N.front note.old) }
    ensures declared { IfOk result (λ made. AreDeclared N.at crew.now.home.now workload.now made.0.items) }
    ensures columns { IfOk result (λ made. AreColumns N.at crew.now.home.now crew.now.workers crew.now.workers made.0.items made.1.items) }
    ensures nothing { IfOk result (λ made. MadeNothingFrom 0 made.1.items) }
{
    let _workers = workload.workers();
    let count = workload.objects().len();
    let mut objects = Vec::with_capacity(alloc, count + 1)?;
    let mut columns = Vec::with_capacity(alloc, count + 1)?;
    let (stop, passes) = make_stop(alloc, crew, note.copy(crew.home))?;
    objects.push_reserved(stop);
    columns.push_reserved(passes);
    for place in 0..count {
        let (object, passes) = make_object(alloc, crew, workload, place, note.copy(crew.home))?;
        objects.push_reserved(object);
        columns.push_reserved(passes);
    }
    make_pools(alloc, crew, workload, note, &mut objects, &mut columns)?;
    make_last(alloc, crew, workload, note, &mut objects, &mut columns)?;
    Ok((objects, columns))
}

/// The same by the note of the first of these callers, who stay as they are.
pub(crate) fn make_objects_by<N: Note>(
    alloc: Global,
    crew: &Crew<N>,
    workload: &Workload,
    callers: &mut [Caller<N>],
) -> Result<(Vec<AnyObject<N>>, Vec<AnyColumn<N>>), AllocError>
    requires workers { crew.now.workers ≡ workload.now.workers }
    requires some { 0 < length callers.old }
    requires notes { (i : ℕ) (caller : Caller N) → slice_get callers.old i ≡ Some caller → N.at crew.now.home.now caller.note }
    ensures callers { SameNotes N.at N.own callers.old callers.new }
    ensures declared { IfOk result (λ made. AreDeclared N.at crew.now.home.now workload.now made.0.items) }
    ensures columns { IfOk result (λ made. AreColumns N.at crew.now.home.now crew.now.workers crew.now.workers made.0.items made.1.items) }
    ensures nothing { IfOk result (λ made. MadeNothingFrom 0 made.1.items) }
{
    let first = &mut callers[0];
    make_objects(alloc, crew, workload, &mut first.note)
}

/// Deals each worker its passes to all objects, in order of worker.
pub(crate) fn deal<N: Note>(
    alloc: Global,
    crew: &Crew<N>,
    objects: &[AnyObject<N>],
    columns: &mut [AnyColumn<N>],
) -> Result<Vec<Vec<AnyPass<N>>>, AllocError>
    requires columns { AreColumns N.at crew.now.home.now crew.now.workers crew.now.workers objects.now columns.old }
    requires nothing { MadeNothingFrom 0 columns.old }
    ensures rows { IfOk result (λ rows. AreRows N.at crew.now.home.now crew.now.workers objects.now (map (λ row. row.items) rows.items)) }
    ensures columns { IfOk result (λ rows. AreColumns N.at crew.now.home.now crew.now.workers 0 objects.now columns.new) }
    ensures nothing { IfOk result (λ rows. MadeNothingFrom crew.now.workers columns.new) }
{
    let mut rows = Vec::with_capacity(alloc, crew.workers as usize)?;
    let mut worker = crew.workers;
    while worker > 0 {
        worker -= 1;
        let row = deal_row(alloc, crew, worker, objects, columns)?;
        rows.push_reserved(row);
    }
    rows.reverse();
    Ok(rows)
}

/// Puts the passes of all workers back into the columns of their objects. It takes no memory.
pub(crate) fn collect<N: Note>(
    crew: &Crew<N>,
    objects: &[AnyObject<N>],
    columns: &mut [AnyColumn<N>],
    rows: Vec<Vec<AnyPass<N>>>,
)
    requires few { crew.now.workers ≤ 64 }
    requires count { length rows.items ≡ crew.now.workers }
    requires seats { (worker : ℕ) (row : List (AnyPass N)) → slice_get (map (λ row. row.items) rows.items) worker ≡ Some row → AreSeats N.at crew.now.home.now crew.now.workers worker objects.now row }
    requires columns { AreColumns N.at crew.now.home.now crew.now.workers 0 objects.now columns.old }
    ensures columns { AreColumns N.at crew.now.home.now crew.now.workers crew.now.workers objects.now columns.new }
    ensures made { (object worker : ℕ) → worker < crew.now.workers → made_on columns.new object worker ≡ owns_of (get_or (map (λ row. row.items) rows.items) worker []) object }
    ensures others { (object worker : ℕ) → crew.now.workers ≤ worker → made_on columns.new object worker ≡ made_on columns.old object worker }
{
    let mut worker = 0;
    for row in rows {
        let mut row = row;
        put_row(crew, worker, objects, columns, &mut row);
        worker += 1;
    }
}
