//! Dealing a worker its passes to all objects, and collecting them.
ghost use Rattle.std.specs.Prelude.{◌≡◌, ℕ, ◌+◌, ◌<◌, ◌==◌, cond, IfOk};
ghost use Rattle.thread_objects.specs.Desks.{AreSeats};
ghost use Rattle.thread_objects.specs.Passes.{owns_of};
ghost use Rattle.thread_objects.specs.Rows.{AreColumns, AreDealt, made_on};

use crate::column::AnyColumn;
use crate::crew::Crew;
use crate::dealing::{put, take_last};
use crate::object::AnyObject;
use crate::pass::AnyPass;
use std::alloc::{AllocError, Global};
use std::mem;
use sync_model::Note;

/// Takes the passes of the last worker whose passes are here: a row, one to each object, in their order.
pub fn deal_row<N: Note>(
    alloc: Global,
    crew: &Crew<N>,
    worker: u32,
    objects: &[AnyObject<N>],
    columns: &mut [AnyColumn<N>],
) -> Result<Vec<AnyPass<N>>, AllocError>
    requires columns { AreColumns N.at crew.now.home.now crew.now.workers (worker + 1) objects.now columns.old }
    ensures seats { IfOk result (λ row. AreSeats N.at crew.now.home.now crew.now.workers worker objects.now row.items) }
    ensures columns { IfOk result (λ row. AreColumns N.at crew.now.home.now crew.now.workers worker objects.now columns.new) }
    ensures passes { IfOk result (λ row. AreDealt columns.old columns.new row.items) }
    ensures made { IfOk result (λ row. (object other : ℕ) → made_on columns.old object other ≡ cond (other == worker) (owns_of row.items object) (made_on columns.new object other)) }
{
    let mut row = Vec::with_capacity(alloc, objects.len())?;
    for number in 0..objects.len() {
        let pass = take_last(crew, worker, &objects[number], &mut columns[number]);
        row.push_reserved(pass);
    }
    Ok(row)
}

/// Puts the passes of the next worker back, each into the column of its object. It takes no memory. What is left of the row is
/// of no use.
pub fn put_row<N: Note>(
    crew: &Crew<N>,
    worker: u32,
    objects: &[AnyObject<N>],
    columns: &mut [AnyColumn<N>],
    row: &mut [AnyPass<N>],
)
    requires worker { worker < crew.now.workers }
    requires columns { AreColumns N.at crew.now.home.now crew.now.workers worker objects.now columns.old }
    requires seats { AreSeats N.at crew.now.home.now crew.now.workers worker objects.now row.old }
    ensures columns { AreColumns N.at crew.now.home.now crew.now.workers (worker + 1) objects.now columns.new }
    ensures passes { AreDealt columns.new columns.old row.old }
    ensures made { (object other : ℕ) → made_on columns.new object other ≡ cond (other == worker) (owns_of row.old object) (made_on columns.old object other) }
{
    for number in 0..objects.len() {
        let pass = mem::replace(&mut row[number], AnyPass::None);
        put(crew, worker, &objects[number], &mut columns[number], pass);
    }
}
