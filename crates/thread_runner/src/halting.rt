//! Halting all objects of a run by a misuse.
ghost use Rattle.std.specs.Prelude.{◌≡◌, ◌+◌, ◌<◌, ◌≤◌, Ok, Some, length, slice_get};
ghost use Rattle.std.specs.List.{range_with_len};
ghost use Rattle.sync_model.specs.declared.answer.Answer.TheVariants.{Done};
ghost use Rattle.workload.specs.declared.object.ObjectLine.{ObjectLine};
ghost use Rattle.ruled_object.specs.Growth.{KeepsNote};
ghost use Rattle.run_record.specs.Halts.{halted_at, halted_starts};
ghost use Rattle.run_record.specs.Objects.{first_part};
ghost use Rattle.thread_objects.specs.Working.{Works, desk_with};
ghost use Rattle.thread_objects.specs.AsDeclared.{AreDeclared};
ghost use Rattle.thread_objects.specs.Desks.{AreSeats};
ghost use Rattle.thread_objects.specs.Passes.{owns_of};
ghost use Rattle.thread_runner.specs.Halting.{HaltsAll, halted_one, halting};
ghost use Rattle.thread_runner.specs.PoolParts.{ArePartsAt};

use run_record::laws::numbers::parts_have_numbers_of_their_own;
use std::sync::Wait;
use sync_model::Note;
use sync_outside::Clock;
use sync_types::Misuse;
use thread_objects::laws::{
    objects_are_of_their_kinds, starts_is_the_last_object, stop_is_the_first_object,
};
use thread_objects::parts::laws::{a_note_counts_its_calls, moves};
use thread_objects::{AnyObject, AnyPass, Worker, halt_any};
use workload::{ObjectKind, Workload};

// The number of Stop.
const STOP: usize = 0;

// Halts the object with this number by a misuse.
fn halt_at<N: Note, C: Clock, R: Wait>(
    rt: &R,
    worker: &Worker<N, C>,
    objects: &[AnyObject<N>],
    passes: &mut [AnyPass<N>],
    note: &mut N,
    misuse: Misuse,
    number: usize,
)
    requires there { number < length objects.now }
    requires seats { AreSeats N.at worker.now.at.home.now worker.now.workers worker.now.number objects.now passes.old }
    requires note { N.at worker.now.at.home.now note.old }
    ensures seats { AreSeats N.at worker.now.at.home.now worker.now.workers worker.now.number objects.now passes.new }
    ensures note { KeepsNote N.at N.own N.front note.old note.new }
    ensures halted { (object : AnyObject N N.Home) → slice_get objects.now number ≡ Some object
        → Works (halting misuse (halted_one number object)) (desk_with N.own N.front (owns_of passes.old) note.old) (Done (Ok tt)) (desk_with N.own N.front (owns_of passes.new) note.new) }
{
    moves();
    a_note_counts_its_calls();
    let object = &objects[number];
    let pass = &mut passes[number];
    halt_any(rt, worker, object, pass, note, misuse);
}

// Halts the parts of a pool by a misuse, from part 0 up. Part 0 is the object with this number.
fn halt_parts<N: Note, C: Clock, R: Wait>(
    rt: &R,
    worker: &Worker<N, C>,
    objects: &[AnyObject<N>],
    passes: &mut [AnyPass<N>],
    note: &mut N,
    misuse: Misuse,
    first: usize,
)
    requires parts { ArePartsAt objects.now first worker.now.workers }
    requires room { first + worker.now.workers ≤ length objects.now }
    requires seats { AreSeats N.at worker.now.at.home.now worker.now.workers worker.now.number objects.now passes.old }
    requires note { N.at worker.now.at.home.now note.old }
    ensures seats { AreSeats N.at worker.now.at.home.now worker.now.workers worker.now.number objects.now passes.new }
    ensures note { KeepsNote N.at N.own N.front note.old note.new }
    ensures halted { Works (halting misuse (range_with_len first worker.now.workers)) (desk_with N.own N.front (owns_of passes.old) note.old) (Done (Ok tt)) (desk_with N.own N.front (owns_of passes.new) note.new) }
{
    moves();
    let _count = objects.len();
    for part in 0..worker.workers {
        let number = first + part as usize;
        halt_at(rt, worker, objects, passes, note, misuse, number);
    }
}

// Halts by a misuse what the workload declares at a place, and answers the number of part 0 of the next pool. This is the number
// of part 0 of the pool that is declared at this place or behind it.
fn halt_declared<N: Note, C: Clock, R: Wait>(
    rt: &R,
    worker: &Worker<N, C>,
    workload: &Workload,
    objects: &[AnyObject<N>],
    passes: &mut [AnyPass<N>],
    note: &mut N,
    misuse: Misuse,
    place: usize,
    first: usize,
) -> usize
    requires place { place < length workload.now.objects }
    requires first { first ≡ first_part workload.now place }
    requires declared { AreDeclared N.at worker.now.at.home.now workload.now objects.now }
    requires workers { workload.now.workers ≡ worker.now.workers }
    requires seats { AreSeats N.at worker.now.at.home.now worker.now.workers worker.now.number objects.now passes.old }
    requires note { N.at worker.now.at.home.now note.old }
    ensures next { result ≡ first_part workload.now (place + 1) }
    ensures seats { AreSeats N.at worker.now.at.home.now worker.now.workers worker.now.number objects.now passes.new }
    ensures note { KeepsNote N.at N.own N.front note.old note.new }
    ensures halted { (line : ObjectLine) → slice_get workload.now.objects place ≡ Some line
        → Works (halting misuse (halted_at workload.now place line.kind)) (desk_with N.own N.front (owns_of passes.old) note.old) (Done (Ok tt)) (desk_with N.own N.front (owns_of passes.new) note.new) }
{
    parts_have_numbers_of_their_own();
    objects_are_of_their_kinds::<N>();
    let _count = objects.len();
    let workers = workload.workers();
    let lines = workload.objects();
    let kind = lines[place].kind;
    match kind {
        ObjectKind::Pool => {
            halt_parts(rt, worker, objects, passes, note, misuse, first);
            first + workers as usize
        }
        _ => {
            halt_at(rt, worker, objects, passes, note, misuse, place + 1);
            first
        }
    }
}

// Halts Starts by a misuse, where some workers wait to be started.
fn halt_starts<N: Note, C: Clock, R: Wait>(
    rt: &R,
    worker: &Worker<N, C>,
    workload: &Workload,
    objects: &[AnyObject<N>],
    passes: &mut [AnyPass<N>],
    note: &mut N,
    misuse: Misuse,
)
    requires declared { AreDeclared N.at worker.now.at.home.now workload.now objects.now }
    requires seats { AreSeats N.at worker.now.at.home.now worker.now.workers worker.now.number objects.now passes.old }
    requires note { N.at worker.now.at.home.now note.old }
    ensures seats { AreSeats N.at worker.now.at.home.now worker.now.workers worker.now.number objects.now passes.new }
    ensures note { KeepsNote N.at N.own N.front note.old note.new }
    ensures halted { Works (halting misuse (halted_starts workload.now)) (desk_with N.own N.front (owns_of passes.old) note.old) (Done (Ok tt)) (desk_with N.own N.front (owns_of passes.new) note.new) }
{
    moves();
    starts_is_the_last_object::<N>();
    if !workload.has_dormant() {
        return;
    }
    let number = objects.len() - 1;
    halt_at(rt, worker, objects, passes, note, misuse, number);
}

/// Halts a run by a misuse: Stop first, Starts next, where some workers wait to be started, and then each object in order of
/// declaration, a pool's parts at its place, from part 0 up.
/// Maps and atomics are left as they are. It wakes all who sleep at an object, and waits for nobody.
pub(crate) fn halt_all<N: Note, C: Clock, R: Wait>(
    rt: &R,
    worker: &Worker<N, C>,
    workload: &Workload,
    objects: &[AnyObject<N>],
    passes: &mut [AnyPass<N>],
    note: &mut N,
    misuse: Misuse,
)
    requires declared { AreDeclared N.at worker.now.at.home.now workload.now objects.now }
    requires workers { workload.now.workers ≡ worker.now.workers }
    requires seats { AreSeats N.at worker.now.at.home.now worker.now.workers worker.now.number objects.now passes.old }
    requires note { N.at worker.now.at.home.now note.old }
    ensures seats { AreSeats N.at worker.now.at.home.now worker.now.workers worker.now.number objects.now passes.new }
    ensures note { KeepsNote N.at N.own N.front note.old note.new }
    ensures halted { HaltsAll workload.now misuse (desk_with N.own N.front (owns_of passes.old) note.old) (desk_with N.own N.front (owns_of passes.new) note.new) }
{
    moves();
    stop_is_the_first_object::<N>();
    let _count = objects.len();
    let lines = workload.objects().len();
    halt_at(rt, worker, objects, passes, note, misuse, STOP);
    halt_starts(rt, worker, workload, objects, passes, note, misuse);
    let mut first = lines + 1;
    for place in 0..lines {
        first = halt_declared(
            rt, worker, workload, objects, passes, note, misuse, place, first,
        );
    }
}
