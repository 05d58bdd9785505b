//! What a worker does before its script, and behind it, where some workers wait to be started.
ghost use Rattle.std.specs.Prelude.{◌≡◌, ◌≢◌, ◌<◌, Err};
ghost use Rattle.sync_model.specs.declared.answer.Answer.TheVariants.{Done};
ghost use Rattle.ruled_object.specs.Growth.{KeepsNote};
ghost use Rattle.run_record.specs.StartsKind.{opening, closing, done_part};
ghost use Rattle.thread_objects.specs.AsDeclared.{AreDeclared};
ghost use Rattle.thread_objects.specs.Desks.{AreSeats};
ghost use Rattle.thread_objects.specs.Passes.{owns_of};
ghost use Rattle.thread_objects.specs.Working.{Works, desk_with};
ghost use Rattle.thread_runner.specs.Replies.{has_come};

use crate::by_number::done_at;
use crate::site::Site;
use crate::starts::{end_at, wait_start_at};
use script_calls::laws::who_starts_whom;
use std::sync::Wait;
use sync_model::{Answer, Note, Shared};
use sync_outside::Clock;
use sync_types::Misuse;
use thread_objects::laws::objects_are_of_their_kinds;
use thread_objects::parts::laws::moves;
use thread_objects::{AnyPass, Worker};

/// Whether the worker comes to its script. One that waits to be started waits on Starts until it is told; any other comes to it at
/// once.
pub(crate) fn opens<S: Shared, C: Clock, R: Wait>(
    rt: &R,
    site: &Site<S>,
    worker: &Worker<S::Mark, C>,
    passes: &mut [AnyPass<S::Mark>],
    note: &mut S::Mark,
) -> Answer<Result<bool, Misuse>>
    requires number { worker.now.number < site.now.catalog.workload.now.workers }
    requires declared { AreDeclared S.Mark.at worker.now.at.home.now site.now.catalog.workload.now site.now.objects.now }
    requires seats { AreSeats S.Mark.at worker.now.at.home.now worker.now.workers worker.now.number site.now.objects.now passes.old }
    requires note { S.Mark.at worker.now.at.home.now note.old }
    ensures seats { AreSeats S.Mark.at worker.now.at.home.now worker.now.workers worker.now.number site.now.objects.now passes.new }
    ensures note { KeepsNote S.Mark.at S.Mark.own S.Mark.front note.old note.new }
    ensures unmisused { (misuse : Misuse) → result ≢ Done (Err misuse) }
    ensures works { Works (opening site.now.catalog.workload.now worker.now.number) (desk_with S.Mark.own S.Mark.front (owns_of passes.old) note.old) result (desk_with S.Mark.own S.Mark.front (owns_of passes.new) note.new) }
{
    moves();
    if !site.catalog.workload.is_dormant(worker.number) {
        return Answer::Done(Ok(true));
    }
    wait_start_at(rt, site, worker, passes, note)
}

/// Whether the worker comes to its script, by what it was told.
pub(crate) fn has_come(opened: &Answer<Result<bool, Misuse>>) -> bool
    ensures { result ≡ has_come opened.now }
{
    matches!(opened, Answer::Done(Ok(true)))
}

// Makes the `done` on the group of the worker's `go`, where it is one that waited to be started.
fn leaves_group<S: Shared, C: Clock, R: Wait>(
    rt: &R,
    site: &Site<S>,
    worker: &Worker<S::Mark, C>,
    passes: &mut [AnyPass<S::Mark>],
    note: &mut S::Mark,
) -> Answer<Result<(), Misuse>>
    requires number { worker.now.number < site.now.catalog.workload.now.workers }
    requires declared { AreDeclared S.Mark.at worker.now.at.home.now site.now.catalog.workload.now site.now.objects.now }
    requires seats { AreSeats S.Mark.at worker.now.at.home.now worker.now.workers worker.now.number site.now.objects.now passes.old }
    requires note { S.Mark.at worker.now.at.home.now note.old }
    ensures seats { AreSeats S.Mark.at worker.now.at.home.now worker.now.workers worker.now.number site.now.objects.now passes.new }
    ensures note { KeepsNote S.Mark.at S.Mark.own S.Mark.front note.old note.new }
    ensures works { Works (done_part site.now.catalog.workload.now worker.now.number) (desk_with S.Mark.own S.Mark.front (owns_of passes.old) note.old) result (desk_with S.Mark.own S.Mark.front (owns_of passes.new) note.new) }
{
    moves();
    who_starts_whom();
    objects_are_of_their_kinds::<S::Mark>();
    let workload = site.catalog.workload;
    if !workload.is_dormant(worker.number) {
        return Answer::Done(Ok(()));
    }
    match workload.group_of(worker.number) {
        None => Answer::Done(Ok(())),
        Some(place) => done_at(rt, worker, site.objects, passes, note, place),
    }
}

/// Closes a worker's script, where some workers wait to be started. One that did makes the `done` on the group of its `go`: where
/// that is a misuse, or meets a halt, it is the last that the worker makes. Then each tells Starts that it has ended.
pub(crate) fn closes<S: Shared, C: Clock, R: Wait>(
    rt: &R,
    site: &Site<S>,
    worker: &Worker<S::Mark, C>,
    passes: &mut [AnyPass<S::Mark>],
    note: &mut S::Mark,
) -> Answer<Result<(), Misuse>>
    requires number { worker.now.number < site.now.catalog.workload.now.workers }
    requires declared { AreDeclared S.Mark.at worker.now.at.home.now site.now.catalog.workload.now site.now.objects.now }
    requires seats { AreSeats S.Mark.at worker.now.at.home.now worker.now.workers worker.now.number site.now.objects.now passes.old }
    requires note { S.Mark.at worker.now.at.home.now note.old }
    ensures seats { AreSeats S.Mark.at worker.now.at.home.now worker.now.workers worker.now.number site.now.objects.now passes.new }
    ensures note { KeepsNote S.Mark.at S.Mark.own S.Mark.front note.old note.new }
    ensures works { Works (closing site.now.catalog.workload.now worker.now.number) (desk_with S.Mark.own S.Mark.front (owns_of passes.old) note.old) result (desk_with S.Mark.own S.Mark.front (owns_of passes.new) note.new) }
{
    moves();
    if !site.catalog.workload.has_dormant() {
        return Answer::Done(Ok(()));
    }
    match leaves_group(rt, site, worker, passes, note) {
        Answer::Done(Ok(())) => {}
        Answer::Done(Err(misuse)) => return Answer::Done(Err(misuse)),
        Answer::Halted(misuse) => return Answer::Halted(misuse),
    }
    end_at(rt, site, worker, passes, note)
}
