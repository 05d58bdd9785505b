//! Calls on Starts, which is the last object of a run where some workers wait to be started.
ghost use Rattle.std.specs.Prelude.{◌≡◌, ◌≢◌, true, Err};
ghost use Rattle.script_calls.specs.declared.call.Reply.TheVariants as replies;
ghost use Rattle.sync_model.specs.declared.answer.Answer.TheVariants.{Done};
ghost use Rattle.starts_core.specs.declared.protocol.StartsStage.TheVariants as stages;
ghost use Rattle.workload.specs.Plan.{has_dormant};
ghost use Rattle.ruled_object.specs.Growth.{KeepsNote};
ghost use Rattle.run_record.specs.Objects.{starts_number};
ghost use Rattle.run_record.specs.Parts.{read_as};
ghost use Rattle.run_record.specs.StartsKind.{starts_part, wait_start_part, end_part};
ghost use Rattle.thread_objects.specs.AsDeclared.{AreDeclared};
ghost use Rattle.thread_objects.specs.Desks.{AreSeats};
ghost use Rattle.thread_objects.specs.Passes.{owns_of};
ghost use Rattle.thread_objects.specs.Working.{Works, desk_with};

use crate::site::Site;
use std::sync::Wait;
use sync_model::{Answer, Note, Shared};
use sync_outside::Clock;
use sync_types::Misuse;
use thread_objects::laws::starts_is_the_last_object;
use thread_objects::{AnyPass, CallAnswer, Worker, start, tell_end, wait_start};

/// Waits until the worker is started, and answers whether it was.
pub(crate) fn wait_start_at<S: Shared, C: Clock, R: Wait>(
    rt: &R,
    site: &Site<S>,
    worker: &Worker<S::Mark, C>,
    passes: &mut [AnyPass<S::Mark>],
    note: &mut S::Mark,
) -> Answer<Result<bool, Misuse>>
    requires dormant { has_dormant site.now.catalog.workload.now ≡ true }
    requires declared { AreDeclared S.Mark.at worker.now.at.home.now site.now.catalog.workload.now site.now.objects.now }
    requires seats { AreSeats S.Mark.at worker.now.at.home.now worker.now.workers worker.now.number site.now.objects.now passes.old }
    requires note { S.Mark.at worker.now.at.home.now note.old }
    ensures seats { AreSeats S.Mark.at worker.now.at.home.now worker.now.workers worker.now.number site.now.objects.now passes.new }
    ensures note { KeepsNote S.Mark.at S.Mark.own S.Mark.front note.old note.new }
    ensures unmisused { (misuse : Misuse) → result ≢ Done (Err misuse) }
    ensures works { Works (wait_start_part (starts_number site.now.catalog.workload.now)) (desk_with S.Mark.own S.Mark.front (owns_of passes.old) note.old) result (desk_with S.Mark.own S.Mark.front (owns_of passes.new) note.new) }
{
    starts_is_the_last_object::<S::Mark>();
    let number = site.objects.len() - 1;
    let object = &site.objects[number];
    let pass = &mut passes[number];
    wait_start(rt, worker, object, pass, note)
}

/// Starts a worker, where it waits to be started.
pub(crate) fn start_at<S: Shared, C: Clock, R: Wait>(
    rt: &R,
    site: &Site<S>,
    worker: &Worker<S::Mark, C>,
    passes: &mut [AnyPass<S::Mark>],
    note: &mut S::Mark,
    started: u32,
) -> CallAnswer
    requires dormant { has_dormant site.now.catalog.workload.now ≡ true }
    requires declared { AreDeclared S.Mark.at worker.now.at.home.now site.now.catalog.workload.now site.now.objects.now }
    requires seats { AreSeats S.Mark.at worker.now.at.home.now worker.now.workers worker.now.number site.now.objects.now passes.old }
    requires note { S.Mark.at worker.now.at.home.now note.old }
    ensures seats { AreSeats S.Mark.at worker.now.at.home.now worker.now.workers worker.now.number site.now.objects.now passes.new }
    ensures note { KeepsNote S.Mark.at S.Mark.own S.Mark.front note.old note.new }
    ensures works { Works (read_as (λ made. replies.Returned) (starts_part (starts_number site.now.catalog.workload.now) (stages.Start started))) (desk_with S.Mark.own S.Mark.front (owns_of passes.old) note.old) result (desk_with S.Mark.own S.Mark.front (owns_of passes.new) note.new) }
{
    starts_is_the_last_object::<S::Mark>();
    let number = site.objects.len() - 1;
    let object = &site.objects[number];
    let pass = &mut passes[number];
    start(rt, worker, object, pass, note, started)
}

/// Tells that the worker has ended: nobody who has ended starts another.
pub(crate) fn end_at<S: Shared, C: Clock, R: Wait>(
    rt: &R,
    site: &Site<S>,
    worker: &Worker<S::Mark, C>,
    passes: &mut [AnyPass<S::Mark>],
    note: &mut S::Mark,
) -> Answer<Result<(), Misuse>>
    requires dormant { has_dormant site.now.catalog.workload.now ≡ true }
    requires declared { AreDeclared S.Mark.at worker.now.at.home.now site.now.catalog.workload.now site.now.objects.now }
    requires seats { AreSeats S.Mark.at worker.now.at.home.now worker.now.workers worker.now.number site.now.objects.now passes.old }
    requires note { S.Mark.at worker.now.at.home.now note.old }
    ensures seats { AreSeats S.Mark.at worker.now.at.home.now worker.now.workers worker.now.number site.now.objects.now passes.new }
    ensures note { KeepsNote S.Mark.at S.Mark.own S.Mark.front note.old note.new }
    ensures works { Works (end_part (starts_number site.now.catalog.workload.now)) (desk_with S.Mark.own S.Mark.front (owns_of passes.old) note.old) result (desk_with S.Mark.own S.Mark.front (owns_of passes.new) note.new) }
{
    starts_is_the_last_object::<S::Mark>();
    let number = site.objects.len() - 1;
    let object = &site.objects[number];
    let pass = &mut passes[number];
    tell_end(rt, worker, object, pass, note)
}
