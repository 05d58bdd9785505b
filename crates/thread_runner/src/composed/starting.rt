//! `go`: an `add` to a wait group, and then the start of a worker.
ghost use Rattle.std.specs.Prelude.{◌≡◌, ◌+◌, ◌<◌, true, length};
ghost use Rattle.sync_model.specs.Shared.{IsCallerAt};
ghost use Rattle.workload.specs.declared.object.ObjectWord.TheVariants as words;
ghost use Rattle.workload.specs.Plan.{has_dormant};
ghost use Rattle.run_record.specs.Objects.{starts_number};
ghost use Rattle.run_record.specs.Record.{object_number};
ghost use Rattle.run_record.specs.StartsKind.{go_call};
ghost use Rattle.thread_objects.specs.AsDeclared.{AreDeclared};
ghost use Rattle.thread_objects.specs.Calling.{HasCalled};
ghost use Rattle.thread_objects.specs.Desks.{AreSeats, IsObjectAt};
ghost use Rattle.thread_objects.specs.Kinds.{HasWord};
ghost use Rattle.thread_objects.specs.Passes.{owns_of};
ghost use Rattle.thread_objects.specs.Working.{Works, desk_with};

use crate::desk::group_at;
use crate::site::Site;
use crate::starts::start_at;
use protocols::GroupStage;
use std::sync::Wait;
use sync_model::{Caller, Note, Shared};
use sync_outside::Clock;
use thread_objects::parts::laws::{moves, what_a_call_leaves};
use thread_objects::{AnyPass, CallAnswer, Worker, gone_on, returned};

/// Makes a `go` on the wait group at a place: it adds 1 to the group, and then starts the worker. Where the `add` is a misuse, or
/// meets a halt, nobody is started. Nothing is taken off the calls that a pass is good for. It waits for nobody.
pub(crate) fn go_at<S: Shared, C: Clock, R: Wait>(
    rt: &R,
    site: &Site<S>,
    worker: &Worker<S::Mark, C>,
    caller: &mut Caller<S::Mark>,
    passes: &mut [AnyPass<S::Mark>],
    place: usize,
    started: u32,
) -> CallAnswer
    requires declared { AreDeclared S.Mark.at worker.now.at.home.now site.now.catalog.workload.now site.now.objects.now }
    requires group { IsObjectAt (HasWord words.WaitGroup) site.now.objects.now (object_number place) }
    requires room { place + 1 < length site.now.objects.now }
    requires dormant { has_dormant site.now.catalog.workload.now ≡ true }
    requires seats { AreSeats S.Mark.at worker.now.at.home.now worker.now.workers worker.now.number site.now.objects.now passes.old }
    requires caller { IsCallerAt S.Mark.at S.Mark.own worker.now.at.home.now caller.old }
    ensures seats { AreSeats S.Mark.at worker.now.at.home.now worker.now.workers worker.now.number site.now.objects.now passes.new }
    ensures called { HasCalled S.Mark.at S.Mark.own site.now.catalog.workload.now 0 caller.old.note caller.new.note }
    ensures works { Works (go_call (object_number place) (starts_number site.now.catalog.workload.now) started)
        (desk_with S.Mark.own S.Mark.front (owns_of passes.old) caller.old.note) result (desk_with S.Mark.own S.Mark.front (owns_of passes.new) caller.new.note) }
{
    moves();
    what_a_call_leaves::<S::Mark>();
    let _count = site.objects.len();
    let add = GroupStage::Add(1);
    let added = gone_on(returned(group_at(
        rt,
        worker,
        site.objects,
        passes,
        &mut caller.note,
        place + 1,
        add,
    )));
    if let Err(answer) = added {
        return answer;
    }
    start_at(rt, site, worker, passes, &mut caller.note, started)
}
