//! The job of one thread: a worker's script.
ghost use Rattle.std.specs.Prelude.{◌≡◌};

use crate::script::run_script;
use crate::site::Site;
use script_calls::Reply;
use std::sync::Wait;
use sync_model::{Caller, Note, Shared};
use sync_outside::{Clock, Gate, Work};
use sync_types::{BoundedSeq, Seq};
use thread_objects::{AnyPass, Worker};

/// Room for all that a worker's script answers.
#[derive(Drop)]
pub(crate) struct Room {
    /// For the replies.
    pub replies: BoundedSeq<Reply<u32>>,
    /// For the pairs of each `range`, which are at most all keys.
    pub pairs: Vec<BoundedSeq<(u32, u64)>>,
}

/// A worker, with all that its script takes.
#[derive(Drop)]
pub(crate) struct Job<'a, S: Shared, C: Clock, G: Gate> {
    pub site: &'a Site<'a, S>,
    pub worker: Worker<'a, S::Mark, C>,
    pub gate: &'a G,
    pub caller: Caller<S::Mark>,
    pub passes: Vec<AnyPass<S::Mark>>,
    pub room: Room,
}

/// What a worker leaves that has ended.
#[derive(Drop)]
pub(crate) struct Gone<M> {
    pub caller: Caller<M>,
    pub passes: Vec<AnyPass<M>>,
    pub replies: Seq<Reply<u32>>,
}

impl<'a, S: Shared + Sync, C: Clock + Sync, G: Gate + Sync> Work for Job<'a, S, C, G>
where
    S::Mark: Send,
    S::Cursor: Send,
    <S::Mark as Note>::Home: Sync,
{
    ghost use Rattle.std.specs.Prelude.{◌≡◌};
    ghost use Rattle.thread_runner.specs.Sites.{IsWorkerAt};
    ghost use Rattle.thread_runner.specs.Jobs.{IsReady, HasGone};

    type Out = Gone<S::Mark>;

    ghost ready = { λ job. IsWorkerAt S.Mark.at job.worker.at.home.now (S.home_of job.site.now.catalog.shared.now) job.site.now.catalog.workload.now (S.maps job.site.now.catalog.shared.now) (S.kinds job.site.now.catalog.shared.now) (S.takes job.site.now.catalog.shared.now) job.site.now.objects.now job.site.now.catalog.numbers.now job.worker.workers
        × IsReady S.Mark.at S.Mark.own S.Mark.front job.worker.at.home.now job.site.now.catalog.workload.now job.site.now.objects.now job.worker.number job.passes.items job.caller job.room.replies job.room.pairs.items };

    ghost gives = { λ job gone. HasGone S.Mark.at S.Mark.own S.Mark.front job.worker.at.home.now job.site.now.catalog.workload.now job.site.now.objects.now job.worker.number job.passes.items job.caller gone.passes.items gone.caller gone.replies };

    fn work<R: Wait>(self, rt: &R) -> Gone<S::Mark> {
        let Job {
            site,
            worker,
            gate,
            mut caller,
            mut passes,
            room,
        } = self;
        let Room {
            mut replies,
            mut pairs,
        } = room;
        run_script(
            rt,
            site,
            &worker,
            gate,
            &mut caller,
            &mut passes,
            &mut replies,
            &mut pairs,
        );
        Gone {
            caller,
            passes,
            replies: replies.into_seq(),
        }
    }
}
