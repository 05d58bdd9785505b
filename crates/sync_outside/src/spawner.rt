//! What starts a program's threads.
ghost use Rattle.std.specs.Prelude.{◌≡◌, ℕ, ◌<◌, ◌≤◌, All, false, vec_len};
ghost use Rattle.sync_outside.specs.Faults.{Rose, RoseBy, raised};
ghost use Rattle.sync_outside.specs.Starts.{Becomes, RoseIfRefused, StaysUnlessRefused, RoseByDone, rounds_after, is_done};

use crate::counted::{Refusal, Round};
use crate::starting::start_jobs;
use crate::work::Work;
use std::alloc::Global;
use std::sync::Wait;
use std::thread::Threads;

/// What became of jobs that were to be started together.
#[derive(Drop)]
pub enum Started<W, O> {
    /// Each job was done, and its result stands at the job's place.
    Done(Vec<O>),
    /// A start was refused. These are the jobs, in their order; none was done.
    Refused(Vec<W>),
    /// Memory is out. These are the jobs, in their order; none was done.
    Memory(Vec<W>),
}

/// Starts jobs, each in a thread of its own.
///
/// Three things are counted: starts that were refused, jobs that were done, and calls in which all jobs
/// were done. A count never falls, and stands still at 2^64 - 1. Only `start_all` makes what the calls take that raise a count,
/// so nobody else raises one.
pub trait Spawner {
    // How many starts were refused, how many jobs were done, and in how many calls.
    ghost faults: { Self → ℕ };

    ghost ran: { Self → ℕ };

    ghost rounds: { Self → ℕ };

    // How many of so many starts are let through before one is refused by the spawner itself.
    ghost admits: { Self → ℕ → ℕ };

    /// How many of so many starts are let through. Where that is fewer the next one is refused.
    fn admitted(&self, starts: usize) -> usize
        ensures { result ≡ admits self.now starts };

    /// Counts a start that was refused, though it is one of those that are let through, or the first that isn't.
    fn count_refusal(&mut self, refusal: &Refusal)
        requires { refusal.now.admitted ≡ admits self.old refusal.now.starts }
        ensures rose { Rose (faults self.old) (faults self.new) }
        ensures faults { faults self.old ≤ faults self.new }
        ensures ran { ran self.new ≡ ran self.old }
        ensures rounds { rounds self.new ≡ rounds self.old };

    /// Counts a call in which all jobs were done.
    fn count_done(&mut self, round: &Round)
        ensures faults { faults self.new ≡ faults self.old }
        ensures ran { RoseBy round.now (ran self.old) (ran self.new) }
        ensures rounds { rounds self.new ≡ raised (rounds self.old) };

    /// Starts all jobs, waits for each to end, and answers their results. No job begins its work before
    /// all are started, so jobs may wait for one another. Memory is taken before the first start. What
    /// refuses a start isn't told, and is a fault.
    final fn start_all<R: Threads + Wait + Sync, W: Work>(
        &mut self,
        rt: &R,
        alloc: Global,
        jobs: Vec<W>,
    ) -> Started<W, W::Out>
        requires { All W.ready jobs.items }
        ensures jobs { Becomes W.gives jobs.items result }
        ensures failed { RoseIfRefused result (faults self.old) (faults self.new) }
        ensures stays { StaysUnlessRefused result (faults self.old) (faults self.new) }
        ensures faults { faults self.old ≤ faults self.new }
        ensures ran { RoseByDone result (vec_len jobs) (ran self.old) (ran self.new) }
        ensures rounds { rounds self.new ≡ rounds_after result (rounds self.old) }
        ensures admits { admits self.old (vec_len jobs) < vec_len jobs → is_done result ≡ false }
    {
        let count = jobs.len();
        let admitted = self.admitted(count);
        let started = start_jobs(rt, alloc, jobs, admitted);
        match &started {
            Started::Done(_) => self.count_done(&Round::new(count as u64)),
            Started::Refused(_) => self.count_refusal(&Refusal::new(count, admitted)),
            Started::Memory(_) => {}
        }
        started
    }
}
