//! What a run of a workload comes to, by schedule or with threads.
use crate::call::Reply;
use sync_types::end::End;
use sync_types::misuse::Misuse;
use sync_types::seq::Seq;

/// How a run ends.
#[derive(Clone, Copy, Debug, PartialEq, Eq)]
pub enum Ending {
    /// Every script has ended.
    Done,
    /// A call was a misuse.
    Misused(Misuse),
    /// Nobody could make an event while a script had calls left. Only a run by schedule sees that it is so: threads wait.
    Deadlocked,
}

/// What a run leaves behind. Keys have their numbers among the workload's keys.
#[derive(Drop)]
pub struct Report {
    /// For each worker the replies to its completed calls, in the order of its script.
    pub replies: Seq<Seq<Reply<u32>>>,
    /// What the objects hold at the end, in the order of the report. Empty unless every script has ended.
    pub ends: Seq<End>,
}

/// How a run ends, with what it leaves behind.
#[derive(Drop)]
pub enum Outcome {
    /// Every script has ended.
    Done(Report),
    /// A call was a misuse, which isn't completed.
    Misused(Report, Misuse),
    /// Nobody could make an event while a script had calls left: all workers that have calls left wait for each other, or
    /// for one that has ended its script.
    Deadlocked(Report),
}
