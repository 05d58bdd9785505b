//! The maps and atomics of a run: how they begin, and how they end.
ghost use Rattle.std.specs.Prelude.{◌≡◌, ℕ, ◌+◌, ◌*◌, ◌≤◌, ◌++◌, List, IfOk, length, vec_len, vec_capacity};
ghost use Rattle.sync_model.specs.declared.item.SharedEntry.{SharedEntry};
ghost use Rattle.sync_model.specs.EndsOfHistory.{ends_by};
ghost use Rattle.sync_model.specs.Shared.{AreAllCallers, calls_of};
ghost use Rattle.sync_model.specs.SharedCalls.{Lawful};
ghost use Rattle.sync_model.specs.SharedHistory.{contents_after, first_contents};
ghost use Rattle.run_record.specs.Explains.{Explains};
ghost use Rattle.run_record.specs.InOneOrder.{InOneOrder};
ghost use Rattle.run_record.specs.Record.{Record};
ghost use Rattle.thread_runner.specs.Sites.{AreShared};
ghost use Rattle.thread_runner.specs.EndsPlans.{HaveMadeNone, HaveSpare, IsEndsPlan};
ghost use Rattle.thread_runner.specs.Runs.{HasRun};

use crate::ends_plan::EndsPlan;
use run_record::laws::limits::maps_end_with_the_workloads_keys;
use script_calls::{Outcome, Report};
use std::alloc::{AllocError, Global};
use sync_model::laws::ends::ends_are_in_name_order;
use sync_model::{Caller, Shared};
use sync_types::{End, Seq};
use workload::Workload;

/// Maps and atomics that a run makes before its start, and takes apart once all workers have ended.
pub(crate) trait RunMaps: Shared {
    /// What the end takes, which is there before the start.
    type Room: Drop;

    // There is room to end for so many callers.
    ghost has_room: { Self.Room → ℕ → Type 0 };

    /// The maps and atomics of a workload, with a caller for each worker and what the end takes.
    fn new_for(
        alloc: Global,
        workload: &Workload,
    ) -> Result<(Self, Vec<Caller<Self::Mark>>, Self::Room), AllocError>
        ensures shared { IfOk result (λ made. AreShared workload.now (Self.maps made.0) (Self.kinds made.0) (Self.takes made.0)) }
        ensures count { IfOk result (λ made. Self.count made.0 ≡ workload.now.workers) }
        ensures callers { IfOk result (λ made. AreAllCallers Self.Mark.at Self.Mark.own (Self.home_of made.0) made.1.items workload.now.workers) }
        ensures unused { IfOk result (λ made. HaveMadeNone Self.Mark.own made.1.items) }
        ensures spare { IfOk result (λ made. HaveSpare Self.Mark.own workload.now made.1.items) }
        ensures room { IfOk result (λ made. has_room made.2 workload.now.workers) };

    /// Ends them, with all their callers in order of number, and adds what a report shows of them to a list that has room for
    /// it: the numbers of the atomics, and the keys of the maps in this order. `atomics` and `maps` are the places of their
    /// objects. It takes no memory.
    fn end(
        self,
        callers: Vec<Caller<Self::Mark>>,
        room: Self::Room,
        atomics: &[usize],
        maps: &[usize],
        order: &[u32],
        ends: &mut Vec<End>,
    )
        requires callers { AreAllCallers Self.Mark.at Self.Mark.own (Self.home_of self) callers.items (Self.count self) }
        requires room { has_room room (Self.count self) }
        requires list { vec_len ends.old + length atomics.now + length maps.now * length order.now ≤ vec_capacity ends.old }
        ensures ends { (history : List SharedEntry) → Lawful (first_contents (Self.maps self) (Self.kinds self)) history (calls_of Self.Mark.own callers.items)
            → ends.new.items ≡ ends.old.items ++ ends_by order.now atomics.now maps.now (contents_after (first_contents (Self.maps self) (Self.kinds self)) history) };
}

/// The outcome with its ends, once all workers have ended.
pub(crate) fn finish<M: RunMaps + Drop>(
    workload: &Workload,
    maps: M,
    callers: Vec<Caller<M::Mark>>,
    room: M::Room,
    plan: EndsPlan,
    outcome: Outcome,
) -> Outcome
    requires shared { AreShared workload.now (M.maps maps) (M.kinds maps) (M.takes maps) }
    requires count { M.count maps ≡ workload.now.workers }
    requires room { M.has_room room workload.now.workers }
    requires plan { IsEndsPlan workload.now plan.places.atomics.items plan.places.maps.items plan.order.items plan.ends.items (vec_capacity plan.ends) }
    requires comes { HasRun M.Mark.at M.Mark.own M.Mark.front M.seen (M.home_of maps) workload.now outcome callers.items }
    ensures { (r : Record) × Explains workload.now result r × InOneOrder r }
{
    maps_end_with_the_workloads_keys();
    ends_are_in_name_order();
    match outcome {
        Outcome::Done(left) => {
            let Report { replies, .. } = left;
            let EndsPlan {
                places,
                order,
                mut ends,
            } = plan;
            maps.end(
                callers,
                room,
                &places.atomics,
                &places.maps,
                &order,
                &mut ends,
            );
            Outcome::Done(Report {
                replies,
                ends: Seq::from_vec(ends),
            })
        }
        Outcome::Misused(left, misuse) => Outcome::Misused(left, misuse),
        Outcome::Deadlocked(left) => Outcome::Deadlocked(left),
    }
}
