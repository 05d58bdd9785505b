//! The calls on Starts, as a list spells them.
ghost use Rattle.std.specs.Prelude.{◌≡◌, ◌≤◌, ◌<◌, length, drop};
ghost use Rattle.run_cuts.specs.StartsCuts.{starts_event_in, starts_reply_in, is_starts_event, go_cut, opening_cut, closing_cut, done_cut, end_cut};
ghost use Rattle.run_record.specs.StartsKind.{was_started};
ghost use Rattle.list_checks.specs.SpellFound.{IsFound, start_cut};

use crate::spell::automaton::{Kind, spell_stages};
use crate::spell::group::spell_group;
use crate::spell::numbers::{object_number, starts_number};
use crate::spell::spelt::{Found, Spelt};
use run_record::{Made, ObjectEvent, ObjectReply};
use script_calls::Reply;
use starts_core::{StartEvent, StartReply, StartsCore, StartsOutcome, StartsStage};
use sync_types::WaitGroupCall;
use workload::Workload;

impl Kind for StartsCore {
    ghost event_in = { starts_event_in };

    ghost reply_in = { starts_reply_in };

    ghost is_event = { is_starts_event };

    fn event_in(event: ObjectEvent) -> Option<StartEvent> {
        match event {
            ObjectEvent::Starts(event) => Some(event),
            _ => None,
        }
    }

    fn reply_in(reply: ObjectReply) -> Option<StartReply> {
        match reply {
            ObjectReply::Starts(reply) => Some(reply),
            _ => None,
        }
    }

    fn is_event(stage: StartsStage, event: &StartEvent) -> bool {
        match (stage, event) {
            (StartsStage::Start(worker), StartEvent::Start(other)) => *other == worker,
            (StartsStage::End, StartEvent::End) => true,
            (StartsStage::WaitStart, StartEvent::Leave) => true,
            _ => false,
        }
    }
}

/// The `go` with which a list goes on behind a place: 1 is added to the group, and then the worker is started.
pub fn spell_go(
    group: usize,
    starts: usize,
    worker: u32,
    items: &[Made],
    from: usize,
) -> Found<Reply<u32>>
    requires { from ≤ length items.now }
    ensures { IsFound items.now from (go_cut group starts worker (drop from items.now)) result }
{
    let added = spell_group(group, WaitGroupCall::Add(1), items, from)?;
    spell_start(starts, worker, items, added.end)
}

// The start of a worker.
fn spell_start(starts: usize, worker: u32, items: &[Made], from: usize) -> Found<Reply<u32>>
    requires { from ≤ length items.now }
    ensures { IsFound items.now from (start_cut starts worker (drop from items.now)) result }
{
    let start = StartsStage::Start(worker);
    let started = spell_stages::<StartsCore>(starts, start, items, from)?;
    Ok(Spelt {
        end: started.end,
        outcome: Reply::Returned,
    })
}

// Whether the worker was started.
fn was_started(outcome: StartsOutcome) -> bool
    ensures { result ≡ was_started outcome }
{
    match outcome {
        StartsOutcome::Done => false,
        StartsOutcome::Started(was) => was,
    }
}

/// What a worker makes before its script, and whether it comes to it, at the beginning of its list.
pub fn spell_opening(workload: &Workload, worker: u32, items: &[Made]) -> Found<bool>
    requires { worker < workload.now.workers }
    ensures { IsFound items.now 0 (opening_cut workload.now worker items.now) result }
{
    if !workload.is_dormant(worker) {
        return Ok(Spelt {
            end: 0,
            outcome: true,
        });
    }
    let starts = starts_number(workload);
    let told = spell_stages::<StartsCore>(starts, StartsStage::WaitStart, items, 0)?;
    Ok(Spelt {
        end: told.end,
        outcome: was_started(told.outcome),
    })
}

// The `done` of a worker that was started, on the group under which it was.
fn spell_done(workload: &Workload, worker: u32, items: &[Made], from: usize) -> Found<()>
    requires worker { worker < workload.now.workers }
    requires from { from ≤ length items.now }
    ensures { IsFound items.now from (done_cut workload.now worker (drop from items.now)) result }
{
    match workload.group_of(worker) {
        Some(group) if workload.is_dormant(worker) => {
            let number = object_number(workload, group);
            let done = spell_group(number, WaitGroupCall::Done, items, from)?;
            Ok(Spelt {
                end: done.end,
                outcome: (),
            })
        }
        _ => Ok(Spelt {
            end: from,
            outcome: (),
        }),
    }
}

// The end of a worker.
fn spell_end(starts: usize, items: &[Made], from: usize) -> Found<()>
    requires { from ≤ length items.now }
    ensures { IsFound items.now from (end_cut starts (drop from items.now)) result }
{
    let ended = spell_stages::<StartsCore>(starts, StartsStage::End, items, from)?;
    Ok(Spelt {
        end: ended.end,
        outcome: (),
    })
}

/// What a worker makes behind its script, with which a list goes on behind a place.
pub fn spell_closing(workload: &Workload, worker: u32, items: &[Made], from: usize) -> Found<()>
    requires worker { worker < workload.now.workers }
    requires from { from ≤ length items.now }
    ensures { IsFound items.now from (closing_cut workload.now worker (drop from items.now)) result }
{
    if workload.has_dormant() {
        let done = spell_done(workload, worker, items, from)?;
        return spell_end(starts_number(workload), items, done.end);
    }
    Ok(Spelt {
        end: from,
        outcome: (),
    })
}
