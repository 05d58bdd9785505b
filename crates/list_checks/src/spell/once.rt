//! The calls of a once, and of functions made by `OnceFunc` and `OnceValue`, as a list spells them.
ghost use Rattle.std.specs.Prelude.{◌≡◌, ◌≤◌, ◌==◌, length, drop};
ghost use Rattle.std.specs.Ordering.{int_eq};
ghost use Rattle.run_cuts.specs.OnceCuts.{do_event_in, do_reply_in, func_event_in, func_reply_in, value_event_in, value_reply_in, is_once_event, do_cut, func_cut, value_cut};
ghost use Rattle.run_record.specs.OnceKind.{failure};
ghost use Rattle.list_checks.specs.SpellFound.{IsFound, run_do_cut, sum_cut, code_cut, end_value_cut};

use crate::spell::automaton::{Kind, spell_stages};
use crate::spell::placed::{AddTo, spell_placed};
use crate::spell::spelt::{Found, Spelt, Stop};
use protocols::{OnceOutcome, OnceStage};
use run_record::{Made, ObjectEvent, ObjectReply};
use script_calls::Reply;
use sync_types::DoReply;
use wait_cores::{OnceCore, OnceEvent, OnceReply};

impl Kind for OnceCore<i64> {
    ghost event_in = { do_event_in };

    ghost reply_in = { do_reply_in };

    ghost is_event = { is_once_event int_eq };

    fn event_in(event: ObjectEvent) -> Option<OnceEvent<i64>> {
        match event {
            ObjectEvent::Once(event) => Some(event),
            _ => None,
        }
    }

    fn reply_in(reply: ObjectReply) -> Option<OnceReply<i64>> {
        match reply {
            ObjectReply::Once(reply) => Some(reply),
            _ => None,
        }
    }

    fn is_event(stage: OnceStage<i64>, event: &OnceEvent<i64>) -> bool {
        match (stage, event) {
            (OnceStage::Begin, OnceEvent::Begin) => true,
            (OnceStage::End(kept), OnceEvent::End(told)) => *told == kept,
            (OnceStage::Leave, OnceEvent::Leave) => true,
            _ => false,
        }
    }
}

impl Kind for OnceCore<u32> {
    ghost event_in = { func_event_in };

    ghost reply_in = { func_reply_in };

    ghost is_event = { is_once_event (λ a b. a == b) };

    fn event_in(event: ObjectEvent) -> Option<OnceEvent<u32>> {
        match event {
            ObjectEvent::OnceFunc(event) => Some(event),
            _ => None,
        }
    }

    fn reply_in(reply: ObjectReply) -> Option<OnceReply<u32>> {
        match reply {
            ObjectReply::OnceFunc(reply) => Some(reply),
            _ => None,
        }
    }

    fn is_event(stage: OnceStage<u32>, event: &OnceEvent<u32>) -> bool {
        match (stage, event) {
            (OnceStage::Begin, OnceEvent::Begin) => true,
            (OnceStage::End(kept), OnceEvent::End(told)) => *told == kept,
            (OnceStage::Leave, OnceEvent::Leave) => true,
            _ => false,
        }
    }
}

impl Kind for OnceCore<u64> {
    ghost event_in = { value_event_in };

    ghost reply_in = { value_reply_in };

    ghost is_event = { is_once_event (λ a b. a == b) };

    fn event_in(event: ObjectEvent) -> Option<OnceEvent<u64>> {
        match event {
            ObjectEvent::OnceValue(event) => Some(event),
            _ => None,
        }
    }

    fn reply_in(reply: ObjectReply) -> Option<OnceReply<u64>> {
        match reply {
            ObjectReply::OnceValue(reply) => Some(reply),
            _ => None,
        }
    }

    fn is_event(stage: OnceStage<u64>, event: &OnceEvent<u64>) -> bool {
        match (stage, event) {
            (OnceStage::Begin, OnceEvent::Begin) => true,
            (OnceStage::End(kept), OnceEvent::End(told)) => *told == kept,
            (OnceStage::Leave, OnceEvent::Leave) => true,
            _ => false,
        }
    }
}

/// The `do` of a once, which adds an amount to the int64 of this number, with which a list goes on behind a place.
pub fn spell_do(
    object: usize,
    atomic: usize,
    amount: i64,
    items: &[Made],
    from: usize,
) -> Found<Reply<u32>>
    requires { from ≤ length items.now }
    ensures { IsFound items.now from (do_cut object atomic amount (drop from items.now)) result }
{
    let begun = spell_stages::<OnceCore<i64>>(object, OnceStage::Begin, items, from)?;
    match begun.outcome {
        OnceOutcome::Run => spell_run(object, atomic, amount, items, begun.end),
        OnceOutcome::Already(_) => Ok(Spelt {
            end: begun.end,
            outcome: Reply::Once(DoReply::Done),
        }),
        OnceOutcome::Ended => Err(Stop::Wrong),
    }
}

// The function of a once, which adds an amount to the int64, and its end.
fn spell_run(
    object: usize,
    atomic: usize,
    amount: i64,
    items: &[Made],
    from: usize,
) -> Found<Reply<u32>>
    requires { from ≤ length items.now }
    ensures { IsFound items.now from (run_do_cut object atomic amount (drop from items.now)) result }
{
    let sum = spell_placed(&AddTo { atomic, amount }, items, from)?;
    spell_sum(object, sum.outcome, items, sum.end)
}

// The end of a once's function, which came to a sum.
fn spell_sum(object: usize, sum: i64, items: &[Made], from: usize) -> Found<Reply<u32>>
    requires { from ≤ length items.now }
    ensures { IsFound items.now from (sum_cut object sum (drop from items.now)) result }
{
    let ended = spell_stages::<OnceCore<i64>>(object, OnceStage::End(sum), items, from)?;
    Ok(Spelt {
        end: ended.end,
        outcome: Reply::Once(DoReply::Ran(sum)),
    })
}

// How a call of a function that came to a code replies: a code of 0 stands for no failure.
fn failure(code: u32) -> Reply<u32>
    ensures { result ≡ Reply.OnceFunc (failure code) }
{
    if code == 0 {
        Reply::OnceFunc(None)
    } else {
        Reply::OnceFunc(Some(code))
    }
}

/// The call of a function made by `OnceFunc`, which comes to a code, with which a list goes on behind a place.
pub fn spell_once_func(object: usize, code: u32, items: &[Made], from: usize) -> Found<Reply<u32>>
    requires { from ≤ length items.now }
    ensures { IsFound items.now from (func_cut object code (drop from items.now)) result }
{
    let begun = spell_stages::<OnceCore<u32>>(object, OnceStage::Begin, items, from)?;
    match begun.outcome {
        OnceOutcome::Run => spell_code(object, code, items, begun.end),
        OnceOutcome::Already(kept) => Ok(Spelt {
            end: begun.end,
            outcome: failure(kept),
        }),
        OnceOutcome::Ended => Err(Stop::Wrong),
    }
}

// The end of a function that came to a code.
fn spell_code(object: usize, code: u32, items: &[Made], from: usize) -> Found<Reply<u32>>
    requires { from ≤ length items.now }
    ensures { IsFound items.now from (code_cut object code (drop from items.now)) result }
{
    let ended = spell_stages::<OnceCore<u32>>(object, OnceStage::End(code), items, from)?;
    Ok(Spelt {
        end: ended.end,
        outcome: failure(code),
    })
}

/// The call of a function made by `OnceValue`, which comes to a value, with which a list goes on behind a place.
pub fn spell_once_value(object: usize, value: u64, items: &[Made], from: usize) -> Found<Reply<u32>>
    requires { from ≤ length items.now }
    ensures { IsFound items.now from (value_cut object value (drop from items.now)) result }
{
    let begun = spell_stages::<OnceCore<u64>>(object, OnceStage::Begin, items, from)?;
    match begun.outcome {
        OnceOutcome::Run => spell_value(object, value, items, begun.end),
        OnceOutcome::Already(kept) => Ok(Spelt {
            end: begun.end,
            outcome: Reply::OnceValue(kept),
        }),
        OnceOutcome::Ended => Err(Stop::Wrong),
    }
}

// The end of a function that came to a value.
fn spell_value(object: usize, value: u64, items: &[Made], from: usize) -> Found<Reply<u32>>
    requires { from ≤ length items.now }
    ensures { IsFound items.now from (end_value_cut object value (drop from items.now)) result }
{
    let ended = spell_stages::<OnceCore<u64>>(object, OnceStage::End(value), items, from)?;
    Ok(Spelt {
        end: ended.end,
        outcome: Reply::OnceValue(value),
    })
}
