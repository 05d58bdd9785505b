//! `ifeq` and `waitfor`, as a list spells them.
ghost use Rattle.std.specs.Prelude.{◌≡◌, ◌≤◌, length, drop};
ghost use Rattle.run_cuts.specs.SharedCuts.{tests_cut, if_equal_cut};
ghost use Rattle.run_cuts.specs.WaitForCuts.{waits_for_cut, wait_for_cut};
ghost use Rattle.run_record.specs.Tests.{holds};
ghost use Rattle.list_checks.specs.SpellFound.{IsFound, try_cut, waited_cut};

use crate::spell::cond::spell_wait;
use crate::spell::placed::{CallOnAtomic, spell_placed};
use crate::spell::same::is_same_number;
use crate::spell::spelt::{Found, Spelt};
use run_record::Made;
use script_calls::Reply;
use sync_types::{AtomicCall, AtomicReply, Number};

/// A cond with its mutex, by their numbers among the objects, and an atomic that is tested, by its number among the atomics.
#[derive(Clone, Copy, Drop)]
pub struct Waiting {
    pub cond: usize,
    pub mutex: usize,
    pub atomic: usize,
}

// Whether a load found the value.
fn holds(value: Number, reply: &Reply<u32>) -> bool
    ensures { result ≡ holds value reply.now }
{
    match reply {
        Reply::Atomic(AtomicReply::Held(number)) => is_same_number(*number, value),
        _ => false,
    }
}

// The load of an atomic with which a list goes on behind a place, read as whether it found the value.
fn spell_test(atomic: usize, value: Number, items: &[Made], from: usize) -> Found<bool>
    requires { from ≤ length items.now }
    ensures { IsFound items.now from (tests_cut atomic value (drop from items.now)) result }
{
    let load = CallOnAtomic {
        atomic,
        call: AtomicCall::Load,
    };
    let loaded = spell_placed(&load, items, from)?;
    Ok(Spelt {
        end: loaded.end,
        outcome: holds(value, &loaded.outcome),
    })
}

/// The `ifeq` of an atomic with which a list goes on behind a place.
pub fn spell_if_equal(
    atomic: usize,
    value: Number,
    items: &[Made],
    from: usize,
) -> Found<Reply<u32>>
    requires { from ≤ length items.now }
    ensures { IsFound items.now from (if_equal_cut atomic value (drop from items.now)) result }
{
    let test = spell_test(atomic, value, items, from)?;
    Ok(Spelt {
        end: test.end,
        outcome: Reply::Atomic(AtomicReply::Compared(test.outcome)),
    })
}

// The loads and waits of a `waitfor` with which a list goes on behind a place.
fn spell_tests(on: Waiting, value: Number, tries: u32, items: &[Made], from: usize) -> Found<bool>
    requires { from ≤ length items.now }
    ensures { IsFound items.now from (waits_for_cut on.cond on.mutex on.atomic value tries (drop from items.now)) result }
{
    let mut at = from;
    for _made in 0..tries {
        match spell_try(on, value, items, at) {
            Ok(tried) if tried.outcome => return Ok(tried),
            Ok(tried) => at = tried.end,
            Err(stop) => return Err(stop),
        }
    }
    spell_test(on.atomic, value, items, at)
}

// One load of a `waitfor`, and the wait behind it where it didn't find the value.
fn spell_try(on: Waiting, value: Number, items: &[Made], from: usize) -> Found<bool>
    requires { from ≤ length items.now }
    ensures { IsFound items.now from (try_cut on.cond on.mutex on.atomic value (drop from items.now)) result }
{
    let test = spell_test(on.atomic, value, items, from)?;
    if test.outcome {
        return Ok(test);
    }
    spell_waited(on, items, test.end)
}

// The wait behind a load that didn't find the value.
fn spell_waited(on: Waiting, items: &[Made], from: usize) -> Found<bool>
    requires { from ≤ length items.now }
    ensures { IsFound items.now from (waited_cut on.cond on.mutex (drop from items.now)) result }
{
    let waited = spell_wait(on.cond, on.mutex, items, from)?;
    Ok(Spelt {
        end: waited.end,
        outcome: false,
    })
}

/// The `waitfor` with which a list goes on behind a place.
pub fn spell_wait_for(
    on: Waiting,
    value: Number,
    tries: u32,
    items: &[Made],
    from: usize,
) -> Found<Reply<u32>>
    requires { from ≤ length items.now }
    ensures { IsFound items.now from (wait_for_cut on.cond on.mutex on.atomic value tries (drop from items.now)) result }
{
    let last = spell_tests(on, value, tries, items, from)?;
    Ok(Spelt {
        end: last.end,
        outcome: Reply::Atomic(AtomicReply::Compared(last.outcome)),
    })
}
