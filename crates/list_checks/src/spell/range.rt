//! A `range` of a map, as a list spells it: one cursor, taken until it shows none.
ghost use Rattle.std.specs.Prelude.{◌≡◌, ◌≤◌, IfOk, IsPermutation, IsSortedByKey, length, drop};
ghost use Rattle.std.specs.Cmp.Lexicographic.{slice_cmp};
ghost use Rattle.std.specs.Ordering.{nat_cmp};
ghost use Rattle.workload.specs.Keys.{key_name};
ghost use Rattle.run_cuts.specs.RangeCuts.{shows_cut, steps_cut};
ghost use Rattle.list_checks.specs.SpellFound.{IsFound, shown_at, is_begun};

use crate::spell::spelt::{Found, Spelt, Stop};
use run_record::Made;
use std::alloc::{AllocError, Global};
use std::cmp::Ordering;
use sync_model::{SharedCall, SharedReply};
use sync_types::{Name, Seq};
use workload::keys::key_name;

/// What a step of a cursor shows.
#[derive(Clone, Copy, Debug, Drop)]
pub enum Shown {
    /// A key, by its number, with its value.
    Pair((u32, u64)),
    /// Nothing is left.
    End,
    /// The item isn't a step of the cursor.
    Wrong,
}

/// The pairs that a cursor over a map shows, in the order in which it does, with whose items a list goes on behind a place. It
/// begins as the worker's call of a number.
pub fn spell_cursor(
    alloc: Global,
    map: usize,
    begin: usize,
    items: &[Made],
    from: usize,
) -> Result<Found<Seq<(u32, u64)>>, AllocError>
    requires { from ≤ length items.now }
    ensures { IfOk result (λ found. IsFound items.now from (shows_cut map begin (drop from items.now)) found) }
{
    let Some(first) = items.get(from) else {
        return Ok(Err(Stop::Within));
    };
    if begins(map, first) {
        spell_steps(alloc, begin, items, from + 1)
    } else {
        Ok(Err(Stop::Wrong))
    }
}

// Whether an item begins a cursor over a map.
fn begins(map: usize, item: &Made) -> bool
    ensures { result ≡ is_begun map item.now }
{
    match item {
        Made::Shared(first) => match (&first.call, &first.reply) {
            (SharedCall::Begin { map: other }, SharedReply::Begun) => *other as usize == map,
            _ => false,
        },
        Made::Entered { .. } => false,
    }
}

// The steps of the cursor, up to the one that shows nothing.
fn spell_steps(
    alloc: Global,
    begin: usize,
    items: &[Made],
    from: usize,
) -> Result<Found<Seq<(u32, u64)>>, AllocError>
    requires { from ≤ length items.now }
    ensures { IfOk result (λ found. IsFound items.now from (steps_cut begin (drop from items.now)) found) }
{
    let mut pairs = Seq::new(alloc);
    for next in from..items.len() {
        match show(begin, &items[next]) {
            Shown::Pair(pair) => pairs.push(pair)?,
            Shown::End => {
                return Ok(Ok(Spelt {
                    end: next + 1,
                    outcome: pairs,
                }));
            }
            Shown::Wrong => return Ok(Err(Stop::Wrong)),
        }
    }
    Ok(Err(Stop::Within))
}

// What an item shows, as a step of the cursor that the worker's call of this number began.
fn show(begin: usize, item: &Made) -> Shown
    ensures { result ≡ shown_at begin item.now }
{
    match item {
        Made::Shared(step) => match (&step.call, &step.reply) {
            (SharedCall::Next { begin: of }, SharedReply::Shown(Some(pair)))
                if *of == begin as u64 => { Shown::Pair(*pair) }
            (SharedCall::Next { begin: of }, SharedReply::Shown(None)) if *of == begin as u64 => {
                Shown::End
            }
            _ => Shown::Wrong,
        },
        Made::Entered { .. } => Shown::Wrong,
    }
}

/// Pairs sorted by the bytes of their keys.
pub(crate) fn sorted(keys: &[Name], shown: Seq<(u32, u64)>) -> Seq<(u32, u64)>
    ensures permutation { IsPermutation shown result }
    ensures sorted { IsSortedByKey (λ pair. key_name keys.now pair.0) (slice_cmp nat_cmp) result }
{
    let mut pairs = shown.into_vec();
    pairs.sort_unstable_by(
        |a, b| -> Ordering
            ensures { result ≡ slice_cmp nat_cmp (key_name keys.entry.now a.now.0) (key_name keys.entry.now b.now.0) }
        { key_name(keys, a.0).cmp(key_name(keys, b.0)) },
    );
    Seq::from_vec(pairs)
}
