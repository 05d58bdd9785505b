//! What the workers' lists spell.
ghost use Rattle.std.specs.Prelude.{◌≡◌, ◌↔◌, ◌<◌, ◌++◌, ◌∷◌, [], false, IfOk, OnOk, IsTrue, MatchOption};
ghost use Rattle.workload.specs.Dialect.{has_variables};
ghost use Rattle.run_check.specs.ToldItems.{kept_by};
ghost use Rattle.run_check.specs.Lists.{AreSpeltTo, IsSpeltList, SomeSpellsNothing, SpellsNothing};

use crate::told::lists::{ToldList, kept_by, list_told};
use list_checks::spell::line::{SpeltLine, spell_line};
use object_checks::journals::JournalItem;
use record_text::ItemLine;
use run_record::Made;
use std::alloc::{AllocError, Global};
use sync_model::Item;
use sync_types::Seq;
use workload::Workload;

/// What was found of a worker's list: its items, and what they spell.
#[derive(Drop)]
pub struct SpeltList {
    pub told: ToldList,
    pub line: SpeltLine,
}

/// What was found of all workers' lists.
#[derive(Drop)]
pub struct Spelling {
    /// What each list spells, its halts set aside.
    pub lines: Seq<SpeltLine>,
    /// Each list, without places, fronts, workers and marks.
    pub all: Seq<Seq<Made>>,
    /// Each worker's calls on maps and atomics. None is marked as an entry.
    pub shared: Vec<Seq<Item>>,
    /// Each worker's entries of journals.
    pub entries: Seq<Seq<JournalItem>>,
}

// Whether calls are the same.
fn are_same(calls: &[Option<usize>], others: &[Option<usize>]) -> bool
    ensures { IsTrue result ↔ (calls.now ≡ others.now) }
{
    calls == others
}

/// What a worker's items spell, where each line says one, and each item is of the call that is told.
pub fn spell_list(
    alloc: Global,
    workload: &Workload,
    kept: &[(usize, i64)],
    worker: u32,
    items: &[ItemLine],
) -> Result<Option<SpeltList>, AllocError>
    requires worker { worker < workload.now.workers }
    requires plain { has_variables workload.now ≡ false }
    requires kept { kept.now ≡ kept_by items.now workload.now.workers }
    ensures { IfOk result (λ found. MatchOption found (SpellsNothing workload.now items.now worker) (IsSpeltList workload.now items.now worker)) }
{
    let Some(told) = list_told(alloc, workload, kept, worker, items)? else {
        return Ok(None);
    };
    let Some(line) = spell_line(alloc, workload, worker, told.spelt.as_slice())? else {
        return Ok(None);
    };
    if !are_same(line.calls.as_slice(), told.calls.as_slice()) {
        return Ok(None);
    }
    Ok(Some(SpeltList { told, line }))
}

// Adds what was found of the next worker's list.
fn add_list(found: &mut Spelling, list: SpeltList) -> Result<(), AllocError>
    ensures parts { OnOk result (found.new ≡ record { lines = found.old.lines ++ list.line ∷ []; all = found.old.all ++ list.told.all ∷ []; shared = found.new.shared; entries = found.old.entries ++ list.told.entries ∷ [] }) }
    ensures shared { OnOk result (found.new.shared.items ≡ found.old.shared.items ++ list.told.shared ∷ []) }
{
    let SpeltList { told, line } = list;
    let ToldList {
        calls: _,
        spelt: _,
        all,
        shared,
        entries,
    } = told;
    found.lines.push(line)?;
    found.all.push(all)?;
    found.shared.push(shared)?;
    found.entries.push(entries)?;
    Ok(())
}

/// What all workers' lists spell. Nothing, where one of them spells nothing.
pub fn spell_all(
    alloc: Global,
    workload: &Workload,
    items: &[ItemLine],
) -> Result<Option<Spelling>, AllocError>
    requires { has_variables workload.now ≡ false }
    ensures { IfOk result (λ found. MatchOption found (SomeSpellsNothing workload.now items.now) (AreSpeltTo workload.now items.now workload.now.workers)) }
{
    let workers = workload.workers();
    let kept = kept_by(alloc, items, workers)?;
    let mut found = Spelling {
        lines: Seq::new(alloc),
        all: Seq::new(alloc),
        shared: Vec::new(alloc),
        entries: Seq::new(alloc),
    };
    for worker in 0..workers {
        let Some(list) = spell_list(alloc, workload, &kept, worker, items)? else {
            return Ok(None);
        };
        add_list(&mut found, list)?;
    }
    Ok(Some(found))
}
