//! The edge law of a journal, by the notes of its entries.
ghost use Rattle.std.specs.Prelude.{◌≡◌, ◌↔◌, ◌≤◌, ℕ, [], map, length, get_or, slice_index, Some, slice_get, IfOk, IsTrue};
ghost use Rattle.sync_model.specs.Journal.{KeepsEdges, is_such};
ghost use Rattle.shared_checks.specs.Edges.{AreNotes};
ghost use Rattle.run_record.specs.Edges.{frees, takes};
ghost use Rattle.object_checks.specs.JournalItems.{entry_in, journals_in, HaveFronts};
ghost use Rattle.object_checks.specs.JournalParts.{KeepAllEdges};

use crate::journals::row::Row;
use flight_core::FlightCore;
use mutex_core::MutexCore;
use pool_core::PartCore;
use run_record::{ObjectEvent, ObjectReply};
use rw_core::RwCore;
use sema_core::SemaCore;
use shared_checks::laws::notes_stand_for_a_journal;
use shared_checks::{Counts, Note, keeps_edges};
use starts_core::StartsCore;
use std::alloc::{AllocError, Global};
use sync_model::{Deed, MAX_CALLERS, Machine};
use sync_types::Seq;
use wait_cores::{GroupCore, NotifyCore, OnceCore};

// Whether an event with this answer releases.
fn frees(event: &ObjectEvent, reply: &ObjectReply) -> bool
    ensures { result ≡ frees event.now reply.now }
{
    match (event, reply) {
        (ObjectEvent::Mutex(event), ObjectReply::Mutex(reply)) => MutexCore::releases(event, reply),
        (ObjectEvent::RwMutex(event), ObjectReply::RwMutex(reply)) => RwCore::releases(
            event, reply,
        ),
        (ObjectEvent::Cond(event), ObjectReply::Cond(reply)) => NotifyCore::releases(event, reply),
        (ObjectEvent::WaitGroup(event), ObjectReply::WaitGroup(reply)) => GroupCore::releases(
            event, reply,
        ),
        (ObjectEvent::Once(event), ObjectReply::Once(reply)) => OnceCore::<i64>::releases(
            event, reply,
        ),
        (ObjectEvent::OnceFunc(event), ObjectReply::OnceFunc(reply)) => OnceCore::<u32>::releases(
            event, reply,
        ),
        (ObjectEvent::OnceValue(event), ObjectReply::OnceValue(reply)) => OnceCore::<u64>::releases(
            event, reply,
        ),
        (ObjectEvent::Pool(event), ObjectReply::Pool(reply)) => PartCore::releases(event, reply),
        (ObjectEvent::Sema(event), ObjectReply::Sema(reply)) => SemaCore::releases(event, reply),
        (ObjectEvent::Flight(event), ObjectReply::Flight(reply)) => FlightCore::releases(
            event, reply,
        ),
        (ObjectEvent::Starts(event), ObjectReply::Starts(reply)) => StartsCore::releases(
            event, reply,
        ),
        _ => false,
    }
}

// Whether an event with this answer acquires.
fn takes(event: &ObjectEvent, reply: &ObjectReply) -> bool
    ensures { result ≡ takes event.now reply.now }
{
    match (event, reply) {
        (ObjectEvent::Mutex(event), ObjectReply::Mutex(reply)) => MutexCore::acquires(event, reply),
        (ObjectEvent::RwMutex(event), ObjectReply::RwMutex(reply)) => RwCore::acquires(
            event, reply,
        ),
        (ObjectEvent::Cond(event), ObjectReply::Cond(reply)) => NotifyCore::acquires(event, reply),
        (ObjectEvent::WaitGroup(event), ObjectReply::WaitGroup(reply)) => GroupCore::acquires(
            event, reply,
        ),
        (ObjectEvent::Once(event), ObjectReply::Once(reply)) => OnceCore::<i64>::acquires(
            event, reply,
        ),
        (ObjectEvent::OnceFunc(event), ObjectReply::OnceFunc(reply)) => OnceCore::<u32>::acquires(
            event, reply,
        ),
        (ObjectEvent::OnceValue(event), ObjectReply::OnceValue(reply)) => OnceCore::<u64>::acquires(
            event, reply,
        ),
        (ObjectEvent::Pool(event), ObjectReply::Pool(reply)) => PartCore::acquires(event, reply),
        (ObjectEvent::Sema(event), ObjectReply::Sema(reply)) => SemaCore::acquires(event, reply),
        (ObjectEvent::Flight(event), ObjectReply::Flight(reply)) => FlightCore::acquires(
            event, reply,
        ),
        (ObjectEvent::Starts(event), ObjectReply::Starts(reply)) => StartsCore::acquires(
            event, reply,
        ),
        _ => false,
    }
}

// A front as counts.
fn counts_of(front: &[u64]) -> Counts
    requires { length front.now ≤ 64 }
    ensures { (c : ℕ) → slice_index front.now c ≡ slice_index result.of c }
{
    let mut of = [0; MAX_CALLERS];
    for (caller, count) in front.iter().enumerate() {
        of[caller] = *count;
    }
    Counts { of }
}

// What the edge law asks of an entry.
fn note_of(row: &Row<'_>) -> Note
    requires { length row.now.item.now.front ≤ 64 }
    ensures frees { is_such frees row.now.item.now.deed ≡ result.frees }
    ensures takes { is_such takes row.now.item.now.deed ≡ result.takes }
    ensures front { (c : ℕ) → slice_index row.now.item.now.front c ≡ slice_index result.front.of c }
{
    let item = row.item;
    let front = counts_of(item.front.as_slice());
    match &item.deed {
        Deed::Event(event, reply) => Note {
            frees: frees(event, reply),
            takes: takes(event, reply),
            front,
        },
        _ => Note {
            frees: false,
            takes: false,
            front,
        },
    }
}

// The notes of a journal's entries.
fn notes_of(alloc: Global, journal: &[Row<'_>]) -> Result<Vec<Note>, AllocError>
    requires { HaveFronts journal.now }
    ensures { IfOk result (λ notes. AreNotes frees takes (map entry_in journal.now) notes.items) }
{
    let mut notes = Vec::new(alloc);
    for row in journal {
        notes.push(note_of(row))?;
    }
    Ok(notes)
}

/// Whether a journal keeps the edge law: each entry that acquires knew what each one before it knew that releases.
pub fn keeps_the_edge_law(alloc: Global, journal: &[Row<'_>]) -> Result<bool, AllocError>
    requires { HaveFronts journal.now }
    ensures { IfOk result (λ keeps. IsTrue keeps ↔ KeepsEdges frees takes (map entry_in journal.now)) }
{
    notes_stand_for_a_journal::<ObjectEvent, ObjectReply>();
    let notes = notes_of(alloc, journal)?;
    Ok(keeps_edges(&notes))
}

/// Whether the journal of each object keeps the edge law.
pub fn keep_all_edges(alloc: Global, journals: &[Seq<Row<'_>>]) -> Result<bool, AllocError>
    requires { (object : ℕ) → HaveFronts (get_or journals.now object []) }
    ensures { IfOk result (λ keep. IsTrue keep ↔ KeepAllEdges (journals_in journals.now)) }
{
    for journal in journals {
        if !keeps_the_edge_law(alloc, journal.as_slice())? {
            return Ok(false);
        }
    }
    Ok(true)
}

/// Whether each front of the journals counts the calls of 64 workers at most.
pub fn fronts_fit(journals: &[Seq<Row<'_>>]) -> bool
    ensures { IsTrue result ↔ ((object : ℕ) → HaveFronts (get_or journals.now object [])) }
{
    for journal in journals {
        if !each_front_fits(journal.as_slice()) {
            return false;
        }
    }
    true
}

fn each_front_fits(journal: &[Row<'_>]) -> bool
    ensures { IsTrue result ↔ HaveFronts journal.now }
{
    for row in journal {
        if !front_fits(row) {
            return false;
        }
    }
    true
}

fn front_fits(row: &Row<'_>) -> bool
    ensures { IsTrue result ↔ (length row.now.item.now.front ≤ 64) }
{
    row.item.front.len() <= MAX_CALLERS
}
