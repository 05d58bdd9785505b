//! New tables.
ghost use Rattle.std.specs.Prelude.{◌≡◌, ◌+◌, ◌<◌, ◌≤◌, [], All, IfOk, length, sum};
ghost use Rattle.table_words.specs.Seats.{begin_of, IsSeatOf};
ghost use Rattle.sync_model.specs.Shared.{IsCallerAt};
ghost use Rattle.shared_table.specs.Notes.{own_by, IsNoteOf};
ghost use Rattle.shared_table.specs.NewCallers.{AreNewCallers};
ghost use Rattle.shared_table.specs.Tables.{kinds_of, maps_of, caller_count, seed_of};
ghost use Rattle.table_rule.specs.Views.{first_view};

use crate::note::SharedNote;
use crate::table::SharedTable;
use atomic_table::Seat;
use stamps::Stamp;
use std::alloc::{AllocError, Global};
use sync_model::{Caller, MAX_CALLERS};
use sync_types::{AtomicKind, Seq};
use table_words::{Begin, TableWords, View};

/// The most maps and atomics, together, of a table.
pub const MAX_OBJECTS: u32 = 1_000;

/// The most units of words of all callers of a table together.
pub const MAX_UNITS: u32 = 1_000_000;

impl SharedTable {
    /// A table of so many empty maps and of an atomic of each of these types, which is 0 or false, with its callers in order
    /// of number. There is a caller for each number of `spare`, which has so many units of 128 words: a call on a map that
    /// may store takes one. No other call takes memory. While the table is made its words stand in memory twice.
    pub fn new(
        alloc: Global,
        kinds: &[AtomicKind],
        maps: u32,
        seed: u32,
        spare: &[u32],
    ) -> Result<(Self, Vec<Caller<SharedNote>>), AllocError>
        requires callers { (0 < length spare.now) × (length spare.now ≤ MAX_CALLERS) }
        requires objects { length kinds.now + maps ≤ MAX_OBJECTS }
        requires units { sum spare.now ≤ MAX_UNITS }
        ensures table { IfOk result (λ made. (kinds_of made.0 ≡ kinds.now) × (maps_of made.0 ≡ maps) × (seed_of made.0 ≡ seed) × (caller_count made.0 ≡ length spare.now)) }
        ensures callers { IfOk result (λ made. AreNewCallers made.0 spare.now made.1.items) }
        ensures each { IfOk result (λ made. All (IsCallerAt IsNoteOf own_by made.0) made.1.items) }
    {
        let begin = Begin {
            kinds: Seq::from_vec(Vec::from_slice(alloc, kinds)?),
            maps,
            seed,
            spares: Seq::from_vec(Vec::from_slice(alloc, spare)?),
        };
        let (words, all) = TableWords::new(alloc, begin)?;
        let table = SharedTable { words };
        let callers = table.first_callers(alloc, all)?;
        Ok((table, callers))
    }

    // A caller with each seat, and with its own room.
    fn first_callers(
        &self,
        alloc: Global,
        mut all: Seat<(), View>,
    ) -> Result<Vec<Caller<SharedNote>>, AllocError>
        requires all { IsSeatOf self.now.words all × (all.me ≡ (first_view (begin_of self.now.words), [])) }
        ensures { IfOk result (λ callers. AreNewCallers self.now (begin_of self.now.words).spares callers.items) }
    {
        let spares = self.words.spare_units();
        let mut callers = Vec::with_capacity(alloc, spares.len())?;
        let mut next = self.words.room_start();
        for number in 0..spares.len() {
            let spare = spares[number];
            let seat = self.words.deal(&mut all);
            let note = SharedNote {
                seat,
                number: number as u32,
                next,
                spare,
                stamp: Stamp::first(),
            };
            callers.push_reserved(Caller { note });
            next += 128 * spare as u64;
        }
        Ok(callers)
    }
}
