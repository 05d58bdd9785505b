//! A new object.
ghost use Rattle.std.specs.Prelude.{◌≡◌, ◌<◌, ◌≤◌, [], All, None, IfOk, replicate, vec_len};
ghost use Rattle.ruled_object.specs.Gathered.{AreNew, Dealing};
ghost use Rattle.ruled_object.specs.Passes.{IsHomeOf, callers_of, start_of, turns_of};
ghost use Rattle.ruled_object.specs.Steps.{first_view, new_own, IsSameSeat};

use crate::cell::Cell;
use crate::object::Object;
use crate::pass::{Pass, PassOf};
use crate::rule::{Begin, Make, Silent};
use crate::turn::{SLOT, SeatOf, WORD};
use atomic_table::Table;
use std::alloc::{AllocError, Global};
use std::thread::Parker;
use sync_model::{HELD, MAX_CALLERS, Note, Worded};

/// The most calls that a pass is good for.
pub const MAX_CALLS: u64 = 1_000_000;

// A parker for each caller.
fn parkers(alloc: Global, callers: u32) -> Result<Vec<Parker>, AllocError>
    ensures { IfOk result (λ v. vec_len v ≡ callers) }
{
    let mut parkers = Vec::with_capacity(alloc, callers as usize)?;
    for _ in 0..callers {
        parkers.push_reserved(Parker::new());
    }
    Ok(parkers)
}

impl<M: Worded, N: Note> Object<M, N> {
    /// An object with this machine's state, and the passes of its callers, in order of number, each good for `calls`
    /// calls of the layers above. None has taken a turn. The object keeps `note` for what releasing events leave.
    pub fn new(
        alloc: Global,
        callers: u32,
        calls: u64,
        start: M::State,
        note: N,
    ) -> Result<(Self, Vec<PassOf<M, N>>), AllocError>
        requires callers { (0 < callers) × (callers ≤ MAX_CALLERS) }
        requires calls { calls ≤ MAX_CALLS }
        ensures object { IfOk result (λ made. (callers_of made.0 ≡ callers) × (start_of made.0 ≡ start) × ((home : N.Home) → N.at home note → IsHomeOf N.at made.0 home)) }
        ensures passes { IfOk result (λ made. AreNew made.0 calls made.1.items) }
        ensures turns { IfOk result (λ made. All (λ pass. turns_of pass ≡ 0) made.1.items) }
    {
        let parkers = parkers(alloc, callers)?;
        let begin = Begin {
            state: start,
            note,
            callers,
        };
        let (table, mut seat) = Table::vacant(alloc, &[HELD, 0], 1, &begin)?;
        let object = Object { table, parkers };
        let Begin { state, note, .. } = begin;
        object.fill(
            &mut seat,
            Cell {
                state,
                halted: None,
                note,
            },
        );
        let passes = object.first_passes(alloc, callers, calls, seat)?;
        Ok((object, passes))
    }

    // The making seat puts the first cell into the slot.
    fn fill(&self, seat: &mut SeatOf<M, N>, cell: Cell<M::State, N>)
        requires seat { (seat.old.table_id ≡ self.now.table.shared.table_id) × (seat.old.me ≡ (first_view (callers_of self.now), [])) }
        requires cell { (cell.state ≡ self.now.table.shared.key.state) × (cell.halted ≡ None) × (cell.note ≡ self.now.table.shared.key.note) }
        ensures seat { IsSameSeat seat.old seat.new × (seat.new.me.1 ≡ []) }
        ensures dealing { Dealing 0 [] (replicate (callers_of self.now) new_own) seat.new.me.0 }
    {
        let shared = &self.table.shared;
        let word = M::word(&cell.state);
        shared.store::<Make>(seat, WORD, HELD);
        drop(shared.exchange(seat, SLOT, Some(cell)));
        self.give_word::<Silent>(seat, word);
    }

    // A pass for each caller.
    fn first_passes(
        &self,
        alloc: Global,
        callers: u32,
        calls: u64,
        mut all: SeatOf<M, N>,
    ) -> Result<Vec<PassOf<M, N>>, AllocError>
        requires callers { callers ≡ callers_of self.now }
        requires all { (all.table_id ≡ self.now.table.shared.table_id) × (all.me.1 ≡ []) × Dealing 0 [] (replicate callers new_own) all.me.0 }
        ensures new { IfOk result (λ passes. AreNew self.now calls passes.items) }
        ensures turns { IfOk result (λ passes. All (λ pass. turns_of pass ≡ 0) passes.items) }
    {
        let mut passes = Vec::with_capacity(alloc, callers as usize)?;
        for number in 0..callers {
            let seat = self.deal(&mut all);
            passes.push_reserved(Pass {
                number,
                left: calls,
                turns: 0,
                seat,
            });
        }
        Ok(passes)
    }
}
