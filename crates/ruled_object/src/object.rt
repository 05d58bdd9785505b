//! An object that callers share.
ghost use Rattle.std.specs.Prelude.{◌≡◌, ◌<◌, ◌≤◌, vec_len};

use crate::cell::Cell;
use crate::rule::{Begin, Turns};
use crate::view::View;
use atomic_table::Table;
use std::alloc::Global;
use std::thread::Parker;
use sync_model::{Note, Worded};

/// One machine, shared by its callers. Who has the word works on the cell where it lies.
#[derive(Drop)]
pub struct Object<M: Worded, N: Note> {
    pub(crate) table: Table<
        Option<Cell<M::State, N>>,
        View<M::Event, M::Reply>,
        Begin<M::State, N>,
        Turns<M, N>,
        Global,
    >,
    pub(crate) parkers: Vec<Parker>,
    ghost sized: { (table.shared.table_id.words ≡ 2) × (table.shared.table_id.slots ≡ 1) },
    ghost callers: { (vec_len parkers ≡ table.shared.key.callers) × (0 < table.shared.key.callers) × (table.shared.key.callers ≤ 64) },
}
