//! A table with an atomic of each type, and two callers.
ghost use Rattle.std.specs.Prelude.{IfOk, IfSome};
ghost use Rattle.table_tests.specs.MapPairs.{ArePair};

use shared_table::{SharedNote, SharedTable};
use std::alloc::{AllocError, Global};
use sync_model::Caller;
use sync_types::AtomicKind;

/// The table and its callers.
#[derive(Drop)]
pub(super) struct Pair {
    pub(super) table: SharedTable,
    pub(super) first: Caller<SharedNote>,
    pub(super) second: Caller<SharedNote>,
}

impl Pair {
    /// A new table.
    pub(super) fn new(alloc: Global) -> Result<Option<Self>, AllocError>
        ensures { IfOk result (λ made. IfSome made (λ pair. ArePair pair.table pair.first pair.second)) }
    {
        let kinds = [
            AtomicKind::Int32,
            AtomicKind::Int64,
            AtomicKind::Uint32,
            AtomicKind::Uint64,
            AtomicKind::Bool,
        ];
        let (table, mut callers) = SharedTable::new(alloc, &kinds, 1, 0, &[1, 1])?;
        let Some(second) = callers.pop() else {
            return Ok(None);
        };
        let Some(first) = callers.pop() else {
            return Ok(None);
        };
        Ok(Some(Pair {
            table,
            first,
            second,
        }))
    }
}
