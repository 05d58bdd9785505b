//! What a map has, by one walk.
ghost use Rattle.std.specs.Prelude.{◌≡◌, ◌<◌, ◌^◌, All, IfOk};
ghost use Rattle.sync_model.specs.Shared.{IsCallerAt};
ghost use Rattle.shared_table.specs.Notes.{own_by, IsNoteOf};
ghost use Rattle.go_sync.specs.MapWalks.{Walks};

use super::MapCaller;
use go_map::{Cursor, Map};
use shared_table::SharedNote;
use std::alloc::{AllocError, Global};
use std::sync::Wait;
use sync_model::Caller;

impl MapCaller<'_> {
    /// Go's `Range`, whose pairs are gathered: no key twice, each with a value that it had at some moment of the walk.
    pub fn pairs<R: Wait>(&mut self, rt: &R, alloc: Global) -> Result<Vec<(u32, u64)>, AllocError>
        ensures map { self.new.map ≡ self.old.map }
        ensures found { IfOk result (λ pairs. All (λ pair. pair.1 < 2 ^ 63) pairs.items) }
        ensures walked { IfOk result (λ pairs. Walks self.old.map.table.now self.old.map.number pairs.items self.old.caller.note self.new.caller.note) }
    {
        walked(rt, alloc, &self.map, &mut self.caller)
    }
}

// The pairs that a walk over the map shows.
fn walked<R: Wait>(
    rt: &R,
    alloc: Global,
    map: &Map,
    caller: &mut Caller<SharedNote>,
) -> Result<Vec<(u32, u64)>, AllocError>
    requires { IsCallerAt IsNoteOf own_by map.now.table.now caller.old }
    ensures caller { IsCallerAt IsNoteOf own_by map.now.table.now caller.new }
    ensures found { IfOk result (λ pairs. All (λ pair. pair.1 < 2 ^ 63) pairs.items) }
    ensures walked { IfOk result (λ pairs. Walks map.now.table.now map.now.number pairs.items caller.old.note caller.new.note) }
{
    let mut pairs = Vec::new(alloc);
    let mut cursor = Cursor::begin(map, caller);
    for _ in rt.forever() {
        let Some(pair) = cursor.next(map, caller) else {
            return Ok(pairs);
        };
        pairs.push(pair)?;
    }
    unreachable!()
}
