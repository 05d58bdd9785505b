//! `Plain`: a map and an int64 whose calls take turns.
ghost use Rattle.std.specs.Prelude.{◌≡◌, ◌∷◌, []};
ghost use Rattle.sync_types.specs.declared.atomic_object.AtomicKind.TheVariants.{Int64};
ghost use Rattle.sync_model.specs.Shared.{IsCallerAt};
ghost use Rattle.shared_plain.specs.Marks.{own_by, IsMarkOf};
ghost use Rattle.shared_plain.specs.Plains.{keys_of, kinds_of, maps_of};

use crate::map_and_int::MapAndInt;
use shared_plain::{Mark, Plain};
use std::alloc::{AllocError, Global};
use std::sync::Wait;
use sync_model::{Caller, Shared};
use sync_types::{AtomicCall, AtomicKind, MapCall, MapReply, Number};

/// How many keys a plain map takes.
const PLAIN_KEYS: u32 = 4_096;

/// A plain map and a plain int64. A key is taken for what it leaves when it is divided by 4,096.
#[derive(Drop)]
pub struct PlainObjects {
    plain: Plain,
    ghost maps: { maps_of plain ≡ 1 },
    ghost keys: { keys_of plain ≡ 4_096 },
    ghost kinds: { kinds_of plain ≡ Int64 ∷ [] },
}

impl MapAndInt for PlainObjects {
    type Mark = Mark;

    ghost has_caller = { λ objects caller. IsCallerAt IsMarkOf own_by objects.plain caller };

    fn new(alloc: Global, spare: &[u32]) -> Result<(Self, Vec<Caller<Mark>>), AllocError> {
        let (plain, callers) = Plain::new(alloc, &[AtomicKind::Int64], 1, PLAIN_KEYS, spare)?;
        Ok((PlainObjects { plain }, callers))
    }

    fn load<R: Wait>(&self, rt: &R, caller: &mut Caller<Mark>, key: u32) -> bool {
        let key = key % PLAIN_KEYS;
        let reply = self.plain.map_call(rt, caller, 0, MapCall::Load { key });
        matches!(reply, MapReply::Found(Some(_)))
    }

    fn store<R: Wait>(&self, rt: &R, caller: &mut Caller<Mark>, key: u32) {
        let key = key % PLAIN_KEYS;
        self.plain
            .map_call(rt, caller, 0, MapCall::Store { key, value: 1 });
    }

    fn delete<R: Wait>(&self, rt: &R, caller: &mut Caller<Mark>, key: u32) {
        let key = key % PLAIN_KEYS;
        self.plain.map_call(rt, caller, 0, MapCall::Delete { key });
    }

    fn add<R: Wait>(&self, rt: &R, caller: &mut Caller<Mark>) {
        let one = AtomicCall::Add {
            operand: Number::Int64(1),
        };
        self.plain.atomic_call(rt, caller, 0, one);
    }
}
