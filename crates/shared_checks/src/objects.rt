//! Maps and atomics for one thread, as a shared history plays them: what a call answers there, whether it is an entry, and what
//! it leaves.
ghost use Rattle.std.specs.Prelude.{◌≡◌, ◌↔◌, IsTrue, true, OnOk, OnErr};
ghost use Rattle.sync_model.specs.SharedHistory.{IsReply, is_entry, shared_after};
ghost use Rattle.shared_checks.specs.Placing.{contents_of, IsOn};

use crate::number_map::NumberMap;
use std::alloc::AllocError;
use sync_model::{SharedCall, SharedReply};
use sync_types::atomic_object::apply;
use sync_types::{AtomicCall, AtomicReply, MapReply, Number};

/// What all maps and atomics contain.
#[derive(Drop)]
pub struct Objects {
    pub maps: Vec<NumberMap>,
    pub numbers: Vec<Number>,
}

impl Objects {
    /// Whether a call answers this here.
    pub fn answers(&self, call: &SharedCall, reply: &SharedReply) -> bool
        requires { IsOn (contents_of self.now) call.now }
        ensures { IsTrue result ↔ IsReply call.now reply.now (contents_of self.now) }
    {
        match (call, reply) {
            (SharedCall::Map { map, call }, SharedReply::Map(reply)) => {
                is_same_reply(&self.maps[*map as usize].reply(call), reply)
            }
            (SharedCall::Begin { .. }, SharedReply::Begun) => true,
            (SharedCall::Next { .. }, SharedReply::Shown(_)) => true,
            (SharedCall::Atomic { atomic, call }, SharedReply::Atomic(reply)) => {
                let mut number = self.numbers[*atomic as usize];
                apply(&mut number, *call) == *reply
            }
            _ => false,
        }
    }

    /// Whether a call is an entry of the history here.
    pub fn is_entry(&self, call: &SharedCall) -> bool
        requires { IsOn (contents_of self.now) call.now }
        ensures { result ≡ is_entry call.now (contents_of self.now) }
    {
        match call {
            SharedCall::Map { map, call } => self.maps[*map as usize].is_entry(call),
            SharedCall::Begin { .. } | SharedCall::Next { .. } => false,
            SharedCall::Atomic { atomic, call } => {
                let mut number = self.numbers[*atomic as usize];
                let reply = apply(&mut number, *call);
                match call {
                    AtomicCall::Load => false,
                    AtomicCall::CompareAndSwap { .. } => reply == AtomicReply::Compared(true),
                    _ => true,
                }
            }
        }
    }

    /// Makes a call that is an entry here. Where memory is out all stays as it was.
    pub fn enter(&mut self, call: &SharedCall) -> Result<(), AllocError>
        requires on { IsOn (contents_of self.old) call.now }
        requires entry { is_entry call.now (contents_of self.old) ≡ true }
        ensures ok { OnOk result (contents_of self.new ≡ shared_after call.now (contents_of self.old)) }
        ensures err { OnErr result (contents_of self.new ≡ contents_of self.old) }
    {
        match call {
            SharedCall::Map { map, call } => self.maps[*map as usize].enter(call)?,
            SharedCall::Begin { .. } | SharedCall::Next { .. } => {}
            SharedCall::Atomic { atomic, call } => {
                apply(&mut self.numbers[*atomic as usize], *call);
            }
        }
        Ok(())
    }
}

// Whether two replies of maps are the same.
fn is_same_reply(one: &MapReply, other: &MapReply) -> bool
    ensures { IsTrue result ↔ (other.now ≡ one.now) }
{
    match (one, other) {
        (MapReply::Done, MapReply::Done) => true,
        (MapReply::Found(one), MapReply::Found(other)) => *one == *other,
        (
            MapReply::Settled { value, loaded },
            MapReply::Settled {
                value: other_value,
                loaded: other_loaded,
            },
        ) => *value == *other_value && *loaded == *other_loaded,
        (MapReply::Compared(one), MapReply::Compared(other)) => *one == *other,
        _ => false,
    }
}
