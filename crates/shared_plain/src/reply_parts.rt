//! What a call on a map takes, and what is in a reply.
ghost use Rattle.std.specs.Prelude.{◌≡◌};
ghost use Rattle.sync_types.specs.declared.atomic_object.AtomicReply.{AtomicReply};
ghost use Rattle.sync_types.specs.declared.map_object.MapReply.{MapReply};
ghost use Rattle.sync_model.specs.declared.item.SharedReply.TheVariants as replies;
ghost use Rattle.sync_model.specs.Shared.{cost_of};

use sync_model::SharedReply;
use sync_types::{AtomicReply, MapCall, MapReply};

// How many entries of its spare ones a call on a map takes.
pub(crate) fn cost_of(call: &MapCall<u32>) -> u32
    ensures { result ≡ cost_of call.now }
{
    match call {
        MapCall::Load { .. } => 0,
        MapCall::Store { .. } => 1,
        MapCall::LoadOrStore { .. } => 1,
        MapCall::LoadAndDelete { .. } => 1,
        MapCall::Delete { .. } => 1,
        MapCall::Swap { .. } => 1,
        MapCall::CompareAndSwap { .. } => 1,
        MapCall::CompareAndDelete { .. } => 1,
        MapCall::Clear => 1,
    }
}

// The reply of a map.
pub(crate) fn in_map(reply: SharedReply) -> MapReply
    requires { (inner : MapReply) × (reply ≡ replies.Map inner) }
    ensures { reply ≡ replies.Map result }
{
    match reply {
        SharedReply::Map(inner) => inner,
        SharedReply::Begun => unreachable!(),
        SharedReply::Shown(_) => unreachable!(),
        SharedReply::Atomic(_) => unreachable!(),
    }
}

// The reply of an atomic.
pub(crate) fn in_atomic(reply: SharedReply) -> AtomicReply
    requires { (inner : AtomicReply) × (reply ≡ replies.Atomic inner) }
    ensures { reply ≡ replies.Atomic result }
{
    match reply {
        SharedReply::Atomic(inner) => inner,
        SharedReply::Begun => unreachable!(),
        SharedReply::Shown(_) => unreachable!(),
        SharedReply::Map(_) => unreachable!(),
    }
}
