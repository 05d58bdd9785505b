//! What a call's reply says, for calls whose replies have one form.
ghost use Rattle.std.specs.Prelude.{◌≡◌, ℕ, Bool, Option};

use sync_types::MapReply;

// The value that was found.
pub(crate) fn found_in(reply: MapReply) -> Option<u64>
    requires { (found : Option ℕ) × (reply ≡ MapReply.Found found) }
    ensures { reply ≡ MapReply.Found result }
{
    match reply {
        MapReply::Found(found) => found,
        _ => unreachable!(),
    }
}

// The value that is there now, and whether it was there before.
pub(crate) fn settled_in(reply: MapReply) -> (u64, bool)
    requires { (value : ℕ) × (loaded : Bool) × (reply ≡ MapReply.Settled value loaded) }
    ensures { reply ≡ MapReply.Settled result.0 result.1 }
{
    match reply {
        MapReply::Settled { value, loaded } => (value, loaded),
        _ => unreachable!(),
    }
}

// Whether the key had the old value.
pub(crate) fn compared_in(reply: MapReply) -> bool
    requires { (same : Bool) × (reply ≡ MapReply.Compared same) }
    ensures { reply ≡ MapReply.Compared result }
{
    match reply {
        MapReply::Compared(same) => same,
        _ => unreachable!(),
    }
}
