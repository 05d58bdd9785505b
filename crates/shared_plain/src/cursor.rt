//! What a cursor keeps of its steps.
ghost use Rattle.std.specs.Prelude.{◌≡◌, ◌≢◌, ℕ, ◌+◌, ◌-◌, ◌^◌, ◌<◌, Option, Some};
ghost use Rattle.sync_model.specs.declared.item.SharedReply.TheVariants as replies;
ghost use Rattle.shared_plain.specs.Walks.{spot_behind};

use crate::event::Event;
use std::sync::Wait;
use sync_model::SharedReply;

/// A walk over the keys of a map, as Go's `Range` makes it: each step shows the least key behind the last one shown that is
/// there at the step.
#[derive(Drop)]
pub struct Cursor {
    pub(crate) map: u32,
    // The number of the call that began it, among all shared calls of its caller.
    pub(crate) begin: u64,
    // Behind the last key shown: all keys below are passed.
    pub(crate) from: u32,
}

impl Cursor {
    // Its next step.
    pub(crate) fn step(&self) -> Event
        ensures { result ≡ Event.Next self.now.map self.now.begin self.now.from }
    {
        Event::Next {
            map: self.map,
            begin: self.begin,
            from: self.from,
        }
    }
}

// The number of a caller's next shared call. A caller whose count stands at the type's last value waits for ever: no
// caller comes there, at a call a nanosecond for 584 years.
pub(crate) fn next_number<R: Wait>(rt: &R, done: u64) -> u64
    ensures { (result ≡ done) × (result ≢ 2 ^ 64 - 1) }
{
    if done < u64::MAX {
        return done;
    }
    for _ in rt.forever() {}
    unreachable!()
}

// Where a cursor over keys below `keys` stands that stood at `from` and showed this.
pub(crate) fn behind(from: u32, shown: Option<(u32, u64)>, keys: u32) -> u32
    requires { (key value : ℕ) → shown ≡ Some (key, value) → key < keys }
    ensures { result ≡ spot_behind shown from }
{
    match shown {
        None => from,
        Some((key, _)) => key + 1,
    }
}

// What a step of a cursor shows.
pub(crate) fn in_shown(reply: SharedReply) -> Option<(u32, u64)>
    requires { (shown : Option (ℕ × ℕ)) × (reply ≡ replies.Shown shown) }
    ensures { reply ≡ replies.Shown result }
{
    match reply {
        SharedReply::Shown(shown) => shown,
        SharedReply::Begun => unreachable!(),
        SharedReply::Map(_) => unreachable!(),
        SharedReply::Atomic(_) => unreachable!(),
    }
}
