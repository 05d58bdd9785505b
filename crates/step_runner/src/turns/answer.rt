//! What a turn means for a call.
use script_calls::Reply;
use sync_types::{Misuse, Name};

/// What a turn means for the call before which its worker stands.
#[derive(Drop)]
pub enum Answer {
    /// The worker makes no event: it waits, and nobody has told it to go on.
    Still,
    /// The worker makes an event after which the call has not returned: another turn goes on with it.
    Unfinished,
    /// The worker makes an event that completes the call, with this reply, whose keys are named.
    Completed(Reply<Name>),
    /// The call is a misuse, which isn't completed.
    Misused(Misuse),
}
