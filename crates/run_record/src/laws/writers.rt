//! What the events of a writer's lock are. Each law is the contract of a function that does nothing.
ghost use Rattle.std.specs.Prelude.{◌≡◌, ◌≢◌, ◌↔◌, ℕ, true, List, [], ◌∷◌, ◌++◌, Ok};
ghost use Rattle.protocols.specs.Spelling.{CallAnswer};
ghost use Rattle.run_record.specs.RwMutexKind.{RwDeed, is_still, WriteLocks, EndsAtFirst};

use rw_core::{Arrival, Resumption, RwEvent, RwReply};
use sync_model::{Answer, Deed};
use sync_types::LockReply;

/// A writer that was queued when it arrived, and was granted the lock by the last reader, leaves: these two events are its lock. The
/// arrival alone is none yet. A writer may also ask whether it goes on, and be answered `Still`. Between the first and the last event of
/// its lock each such answer may be put in or left out.
pub fn a_granted_writer_leaves()
    ensures leaves { (now : ℕ)
        → WriteLocks (Deed.Event (RwEvent.WriteArrive now) (RwReply.Arrived Arrival.Queued) ∷ Deed.Event RwEvent.Leave RwReply.Left ∷ []) (Answer.Done (Ok LockReply.Done)) }
    ensures waits { (now : ℕ) (answer : CallAnswer LockReply)
        → WriteLocks (Deed.Event (RwEvent.WriteArrive now) (RwReply.Arrived Arrival.Queued) ∷ []) answer → ⊥ }
    ensures stills { (first still : RwDeed) (earlier later : List RwDeed) (answer : CallAnswer LockReply)
        → is_still still ≡ true → later ≢ []
        → WriteLocks (first ∷ (earlier ++ still ∷ later)) answer ↔ WriteLocks (first ∷ (earlier ++ later)) answer }
{}

/// A writer goes on where it waits. One that has the mutex that writers go through, and waits behind readers, doesn't go on at that
/// mutex. One that lost that mutex against a newcomer doesn't leave.
pub fn a_writer_goes_on_where_it_waits()
    ensures behind { (arrived woken again : ℕ) (reply : Resumption) (answer : CallAnswer LockReply)
        → WriteLocks (Deed.Event (RwEvent.WriteArrive arrived) (RwReply.Arrived Arrival.Queued)
        ∷ Deed.Event (RwEvent.WriteWoken woken) (RwReply.Resumed Resumption.Queued) ∷ Deed.Event (RwEvent.WriteWoken again) (RwReply.Resumed reply) ∷ []) answer
        → ⊥ }
    ensures inner { (arrived woken : ℕ) (answer : CallAnswer LockReply)
        → WriteLocks (Deed.Event (RwEvent.WriteArrive arrived) (RwReply.Arrived Arrival.Queued)
        ∷ Deed.Event (RwEvent.WriteWoken woken) (RwReply.Resumed Resumption.Requeued) ∷ Deed.Event RwEvent.Leave RwReply.Left ∷ []) answer
        → ⊥ }
{}

/// A writer's lock ends at its first event that acquires the lock, or that a halt refused. So no lock goes on behind another's end.
pub fn a_writers_lock_ends_once()
    ensures { (deeds : List RwDeed) (answer : CallAnswer LockReply) → WriteLocks deeds answer → EndsAtFirst deeds answer }
{}
