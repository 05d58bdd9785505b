//! What holds of every journal of a running lock. What a pass shows of the journal is such a one (`IsLawful`), and
//! so is the whole of it after `first_halt`.
ghost use Rattle.std.specs.Prelude.{◌≡◌, ℕ, ◌<◌, ◌≤◌, true, IsTrue, ◌∷◌, ◌++◌, length, filter, None};
ghost use Rattle.std.specs.List.{list_any};
ghost use Rattle.sync_model.specs.declared.journal.Deed.TheVariants.{Event};
ghost use Rattle.sync_model.specs.declared.journal.Entry.{Entry};
ghost use Rattle.sync_model.specs.Journal.{log_of, state_after, Follows};
ghost use Rattle.mutex_core.specs.declared.event.MutexEvent.{MutexEvent};
ghost use Rattle.mutex_core.specs.declared.reply.Arrival.{Arrival};
ghost use Rattle.mutex_core.specs.declared.reply.MutexReply.{MutexReply};
ghost use Rattle.mutex_core.specs.MutexMachine as mutex;
ghost use Rattle.mutex_core.specs.HandOff.{HandsOff};
ghost use Rattle.rw_core.specs.declared.event.RwEvent.{RwEvent};
ghost use Rattle.rw_core.specs.declared.reply.Arrival.TheVariants as rw_arrival;
ghost use Rattle.rw_core.specs.declared.reply.RwReply.{RwReply};
ghost use Rattle.rw_core.specs.RwMachine as rw_lock;
ghost use Rattle.go_locks.specs.Exclusion.{acquires_mutex, unlocks_mutex, acquires_lock, acquires_writing, acquires_reading, unlocks_writing, unlocks_reading};
ghost use Rattle.go_locks.specs.Mutexes.{MutexJournal};
ghost use Rattle.go_locks.specs.RwMutexes.{RwJournal};

use mutex_core::MutexCore;
use rw_core::RwCore;
use sync_model::laws::journals::journal_is_log;

/// Mutual exclusion: between two entries by which callers acquire the mutex it is unlocked.
pub fn mutual_exclusion()
    ensures { (callers : ℕ) (earlier between later : MutexJournal) (first second : Entry MutexEvent MutexReply)
        → Follows mutex.next true (mutex.start callers) None (earlier ++ first ∷ (between ++ second ∷ later))
        → IsTrue (acquires_mutex first) → IsTrue (acquires_mutex second)
        → IsTrue (list_any unlocks_mutex between) }
{
    journal_is_log::<MutexCore>();
    mutex_core::laws::mutual_exclusion();
}

/// The moment of an arrival by which a caller acquires the mutex, or a writer the reader/writer lock, decides nothing: at any
/// other moment the machine would have answered the same, and come to the same state.
pub fn a_newcomers_moment_decides_nothing()
    ensures of_mutex { (state : mutex.State) (caller now other : ℕ)
        → (mutex.next state caller (MutexEvent.Arrive now)).1 ≡ MutexReply.Arrived Arrival.Acquired
        → mutex.next state caller (MutexEvent.Arrive other) ≡ mutex.next state caller (MutexEvent.Arrive now) }
    ensures of_rw_mutex { (state : rw_lock.State) (caller now other : ℕ)
        → (rw_lock.next state caller (RwEvent.WriteArrive now)).1 ≡ RwReply.Arrived rw_arrival.Acquired
        → rw_lock.next state caller (RwEvent.WriteArrive other) ≡ rw_lock.next state caller (RwEvent.WriteArrive now) }
{
    mutex_core::laws::newcomers();
    rw_core::laws::newcomers();
}

/// In starvation mode an unlock hands the mutex to the foremost waiter: nobody else acquires it, however fast, and
/// where the mutex isn't halted before, the waiter has it as soon as it goes on.
pub fn hand_off()
    ensures { (callers : ℕ) (earlier later : MutexJournal) (unlock : Entry MutexEvent MutexReply) (reply : MutexReply)
        → Follows mutex.next true (mutex.start callers) None (earlier ++ unlock ∷ later)
        → unlock.deed ≡ Event MutexEvent.Unlock reply → unlock.caller < callers
        → IsTrue (state_after mutex.next (mutex.start callers) earlier).locked
        → IsTrue (state_after mutex.next (mutex.start callers) earlier).starving
        → HandsOff (state_after mutex.next (mutex.start callers) earlier).queue reply (log_of later) }
{
    journal_is_log::<MutexCore>();
    mutex_core::laws::hand_off();
}

/// Exclusion of readers and writers: after a writer has acquired the lock nobody else acquires it before a writer's
/// unlock, and after a reader has acquired it no writer does before a reader's unlock. Callers that were granted the lock
/// or admitted hold it too: from the moment at which a writer is announced, which it is until its unlock, nobody
/// acquires the lock before a writer's unlock, and before a writer acquires it as many unlocks of readers come as readers
/// hold it.
pub fn exclusion()
    ensures after_writer { (callers : ℕ) (earlier between later : RwJournal) (first second : Entry RwEvent RwReply)
        → Follows rw_lock.next true (rw_lock.start callers) None (earlier ++ first ∷ (between ++ second ∷ later))
        → IsTrue (acquires_writing first) → IsTrue (acquires_lock second)
        → IsTrue (list_any unlocks_writing between) }
    ensures after_reader { (callers : ℕ) (earlier between later : RwJournal) (first second : Entry RwEvent RwReply)
        → Follows rw_lock.next true (rw_lock.start callers) None (earlier ++ first ∷ (between ++ second ∷ later))
        → IsTrue (acquires_reading first) → IsTrue (acquires_writing second)
        → IsTrue (list_any unlocks_reading between) }
    ensures announced { (callers : ℕ) (earlier between later : RwJournal) (second : Entry RwEvent RwReply)
        → Follows rw_lock.next true (rw_lock.start callers) None (earlier ++ (between ++ second ∷ later))
        → IsTrue (rw_lock.is_announced (state_after rw_lock.next (rw_lock.start callers) earlier).writer)
        → IsTrue (acquires_lock second)
        → IsTrue (list_any unlocks_writing between) }
    ensures beside_readers { (callers : ℕ) (earlier between later : RwJournal) (second : Entry RwEvent RwReply)
        → Follows rw_lock.next true (rw_lock.start callers) None (earlier ++ (between ++ second ∷ later))
        → IsTrue (acquires_writing second)
        → (state_after rw_lock.next (rw_lock.start callers) earlier).readers ≤ length (filter unlocks_reading between) }
{
    journal_is_log::<RwCore>();
    rw_core::laws::exclusion();
    rw_core::laws::announced_writer();
}
