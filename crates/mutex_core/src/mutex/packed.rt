//! The word of a mutex, and a mutex that is brought up to date by it.
ghost use Rattle.std.specs.Prelude.{◌≡◌, ◌<◌, ◌≤◌, ◌^◌, false, length, IfNone, IfSome};
ghost use Rattle.mutex_core.specs.MutexMachine.{is_open, next};
ghost use Rattle.mutex_core.specs.Word.{bit, is_quiet, is_uncontended, told_by, word_of};

use super::MutexCore;
use crate::event::MutexEvent;
use crate::reply::{Arrival, MutexReply, Unlocking};
use crate::waiter::Flight;
use sync_types::Misuse;

// 1 for yes, 0 for no.
fn as_bit(yes: bool) -> u64
    ensures { (result ≡ bit yes) × (result ≤ 1) }
{
    if yes { 1 } else { 0 }
}

impl MutexCore {
    /// The packed word: 1 where the mutex is locked, 2 where a waiter is woken, 4 in starvation mode, and 8 for each waiter
    /// in the queue. A waiter that was handed the mutex is in the queue, a woken one isn't.
    pub fn word(&self) -> u64
        ensures word { (result ≡ word_of self.now) × (result < 2 ^ 63) }
        ensures kept { told_by self.now result ≡ self.now }
    {
        let woken = self.is_woken();
        as_bit(self.locked) + 2 * as_bit(woken) + 4 * as_bit(self.starving) + 8 * self.waiters()
    }

    // Whether a woken waiter is in flight.
    fn is_woken(&self) -> bool
        ensures { result ≡ self.now.woken }
    {
        match self.flight {
            Flight::Woken(_) => true,
            _ => false,
        }
    }

    // How many wait in the queue: no more than there are callers.
    fn waiters(&self) -> u64
        ensures { (result ≡ length self.now.queue) × (result < 2 ^ 32) }
    {
        let _most = self.callers();
        self.queue.len() as u64
    }

    /// Whether nobody waits and nobody is in flight.
    pub fn is_quiet(&self) -> bool
        ensures { result ≡ is_quiet self.now }
    {
        match self.flight {
            Flight::Nobody => self.queue.is_empty(),
            _ => false,
        }
    }

    /// Whether the word tells that the mutex is open: a newcomer acquires it at once. It does where neither its 1 nor its 4 is
    /// set: the mutex isn't locked, and not in starvation mode. The mutex may be older than the word.
    pub fn tells_open(&self, word: u64) -> bool
        requires { word ≡ word_of (told_by self.now word) }
        ensures { result ≡ is_open (told_by self.now word) }
    {
        word % 2 == 0 && word / 4 % 2 == 0
    }

    /// Brings a mutex up to date by the word. Where nobody waits and nobody is in flight the word tells whether it is
    /// locked; all else is as it is kept.
    pub fn refresh(&mut self, word: u64)
        ensures { self.new ≡ told_by self.old word }
    {
        if self.is_quiet() {
            self.locked = word == 1;
        }
    }

    /// An event that the word alone decides: the word after it, and the reply. The mutex may be older than the word, and
    /// stays as it is. It is `None` for every event that finds somebody waiting or in flight, or that queues its caller.
    pub fn quick(&self, word: u64, caller: u32, event: MutexEvent) -> Option<(u64, MutexReply)>
        requires { word_of (told_by self.now word) ≡ word }
        ensures decided { IfSome result (λ did. (next (told_by self.now word) caller event ≡ (told_by self.now did.0, did.1)) × (word_of (told_by self.now did.0) ≡ did.0) × (did.0 < 2 ^ 63)) }
        ensures left { IfNone result (is_uncontended (told_by self.now word) caller event ≡ false) }
    {
        let callers = self.callers;
        if word > 1 {
            return None;
        }
        if caller >= callers {
            return Some((word, MutexReply::Still));
        }
        match event {
            MutexEvent::Arrive { .. } if word == 1 => None,
            MutexEvent::Arrive { .. } => Some((1, MutexReply::Arrived(Arrival::Acquired))),
            MutexEvent::Try => Some((1, MutexReply::Tried(word == 0))),
            MutexEvent::Unlock if word == 1 => Some((0, MutexReply::Unlocked(Unlocking::Free))),
            MutexEvent::Unlock => Some((
                0,
                MutexReply::Unlocked(Unlocking::Misuse(Misuse::UnlockOfUnlockedMutex)),
            )),
            MutexEvent::Woken { .. } => Some((word, MutexReply::Still)),
        }
    }
}
