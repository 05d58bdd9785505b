//! How many words a load looked at.
ghost use Rattle.std.specs.Prelude.{◌≡◌, ℕ, ◌+◌, ◌<◌, ◌^◌};

use std::marker::Model;
use std::sync::Wait;
use std::sync::ledger::{Blank, Book, Ledger, Share};

/// Counts the reads of a table's words. No call can set it back: it stands for a ledger's total, which only grows. It rises by the
/// reading steps alone, by one for each look at a word. To make one takes a handle that lets its caller wait. A load has none, so it
/// can't count on a counter of its own.
#[derive(Drop)]
pub struct Steps<L: Ledger> {
    book: Book<L>,
    share: Share<L>,
    shown: u64,
}

impl<L: Ledger> Model for Steps<L> {
    ghost Value = { ℕ };

    ghost view = { λ s. s.book.total };

    ghost invariant = { λ s. (0 < s.share.parts) × (s.book.total < 2 ^ 64 → s.shown ≡ s.book.total) };
}

impl<L: Ledger> Steps<L> {
    /// No read yet.
    pub fn new<R: Wait>(_rt: &R, blank: Blank) -> Self
        requires name { blank.name ≡ L.name }
        requires parts { (blank.parts ≡ L.parts) × (0 < L.parts) }
        ensures { result ≡ 0 }
    {
        let (book, share) = blank.open();
        Steps {
            book,
            share,
            shown: 0,
        }
    }

    /// The number of reads so far. It stands still at the end of its type.
    pub fn count(&self) -> u64
        ensures { self.now < 2 ^ 64 → result ≡ self.now }
    {
        self.shown
    }

    // One more look at a word.
    pub(crate) fn tick(&mut self)
        ensures { self.new ≡ self.old + 1 }
    {
        self.book.add(&mut self.share, 1);
        self.shown = self.shown.saturating_add(1);
    }
}
