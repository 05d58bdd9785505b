//! Sets of callers.
ghost use Rattle.std.specs.Prelude.{◌≢◌, ℕ, ◌<◌, ◌↔◌, IfSome, IfNone};
ghost use Rattle.sync_model.specs.Callers.{Has};

use std::marker::Model;

/// The callers of one object that an event lets go on, each by its number, 0 to 63. A caller that is left out sleeps on:
/// no clause of a contract says who is to be in it, so tests do.
#[derive(Clone, Copy)]
pub struct Callers {
    bits: u64,
}

impl Model for Callers {
    ghost Value = { ℕ };

    ghost view = { λ c. c.bits };

    ghost inverse = { λ n. record { bits = n } };
}

impl Callers {
    /// No caller.
    pub fn nobody() -> Self
        ensures { (caller : ℕ) → Has result caller → ⊥ }
    {
        Callers { bits: 0 }
    }

    /// These callers and one more. A number of 64 or more is no caller's, and adds nobody.
    pub fn with(self, caller: u32) -> Self
        ensures added { caller < 64 → Has result caller }
        ensures others { (other : ℕ) → other ≢ caller → Has result other ↔ Has self other }
    {
        if caller >= 64 {
            return self;
        }
        Callers {
            bits: self.bits | 1 << caller,
        }
    }

    /// Takes the caller of the lowest number out, if there is one.
    pub fn take_first(&mut self) -> Option<u32>
        ensures taken { IfSome result (λ caller. Has self.old caller × (Has self.new caller → ⊥)) }
        ensures others { IfSome result (λ caller. (other : ℕ) → other < 64 → other ≢ caller → Has self.new other ↔ Has self.old other) }
        ensures fewer { IfSome result (λ caller. self.new < self.old) }
        ensures none { IfNone result ((caller : ℕ) → Has self.old caller → ⊥) }
    {
        if self.bits == 0 {
            return None;
        }
        let first = self.bits.trailing_zeros();
        self.bits &= !(1 << first);
        Some(first)
    }
}
