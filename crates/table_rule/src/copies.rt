//! A seat looks at the whole history; seats are copied, dealt out and joined.
ghost use Rattle.std.specs.Prelude.{◌≡◌};
ghost use Rattle.table_rule.specs.Views.{copied, dealt, kept, joined, spent, Looks};

use crate::view::View;
use atomic_table::{Join, Play, Split};

/// A seat looks at the whole history.
pub struct Look;

impl Play<(), View> for Look {
    ghost then = { λ step before found after. (after.1 ≡ before.1) × Looks before.0 after.0 };
}

/// A new seat knows what another knows, which stays as it is.
pub struct Copied;

impl Split<View> for Copied {
    ghost left = { λ view. view };

    ghost right = { copied };
}

/// A seat lets the first of its callers go to a seat of its own.
pub struct Deal;

impl Split<View> for Deal {
    ghost left = { kept };

    ghost right = { dealt };
}

/// A seat takes in another, with its callers.
pub struct Gather;

impl Join<View> for Gather {
    ghost both = { joined };

    ghost spent = { spent };
}
