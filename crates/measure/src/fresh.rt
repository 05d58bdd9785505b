//! What a caller keeps between its pairs.
use sync_model::{FrontNote, NoNote, Note};

/// What a caller keeps from one pair to the next.
pub trait Fresh: Sized {
    /// What it has before the first, where an object has so many callers: at most 64.
    fn fresh(callers: u32) -> Self;
}

/// A note that is at home anywhere. Where it counts, it knows of one shared call of each caller when it is fresh, since a note of which less
/// is known costs less.
pub trait FreshNote: Note<Home = ()> + Fresh + Send {
    // Each note is at home.
    ghost anywhere: { (home : Unit {0}) (note : Self) → Self.at home note };
}

impl Fresh for FrontNote {
    fn fresh(callers: u32) -> Self {
        let mut counts = [0; 64];
        for count in counts.iter_mut().take(callers as usize) {
            *count = 1;
        }
        FrontNote::new(counts)
    }
}

impl FreshNote for FrontNote {
    ghost anywhere = { λ home note. tt };
}

impl Fresh for NoNote {
    fn fresh(_callers: u32) -> Self {
        NoNote::new()
    }
}

impl FreshNote for NoNote {
    ghost anywhere = { λ home note. tt };
}
