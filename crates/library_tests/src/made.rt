//! What a call came to, and notes for the tests.
use sync_model::{Answer, FrontNote};
use sync_types::Misuse;

/// What a call came to, whichever it was.
#[derive(Clone, Copy, PartialEq, Eq)]
pub(super) enum Made {
    Done,
    Answered(bool),
    Misused(Misuse),
    Halted(Misuse),
    NoCallLeft,
}

/// What a call without a misuse came to.
pub(super) fn done(answer: Answer<()>) -> Made {
    match answer {
        Answer::Done(()) => Made::Done,
        Answer::Halted(misuse) => Made::Halted(misuse),
    }
}

/// What a call came to that answers yes or no.
pub(super) fn answered(answer: Answer<bool>) -> Made {
    match answer {
        Answer::Done(answer) => Made::Answered(answer),
        Answer::Halted(misuse) => Made::Halted(misuse),
    }
}

/// What a call came to that may be a misuse.
pub(super) fn returned(answer: Answer<Result<(), Misuse>>) -> Made {
    match answer {
        Answer::Done(Ok(())) => Made::Done,
        Answer::Done(Err(misuse)) => Made::Misused(misuse),
        Answer::Halted(misuse) => Made::Halted(misuse),
    }
}

/// A note that knows this many calls of caller 0.
pub(super) fn knows(count: u32) -> FrontNote {
    let mut counts = [0; 64];
    counts[0] = count;
    FrontNote::new(counts)
}
