//! A race of a trace.

/// Two steps of a trace that race, by their numbers in it: two accesses of one variable by two workers, one of them a write, of
/// which neither is before the other.
#[derive(Clone, Copy, Debug, PartialEq, Eq, Drop)]
pub struct Race {
    pub earlier: usize,
    pub later: usize,
}
