//! A race of a run by schedule.

/// A call of a script.
#[derive(Clone, Copy, PartialEq, Eq, Debug, Drop)]
pub struct CallPlace {
    pub worker: u32,
    /// The call's place in the worker's script.
    pub index: usize,
}

/// Two accesses of a plain variable that race. The first one was made first.
#[derive(Clone, Copy, PartialEq, Eq, Debug, Drop)]
pub struct Race {
    /// The variable's place among the workload's objects.
    pub variable: usize,
    pub first: CallPlace,
    pub second: CallPlace,
}
