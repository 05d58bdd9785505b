//! How large a workload may be.

/// The most bytes of a text.
pub const MAX_INPUT: usize = 8_388_608;

/// The most bytes of a line, without its line feed.
pub const MAX_LINE: usize = 200;

/// The most workers.
pub const MAX_WORKERS: u64 = 32;

/// The most calls, of all workers together.
pub const MAX_CALLS: usize = 20_000;

/// The most maps.
pub const MAX_MAPS: usize = 16;

/// The most atomics, of all types together.
pub const MAX_ATOMICS: usize = 64;

/// The most objects of each other kind.
pub const MAX_OTHERS: usize = 32;

/// The greatest counter of a wait group at the start, and the greatest amount that is added to one, by a once or by
/// a group of flights.
pub const MAX_AMOUNT: u64 = 10_000;

/// The greatest size of a weighted semaphore.
pub const MAX_SIZE: u64 = 1_000_000;

/// The greatest code with which the function of a `oncefunc` fails.
pub const MAX_CODE: u64 = 1_000;

/// The most calls that an `ifeq` passes over.
pub const MAX_PASSES: u64 = 1_000;

/// The most waits of one `waitfor`.
pub const MAX_TRIES: u64 = 1_000;

/// The most waits that all `waitfor` calls together may make.
pub const MAX_ALL_TRIES: usize = 20_000;

/// The most `range` calls, of all workers together.
pub const MAX_RANGES: usize = 64;

/// The most reads and writes of plain variables, of all workers together.
pub const MAX_ACCESSES: usize = 1_000;

/// The most different keys, over all maps and flights.
pub const MAX_KEYS: usize = 4_096;

/// The most items of the schedule, workers' turns and moments together.
pub const MAX_TURNS: usize = 100_000;
