//! The values of maps, of functions made by `OnceValue`, and of pools.

/// The greatest value of a map, of a `OnceValue` and of a pool's item, and the latest moment of a clock in
/// nanoseconds: 2^63 - 1.
pub const MAX_VALUE: u64 = 9_223_372_036_854_775_807;
