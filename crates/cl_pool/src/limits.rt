//! The limit of a pool.

/// The most workers.
pub const MOST_WORKERS: u32 = 64;
