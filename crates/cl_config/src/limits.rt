//! The limits of a configuration and of a script.

/// The most loaders of a configuration.
pub const MOST_LOADERS: usize = 1_024;

/// The most parents of a loader.
pub const MOST_PARENTS: usize = 64;

/// The most imports of a loader.
pub const MOST_IMPORTS: usize = 64;

/// The most bytes of a loader's name.
pub const MOST_LOADER_NAME_BYTES: usize = 64;

/// The most requests of a script.
pub const MOST_REQUESTS: usize = 65_535;

/// The most lines of a script that begin a round.
pub const MOST_THENS: u32 = 65_535;
