//! The limits that the counts of a class file set.

/// The most that a count of two bytes says (JVMS SE 8, 4.1).
pub const MOST_COUNTED: usize = 65_535;

/// The most entries of a pool, whose count is one more (JVMS SE 8, 4.1).
pub const MOST_ENTRIES: usize = 65_534;
