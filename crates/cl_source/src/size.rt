//! How large what a source gives may be.

/// The most bytes that a class file may have.
pub const MOST_CLASS_BYTES: usize = 16_777_216;
