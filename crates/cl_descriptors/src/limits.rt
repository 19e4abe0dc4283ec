//! The limits that descriptors keep.

/// The most dimensions of an array (JVMS SE 8, 4.3.2).
pub const MOST_DIMENSIONS: usize = 255;

/// The most units of a method's parameters, with one for `this` where it is of an instance (JVMS SE 8, 4.3.3).
pub const MOST_UNITS: usize = 255;
