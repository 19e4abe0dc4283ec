//! The limit of a text.

/// The most bytes of a text that is read: a bundle, a configuration or a script.
pub const MOST_INPUT_BYTES: usize = 67_108_864;
