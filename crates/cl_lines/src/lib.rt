//! Lines, words and numbers of a text that people write.
#![tactic(auto)]

pub mod examples;
mod lines;
mod number;

pub use lines::{Line, Lines, Stated, Words, is_skipped};
pub use number::{MOST_NUMBER, number_of};
