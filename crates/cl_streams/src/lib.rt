//! Streams read to their end and written whole.
#![tactic(auto)]

mod input;
mod output;

pub use input::{InputFault, read_bytes, read_limited};
pub use output::{PrintFault, pass_page, write_out};
