//! Class files as bytes and as lines of text, and class files from such lines.
#![tactic(auto)]

mod assembling;
mod assembly;
mod bytes;
mod fault;
mod item;
mod items;
mod laws;
mod listings;
mod making;
mod printing;
mod statement;
mod texts;
mod writing;

pub use assembling::{assemble, assemble_with_hasher};
pub use fault::{AssembleFault, WriteFault};
pub use laws::{assembles_to_one_answer, says_one_thing};
pub use listings::listing;
pub use printing::print_listing;
pub use writing::write;
