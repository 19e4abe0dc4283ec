//! Class files: their parts, and reading them from bytes (JVMS SE 8, chapter 4).
#![tactic(auto)]

mod attribute;
mod checking;
mod entry;
pub mod examples;
mod fault;
mod file;
mod flags;
mod index;
mod indices;
mod laws;
mod limits;
mod lookup;
mod member;
mod members;
mod mentions;
mod numbers;
mod parts;
mod pool;
mod raw;
mod reading;
mod reference;
mod rows;
pub mod tags;
mod traits;
mod version;
mod widths;

pub use attribute::Attribute;
pub use checking::{text_at, type_name};
pub use entry::Entry;
pub use fault::{Fault, ReadError};
pub use file::{ClassFile, read};
pub use flags::{ABSTRACT, PRIVATE, PROTECTED, PUBLIC, STATIC, has_flag};
pub use laws::{
    has_one_spelling, parts_are_spelled, reading_finds_what_is_spelled, spells_one_file,
};
pub use limits::{MOST_COUNTED, MOST_ENTRIES};
pub use member::Member;
pub use parts::{Parts, Refused};
pub use reference::{Reference, Symbol};
pub use version::Version;
