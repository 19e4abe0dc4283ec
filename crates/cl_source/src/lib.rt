//! Sources, which give the bytes that each loader's own content has for a name (JVMS SE 8, 5.3.2): in memory, in
//! directories, one that refuses a read, and one that changes.
#![tactic(auto)]

pub mod changing;
pub mod directory;
pub mod faulty;
pub mod files;
pub mod laws;
pub mod memory;
mod shelf;
mod size;
pub mod source;

pub use changing::ChangingSource;
pub use directory::DirSource;
pub use faulty::FaultySource;
pub use files::{NamedFiles, ReadFile};
pub use memory::{MemorySource, PutRefused, Telling};
pub use size::MOST_CLASS_BYTES;
pub use source::{ClassBytes, Outcome, Probe, Source, SourceFault};
