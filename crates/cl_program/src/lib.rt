//! What the program does once its words are read: the report of a bundle, that of a script over directories, and the lines
//! of a class file.
#![tactic(auto)]

mod asked;
mod bundles;
mod directories;
mod ending;
mod fault;
mod files;
mod input;
mod limits;
mod reading;
mod run;
mod threads;

pub use asked::{Asked, Options, RunWords};
pub use directories::OpenDirectories;
pub use ending::{fail, refuse_words};
pub use fault::{Fault, ThreadFault};
pub use limits::MOST_INPUT_BYTES;
pub use run::run_asked;
