//! The registry of classes, which records what each loader defined and initiated, which loading constraints were imposed,
//! which references are settled and classes prepared, and what each request was answered (JVMS SE 8, 5.3 to 5.4.3).
#![tactic(auto)]

mod entries;
mod fits;
mod imposing;
pub mod laws;
mod lineages;
mod met;
mod posting;
mod recording;
mod references;
pub mod registry;
pub mod report;
mod rounds;
mod settling;
pub mod settling_laws;
mod standing;
mod tables;

pub use registry::{DefineRefused, NotYet, PostRefused, Registry, RegistryFault, RegistryRefused};
pub use report::{Answers, History, Report};
