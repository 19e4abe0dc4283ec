//! Bundles: a text with the configuration of loaders, what each has for its names, and what is asked.
#![tactic(auto)]

mod bundle;
mod fault;
mod laws;
mod sections;

pub use bundle::{Bundle, read};
pub use fault::BundleFault;
pub use laws::{
    reads_one_way, same_faults_print_alike, section_has_one_content, sections_tell_one_content,
};
