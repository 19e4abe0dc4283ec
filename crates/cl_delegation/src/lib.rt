//! The search rule of loaders: which loader's own content answers for a name, by parents, imports and the order of
//! each loader (JVMS SE 8, 5.3.2).
#![tactic(auto)]

pub mod laws;
mod route;
pub mod search;

pub use search::{Home, Search, SearchRefused, Unfound, WrongProbe};
