//! What a request is answered, with what that rests on (JVMS SE 8, 5.3 to 5.4.3).
#![tactic(auto)]

mod basis;
mod entry;
pub mod finding;
pub mod laws;
pub mod load;
mod member;
mod refusal;
mod stands;
pub mod tables;
mod within;

pub use finding::Finding;
pub use load::{NextRecord, Obstacle, Target};
pub use tables::Tables;
