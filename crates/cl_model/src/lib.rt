//! What linking speaks of: classes, requests, verdicts and events, and in `specs/` the definitions.
#![tactic(auto)]

mod answer;
mod class;
mod directories;
mod event;
pub mod examples;
pub mod frame_laws;
pub mod further_examples;
mod key;
pub mod laws;
mod loader;
mod need;
mod primitive;
pub mod reference_laws;
mod request;
pub mod service_examples;
mod settled;
pub mod table_laws;
mod told;
mod verdict;

pub use answer::Answer;
pub use class::Class;
pub use directories::Directories;
pub use event::Event;
pub use key::MemberKey;
pub use loader::LoaderId;
pub use need::{Equality, Need};
pub use primitive::Primitive;
pub use request::Request;
pub use settled::Settled;
pub use told::{Told, Untold};
pub use verdict::{ErrorKind, Verdict};
