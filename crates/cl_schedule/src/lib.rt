//! Scripts of requests, served in order.
#![tactic(auto)]

mod choices;
pub mod examples;
mod gather;
mod replies;
mod seats;
mod serve;

pub use choices::simulate;
pub use replies::{ask_registry, ask_source};
pub use serve::{ServeFault, serve_one};
