//! What the preparation of a class imposes: which methods override which, and the loading constraints that follow (JVMS SE
//! 8, 5.4.2, 5.4.5).
#![tactic(auto)]

mod declared;
mod described;
mod key;
mod method;
mod overriding;
mod packages;
mod relatives;
mod walk;

pub use overriding::overrides;
pub use relatives::constraints_of;
