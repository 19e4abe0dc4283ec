//! Scripts of requests, served by several threads.
#![tactic(auto)]

mod desk;
mod draws;
mod fault;
mod gate;
mod hand;
mod limits;
mod pool;
mod serving;

pub use draws::{DrawFault, Draws, Seat};
pub use fault::PoolFault;
pub use gate::{Gate, OpenGate};
pub use hand::Bounds;
pub use limits::MOST_WORKERS;
pub use serving::{serve, serve_with_rows};
