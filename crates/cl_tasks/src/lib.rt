//! A request as a task: turn by turn, to its answer.
#![tactic(auto)]

mod accept;
mod cited;
mod ends;
mod expected;
mod leads;
mod link;
mod link_replies;
mod load_replies;
mod member;
mod reach;
mod reference;
mod resolution_replies;
mod search;
mod stage;
mod step;
mod task;
mod turn;

pub use task::{Task, TaskRefused};
pub use turn::{Reply, Turn};
