//! The configuration of loaders, in TOML, and the script of requests.
#![tactic(auto)]

mod config;
mod entry;
pub mod examples;
mod fault;
mod fields;
mod flat;
pub mod laws;
mod limits;
mod loader;
mod names;
mod order;
mod same;
mod script;

pub use config::Config;
pub use fault::{ConfigError, ConfigFault};
pub use limits::{
    MOST_IMPORTS, MOST_LOADER_NAME_BYTES, MOST_LOADERS, MOST_PARENTS, MOST_REQUESTS, MOST_THENS,
};
pub use loader::{Import, Loader};
pub use order::Order;
pub use script::{Script, ScriptFault, text_is_one_script};
