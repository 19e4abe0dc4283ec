//! What the tests share: loaders, classes with their files, sources of these, and what histories and answers tell.
#![tactic(auto)]

mod answers;
mod classes;
mod loaders;
mod sources;

pub use answers::{count_events, settles_once, thousand_resolutions};
pub use classes::{Named, bytes_of, class_name, file_bytes, is_class};
pub use loaders::{APP, BOOT, KID, LOADERS, PLUG, config, script};
pub use sources::{SHARED, put, source, telling_source};
