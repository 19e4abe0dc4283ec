//! The report of a script that was served, as lines of text.
#![tactic(auto)]

mod print;

pub use print::print_report;
