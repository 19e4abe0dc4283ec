//! Says what a directory source has for each name: `classlink_directories DIR NAME..`, names as escaped text. Of each
//! name it prints `found BYTES NAME`, `absent NAME`, `device NAME`, `too large NAME`, `no name NAME` or `memory NAME`,
//! and at last how many reads failed.
#![tactic(auto)]

mod show;

use show::show_over;
use std::process::ExitCode;
use std::{env, io};

fn main(rt: HostRuntime) -> io::Result<ExitCode> {
    let words = env::args(&rt)?.collect::<Vec<String>>(rt.alloc())?;
    let status = show_over(&rt, rt.alloc(), words.as_slice(), &mut rt.stdout());
    Ok(ExitCode::from(status))
}
