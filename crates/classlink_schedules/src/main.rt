//! Serves scripts as schedules choose: `classlink_schedules BUNDLE..`, paths of bundles. A line of standard input is a
//! schedule: the number of a bundle, counted from 1, and its choices, `C`, or `C*N` for N times C; skipped lines are none.
//! Of each it prints the history and the answers, as `classlink bundle` does, and a line `posts` with `Q:L` for each post
//! in order: the number of the request, and how many lines of the history stand before it.
#![tactic(auto)]

mod lines;
mod play;
mod stop;

use play::play_over;
use std::process::ExitCode;
use std::{env, io};

fn main(rt: HostRuntime) -> io::Result<ExitCode> {
    let words = env::args(&rt)?.collect::<Vec<String>>(rt.alloc())?;
    let status = play_over(
        &rt,
        rt.alloc(),
        words.as_slice(),
        rt.stdin(),
        &mut rt.stdout(),
    );
    Ok(ExitCode::from(status))
}
