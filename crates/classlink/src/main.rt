//! Loads and links classes as a Java machine does: those of a bundle, or those of directories.
#![tactic(auto)]

mod run;
mod words;

use cl_program::{Fault, fail, refuse_words};
use cl_source::NamedFiles;
use run::run_over;
use std::io::ErrorKind;
use std::process::ExitCode;
use std::{env, io};

fn main(rt: HostRuntime) -> ExitCode {
    let words = match env::args(&rt) {
        Ok(words) => words
            .collect::<Vec<String>>(rt.alloc())
            .map_err(io::Error::from),
        Err(error) => Err(error),
    };
    let status = match words {
        Ok(words) => run_over(
            &rt,
            &NamedFiles { host: &rt },
            words.as_slice(),
            rt.stdin(),
            &mut rt.stdout(),
            &mut rt.stderr(),
        ),
        Err(error) if error.kind() == ErrorKind::OutOfMemory => {
            fail(rt.alloc(), &Fault::Memory, &mut rt.stderr())
        }
        Err(_) => refuse_words(rt.alloc(), &mut rt.stderr()),
    };
    ExitCode::from(status)
}
