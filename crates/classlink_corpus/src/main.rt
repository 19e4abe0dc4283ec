//! Takes class files from a stream and sees of each that it is written as the bytes that it was read from, and that its
//! listing, assembled, lists the same. In the stream each file stands behind its length, in four bytes, big-endian.
#![tactic(auto)]

mod round;
mod stream;

use round::{Outcome, round_trip};
use std::io;
use std::process::ExitCode;
use stream::next_file;

/// What was seen of the files of a stream.
#[derive(Clone, Copy)]
struct Tally {
    same: u64,
    refused: u64,
    other: u64,
}

fn main(rt: HostRuntime) -> io::Result<ExitCode> {
    let mut input = rt.stdin();
    let mut tally = Tally {
        same: 0,
        refused: 0,
        other: 0,
    };
    for number in 1..u64::MAX {
        let Some(bytes) = next_file(rt.alloc(), &mut input)? else {
            break;
        };
        match round_trip(rt.alloc(), bytes.as_slice())? {
            Outcome::Same => tally.same = tally.same.saturating_add(1),
            Outcome::Refused(fault) => {
                tally.refused = tally.refused.saturating_add(1);
                println!(rt; "file {number}: {fault}")?;
            }
            Outcome::OtherBytes => {
                tally.other = tally.other.saturating_add(1);
                println!(rt; "file {number}: written with other bytes")?;
            }
            Outcome::OtherListing => {
                tally.other = tally.other.saturating_add(1);
                println!(rt; "file {number}: listed otherwise once it is assembled")?;
            }
        }
    }
    println!(rt;
        "{} the same, {} refused, {} otherwise",
        tally.same, tally.refused, tally.other
    )?;
    Ok(ExitCode::from(if tally.other == 0 { 0 } else { 1 }))
}
