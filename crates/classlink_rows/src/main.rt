//! Asks the libraries the questions of a text, compares what they answer with the answers that stand there, and prints
//! each that differs.
//!
//! A line is a row, `QUESTION WORD.. = ANSWER`; skipped lines are none. `questions` has the questions, `input` the words
//! that bytes are written in. `tools/rows` makes the text from the tables of `docs/FORMATS.md`.
#![tactic(auto)]

mod changes;
mod descriptors;
mod entries;
mod files;
mod input;
mod names;
mod parts;
mod questions;
mod stop;
mod texts;

use cl_lines::{Line, Stated, Words};
use questions::answer;
use std::alloc::Global;
use std::io;
use std::process::ExitCode;
use stop::Stop;

/// Why a row is not as it should be, or nothing where it is.
fn difference(alloc: Global, row: &str) -> Result<Option<String>, Stop> {
    let Some((question, expected)) = row.split_once('=') else {
        return Err(Stop::NoRow);
    };
    let found = answer(alloc, Words::new(question))?;
    if has_words(found.as_str(), expected) {
        return Ok(None);
    }
    Ok(Some(found))
}

/// Whether two texts have the same words.
fn has_words(text: &str, other: &str) -> bool {
    let mut others = Words::new(other);
    for word in Words::new(text) {
        match others.next() {
            Some(found) if found == word => {}
            _ => return false,
        }
    }
    others.next().is_none()
}

/// What is to be printed of a row, if anything.
fn complaint(alloc: Global, line: Line<'_>) -> io::Result<Option<String>> {
    match difference(alloc, line.text) {
        Ok(None) => Ok(None),
        Ok(Some(found)) => Ok(Some(format!(in alloc; "line {}: {found}", line.number)?)),
        Err(stop) => Ok(Some(format!(in alloc; "line {}: {stop}", line.number)?)),
    }
}

fn main(rt: HostRuntime) -> io::Result<ExitCode> {
    let text = io::read_to_string(rt.alloc(), rt.stdin())?;
    let mut rows: u64 = 0;
    let mut differing: u64 = 0;
    for line in Stated::new(text.as_str()) {
        rows = rows.saturating_add(1);
        if let Some(complaint) = complaint(rt.alloc(), line)? {
            differing = differing.saturating_add(1);
            println!(rt; "{complaint}")?;
        }
    }
    println!(rt; "{rows} rows, {differing} differ")?;
    Ok(ExitCode::from(if differing == 0 { 0 } else { 1 }))
}
