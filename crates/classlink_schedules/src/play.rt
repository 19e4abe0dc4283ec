use crate::lines::{choices_of, next_text};
use crate::stop::Stop;
use cl_bundle::Bundle;
use cl_lines::{Stated, Words};
use cl_model::{Event, Untold};
use cl_names::Seed;
use cl_report::print_report;
use cl_schedule::simulate;
use cl_source::ReadFile;
use cl_streams::{pass_page, write_out};
use std::alloc::{AllocError, Global};
use std::io::{self, Read, Write};
use std::sync::Arc;

/// The most bytes of a bundle.
const MOST_BYTES: usize = 67_108_864;

/// Plays each schedule of the input over the bundles that the words name. The answer is the exit status: 0, 1 where a line
/// was not played, 2 where no line is, since there are no words, or what they name or the input cannot be read.
pub fn play_over<F: ReadFile, I: Read + Drop, W: Write>(
    files: &F,
    alloc: Global,
    words: &[String],
    input: I,
    out: &mut W,
) -> u8 {
    let [_, paths @ ..] = words else {
        return 2;
    };
    let Ok(texts) = texts_at(files, alloc, paths) else {
        let _ = writeln!(out, "cannot read a bundle");
        return 2;
    };
    let Ok(schedules) = io::read_to_string(alloc, input) else {
        let _ = writeln!(out, "cannot read standard input");
        return 2;
    };
    for line in Stated::new(schedules.as_str()) {
        if let Err(stop) = play_line(alloc, texts.as_slice(), line.text, out) {
            let _ = writeln!(out, "line {}: {stop}", line.number);
            return 1;
        }
    }
    0
}

/// The texts of the files at these paths.
fn texts_at<F: ReadFile>(files: &F, alloc: Global, paths: &[String]) -> Result<Vec<String>, Stop> {
    let mut texts = Vec::new(alloc);
    for path in paths {
        texts.push(text_at(files, alloc, path.as_str())?)?;
    }
    Ok(texts)
}

fn text_at<F: ReadFile>(files: &F, alloc: Global, path: &str) -> Result<String, Stop> {
    let Ok(Some(bytes)) = files.read_file(alloc, path, MOST_BYTES) else {
        return Err(Stop::NoBundle);
    };
    match String::from_utf8(bytes) {
        Ok(text) => Ok(text),
        Err(_) => Err(Stop::NoBundle),
    }
}

/// Plays the schedule of a line.
fn play_line<W: Write>(
    alloc: Global,
    texts: &[String],
    line: &str,
    out: &mut W,
) -> Result<(), Stop> {
    let mut words = Words::new(line);
    let text = next_text(texts, &mut words)?;
    let choices = choices_of(alloc, words)?;
    play(alloc, text, choices.as_slice(), out)
}

/// Serves the script of a bundle as these choices say, and prints the report and the posts.
fn play<W: Write>(alloc: Global, text: &str, choices: &[u32], out: &mut W) -> Result<(), Stop> {
    let Bundle {
        config,
        source,
        script,
    } = cl_bundle::read(alloc, Seed::common(), text)?;
    let config = Arc::new(alloc, config)?;
    let script = Arc::new(alloc, script)?;
    let loaders = Arc::try_clone(&config)?;
    let mut source = source.tell::<Untold>();
    let report = simulate::<Untold, _>(alloc, config, &mut source, script, choices)?;
    let names = loaders.names();
    print_report(alloc, &report, names, false, out)?;
    print_posts(alloc, report.history.events(), out)
}

/// Prints the line of the posts: of each the number of its request, and how many lines of the history stand before it.
fn print_posts<W: Write>(alloc: Global, events: &[Event], out: &mut W) -> Result<(), Stop> {
    let mut waiting = String::from_str(alloc, "posts")?;
    let mut lines: u64 = 0;
    for event in events {
        put_post(event, lines, &mut waiting)?;
        if has_line(event) {
            lines = lines.saturating_add(1);
        }
        pass_page(out, &mut waiting)?;
    }
    waiting.push_str("\n")?;
    Ok(write_out(out, waiting.as_bytes())?)
}

/// Puts a post behind what waits.
fn put_post(event: &Event, lines: u64, waiting: &mut String) -> Result<(), AllocError> {
    match event {
        Event::Post(number) => write!(waiting, " {}:{lines}", u64::from(*number).saturating_add(1)),
        _ => Ok(()),
    }
}

/// Whether a report has a line for an event.
fn has_line(event: &Event) -> bool {
    match event {
        Event::Settle(_) | Event::NextRound | Event::Post(_) => false,
        _ => true,
    }
}
