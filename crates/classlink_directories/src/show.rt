use cl_model::LoaderId;
use cl_names::Name;
use cl_source::{DirSource, Outcome, ReadFile, Source, SourceFault};
use std::alloc::{AllocError, Global};
use std::io::{self, Write};

/// Writes what the directory of the first word has for each further one. The answer is the exit status: 0, 1 where it
/// could not be written or memory ran out, 2 where there is no directory.
pub fn show_over<F: ReadFile, W: Write>(
    files: &F,
    alloc: Global,
    words: &[String],
    out: &mut W,
) -> u8 {
    let [_, dir, texts @ ..] = words else {
        return 2;
    };
    let Ok(mut source) = source_of(files, alloc, dir.as_str()) else {
        return 1;
    };
    for text in texts {
        if show(alloc, &mut source, text.as_str(), out).is_err() {
            return 1;
        }
    }
    match writeln!(out, "{} failures", source.failures()) {
        Ok(()) => 0,
        Err(_) => 1,
    }
}

/// The source of one directory, of the first loader.
fn source_of<F: ReadFile>(files: &F, alloc: Global, dir: &str) -> Result<DirSource<F>, AllocError> {
    let mut dirs = Vec::with_capacity(alloc, 1)?;
    dirs.push(String::from_str(alloc, dir)?)?;
    Ok(DirSource::over(files.another(alloc)?, dirs))
}

/// Writes what a directory has for a name.
fn show<F: ReadFile, W: Write>(
    alloc: Global,
    source: &mut DirSource<F>,
    text: &str,
    out: &mut W,
) -> io::Result<()> {
    let Ok(name) = Name::from_text(alloc, text) else {
        return writeln!(out, "no name {text}");
    };
    match source.read(alloc, LoaderId(0), &name) {
        Ok(probe) => match probe.outcome() {
            Outcome::Found(bytes) => writeln!(out, "found {} {text}", bytes.as_slice().len()),
            Outcome::Absent => writeln!(out, "absent {text}"),
        },
        Err(SourceFault::TooLarge) => writeln!(out, "too large {text}"),
        Err(SourceFault::Memory) => writeln!(out, "memory {text}"),
        Err(_) => writeln!(out, "device {text}"),
    }
}
