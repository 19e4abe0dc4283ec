//! Questions about lines, assembler texts and listings.

use crate::names::show;
use cl_classfile::{ClassFile, ReadError, read};
use cl_descriptors::DescriptorFault;
use cl_lines::{Stated, Words};
use cl_names::NameFault;
use cl_writer::{AssembleFault, WriteFault, assemble, listing, write};
use std::alloc::{AllocError, Global};

/// The most bytes that are printed.
const MOST_PRINTED: usize = 2000;

/// How a refused growth is printed.
pub fn memory_fault(alloc: Global, library: &str) -> Result<String, AllocError> {
    match library {
        "names" => format!(in alloc; "{}", NameFault::Memory),
        "descriptors" => format!(in alloc; "{}", DescriptorFault::Memory),
        "reader" => format!(in alloc; "{}", ReadError::Memory),
        "writer" => format!(in alloc; "{}", WriteFault::Memory),
        "assembler" => format!(in alloc; "{}", AssembleFault::Memory),
        _ => String::from_str(alloc, "no such library"),
    }
}

/// The lines of a text that are not skipped, each by its number and its words.
pub fn lines_in(alloc: Global, text: &str) -> Result<String, AllocError> {
    let mut found = String::new(alloc);
    for line in Stated::new(text) {
        found.push_str(format!(in alloc; " {}:", line.number)?.as_str())?;
        for word in Words::new(line.text) {
            found.push(' ')?;
            found.push_str(hex::encode(alloc, word.as_bytes())?.as_str())?;
        }
    }
    Ok(found)
}

/// The bytes of a file; of many, how many there are.
pub fn bytes_text(alloc: Global, file: &ClassFile) -> Result<String, AllocError> {
    let bytes = match write(alloc, file) {
        Ok(bytes) => bytes,
        Err(fault) => return format!(in alloc; "{fault}"),
    };
    if bytes.len() > MOST_PRINTED {
        return format!(in alloc; "{} bytes", bytes.len());
    }
    hex::encode(alloc, bytes.as_slice())
}

/// The bytes that assembler text describes.
pub fn bytes_in(alloc: Global, text: &str) -> Result<String, AllocError> {
    match assemble(alloc, text) {
        Ok(file) => bytes_text(alloc, &file),
        Err(fault) => format!(in alloc; "{fault}"),
    }
}

/// How many entries the pool has that assembler text describes.
pub fn pool_len(alloc: Global, text: &str) -> Result<String, AllocError> {
    match assemble(alloc, text) {
        Ok(file) => format!(in alloc; "{}", file.pool().len()),
        Err(fault) => format!(in alloc; "{fault}"),
    }
}

/// What the file lists that assembler text describes, with `|` for the end of a line.
pub fn listing_in(alloc: Global, text: &str) -> Result<String, AllocError> {
    let file = match assemble(alloc, text) {
        Ok(file) => file,
        Err(fault) => return format!(in alloc; "{fault}"),
    };
    let lines = listing(alloc, &file)?;
    let mut found = String::new(alloc);
    for part in lines.as_str().split('\n') {
        found.push_str(part)?;
        found.push_str(" | ")?;
    }
    Ok(found)
}

/// Whether the file is written as it was read.
pub fn write_again(alloc: Global, bytes: &[u8]) -> Result<String, AllocError> {
    let file = match read(alloc, bytes) {
        Ok(file) => file,
        Err(fault) => return format!(in alloc; "{fault}"),
    };
    match write(alloc, &file) {
        Ok(written) if written.as_slice() == bytes => String::from_str(alloc, "the same"),
        Ok(written) => show(alloc, written.as_slice()),
        Err(fault) => format!(in alloc; "{fault}"),
    }
}
