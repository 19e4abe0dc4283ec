//! Files with a byte changed.

use cl_classfile::{ClassFile, read};
use cl_writer::{assemble, listing, write};
use std::alloc::{AllocError, Global};

/// In how many ways one byte of a file may be another.
pub fn changes(alloc: Global, bytes: &[u8]) -> Result<String, AllocError> {
    let mut count: usize = 0;
    for place in 0..bytes.len() {
        count = count.saturating_add(changes_at(alloc, bytes, place)?);
    }
    format!(in alloc; "{count}")
}

/// In how many ways the byte at a place may be another.
pub fn change_count(alloc: Global, bytes: &[u8], place: usize) -> Result<String, AllocError> {
    let count = changes_at(alloc, bytes, place)?;
    format!(in alloc; "{count}")
}

fn changes_at(alloc: Global, bytes: &[u8], place: usize) -> Result<usize, AllocError> {
    let mut count: usize = 0;
    let mut other = Vec::from_slice(alloc, bytes)?;
    for value in 0..=255u8 {
        if let Some(byte) = other.as_mut_slice().get_mut(place) {
            *byte = value;
        }
        if other.as_slice() != bytes && comes_back(alloc, other.as_slice())? {
            count = count.saturating_add(1);
        }
    }
    Ok(count)
}

/// Whether the bytes are read, are written as they are, and the file's listing is assembled to one that lists the same.
fn comes_back(alloc: Global, bytes: &[u8]) -> Result<bool, AllocError> {
    let Ok(file) = read(alloc, bytes) else {
        return Ok(false);
    };
    match write(alloc, &file) {
        Ok(written) if written.as_slice() == bytes => lists_again(alloc, &file),
        _ => Ok(false),
    }
}

fn lists_again(alloc: Global, file: &ClassFile) -> Result<bool, AllocError> {
    let lines = listing(alloc, file)?;
    let Ok(assembled) = assemble(alloc, lines.as_str()) else {
        return Ok(false);
    };
    let again = listing(alloc, &assembled)?;
    Ok(again.as_str() == lines.as_str())
}
