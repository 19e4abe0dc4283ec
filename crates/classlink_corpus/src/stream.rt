//! The files of a stream.

use std::alloc::Global;
use std::io::{self, ErrorKind, Read};

/// The most bytes that a file may have.
const MOST_BYTES: usize = 16_777_216;

/// The bytes of the next file, or `None` at the end of the stream. A stream that ends within a file, and a file of more
/// than `MOST_BYTES`, are refused as invalid data.
pub fn next_file<I: Read>(alloc: Global, input: &mut I) -> io::Result<Option<Vec<u8>>> {
    let mut head = [0u8; 4];
    let count = fill(input, &mut head)?;
    if count == 0 {
        return Ok(None);
    }
    let length = u32::from_be_bytes(head) as usize;
    if count < 4 || length > MOST_BYTES {
        return Err(io::Error::from(ErrorKind::InvalidData));
    }
    let mut bytes = Vec::with_capacity(alloc, length)?;
    bytes.resize(length, 0u8)?;
    if fill(input, bytes.as_mut_slice())? < length {
        return Err(io::Error::from(ErrorKind::InvalidData));
    }
    Ok(Some(bytes))
}

/// Fills a room from the stream as far as it goes, and answers how many bytes came.
fn fill<I: Read>(input: &mut I, room: &mut [u8]) -> io::Result<usize> {
    let mut done = 0;
    while done < room.len() {
        let count = input.read(&mut room[done..])?;
        if count == 0 {
            return Ok(done);
        }
        done += count;
    }
    Ok(done)
}
