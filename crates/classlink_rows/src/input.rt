//! The words of a question. Bytes are written as parts with commas between them: pairs of hexadecimal digits, or
//! characters behind a `'`; a part may end with `*` and how often it stands. `-` is no bytes.

use crate::stop::Stop;
use cl_lines::Words;
use std::alloc::Global;

/// The next word.
pub fn next_word<'a>(words: &mut Words<'a>) -> Result<&'a str, Stop> {
    words.next().ok_or(Stop::NoRow)
}

/// The next word, as a number.
pub fn next_number(words: &mut Words<'_>) -> Result<u16, Stop> {
    number(next_word(words)?)
}

/// A number, and 0 for no digits.
pub fn number(word: &str) -> Result<u16, Stop> {
    match word.parse::<u16>() {
        Ok(number) => Ok(number),
        Err(_) if word.is_empty() => Ok(0),
        Err(_) => Err(Stop::NoRow),
    }
}

/// The next word, as bytes.
pub fn next_bytes(alloc: Global, words: &mut Words<'_>) -> Result<Vec<u8>, Stop> {
    bytes_of(alloc, next_word(words)?)
}

/// A word, as bytes.
pub fn bytes_of(alloc: Global, word: &str) -> Result<Vec<u8>, Stop> {
    let mut bytes = Vec::new(alloc);
    if word == "-" {
        return Ok(bytes);
    }
    for part in word.split(',') {
        push_part(alloc, &mut bytes, part)?;
    }
    Ok(bytes)
}

/// The next word, as bytes that are a text.
pub fn next_text(alloc: Global, words: &mut Words<'_>) -> Result<String, Stop> {
    match String::from_utf8(next_bytes(alloc, words)?) {
        Ok(text) => Ok(text),
        Err(_) => Err(Stop::NoRow),
    }
}

fn push_part(alloc: Global, bytes: &mut Vec<u8>, part: &str) -> Result<(), Stop> {
    let Some((part, count)) = part.split_once('*') else {
        return push_once(alloc, bytes, part);
    };
    for _ in 0..count_of(count)? {
        push_once(alloc, bytes, part)?;
    }
    Ok(())
}

/// How often something stands.
pub fn count_of(word: &str) -> Result<u32, Stop> {
    match word.parse::<u32>() {
        Ok(count) => Ok(count),
        Err(_) => Err(Stop::NoRow),
    }
}

fn push_once(alloc: Global, bytes: &mut Vec<u8>, part: &str) -> Result<(), Stop> {
    if let Some(text) = part.strip_prefix('\'') {
        bytes.extend_from_slice(text.as_bytes())?;
        return Ok(());
    }
    match hex::decode(alloc, part) {
        Ok(more) => Ok(bytes.extend_from_slice(more.as_slice())?),
        Err(_) => Err(Stop::NoRow),
    }
}
