//! The questions of rows.

use crate::changes::{change_count, changes};
use crate::descriptors::{field_type, form, method_type};
use crate::files::{file_fault, file_parts, reference};
use crate::input::{next_bytes, next_number, next_text, next_word};
use crate::names::{class_name_in, kinds, name, name_in, prefix, same, tests};
use crate::parts::made_of_parts;
use crate::stop::Stop;
use crate::texts::{bytes_in, lines_in, listing_in, memory_fault, pool_len, write_again};
use cl_lines::Words;
use std::alloc::Global;

/// What the libraries answer to a question.
pub fn answer(alloc: Global, mut words: Words<'_>) -> Result<String, Stop> {
    let question = next_word(&mut words)?;
    match question {
        "memory" => Ok(memory_fault(alloc, next_word(&mut words)?)?),
        "written" => Ok(name_in(alloc, next_text(alloc, &mut words)?.as_str())?),
        "class" => Ok(class_name_in(alloc, next_text(alloc, &mut words)?.as_str())?),
        "lines" => Ok(lines_in(alloc, next_text(alloc, &mut words)?.as_str())?),
        "assemble" => Ok(bytes_in(alloc, next_text(alloc, &mut words)?.as_str())?),
        "listing" => Ok(listing_in(alloc, next_text(alloc, &mut words)?.as_str())?),
        "entries" => Ok(pool_len(alloc, next_text(alloc, &mut words)?.as_str())?),
        "parts" => made_of_parts(alloc, words),
        _ => answer_of_bytes(alloc, question, words),
    }
}

/// The same of the questions whose first word is bytes.
fn answer_of_bytes(alloc: Global, question: &str, mut words: Words<'_>) -> Result<String, Stop> {
    let bytes = next_bytes(alloc, &mut words)?;
    let bytes = bytes.as_slice();
    match question {
        "kinds" => Ok(kinds(alloc, bytes)?),
        "tests" => Ok(tests(alloc, bytes)?),
        "name" => Ok(name(alloc, bytes)?),
        "prefix" => Ok(prefix(alloc, bytes, next_bytes(alloc, &mut words)?.as_slice())?),
        "same" => Ok(same(alloc, bytes, next_bytes(alloc, &mut words)?.as_slice())?),
        "field" => Ok(field_type(alloc, bytes)?),
        "method" => Ok(method_type(alloc, bytes)?),
        "form" => Ok(form(alloc, bytes)?),
        "read" => Ok(file_fault(alloc, bytes)?),
        "file" => Ok(file_parts(alloc, bytes)?),
        "reference" => Ok(reference(alloc, bytes, next_number(&mut words)?)?),
        "write" => Ok(write_again(alloc, bytes)?),
        "changes" => Ok(changes(alloc, bytes)?),
        "changed" => Ok(change_count(alloc, bytes, usize::from(next_number(&mut words)?))?),
        _ => Err(Stop::NoRow),
    }
}
