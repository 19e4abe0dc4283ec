//! The lines of schedules: a bundle's number, and choices.

use crate::stop::Stop;
use cl_lines::Words;
use std::alloc::Global;

/// The most choices of a schedule.
const MOST_CHOICES: usize = 16_777_216;

/// The bundle that the next word gives the number of, counted from 1.
pub fn next_text<'a>(texts: &'a [String], words: &mut Words<'_>) -> Result<&'a str, Stop> {
    let Some(word) = words.next() else {
        return Err(Stop::NoSchedule);
    };
    let place = match number(word)? {
        0 => return Err(Stop::NoBundle),
        number => number - 1,
    };
    match texts.get(place as usize) {
        Some(text) => Ok(text.as_str()),
        None => Err(Stop::NoBundle),
    }
}

/// The choices of the words that are left.
pub fn choices_of(alloc: Global, words: Words<'_>) -> Result<Vec<u32>, Stop> {
    let mut choices = Vec::new(alloc);
    for word in words {
        put_choices(&mut choices, word)?;
    }
    Ok(choices)
}

/// Puts the choices of a word behind these.
fn put_choices(choices: &mut Vec<u32>, word: &str) -> Result<(), Stop> {
    let (choice, times) = match word.split_once('*') {
        Some((choice, times)) => (number(choice)?, number(times)?),
        None => (number(word)?, 1),
    };
    for _ in 0..times {
        if choices.len() >= MOST_CHOICES {
            return Err(Stop::TooLong);
        }
        choices.push(choice)?;
    }
    Ok(())
}

/// The number that a word writes.
fn number(word: &str) -> Result<u32, Stop> {
    match word.parse::<u32>() {
        Ok(number) => Ok(number),
        Err(_) => Err(Stop::NoSchedule),
    }
}
