//! Which interfaces of a class one text names: told once for a class of many interfaces, as it is read, so that who looks
//! through them does not compare a long name as often as it is named.

ghost use Rattle.std.specs.Prelude.{◌≡◌, ◌<◌, ◌≤◌, ℕ, List, IfOk, slice_get};
ghost use Rattle.cl_classfile.specs.declared.entry.Entry.{Entry};
ghost use Rattle.cl_classfile.specs.Mentions.{AreMentions, MetAt, MarksOne, named_at, naming_text};
ghost use Rattle.cl_classfile.specs.Pool.{at};

use crate::entry::Entry;
use crate::indices::item_at;
use crate::limits::MOST_COUNTED;
use std::alloc::{AllocError, Global};

/// So many interfaces are looked at as fast one by one.
const FEW_INTERFACES: usize = 16;

/// Of each interface of many, the first that the same text names.
#[derive(Debug, Drop)]
pub struct Mentions {
    pub(crate) firsts: Vec<u16>,
}

impl Mentions {
    /// The first that the text of the one at this place names, if that is told.
    fn first_at(&self, place: usize) -> Option<u16>
        ensures { result ≡ slice_get self.now.firsts.items place }
    {
        self.firsts.as_slice().get(place).copied()
    }

    /// The first that the text of the one at this place names; that one itself where this is not told.
    pub fn first(&self, place: usize) -> usize
        ensures { (pool : List Entry) (interfaces : List ℕ)
            → AreMentions pool interfaces self.now.firsts.items
            → (result ≤ place)
            × (named_at pool interfaces result ≡ named_at pool interfaces place) }
    {
        match self.first_at(place) {
            Some(first) => first as usize,
            None => place,
        }
    }
}

/// The index of the text that names the class at an index, or 0.
fn class_name_index(pool: &[Entry], index: u16) -> u16
    ensures { result ≡ naming_text (at pool.now index) }
{
    match item_at(pool, index) {
        Some(Entry::Class(text)) => *text,
        _ => 0,
    }
}

/// Meets a text at a place: where it was met first.
fn meet(marks: &mut Vec<u16>, text: u16, place: u16) -> u16
    requires { place < MOST_COUNTED }
    ensures first { MetAt marks.old.items text place result }
    ensures marks { MarksOne marks.old.items marks.new.items text place }
{
    if text == 0 {
        return place;
    }
    match marks.get_mut(text as usize - 1) {
        None => place,
        Some(mark) => {
            if *mark == 0 {
                *mark = place + 1;
            }
            *mark - 1
        }
    }
}

/// The same of these interfaces of a pool, unless they are few.
pub fn mentions_of(
    alloc: Global,
    pool: &[Entry],
    interfaces: &[u16],
) -> Result<Mentions, AllocError>
    ensures { IfOk result (λ m. AreMentions pool.now interfaces.now m.firsts.items) }
{
    let mut firsts = Vec::new(alloc);
    if interfaces.len() <= FEW_INTERFACES || interfaces.len() > MOST_COUNTED {
        return Ok(Mentions { firsts });
    }
    let mut marks = vec![in alloc; 0u16; pool.len()]?;
    for place in 0..interfaces.len() {
        let text = class_name_index(pool, interfaces[place]);
        firsts.push(meet(&mut marks, text, place as u16))?;
    }
    Ok(Mentions { firsts })
}
