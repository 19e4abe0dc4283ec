//! The texts of a pool as they are printed: a long one is made once, however many lines name it, and copied from then on.

ghost use Rattle.std.specs.Prelude.{◌≡◌, ◌++◌, OnOk, Some, string_bytes};
ghost use Rattle.cl_classfile.specs.Files.{text_at, type_name};
ghost use Rattle.cl_writer.specs.Listings.{printed_name, printed_type};
ghost use Rattle.cl_writer.specs.Texts.{AreTexts};

use cl_classfile::{Entry, text_at};
use cl_names::Name;
use std::alloc::{AllocError, Global};
use std::collections::BTreeMap;

/// A name of fewer bytes is not kept: it is printed in less time than a search takes.
const LONG: usize = 128;

/// How many bytes of texts are kept at the most.
const MOST_KEPT: usize = 16_777_216;

/// What was printed of the long names of a pool, each by its index.
#[derive(Drop)]
pub struct Texts {
    alloc: Global,
    kept: BTreeMap<u16, String, Global>,
    /// How many bytes more may be kept.
    left: usize,
}

impl Texts {
    /// None yet.
    pub fn new(alloc: Global, pool: &[Entry]) -> Texts
        ensures { AreTexts pool.now result }
    {
        Texts {
            alloc,
            kept: BTreeMap::new(alloc),
            left: MOST_KEPT,
        }
    }

    /// Puts the printed text of the name at an index behind what stands.
    pub fn put_name(
        &mut self,
        text: &mut String,
        pool: &[Entry],
        index: u16,
    ) -> Result<(), AllocError>
        requires { AreTexts pool.now self.old }
        ensures put { OnOk result (string_bytes text.new ≡ string_bytes text.old
            ++ printed_name (text_at pool.now index)) }
        ensures texts { OnOk result (AreTexts pool.now self.new) }
    {
        let Some(name) = text_at(pool, index) else {
            return Ok(());
        };
        if name.bytes().len() < LONG {
            return name.put_text(text);
        }
        match self.kept.get(&index) {
            Some(known) => text.push_str(known),
            None => self.put_new(text, pool, index, name),
        }
    }

    /// Puts the printed text of the class that stands at an index behind what stands.
    #[tactic(auto, unfolding(crate::specs::Listings::printed_type))]
    pub fn put_type(
        &mut self,
        text: &mut String,
        pool: &[Entry],
        index: u16,
    ) -> Result<(), AllocError>
        requires { AreTexts pool.now self.old }
        ensures put { OnOk result (string_bytes text.new ≡ string_bytes text.old
            ++ printed_type pool.now index) }
        ensures texts { OnOk result (AreTexts pool.now self.new) }
    {
        self.put_name(text, pool, name_of_type(pool, index))
    }

    /// The same of a name whose text was not made yet, or not kept: it is kept where there is room.
    fn put_new(
        &mut self,
        text: &mut String,
        pool: &[Entry],
        index: u16,
        name: &Name,
    ) -> Result<(), AllocError>
        requires texts { AreTexts pool.now self.old }
        requires name { text_at pool.now index ≡ Some name.now }
        ensures put { OnOk result (string_bytes text.new ≡ string_bytes text.old
            ++ printed_name (text_at pool.now index)) }
        ensures texts { OnOk result (AreTexts pool.now self.new) }
    {
        let mut made = String::new(self.alloc);
        name.put_text(&mut made)?;
        text.push_str(&made)?;
        if made.len() <= self.left {
            self.left -= made.len();
            self.kept.insert(index, made)?;
        }
        Ok(())
    }
}

/// The index of the text that names a class, or 0, where no text stands.
fn name_of_type(pool: &[Entry], index: u16) -> u16
    ensures { text_at pool.now result ≡ type_name pool.now index }
{
    if index == 0 {
        return 0;
    }
    match pool.get(index as usize - 1) {
        Some(Entry::Class(name)) => *name,
        _ => 0,
    }
}
