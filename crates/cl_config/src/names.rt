//! Names in order, each found by a search through a tree: a table of hashes could be made slow by a choice of names.

ghost use Rattle.std.specs.Prelude.{◌≡◌, ◌<◌, ◌++◌, [], ◌∷◌, not, is_some, if◌then◌else◌, length, map, string_bytes, IfOk, IfSome};
ghost use Rattle.cl_config.specs.Views.{loader_named};

use std::alloc::{AllocError, Global};
use std::collections::BTreeMap;
use std::marker::Model;

/// Names in order, none of them twice.
#[derive(Debug)]
pub struct Names {
    /// The names, which are lent together.
    items: Vec<String>,
    /// Of each name its place.
    places: BTreeMap<String, usize, Global>,
}

impl Drop for Names {
    fn drop(self) {
        let Names {
            items: _,
            places: _,
        } = self;
    }
}

impl Model for Names {
    ghost use Rattle.std.specs.Prelude.{ℕ, List, map, string_bytes};
    ghost use Rattle.cl_config.specs.Names.{AreAt};

    ghost Value = { List (List ℕ) };

    ghost view = { λ n. map string_bytes n.items.items };

    ghost invariant = { λ n. AreAt (map string_bytes n.items.items) n.places };
}

impl Names {
    /// None yet.
    pub fn new(alloc: Global) -> Names
        ensures { result ≡ [] }
    {
        Names {
            items: Vec::new(alloc),
            places: BTreeMap::new(alloc),
        }
    }

    /// Adds a name, unless it is there.
    pub fn add(&mut self, alloc: Global, name: &str) -> Result<bool, AllocError>
        ensures is_new { IfOk result (λ added. added ≡ not (is_some (loader_named self.old
            name.now))) }
        ensures names { IfOk result (λ added. self.new
            ≡ (if added then self.old ++ name.now ∷ [] else self.old)) }
    {
        if self.places.contains_key(name) {
            return Ok(false);
        }
        let item = String::from_str(alloc, name)?;
        let key = String::from_str(alloc, name)?;
        self.items.reserve(1)?;
        self.places.insert(key, self.items.len())?;
        self.items.push_reserved(item);
        Ok(true)
    }

    /// The place of a name.
    pub fn find(&self, word: &str) -> Option<usize>
        ensures found { result ≡ loader_named self.now word.now }
        ensures within { IfSome result (λ place. place < length self.now) }
    {
        self.places.get(word).copied()
    }

    /// The names, in order.
    pub fn as_slice(&self) -> &[String]
        ensures { map string_bytes result.now ≡ self.now }
    {
        self.items.as_slice()
    }
}
