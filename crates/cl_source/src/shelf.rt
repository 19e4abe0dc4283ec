ghost use Rattle.std.specs.Prelude.{◌≡◌, [], ◌∷◌, ◌++◌, None, Some, OnOk, IfErr, OnErr, IfOk, bytes_eq};
ghost use Rattle.std.specs.Option.{option_map};
ghost use Rattle.indexmap.specs.IndexMap.{insert_entry};
ghost use Rattle.cl_source.specs.Shelves.{bytes_in};

use crate::source::ClassBytes;
use cl_names::{Name, Seed};
use indexmap::IndexMap;
use std::alloc::{AllocError, Global};
use std::marker::Model;
use std::sync::Arc;

/// The content of one loader: names with the bytes that stand for them, each name once.
pub(crate) struct Shelf {
    entries: IndexMap<Name, Arc<ClassBytes>, Seed>,
}

impl Drop for Shelf {
    fn drop(self) {
        let Shelf { entries: _ } = self;
    }
}

impl Model for Shelf {
    ghost use Rattle.std.specs.Prelude.{map};
    ghost use Rattle.cl_source.specs.Shelves.{Shelved};

    ghost Value = { Shelved };

    ghost view = { λ s. map (λ e. (e.0, e.1.value)) s.entries.entries };
}

/// What could not be put.
#[derive(Drop)]
pub(crate) struct NotPut {
    pub name: Name,
    pub bytes: Vec<u8>,
}

impl Shelf {
    /// An empty one, whose table hashes with this seed.
    pub fn new(alloc: Global, seed: Seed) -> Shelf
        ensures { result ≡ [] }
    {
        Shelf {
            entries: IndexMap::with_hasher(alloc, seed),
        }
    }

    /// The bytes of a name.
    pub fn find(&self, name: &Name) -> Option<&Arc<ClassBytes>>
        ensures { option_map (λ b. b.now.value) result ≡ bytes_in self.now name.now }
    {
        self.entries.get(name)
    }

    /// A copy, which shares the bytes.
    pub fn try_clone(&self, alloc: Global) -> Result<Shelf, AllocError>
        ensures { IfOk result (λ s. s ≡ self.now) }
    {
        let seed = *self.entries.hasher();
        let mut entries = IndexMap::with_capacity_and_hasher(alloc, self.entries.len(), seed)?;
        for (name, bytes) in self.entries.iter() {
            store(&mut entries, name.try_clone(alloc)?, Arc::try_clone(bytes)?)?;
        }
        Ok(Shelf { entries })
    }

    /// Puts a name that is not there. It is refused only where memory runs out.
    pub fn put(&mut self, alloc: Global, name: Name, bytes: Vec<u8>) -> Result<(), NotPut>
        requires { bytes_in self.old name ≡ None }
        ensures ok { OnOk result (self.new ≡ self.old ++ (name, bytes.items) ∷ []) }
        ensures unchanged { OnErr result (self.new ≡ self.old) }
        ensures name_returned { IfErr result (λ e. e.name ≡ name) }
        ensures bytes_returned { IfErr result (λ e. e.bytes.items ≡ bytes.items) }
    {
        if self.entries.reserve(1).is_err() {
            return Err(NotPut { name, bytes });
        }
        match Arc::new(alloc, ClassBytes::from(bytes)) {
            Ok(bytes) => {
                let _ = self.entries.insert(name, bytes);
                Ok(())
            }
            Err(refused) => Err(NotPut {
                name,
                bytes: refused.value.into_vec(),
            }),
        }
    }
}

/// Stores the bytes of a name.
fn store(
    entries: &mut IndexMap<Name, Arc<ClassBytes>, Seed>,
    name: Name,
    bytes: Arc<ClassBytes>,
) -> Result<(), AllocError>
    ensures { OnOk result (entries.new.entries ≡ insert_entry bytes_eq entries.old.entries
        name bytes) }
{
    entries.insert(name, bytes)?;
    Ok(())
}
