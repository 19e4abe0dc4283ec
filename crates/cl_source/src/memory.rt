ghost use Rattle.std.specs.Prelude.{◌≡◌, ◌+◌, ◌<◌, ◌≤◌, ◌^◌, [], None, is_some, length, OnOk, OnErr, IfOk, IfErr, IsErrOf, IsOkUnless};
ghost use Rattle.std.specs.Option.{option_map};
ghost use Rattle.cl_model.specs.Content.{Content, content_at, TellsContent};
ghost use Rattle.cl_source.specs.Counts.{Counts};
ghost use Rattle.cl_source.specs.Told.{GivesContent};
ghost use Rattle.cl_source.specs.Puts.{BytesFit, RefusesPut, TellsMore};
ghost use Rattle.cl_source.specs.Shelves.{content_from, Inserts};

use crate::shelf::{NotPut, Shelf};
use crate::size::MOST_CLASS_BYTES;
use crate::source::{ClassBytes, Outcome, Probe, Source, SourceFault};
use cl_model::{LoaderId, Told};
use cl_names::{Name, Seed};
use std::alloc::{AllocError, Global};
use std::marker::{Model, PhantomData};
use std::sync::Arc;

/// A source in memory that is being filled, and tells nothing yet.
pub struct MemorySource {
    seed: Seed,
    /// One for each loader, as far as any was put.
    shelves: Vec<Shelf>,
}

impl Drop for MemorySource {
    fn drop(self) {
        let MemorySource {
            seed: _,
            shelves: _,
        } = self;
    }
}

impl Model for MemorySource {
    ghost use Rattle.cl_model.specs.Content.{Content};
    ghost use Rattle.cl_source.specs.Shelves.{content_from};

    ghost Value = { Content };

    ghost view = { λ m. content_from 0 m.shelves.items };
}

/// Why a class could not be put, with what was to be put.
#[derive(Drop)]
pub struct PutRefused {
    pub fault: SourceFault,
    pub name: Name,
    pub bytes: Vec<u8>,
}

impl MemorySource {
    /// An empty one, for names that no stranger chooses: its tables hash with the seed that everyone knows.
    pub fn new(alloc: Global) -> MemorySource
        ensures { result ≡ [] }
    {
        MemorySource::with_hasher(alloc, Seed::common())
    }

    /// An empty one, whose tables hash with this seed.
    pub fn with_hasher(alloc: Global, seed: Seed) -> MemorySource
        ensures { result ≡ [] }
    {
        MemorySource {
            seed,
            shelves: Vec::new(alloc),
        }
    }

    /// Puts the bytes of a loader and name. `TooLarge` is over `MOST_CLASS_BYTES`; `Twice`, where they have bytes
    /// already; `Memory`.
    pub fn put(
        &mut self,
        alloc: Global,
        loader: LoaderId,
        name: Name,
        bytes: Vec<u8>,
    ) -> Result<(), PutRefused>
        // What is put.
        ensures fits { OnOk result (BytesFit bytes.items) }
        ensures absent { OnOk result (content_at self.old loader name ≡ None) }
        ensures one_more { OnOk result (Inserts self.old self.new (record {
          loader = loader;
          name = name;
          bytes = bytes.items;
        })) }
        ensures told { OnOk result (TellsMore self.old self.new loader name bytes.items) }
        // Where it is refused: why, and what is given back.
        ensures refused { IfErr result (λ e. RefusesPut self.old loader name bytes.items e.fault) }
        ensures unchanged { OnErr result (self.new ≡ self.old) }
        ensures name_returned { IfErr result (λ e. e.name ≡ name) }
        ensures bytes_returned { IfErr result (λ e. e.bytes.items ≡ bytes.items) }
    {
        let fault = if bytes.len() > MOST_CLASS_BYTES {
            SourceFault::TooLarge
        } else if find(self.shelves.as_slice(), loader, &name).is_some() {
            SourceFault::Twice
        } else {
            match put_on(&mut self.shelves, alloc, self.seed, loader, name, bytes) {
                Ok(()) => return Ok(()),
                Err(NotPut { name, bytes }) => {
                    return Err(PutRefused {
                        fault: SourceFault::Memory,
                        name,
                        bytes,
                    });
                }
            }
        };
        Err(PutRefused { fault, name, bytes })
    }

    /// Whether a loader and name have bytes.
    pub fn has(&self, loader: LoaderId, name: &Name) -> bool
        ensures { result ≡ is_some (content_at self.now loader name.now) }
    {
        find(self.shelves.as_slice(), loader, name).is_some()
    }

    /// The source of what was put, where that is what `T` tells, or it tells nothing.
    pub fn tell<T: Told>(self) -> Telling<T>
        requires { TellsContent T.told self }
        ensures { result ≡ self }
    {
        let MemorySource { seed: _, shelves } = self;
        Telling {
            shelves,
            of: PhantomData,
        }
    }
}

/// The source of what was put.
pub struct Telling<T: Told> {
    shelves: Vec<Shelf>,
    of: PhantomData<T>,
}

impl<T: Told> Drop for Telling<T> {
    fn drop(self) {
        let Telling { shelves: _, of: _ } = self;
    }
}

impl<T: Told> Model for Telling<T> {
    ghost use Rattle.cl_model.specs.Content.{Content, TellsContent};
    ghost use Rattle.cl_source.specs.Shelves.{content_from};

    ghost Value = { Content };

    ghost view = { λ m. content_from 0 m.shelves.items };

    ghost invariant = { λ m. TellsContent T.told (content_from 0 m.shelves.items) };
}

impl<T: Told> Source<T> for Telling<T> {
    ghost refused = { λ _. 0 };

    ghost gives = { λ s loader name result. GivesContent s loader name result };

    /// What was put for a loader and a name. It is refused only where memory runs out.
    fn read(
        &mut self,
        alloc: Global,
        loader: LoaderId,
        name: &Name,
    ) -> Result<Probe<T>, SourceFault>
        ensures asked { IfOk result (λ p. (p.loader ≡ loader) × (p.name ≡ name.now)) }
        ensures counts { Counts 0 0 result }
        ensures told { IfOk result (λ p. p.bytes ≡ content_at self.old loader name.now) }
        ensures refused { IsOkUnless result SourceFault.Memory }
        ensures unchanged { self.new ≡ self.old }
    {
        let outcome = match find(self.shelves.as_slice(), loader, name) {
            Some(bytes) => Outcome::Found(Arc::try_clone(bytes)?),
            None => Outcome::Absent,
        };
        Ok(Probe::new(loader, name.try_clone(alloc)?, outcome))
    }

    fn failures(&self) -> u64 {
        0
    }

    fn another(&self, alloc: Global) -> Result<Self, SourceFault>
        ensures refused { IsOkUnless result SourceFault.Memory }
        ensures same { IfOk result (λ s. s ≡ self.now) }
    {
        Ok(Telling {
            shelves: copies(alloc, self.shelves.as_slice())?,
            of: PhantomData,
        })
    }
}

/// The bytes of a loader and name.
fn find<'a>(shelves: &'a [Shelf], loader: LoaderId, name: &Name) -> Option<&'a Arc<ClassBytes>>
    ensures { option_map (λ b. b.now.value) result ≡ content_at (content_from 0 shelves.now) loader
        name.now }
{
    shelves.get(usize::from(loader.0))?.find(name)
}

/// Puts what is not there. It is refused only where memory runs out.
fn put_on(
    shelves: &mut Vec<Shelf>,
    alloc: Global,
    seed: Seed,
    loader: LoaderId,
    name: Name,
    bytes: Vec<u8>,
) -> Result<(), NotPut>
    requires { content_at (content_from 0 shelves.old.items) loader name ≡ None }
    ensures ok { OnOk result (Inserts (content_from 0 shelves.old.items)
        (content_from 0 shelves.new.items) (record {
          loader = loader;
          name = name;
          bytes = bytes.items;
        })) }
    ensures told { OnOk result (TellsMore (content_from 0 shelves.old.items)
        (content_from 0 shelves.new.items) loader name bytes.items) }
    ensures unchanged { OnErr result (content_from 0 shelves.new.items
        ≡ content_from 0 shelves.old.items) }
    ensures name_returned { IfErr result (λ e. e.name ≡ name) }
    ensures bytes_returned { IfErr result (λ e. e.bytes.items ≡ bytes.items) }
{
    let place = usize::from(loader.0);
    if make_room(shelves, alloc, seed, place).is_err() {
        return Err(NotPut { name, bytes });
    }
    let shelf = &mut shelves[place];
    shelf.put(alloc, name, bytes)
}

/// Makes empty shelves up to this place.
fn make_room(
    shelves: &mut Vec<Shelf>,
    alloc: Global,
    seed: Seed,
    place: usize,
) -> Result<(), AllocError>
    ensures room { OnOk result (place < length shelves.new.items) }
    ensures same { content_from 0 shelves.new.items ≡ content_from 0 shelves.old.items }
{
    while shelves.len() <= place {
        shelves.push(Shelf::new(alloc, seed))?;
    }
    Ok(())
}

/// Copies of shelves, which share the bytes.
fn copies(alloc: Global, shelves: &[Shelf]) -> Result<Vec<Shelf>, AllocError>
    ensures { IfOk result (λ v. v.items ≡ shelves.now) }
{
    let mut copies = Vec::with_capacity(alloc, shelves.len())?;
    for shelf in shelves {
        copies.push(shelf.try_clone(alloc)?)?;
    }
    Ok(copies)
}
