//! The tables of a registry, as plain maps.

ghost use Rattle.std.specs.Prelude.{◌≡◌, ℕ, List, ◌<◌, None, Some, IfOk, OnOk, length};
ghost use Rattle.std.specs.Option.{option_map};
ghost use Rattle.cl_findings.specs.Findings.{Decides};
ghost use Rattle.cl_registry.specs.Parts.{HasSame, HasSpare, IsPut};
ghost use Rattle.cl_registry.specs.Tables.{placed_at, table_row};

use cl_hierarchy::ClassRow;
use cl_model::{Class, LoaderId, Settled, Told};
use cl_names::{Name, Seed};
use indexmap::IndexMap;
use std::alloc::{AllocError, Global};
use std::sync::Arc;

/// The rows of each loader, by their names.
pub type Rows<T> = Vec<IndexMap<Name, Arc<ClassRow<T>>, Seed>>;

/// The settled references of each class, by their indices.
pub type References = IndexMap<Class, IndexMap<u16, Arc<Settled>, Seed>, Seed>;

/// No rows, for this many loaders, in tables that hash with this seed.
pub fn empty_rows<T: Told>(alloc: Global, seed: Seed, count: usize) -> Result<Rows<T>, AllocError>
    ensures count { IfOk result (λ r. length r.items ≡ count) }
    ensures empty { IfOk result (λ r. (l : ℕ) (n : List ℕ) → table_row r.items l n ≡ None) }
{
    let mut tables = Vec::with_capacity(alloc, count)?;
    for _ in 0..count {
        tables.push(IndexMap::with_hasher(alloc, seed))?;
    }
    Ok(tables)
}

/// The row of a loader and a name.
pub fn find<'a, T: Told>(
    tables: &'a Rows<T>,
    loader: LoaderId,
    name: &Name,
) -> Option<&'a Arc<ClassRow<T>>>
    ensures { option_map (λ r. r.now) result ≡ table_row tables.now.items loader name.now }
{
    tables.get(loader.0 as usize)?.get(name)
}

/// Room for one row more of a loader.
pub fn reserve_row<T: Told>(tables: &mut Rows<T>, loader: LoaderId) -> Result<(), AllocError>
    requires { loader < length tables.old.items }
    ensures width { length tables.new.items ≡ length tables.old.items }
    ensures same { HasSame (table_row tables.old.items) (table_row tables.new.items) }
    ensures room { OnOk result (HasSpare tables.new.items loader) }
{
    tables[loader.0 as usize].reserve(1)
}

/// Puts a row where none is, for which there is room.
pub fn insert_reserved<T: Told>(
    tables: &mut Rows<T>,
    loader: LoaderId,
    name: Name,
    row: Arc<ClassRow<T>>,
)
    requires within { loader < length tables.old.items }
    requires room { HasSpare tables.old.items loader }
    ensures width { length tables.new.items ≡ length tables.old.items }
    ensures put { IsPut (table_row tables.old.items) (table_row tables.new.items) loader name row }
{
    match tables[loader.0 as usize].insert(name, row) {
        Ok(_) => {}
        Err(_) => unreachable!(),
    }
}

/// The loader that defined the class of a row.
pub fn place<T: Told>(tables: &Rows<T>, loader: LoaderId, name: &Name) -> Option<LoaderId>
    ensures { result ≡ placed_at tables.now.items loader name.now }
{
    match find(tables, loader, name) {
        None => None,
        Some(row) => Some(row.class().loader),
    }
}

/// Whether a loader has recorded the class of a name that this loader defined.
pub fn has<T: Told>(tables: &Rows<T>, loader: LoaderId, name: &Name, home: LoaderId) -> bool
    ensures { Decides result (placed_at tables.now.items loader name.now ≡ Some home) }
{
    place(tables, loader, name) == Some(home)
}
