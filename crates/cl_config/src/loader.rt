//! Loaders, each parent and import by its number.

ghost use Rattle.std.specs.Prelude.{◌≡◌, ◌<◌, ◌≤◌, ◌^◌, [], length, map, Ok, IfOk};
ghost use Rattle.cl_config.specs.Configs.{earlier_named, parents_of, import_of, imports_of, loader_of, loaders_of, AllLeadBelow};
ghost use Rattle.cl_config.specs.Views.{names_of};
ghost use Rattle.cl_config.specs.Steps.{Finds, Agrees};

use crate::entry::{Entry, EntryImport};
use crate::fault::{ConfigError, ConfigFault};
use crate::fields::Text;
use crate::limits::MOST_LOADERS;
use crate::names::Names;
use crate::order::Order;
use cl_model::LoaderId;
use cl_names::Name;
use std::alloc::Global;
use std::marker::Model;

/// Names that begin with a prefix, which are searched at one loader alone (JVMS SE 8, 5.3.2).
#[derive(Debug)]
pub struct Import {
    prefix: Name,
    target: LoaderId,
}

impl Drop for Import {
    fn drop(self) {
        let Import {
            prefix: _,
            target: _,
        } = self;
    }
}

impl Model for Import {
    ghost use Rattle.cl_model.specs.Homes.{Import as Shown};

    ghost Value = { Shown };

    ghost view = { λ m. record { prefix = m.prefix; target = m.target } };
}

impl Import {
    /// What the names begin with.
    pub fn prefix(&self) -> &Name
        ensures { result.now ≡ self.now.prefix }
    {
        &self.prefix
    }

    /// The loader that has them.
    pub fn target(&self) -> LoaderId
        ensures { result ≡ self.now.target }
    {
        self.target
    }
}

/// The imports of a loader, in order.
#[derive(Debug)]
pub struct Imports {
    items: Vec<Import>,
}

impl Drop for Imports {
    fn drop(self) {
        let Imports { items: _ } = self;
    }
}

impl Model for Imports {
    ghost use Rattle.std.specs.Prelude.{List};
    ghost use Rattle.cl_model.specs.Homes.{Import as Shown};

    ghost Value = { List Shown };

    ghost view = { λ m. m.items.items };
}

/// The parents of a loader, in order.
#[derive(Debug)]
pub struct Parents {
    items: Vec<LoaderId>,
}

impl Drop for Parents {
    fn drop(self) {
        let Parents { items: _ } = self;
    }
}

impl Model for Parents {
    ghost use Rattle.std.specs.Prelude.{ℕ, List};

    ghost Value = { List ℕ };

    ghost view = { λ p. p.items.items };
}

/// A loader: its name, the directory of its own content, whom it asks and when, and what it takes from where (JVMS SE 8,
/// 5.3, 5.3.2).
#[derive(Debug)]
pub struct Loader {
    name: Text,
    dir: Text,
    parents: Parents,
    order: Order,
    imports: Imports,
}

impl Drop for Loader {
    fn drop(self) {
        let Loader {
            name: _,
            dir: _,
            parents: _,
            order: _,
            imports: _,
        } = self;
    }
}

impl Model for Loader {
    ghost use Rattle.cl_config.specs.Views.{Loader as Shown};

    ghost Value = { Shown };

    ghost view = { λ l. record {
      name = l.name;
      dir = l.dir;
      parents = l.parents;
      order = l.order;
      imports = l.imports;
    } };
}

impl Loader {
    /// Its name.
    pub fn name(&self) -> &str
        ensures { result.now ≡ self.now.name }
    {
        self.name.as_str()
    }

    /// The directory of its own content.
    pub fn dir(&self) -> &str
        ensures { result.now ≡ self.now.dir }
    {
        self.dir.as_str()
    }

    /// Its parents, in order.
    pub fn parents(&self) -> &[LoaderId]
        ensures { result.now ≡ self.now.parents }
    {
        self.parents.items.as_slice()
    }

    /// Where it looks first.
    pub fn order(&self) -> Order
        ensures { result ≡ self.now.order }
    {
        self.order
    }

    /// Its imports, in order.
    pub fn imports(&self) -> &[Import]
        ensures { result.now ≡ self.now.imports }
    {
        self.imports.items.as_slice()
    }
}

/// The loader of this name, where it stands before loader `i`.
fn earlier(names: &Names, i: usize, name: &str) -> Result<LoaderId, ConfigFault>
    requires { i < MOST_LOADERS }
    ensures { Finds (λ p. p) result (earlier_named names.now i name.now) }
{
    match names.find(name) {
        None => Err(ConfigFault::UnknownLoader(i as u32)),
        Some(place) if place < i => Ok(LoaderId(place as u16)),
        Some(_) => Err(ConfigFault::LaterLoader(i as u32)),
    }
}

/// The parents of loader `i`.
fn parents_of(
    alloc: Global,
    names: &Names,
    i: usize,
    parents: &[Text],
) -> Result<Parents, ConfigError>
    requires { i < MOST_LOADERS }
    ensures { Agrees (λ x. x) result (parents_of names.now i parents.now) }
{
    let mut items = Vec::with_capacity(alloc, parents.len())?;
    for parent in parents {
        items.push(earlier(names, i, parent.as_str())?)?;
    }
    Ok(Parents { items })
}

/// An import of loader `i`.
#[tactic(auto, unfolding(crate::specs::Configs::import_of))]
fn import_of(
    alloc: Global,
    names: &Names,
    i: usize,
    import: &EntryImport,
) -> Result<Import, ConfigError>
    requires { i < MOST_LOADERS }
    ensures { Agrees (λ x. x) result (import_of names.now i import.now) }
{
    let target = earlier(names, i, import.from())?;
    let prefix = import.prefix().try_clone(alloc)?;
    Ok(Import { prefix, target })
}

/// The imports of loader `i`.
fn imports_of(
    alloc: Global,
    names: &Names,
    i: usize,
    imports: &[EntryImport],
) -> Result<Imports, ConfigError>
    requires { i < MOST_LOADERS }
    ensures { Agrees (λ x. x) result (imports_of names.now i imports.now) }
{
    let mut items = Vec::with_capacity(alloc, imports.len())?;
    for import in imports {
        items.push(import_of(alloc, names, i, import)?)?;
    }
    Ok(Imports { items })
}

/// Loader `i`.
#[tactic(auto, unfolding(crate::specs::Configs::loader_of))]
fn loader_of(alloc: Global, names: &Names, i: usize, entry: &Entry) -> Result<Loader, ConfigError>
    requires { i < MOST_LOADERS }
    ensures { Agrees (λ x. x) result (loader_of names.now i entry.now) }
{
    let parents = parents_of(alloc, names, i, entry.parents())?;
    let imports = imports_of(alloc, names, i, entry.imports())?;
    Ok(Loader {
        name: Text::new(alloc, entry.name())?,
        dir: Text::new(alloc, entry.dir())?,
        parents,
        order: entry.order(),
        imports,
    })
}

/// Each loader, in order.
pub(crate) fn loaders_of(
    alloc: Global,
    names: &Names,
    entries: &[Entry],
) -> Result<Vec<Loader>, ConfigError>
    requires few { length entries.now ≤ MOST_LOADERS }
    requires names { names.now ≡ map (λ e. e.name) entries.now }
    ensures read { Agrees (λ v. v.items) result (loaders_of entries.now) }
    ensures count { IfOk result (λ v. length v.items ≡ length entries.now) }
    ensures below { IfOk result (λ v. AllLeadBelow 0 v.items) }
    ensures names { IfOk result (λ v. names_of (record { loaders = v.items }) ≡ names.now) }
{
    let mut loaders = Vec::new(alloc);
    for entry in entries {
        let before = loaders.as_slice();
        let loader = loader_of(alloc, names, before.len(), entry)?;
        loaders.push(loader)?;
    }
    Ok(loaders)
}
