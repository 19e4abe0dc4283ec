//! The configuration that a text is.

ghost use Rattle.std.specs.Prelude.{◌≡◌, ◌<◌, ◌≤◌, ◌++◌, [], ◌∷◌, length, map, string_bytes, slice_get, is_some, All, IfOk, IfSome};
ghost use Rattle.std.specs.List.{list_all};
ghost use Rattle.toml.specs.Data.{as_table};
ghost use Rattle.toml.specs.View.{view, table_view, items_view};
ghost use Rattle.cl_config.specs.Configs.{top_of, array_at, loader_tables, config_in, config_of, IsConfig, LeadsBelow};
ghost use Rattle.cl_config.specs.Steps.{Finds, Agrees};
ghost use Rattle.cl_config.specs.Views.{loader_named, names_of};
ghost use Rattle.cl_names.specs.Truth.{Decides};

use crate::entry::entries_in;
use crate::fault::{ConfigError, ConfigFault};
use crate::fields::{has_only, value_at};
use crate::flat::flat_of;
use crate::limits::MOST_LOADERS;
use crate::loader::{Import, Loader, loaders_of};
use crate::names::Names;
use crate::order::Order;
use cl_model::{Directories, LoaderId};
use cl_names::Seed;
use std::alloc::{AllocError, Global};
use std::marker::Model;
use toml::{Table, Value};

/// The loaders, in order: 1 to `MOST_LOADERS`, each of which leads to earlier ones alone (JVMS SE 8, 5.3, 5.3.2).
#[derive(Debug)]
pub struct Config {
    names: Names,
    loaders: Vec<Loader>,
    /// All that is said of the loaders, in one text, so that two configurations are compared at one go.
    flat: Vec<u16>,
    seed: Seed,
}

impl Drop for Config {
    fn drop(self) {
        let Config {
            names: _,
            loaders: _,
            flat: _,
            seed: _,
        } = self;
    }
}

impl Model for Config {
    ghost use Rattle.cl_config.specs.Views.{Configured};
    ghost use Rattle.cl_config.specs.Kept.{IsAtHand};

    ghost Value = { Configured };

    ghost view = { λ c. record { loaders = c.loaders.items } };

    ghost invariant = { λ c. IsAtHand (record { loaders = c.loaders.items }) c.names c.flat.items };
}

impl Config {
    /// The configuration that a text is: of the texts that `toml` reads those whose table keeps the rules of
    /// `specs/Configs.antt`, and no others. Else the first fault, or out of memory.
    pub fn read(alloc: Global, text: &str) -> Result<Config, ConfigError>
        ensures { Agrees (λ c. c) result (config_of text.now) }
    {
        match toml::table_from_str(alloc, text) {
            Ok(table) => config_in(alloc, &table),
            Err(e) if e.is_memory() => Err(ConfigError::Memory),
            Err(_) => Err(ConfigError::Fault(ConfigFault::NotToml)),
        }
    }

    /// The same configuration with a seed for the tables of names that are made for it. One that was read has the seed
    /// that everyone knows.
    pub fn with_seed(self, seed: Seed) -> Config
        ensures { result ≡ self }
    {
        let Config {
            names,
            loaders,
            flat,
            seed: _,
        } = self;
        Config {
            names,
            loaders,
            flat,
            seed,
        }
    }

    /// What the tables of names hash with that are made for the configuration. No answer depends on it.
    pub fn seed(&self) -> Seed {
        self.seed
    }

    /// Whether the other has the same loaders: names, directories, parents, orders and imports, all in order. The seeds
    /// take no part.
    pub fn is_same(&self, other: &Config) -> bool
        ensures { Decides result (self.now ≡ other.now) }
    {
        self.flat == other.flat
    }

    /// The loader of this name.
    pub fn loader(&self, word: &str) -> Option<LoaderId>
        ensures found { result ≡ loader_named (names_of self.now) word.now }
        ensures within { IfSome result (λ l. l < length self.now.loaders) }
    {
        let place = self.names.find(word)?;
        Some(LoaderId(place as u16))
    }

    /// How many loaders there are.
    pub fn count(&self) -> usize
        ensures count { result ≡ length self.now.loaders }
        ensures config { IsConfig self.now }
    {
        self.loaders.len()
    }

    /// A loader's name.
    pub fn name(&self, loader: LoaderId) -> &str
        requires { loader < length self.now.loaders }
        ensures { IfSome (slice_get self.now.loaders loader) (λ l. result.now ≡ l.name) }
    {
        self.at(loader).name()
    }

    /// The directory of a loader's own content.
    pub fn dir(&self, loader: LoaderId) -> &str
        requires { loader < length self.now.loaders }
        ensures { IfSome (slice_get self.now.loaders loader) (λ l. result.now ≡ l.dir) }
    {
        self.at(loader).dir()
    }

    /// A loader's parents, in order, each an earlier loader.
    pub fn parents(&self, loader: LoaderId) -> &[LoaderId]
        requires { loader < length self.now.loaders }
        ensures parents { IfSome (slice_get self.now.loaders loader) (λ l. result.now ≡ l.parents) }
        ensures below { All (λ p. p < loader) result.now }
    {
        self.at(loader).parents()
    }

    /// Where a loader looks first.
    pub fn order(&self, loader: LoaderId) -> Order
        requires { loader < length self.now.loaders }
        ensures { IfSome (slice_get self.now.loaders loader) (λ l. result ≡ l.order) }
    {
        self.at(loader).order()
    }

    /// A loader's imports, in order, each of an earlier loader.
    pub fn imports(&self, loader: LoaderId) -> &[Import]
        requires { loader < length self.now.loaders }
        ensures imports { IfSome (slice_get self.now.loaders loader) (λ l. result.now ≡ l.imports) }
        ensures below { All (λ m. m.target < loader) result.now }
    {
        self.at(loader).imports()
    }

    /// The loaders' names, in order.
    pub fn names(&self) -> &[String]
        ensures { map string_bytes result.now ≡ names_of self.now }
    {
        self.names.as_slice()
    }

    /// A loader.
    fn at(&self, loader: LoaderId) -> &Loader
        requires { loader < length self.now.loaders }
        ensures at { slice_get self.now.loaders loader ≡ Some result.now }
        ensures below { LeadsBelow loader result.now }
    {
        loader_at(self.loaders.as_slice(), usize::from(loader.0))
    }
}

/// The loader of a place.
fn loader_at(loaders: &[Loader], place: usize) -> &Loader
    requires { place < length loaders.now }
    ensures { slice_get loaders.now place ≡ Some result.now }
{
    &loaders[place]
}

/// The configuration that a document is.
#[tactic(auto, unfolding(crate::specs::Configs::config_in))]
fn config_in(alloc: Global, table: &Table) -> Result<Config, ConfigError>
    ensures { Agrees (λ c. c) result (config_in (table_view table.now)) }
{
    let values = top_in(table)?;
    let (names, entries) = entries_in(alloc, values)?;
    let loaders = loaders_of(alloc, &names, entries.as_slice())?;
    let flat = flat_of(alloc, loaders.as_slice())?;
    Ok(Config {
        names,
        loaders,
        flat,
        seed: Seed::common(),
    })
}

/// The tables at the top.
#[tactic(auto, unfolding(crate::specs::Configs::top_of))]
fn top_in(table: &Table) -> Result<&[Value], ConfigFault>
    ensures found { Finds (λ vs. items_view vs.now) result (top_of (table_view table.now)) }
    ensures some { IfOk result (λ vs. 0 < length vs.now) }
    ensures few { IfOk result (λ vs. length vs.now ≤ MOST_LOADERS) }
{
    let values = array_at(table)?;
    check_tables(has_only(table, &["loader"]), values)
}

/// The array at the top.
fn array_at(table: &Table) -> Result<&[Value], ConfigFault>
    ensures { Finds (λ vs. items_view vs.now) result (array_at (table_view table.now)) }
{
    let wrong = ConfigFault::BadLoader(0);
    let Some(value) = value_at(table, "loader") else {
        return Err(wrong);
    };
    match value.as_array() {
        Some(array) => Ok(array.as_slice()),
        None => Err(wrong),
    }
}

/// Some tables, and not too many, where nothing stands beside them.
#[tactic(auto, using(crate::proofs::Tops::count_is, crate::proofs::Tops::tables_are))]
fn check_tables(alone: bool, values: &[Value]) -> Result<&[Value], ConfigFault>
    ensures found { Finds (λ vs. items_view vs.now) result (loader_tables alone
        (items_view values.now)) }
    ensures some { IfOk result (λ vs. 0 < length vs.now) }
    ensures few { IfOk result (λ vs. length vs.now ≤ MOST_LOADERS) }
{
    if !alone || values.is_empty() || !are_tables(values) {
        return Err(ConfigFault::BadLoader(0));
    }
    if values.len() > MOST_LOADERS {
        return Err(ConfigFault::TooMany);
    }
    Ok(values)
}

/// Whether each value is a table.
fn are_tables(values: &[Value]) -> bool
    ensures { result ≡ list_all (λ v. is_some (as_table (view v))) values.now }
{
    values.iter().all(|value| value.is_table())
}

impl Directories for Config {
    ghost texts = { λ c. map (λ l. l.dir) c.loaders };

    /// The directories of the loaders' own content, in order.
    fn directories(&self, alloc: Global) -> Result<Vec<String>, AllocError> {
        dirs_of(alloc, self.loaders.as_slice())
    }
}

/// The directories of loaders, in order.
fn dirs_of(alloc: Global, loaders: &[Loader]) -> Result<Vec<String>, AllocError>
    ensures { IfOk result (λ v. map string_bytes v.items ≡ map (λ l. l.dir) loaders.now) }
{
    let mut dirs = Vec::with_capacity(alloc, loaders.len())?;
    for loader in loaders {
        dirs.push(String::from_str(alloc, loader.dir())?)?;
    }
    Ok(dirs)
}
