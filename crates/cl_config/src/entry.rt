//! What tables say of loaders, each parent and import still by its name.

ghost use Rattle.std.specs.Prelude.{◌≡◌, ◌<◌, ◌≤◌, ◌^◌, ◌++◌, [], ◌∷◌, true, length, map, Ok, IfOk};
ghost use Rattle.std.specs.Option.{option_map};
ghost use Rattle.std.specs.List.{list_all};
ghost use Rattle.toml.specs.View.{view, items_view};
ghost use Rattle.cl_config.specs.Fields.{each_from};
ghost use Rattle.cl_config.specs.Entries.{import_at, imports_at, parent_at, parents_at, entry_of, entries_of, is_new_name, is_name_byte};
ghost use Rattle.cl_config.specs.Steps.{Agrees};

use crate::fault::{ConfigError, ConfigFault};
use crate::fields::{Field, Text, or_else, table_in, under, value_at};
use crate::limits::{MOST_IMPORTS, MOST_LOADER_NAME_BYTES, MOST_LOADERS, MOST_PARENTS};
use crate::names::Names;
use crate::order::Order;
use cl_names::Name;
use std::alloc::{AllocError, Global};
use std::marker::Model;
use toml::Value;

/// An import, of a loader by its name.
#[derive(Debug)]
pub struct EntryImport {
    prefix: Name,
    from: Text,
}

impl Drop for EntryImport {
    fn drop(self) {
        let EntryImport { prefix: _, from: _ } = self;
    }
}

impl Model for EntryImport {
    ghost use Rattle.cl_config.specs.Entries.{EntryImport as Shown};

    ghost Value = { Shown };

    ghost view = { λ l. record { prefix = l.prefix; from = l.from } };
}

impl EntryImport {
    /// What the names begin with.
    pub fn prefix(&self) -> &Name
        ensures { result.now ≡ self.now.prefix }
    {
        &self.prefix
    }

    /// The loader's name.
    pub fn from(&self) -> &str
        ensures { result.now ≡ self.now.from }
    {
        self.from.as_str()
    }
}

/// Imports, in order.
#[derive(Debug)]
pub struct EntryImports {
    links: Vec<EntryImport>,
}

impl Drop for EntryImports {
    fn drop(self) {
        let EntryImports { links: _ } = self;
    }
}

impl Model for EntryImports {
    ghost use Rattle.std.specs.Prelude.{List};
    ghost use Rattle.cl_config.specs.Entries.{EntryImport as Shown};

    ghost Value = { List Shown };

    ghost view = { λ l. l.links.items };
}

impl EntryImports {
    /// The imports.
    pub fn as_slice(&self) -> &[EntryImport]
        ensures { result.now ≡ self.now }
    {
        self.links.as_slice()
    }
}

/// The parents' names, in order.
#[derive(Debug)]
pub struct EntryParents {
    texts: Vec<Text>,
}

impl Drop for EntryParents {
    fn drop(self) {
        let EntryParents { texts: _ } = self;
    }
}

impl Model for EntryParents {
    ghost use Rattle.std.specs.Prelude.{ℕ, List};

    ghost Value = { List (List ℕ) };

    ghost view = { λ p. p.texts.items };
}

impl EntryParents {
    /// The names.
    pub fn as_slice(&self) -> &[Text]
        ensures { result.now ≡ self.now }
    {
        self.texts.as_slice()
    }
}

/// What a table says of a loader.
#[derive(Debug)]
pub struct Entry {
    name: Text,
    dir: Text,
    parents: EntryParents,
    order: Order,
    imports: EntryImports,
}

impl Drop for Entry {
    fn drop(self) {
        let Entry {
            name: _,
            dir: _,
            parents: _,
            order: _,
            imports: _,
        } = self;
    }
}

impl Model for Entry {
    ghost use Rattle.cl_config.specs.Entries.{Entry as Shown};

    ghost Value = { Shown };

    ghost view = { λ s. record {
      name = s.name;
      dir = s.dir;
      parents = s.parents;
      order = s.order;
      imports = s.imports;
    } };
}

impl Entry {
    /// Its name.
    pub fn name(&self) -> &str
        ensures { result.now ≡ self.now.name }
    {
        self.name.as_str()
    }

    /// Its directory.
    pub fn dir(&self) -> &str
        ensures { result.now ≡ self.now.dir }
    {
        self.dir.as_str()
    }

    /// Where it looks first.
    pub fn order(&self) -> Order
        ensures { result ≡ self.now.order }
    {
        self.order
    }

    /// Its parents' names.
    pub fn parents(&self) -> &[Text]
        ensures { result.now ≡ self.now.parents }
    {
        self.parents.as_slice()
    }

    /// Its imports.
    pub fn imports(&self) -> &[EntryImport]
        ensures { result.now ≡ self.now.imports }
    {
        self.imports.as_slice()
    }
}

/// The import that a table is.
#[tactic(auto, unfolding(crate::specs::Entries::import_at))]
fn import_at(alloc: Global, wrong: ConfigFault, value: &Value) -> Result<EntryImport, ConfigError>
    ensures { Agrees (λ x. x) result (import_at wrong (view value.now)) }
{
    let table = table_in(wrong, &["prefix", "from"], value)?;
    let prefix = under::<Name>(alloc, wrong, table, "prefix")?;
    let from = under::<Text>(alloc, wrong, table, "from")?;
    Ok(EntryImport { prefix, from })
}

/// The imports that an array is.
fn imports_in(
    alloc: Global,
    wrong: ConfigFault,
    values: &[Value],
) -> Result<EntryImports, ConfigError>
    ensures { Agrees (λ x. x) result (each_from (λ before. import_at wrong) []
        (items_view values.now)) }
{
    let mut links = Vec::new(alloc);
    for value in values {
        links.push(import_at(alloc, wrong, value)?)?;
    }
    Ok(EntryImports { links })
}

impl Field for EntryImports {
    ghost use Rattle.cl_config.specs.Entries.{imports_at};

    ghost field = { imports_at };

    fn read(
        alloc: Global,
        wrong: ConfigFault,
        value: Option<&Value>,
    ) -> Result<EntryImports, ConfigError> {
        let Some(value) = value else {
            return Ok(EntryImports {
                links: Vec::new(alloc),
            });
        };
        match value.as_array() {
            Some(values) => imports_in(alloc, wrong, values.as_slice()),
            None => Err(ConfigError::Fault(wrong)),
        }
    }
}

/// The name of a parent, which is none of those that were seen before, and is seen from now on.
fn parent_at(
    alloc: Global,
    wrong: ConfigFault,
    seen: &mut Names,
    value: &Value,
) -> Result<Text, ConfigError>
    ensures parent { Agrees (λ x. x) result (parent_at wrong seen.old (view value.now)) }
    ensures seen { IfOk result (λ name. seen.new ≡ seen.old ++ name ∷ []) }
{
    let Some(text) = value.as_str() else {
        return Err(ConfigError::Fault(wrong));
    };
    if !seen.add(alloc, text)? {
        return Err(ConfigError::Fault(wrong));
    }
    Text::new(alloc, text)
}

/// The names of parents that an array is, none of them twice. Each is looked for among those before it in order, so that
/// no choice of names makes it slow.
fn parents_in(
    alloc: Global,
    wrong: ConfigFault,
    values: &[Value],
) -> Result<EntryParents, ConfigError>
    ensures { Agrees (λ x. x) result (each_from (parent_at wrong) [] (items_view values.now)) }
{
    let mut texts = Vec::new(alloc);
    let mut seen = Names::new(alloc);
    for value in values {
        texts.push(parent_at(alloc, wrong, &mut seen, value)?)?;
    }
    Ok(EntryParents { texts })
}

/// The names of a loader's parents: the one name, or those of the array, where not both are there.
fn parents_at(
    alloc: Global,
    wrong: ConfigFault,
    one: Option<Text>,
    many: Option<&Value>,
) -> Result<EntryParents, ConfigError>
    ensures { Agrees (λ x. x) result (parents_at wrong one
        (option_map (λ v. view v.now) many.entry)) }
{
    let mut texts = Vec::new(alloc);
    let Some(many) = many else {
        if let Some(name) = one {
            texts.push(name)?;
        }
        return Ok(EntryParents { texts });
    };
    match (one, many.as_array()) {
        (None, Some(values)) => parents_in(alloc, wrong, values.as_slice()),
        _ => Err(ConfigError::Fault(wrong)),
    }
}

/// Whether a loader's name may have this byte.
fn is_name_byte(b: u8) -> bool
    ensures { result ≡ is_name_byte b }
{
    matches!(b, b'A'..=b'Z' | b'a'..=b'z' | b'0'..=b'9' | b'_' | b'-')
}

/// Whether it is a name, and no earlier loader's. Then it is taken.
fn take_name(alloc: Global, names: &mut Names, name: &str) -> Result<bool, AllocError>
    ensures is_new { IfOk result (λ taken. taken ≡ is_new_name names.old name.now) }
    ensures names { IfOk result (λ taken. taken ≡ true → names.new
        ≡ names.old ++ name.now ∷ []) }
{
    let is_name = 1 <= name.len()
        && name.len() <= MOST_LOADER_NAME_BYTES
        && has_name_bytes(name.as_bytes());
    if !is_name {
        return Ok(false);
    }
    names.add(alloc, name)
}

/// Whether each byte may stand in a name.
fn has_name_bytes(name: &[u8]) -> bool
    ensures { result ≡ list_all is_name_byte name.now }
{
    name.iter().all(|b| is_name_byte(*b))
}

/// The loader that a table is, behind those that have these names.
#[tactic(auto, unfolding(crate::specs::Entries::entry_of))]
fn entry_of(
    alloc: Global,
    wrong: ConfigFault,
    names: &mut Names,
    value: &Value,
) -> Result<Entry, ConfigError>
    ensures entry { Agrees (λ x. x) result (entry_of wrong names.old (view value.now)) }
    ensures names { IfOk result (λ entry. names.new ≡ names.old ++ entry.name ∷ []) }
{
    let keys = ["name", "dir", "parent", "parents", "order", "imports"];
    let table = table_in(wrong, &keys, value)?;
    let name = under::<Text>(alloc, wrong, table, "name")?;
    let dir = under::<Option<Text>>(alloc, wrong, table, "dir")?;
    let parent = under::<Option<Text>>(alloc, wrong, table, "parent")?;
    let parents = parents_at(alloc, wrong, parent, value_at(table, "parents"))?;
    let order = under::<Order>(alloc, wrong, table, "order")?;
    let imports = under::<EntryImports>(alloc, wrong, table, "imports")?;
    if !take_name(alloc, names, name.as_str())? {
        return Err(ConfigError::Fault(wrong));
    }
    if parents.as_slice().len() > MOST_PARENTS || imports.as_slice().len() > MOST_IMPORTS {
        return Err(ConfigError::Fault(ConfigFault::TooMany));
    }
    let dir = or_else(alloc, &name, dir)?;
    Ok(Entry {
        name,
        dir,
        parents,
        order,
        imports,
    })
}

/// The loaders that an array is, with their names.
pub fn entries_in(alloc: Global, values: &[Value]) -> Result<(Names, Vec<Entry>), ConfigError>
    requires { length values.now ≤ MOST_LOADERS }
    ensures loaders { Agrees (λ v. v.1.items) result (entries_of (items_view values.now)) }
    ensures count { IfOk result (λ v. length v.1.items ≡ length values.now) }
    ensures names { IfOk result (λ v. v.0 ≡ map (λ e. e.name) v.1.items) }
{
    let mut loaders = Vec::new(alloc);
    let mut names = Names::new(alloc);
    for value in values {
        let before = loaders.as_slice();
        let wrong = ConfigFault::BadLoader(before.len() as u32);
        let loader = entry_of(alloc, wrong, &mut names, value)?;
        loaders.push(loader)?;
    }
    Ok((names, loaders))
}
