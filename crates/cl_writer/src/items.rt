//! The pool that the assembler makes, as entries that name one another.

ghost use Rattle.std.specs.Prelude.{◌≡◌, ◌≤◌, ◌++◌, ◌∷◌, [], fold, length, is_some, option_to_list, IfOk, OnOk};
ghost use Rattle.std.specs.List.{flat_map};
ghost use Rattle.cl_writer.specs.Assemblies.{lists_of};
ghost use Rattle.cl_writer.specs.declared.item.Item.TheVariants as said;
ghost use Rattle.indexmap.specs.IndexMap.{get};
ghost use Rattle.cl_writer.specs.Items.{PutsIndex, same_item, index, index_of, with_item, class_wanted, type_wanted, wanted_items, line_wanted, items_of};

use crate::assembly::Assembly;
use crate::item::Item;
use crate::statement::MemberLine;
use cl_classfile::MOST_ENTRIES;
use cl_names::{Name, Seed};
use indexmap::IndexMap;
use std::alloc::{AllocError, Global};
use std::marker::Model;

/// Entries in order, and the least index, counted from 1, at which each of them stands.
#[derive(Drop)]
pub struct Items {
    items: Vec<Item>,
    indices: IndexMap<Item, usize, Seed>,
}

impl Model for Items {
    ghost use Rattle.std.specs.Prelude.{List};
    ghost use Rattle.cl_writer.specs.declared.item.Item.{Item as Said};
    ghost use Rattle.cl_writer.specs.Items.{ItemsAreIndexed};

    ghost Value = { List Said };

    ghost view = { λ t. t.items.items };

    ghost invariant = { λ t. ItemsAreIndexed t.items.items t.indices };
}

impl Items {
    /// None, in a table that hashes with this seed.
    fn new(alloc: Global, seed: Seed) -> Items
        ensures { result ≡ [] }
    {
        Items {
            items: Vec::new(alloc),
            indices: IndexMap::with_hasher(alloc, seed),
        }
    }

    /// The entries, in order.
    pub fn as_slice(&self) -> &[Item]
        ensures { result.now ≡ self.now }
    {
        self.items.as_slice()
    }

    /// The least index at which an entry stands, and 0 where it does not (JVMS SE 8, 4.4).
    pub fn index(&self, item: &Item) -> u16
        requires { length self.now ≤ MOST_ENTRIES }
        ensures { result ≡ index self.now item.now }
    {
        match self.indices.get(item) {
            Some(index) => *index as u16,
            None => 0,
        }
    }

    /// Whether an equal entry stands.
    fn has(&self, item: &Item) -> bool
        ensures { result ≡ is_some (index_of self.now item.now) }
    {
        holds(&self.indices, item)
    }

    /// With an entry at the end.
    fn with(mut self, alloc: Global, item: Item) -> Result<Items, AllocError>
        ensures { IfOk result (λ t. t ≡ self ++ item ∷ []) }
    {
        let copy = item.try_clone(alloc)?;
        self.items.push(item)?;
        if !holds(&self.indices, &copy) {
            let index = self.items.len();
            insert_new(&mut self.indices, copy, index)?;
        }
        Ok(self)
    }

    /// With an entry at the end, unless an equal one stands.
    fn with_new(self, alloc: Global, item: Item) -> Result<Items, AllocError>
        ensures { IfOk result (λ t. t ≡ with_item self item) }
    {
        if self.has(&item) {
            return Ok(self);
        }
        self.with(alloc, item)
    }

    fn with_text(self, alloc: Global, text: &Name) -> Result<Items, AllocError>
        ensures { IfOk result (λ t. t ≡ with_item self (said.Text text.now)) }
    {
        let text = text.try_clone(alloc)?;
        self.with_new(alloc, Item::Text(text))
    }

    fn with_class(self, alloc: Global, name: &Name) -> Result<Items, AllocError>
        ensures { IfOk result (λ t. t ≡ fold with_item self (class_wanted name.now)) }
    {
        let items = self.with_text(alloc, name)?;
        let name = name.try_clone(alloc)?;
        items.with_new(alloc, Item::Class(name))
    }

    fn with_type(self, alloc: Global, name: &Name, descriptor: &Name) -> Result<Items, AllocError>
        ensures { IfOk result (λ t. t ≡ fold with_item self (type_wanted name.now descriptor.now)) }
    {
        let items = self.with_text(alloc, name)?;
        let items = items.with_text(alloc, descriptor)?;
        let name = name.try_clone(alloc)?;
        let descriptor = descriptor.try_clone(alloc)?;
        items.with_new(alloc, Item::NameAndType(name, descriptor))
    }

    /// With what a field or a method wants.
    fn with_line(self, alloc: Global, line: &MemberLine) -> Result<Items, AllocError>
        ensures { IfOk result (λ t. t ≡ fold with_item self (line_wanted line.now)) }
    {
        let items = self.with_text(alloc, &line.name)?;
        items.with_text(alloc, &line.descriptor)
    }

    /// With what an entry names, and then itself, as far as no equal one stands.
    fn with_wanted(self, alloc: Global, item: &Item) -> Result<Items, AllocError>
        ensures { IfOk result (λ t. t ≡ fold with_item self (wanted_items item.now)) }
    {
        let items = match item {
            Item::Text(text) => return self.with_text(alloc, text),
            Item::Class(name) => return self.with_class(alloc, name),
            Item::NameAndType(name, descriptor) => return self.with_type(alloc, name, descriptor),
            Item::Integer(_) => self,
            Item::Member(_, member) => {
                let items = self.with_class(alloc, &member.class)?;
                items.with_type(alloc, &member.name, &member.descriptor)?
            }
        };
        items.with_new(alloc, item.try_clone(alloc)?)
    }
}

/// Whether the indices have an entry.
fn holds(indices: &IndexMap<Item, usize, Seed>, item: &Item) -> bool
    ensures { result ≡ is_some (get same_item indices.now item.now) }
{
    indices.contains_key(item)
}

/// Puts the index of an entry to the indices.
fn insert_new(
    indices: &mut IndexMap<Item, usize, Seed>,
    item: Item,
    index: usize,
) -> Result<(), AllocError>
    ensures { OnOk result (PutsIndex indices.old indices.new item index) }
{
    indices.insert(item, index)?;
    Ok(())
}

/// With these entries at the end.
fn with_references(items: Items, alloc: Global, named: &[Item]) -> Result<Items, AllocError>
    ensures { IfOk result (λ t. t ≡ items ++ named.now) }
{
    let mut items = items;
    for item in named {
        items = items.with(alloc, item.try_clone(alloc)?)?;
    }
    Ok(items)
}

/// With what these entries want.
fn with_all(items: Items, alloc: Global, named: &[Item]) -> Result<Items, AllocError>
    ensures { IfOk result (λ t. t ≡ fold with_item items (flat_map wanted_items named.now)) }
{
    let mut items = items;
    for item in named {
        items = items.with_wanted(alloc, item)?;
    }
    Ok(items)
}

fn with_classes(items: Items, alloc: Global, names: &[Name]) -> Result<Items, AllocError>
    ensures { IfOk result (λ t. t ≡ fold with_item items (flat_map class_wanted names.now)) }
{
    let mut items = items;
    for name in names {
        items = items.with_class(alloc, name)?;
    }
    Ok(items)
}

fn with_lines(items: Items, alloc: Global, lines: &[MemberLine]) -> Result<Items, AllocError>
    ensures { IfOk result (λ t. t ≡ fold with_item items (flat_map line_wanted lines.now)) }
{
    let mut items = items;
    for line in lines {
        items = items.with_line(alloc, line)?;
    }
    Ok(items)
}

fn with_super(items: Items, alloc: Global, name: &Option<Name>) -> Result<Items, AllocError>
    ensures { IfOk result (λ t. t ≡ fold with_item items
        (flat_map class_wanted (option_to_list name.now))) }
{
    match name {
        Some(name) => items.with_class(alloc, name),
        None => Ok(items),
    }
}

/// The entries that the lines of a class ask for: those of its `ref` lines, and then what is wanted, where no equal
/// entry stands.
pub fn items_of(alloc: Global, seed: Seed, assembly: &Assembly) -> Result<Items, AllocError>
    ensures { IfOk result (λ t. t ≡ items_of (lists_of assembly.now)) }
{
    let references = assembly.references.as_slice();
    let items = with_references(Items::new(alloc, seed), alloc, references)?;
    let items = with_all(items, alloc, references)?;
    let items = items.with_class(alloc, &assembly.class.name)?;
    let items = with_super(items, alloc, &assembly.class.superclass)?;
    let items = with_classes(items, alloc, assembly.interfaces.as_slice())?;
    let items = with_lines(items, alloc, assembly.fields.as_slice())?;
    with_lines(items, alloc, assembly.methods.as_slice())
}
