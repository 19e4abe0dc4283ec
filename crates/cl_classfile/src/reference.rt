//! What a class file refers to (JVMS SE 8, 4.4.1, 4.4.2).

ghost use Rattle.std.specs.Prelude.{◌≡◌};
ghost use Rattle.std.specs.Option.{option_map, option_and_then};
ghost use Rattle.cl_classfile.specs.Structure.{at};
ghost use Rattle.cl_classfile.specs.Files.{symbol_at, citation_of};
ghost use Rattle.cl_classfile.specs.References.{plain_symbol, plain_reference};

use crate::checking::{text_at, type_name};
use crate::entry::Entry;
use crate::indices::item_at;
use cl_names::Name;

/// A member of a class.
#[derive(Clone, Copy, Debug)]
pub struct Symbol<'a> {
    /// The name of the class, or the descriptor of the array, that the member is asked of.
    pub class: &'a Name,
    pub name: &'a Name,
    pub descriptor: &'a Name,
}

/// What an entry refers to.
#[derive(Clone, Copy, Debug)]
pub enum Reference<'a> {
    /// A class by its name, or an array by its descriptor.
    Class(&'a Name),
    Field(Symbol<'a>),
    Method(Symbol<'a>),
    InterfaceMethod(Symbol<'a>),
}

fn symbol_at(pool: &[Entry], class: u16, name_and_type: u16) -> Option<Symbol<'_>>
    ensures { option_map plain_symbol result ≡ symbol_at pool.now class name_and_type }
{
    let class = type_name(pool, class)?;
    let Some(Entry::NameAndType { name, descriptor }) = item_at(pool, name_and_type) else {
        return None;
    };
    let name = text_at(pool, *name)?;
    let descriptor = text_at(pool, *descriptor)?;
    Some(Symbol {
        class,
        name,
        descriptor,
    })
}

/// What the entry at an index refers to, if it is a reference.
pub fn reference_at(pool: &[Entry], index: u16) -> Option<Reference<'_>>
    ensures { option_map plain_reference result ≡ option_and_then (citation_of pool.now)
        (at pool.now index) }
{
    match item_at(pool, index)? {
        Entry::Class(text) => Some(Reference::Class(text_at(pool, *text)?)),
        Entry::Fieldref {
            class,
            name_and_type,
        } => Some(Reference::Field(symbol_at(pool, *class, *name_and_type)?)),
        Entry::Methodref {
            class,
            name_and_type,
        } => Some(Reference::Method(symbol_at(pool, *class, *name_and_type)?)),
        Entry::InterfaceMethodref {
            class,
            name_and_type,
        } => Some(Reference::InterfaceMethod(symbol_at(pool, *class, *name_and_type)?)),
        _ => None,
    }
}
