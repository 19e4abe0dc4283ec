//! Entries of the pool, as a row writes them.

use crate::names::show;
use cl_classfile::Entry;
use std::alloc::{AllocError, Global};

/// An entry, as a row writes it.
pub fn entry_text(alloc: Global, entry: &Entry) -> Result<String, AllocError> {
    match entry {
        Entry::Utf8(text) => {
            let text = show(alloc, text.bytes())?;
            format!(in alloc; "utf8 '{text}'")
        }
        Entry::Integer(value) => format!(in alloc; "integer {value}"),
        Entry::Float(bits) => format!(in alloc; "float {bits}"),
        Entry::Long(value) => format!(in alloc; "long {value}"),
        Entry::Double(bits) => format!(in alloc; "double {bits}"),
        Entry::Unusable => String::from_str(alloc, "unusable"),
        Entry::Class(text) => format!(in alloc; "class {text}"),
        Entry::String(text) => format!(in alloc; "string {text}"),
        Entry::MethodType(descriptor) => format!(in alloc; "type {descriptor}"),
        Entry::MethodHandle { kind, reference } => {
            format!(in alloc; "handle {kind} {reference}")
        }
        _ => pair_text(alloc, entry),
    }
}

/// The same of an entry that has two indices.
fn pair_text(alloc: Global, entry: &Entry) -> Result<String, AllocError> {
    let (what, first, second) = match entry {
        Entry::Fieldref {
            class,
            name_and_type,
        } => ("fieldref", *class, *name_and_type),
        Entry::Methodref {
            class,
            name_and_type,
        } => ("methodref", *class, *name_and_type),
        Entry::InterfaceMethodref {
            class,
            name_and_type,
        } => ("imethodref", *class, *name_and_type),
        Entry::NameAndType { name, descriptor } => ("pair", *name, *descriptor),
        Entry::InvokeDynamic {
            bootstrap,
            name_and_type,
        } => ("dynamic", *bootstrap, *name_and_type),
        _ => ("other", 0, 0),
    };
    format!(in alloc; "{what} {first} {second}")
}
