//! Questions about class files.

use crate::entries::entry_text;
use crate::names::show;
use cl_classfile::{Attribute, ClassFile, Entry, Member, Reference, Symbol, read};
use std::alloc::{AllocError, Global};

/// The fault of the bytes.
pub fn file_fault(alloc: Global, bytes: &[u8]) -> Result<String, AllocError> {
    match read(alloc, bytes) {
        Ok(_) => String::from_str(alloc, "fine"),
        Err(fault) => format!(in alloc; "{fault}"),
    }
}

/// The parts of a file.
pub fn file_parts(alloc: Global, bytes: &[u8]) -> Result<String, AllocError> {
    match read(alloc, bytes) {
        Ok(file) => parts_text(alloc, &file),
        Err(fault) => format!(in alloc; "{fault}"),
    }
}

/// The parts of a file, in order.
fn parts_text(alloc: Global, file: &ClassFile) -> Result<String, AllocError> {
    let mut text = pool_text(alloc, file.pool())?;
    let version = file.version();
    let numbers = format!(in alloc; "version {} {} ", version.major, version.minor)?;
    text.push_str(numbers.as_str())?;
    let flags = file.flags();
    let (this_class, super_class) = (file.this_class(), file.super_class());
    let this_name = show(alloc, file.this_name().bytes())?;
    let super_name = match file.super_name() {
        Some(name) => show(alloc, name.bytes())?,
        None => String::from_str(alloc, "-")?,
    };
    let names = format!(in alloc; "{this_class} {this_name} {super_class} {super_name}")?;
    text.push_str(format!(in alloc; "flags {flags} classes {names}")?.as_str())?;
    for interface in file.interfaces() {
        text.push_str(format!(in alloc; " interface {interface}")?.as_str())?;
    }
    push_members(alloc, &mut text, " field", file.fields())?;
    push_members(alloc, &mut text, " method", file.methods())?;
    push_attributes(alloc, &mut text, file.attributes())?;
    Ok(text)
}

fn pool_text(alloc: Global, pool: &[Entry]) -> Result<String, AllocError> {
    let mut text = String::new(alloc);
    for entry in pool {
        text.push_str(entry_text(alloc, entry)?.as_str())?;
        text.push_str(", ")?;
    }
    Ok(text)
}

fn push_members(
    alloc: Global,
    text: &mut String,
    what: &str,
    members: &[Member],
) -> Result<(), AllocError> {
    for member in members {
        let (flags, name) = (member.flags(), member.name_index());
        let descriptor = member.descriptor_index();
        let line = format!(in alloc; "{what} {flags} {name} {descriptor}")?;
        text.push_str(line.as_str())?;
        push_attributes(alloc, text, member.attributes())?;
    }
    Ok(())
}

fn push_attributes(
    alloc: Global,
    text: &mut String,
    attributes: &[Attribute],
) -> Result<(), AllocError> {
    for attribute in attributes {
        let bytes = hex::encode(alloc, attribute.bytes())?;
        let line = format!(in alloc; " attribute {} {bytes}", attribute.name_index())?;
        text.push_str(line.as_str())?;
    }
    Ok(())
}

/// What the entry at an index refers to.
pub fn reference(alloc: Global, bytes: &[u8], index: u16) -> Result<String, AllocError> {
    let file = match read(alloc, bytes) {
        Ok(file) => file,
        Err(fault) => return format!(in alloc; "{fault}"),
    };
    match file.reference(index) {
        Some(Reference::Class(name)) => {
            let name = show(alloc, name.bytes())?;
            format!(in alloc; "class {name}")
        }
        Some(Reference::Field(symbol)) => symbol_text(alloc, "field", symbol),
        Some(Reference::Method(symbol)) => symbol_text(alloc, "method", symbol),
        Some(Reference::InterfaceMethod(symbol)) => symbol_text(alloc, "imethod", symbol),
        None => String::from_str(alloc, "none"),
    }
}

fn symbol_text(alloc: Global, what: &str, symbol: Symbol<'_>) -> Result<String, AllocError> {
    let class = show(alloc, symbol.class.bytes())?;
    let name = show(alloc, symbol.name.bytes())?;
    let descriptor = show(alloc, symbol.descriptor.bytes())?;
    format!(in alloc; "{what} {class} {name} {descriptor}")
}
