//! Files made of parts. Each word adds one to those that stand, `KIND:NUMBER..`, and with `N@` before it N times. The
//! version is 52.0, or what `version:MAJOR.MINOR` says.

use crate::input::{bytes_of, count_of, number};
use crate::stop::Stop;
use crate::texts::bytes_text;
use cl_classfile::{Attribute, ClassFile, Entry, Member, Parts, Version};
use cl_lines::Words;
use cl_names::Name;
use std::alloc::Global;

/// The bytes of the file of these parts, or its fault, and of the parts that come back how many entries there are and
/// the index of the class.
pub fn made_of_parts(alloc: Global, words: Words<'_>) -> Result<String, Stop> {
    let mut parts = Parts {
        version: Version {
            major: 52,
            minor: 0,
        },
        pool: Vec::new(alloc),
        flags: 0,
        this_class: 0,
        super_class: 0,
        interfaces: Vec::new(alloc),
        fields: Vec::new(alloc),
        methods: Vec::new(alloc),
        attributes: Vec::new(alloc),
    };
    for word in words {
        add_often(alloc, &mut parts, word)?;
    }
    match ClassFile::from_parts(alloc, parts) {
        Ok(file) => Ok(bytes_text(alloc, &file)?),
        Err(refused) => {
            let (fault, parts) = (refused.error, refused.parts);
            let count = parts.pool.len();
            Ok(format!(in alloc; "{fault} {count} {}", parts.this_class)?)
        }
    }
}

fn add_often(alloc: Global, parts: &mut Parts, word: &str) -> Result<(), Stop> {
    let Some((count, word)) = word.split_once('@') else {
        return add(alloc, parts, word);
    };
    for _ in 0..count_of(count)? {
        add(alloc, parts, word)?;
    }
    Ok(())
}

/// What stands before the first `:`, and what behind it.
fn cut(text: &str) -> (&str, &str) {
    text.split_once(':').unwrap_or((text, ""))
}

fn add(alloc: Global, parts: &mut Parts, word: &str) -> Result<(), Stop> {
    let (kind, rest) = cut(word);
    match kind {
        "version" => parts.version = version(rest)?,
        "flags" => parts.flags = number(rest)?,
        "this" => parts.this_class = number(rest)?,
        "super" => parts.super_class = number(rest)?,
        "interface" => parts.interfaces.push(number(rest)?)?,
        "field" => parts.fields.push(member(alloc, rest)?)?,
        "method" => parts.methods.push(member(alloc, rest)?)?,
        "fields" => push_members(alloc, &mut parts.fields, rest)?,
        "methods" => push_members(alloc, &mut parts.methods, rest)?,
        "attribute" => {
            let attribute = Attribute::new(number(rest)?, Vec::new(alloc));
            parts.attributes.push(attribute)?;
        }
        _ => parts.pool.push(entry(alloc, kind, rest)?)?,
    }
    Ok(())
}

fn version(text: &str) -> Result<Version, Stop> {
    let (major, minor) = text.split_once('.').ok_or(Stop::NoRow)?;
    Ok(Version {
        major: number(major)?,
        minor: number(minor)?,
    })
}

/// A field or a method: its flags, the indices of its name and its descriptor, how many attributes of no bytes it has.
fn member(alloc: Global, text: &str) -> Result<Member, Stop> {
    let (flags, rest) = cut(text);
    let (name, rest) = cut(rest);
    let (descriptor, count) = cut(rest);
    let mut attributes = Vec::new(alloc);
    for _ in 0..count_of(count)? {
        attributes.push(Attribute::new(1, Vec::new(alloc)))?;
    }
    Ok(Member::new(
        number(flags)?,
        number(name)?,
        number(descriptor)?,
        attributes,
    ))
}

/// So many fields or methods, no two alike: 256 names from one index on, each with 256 descriptors from another on.
fn push_members(alloc: Global, members: &mut Vec<Member>, text: &str) -> Result<(), Stop> {
    let (count, rest) = cut(text);
    let (name, descriptor) = cut(rest);
    let (name, descriptor) = (number(name)?, number(descriptor)?);
    for n in 0..count_of(count)? {
        let name = name.saturating_add((n / 256 % 256) as u16);
        let descriptor = descriptor.saturating_add((n % 256) as u16);
        members.push(Member::new(0, name, descriptor, Vec::new(alloc)))?;
    }
    Ok(())
}

fn entry(alloc: Global, kind: &str, rest: &str) -> Result<Entry, Stop> {
    match kind {
        "utf8" => match Name::any(alloc, bytes_of(alloc, rest)?.as_slice()) {
            Ok(name) => Ok(Entry::Utf8(name)),
            Err(_) => Err(Stop::NoRow),
        },
        "integer" => Ok(Entry::Integer(0)),
        "long" => Ok(Entry::Long(-1)),
        "double" => Ok(Entry::Double(0)),
        "unusable" => Ok(Entry::Unusable),
        "class" => Ok(Entry::Class(number(rest)?)),
        "string" => Ok(Entry::String(number(rest)?)),
        _ => entry_of_two(kind, rest),
    }
}

fn entry_of_two(kind: &str, rest: &str) -> Result<Entry, Stop> {
    let (first, second) = cut(rest);
    let (first, second) = (number(first)?, number(second)?);
    match kind {
        "pair" => Ok(Entry::NameAndType {
            name: first,
            descriptor: second,
        }),
        "methodref" => Ok(Entry::Methodref {
            class: first,
            name_and_type: second,
        }),
        "imethodref" => Ok(Entry::InterfaceMethodref {
            class: first,
            name_and_type: second,
        }),
        "handle" => match u8::try_from(first) {
            Ok(kind) => Ok(Entry::MethodHandle {
                kind,
                reference: second,
            }),
            Err(_) => Err(Stop::NoRow),
        },
        _ => Err(Stop::NoRow),
    }
}
