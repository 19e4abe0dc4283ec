//! Class files as bytes.

ghost use Rattle.std.specs.Prelude.{◌≡◌, ◌+◌, ◌<◌, ◌^◌, ◌++◌, OnOk, IfOk, Ok, length};
ghost use Rattle.std.specs.List.{flat_map, AllByRecursion};
ghost use Rattle.std.specs.Int.{w16, to_be_bytes};
ghost use Rattle.cl_classfile.specs.Pool.{entry_spelling};
ghost use Rattle.cl_classfile.specs.declared.entry.Entry.TheVariants.{MethodHandle};
ghost use Rattle.cl_classfile.specs.Structure.{AllFit, AttributeFits, MemberFits, Spells, attribute_spelling, counted_list, member_spelling, pool_spelling};
ghost use Rattle.cl_classfile.specs.Reading.{read_of};

use crate::bytes::{MAGIC, put_tagged, put_text, put_two, put_u16, put_version};
use crate::fault::WriteFault;
use cl_classfile::{Attribute, ClassFile, Entry, Member, tags};
use std::alloc::{AllocError, Global};

/// The bytes that spell a file (JVMS SE 8, 4.1). It is refused only where memory runs out.
pub fn write(alloc: Global, file: &ClassFile) -> Result<Vec<u8>, WriteFault>
    // The file is spelled so.
    ensures spelled { IfOk result (λ bytes. Spells bytes.items file.now) }
    // It is read back.
    ensures reads_back { IfOk result (λ bytes. read_of bytes.items ≡ Ok file.now) }
{
    Ok(bytes_of(alloc, file)?)
}

/// The bytes that spell a file.
fn bytes_of(alloc: Global, file: &ClassFile) -> Result<Vec<u8>, AllocError>
    ensures { IfOk result (λ bytes. Spells bytes.items file.now) }
{
    let mut out = Vec::new(alloc);
    out.extend_from_slice(&MAGIC)?;
    put_version(&mut out, file.version())?;
    put_pool(&mut out, file.pool())?;
    put_u16(&mut out, file.flags())?;
    put_u16(&mut out, file.this_class())?;
    put_u16(&mut out, file.super_class())?;
    put_interfaces(&mut out, file.interfaces())?;
    put_members(&mut out, file.fields())?;
    put_members(&mut out, file.methods())?;
    put_attributes(&mut out, file.attributes())?;
    Ok(out)
}

/// A count, and each of the entries (JVMS SE 8, 4.1).
fn put_pool(out: &mut Vec<u8>, pool: &[Entry]) -> Result<(), AllocError>
    requires { length pool.now + 1 < 2 ^ 16 }
    ensures { OnOk result (out.new.items ≡ out.old.items ++ pool_spelling pool.now) }
{
    put_u16(out, (pool.len() + 1) as u16)?;
    put_entries(out, pool)
}

fn put_entries(out: &mut Vec<u8>, pool: &[Entry]) -> Result<(), AllocError>
    ensures { OnOk result (out.new.items ≡ out.old.items ++ flat_map entry_spelling pool.now) }
{
    for entry in pool {
        put_entry(out, entry)?;
    }
    Ok(())
}

/// The entry's tag, and what follows it (JVMS SE 8, 4.4).
fn put_entry(out: &mut Vec<u8>, entry: &Entry) -> Result<(), AllocError>
    ensures { OnOk result (out.new.items ≡ out.old.items ++ entry_spelling entry.now) }
{
    match entry {
        Entry::Utf8(text) => put_text(out, text.bytes()),
        Entry::Integer(value) => put_tagged(out, tags::INTEGER, &value.to_be_bytes()),
        Entry::Float(bits) => put_tagged(out, tags::FLOAT, &bits.to_be_bytes()),
        Entry::Long(value) => put_tagged(out, tags::LONG, &value.to_be_bytes()),
        Entry::Double(bits) => put_tagged(out, tags::DOUBLE, &bits.to_be_bytes()),
        Entry::Unusable => Ok(()),
        Entry::Class(text) => put_tagged(out, tags::CLASS, &text.to_be_bytes()),
        Entry::String(text) => put_tagged(out, tags::STRING, &text.to_be_bytes()),
        Entry::Fieldref {
            class,
            name_and_type,
        } => put_two(out, tags::FIELDREF, *class, *name_and_type),
        Entry::Methodref {
            class,
            name_and_type,
        } => put_two(out, tags::METHODREF, *class, *name_and_type),
        Entry::InterfaceMethodref {
            class,
            name_and_type,
        } => put_two(out, tags::INTERFACE_METHODREF, *class, *name_and_type),
        Entry::NameAndType { name, descriptor } => put_two(
            out,
            tags::NAME_AND_TYPE,
            *name,
            *descriptor,
        ),
        Entry::MethodHandle { kind, reference } => put_handle(out, *kind, *reference),
        Entry::MethodType(descriptor) => put_tagged(
            out,
            tags::METHOD_TYPE,
            &descriptor.to_be_bytes(),
        ),
        Entry::InvokeDynamic {
            bootstrap,
            name_and_type,
        } => put_two(out, tags::INVOKE_DYNAMIC, *bootstrap, *name_and_type),
    }
}

/// A method handle's tag, its kind and its reference (JVMS SE 8, 4.4.8).
fn put_handle(out: &mut Vec<u8>, kind: u8, reference: u16) -> Result<(), AllocError>
    ensures { OnOk result (out.new.items ≡ out.old.items
        ++ entry_spelling (MethodHandle kind reference)) }
{
    out.push(tags::METHOD_HANDLE)?;
    out.push(kind)?;
    put_u16(out, reference)
}

/// A count, and each of the indices.
fn put_interfaces(out: &mut Vec<u8>, interfaces: &[u16]) -> Result<(), AllocError>
    requires { length interfaces.now < 2 ^ 16 }
    ensures { OnOk result (out.new.items ≡ out.old.items ++ counted_list (to_be_bytes w16)
        interfaces.now) }
{
    put_u16(out, interfaces.len() as u16)?;
    put_numbers(out, interfaces)
}

fn put_numbers(out: &mut Vec<u8>, numbers: &[u16]) -> Result<(), AllocError>
    ensures { OnOk result (out.new.items ≡ out.old.items ++ flat_map (to_be_bytes w16)
        numbers.now) }
{
    for number in numbers {
        put_u16(out, *number)?;
    }
    Ok(())
}

/// A count, and each of the fields or methods.
fn put_members(out: &mut Vec<u8>, members: &[Member]) -> Result<(), AllocError>
    requires { AllFit MemberFits members.now }
    ensures { OnOk result (out.new.items
        ≡ out.old.items ++ counted_list member_spelling members.now) }
{
    put_u16(out, members.len() as u16)?;
    put_each_member(out, members)
}

fn put_each_member(out: &mut Vec<u8>, members: &[Member]) -> Result<(), AllocError>
    requires { AllByRecursion MemberFits members.now }
    ensures { OnOk result (out.new.items ≡ out.old.items ++ flat_map member_spelling members.now) }
{
    for member in members {
        put_member(out, member)?;
    }
    Ok(())
}

/// A field or a method (JVMS SE 8, 4.5, 4.6).
fn put_member(out: &mut Vec<u8>, member: &Member) -> Result<(), AllocError>
    requires { MemberFits member.now }
    ensures { OnOk result (out.new.items ≡ out.old.items ++ member_spelling member.now) }
{
    put_u16(out, member.flags())?;
    put_u16(out, member.name_index())?;
    put_u16(out, member.descriptor_index())?;
    put_attributes(out, member.attributes())
}

/// A count, and each of the attributes.
fn put_attributes(out: &mut Vec<u8>, attributes: &[Attribute]) -> Result<(), AllocError>
    requires { AllFit AttributeFits attributes.now }
    ensures { OnOk result (out.new.items ≡ out.old.items ++ counted_list attribute_spelling
        attributes.now) }
{
    put_u16(out, attributes.len() as u16)?;
    put_each_attribute(out, attributes)
}

fn put_each_attribute(out: &mut Vec<u8>, attributes: &[Attribute]) -> Result<(), AllocError>
    requires { AllByRecursion AttributeFits attributes.now }
    ensures { OnOk result (out.new.items ≡ out.old.items ++ flat_map attribute_spelling
        attributes.now) }
{
    for attribute in attributes {
        put_attribute(out, attribute)?;
    }
    Ok(())
}

/// An attribute: the index of its name, its length and its bytes (JVMS SE 8, 4.7).
fn put_attribute(out: &mut Vec<u8>, attribute: &Attribute) -> Result<(), AllocError>
    requires { AttributeFits attribute.now }
    ensures { OnOk result (out.new.items ≡ out.old.items ++ attribute_spelling attribute.now) }
{
    let length = attribute.bytes().len() as u32;
    put_u16(out, attribute.name_index())?;
    out.extend_from_slice(&length.to_be_bytes())?;
    out.extend_from_slice(attribute.bytes())
}
