//! What the file that the assembler's lines describe is made of.

ghost use Rattle.std.specs.Prelude.{◌≡◌, ◌≤◌, IfOk, length, map};
ghost use Rattle.cl_classfile.specs.View.{plain_parts};
ghost use Rattle.cl_writer.specs.declared.item.Item.TheVariants as said;
ghost use Rattle.cl_writer.specs.Assemblies.{lists_of};
ghost use Rattle.cl_writer.specs.Items.{index};
ghost use Rattle.cl_writer.specs.Described.{described_over, entry_of, member_of, reference_of, super_index};

use crate::assembly::Assembly;
use crate::item::{Item, MemberKind, MemberName};
use crate::items::Items;
use crate::statement::MemberLine;
use cl_classfile::{Entry, MOST_ENTRIES, Member, Parts};
use cl_names::Name;
use std::alloc::{AllocError, Global};

/// The parts of a file of these entries, of which it may have `MOST_ENTRIES` (JVMS SE 8, 4.1).
pub fn parts_of(alloc: Global, items: &Items, assembly: &Assembly) -> Result<Parts, AllocError>
    requires { length items.now ≤ MOST_ENTRIES }
    ensures { IfOk result (λ p. plain_parts p ≡ described_over items.now (lists_of assembly.now)) }
{
    let class = &assembly.class;
    Ok(Parts {
        version: assembly.version(),
        pool: entries(alloc, items, items.as_slice())?,
        flags: class.flags,
        this_class: class_index(alloc, items, &class.name)?,
        super_class: super_index(alloc, items, &class.superclass)?,
        interfaces: class_indices(alloc, items, assembly.interfaces.as_slice())?,
        fields: members(alloc, items, assembly.fields.as_slice())?,
        methods: members(alloc, items, assembly.methods.as_slice())?,
        attributes: Vec::new(alloc),
    })
}

fn text_index(alloc: Global, items: &Items, text: &Name) -> Result<u16, AllocError>
    requires { length items.now ≤ MOST_ENTRIES }
    ensures { IfOk result (λ i. i ≡ index items.now (said.Text text.now)) }
{
    let item = Item::Text(text.try_clone(alloc)?);
    Ok(items.index(&item))
}

fn class_index(alloc: Global, items: &Items, name: &Name) -> Result<u16, AllocError>
    requires { length items.now ≤ MOST_ENTRIES }
    ensures { IfOk result (λ i. i ≡ index items.now (said.Class name.now)) }
{
    let item = Item::Class(name.try_clone(alloc)?);
    Ok(items.index(&item))
}

fn pair_index(alloc: Global, items: &Items, member: &MemberName) -> Result<u16, AllocError>
    requires { length items.now ≤ MOST_ENTRIES }
    ensures { IfOk result (λ i. i ≡ index items.now (said.NameAndType member.now.name
        member.now.descriptor)) }
{
    let name = member.name.try_clone(alloc)?;
    let descriptor = member.descriptor.try_clone(alloc)?;
    let item = Item::NameAndType(name, descriptor);
    Ok(items.index(&item))
}

/// The index of the superclass, and 0 where there is none (JVMS SE 8, 4.1).
fn super_index(alloc: Global, items: &Items, name: &Option<Name>) -> Result<u16, AllocError>
    requires { length items.now ≤ MOST_ENTRIES }
    ensures { IfOk result (λ i. i ≡ super_index items.now name.now) }
{
    match name {
        Some(name) => class_index(alloc, items, name),
        None => Ok(0),
    }
}

/// An entry for each of these, by the indices of what it names (JVMS SE 8, 4.4).
fn entries(alloc: Global, items: &Items, named: &[Item]) -> Result<Vec<Entry>, AllocError>
    requires { length items.now ≤ MOST_ENTRIES }
    ensures { IfOk result (λ pool. pool.items ≡ map (entry_of items.now) named.now) }
{
    let mut pool = Vec::new(alloc);
    for item in named {
        pool.push(entry(alloc, items, item)?)?;
    }
    Ok(pool)
}

fn entry(alloc: Global, items: &Items, item: &Item) -> Result<Entry, AllocError>
    requires { length items.now ≤ MOST_ENTRIES }
    ensures { IfOk result (λ e. e ≡ entry_of items.now item.now) }
{
    Ok(match item {
        Item::Text(text) => Entry::Utf8(text.try_clone(alloc)?),
        Item::Integer(number) => Entry::Integer(*number),
        Item::Class(name) => Entry::Class(text_index(alloc, items, name)?),
        Item::NameAndType(name, descriptor) => {
            let name = text_index(alloc, items, name)?;
            let descriptor = text_index(alloc, items, descriptor)?;
            Entry::NameAndType { name, descriptor }
        }
        Item::Member(kind, member) => {
            let class = class_index(alloc, items, &member.class)?;
            reference(*kind, class, pair_index(alloc, items, member)?)
        }
    })
}

/// The reference to a member of such a kind (JVMS SE 8, 4.4.2).
fn reference(kind: MemberKind, class: u16, name_and_type: u16) -> Entry
    ensures { result ≡ reference_of kind class name_and_type }
{
    match kind {
        MemberKind::Field => Entry::Fieldref {
            class,
            name_and_type,
        },
        MemberKind::Method => Entry::Methodref {
            class,
            name_and_type,
        },
        MemberKind::InterfaceMethod => Entry::InterfaceMethodref {
            class,
            name_and_type,
        },
    }
}

fn class_indices(alloc: Global, items: &Items, names: &[Name]) -> Result<Vec<u16>, AllocError>
    requires { length items.now ≤ MOST_ENTRIES }
    ensures { IfOk result (λ v. v.items ≡ map (λ n. index items.now (said.Class n)) names.now) }
{
    let mut indices = Vec::new(alloc);
    for name in names {
        indices.push(class_index(alloc, items, name)?)?;
    }
    Ok(indices)
}

/// The fields or methods of these lines, without attributes (JVMS SE 8, 4.5, 4.6).
fn members(alloc: Global, items: &Items, lines: &[MemberLine]) -> Result<Vec<Member>, AllocError>
    requires { length items.now ≤ MOST_ENTRIES }
    ensures { IfOk result (λ v. v.items ≡ map (member_of items.now) lines.now) }
{
    let mut members = Vec::new(alloc);
    for line in lines {
        members.push(member(alloc, items, line)?)?;
    }
    Ok(members)
}

fn member(alloc: Global, items: &Items, line: &MemberLine) -> Result<Member, AllocError>
    requires { length items.now ≤ MOST_ENTRIES }
    ensures { IfOk result (λ m. m ≡ member_of items.now line.now) }
{
    let name = text_index(alloc, items, &line.name)?;
    let descriptor = text_index(alloc, items, &line.descriptor)?;
    Ok(Member::new(line.flags, name, descriptor, Vec::new(alloc)))
}
