//! What entries of a constant pool ask for (JVMS SE 8, 4.4.1, 4.4.2, 5.4.3).

ghost use Rattle.std.specs.Prelude.{◌≡◌, Some, IfOk, IfSome};
ghost use Rattle.cl_classfile.specs.Files.{file_of, is_array_name, named_type, reference};
ghost use Rattle.cl_classfile.specs.Pool.{NamesType};
ghost use Rattle.cl_model.specs.Plans.{member_target};
ghost use Rattle.cl_tasks.specs.Cited.{AsksBy, AsksMember, IsKind, TellsEntry, TellsItself};

use cl_classfile::{ClassFile, Reference};
use cl_descriptors::{Base, DescriptorFault, FieldType, read_field};
use cl_model::Primitive;
use cl_names::Name;
use std::alloc::{AllocError, Global};

/// What an entry asks for, before any class is loaded.
#[derive(Debug, Drop)]
pub(crate) enum Asked {
    /// It is no reference.
    Nothing,
    ArrayMember,
    /// An array of so many dimensions over a primitive type.
    PrimitiveArray(u8, Primitive),
    /// The class of this name, an array of it, or a member of it.
    Class(Name),
}

/// Which kind of member an entry asks for.
#[derive(Clone, Copy, Debug)]
pub(crate) enum Kind {
    Field,
    Method,
    InterfaceMethod,
}

/// Whether a text is the name of an array: its descriptor.
fn is_array_name(text: &[u8]) -> bool
    ensures { result ≡ is_array_name text.now }
{
    match text {
        [b'[', ..] => true,
        _ => false,
    }
}

/// The type that the text of a class or an array names.
fn named_type(alloc: Global, text: &Name) -> Result<FieldType, AllocError>
    requires { NamesType text.now }
    ensures { IfOk result (λ t. named_type text.now ≡ Some t) }
{
    if !is_array_name(text.bytes()) {
        return Ok(FieldType {
            dims: 0,
            base: Base::Class(text.try_clone(alloc)?),
        });
    }
    match read_field(alloc, text.bytes()) {
        Ok(t) => Ok(t),
        Err(fault) => match fault {
            DescriptorFault::Memory => Err(AllocError),
            _ => unreachable!(),
        },
    }
}

/// What a reference to a class or an array of this type asks for.
fn asked_as(t: FieldType) -> Asked
    ensures { AsksBy t result }
{
    let FieldType { dims, base } = t;
    match Primitive::of_base(&base) {
        Some(primitive) => Asked::PrimitiveArray(dims, primitive),
        None => match base {
            Base::Class(name) => Asked::Class(name),
            _ => unreachable!(),
        },
    }
}

/// The class of this type whose member may be asked for: none, where it is an array.
fn target_of(t: FieldType) -> Option<Name>
    ensures { result ≡ member_target t }
{
    match t.base {
        Base::Class(name) if t.dims == 0 => Some(name),
        _ => None,
    }
}

/// What a reference to a member of this class or array asks for.
fn member_of(alloc: Global, text: &Name) -> Result<Asked, AllocError>
    requires { NamesType text.now }
    ensures { IfOk result (AsksMember text.now) }
{
    let t = named_type(alloc, text)?;
    Ok(match target_of(t) {
        Some(name) => Asked::Class(name),
        None => Asked::ArrayMember,
    })
}

/// What an entry asks for.
pub(crate) fn asked_of(alloc: Global, file: &ClassFile, index: u16) -> Result<Asked, AllocError>
    ensures { IfOk result (TellsEntry (reference (file_of file.now) index)) }
{
    match file.reference(index) {
        None => Ok(Asked::Nothing),
        Some(Reference::Class(text)) => Ok(asked_as(named_type(alloc, text)?)),
        Some(Reference::Field(symbol)) => member_of(alloc, symbol.class),
        Some(Reference::Method(symbol)) => member_of(alloc, symbol.class),
        Some(Reference::InterfaceMethod(symbol)) => member_of(alloc, symbol.class),
    }
}

/// The dimensions of a class or an array that an entry refers to; none, where it asks for a member.
pub(crate) fn itself_of(
    alloc: Global,
    file: &ClassFile,
    index: u16,
) -> Result<Option<u8>, AllocError>
    ensures { IfOk result (TellsItself (reference (file_of file.now) index)) }
{
    match file.reference(index) {
        Some(Reference::Class(text)) => Ok(Some(named_type(alloc, text)?.dims)),
        _ => Ok(None),
    }
}

/// The kind of a member that is asked of what this text names, if that is the class of this name, and no array.
fn asked_of_class(
    alloc: Global,
    text: &Name,
    name: &Name,
    kind: Kind,
) -> Result<Option<Kind>, AllocError>
    requires { NamesType text.now }
    ensures { IfOk result (λ o. IfSome o
        (λ k. (k ≡ kind) × AsksMember text.now (Asked.Class name.now))) }
{
    let t = named_type(alloc, text)?;
    match target_of(t) {
        Some(target) => Ok(if target == *name { Some(kind) } else { None }),
        None => Ok(None),
    }
}

/// The kind of member that an entry asks of the class of this name, if it asks for one of it.
pub(crate) fn kind_of(
    alloc: Global,
    file: &ClassFile,
    index: u16,
    name: &Name,
) -> Result<Option<Kind>, AllocError>
    ensures { IfOk result (λ o. IfSome o (IsKind (reference (file_of file.now) index) name.now)) }
{
    match file.reference(index) {
        Some(Reference::Field(symbol)) => asked_of_class(alloc, symbol.class, name, Kind::Field),
        Some(Reference::Method(symbol)) => asked_of_class(alloc, symbol.class, name, Kind::Method),
        Some(Reference::InterfaceMethod(symbol)) => {
            asked_of_class(alloc, symbol.class, name, Kind::InterfaceMethod)
        }
        _ => Ok(None),
    }
}
