//! The classes that a member's descriptor names, and what two loaders have to agree on (JVMS SE 8, 4.3, 5.3.4).

ghost use Rattle.std.specs.Prelude.{◌≡◌, Some, IfOk, IsSome, map, option_to_list};
ghost use Rattle.std.specs.Option.{option_map};
ghost use Rattle.cl_descriptors.specs.Types.{class_of, classes_of};
ghost use Rattle.cl_descriptors.specs.Reading.{whole_field, whole_method};
ghost use Rattle.cl_descriptors.specs.Answers.{IsFieldDescriptor, IsMethodDescriptor};
ghost use Rattle.cl_classfile.specs.Files.{file_of};
ghost use Rattle.cl_model.specs.Preparation.{class_names, equal_between};
ghost use Rattle.cl_hierarchy.specs.Imposed.{needs_of};
ghost use Rattle.cl_members.specs.Asking.{key_at};

use cl_classfile::{ClassFile, Reference};
use cl_descriptors::{DescriptorFault, MethodType, read_field, read_method};
use cl_hierarchy::equality;
use cl_model::{Equality, LoaderId};
use cl_names::Name;
use std::alloc::{AllocError, Global};

/// A name, if there is one.
fn list_of(alloc: Global, name: Option<&Name>) -> Result<Vec<Name>, AllocError>
    ensures { IfOk result (λ v. v.items ≡ option_to_list (option_map (λ n. n.now) name.entry)) }
{
    let mut names = Vec::new(alloc);
    if let Some(name) = name {
        names.push(name.try_clone(alloc)?)?;
    }
    Ok(names)
}

/// The class that the descriptor of a field names, if it names one; of an array, that of its elements.
#[tactic(auto, using(crate::proofs::Keyed::field_classes))]
fn field_names(alloc: Global, descriptor: &Name) -> Result<Vec<Name>, AllocError>
    requires { IsFieldDescriptor descriptor.now }
    ensures { IfOk result (λ v. option_map (λ t. option_to_list (class_of t))
        (whole_field descriptor.now) ≡ Some v.items) }
{
    match read_field(alloc, descriptor.bytes()) {
        Ok(t) => {
            let names = list_of(alloc, t.element_name())?;
            Ok(names)
        }
        Err(DescriptorFault::Memory) => Err(AllocError),
        Err(_) => unreachable!(),
    }
}

/// The classes that the type of a method names, the return type first.
fn call_names(alloc: Global, m: &MethodType) -> Result<Vec<Name>, AllocError>
    ensures { IfOk result (λ v. v.items ≡ classes_of m.now) }
{
    match m.element_names(alloc) {
        Ok(names) => Ok(names),
        Err(_) => Err(AllocError),
    }
}

/// The classes that the descriptor of a method names: that of the return type, and then those of the parameters.
#[tactic(auto, using(crate::proofs::Keyed::method_classes))]
fn method_names(alloc: Global, descriptor: &Name) -> Result<Vec<Name>, AllocError>
    requires { IsMethodDescriptor descriptor.now }
    ensures { IfOk result (λ v. option_map classes_of (whole_method descriptor.now)
        ≡ Some v.items) }
{
    match read_method(alloc, descriptor.bytes()) {
        Ok(m) => {
            let names = call_names(alloc, &m)?;
            Ok(names)
        }
        Err(DescriptorFault::Memory) => Err(AllocError),
        Err(_) => unreachable!(),
    }
}

/// The classes that the descriptor of the member names that an entry asks for, the return type first.
pub fn class_names(alloc: Global, file: &ClassFile, index: u16) -> Result<Vec<Name>, AllocError>
    requires { IsSome (key_at (file_of file.now) index) }
    ensures { IfOk result (λ v. option_map (λ k. class_names k.descriptor)
        (key_at (file_of file.now) index) ≡ Some v.items) }
{
    match file.reference(index) {
        Some(Reference::Field(symbol)) => field_names(alloc, symbol.descriptor),
        Some(Reference::Method(symbol)) => method_names(alloc, symbol.descriptor),
        Some(Reference::InterfaceMethod(symbol)) => method_names(alloc, symbol.descriptor),
        _ => unreachable!(),
    }
}

/// For each of these names the equality of the two loaders, the lesser first (JVMS SE 8, 5.3.4).
pub fn equals(
    alloc: Global,
    names: Vec<Name>,
    one: LoaderId,
    other: LoaderId,
) -> Result<Vec<Equality>, AllocError>
    ensures { IfOk result (λ v. needs_of v.items ≡ map (λ n. equal_between n one other)
        names.items) }
{
    let mut needs = Vec::with_capacity(alloc, names.len())?;
    for name in names {
        needs.push(equality(name, one, other))?;
    }
    Ok(needs)
}
