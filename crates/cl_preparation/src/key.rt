//! Methods by their names and descriptors.

ghost use Rattle.std.specs.Prelude.{◌≡◌, Some, IfOk, IsSome};
ghost use Rattle.cl_descriptors.specs.Reading.{whole_method};
ghost use Rattle.cl_classfile.specs.Files.{method_of};
ghost use Rattle.cl_model.specs.Preparation.{class_names, begins_with_angle};
ghost use Rattle.cl_preparation.specs.Methods.{key_in};

use cl_descriptors::{DescriptorFault, read_method};
use cl_names::Name;
use std::alloc::{AllocError, Global};
use std::marker::Model;

/// Whether the name of a method is `<init>` or `<clinit>` (JVMS SE 8, 4.2.2).
pub(crate) fn is_special(name: &Name) -> bool
    ensures { result ≡ begins_with_angle name.now }
{
    name.bytes().starts_with(b"<")
}

/// What a method is looked up by: its name and its descriptor, whose bytes copies share (JVMS SE 8, 4.6).
#[derive(Debug)]
pub(crate) struct MethodKey {
    name: Name,
    descriptor: Name,
}

impl Drop for MethodKey {
    fn drop(self) {
        let MethodKey {
            name: _,
            descriptor: _,
        } = self;
    }
}

impl Model for MethodKey {
    ghost use Rattle.std.specs.Prelude.{IsSome};
    ghost use Rattle.cl_descriptors.specs.Reading.{whole_method};
    ghost use Rattle.cl_classfile.specs.Files.{Key};
    ghost use Rattle.cl_preparation.specs.Methods.{key_in};

    ghost Value = { Key };

    ghost view = { λ k. key_in k.name k.descriptor };

    ghost invariant = { λ k. IsSome (whole_method k.descriptor) };
}

impl MethodKey {
    /// The key of a method of this name and this descriptor.
    pub fn new(alloc: Global, name: &Name, descriptor: &Name) -> Result<MethodKey, AllocError>
        requires { IsSome (whole_method descriptor.now) }
        ensures { IfOk result (λ k. k ≡ key_in name.now descriptor.now) }
    {
        Ok(MethodKey {
            name: name.try_clone(alloc)?,
            descriptor: descriptor.try_clone(alloc)?,
        })
    }

    /// Its name.
    pub fn name(&self) -> &Name
        ensures { result.now ≡ self.now.name }
    {
        &self.name
    }

    /// The text of its descriptor (JVMS SE 8, 4.3.3).
    #[tactic(auto, using(crate::proofs::Keys::read_is))]
    pub fn descriptor(&self) -> &Name
        ensures { method_of self.now.name result.now ≡ Some self.now }
    {
        &self.descriptor
    }

    /// A copy, which shares the bytes.
    pub fn try_clone(&self, alloc: Global) -> Result<MethodKey, AllocError>
        ensures { IfOk result (λ k. k ≡ self.now) }
    {
        MethodKey::new(alloc, &self.name, &self.descriptor)
    }

    /// Whether it is `<init>` or `<clinit>` (JVMS SE 8, 4.2.2).
    pub fn is_special(&self) -> bool
        ensures { result ≡ begins_with_angle self.now.name }
    {
        is_special(&self.name)
    }

    /// The classes that the descriptor names, the return type first.
    #[tactic(auto, using(crate::proofs::Keys::type_read))]
    pub fn class_names(&self, alloc: Global) -> Result<Vec<Name>, AllocError>
        ensures { IfOk result (λ names. names.items ≡ class_names self.now.descriptor) }
    {
        // The descriptor is that of a class file, so that only memory refuses it.
        let of: Result<_, DescriptorFault> = read_method(alloc, self.descriptor.bytes());
        let of = of.map_err(|_| AllocError)?;
        of.element_names(alloc).map_err(|_| AllocError)
    }
}
