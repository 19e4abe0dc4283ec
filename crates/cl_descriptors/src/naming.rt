//! The classes that types name.

ghost use Rattle.std.specs.Prelude.{◌≡◌, ◌++◌, OnOk, IfOk, IsOkUnless, option_map, option_to_list, filter_map};
ghost use Rattle.cl_descriptors.specs.Types.{class_of_base, class_of, classes_of};
ghost use Rattle.cl_descriptors.specs.declared.types.DescriptorFault.TheVariants.{Memory};

use crate::types::{Base, DescriptorFault, FieldType, MethodType};
use cl_names::Name;
use std::alloc::{AllocError, Global};

impl FieldType {
    /// The class that it names: of an array, that of its elements.
    pub fn element_name(&self) -> Option<&Name>
        ensures { option_map (λ name. name.now) result ≡ class_of self.now }
    {
        match &self.base {
            Base::Class(name) => Some(name),
            _ => None,
        }
    }
}

impl MethodType {
    /// The classes that it names: that of the return type, and then those of the parameters in order, of arrays those of their elements.
    /// It is refused only where memory runs out.
    pub fn element_names(&self, alloc: Global) -> Result<Vec<Name>, DescriptorFault>
        ensures names { IfOk result (λ names. names.items ≡ classes_of self.now) }
        ensures memory { IsOkUnless result Memory }
    {
        let mut names = Vec::new(alloc);
        if let Some(ret) = &self.ret {
            push_name(alloc, &mut names, ret)?;
        }
        push_names(alloc, &mut names, self.params.as_slice())?;
        Ok(names)
    }
}

fn push_name(alloc: Global, names: &mut Vec<Name>, t: &FieldType) -> Result<(), AllocError>
    ensures { OnOk result (names.new.items ≡ names.old.items ++ option_to_list (class_of t.now)) }
{
    if let Some(name) = t.element_name() {
        names.push(name.try_clone(alloc)?)?;
    }
    Ok(())
}

fn push_names(alloc: Global, names: &mut Vec<Name>, types: &[FieldType]) -> Result<(), AllocError>
    ensures { OnOk result (names.new.items ≡ names.old.items ++ filter_map class_of types.now) }
{
    for t in types {
        push_name(alloc, names, t)?;
    }
    Ok(())
}
