//! Copies of types.

ghost use Rattle.std.specs.Prelude.{◌≡◌, IfOk};

use crate::types::{Base, Descriptor, FieldType, MethodType};
use std::alloc::{AllocError, Global};

impl Base {
    /// A copy.
    pub fn try_clone(&self, alloc: Global) -> Result<Base, AllocError>
        ensures { IfOk result (λ base. base ≡ self.now) }
    {
        Ok(match self {
            Base::Byte => Base::Byte,
            Base::Char => Base::Char,
            Base::Double => Base::Double,
            Base::Float => Base::Float,
            Base::Int => Base::Int,
            Base::Long => Base::Long,
            Base::Short => Base::Short,
            Base::Boolean => Base::Boolean,
            Base::Class(name) => Base::Class(name.try_clone(alloc)?),
        })
    }
}

impl FieldType {
    /// A copy.
    pub fn try_clone(&self, alloc: Global) -> Result<FieldType, AllocError>
        ensures { IfOk result (λ t. t ≡ self.now) }
    {
        let base = self.base.try_clone(alloc)?;
        Ok(FieldType {
            dims: self.dims,
            base,
        })
    }
}

impl MethodType {
    /// A copy.
    pub fn try_clone(&self, alloc: Global) -> Result<MethodType, AllocError>
        ensures { IfOk result (λ m. m ≡ self.now) }
    {
        let params = self.params.try_clone(alloc)?;
        let ret = match &self.ret {
            Some(t) => Some(t.try_clone(alloc)?),
            None => None,
        };
        Ok(MethodType { params, ret })
    }
}

impl Descriptor {
    /// A copy.
    pub fn try_clone(&self, alloc: Global) -> Result<Descriptor, AllocError>
        ensures { IfOk result (λ d. d ≡ self.now) }
    {
        match self {
            Descriptor::Field(t) => Ok(Descriptor::Field(t.try_clone(alloc)?)),
            Descriptor::Method(m) => Ok(Descriptor::Method(m.try_clone(alloc)?)),
        }
    }
}
