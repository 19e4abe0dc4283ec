//! Writing descriptors.

ghost use Rattle.std.specs.Prelude.{◌≡◌, ◌++◌, OnOk, IfOk, flat_map, replicate};
ghost use Rattle.cl_descriptors.specs.declared.types.Base.TheVariants.{Class};
ghost use Rattle.cl_descriptors.specs.Types.{spelling_of_base, spelling_of_field, spelling_of_return, spelling_of_method};

use crate::types::{Base, FieldType, MethodType};
use std::alloc::{AllocError, Global};

impl FieldType {
    /// The bytes of its descriptor (JVMS SE 8, 4.3.2).
    pub fn text(&self, alloc: Global) -> Result<Vec<u8>, AllocError>
        ensures { IfOk result (λ text. text.items ≡ spelling_of_field self.now) }
    {
        let mut text = Vec::new(alloc);
        push_field(&mut text, self)?;
        Ok(text)
    }
}

impl MethodType {
    /// The bytes of its descriptor (JVMS SE 8, 4.3.3).
    pub fn text(&self, alloc: Global) -> Result<Vec<u8>, AllocError>
        ensures { IfOk result (λ text. text.items ≡ spelling_of_method self.now) }
    {
        let mut text = Vec::new(alloc);
        text.push(b'(')?;
        push_fields(&mut text, self.params.as_slice())?;
        text.push(b')')?;
        push_return(&mut text, &self.ret)?;
        Ok(text)
    }
}

fn push_class(text: &mut Vec<u8>, name: &[u8]) -> Result<(), AllocError>
    ensures { OnOk result (text.new.items ≡ text.old.items ++ spelling_of_base (Class name.now)) }
{
    text.push(b'L')?;
    text.extend_from_slice(name)?;
    text.push(b';')?;
    Ok(())
}

fn push_base(text: &mut Vec<u8>, base: &Base) -> Result<(), AllocError>
    ensures { OnOk result (text.new.items ≡ text.old.items ++ spelling_of_base base.now) }
{
    let letter = match base {
        Base::Byte => b'B',
        Base::Char => b'C',
        Base::Double => b'D',
        Base::Float => b'F',
        Base::Int => b'I',
        Base::Long => b'J',
        Base::Short => b'S',
        Base::Boolean => b'Z',
        Base::Class(name) => return push_class(text, name.bytes()),
    };
    text.push(letter)?;
    Ok(())
}

fn push_brackets(text: &mut Vec<u8>, dims: u8) -> Result<(), AllocError>
    ensures { OnOk result (text.new.items ≡ text.old.items ++ replicate dims 0x5b) }
{
    for _ in 0..dims {
        text.push(b'[')?;
    }
    Ok(())
}

fn push_field(text: &mut Vec<u8>, t: &FieldType) -> Result<(), AllocError>
    ensures { OnOk result (text.new.items ≡ text.old.items ++ spelling_of_field t.now) }
{
    push_brackets(text, t.dims)?;
    push_base(text, &t.base)?;
    Ok(())
}

fn push_fields(text: &mut Vec<u8>, types: &[FieldType]) -> Result<(), AllocError>
    ensures { OnOk result (text.new.items ≡ text.old.items ++ flat_map spelling_of_field
        types.now) }
{
    for t in types {
        push_field(text, t)?;
    }
    Ok(())
}

fn push_return(text: &mut Vec<u8>, ret: &Option<FieldType>) -> Result<(), AllocError>
    ensures { OnOk result (text.new.items ≡ text.old.items ++ spelling_of_return ret.now) }
{
    match ret {
        Some(t) => push_field(text, t)?,
        None => text.push(b'V')?,
    }
    Ok(())
}
