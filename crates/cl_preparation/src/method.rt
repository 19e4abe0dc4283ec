//! The methods that a class declares.

ghost use Rattle.std.specs.Prelude.{◌≡◌, Some, IfOk};
ghost use Rattle.cl_classfile.specs.Files.{declared_by, file_of, method_of};
ghost use Rattle.cl_model.specs.Lineages.{is_virtual};
ghost use Rattle.cl_preparation.specs.Methods.{IsTyped, is_public_or_protected};

use crate::key::MethodKey;
use cl_classfile::{
    ClassFile, Entry, Member, PRIVATE, PROTECTED, PUBLIC, STATIC, has_flag, text_at,
};
use std::alloc::{AllocError, Global};
use std::marker::Model;

/// Whether a method of these flags is neither private nor static: those alone override (JVMS SE 8, 5.4.5).
pub(crate) fn is_virtual(flags: u16) -> bool
    ensures { result ≡ is_virtual flags }
{
    !has_flag(flags, PRIVATE) && !has_flag(flags, STATIC)
}

/// Whether a method of these flags is public or protected (JVMS SE 8, 5.4.5).
pub(crate) fn is_public_or_protected(flags: u16) -> bool
    ensures { result ≡ is_public_or_protected flags }
{
    has_flag(flags, PUBLIC) || has_flag(flags, PROTECTED)
}

/// A method: its flags, and what it is looked up by (JVMS SE 8, 4.6).
#[derive(Debug)]
pub(crate) struct Method {
    flags: u16,
    key: MethodKey,
}

impl Drop for Method {
    fn drop(self) {
        let Method { flags: _, key: _ } = self;
    }
}

impl Model for Method {
    ghost use Rattle.cl_classfile.specs.Files.{Member};

    ghost Value = { Member };

    ghost view = { λ m. record { flags = m.flags; key = m.key } };
}

impl Method {
    /// What it is looked up by.
    pub fn key(&self) -> &MethodKey
        ensures { result.now ≡ self.now.key }
    {
        &self.key
    }
}

/// A method by its texts.
#[tactic(auto)]
fn method_at(alloc: Global, pool: &[Entry], member: &Member) -> Result<Method, AllocError>
    requires { IsTyped pool.now member.now }
    ensures { IfOk result (λ m. declared_by method_of pool.now member.now ≡ Some m) }
{
    match (
        text_at(pool, member.name_index()),
        text_at(pool, member.descriptor_index()),
    ) {
        (Some(name), Some(descriptor)) => Ok(Method {
            flags: member.flags(),
            key: MethodKey::new(alloc, name, descriptor)?,
        }),
        _ => unreachable!(),
    }
}

/// The methods of a class file, in order.
pub(crate) fn methods_of(alloc: Global, file: &ClassFile) -> Result<Vec<Method>, AllocError>
    ensures { IfOk result (λ ms. ms.items ≡ (file_of file.now).methods) }
{
    let pool = file.pool();
    let members = file.methods();
    let mut methods = Vec::with_capacity(alloc, members.len())?;
    for member in members {
        methods.push(method_at(alloc, pool, member)?)?;
    }
    Ok(methods)
}
