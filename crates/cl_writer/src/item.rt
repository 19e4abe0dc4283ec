//! Entries of a pool, said by names in place of indices.

ghost use Rattle.std.specs.Prelude.{◌≡◌, IfOk};

use cl_names::Name;
use std::alloc::{AllocError, Global};

/// What kind of member a reference asks for (JVMS SE 8, 4.4.2).
#[derive(Clone, Copy, Debug, PartialEq, Eq, Hash)]
pub enum MemberKind {
    Field,
    Method,
    InterfaceMethod,
}

/// A member of a class, or the reference to one.
#[derive(Debug, Drop, PartialEq, Eq, Hash)]
pub struct MemberName {
    pub class: Name,
    pub name: Name,
    pub descriptor: Name,
}

/// An entry of the pool (JVMS SE 8, 4.4), by what it names: two entries that say the same are equal.
#[derive(Debug, Drop, PartialEq, Eq, Hash)]
pub enum Item {
    Text(Name),
    Integer(i32),
    Class(Name),
    NameAndType(Name, Name),
    Member(MemberKind, MemberName),
}

impl MemberName {
    /// A copy.
    pub fn try_clone(&self, alloc: Global) -> Result<MemberName, AllocError>
        ensures { IfOk result (λ m. m ≡ self.now) }
    {
        let class = self.class.try_clone(alloc)?;
        let name = self.name.try_clone(alloc)?;
        let descriptor = self.descriptor.try_clone(alloc)?;
        Ok(MemberName {
            class,
            name,
            descriptor,
        })
    }
}

impl Item {
    /// A copy.
    pub fn try_clone(&self, alloc: Global) -> Result<Item, AllocError>
        ensures { IfOk result (λ item. item ≡ self.now) }
    {
        Ok(match self {
            Item::Text(text) => Item::Text(text.try_clone(alloc)?),
            Item::Integer(number) => Item::Integer(*number),
            Item::Class(name) => Item::Class(name.try_clone(alloc)?),
            Item::NameAndType(name, descriptor) => {
                let name = name.try_clone(alloc)?;
                Item::NameAndType(name, descriptor.try_clone(alloc)?)
            }
            Item::Member(kind, member) => Item::Member(*kind, member.try_clone(alloc)?),
        })
    }
}
