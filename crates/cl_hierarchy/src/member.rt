//! Which members are accessible to which classes (JVMS SE 8, 5.4.4).

ghost use Rattle.std.specs.Prelude.{◌≡◌, ◌<◌};
ghost use Rattle.cl_classfile.specs.Flags as flag;
ghost use Rattle.cl_hierarchy.specs.Lineages.{TellsAccess, TellsOpen};

use crate::access::{is_same, same_package};
use crate::lineage::Lineage;
use cl_classfile::{PRIVATE, PROTECTED, PUBLIC, STATIC, has_flag};
use cl_model::{Class, Told};

/// Whether a protected member of a class, with these flags, is open to another through a third (JVMS SE 8, 5.4.4).
fn protected_open<T: Told>(
    from: &Lineage<T>,
    owner: &Class,
    flags: u16,
    through: &Lineage<T>,
) -> bool
    ensures { TellsOpen result from.now owner.now flags through.now }
{
    (is_same(owner, from.class()) || from.is_subclass(owner))
        && (has_flag(flags, STATIC)
            || is_same(through.class(), from.class())
            || through.is_subclass(from.class())
            || from.is_subclass(through.class()))
}

/// Whether a member that `owner` declares with these flags is accessible to the class of `from`, where it is named
/// through the class of `through` (JVMS SE 8, 5.4.4). Takes no memory.
pub fn member_accessible<T: Told>(
    from: &Lineage<T>,
    owner: &Class,
    flags: u16,
    through: &Lineage<T>,
) -> bool
    ensures { TellsAccess result from.now owner.now flags through.now }
{
    has_flag(flags, PUBLIC)
        || has_flag(flags, PROTECTED) && protected_open(from, owner, flags, through)
        || !has_flag(flags, PRIVATE) && same_package(owner, from.class())
        || has_flag(flags, PRIVATE) && is_same(owner, from.class())
}
