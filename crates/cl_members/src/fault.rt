//! Why a member is not found.

use cl_model::Class;
use std::alloc::AllocError;
use thiserror::Error;

/// Why a member reference is resolved to no member (JVMS SE 8, 5.4.3.2 to 5.4.3.4).
#[derive(Debug, Drop, PartialEq, Eq, Error)]
pub enum LookupFault {
    #[error("M0 Memory")]
    Memory,
    /// Neither the class nor one that stands above it has the field: NoSuchFieldError of the class that was asked.
    #[error("M1 NoSuchField")]
    NoSuchField,
    /// Likewise of a method: NoSuchMethodError of the class that was asked.
    #[error("M2 NoSuchMethod")]
    NoSuchMethod,
    /// A method of a class was asked of an interface, or one of an interface of another class:
    /// IncompatibleClassChangeError of the class that was asked.
    #[error("M3 WrongKind")]
    WrongKind,
    /// The member is not accessible: IllegalAccessError of this class, which declares it.
    #[error("M4 Inaccessible")]
    Inaccessible(Class),
}

impl From<AllocError> for LookupFault {
    ghost use Rattle.std.specs.Prelude.{◌≡◌};
    ghost use Rattle.cl_members.specs.declared.fault.LookupFault.TheVariants.{Memory};

    ghost from_gives = { λ _ e. e ≡ Memory };

    fn from(_e: AllocError) -> LookupFault {
        LookupFault::Memory
    }
}
