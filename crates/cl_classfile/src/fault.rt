//! Why bytes could not be read as a class file.

ghost use Rattle.std.specs.Prelude.{◌≡◌};
ghost use Rattle.cl_classfile.specs.declared.fault.ReadError.TheVariants as errors;

use std::alloc::{AllocError, AllocFailed};
use std::error::Error;
use std::fmt::{self, Display, Formatter};

/// What is wrong with a class file: the first of its faults, in the order in which a file is looked at.
#[derive(Clone, Copy, Debug, PartialEq, Eq)]
pub enum Fault {
    /// The first four bytes are not the magic.
    BadMagic,
    /// The version is none of 45.0 to 52.0 (JVMS SE 8, 4.1).
    Version,
    /// The bytes end within an item.
    Truncated,
    /// Bytes stand after the file.
    Trailing,
    /// The pool's entry at this index, or with 0 the pool's count (JVMS SE 8, 4.4).
    BadPool(u16),
    /// The class's flags (JVMS SE 8, 4.1).
    BadFlags,
    /// A field, a method or an attribute (JVMS SE 8, 4.5 to 4.7).
    BadMember,
    /// A field or a method that stands twice (JVMS SE 8, 4.5, 4.6).
    Duplicate,
    /// this_class, super_class or an interface (JVMS SE 8, 4.1).
    BadSupertype,
}

impl Display for Fault {
    ghost use Rattle.std.specs.Prelude.{Some};
    ghost use Rattle.cl_classfile.specs.Texts.{fault_text};

    ghost output = { λ fault. Some (fault_text fault) };

    fn fmt<W: fmt::Write>(&self, f: &mut Formatter<W>) -> fmt::Result {
        match self {
            Fault::BadMagic => write!(f, "F1 BadMagic"),
            Fault::Version => write!(f, "F2 Version"),
            Fault::Truncated => write!(f, "F3 Truncated"),
            Fault::Trailing => write!(f, "F4 Trailing"),
            Fault::BadPool(index) => write!(f, "F5 BadPool {index}"),
            Fault::BadFlags => write!(f, "F6 BadFlags"),
            Fault::BadMember => write!(f, "F7 BadMember"),
            Fault::Duplicate => write!(f, "F8 Duplicate"),
            Fault::BadSupertype => write!(f, "F9 BadSupertype"),
        }
    }
}

impl Error for Fault {}

/// Why a class file could not be read.
#[derive(Clone, Copy, Debug, PartialEq, Eq)]
pub enum ReadError {
    Memory,
    Fault(Fault),
}

impl Display for ReadError {
    ghost use Rattle.std.specs.Prelude.{Some};
    ghost use Rattle.cl_classfile.specs.Texts.{error_text};

    ghost output = { λ error. Some (error_text error) };

    fn fmt<W: fmt::Write>(&self, f: &mut Formatter<W>) -> fmt::Result {
        match self {
            ReadError::Memory => write!(f, "F0 Memory"),
            ReadError::Fault(fault) => write!(f, "{fault}"),
        }
    }
}

impl Error for ReadError {}

impl From<Fault> for ReadError {
    ghost from_gives = { λ f e. e ≡ errors.Fault f };

    fn from(f: Fault) -> ReadError {
        ReadError::Fault(f)
    }
}

impl From<AllocError> for ReadError {
    ghost from_gives = { λ _ e. e ≡ errors.Memory };

    fn from(_e: AllocError) -> ReadError {
        ReadError::Memory
    }
}

impl<T: Drop> From<AllocFailed<T>> for ReadError {
    ghost from_gives = { λ _ e. e ≡ errors.Memory };

    fn from(_e: AllocFailed<T>) -> ReadError {
        ReadError::Memory
    }
}
