//! Why a class file could not be written or assembled.

ghost use Rattle.std.specs.Prelude.{◌≡◌};

use cl_classfile::Fault;
use std::alloc::{AllocError, AllocFailed};
use std::error::Error;
use std::fmt::{self, Display, Formatter};

/// Why a class file could not be written: only where memory ran out.
#[derive(Clone, Copy, Debug, PartialEq, Eq, thiserror::Error)]
pub enum WriteFault {
    #[error("A0 Memory")]
    Memory,
}

/// Why a text could not be assembled. Lines count from 1, skipped ones included.
#[derive(Clone, Copy, Debug, PartialEq, Eq)]
pub enum AssembleFault {
    Memory,
    /// A line that is none of the assembler's, or 0 where all lines are skipped.
    BadLine(usize),
    /// The lines give no class file.
    Invalid(Fault),
}

impl Display for AssembleFault {
    ghost use Rattle.std.specs.Prelude.{Some};
    ghost use Rattle.cl_writer.specs.Faults.{assemble_text};

    ghost output = { λ fault. Some (assemble_text fault) };

    fn fmt<W: fmt::Write>(&self, f: &mut Formatter<W>) -> fmt::Result {
        match self {
            AssembleFault::Memory => write!(f, "A0 Memory"),
            AssembleFault::BadLine(line) => write!(f, "A1 BadLine {line}"),
            AssembleFault::Invalid(fault) => write!(f, "A2 Invalid {fault}"),
        }
    }
}

impl Error for AssembleFault {}

impl From<AllocError> for WriteFault {
    ghost use Rattle.cl_writer.specs.declared.fault.WriteFault.TheVariants.{Memory};

    ghost from_gives = { λ _ e. e ≡ Memory };

    fn from(_e: AllocError) -> WriteFault {
        WriteFault::Memory
    }
}

impl From<AllocError> for AssembleFault {
    ghost use Rattle.cl_writer.specs.declared.fault.AssembleFault.TheVariants.{Memory};

    ghost from_gives = { λ _ e. e ≡ Memory };

    fn from(_e: AllocError) -> AssembleFault {
        AssembleFault::Memory
    }
}

impl<T: Drop> From<AllocFailed<T>> for AssembleFault {
    ghost use Rattle.cl_writer.specs.declared.fault.AssembleFault.TheVariants.{Memory};

    ghost from_gives = { λ _ e. e ≡ Memory };

    fn from(_e: AllocFailed<T>) -> AssembleFault {
        AssembleFault::Memory
    }
}
