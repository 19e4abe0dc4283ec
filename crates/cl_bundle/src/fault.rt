//! Why a text is no bundle.

ghost use Rattle.std.specs.Prelude.{◌≡◌};

use cl_config::{ConfigFault, ScriptFault};
use cl_writer::AssembleFault;
use std::alloc::{AllocError, AllocFailed};
use std::error::Error;
use std::fmt::{self, Display, Formatter};

/// What is wrong with a text that is no bundle.
#[derive(Debug, Drop, PartialEq, Eq)]
pub enum BundleFault {
    /// A line of the bundle, counted from 1; 0 is for a bundle that lacks a line.
    BadLine(usize),
    /// The assembler text of a class, with the class's name and loader as `N@L`.
    Class { class: String, fault: AssembleFault },
    Config(ConfigFault),
    Script(ScriptFault),
    /// Out of memory, where neither the assembler nor the script tells of it.
    Memory,
}

impl Display for BundleFault {
    ghost use Rattle.std.specs.Prelude.{Some};
    ghost use Rattle.cl_bundle.specs.Faults.{fault_text};

    ghost output = { λ fault. Some (fault_text fault) };

    fn fmt<W: fmt::Write>(&self, f: &mut Formatter<W>) -> fmt::Result {
        match self {
            BundleFault::BadLine(line) => write!(f, "bundle line {line}"),
            BundleFault::Class { class, fault } => write!(f, "class {class}: {fault}"),
            BundleFault::Config(fault) => write!(f, "config: {fault}"),
            BundleFault::Script(fault) => write!(f, "script: {fault}"),
            BundleFault::Memory => write!(f, "out of memory"),
        }
    }
}

impl Error for BundleFault {}

impl From<AllocError> for BundleFault {
    ghost use Rattle.cl_bundle.specs.declared.fault.BundleFault.TheVariants.{Memory};

    ghost from_gives = { λ _ e. e ≡ Memory };

    fn from(_error: AllocError) -> BundleFault {
        BundleFault::Memory
    }
}

impl<T: Drop> From<AllocFailed<T>> for BundleFault {
    ghost use Rattle.cl_bundle.specs.declared.fault.BundleFault.TheVariants.{Memory};

    ghost from_gives = { λ _ e. e ≡ Memory };

    fn from(_error: AllocFailed<T>) -> BundleFault {
        BundleFault::Memory
    }
}

impl From<ScriptFault> for BundleFault {
    ghost use Rattle.cl_bundle.specs.declared.fault.BundleFault.TheVariants.{Script};

    ghost from_gives = { λ fault e. e ≡ Script fault };

    fn from(fault: ScriptFault) -> BundleFault {
        BundleFault::Script(fault)
    }
}
