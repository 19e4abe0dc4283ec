ghost use Rattle.std.specs.Prelude.{◌≡◌};

use cl_bundle::BundleFault;
use cl_classfile::ReadError;
use cl_config::{ConfigError, ConfigFault, ScriptFault};
use cl_model::Told;
use cl_pool::PoolFault;
use cl_schedule::ServeFault;
use cl_streams::{InputFault, PrintFault};
use std::alloc::{AllocError, AllocFailed};
use std::error::Error;
use std::fmt::{self, Display, Formatter};

/// Why the program ends with status 1. The text stands on standard error behind `classlink: `.
#[derive(Debug, Drop, PartialEq, Eq)]
pub enum Fault {
    Input,
    Write,
    TooLarge,
    NotUtf8,
    /// What is wrong with the bundle.
    Bundle(BundleFault),
    /// What is wrong with the configuration of the words.
    Config(ConfigFault),
    /// What is wrong with the script of the words.
    Script(ScriptFault),
    /// Why the script was not served in order.
    Serve(ServeFault),
    /// Why it was not served by threads.
    Threads(ThreadFault),
    /// The file at this path cannot be read.
    Path(String),
    /// Why a class file was not read.
    File(ReadError),
    /// The program's own words are not UTF-8.
    Words,
    /// Out of memory, where no other fault tells of it.
    Memory,
}

/// Why several workers made no report: the pool's fault, without the registry.
#[derive(Clone, Copy, Debug, PartialEq, Eq)]
pub enum ThreadFault {
    Memory,
    Workers,
    NoThread,
    Stray,
    Unanswered,
}

impl Display for ThreadFault {
    ghost use Rattle.std.specs.Prelude.{Some};
    ghost use Rattle.cl_program.specs.Faults.{thread_text};

    ghost output = { λ fault. Some (thread_text fault) };

    fn fmt<W: fmt::Write>(&self, f: &mut Formatter<W>) -> fmt::Result {
        match self {
            ThreadFault::Memory => write!(f, "V0 Memory"),
            ThreadFault::Workers => write!(f, "V1 Workers"),
            ThreadFault::NoThread => write!(f, "V2 NoThread"),
            ThreadFault::Stray => write!(f, "V3 Stray"),
            ThreadFault::Unanswered => write!(f, "V4 Unanswered"),
        }
    }
}

impl<T: Told> From<PoolFault<T>> for ThreadFault {
    ghost use Rattle.cl_program.specs.Faults.{thread_fault};

    ghost from_gives = { λ fault e. e ≡ thread_fault fault };

    fn from(fault: PoolFault<T>) -> ThreadFault {
        match fault {
            PoolFault::Memory => ThreadFault::Memory,
            PoolFault::Workers => ThreadFault::Workers,
            PoolFault::NoThread => ThreadFault::NoThread,
            PoolFault::Stray => ThreadFault::Stray,
            PoolFault::Unanswered(_) => ThreadFault::Unanswered,
        }
    }
}

impl Display for Fault {
    ghost use Rattle.std.specs.Prelude.{Some};
    ghost use Rattle.cl_program.specs.Faults.{fault_text};

    ghost output = { λ fault. Some (fault_text fault) };

    fn fmt<W: fmt::Write>(&self, f: &mut Formatter<W>) -> fmt::Result {
        match self {
            Fault::Input => write!(f, "cannot read standard input"),
            Fault::Write => write!(f, "cannot write"),
            Fault::TooLarge => write!(f, "input too large"),
            Fault::NotUtf8 => write!(f, "input is not UTF-8"),
            Fault::Bundle(fault) => write!(f, "{fault}"),
            Fault::Config(fault) => write!(f, "config: {fault}"),
            Fault::Script(fault) => write!(f, "script: {fault}"),
            Fault::Serve(fault) => write!(f, "{fault}"),
            Fault::Threads(fault) => write!(f, "{fault}"),
            Fault::Path(path) => write!(f, "cannot read {path}"),
            Fault::File(fault) => write!(f, "{fault}"),
            Fault::Words => write!(f, "words are not UTF-8"),
            Fault::Memory => write!(f, "out of memory"),
        }
    }
}

impl Error for Fault {}

impl From<AllocError> for Fault {
    ghost use Rattle.cl_program.specs.declared.fault.Fault.TheVariants.{Memory};

    ghost from_gives = { λ _ e. e ≡ Memory };

    fn from(_error: AllocError) -> Fault {
        Fault::Memory
    }
}

impl<T: Drop> From<AllocFailed<T>> for Fault {
    ghost use Rattle.cl_program.specs.declared.fault.Fault.TheVariants.{Memory};

    ghost from_gives = { λ _ e. e ≡ Memory };

    fn from(_error: AllocFailed<T>) -> Fault {
        Fault::Memory
    }
}

impl From<InputFault> for Fault {
    ghost use Rattle.cl_program.specs.Faults.{input_fault};

    ghost from_gives = { λ fault e. e ≡ input_fault fault };

    fn from(fault: InputFault) -> Fault {
        match fault {
            InputFault::Unread => Fault::Input,
            InputFault::TooLarge => Fault::TooLarge,
            InputFault::Memory => Fault::Memory,
        }
    }
}

impl From<PrintFault> for Fault {
    ghost use Rattle.cl_program.specs.Faults.{print_fault};

    ghost from_gives = { λ fault e. e ≡ print_fault fault };

    fn from(fault: PrintFault) -> Fault {
        match fault {
            PrintFault::Write => Fault::Write,
            PrintFault::Memory => Fault::Memory,
        }
    }
}

impl From<ServeFault> for Fault {
    ghost use Rattle.cl_program.specs.declared.fault.Fault.TheVariants.{Serve};

    ghost from_gives = { λ fault e. e ≡ Serve fault };

    fn from(fault: ServeFault) -> Fault {
        Fault::Serve(fault)
    }
}

impl From<ThreadFault> for Fault {
    ghost use Rattle.cl_program.specs.declared.fault.Fault.TheVariants.{Threads};

    ghost from_gives = { λ fault e. e ≡ Threads fault };

    fn from(fault: ThreadFault) -> Fault {
        Fault::Threads(fault)
    }
}

impl From<BundleFault> for Fault {
    ghost use Rattle.cl_program.specs.declared.fault.Fault.TheVariants.{Bundle};

    ghost from_gives = { λ fault e. e ≡ Bundle fault };

    fn from(fault: BundleFault) -> Fault {
        Fault::Bundle(fault)
    }
}

impl From<ConfigError> for Fault {
    ghost use Rattle.cl_program.specs.Faults.{config_fault};

    ghost from_gives = { λ error e. e ≡ config_fault error };

    fn from(error: ConfigError) -> Fault {
        match error {
            ConfigError::Memory => Fault::Memory,
            ConfigError::Fault(fault) => Fault::Config(fault),
        }
    }
}

impl From<ScriptFault> for Fault {
    ghost use Rattle.cl_program.specs.declared.fault.Fault.TheVariants.{Script};

    ghost from_gives = { λ fault e. e ≡ Script fault };

    fn from(fault: ScriptFault) -> Fault {
        Fault::Script(fault)
    }
}
