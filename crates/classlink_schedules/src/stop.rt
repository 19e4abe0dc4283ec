use cl_bundle::BundleFault;
use cl_schedule::ServeFault;
use cl_streams::{InputFault, PrintFault};
use std::alloc::{AllocError, AllocFailed};
use std::fmt::{self, Display, Formatter};

/// Why a schedule was not played.
#[derive(Debug, Drop)]
pub enum Stop {
    Memory,
    Write,
    /// Standard input or a file that is named is not there, cannot be read, is too large or is not UTF-8.
    Unread,
    /// A line that is no schedule.
    NoSchedule,
    /// There is no bundle of this number.
    NoBundle,
    /// More choices than `MOST_CHOICES`.
    TooLong,
    Bundle(BundleFault),
    Serve(ServeFault),
}

impl Display for Stop {
    fn fmt<W: fmt::Write>(&self, f: &mut Formatter<W>) -> fmt::Result {
        match self {
            Stop::Memory => write!(f, "out of memory"),
            Stop::Write => write!(f, "cannot write"),
            Stop::Unread => write!(f, "cannot read"),
            Stop::NoSchedule => write!(f, "no schedule"),
            Stop::NoBundle => write!(f, "no such bundle"),
            Stop::TooLong => write!(f, "too many choices"),
            Stop::Bundle(fault) => write!(f, "{fault}"),
            Stop::Serve(fault) => write!(f, "{fault}"),
        }
    }
}

impl From<AllocError> for Stop {
    fn from(_error: AllocError) -> Stop {
        Stop::Memory
    }
}

impl<T: Drop> From<AllocFailed<T>> for Stop {
    fn from(_error: AllocFailed<T>) -> Stop {
        Stop::Memory
    }
}

impl From<InputFault> for Stop {
    fn from(fault: InputFault) -> Stop {
        match fault {
            InputFault::Memory => Stop::Memory,
            _ => Stop::Unread,
        }
    }
}

impl From<PrintFault> for Stop {
    fn from(fault: PrintFault) -> Stop {
        match fault {
            PrintFault::Memory => Stop::Memory,
            PrintFault::Write => Stop::Write,
        }
    }
}

impl From<BundleFault> for Stop {
    fn from(fault: BundleFault) -> Stop {
        Stop::Bundle(fault)
    }
}

impl From<ServeFault> for Stop {
    fn from(fault: ServeFault) -> Stop {
        Stop::Serve(fault)
    }
}
