//! Why a text is no configuration.

ghost use Rattle.std.specs.Prelude.{◌≡◌};
ghost use Rattle.cl_config.specs.declared.fault.ConfigError.TheVariants as errors;

use std::alloc::{AllocError, AllocFailed};
use std::error::Error;
use std::fmt::{self, Display, Formatter};

/// What is wrong with a configuration: the first of its faults, in the order of `specs/Configs.antt`. Loaders count
/// from 0.
#[derive(Clone, Copy, Debug, PartialEq, Eq)]
pub enum ConfigFault {
    /// The text is no TOML.
    NotToml,
    /// What is said of a loader is missing, unknown, wrong or repeated; 0 also for what stands beside the loaders.
    BadLoader(u32),
    /// A parent or import of this loader names none.
    UnknownLoader(u32),
    /// A parent or import of this loader names no earlier one.
    LaterLoader(u32),
    /// There are over `MOST_LOADERS` loaders, or over `MOST_PARENTS` parents or `MOST_IMPORTS` imports of one.
    TooMany,
}

impl Display for ConfigFault {
    ghost use Rattle.std.specs.Prelude.{Some};
    ghost use Rattle.cl_config.specs.ConfigTexts.{fault_text};

    ghost output = { λ fault. Some (fault_text fault) };

    fn fmt<W: fmt::Write>(&self, f: &mut Formatter<W>) -> fmt::Result {
        match self {
            ConfigFault::NotToml => write!(f, "C1 NotToml"),
            ConfigFault::BadLoader(i) => write!(f, "C2 BadLoader {i}"),
            ConfigFault::UnknownLoader(i) => write!(f, "C3 UnknownLoader {i}"),
            ConfigFault::LaterLoader(i) => write!(f, "C4 LaterLoader {i}"),
            ConfigFault::TooMany => write!(f, "C5 TooMany"),
        }
    }
}

impl Error for ConfigFault {}

/// Why a configuration could not be read.
#[derive(Clone, Copy, Debug, PartialEq, Eq)]
pub enum ConfigError {
    Memory,
    Fault(ConfigFault),
}

impl Display for ConfigError {
    ghost use Rattle.std.specs.Prelude.{Some};
    ghost use Rattle.cl_config.specs.ConfigTexts.{error_text};

    ghost output = { λ error. Some (error_text error) };

    fn fmt<W: fmt::Write>(&self, f: &mut Formatter<W>) -> fmt::Result {
        match self {
            ConfigError::Memory => write!(f, "C0 Memory"),
            ConfigError::Fault(fault) => write!(f, "{fault}"),
        }
    }
}

impl Error for ConfigError {}

impl From<ConfigFault> for ConfigError {
    ghost from_gives = { λ f e. e ≡ errors.Fault f };

    fn from(f: ConfigFault) -> ConfigError {
        ConfigError::Fault(f)
    }
}

impl From<AllocError> for ConfigError {
    ghost from_gives = { λ _ e. e ≡ errors.Memory };

    fn from(_e: AllocError) -> ConfigError {
        ConfigError::Memory
    }
}

impl<T: Drop> From<AllocFailed<T>> for ConfigError {
    ghost from_gives = { λ _ e. e ≡ errors.Memory };

    fn from(_e: AllocFailed<T>) -> ConfigError {
        ConfigError::Memory
    }
}
