use std::alloc::{AllocError, AllocFailed};
use thiserror::Error;

/// Why a row was not answered.
#[derive(Clone, Copy, Debug, Error)]
pub enum Stop {
    #[error("out of memory")]
    Memory,
    /// No such question, or words that are none of it.
    #[error("no row")]
    NoRow,
}

impl From<AllocError> for Stop {
    fn from(_error: AllocError) -> Stop {
        Stop::Memory
    }
}

impl<T: Drop> From<AllocFailed<T>> for Stop {
    fn from(_error: AllocFailed<T>) -> Stop {
        Stop::Memory
    }
}
