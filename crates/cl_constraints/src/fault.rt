use thiserror::Error;

/// Why a record was not entered, or an equality not imposed.
#[derive(Clone, Copy, Debug, PartialEq, Eq, Error)]
pub enum BookFault {
    #[error("K0 Memory")]
    Memory,
    /// It would violate an equality (JVMS SE 8, 5.3.4).
    #[error("K1 Violates")]
    Violates,
}
