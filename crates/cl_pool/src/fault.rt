ghost use Rattle.std.specs.Prelude.{◌≡◌};

use crate::draws::DrawFault;
use cl_model::Told;
use cl_registry::Registry;
use std::alloc::AllocError;
use std::fmt::{self, Display, Formatter};

/// Why there is no report of a script.
#[derive(Drop)]
pub enum PoolFault<T: Told> {
    /// Memory was refused before a worker was started.
    Memory,
    /// The workers are none, or more than `MOST_WORKERS`.
    Workers,
    /// No thread could be had.
    NoThread,
    /// A worker met a value that does not fit the tables.
    Stray,
    /// The workers have ended, and a request has no answer.
    Unanswered(Registry<T>),
}

impl<T: Told> Display for PoolFault<T> {
    ghost use Rattle.std.specs.Prelude.{Some};
    ghost use Rattle.cl_pool.specs.Texts.{pool_text};

    ghost output = { λ fault. Some (pool_text fault) };

    fn fmt<W: fmt::Write>(&self, f: &mut Formatter<W>) -> fmt::Result {
        match self {
            PoolFault::Memory => write!(f, "V0 Memory"),
            PoolFault::Workers => write!(f, "V1 Workers"),
            PoolFault::NoThread => write!(f, "V2 NoThread"),
            PoolFault::Stray => write!(f, "V3 Stray"),
            PoolFault::Unanswered(_) => write!(f, "V4 Unanswered"),
        }
    }
}

impl<T: Told> From<AllocError> for PoolFault<T> {
    ghost use Rattle.cl_pool.specs.declared.fault.PoolFault.TheVariants.{Memory};

    ghost from_gives = { λ _ e. e ≡ Memory };

    fn from(_error: AllocError) -> PoolFault<T> {
        PoolFault::Memory
    }
}
