//! What tables of names hash with.

ghost use Rattle.cl_names.specs.Seed.{first_hasher};

use std::hash::{BuildHasher, DefaultHasher, RandomState};

/// What a table hashes its names with. A run draws a seed once and copies it to each table whose names strangers choose,
/// so that they cannot choose short names that fall on one place, nor long ones but such as have one digest. No value and no
/// answer depends on it.
#[derive(Clone, Copy, Debug)]
pub struct Seed {
    drawn: Option<RandomState>,
}

impl Seed {
    /// The seed that everyone knows, for names that no stranger chooses.
    pub fn common() -> Seed {
        Seed { drawn: None }
    }

    /// The seed that a run drew from its runtime.
    pub fn from_state(state: RandomState) -> Seed {
        Seed { drawn: Some(state) }
    }
}

impl BuildHasher for Seed {
    type Hasher = DefaultHasher;

    ghost build_hasher = { first_hasher };

    fn build_hasher(&self) -> DefaultHasher {
        match &self.drawn {
            Some(state) => state.build_hasher(),
            None => DefaultHasher::new(),
        }
    }
}
