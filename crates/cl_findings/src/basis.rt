//! What an answer rests on, as it is kept.

use crate::load::Target;
use cl_config::Config;
use cl_delegation::Home;
use cl_hierarchy::{ClassRow, Equalities, Frame, Lineage, Path};
use cl_model::{LoaderId, Told};
use std::sync::Arc;

/// Where a load ends, past what its path has accepted.
pub enum At<T: Told> {
    Nothing,
    /// At a recorded class that does not fit, which this loader defined.
    Misfit(LoaderId),
    /// At the record of a class with all its supertypes, which is refused.
    Whole(Frame<T>),
    /// At the record of the loader that was asked for the class of this home, which is refused.
    Away(Arc<Home<T>>),
}

impl<T: Told> Drop for At<T> {
    fn drop(self) {
        match self {
            At::Nothing => {}
            At::Misfit(_) => {}
            At::Whole(_) => {}
            At::Away(_) => {}
        }
    }
}

/// What an answer rests on.
pub enum Basis<T: Told> {
    /// A load that ended.
    Load {
        target: Target<T>,
        path: Path<T>,
        at: At<T>,
    },
    /// An entry of the pool of the class `d` that names no class.
    Entry {
        config: Arc<Config>,
        d: Arc<ClassRow<T>>,
    },
    /// An entry of the pool of the class `d` that names the class `c`, without a look at members.
    Class {
        config: Arc<Config>,
        d: Arc<ClassRow<T>>,
        c: Arc<ClassRow<T>>,
    },
    /// A member that an entry of the class `d` asks for, and that was not found through the class `c`.
    Lookup {
        d: Lineage<T>,
        c: Lineage<T>,
    },
    /// The first so many equalities of an entry are imposed, and the next one, if there is one, is refused.
    Asked {
        equalities: Arc<Equalities<T>>,
        met: usize,
    },
    /// The same of the equalities of the preparation of a class: that at this place of a lineage, all before which are
    /// prepared.
    Linked {
        lineage: Lineage<T>,
        place: usize,
        equalities: Arc<Equalities<T>>,
        met: usize,
    },
    /// The same of the class behind those of these lists, which need not be prepared: all their equalities are imposed.
    Imposed {
        lineage: Lineage<T>,
        earlier: Vec<Arc<Equalities<T>>>,
        equalities: Arc<Equalities<T>>,
        met: usize,
    },
}

impl<T: Told> Drop for Basis<T> {
    fn drop(self) {
        match self {
            Basis::Load {
                target: _,
                path: _,
                at: _,
            } => {}
            Basis::Entry { config: _, d: _ } => {}
            Basis::Class {
                config: _,
                d: _,
                c: _,
            } => {}
            Basis::Lookup { d: _, c: _ } => {}
            Basis::Asked {
                equalities: _,
                met: _,
            } => {}
            Basis::Linked {
                lineage: _,
                place: _,
                equalities: _,
                met: _,
            } => {}
            Basis::Imposed {
                lineage: _,
                earlier: _,
                equalities: _,
                met: _,
            } => {}
        }
    }
}
