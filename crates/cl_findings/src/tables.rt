//! What the tables of a registry tell of what answers rest on.

ghost use Rattle.cl_model.specs.States.{State, Entry, Equal};
ghost use Rattle.cl_constraints.specs.Books.{Meets, SaysRefused};
ghost use Rattle.cl_findings.specs.Tables.{TellsPrepared};

use cl_model::{Class, LoaderId};
use cl_names::Name;

/// Records, loading constraints and prepared classes (JVMS SE 8, 5.3, 5.3.4, 5.4.2). None of these calls takes memory.
pub trait Tables {
    /// The states that these are the tables of.
    ghost stands_for: { Self → State → Type 0 };

    /// Whether a loader records the class of a name, which this home defines.
    fn has(&self, loader: LoaderId, name: &Name, home: LoaderId) -> bool
        ensures { Meets (stands_for self.now) (Entry loader name.now home) result };

    /// Whether that record is refused: it does not stand, and would violate an equality.
    fn rejects(&self, loader: LoaderId, name: &Name, home: LoaderId) -> bool
        ensures { SaysRefused (stands_for self.now) (Entry loader name.now home) result };

    /// Whether equalities join two loaders for a name.
    fn joined(&self, name: &Name, one: LoaderId, other: LoaderId) -> bool
        ensures { Meets (stands_for self.now) (Equal name.now one other) result };

    /// Whether an equality of two loaders for a name is refused: it does not stand, and would be violated.
    fn refuses(&self, name: &Name, one: LoaderId, other: LoaderId) -> bool
        ensures { SaysRefused (stands_for self.now) (Equal name.now one other) result };

    /// Whether a class is prepared.
    fn is_prepared(&self, class: &Class) -> bool
        ensures { TellsPrepared (stands_for self.now) class.now result };
}
