//! What answers rest on, in the tables of a registry (JVMS SE 8, 5.3 to 5.4.3).

use cl_constraints::{ConstraintBook, GroupedBook};
use cl_findings::Tables;
use cl_model::{Class, LoaderId};
use cl_names::{Name, Seed};
use indexmap::IndexSet;

/// The tables that tell whether what an answer rests on stands.
#[derive(Drop)]
pub struct Standing<'a> {
    pub book: &'a GroupedBook,
    pub prepared: &'a IndexSet<Class, Seed>,
}

impl<'a> Tables for Standing<'a> {
    ghost use Rattle.std.specs.Prelude.{◌≡◌};

    ghost stands_for = { λ t s. ⟦<GroupedBook as ConstraintBook>⟧.stands_for t.book.now s
        × (t.prepared.now.keys ≡ s.prepared) };

    fn has(&self, loader: LoaderId, name: &Name, home: LoaderId) -> bool {
        self.book.home(name, loader) == Some(home)
    }

    fn rejects(&self, loader: LoaderId, name: &Name, home: LoaderId) -> bool {
        !self.book.admits(name, loader, home)
    }

    fn joined(&self, name: &Name, one: LoaderId, other: LoaderId) -> bool {
        self.book.joined(name, one, other)
    }

    fn refuses(&self, name: &Name, one: LoaderId, other: LoaderId) -> bool {
        self.book.refuses(name, one, other)
    }

    fn is_prepared(&self, class: &Class) -> bool {
        self.prepared.contains(class)
    }
}
