ghost use Rattle.std.specs.Prelude.{◌≡◌, ℕ, List, Option, None, IfErr, IfOk, OnOk};
ghost use Rattle.cl_model.specs.States.{State, Entry, Equal};
ghost use Rattle.cl_constraints.specs.Books.{Adds, AddsUnlessMet, Admits, Blames, Meets, SaysRefused, TellsDefiner};

use crate::fault::BookFault;
use cl_model::LoaderId;
use cl_names::Name;
use std::alloc::Global;

/// A record that was not entered, or an equality that was not imposed: why, and its name.
#[derive(Debug, Drop)]
pub struct Refusal {
    pub fault: BookFault,
    pub name: Name,
}

/// Records and loading constraints, of which none is violated (JVMS SE 8, 5.3.4).
pub trait ConstraintBook {
    ghost stands_for: { Self → State → Type 0 };

    ghost record_of: { Self → List ℕ → ℕ → Option ℕ };

    /// Who defined the class that a loader records for a name.
    fn home(&self, name: &Name, loader: LoaderId) -> Option<LoaderId>
        ensures record { result ≡ record_of self.now name.now loader }
        ensures recorded { TellsDefiner (stands_for self.now) loader name.now result };

    /// Whether a loader may record the class that this home defines for a name.
    fn admits(&self, name: &Name, loader: LoaderId, home: LoaderId) -> bool
        ensures { Admits (stands_for self.now) (Entry loader name.now home) result };

    /// Whether equalities join two loaders for a name.
    fn joined(&self, name: &Name, a: LoaderId, b: LoaderId) -> bool
        ensures { Meets (stands_for self.now) (Equal name.now a b) result };

    /// Whether an equality of two loaders for a name would violate what stands.
    fn refuses(&self, name: &Name, a: LoaderId, b: LoaderId) -> bool
        ensures { SaysRefused (stands_for self.now) (Equal name.now a b) result };

    /// Records a class for a loader that has none recorded for the name (`home` tells).
    fn enter(
        &mut self,
        alloc: Global,
        name: Name,
        loader: LoaderId,
        home: LoaderId,
    ) -> Result<(), Refusal>
        requires fresh { record_of self.old name loader ≡ None }
        ensures entered { OnOk result (Adds stands_for self.old self.new (Entry loader name home)) }
        ensures blames { IfErr result (λ e. Blames (stands_for self.old) (Entry loader name home)
            e.fault) }
        ensures unchanged { IfErr result (λ e. (self.new ≡ self.old) × (e.name ≡ name)) };

    /// Makes a name mean the same in two loaders; false where it does already.
    fn impose(
        &mut self,
        alloc: Global,
        name: Name,
        a: LoaderId,
        b: LoaderId,
    ) -> Result<bool, Refusal>
        ensures imposed { IfOk result (AddsUnlessMet stands_for self.old self.new
            (Equal name a b)) }
        ensures blames { IfErr result (λ e. Blames (stands_for self.old) (Equal name a b) e.fault) }
        ensures unchanged { IfErr result (λ e. (self.new ≡ self.old) × (e.name ≡ name)) };
}
