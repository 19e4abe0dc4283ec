ghost use Rattle.std.specs.Prelude.{◌≡◌, ◌↔◌, ℕ, Option, None, OnErr, OnOk};
ghost use Rattle.cl_model.specs.States.{Differs, Divides};
ghost use Rattle.cl_names.specs.Truth.{Decides};
ghost use Rattle.cl_constraints.specs.Singles.{Enters, Joins, TellsAgreement, TellsFit};

use cl_model::LoaderId;
use std::alloc::{AllocError, Global};

/// The constraints of one name.
pub trait NameBook {
    ghost record_at: { Self → ℕ → Option ℕ };

    ghost joins: { Self → ℕ → ℕ → Type 0 };

    /// Nothing recorded, and no loader joined to another.
    fn empty(alloc: Global) -> Self
        ensures records { (loader : ℕ) → record_at result loader ≡ None }
        ensures alone { (a b : ℕ) → joins result a b ↔ (a ≡ b) };

    /// Who defined the class that a loader records.
    fn home(&self, loader: LoaderId) -> Option<LoaderId>
        ensures { result ≡ record_at self.now loader };

    /// Whether two loaders are joined.
    fn joined(&self, a: LoaderId, b: LoaderId) -> bool
        ensures { Decides result (joins self.now a b) };

    /// Whether no loader that is joined to this one records another class.
    fn admits(&self, loader: LoaderId, home: LoaderId) -> bool
        ensures { TellsFit (record_at self.now) (joins self.now) loader home result };

    /// Whether what is joined to one loader and to another records one class.
    fn agree(&self, a: LoaderId, b: LoaderId) -> bool
        ensures { TellsAgreement (record_at self.now) (joins self.now) a b result };

    /// Records a class for a loader that has none.
    fn enter(&mut self, loader: LoaderId, home: LoaderId) -> Result<(), AllocError>
        requires fresh { record_at self.old loader ≡ None }
        requires fits { Differs (record_at self.old) (joins self.old) loader home → ⊥ }
        ensures records { OnOk result (Enters (record_at self.old) (record_at self.new) loader
            home) }
        ensures joined { OnOk result ((a b : ℕ) → joins self.new a b ↔ joins self.old a b) }
        ensures unchanged { OnErr result (self.new ≡ self.old) };

    /// Joins two loaders.
    fn join(&mut self, alloc: Global, a: LoaderId, b: LoaderId) -> Result<(), AllocError>
        requires apart { joins self.old a b → ⊥ }
        requires fits { Divides (record_at self.old) (joins self.old) a b → ⊥ }
        ensures records { OnOk result ((loader : ℕ)
            → record_at self.new loader ≡ record_at self.old loader) }
        ensures joined { OnOk result ((x y : ℕ) → joins self.new x y
            ↔ Joins (joins self.old) a b x y) }
        ensures unchanged { OnErr result (self.new ≡ self.old) };
}
