ghost use Rattle.std.specs.Prelude.{◌≡◌, true, None, IfErr, OnOk};
ghost use Rattle.cl_model.specs.States.{start};
ghost use Rattle.cl_names.specs.Truth.{Decides};
ghost use Rattle.cl_constraints.specs.Named.{found_named, home_of, joins_of, AgreesAt, EntersAt, TellsFitAt, JoinsAt, Sets};

use crate::book::{ConstraintBook, Refusal};
use crate::fault::BookFault;
use crate::single::NameBook;
use cl_model::LoaderId;
use cl_names::{Name, Seed};
use indexmap::IndexMap;
use std::alloc::Global;
use std::marker::Model;

/// Constraints name by name: a name costs what stands of it, whatever the number of others.
pub struct Book<N> {
    names: IndexMap<Name, N, Seed>,
}

impl<N: Drop> Drop for Book<N> {
    fn drop(self) {
        let Book { names: _ } = self;
    }
}

impl<N> Model for Book<N> {
    ghost use Rattle.std.specs.Prelude.{ℕ, List};

    ghost Value = { List (List ℕ × N) };

    ghost view = { λ b. b.names.entries };
}

impl<N: NameBook + Drop> Book<N> {
    /// A book of nothing, whose table hashes with the seed that everyone knows.
    pub fn new(alloc: Global) -> Book<N>
        ensures { ⟦<Book<N> as ConstraintBook>⟧.stands_for result start }
    {
        Book::with_hasher(alloc, Seed::common())
    }

    /// A book of nothing, whose table hashes with this seed.
    pub fn with_hasher(alloc: Global, seed: Seed) -> Book<N>
        ensures { ⟦<Book<N> as ConstraintBook>⟧.stands_for result start }
    {
        Book {
            names: IndexMap::with_hasher(alloc, seed),
        }
    }

    /// Whether no loader that is joined to this one for the name records another class.
    fn fits(&self, name: &Name, loader: LoaderId, home: LoaderId) -> bool
        ensures { TellsFitAt N.record_at N.joins self.now name.now loader home result }
    {
        match self.names.get(name) {
            Some(one) => one.admits(loader, home),
            None => true,
        }
    }

    /// Whether two loaders are joined for the name.
    fn links(&self, name: &Name, a: LoaderId, b: LoaderId) -> bool
        ensures { Decides result (joins_of N.joins self.now name.now a b) }
    {
        match self.names.get(name) {
            Some(one) => one.joined(a, b),
            None => a == b,
        }
    }

    /// Whether what is joined to one loader and to another records one class for the name.
    fn agrees(&self, name: &Name, a: LoaderId, b: LoaderId) -> bool
        ensures { AgreesAt N.record_at N.joins self.now name.now a b result }
    {
        match self.names.get(name) {
            Some(one) => one.agree(a, b),
            None => true,
        }
    }

    /// Puts what is to stand of a name of which nothing does. A refused growth hands the name back.
    fn put(&mut self, name: Name, one: N) -> Result<(), Name>
        requires { found_named self.old name ≡ None }
        ensures ok { OnOk result (Sets self.old self.new name one) }
        ensures unchanged { IfErr result (λ n. (self.new ≡ self.old) × (n ≡ name)) }
    {
        match self.names.insert(name, one) {
            Ok(_) => Ok(()),
            Err(refused) => Err(refused.value.0),
        }
    }

    /// Records a class that fits. A refused growth hands the name back.
    fn record(
        &mut self,
        alloc: Global,
        name: Name,
        loader: LoaderId,
        home: LoaderId,
    ) -> Result<(), Name>
        requires fresh { home_of N.record_at self.old name loader ≡ None }
        requires fits { TellsFitAt N.record_at N.joins self.old name loader home true }
        ensures ok { OnOk result (EntersAt N.record_at N.joins self.old self.new name loader home) }
        ensures unchanged { IfErr result (λ n. (self.new ≡ self.old) × (n ≡ name)) }
    {
        if let Some(one) = self.names.get_mut(&name) {
            return match one.enter(loader, home) {
                Ok(()) => Ok(()),
                Err(_) => Err(name),
            };
        }
        let mut one = N::empty(alloc);
        match one.enter(loader, home) {
            Ok(()) => self.put(name, one),
            Err(_) => Err(name),
        }
    }

    /// Joins two loaders that agree. A refused growth hands the name back.
    fn join(&mut self, alloc: Global, name: Name, a: LoaderId, b: LoaderId) -> Result<(), Name>
        requires apart { joins_of N.joins self.old name a b → ⊥ }
        requires fits { AgreesAt N.record_at N.joins self.old name a b true }
        ensures ok { OnOk result (JoinsAt N.record_at N.joins self.old self.new name a b) }
        ensures unchanged { IfErr result (λ n. (self.new ≡ self.old) × (n ≡ name)) }
    {
        if let Some(one) = self.names.get_mut(&name) {
            return match one.join(alloc, a, b) {
                Ok(()) => Ok(()),
                Err(_) => Err(name),
            };
        }
        let mut one = N::empty(alloc);
        match one.join(alloc, a, b) {
            Ok(()) => self.put(name, one),
            Err(_) => Err(name),
        }
    }
}

impl<N: NameBook + Drop> ConstraintBook for Book<N> {
    ghost use Rattle.cl_constraints.specs.Books.{IsBookOf};
    ghost use Rattle.cl_constraints.specs.Named.{home_of, joins_of};

    ghost stands_for = { λ b s. IsBookOf (home_of N.record_at b) (joins_of N.joins b) s };

    ghost record_of = { λ b name loader. home_of N.record_at b name loader };

    fn home(&self, name: &Name, loader: LoaderId) -> Option<LoaderId> {
        match self.names.get(name) {
            Some(one) => one.home(loader),
            None => None,
        }
    }

    fn admits(&self, name: &Name, loader: LoaderId, home: LoaderId) -> bool {
        self.fits(name, loader, home)
    }

    fn joined(&self, name: &Name, a: LoaderId, b: LoaderId) -> bool {
        self.links(name, a, b)
    }

    fn refuses(&self, name: &Name, a: LoaderId, b: LoaderId) -> bool {
        !self.agrees(name, a, b)
    }

    fn enter(
        &mut self,
        alloc: Global,
        name: Name,
        loader: LoaderId,
        home: LoaderId,
    ) -> Result<(), Refusal> {
        if !self.fits(&name, loader, home) {
            return Err(Refusal {
                fault: BookFault::Violates,
                name,
            });
        }
        match self.record(alloc, name, loader, home) {
            Ok(()) => Ok(()),
            Err(name) => Err(Refusal {
                fault: BookFault::Memory,
                name,
            }),
        }
    }

    fn impose(
        &mut self,
        alloc: Global,
        name: Name,
        a: LoaderId,
        b: LoaderId,
    ) -> Result<bool, Refusal> {
        if self.links(&name, a, b) {
            return Ok(false);
        }
        if !self.agrees(&name, a, b) {
            return Err(Refusal {
                fault: BookFault::Violates,
                name,
            });
        }
        match self.join(alloc, name, a, b) {
            Ok(()) => Ok(true),
            Err(name) => Err(Refusal {
                fault: BookFault::Memory,
                name,
            }),
        }
    }
}
