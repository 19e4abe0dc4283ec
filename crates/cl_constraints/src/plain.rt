ghost use Rattle.std.specs.Prelude.{◌≡◌, ◌==◌, [], ◌++◌, ◌∷◌, map, ℕ, Option, None, OnErr, OnOk};
ghost use Rattle.cl_model.specs.States.{Differs, Divides};
ghost use Rattle.cl_names.specs.Truth.{Decides};
ghost use Rattle.cl_constraints.specs.Singles.{Enters, Joins, TellsAgreement, TellsFit};
ghost use Rattle.cl_constraints.specs.Pairs.{differs_at, divides_at, end_in, home_at, moved_record, next_by};

use crate::single::NameBook;
use cl_model::LoaderId;
use std::alloc::{AllocError, Global};
use std::marker::Model;

/// Two loaders that were joined. A search that stands at the one goes to the other.
#[derive(Clone, Copy, Debug)]
struct Pair {
    one: LoaderId,
    other: LoaderId,
}

impl Pair {
    /// Where a search goes from a loader.
    fn next(&self, loader: LoaderId) -> LoaderId
        ensures { result ≡ next_by loader self.now }
    {
        if self.one == loader {
            self.other
        } else {
            loader
        }
    }
}

/// A loader's record of the name: who defined the class, and where the search from the loader ends.
#[derive(Clone, Copy, Debug)]
struct Placed {
    loader: LoaderId,
    home: LoaderId,
    end: LoaderId,
}

impl Placed {
    /// Goes on with the search, by a pair that was added.
    fn go_on(&mut self, pair: &Pair)
        ensures { self.new ≡ moved_record pair.now self.old }
    {
        self.end = pair.next(self.end);
    }
}

/// The constraints of one name, as lists of what was recorded and what was joined.
///
/// Two loaders are joined by a pair of those where the searches from them ended, so one walk along the pairs in their
/// order ends at the same loader for all that are joined. Each record keeps where that walk ends for its loader, since a
/// look takes no memory to note it in: `admits` is one walk and one pass over the records.
#[derive(Debug)]
pub struct Pairs {
    records: Vec<Placed>,
    pairs: Vec<Pair>,
}

impl Drop for Pairs {
    fn drop(self) {
        let Pairs {
            records: _,
            pairs: _,
        } = self;
    }
}

impl Model for Pairs {
    ghost use Rattle.cl_constraints.specs.Pairs.{KeepsEnds, Paired};

    ghost Value = { Paired };

    ghost view = { λ p. record { records = p.records.items; pairs = p.pairs.items } };

    ghost invariant = { λ p. KeepsEnds
        (record { records = p.records.items; pairs = p.pairs.items }) };
}

impl NameBook for Pairs {
    ghost use Rattle.cl_constraints.specs.Pairs.{ArePaired, home_at};

    ghost record_at = { λ p loader. home_at p.records loader };

    ghost joins = { λ p a b. ArePaired p.pairs a b };

    fn empty(alloc: Global) -> Pairs {
        Pairs {
            records: Vec::new(alloc),
            pairs: Vec::new(alloc),
        }
    }

    fn home(&self, loader: LoaderId) -> Option<LoaderId> {
        home_at(self.records.as_slice(), loader)
    }

    fn joined(&self, a: LoaderId, b: LoaderId) -> bool {
        end_among(self.pairs.as_slice(), a) == end_among(self.pairs.as_slice(), b)
    }

    fn admits(&self, loader: LoaderId, home: LoaderId) -> bool {
        let end = end_among(self.pairs.as_slice(), loader);
        !differs(self.records.as_slice(), end, home)
    }

    fn agree(&self, a: LoaderId, b: LoaderId) -> bool {
        let one = end_among(self.pairs.as_slice(), a);
        let other = end_among(self.pairs.as_slice(), b);
        !divides(self.records.as_slice(), one, other)
    }

    fn enter(&mut self, loader: LoaderId, home: LoaderId) -> Result<(), AllocError> {
        let end = end_among(self.pairs.as_slice(), loader);
        self.records.push(Placed { loader, home, end })?;
        Ok(())
    }

    fn join(&mut self, _alloc: Global, a: LoaderId, b: LoaderId) -> Result<(), AllocError> {
        let one = end_among(self.pairs.as_slice(), a);
        let other = end_among(self.pairs.as_slice(), b);
        self.pairs.push(Pair { one, other })?;
        move_on(&mut self.records, &Pair { one, other });
        Ok(())
    }
}

/// Where a search from a loader ends.
fn end_among(pairs: &[Pair], loader: LoaderId) -> LoaderId
    ensures { result ≡ end_in pairs.now loader }
{
    pairs.iter().fold(loader, |here, pair| pair.next(here))
}

/// Who defined the class that a loader records.
fn home_at(records: &[Placed], loader: LoaderId) -> Option<LoaderId>
    ensures { result ≡ home_at records.now loader }
{
    records
        .iter()
        .find(|it| it.loader == loader)
        .map(|it| it.home)
}

/// Whether a loader whose search ends here records another class.
fn differs(records: &[Placed], end: LoaderId, home: LoaderId) -> bool
    ensures { result ≡ differs_at records.now end home }
{
    records.iter().any(|it| it.end == end && it.home != home)
}

/// Whether loaders whose searches end at the one and at the other record different classes.
fn divides(records: &[Placed], one: LoaderId, other: LoaderId) -> bool
    ensures { result ≡ divides_at records.now one other }
{
    records
        .iter()
        .any(|it| it.end == one && differs(records, other, it.home))
}

/// Goes on with the search from each record's loader, by a pair that was added.
fn move_on(records: &mut Vec<Placed>, pair: &Pair)
    ensures { records.new.items ≡ map (moved_record pair.now) records.old.items }
{
    for record in records.iter_mut() {
        record.go_on(pair);
    }
}
