ghost use Rattle.std.specs.Prelude.{◌≡◌, [], ◌++◌, ◌∷◌, map, ℕ, Option, None, IfOk, OnErr, OnOk, option_map};
ghost use Rattle.cl_model.specs.States.{Differs, Divides};
ghost use Rattle.cl_names.specs.Truth.{Decides};
ghost use Rattle.cl_constraints.specs.Singles.{Enters, Joins};
ghost use Rattle.cl_constraints.specs.Groups.{joined_class, members, with_home, AreJoined, joint_of, without, has_both, group_of, IsClassOf};
ghost use Rattle.cl_model.specs.Probes.{is_in};

use crate::record::{Entered, home_among};
use crate::single::NameBook;
use cl_model::LoaderId;
use std::alloc::{AllocError, Global};
use std::marker::Model;

/// Loaders that are joined for a name, and the one class that those of them have that record it.
#[derive(Debug)]
struct Group {
    home: Option<LoaderId>,
    loaders: Vec<LoaderId>,
}

impl Drop for Group {
    fn drop(self) {
        let Group {
            home: _,
            loaders: _,
        } = self;
    }
}

impl Model for Group {
    ghost use Rattle.cl_constraints.specs.Groups.{Joint};

    ghost Value = { Joint };

    ghost view = { λ g. record { home = g.home; loaders = g.loaders.items } };
}

impl Group {
    /// Whether a loader is one of them.
    fn has(&self, loader: LoaderId) -> bool
        ensures { result ≡ is_in self.now.loaders loader }
    {
        self.loaders.iter().any(|it| *it == loader)
    }

    /// Notes the class that a loader records, if it is one of them.
    fn note(&mut self, loader: LoaderId, home: LoaderId)
        ensures { self.new ≡ with_home loader home self.old }
    {
        if self.has(loader) {
            self.home = Some(home);
        }
    }
}

/// The constraints of one name, as groups of joined loaders; a loader that is joined to no other may be in none.
#[derive(Debug)]
pub struct Groups {
    records: Vec<Entered>,
    groups: Vec<Group>,
}

impl Drop for Groups {
    fn drop(self) {
        let Groups {
            records: _,
            groups: _,
        } = self;
    }
}

impl Model for Groups {
    ghost use Rattle.cl_constraints.specs.Groups.{Grouped, IsGrouped};

    ghost Value = { Grouped };

    ghost view = { λ g. record { records = g.records.items; groups = g.groups.items } };

    ghost invariant = { λ g. IsGrouped (record {
      records = g.records.items;
      groups = g.groups.items;
    }) };
}

impl Groups {
    /// The one class that is recorded by what is joined to a loader.
    fn class(&self, loader: LoaderId) -> Option<LoaderId>
        ensures value { result ≡ joined_class self.now loader }
        ensures shared { IsClassOf self.now loader result }
    {
        match group_of(self.groups.as_slice(), loader) {
            Some(group) => group.home,
            None => home_among(self.records.as_slice(), loader),
        }
    }

    /// Adds the loaders that are joined to one.
    fn add_members(&self, loaders: &mut Vec<LoaderId>, loader: LoaderId) -> Result<(), AllocError>
        ensures { OnOk result (loaders.new.items ≡ loaders.old.items ++ members self.now.groups
            loader) }
    {
        match group_of(self.groups.as_slice(), loader) {
            Some(group) => loaders.extend_from_slice(group.loaders.as_slice())?,
            None => loaders.push(loader)?,
        }
        Ok(())
    }

    /// The group that two loaders are in once they are joined.
    fn joint(&self, alloc: Global, a: LoaderId, b: LoaderId) -> Result<Group, AllocError>
        ensures { IfOk result (λ g. g ≡ joint_of self.now a b) }
    {
        let mut loaders = Vec::new(alloc);
        self.add_members(&mut loaders, a)?;
        self.add_members(&mut loaders, b)?;
        Ok(Group {
            home: self.class(a).or(self.class(b)),
            loaders,
        })
    }
}

impl NameBook for Groups {
    ghost use Rattle.cl_constraints.specs.Groups.{AreJoined};
    ghost use Rattle.cl_constraints.specs.Records.{home_in};

    ghost record_at = { λ g loader. home_in g.records loader };

    ghost joins = { λ g a b. AreJoined g.groups a b };

    fn empty(alloc: Global) -> Groups {
        Groups {
            records: Vec::new(alloc),
            groups: Vec::new(alloc),
        }
    }

    fn home(&self, loader: LoaderId) -> Option<LoaderId> {
        home_among(self.records.as_slice(), loader)
    }

    fn joined(&self, a: LoaderId, b: LoaderId) -> bool {
        a == b || share_group(self.groups.as_slice(), a, b)
    }

    fn admits(&self, loader: LoaderId, home: LoaderId) -> bool {
        match self.class(loader) {
            Some(place) => place == home,
            None => true,
        }
    }

    fn agree(&self, a: LoaderId, b: LoaderId) -> bool {
        match (self.class(a), self.class(b)) {
            (Some(one), Some(other)) => one == other,
            _ => true,
        }
    }

    fn enter(&mut self, loader: LoaderId, home: LoaderId) -> Result<(), AllocError> {
        self.records.push(Entered { loader, home })?;
        give_home(&mut self.groups, loader, home);
        Ok(())
    }

    fn join(&mut self, alloc: Global, a: LoaderId, b: LoaderId) -> Result<(), AllocError> {
        let joint = self.joint(alloc, a, b)?;
        replace(&mut self.groups, a, b, joint)
    }
}

/// The group that a loader is in.
fn group_of(groups: &[Group], loader: LoaderId) -> Option<&Group>
    ensures { option_map (λ g. g.now) result ≡ group_of groups.now loader }
{
    groups.iter().find(|group| group.has(loader))
}

/// Whether a group has both loaders.
fn share_group(groups: &[Group], a: LoaderId, b: LoaderId) -> bool
    ensures { result ≡ has_both groups.now a b }
{
    groups.iter().any(|group| group.has(a) && group.has(b))
}

/// Notes the class that a loader records, at its group.
fn give_home(groups: &mut Vec<Group>, loader: LoaderId, home: LoaderId)
    ensures { groups.new.items ≡ map (with_home loader home) groups.old.items }
{
    for group in groups.iter_mut() {
        group.note(loader, home);
    }
}

/// Puts a group in place of those that two loaders are in.
fn replace(
    groups: &mut Vec<Group>,
    a: LoaderId,
    b: LoaderId,
    joint: Group,
) -> Result<(), AllocError>
    ensures replaced { OnOk result (groups.new.items ≡ without a b groups.old.items ++ joint ∷ []) }
    ensures unchanged { OnErr result (groups.new.items ≡ groups.old.items) }
{
    groups.try_reserve(1)?;
    groups.retain(|group| !group.has(a) && !group.has(b));
    groups.push(joint)?;
    Ok(())
}
