//! Members that were found.

ghost use Rattle.std.specs.Prelude.{◌≡◌, IfOk};
ghost use Rattle.cl_classfile.specs.References.{plain_symbol};
ghost use Rattle.cl_model.specs.Preparation.{equals_of};
ghost use Rattle.cl_hierarchy.specs.Imposed.{OfReference, needs_of};
ghost use Rattle.cl_hierarchy.specs.Lineages.{kin_of};
ghost use Rattle.cl_members.specs.Asking.{LooksUp, IsLocated, Reaches};

use crate::fault::LookupFault;
use crate::naming::{class_names, equals};
use cl_classfile::Symbol;
use cl_hierarchy::{ClassRow, Equalities, Lineage, member_accessible};
use cl_model::{MemberKey, Told};
use std::alloc::{AllocError, Global};
use std::marker::Model;
use std::sync::Arc;

/// The member that an entry of the pool of a class `d` asks for, as it was found through the class `c` that the entry
/// names. It is accessible to `d` (JVMS SE 8, 5.4.3.2 to 5.4.3.4).
pub struct Found<T: Told> {
    d: Lineage<T>,
    c: Lineage<T>,
    index: u16,
    owner: Arc<ClassRow<T>>,
    key: MemberKey,
    flags: u16,
}

impl<T: Told> Drop for Found<T> {
    fn drop(self) {
        let Found {
            d: _,
            c: _,
            index: _,
            owner: _,
            key: _,
            flags: _,
        } = self;
    }
}

impl<T: Told> Model for Found<T> {
    ghost use Rattle.cl_members.specs.Asking.{IsLocated, LocatedMember};

    ghost Value = { LocatedMember };

    ghost view = { λ f. record {
      d = f.d;
      c = f.c;
      index = f.index;
      owner = f.owner.value;
      key = f.key;
      flags = f.flags;
    } };

    ghost invariant = { λ f. IsLocated (record {
      d = f.d;
      c = f.c;
      index = f.index;
      owner = f.owner.value;
      key = f.key;
      flags = f.flags;
    }) };
}

impl<T: Told> Found<T> {
    /// The class whose entry asks for the member.
    pub fn d(&self) -> &Lineage<T>
        ensures d { result.now ≡ self.now.d }
        ensures kept { IsLocated self.now }
    {
        &self.d
    }

    /// The class that the entry names.
    pub fn c(&self) -> &Lineage<T>
        ensures c { result.now ≡ self.now.c }
        ensures kept { IsLocated self.now }
    {
        &self.c
    }

    /// The index of the entry.
    pub fn index(&self) -> u16
        ensures index { result ≡ self.now.index }
        ensures kept { IsLocated self.now }
    {
        self.index
    }

    /// The class that declares the member.
    pub fn owner(&self) -> &Arc<ClassRow<T>>
        ensures owner { result.now.value ≡ self.now.owner }
        ensures kept { IsLocated self.now }
    {
        &self.owner
    }

    /// The member's name and descriptor.
    pub fn key(&self) -> &MemberKey
        ensures key { result.now ≡ self.now.key }
        ensures kept { IsLocated self.now }
    {
        &self.key
    }

    /// The member's flags (JVMS SE 8, tables 4.5-A, 4.6-A).
    pub fn flags(&self) -> u16
        ensures flags { result ≡ self.now.flags }
        ensures kept { IsLocated self.now }
    {
        self.flags
    }
}

/// The member that lookup came to, where it is accessible (JVMS SE 8, 5.4.4).
pub(crate) fn access<T: Told>(
    alloc: Global,
    d: &Lineage<T>,
    c: &Lineage<T>,
    index: u16,
    symbol: Symbol<'_>,
    owner: &Arc<ClassRow<T>>,
    flags: u16,
) -> Result<Found<T>, LookupFault>
    requires { Reaches d.now c.now index (plain_symbol symbol) owner.now.value flags }
    ensures { LooksUp d.now c.now index result }
{
    if !member_accessible(d, owner.class(), flags, c) {
        return Err(LookupFault::Inaccessible(owner.class().try_clone(alloc)?));
    }
    let key = MemberKey::new(alloc, symbol.name, symbol.descriptor)?;
    Ok(Found {
        d: d.try_clone()?,
        c: c.try_clone()?,
        index,
        owner: Arc::try_clone(owner)?,
        key,
        flags,
    })
}

/// The loading constraints that a member asks for: for a field its class or that of its elements, for a method that of
/// its return type and then those of its parameters in order are the same for the loader of the class that declares it
/// and for that of the class that refers to it, the lesser loader first (JVMS SE 8, 5.4.3.2, 5.4.3.3).
pub fn equalities<T: Told>(alloc: Global, found: &Found<T>) -> Result<Equalities<T>, AllocError>
    ensures needs { IfOk result (λ e. needs_of e.needs ≡ equals_of found.now.key
        found.now.owner.class.loader (kin_of found.now.d).class.loader) }
    ensures origin { IfOk result (λ e. e.origin ≡ OfReference found.now.d found.now.c
        found.now.index) }
{
    let names = class_names(alloc, found.d().own().file(), found.index)?;
    let owner = found.owner().class().loader;
    let needs = equals(alloc, names, owner, found.d().class().loader)?;
    let d = found.d().try_clone()?;
    let c = found.c().try_clone()?;
    Ok(Equalities::of_reference(d, c, found.index, needs))
}
