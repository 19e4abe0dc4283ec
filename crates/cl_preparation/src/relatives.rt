//! The loading constraints that the preparation of a class imposes (JVMS SE 8, 5.4.2).

ghost use Rattle.std.specs.Prelude.{◌≡◌, ◌||◌, ◌++◌, [], if◌then◌else◌, map, flat_map, IfOk, OnOk};
ghost use Rattle.std.specs.List.{list_any};
ghost use Rattle.cl_classfile.specs.Files.{is_interface};
ghost use Rattle.cl_model.specs.Lineages.{superclasses, superinterfaces};
ghost use Rattle.cl_model.specs.Preparation.{constraints_of, for_declared, for_inherited, takes_part};
ghost use Rattle.cl_hierarchy.specs.Imposed.{OfPreparation, needs_of};
ghost use Rattle.cl_hierarchy.specs.Lineages.{kin_at, kin_of};
ghost use Rattle.cl_preparation.specs.Relatives.{bare, names_interfaces};

use crate::declared::{declares, takes_part};
use crate::described::{Described, push_equals};
use crate::key::MethodKey;
use crate::method::{Method, methods_of};
use crate::walk::{inherited_loader, push_above, push_taking};
use cl_hierarchy::{ClassRow, Equalities, Lineage};
use cl_model::{Equality, Told};
use std::alloc::{AllocError, Global};
use std::marker::Model;
use std::sync::Arc;

/// A class, its superclasses nearest first and its superinterfaces in preorder.
struct Relatives<'a, T: Told> {
    lineage: &'a Lineage<T>,
    superclasses: Vec<Arc<ClassRow<T>>>,
    superinterfaces: Vec<Arc<ClassRow<T>>>,
}

impl<'a, T: Told> Drop for Relatives<'a, T> {
    fn drop(self) {
        let Relatives {
            lineage: _,
            superclasses: _,
            superinterfaces: _,
        } = self;
    }
}

impl<'a, T: Told> Model for Relatives<'a, T> {
    ghost use Rattle.cl_hierarchy.specs.Lineages.{Lined};
    ghost use Rattle.cl_preparation.specs.Relatives.{AreRelatives};

    ghost Value = { Lined };

    ghost view = { λ r. r.lineage.now };

    ghost invariant = { λ r. AreRelatives (λ x. x.value) r.lineage.now r.superclasses.items
        r.superinterfaces.items };
}

/// Whether a class names superinterfaces (JVMS SE 8, 4.1).
fn names_interfaces<T: Told>(row: &ClassRow<T>) -> bool
    ensures { result ≡ names_interfaces row.now }
{
    row.file().interface_name(0).is_some()
}

/// Whether one of these classes names superinterfaces.
fn any_names_interfaces<T: Told>(classes: &[Arc<ClassRow<T>>]) -> bool
    ensures { result ≡ list_any (λ r. names_interfaces r.value) classes.now }
{
    classes.iter().any(|class| names_interfaces(class))
}

/// The superinterfaces, in preorder, where these are the superclasses.
fn superinterfaces_of<T: Told>(
    alloc: Global,
    lineage: &Lineage<T>,
    above: &[Arc<ClassRow<T>>],
) -> Result<Vec<Arc<ClassRow<T>>>, AllocError>
    requires { map (λ r. kin_at lineage.now r.value) above.now ≡ superclasses (kin_of lineage.now) }
    ensures { IfOk result (λ v. map (λ r. kin_at lineage.now r.value) v.items ≡ superinterfaces
        (kin_of lineage.now)) }
{
    // many classes have none
    if !names_interfaces(lineage.own()) && !any_names_interfaces(above) {
        return Ok(Vec::new(alloc));
    }
    lineage.superinterfaces(alloc)
}

/// Whether one of these classes declares a method with this key that takes part in overriding.
fn any_takes_part<T: Told>(classes: &[Arc<ClassRow<T>>], key: &MethodKey) -> bool
    ensures { result ≡ list_any (λ r. takes_part key.now (bare r.value)) classes.now }
{
    classes.iter().any(|class| takes_part(class, key))
}

impl<'a, T: Told> Relatives<'a, T> {
    /// Those of the class of a lineage.
    fn of(alloc: Global, lineage: &'a Lineage<T>) -> Result<Relatives<'a, T>, AllocError>
        ensures { IfOk result (λ r. r ≡ lineage.now) }
    {
        let superclasses = lineage.superclasses(alloc)?;
        let superinterfaces = superinterfaces_of(alloc, lineage, superclasses.as_slice())?;
        Ok(Relatives {
            lineage,
            superclasses,
            superinterfaces,
        })
    }

    /// The class's own row.
    fn own(&self) -> &ClassRow<T>
        ensures { result.now ≡ self.now.own }
    {
        self.lineage.own()
    }

    /// The rows of the superclasses, nearest first.
    fn superclasses(&self) -> &[Arc<ClassRow<T>>]
        ensures { map (λ r. kin_at self.now r.value) result.now ≡ superclasses (kin_of self.now) }
    {
        self.superclasses.as_slice()
    }

    /// The rows of the superinterfaces, in preorder.
    fn superinterfaces(&self) -> &[Arc<ClassRow<T>>]
        ensures { map (λ r. kin_at self.now r.value) result.now
            ≡ superinterfaces (kin_of self.now) }
    {
        self.superinterfaces.as_slice()
    }

    /// Whether a class above declares a method with this key that takes part in overriding: no other imposes anything.
    fn has_over(&self, key: &MethodKey) -> bool
        ensures { result ≡ list_any (takes_part key.now) (superclasses (kin_of self.now))
            || list_any (takes_part key.now) (superinterfaces (kin_of self.now)) }
    {
        any_takes_part(self.superclasses(), key) || any_takes_part(self.superinterfaces(), key)
    }

    /// Adds what a method of the class imposes with those that it overrides (JVMS SE 8, 5.4.2).
    #[tactic(auto, using(crate::proofs::Constraints::declared_alone))]
    fn push_declared(
        &self,
        alloc: Global,
        needs: &mut Vec<Equality>,
        method: &Method,
    ) -> Result<(), AllocError>
        ensures { OnOk result (needs_of needs.new.items ≡ needs_of needs.old.items ++ for_declared
            (kin_of self.now) method.now) }
    {
        let key = method.key();
        // first, since most methods stand over no other
        if !self.has_over(key) {
            return Ok(());
        }
        let own = self.own();
        if !takes_part(own, key) {
            return Ok(());
        }
        let described = Described::of(alloc, key)?;
        let seed = self.lineage.config().seed();
        push_above(alloc, seed, needs, &described, own, self.superclasses())?;
        push_taking(
            alloc,
            needs,
            &described,
            own.class().loader,
            self.superinterfaces(),
        )
    }

    /// Adds what these methods of the class impose.
    #[tactic(auto, using(crate::proofs::Constraints::pushed_more))]
    fn push_each_declared(
        &self,
        alloc: Global,
        needs: &mut Vec<Equality>,
        methods: &[Method],
    ) -> Result<(), AllocError>
        ensures { OnOk result (needs_of needs.new.items ≡ needs_of needs.old.items ++ flat_map
            (for_declared (kin_of self.now)) methods.now) }
    {
        for method in methods {
            self.push_declared(alloc, needs, method)?;
        }
        Ok(())
    }

    /// Adds what the methods of the class impose.
    fn push_all_declared(&self, alloc: Global, needs: &mut Vec<Equality>) -> Result<(), AllocError>
        ensures { OnOk result (needs_of needs.new.items ≡ needs_of needs.old.items ++ flat_map
            (for_declared (kin_of self.now)) (kin_of self.now).file.methods) }
    {
        let methods = methods_of(alloc, self.own().file())?;
        self.push_each_declared(alloc, needs, methods.as_slice())
    }

    /// Adds what a method of a superinterface imposes with the one that the class inherits (JVMS SE 8, 5.4.2).
    fn push_inherited(
        &self,
        alloc: Global,
        needs: &mut Vec<Equality>,
        interface: &ClassRow<T>,
        method: &Method,
    ) -> Result<(), AllocError>
        ensures { OnOk result (needs_of needs.new.items ≡ needs_of needs.old.items ++ for_inherited
            (kin_of self.now) (bare interface.now) method.now) }
    {
        let key = method.key();
        if !takes_part(interface, key) || declares(self.own(), key) {
            return Ok(());
        }
        match inherited_loader(self.superclasses(), key) {
            Some(loader) => {
                let described = Described::of(alloc, key)?;
                push_equals(alloc, needs, &described, loader, interface.class().loader)
            }
            None => Ok(()),
        }
    }

    /// Adds what these methods of a superinterface impose.
    #[tactic(auto, using(crate::proofs::Constraints::pushed_more))]
    fn push_each_inherited(
        &self,
        alloc: Global,
        needs: &mut Vec<Equality>,
        interface: &ClassRow<T>,
        methods: &[Method],
    ) -> Result<(), AllocError>
        ensures { OnOk result (needs_of needs.new.items ≡ needs_of needs.old.items ++ flat_map
            (for_inherited (kin_of self.now) (bare interface.now)) methods.now) }
    {
        for method in methods {
            self.push_inherited(alloc, needs, interface, method)?;
        }
        Ok(())
    }

    /// Adds what the methods of a superinterface impose.
    fn push_interface(
        &self,
        alloc: Global,
        needs: &mut Vec<Equality>,
        interface: &ClassRow<T>,
    ) -> Result<(), AllocError>
        ensures { OnOk result (needs_of needs.new.items ≡ needs_of needs.old.items ++ flat_map
            (for_inherited (kin_of self.now) (bare interface.now))
            (bare interface.now).file.methods) }
    {
        let methods = methods_of(alloc, interface.file())?;
        self.push_each_inherited(alloc, needs, interface, methods.as_slice())
    }

    /// Adds what the methods of these superinterfaces impose.
    fn push_interfaces(
        &self,
        alloc: Global,
        needs: &mut Vec<Equality>,
        interfaces: &[Arc<ClassRow<T>>],
    ) -> Result<(), AllocError>
        ensures { OnOk result (needs_of needs.new.items ≡ needs_of needs.old.items
            ++ flat_map (λ j. flat_map (for_inherited (kin_of self.now) (bare j.value))
            (bare j.value).file.methods) interfaces.now) }
    {
        for interface in interfaces {
            self.push_interface(alloc, needs, interface)?;
        }
        Ok(())
    }

    /// Adds what the methods of all superinterfaces impose, where the class is no interface.
    fn push_all_inherited(&self, alloc: Global, needs: &mut Vec<Equality>) -> Result<(), AllocError>
        ensures { OnOk result (needs_of needs.new.items ≡ needs_of needs.old.items
            ++ (if is_interface (kin_of self.now).file then [] else flat_map
            (λ j. flat_map (for_inherited (kin_of self.now) j) j.file.methods) (superinterfaces
            (kin_of self.now)))) }
    {
        if self.own().file().is_interface() {
            return Ok(());
        }
        self.push_interfaces(alloc, needs, self.superinterfaces())
    }

    /// All that the preparation of the class imposes.
    #[tactic(auto, using(crate::proofs::Constraints::both_halves))]
    fn needs(&self, alloc: Global) -> Result<Vec<Equality>, AllocError>
        ensures { IfOk result (λ v. needs_of v.items ≡ constraints_of (kin_of self.now)) }
    {
        let mut needs = Vec::new(alloc);
        self.push_all_declared(alloc, &mut needs)?;
        self.push_all_inherited(alloc, &mut needs)?;
        Ok(needs)
    }
}

/// The loading constraints that the preparation of a class imposes, in order, repeats and those of a loader with itself
/// included: for each method of the class those with the superclasses whose method it overrides, nearest first, and then
/// with its superinterfaces; then, for each method of a superinterface that the class does not declare, those with the
/// nearest superclass that declares one. Only memory refuses it (JVMS SE 8, 5.4.2).
pub fn constraints_of<T: Told>(
    alloc: Global,
    lineage: &Lineage<T>,
) -> Result<Equalities<T>, AllocError>
    ensures needs { IfOk result (λ e. needs_of e.needs
        ≡ constraints_of (kin_of lineage.now)) }
    ensures origin { IfOk result (λ e. e.origin ≡ OfPreparation lineage.now) }
{
    let relatives = Relatives::of(alloc, lineage)?;
    let needs = relatives.needs(alloc);
    drop(relatives);
    Ok(Equalities::of_preparation(lineage.try_clone()?, needs?))
}
