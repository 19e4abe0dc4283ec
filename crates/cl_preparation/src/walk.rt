//! What a method overrides, in one walk over the superclasses, and what is inherited (JVMS SE 8, 5.4.5).

ghost use Rattle.std.specs.Prelude.{◌≡◌, ◌++◌, ◌∷◌, [], map, filter, List, OnOk};
ghost use Rattle.std.specs.List.{list_any};
ghost use Rattle.cl_model.specs.declared.class.Class.{Class};
ghost use Rattle.cl_model.specs.Preparation.{equals_of, equals_with, takes_part};
ghost use Rattle.cl_hierarchy.specs.Imposed.{needs_of};
ghost use Rattle.cl_preparation.specs.Packages.{AreOpened};
ghost use Rattle.cl_preparation.specs.Relatives.{Visits, bare, first_loader, of_superclasses};
ghost use Rattle.cl_preparation.specs.Walks.{is_package_private, overridden_by_package};

use crate::declared::{declared_open, is_package_private, offers, takes_part};
use crate::described::{Described, push_equals};
use crate::key::MethodKey;
use crate::packages::{Package, Packages, has_package_of, open};
use cl_hierarchy::ClassRow;
use cl_model::{Equality, LoaderId, Told};
use cl_names::Seed;
use indexmap::IndexSet;
use std::alloc::{AllocError, Global};
use std::sync::Arc;

/// Looks at the next superclass, where the packages were opened that were: its method is overridden where it is open or of
/// such a package, and where it is open it opens its own.
#[tactic(auto, using(crate::proofs::Walking::passed, crate::proofs::Walking::opened_again, crate::proofs::Walking::within_too, crate::proofs::Walking::without))]
fn visit<T: Told>(
    alloc: Global,
    needs: &mut Vec<Equality>,
    opened: &mut Packages,
    method: &Described,
    loader: LoaderId,
    class: &ClassRow<T>,
) -> Result<(), AllocError>
    ensures { (before : List Class) → AreOpened opened.old before
        → OnOk result (Visits method.now before (bare class.now)
        (equals_of method.now loader class.now.class.loader)
        (needs_of needs.old.items) (needs_of needs.new.items) opened.new) }
{
    let Some(is_open) = declared_open(class, method.key()) else {
        return Ok(());
    };
    let class = class.class();
    let is_within = has_package_of(alloc, opened, class)?;
    if is_open {
        push_equals(alloc, needs, method, loader, class.loader)?;
        if !is_within {
            open(opened, Package::of(alloc, class)?)?;
        }
        return Ok(());
    }
    if is_within {
        push_equals(alloc, needs, method, loader, class.loader)?;
    }
    Ok(())
}

/// Adds what a method of a class imposes with the superclasses whose method it overrides, nearest first.
#[tactic(auto, using(crate::proofs::Walking::walking_start, crate::proofs::Walking::walking_end))]
fn push_overridden<T: Told>(
    alloc: Global,
    seed: Seed,
    needs: &mut Vec<Equality>,
    method: &Described,
    own: &ClassRow<T>,
    superclasses: &[Arc<ClassRow<T>>],
) -> Result<(), AllocError>
    ensures { OnOk result (needs_of needs.new.items ≡ needs_of needs.old.items
        ++ equals_with method.now own.now.class.loader (overridden_by_package method.now
        (own.now.class ∷ []) (map (λ r. bare r.value) superclasses.now))) }
{
    let mut opened = IndexSet::with_hasher(alloc, seed);
    open(&mut opened, Package::of(alloc, own.class())?)?;
    for class in superclasses {
        visit(alloc, needs, &mut opened, method, own.class().loader, class)?;
    }
    Ok(())
}

/// Adds what a method of a class of this loader imposes with those of these classes that declare one like it which
/// takes part in overriding.
#[tactic(auto, using(crate::proofs::Walking::kept_step, crate::proofs::Walking::kept_end))]
pub(crate) fn push_taking<T: Told>(
    alloc: Global,
    needs: &mut Vec<Equality>,
    method: &Described,
    loader: LoaderId,
    classes: &[Arc<ClassRow<T>>],
) -> Result<(), AllocError>
    ensures { OnOk result (needs_of needs.new.items ≡ needs_of needs.old.items
        ++ equals_with method.now loader (filter (takes_part method.now)
        (map (λ r. bare r.value) classes.now))) }
{
    for class in classes {
        if takes_part(class, method.key()) {
            push_equals(alloc, needs, method, loader, class.class().loader)?;
        }
    }
    Ok(())
}

/// Whether one of these classes declares a method with this key that takes part in overriding, for its package alone.
fn any_package_private<T: Told>(classes: &[Arc<ClassRow<T>>], key: &MethodKey) -> bool
    ensures { result ≡ list_any (λ r. is_package_private key.now (bare r.value)) classes.now }
{
    classes.iter().any(|class| is_package_private(class, key))
}

/// Adds what a method of a class imposes with its superclasses; one of an interface imposes nothing with them.
#[tactic(auto, using(crate::proofs::Walking::above_open))]
pub(crate) fn push_above<T: Told>(
    alloc: Global,
    seed: Seed,
    needs: &mut Vec<Equality>,
    method: &Described,
    own: &ClassRow<T>,
    superclasses: &[Arc<ClassRow<T>>],
) -> Result<(), AllocError>
    ensures { OnOk result (needs_of needs.new.items ≡ needs_of needs.old.items ++ of_superclasses
        own.now (map (λ r. bare r.value) superclasses.now) method.now) }
{
    if own.file().is_interface() {
        return Ok(());
    }
    // mostly: all that are looked at are open, and no package tells of one whether it is overridden
    if !any_package_private(superclasses, method.key()) {
        return push_taking(alloc, needs, method, own.class().loader, superclasses);
    }
    push_overridden(alloc, seed, needs, method, own, superclasses)
}

/// The loader of the nearest superclass that declares a method with this key that is neither private nor static.
pub(crate) fn inherited_loader<T: Told>(
    superclasses: &[Arc<ClassRow<T>>],
    key: &MethodKey,
) -> Option<LoaderId>
    ensures { result ≡ first_loader (λ r. r.value) key.now superclasses.now }
{
    superclasses
        .iter()
        .find(|class| offers(class, key))
        .map(|class| class.class().loader)
}
