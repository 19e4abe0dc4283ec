//! The superinterfaces of several classes at once (JVMS SE 8, 5.4.3.3).

ghost use Rattle.std.specs.Prelude.{◌≡◌, ◌++◌, ◌∷◌, [], map, option_to_list, slice_get, IfOk, OnOk};
ghost use Rattle.std.specs.List.{AllByRecursion};
ghost use Rattle.cl_model.specs.Classes.{class, is_among};
ghost use Rattle.cl_model.specs.declared.class.Class.{Class};
ghost use Rattle.cl_hierarchy.specs.Lineages.{IsRowIn};
ghost use Rattle.cl_hierarchy.specs.Several.{Gains, if_left, superinterfaces_of_any};
ghost use Rattle.cl_hierarchy.specs.Trees.{SupersBefore, interfaces_in, kin_under, kins, superclass_in};

use crate::above::superclass_named;
use crate::row::ClassRow;
use cl_model::{Class, LoaderId, Told};
use cl_names::{Name, Seed};
use indexmap::IndexSet;
use std::alloc::{AllocError, Global};
use std::sync::Arc;

/// Classes, each once.
pub(crate) type Classes = IndexSet<Class, Seed>;

/// One class more.
fn put(classes: &mut Classes, class: Class) -> Result<(), AllocError>
    ensures { OnOk result (Gains classes.old.keys (class ∷ []) classes.new.keys) }
{
    classes.insert(class)?;
    Ok(())
}

/// The same, if there is one.
fn put_if(classes: &mut Classes, class: Option<Class>) -> Result<(), AllocError>
    ensures { OnOk result (Gains classes.old.keys (option_to_list class) classes.new.keys) }
{
    match class {
        None => Ok(()),
        Some(class) => put(classes, class),
    }
}

/// The classes of rows.
fn put_all<T: Told>(
    alloc: Global,
    classes: &mut Classes,
    rows: &[Arc<ClassRow<T>>],
) -> Result<(), AllocError>
    ensures { OnOk result (Gains classes.old.keys (map (λ r. r.value.class) rows.now)
        classes.new.keys) }
{
    for row in rows {
        put(classes, row.class().try_clone(alloc)?)?;
    }
    Ok(())
}

/// The class of a name that a loader defined.
fn class_of(alloc: Global, name: &Name, loader: LoaderId) -> Result<Class, AllocError>
    ensures { IfOk result (λ c. c ≡ class name.now loader) }
{
    Ok(Class {
        name: name.try_clone(alloc)?,
        loader,
    })
}

/// The superclass of a row's class, if it has one (JVMS SE 8, 5.3.5, step 3).
fn put_superclass<T: Told>(
    alloc: Global,
    classes: &mut Classes,
    row: &ClassRow<T>,
) -> Result<(), AllocError>
    ensures { OnOk result (Gains classes.old.keys (superclass_in row.now) classes.new.keys) }
{
    match superclass_named(row) {
        None => Ok(()),
        Some((name, loader)) => put(classes, class_of(alloc, name, loader)?),
    }
}

/// A direct superinterface of a row's class, by its place in the file (JVMS SE 8, 5.3.5, step 4).
fn interface_at<T: Told>(
    alloc: Global,
    row: &ClassRow<T>,
    place: usize,
) -> Result<Option<Class>, AllocError>
    ensures { IfOk result (λ o. o ≡ slice_get (interfaces_in row.now) place) }
{
    match row.file().interface_name(place) {
        None => Ok(None),
        Some(name) => match row.interface_definers().get(place) {
            None => Ok(None),
            Some(loader) => Ok(Some(class_of(alloc, name, *loader)?)),
        },
    }
}

/// All direct superinterfaces of a row's class (JVMS SE 8, 5.3.5, step 4).
fn put_interfaces<T: Told>(
    alloc: Global,
    classes: &mut Classes,
    row: &ClassRow<T>,
) -> Result<(), AllocError>
    ensures { OnOk result (Gains classes.old.keys (interfaces_in row.now) classes.new.keys) }
{
    for place in 0..row.interface_definers().len() {
        put_if(classes, interface_at(alloc, row, place)?)?;
    }
    Ok(())
}

/// Looks at a row: the direct superinterfaces of its class are found, and all its direct supertypes are left to be looked at,
/// the superclass too, whose superinterfaces count while it does not (JVMS SE 8, 5.4.3.3).
#[tactic(auto, using(crate::proofs::Joining::joins_both))]
fn look<T: Told>(
    alloc: Global,
    found: &mut Classes,
    left: &mut Classes,
    row: &ClassRow<T>,
) -> Result<(), AllocError>
    ensures found { OnOk result (Gains found.old.keys (interfaces_in row.now) found.new.keys) }
    ensures left { OnOk result (Gains left.old.keys (interfaces_in row.now ++ superclass_in row.now)
        left.new.keys) }
{
    put_interfaces(alloc, found, row)?;
    put_interfaces(alloc, left, row)?;
    put_superclass(alloc, left, row)
}

/// Looks at a row, where its class is left to be looked at.
fn look_if<T: Told>(
    alloc: Global,
    found: &mut Classes,
    left: &mut Classes,
    row: &ClassRow<T>,
) -> Result<(), AllocError>
    ensures found { OnOk result (Gains found.old.keys (if_left left.old.keys row.now.class
        (interfaces_in row.now)) found.new.keys) }
    ensures left { OnOk result (Gains left.old.keys (if_left left.old.keys row.now.class
        (interfaces_in row.now ++ superclass_in row.now)) left.new.keys) }
{
    if !left.contains(row.class()) {
        return Ok(());
    }
    look(alloc, found, left, row)
}

/// The classes of all superinterfaces of any of some classes (JVMS SE 8, 5.4.3.3), by their rows among these, each of which
/// stands after its direct supertypes. One pass from the last row to the first is enough: each class that has another as a
/// direct supertype is looked at before that. Time linear in the rows and the supertypes that they name.
pub(crate) fn superinterface_classes<T: Told>(
    alloc: Global,
    seed: Seed,
    above: &[Arc<ClassRow<T>>],
    own: &ClassRow<T>,
    some: &[Arc<ClassRow<T>>],
) -> Result<Classes, AllocError>
    requires ordered { SupersBefore [] (map (λ r. r.value) above.now ++ own.now ∷ []) }
    requires inside { AllByRecursion (λ r. IsRowIn (map (λ x. x.value) above.now ++ own.now ∷ [])
        r.value) some.now }
    ensures { IfOk result (λ s. (c : Class) → is_among s.keys c
        ≡ is_among (superinterfaces_of_any
        (map (λ r. kin_under (kins (map (λ x. x.value) above.now ++ own.now ∷ [])) r.value)
        some.now)) c) }
{
    let mut found = IndexSet::with_hasher(alloc, seed);
    if some.is_empty() {
        return Ok(found);
    }
    let mut left = IndexSet::with_hasher(alloc, seed);
    put_all(alloc, &mut left, some)?;
    look_if(alloc, &mut found, &mut left, own)?;
    let mut rest = above;
    while let Some((row, earlier)) = rest.split_last() {
        rest = earlier;
        look_if(alloc, &mut found, &mut left, row)?;
    }
    Ok(found)
}
