//! Whether a method overrides that of a superclass (JVMS SE 8, 5.4.5).

ghost use Rattle.std.specs.Prelude.{◌≡◌, ◌<◌, Some, length, map, slice_get, take, option_map};
ghost use Rattle.std.specs.List.{list_any};
ghost use Rattle.cl_classfile.specs.Files.{file_of, method_of};
ghost use Rattle.cl_classfile.specs.Lookups.{method_named};
ghost use Rattle.cl_model.specs.Lineages.{Kin, superclasses};
ghost use Rattle.cl_model.specs.Preparation.{takes_part};
ghost use Rattle.cl_hierarchy.specs.Lineages.{kin_at, kin_of};
ghost use Rattle.cl_preparation.specs.Relatives.{bare, holds_of_key, overrides_by_rows, overrides_named};
ghost use Rattle.cl_preparation.specs.Walks.{is_open, opens_to};

use crate::key::is_special;
use crate::method::{is_public_or_protected, is_virtual};
use cl_hierarchy::{ClassRow, Lineage, same_package};
use cl_model::Told;
use cl_names::Name;
use std::sync::Arc;

/// The flags of the method of this name and descriptor that a class declares, if it declares one.
#[tactic(auto, using(crate::proofs::Named::flags_named))]
pub(crate) fn flags<T: Told>(row: &ClassRow<T>, name: &Name, descriptor: &Name) -> Option<u16>
    ensures { result ≡ option_map (λ m. m.flags) (method_named (file_of row.now.file) name.now
        descriptor.now) }
{
    match row.file().method(name, descriptor) {
        Some(method) => Some(method.flags()),
        None => None,
    }
}

/// Whether a class declares a method of this name and descriptor that takes part in overriding.
#[tactic(auto, using(crate::proofs::Named::part_named))]
fn takes_part<T: Told>(row: &ClassRow<T>, name: &Name, descriptor: &Name) -> bool
    ensures { result ≡ holds_of_key (method_of name.now descriptor.now)
        (λ key. takes_part key (bare row.now)) }
{
    match flags(row, name, descriptor) {
        Some(flags) => !is_special(name) && is_virtual(flags),
        None => false,
    }
}

/// Whether a class declares a public or a protected method of this name and descriptor.
#[tactic(auto, using(crate::proofs::Named::open_named))]
fn is_open<T: Told>(row: &ClassRow<T>, name: &Name, descriptor: &Name) -> bool
    ensures { result ≡ holds_of_key (method_of name.now descriptor.now)
        (λ key. is_open key (bare row.now)) }
{
    match flags(row, name, descriptor) {
        Some(flags) => is_public_or_protected(flags),
        None => false,
    }
}

/// Whether a class declares such a method that takes part, and is of the package of another class.
#[tactic(auto, using(crate::proofs::Named::opens_named))]
fn opens_to<T: Told>(
    above: &ClassRow<T>,
    between: &ClassRow<T>,
    name: &Name,
    descriptor: &Name,
) -> bool
    ensures { result ≡ holds_of_key (method_of name.now descriptor.now)
        (λ key. opens_to key (bare above.now) (bare between.now)) }
{
    takes_part(between, name, descriptor)
        && is_open(between, name, descriptor)
        && same_package(above.class(), between.class())
}

/// Whether the method of a class overrides the one of a superclass, over the classes between, the rows of which these are.
#[tactic(auto, using(crate::proofs::Named::told_apart))]
fn overrides_by<T: Told>(
    own: &ClassRow<T>,
    above: &ClassRow<T>,
    between: &[Arc<ClassRow<T>>],
    name: &Name,
    descriptor: &Name,
) -> bool
    ensures { result ≡ overrides_by_rows (method_of name.now descriptor.now) own.now above.now
        (map (λ r. r.value) between.now) }
{
    takes_part(own, name, descriptor)
        && takes_part(above, name, descriptor)
        && (is_open(above, name, descriptor)
            || same_package(above.class(), own.class())
            || any_opens(above, between, name, descriptor))
}

/// Whether one of these classes opens the package of a class.
fn any_opens<T: Told>(
    above: &ClassRow<T>,
    between: &[Arc<ClassRow<T>>],
    name: &Name,
    descriptor: &Name,
) -> bool
    ensures { result ≡ list_any (λ b. holds_of_key (method_of name.now descriptor.now)
        (λ key. opens_to key (bare above.now) (bare b))) (map (λ r. r.value) between.now) }
{
    for row in between {
        if opens_to(above, row, name, descriptor) {
            return true;
        }
    }
    false
}

/// Whether the method of this name and descriptor of a class overrides the one of its superclass at this place, counted
/// from 0 in the rows of its superclasses, nearest first: directly, or through the methods of classes between (JVMS SE 8,
/// 5.4.5). It looks at each class up to there once, and takes no memory. Where the descriptor is none of a method, or one of
/// the two classes declares no such method, it does not.
pub fn overrides<T: Told>(
    lineage: &Lineage<T>,
    rows: &[Arc<ClassRow<T>>],
    place: usize,
    name: &Name,
    descriptor: &Name,
) -> bool
    requires rows { map (λ r. kin_at lineage.now r.value) rows.now
        ≡ superclasses (kin_of lineage.now) }
    requires place { place < length rows.now }
    ensures { (a : Kin) → slice_get (superclasses (kin_of lineage.now)) place ≡ Some a
        → result ≡ overrides_named name.now descriptor.now (kin_of lineage.now)
        (take place (superclasses (kin_of lineage.now))) a }
{
    let between = &rows[..place];
    overrides_by(lineage.own(), &rows[place], between, name, descriptor)
}
