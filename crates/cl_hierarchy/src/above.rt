//! Where the rows of supertypes stand among earlier rows.

ghost use Rattle.std.specs.Prelude.{◌≡◌, ◌<◌, length, map, option_to_list, IfSome};
ghost use Rattle.std.specs.Option.{option_map};
ghost use Rattle.cl_model.specs.Classes.{class, same_class};
ghost use Rattle.cl_model.specs.Lineages.{first};
ghost use Rattle.cl_hierarchy.specs.Lineages.{above_in};
ghost use Rattle.cl_hierarchy.specs.Places.{IsPlace};
ghost use Rattle.cl_hierarchy.specs.Trees.{kin_named, kin_under, kins, superclass_in};

use crate::row::ClassRow;
use cl_model::{Class, LoaderId, Told};
use cl_names::Name;
use std::sync::Arc;

/// Whether a class has this name and loader.
fn is_of(name: &Name, loader: LoaderId, other: &Class) -> bool
    ensures { result ≡ same_class (class name.now loader) other.now }
{
    *name == other.name && loader == other.loader
}

/// The row of a class among rows each of which stands after its direct supertypes, with those before it.
fn row_named<'a, T: Told>(
    rows: &'a [Arc<ClassRow<T>>],
    name: &Name,
    loader: LoaderId,
) -> Option<(&'a Arc<ClassRow<T>>, &'a [Arc<ClassRow<T>>])>
    ensures kin { option_map (λ p. kin_under (kins (map (λ r. r.value) p.1.now)) p.0.now.value)
        result ≡ kin_named (kins (map (λ r. r.value) rows.now)) (class name.now loader) }
    ensures place { IfSome result (λ p. IsPlace (map (λ r. r.value) rows.now)
        (map (λ r. r.value) p.1.now) p.0.now.value) }
    ensures shorter { IfSome result (λ p. length p.1.now < length rows.now) }
{
    let mut rest = rows;
    while let Some((row, earlier)) = rest.split_last() {
        if is_of(name, loader, row.class()) {
            return Some((row, earlier));
        }
        rest = earlier;
    }
    None
}

/// The superclass of a row's class, if it has one, by its name and the loader that defined it.
pub(crate) fn superclass_named<T: Told>(row: &ClassRow<T>) -> Option<(&Name, LoaderId)>
    ensures { superclass_in row.now ≡ option_to_list (option_map (λ p. class p.0.now p.1)
        result) }
{
    let name = row.file().super_name()?;
    let loader = row.definers().first()?;
    Some((name, *loader))
}

/// The row of the superclass of a row, among rows each of which stands after its direct supertypes, with those before it.
pub(crate) fn superclass_row<'a, T: Told>(
    rows: &'a [Arc<ClassRow<T>>],
    under: &ClassRow<T>,
) -> Option<(&'a Arc<ClassRow<T>>, &'a [Arc<ClassRow<T>>])>
    ensures kin { option_map (λ p. kin_under (kins (map (λ r. r.value) p.1.now)) p.0.now.value)
        result ≡ first (above_in (map (λ r. r.value) rows.now) under.now) }
    ensures place { IfSome result (λ p. IsPlace (map (λ r. r.value) rows.now)
        (map (λ r. r.value) p.1.now) p.0.now.value) }
    ensures shorter { IfSome result (λ p. length p.1.now < length rows.now) }
{
    match superclass_named(under) {
        None => None,
        Some((name, loader)) => row_named(rows, name, loader),
    }
}
