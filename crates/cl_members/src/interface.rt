//! Methods of superinterfaces (JVMS SE 8, 5.4.3.3).

ghost use Rattle.std.specs.Prelude.{◌≡◌, not, filter, map, option_and_then, IfOk, IfSome};
ghost use Rattle.std.specs.List.{AllByRecursion};
ghost use Rattle.std.specs.Option.{option_map, option_or};
ghost use Rattle.cl_classfile.specs.Files.{file_of, method_key};
ghost use Rattle.cl_classfile.specs.References.{plain_symbol};
ghost use Rattle.cl_model.specs.Classes.{is_among};
ghost use Rattle.cl_model.specs.Lineages.{first, from_superinterfaces, implements, offers, only, superinterfaces};
ghost use Rattle.cl_hierarchy.specs.Lineages.{IsRowIn, kin_at, kin_of, rows_in};
ghost use Rattle.cl_members.specs.Members.{method_in};

use crate::owning::{implements, offers};
use cl_classfile::Symbol;
use cl_hierarchy::{ClassRow, Lineage};
use cl_model::{Class, Told};
use cl_names::Seed;
use indexmap::IndexSet;
use std::alloc::{AllocError, Global};
use std::sync::Arc;

/// Keeps the rows of classes that offer the method.
fn keep_offering<T: Told>(rows: &mut Vec<Arc<ClassRow<T>>>, symbol: Symbol<'_>)
    ensures { rows.new.items ≡ filter (λ r. offers (method_in (method_key
        (plain_symbol symbol.entry)) (file_of r.value.file))) rows.old.items }
{
    rows.retain(|row| offers(row, symbol));
}

/// Keeps the rows of classes that implement the method.
fn keep_implementing<T: Told>(rows: &mut Vec<Arc<ClassRow<T>>>, symbol: Symbol<'_>)
    ensures { rows.new.items ≡ filter (λ r. implements (method_in (method_key
        (plain_symbol symbol.entry)) (file_of r.value.file))) rows.old.items }
{
    rows.retain(|row| implements(row, symbol));
}

/// Keeps the rows whose classes are none of these.
fn keep_apart<T: Told>(rows: &mut Vec<Arc<ClassRow<T>>>, classes: &IndexSet<Class, Seed>)
    ensures { rows.new.items ≡ filter (λ r. not (is_among classes.now.keys r.value.class))
        rows.old.items }
{
    rows.retain(|row| !classes.contains(row.class()));
}

/// The superinterfaces of the class that offer the method, in preorder.
fn superinterfaces_offering<T: Told>(
    alloc: Global,
    c: &Lineage<T>,
    symbol: Symbol<'_>,
) -> Result<Vec<Arc<ClassRow<T>>>, AllocError>
    ensures kins { IfOk result (λ v. map (λ r. kin_at c.now r.value) v.items
        ≡ filter (λ a. offers (method_in (method_key (plain_symbol symbol.entry)) a.file))
        (superinterfaces (kin_of c.now))) }
    ensures rows { IfOk result (λ v. AllByRecursion (λ r. IsRowIn (rows_in c.now) r.value)
        v.items) }
{
    let mut rows = c.superinterfaces(alloc)?;
    keep_offering(&mut rows, symbol);
    Ok(rows)
}

/// The first of these, if there is one.
fn first_of<T: Told>(rows: &[Arc<ClassRow<T>>]) -> Result<Option<Arc<ClassRow<T>>>, AllocError>
    ensures { IfOk result (λ o. option_map (λ r. r.value) o
        ≡ first (map (λ r. r.value) rows.now)) }
{
    match rows.first() {
        Some(row) => Ok(Some(Arc::try_clone(row)?)),
        None => Ok(None),
    }
}

/// The one of these, if there is just one, else this one.
fn only_or<T: Told>(
    rows: &[Arc<ClassRow<T>>],
    other: Option<Arc<ClassRow<T>>>,
) -> Result<Option<Arc<ClassRow<T>>>, AllocError>
    ensures { IfOk result (λ o. option_map (λ r. r.value) o
        ≡ option_or (only (map (λ r. r.value) rows.now)) (option_map (λ r. r.value) other)) }
{
    match rows {
        [one] => Ok(Some(Arc::try_clone(one)?)),
        _ => Ok(other),
    }
}

/// The superinterface whose method the class has: the one that is maximally specific and implements it, else the first
/// that offers it (JVMS SE 8, 5.4.3.3, step 3).
pub fn interface_owner<T: Told>(
    alloc: Global,
    c: &Lineage<T>,
    symbol: Symbol<'_>,
) -> Result<Option<Arc<ClassRow<T>>>, AllocError>
    ensures owner { IfOk result (λ o. option_map (λ r. kin_at c.now r.value) o
        ≡ option_and_then (from_superinterfaces (kin_of c.now))
        (method_key (plain_symbol symbol.entry))) }
    ensures row { IfOk result (λ o. IfSome o (λ r. IsRowIn (rows_in c.now) r.value)) }
{
    let mut rows = superinterfaces_offering(alloc, c, symbol)?;
    let first = first_of(rows.as_slice())?;
    let beneath = c.superinterfaces_of_any(alloc, rows.as_slice())?;
    keep_apart(&mut rows, &beneath);
    keep_implementing(&mut rows, symbol);
    only_or(rows.as_slice(), first)
}
