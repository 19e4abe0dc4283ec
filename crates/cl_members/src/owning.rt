//! Which classes declare a member.

ghost use Rattle.std.specs.Prelude.{◌≡◌, find, is_some};
ghost use Rattle.std.specs.Option.{option_map};
ghost use Rattle.cl_classfile.specs.Files.{file_of, field_key, method_key};
ghost use Rattle.cl_classfile.specs.References.{plain_symbol};
ghost use Rattle.cl_model.specs.Lineages.{has_public, implements, offers};
ghost use Rattle.cl_members.specs.Members.{field_in, method_in};

use cl_classfile::{ABSTRACT, PRIVATE, PUBLIC, STATIC, Symbol, has_flag};
use cl_hierarchy::ClassRow;
use cl_model::Told;
use std::sync::Arc;

/// The flags of the field that a class declares, if it declares it.
pub fn field_flags<T: Told>(row: &ClassRow<T>, symbol: Symbol<'_>) -> Option<u16>
    ensures { result ≡ option_map (λ m. m.flags) (field_in (field_key (plain_symbol symbol.entry))
        (file_of row.now.file)) }
{
    let field = row.file().field(symbol.name, symbol.descriptor)?;
    Some(field.flags())
}

/// The flags of the method that a class declares, if it declares it.
pub fn method_flags<T: Told>(row: &ClassRow<T>, symbol: Symbol<'_>) -> Option<u16>
    ensures { result ≡ option_map (λ m. m.flags) (method_in (method_key (plain_symbol symbol.entry))
        (file_of row.now.file)) }
{
    let method = row.file().method(symbol.name, symbol.descriptor)?;
    Some(method.flags())
}

fn has_field<T: Told>(row: &ClassRow<T>, symbol: Symbol<'_>) -> bool
    ensures { result ≡ is_some (field_in (field_key (plain_symbol symbol.entry))
        (file_of row.now.file)) }
{
    field_flags(row, symbol).is_some()
}

pub fn has_method<T: Told>(row: &ClassRow<T>, symbol: Symbol<'_>) -> bool
    ensures { result ≡ is_some (method_in (method_key (plain_symbol symbol.entry))
        (file_of row.now.file)) }
{
    method_flags(row, symbol).is_some()
}

/// Whether a class declares the method, neither private nor static (JVMS SE 8, 5.4.3.3).
pub fn offers<T: Told>(row: &ClassRow<T>, symbol: Symbol<'_>) -> bool
    ensures { result ≡ offers (method_in (method_key (plain_symbol symbol.entry))
        (file_of row.now.file)) }
{
    match method_flags(row, symbol) {
        Some(flags) => !has_flag(flags, PRIVATE) && !has_flag(flags, STATIC),
        None => false,
    }
}

/// Whether a class declares the method, public and not static (JVMS SE 8, 5.4.3.4).
fn has_public<T: Told>(row: &ClassRow<T>, symbol: Symbol<'_>) -> bool
    ensures { result ≡ has_public (method_in (method_key (plain_symbol symbol.entry))
        (file_of row.now.file)) }
{
    match method_flags(row, symbol) {
        Some(flags) => has_flag(flags, PUBLIC) && !has_flag(flags, STATIC),
        None => false,
    }
}

/// Whether a class declares the method, not abstract (JVMS SE 8, 5.4.3.3, step 3).
pub fn implements<T: Told>(row: &ClassRow<T>, symbol: Symbol<'_>) -> bool
    ensures { result ≡ implements (method_in (method_key (plain_symbol symbol.entry))
        (file_of row.now.file)) }
{
    match method_flags(row, symbol) {
        Some(flags) => !has_flag(flags, ABSTRACT),
        None => false,
    }
}

/// The first of these that declares the field.
pub fn first_field<'a, T: Told>(
    rows: &'a [Arc<ClassRow<T>>],
    symbol: Symbol<'_>,
) -> Option<&'a Arc<ClassRow<T>>>
    ensures { option_map (λ r. r.now) result
        ≡ find (λ r. is_some (field_in (field_key (plain_symbol symbol.entry))
        (file_of r.value.file))) rows.now }
{
    rows.iter().find(|row| has_field(row, symbol))
}

/// The first of these that declares the method.
pub fn first_method<'a, T: Told>(
    rows: &'a [Arc<ClassRow<T>>],
    symbol: Symbol<'_>,
) -> Option<&'a Arc<ClassRow<T>>>
    ensures { option_map (λ r. r.now) result
        ≡ find (λ r. is_some (method_in (method_key (plain_symbol symbol.entry))
        (file_of r.value.file))) rows.now }
{
    rows.iter().find(|row| has_method(row, symbol))
}

/// The first of these that declares it as a public method of instances.
pub fn first_public<'a, T: Told>(
    rows: &'a [Arc<ClassRow<T>>],
    symbol: Symbol<'_>,
) -> Option<&'a Arc<ClassRow<T>>>
    ensures { option_map (λ r. r.now) result
        ≡ find (λ r. has_public (method_in (method_key (plain_symbol symbol.entry))
        (file_of r.value.file))) rows.now }
{
    rows.iter().find(|row| has_public(row, symbol))
}
