//! The members that entries of a constant pool ask for (JVMS SE 8, 4.4.2).

ghost use Rattle.std.specs.Prelude.{◌≡◌, Some};
ghost use Rattle.cl_classfile.specs.Files.{Key, ToField, ToMethod, ToInterfaceMethod, reference, field_key, method_key};
ghost use Rattle.cl_classfile.specs.References.{plain_symbol};
ghost use Rattle.cl_descriptors.specs.declared.types.FieldType.{FieldType};
ghost use Rattle.cl_hierarchy.specs.Lineages.{kin_of};
ghost use Rattle.cl_members.specs.Asking.{AsksField, AsksMethod, AsksInterfaceMethod};
ghost use Rattle.cl_members.specs.Symbols as symbols;

use cl_classfile::{Reference, Symbol};
use cl_hierarchy::Lineage;
use cl_model::Told;

fn field_of(reference: Option<Reference<'_>>) -> Option<Symbol<'_>>
    ensures { result ≡ symbols.field_of reference.entry }
{
    match reference {
        Some(Reference::Field(symbol)) => Some(symbol),
        _ => None,
    }
}

fn method_of(reference: Option<Reference<'_>>) -> Option<Symbol<'_>>
    ensures { result ≡ symbols.method_of reference.entry }
{
    match reference {
        Some(Reference::Method(symbol)) => Some(symbol),
        _ => None,
    }
}

fn interface_method_of(reference: Option<Reference<'_>>) -> Option<Symbol<'_>>
    ensures { result ≡ symbols.interface_method_of reference.entry }
{
    match reference {
        Some(Reference::InterfaceMethod(symbol)) => Some(symbol),
        _ => None,
    }
}

/// The field of `c` that an entry of `d` asks for.
pub fn field_symbol<'a, T: Told>(d: &'a Lineage<T>, c: &Lineage<T>, index: u16) -> Symbol<'a>
    requires { AsksField d.now c.now index }
    ensures { (t : FieldType) (key : Key) → reference (kin_of d.now).file index
        ≡ Some (ToField t key) → field_key (plain_symbol result) ≡ Some key }
{
    // the contract alone speaks of it
    let _ = c;
    match field_of(d.own().file().reference(index)) {
        Some(symbol) => symbol,
        None => unreachable!(),
    }
}

/// The method of the class `c` that an entry of `d` asks for.
pub fn method_symbol<'a, T: Told>(d: &'a Lineage<T>, c: &Lineage<T>, index: u16) -> Symbol<'a>
    requires { AsksMethod d.now c.now index }
    ensures { (t : FieldType) (key : Key) → reference (kin_of d.now).file index
        ≡ Some (ToMethod t key) → method_key (plain_symbol result) ≡ Some key }
{
    // the contract alone speaks of it
    let _ = c;
    match method_of(d.own().file().reference(index)) {
        Some(symbol) => symbol,
        None => unreachable!(),
    }
}

/// The method of the interface `c` that an entry of `d` asks for.
pub fn interface_method_symbol<'a, T: Told>(
    d: &'a Lineage<T>,
    c: &Lineage<T>,
    index: u16,
) -> Symbol<'a>
    requires { AsksInterfaceMethod d.now c.now index }
    ensures { (t : FieldType) (key : Key) → reference (kin_of d.now).file index
        ≡ Some (ToInterfaceMethod t key) → method_key (plain_symbol result) ≡ Some key }
{
    // the contract alone speaks of it
    let _ = c;
    match interface_method_of(d.own().file().reference(index)) {
        Some(symbol) => symbol,
        None => unreachable!(),
    }
}
