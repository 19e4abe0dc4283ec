//! Methods of classes and of interfaces (JVMS SE 8, 5.4.3.3, 5.4.3.4).

ghost use Rattle.std.specs.Prelude.{◌≡◌, option_and_then, IfOk, IfSome};
ghost use Rattle.std.specs.Option.{option_map};
ghost use Rattle.cl_classfile.specs.Files.{method_key};
ghost use Rattle.cl_classfile.specs.References.{plain_symbol};
ghost use Rattle.cl_model.specs.Lineages.{lookup_interface_method, lookup_method};
ghost use Rattle.cl_hierarchy.specs.Lineages.{IsRowIn, kin_at, kin_of, rows_in};
ghost use Rattle.cl_members.specs.Asking.{LooksUp, AsksMethod, AsksInterfaceMethod};

use crate::asked::{interface_method_symbol, method_symbol};
use crate::fault::LookupFault;
use crate::found::{Found, access};
use crate::interface::interface_owner;
use crate::owning::{first_method, first_public, has_method, method_flags};
use cl_classfile::Symbol;
use cl_hierarchy::{ClassRow, Lineage};
use cl_model::Told;
use std::alloc::{AllocError, Global};
use std::sync::Arc;

/// The class whose method lookup comes to: the class itself, a superclass, the nearest first, or a superinterface.
fn method_owner<T: Told>(
    alloc: Global,
    c: &Lineage<T>,
    symbol: Symbol<'_>,
) -> Result<Option<Arc<ClassRow<T>>>, AllocError>
    ensures owner { IfOk result (λ o. option_map (λ r. kin_at c.now r.value) o
        ≡ option_and_then (lookup_method (kin_of c.now))
        (method_key (plain_symbol symbol.entry))) }
    ensures row { IfOk result (λ o. IfSome o (λ r. IsRowIn (rows_in c.now) r.value)) }
{
    if has_method(c.own(), symbol) {
        return Ok(Some(Arc::try_clone(c.own())?));
    }
    let above = c.superclasses(alloc)?;
    match first_method(above.as_slice(), symbol) {
        Some(owner) => Ok(Some(Arc::try_clone(owner)?)),
        None => interface_owner(alloc, c, symbol),
    }
}

/// The class whose method interface method lookup comes to: the interface itself, `java/lang/Object`, where it declares it as
/// a public method of instances, or a superinterface.
fn interface_method_owner<T: Told>(
    alloc: Global,
    c: &Lineage<T>,
    symbol: Symbol<'_>,
) -> Result<Option<Arc<ClassRow<T>>>, AllocError>
    ensures owner { IfOk result (λ o. option_map (λ r. kin_at c.now r.value) o
        ≡ option_and_then (lookup_interface_method (kin_of c.now))
        (method_key (plain_symbol symbol.entry))) }
    ensures row { IfOk result (λ o. IfSome o (λ r. IsRowIn (rows_in c.now) r.value)) }
{
    if has_method(c.own(), symbol) {
        return Ok(Some(Arc::try_clone(c.own())?));
    }
    let above = c.superclasses(alloc)?;
    match first_public(above.as_slice(), symbol) {
        Some(owner) => Ok(Some(Arc::try_clone(owner)?)),
        None => interface_owner(alloc, c, symbol),
    }
}

/// The method that an entry of the pool of the class of `d` asks for, which names the class of `c`. `WrongKind` where that is
/// an interface; then `NoSuchMethod` where neither it nor a superclass declares the method, nor a superinterface offers
/// it; and then `Inaccessible` with the class that declares it (JVMS SE 8, 5.4.3.3).
pub fn find_method<T: Told>(
    alloc: Global,
    d: &Lineage<T>,
    c: &Lineage<T>,
    index: u16,
) -> Result<Found<T>, LookupFault>
    requires { AsksMethod d.now c.now index }
    ensures { LooksUp d.now c.now index result }
{
    let symbol = method_symbol(d, c, index);
    if c.own().file().is_interface() {
        return Err(LookupFault::WrongKind);
    }
    match method_owner(alloc, c, symbol)? {
        None => Err(LookupFault::NoSuchMethod),
        Some(owner) => match method_flags(&owner, symbol) {
            Some(flags) => access(alloc, d, c, index, symbol, &owner, flags),
            None => unreachable!(),
        },
    }
}

/// The method of an interface that an entry of the pool of the class of `d` asks for, which names the class of `c`.
/// `WrongKind` where that is no interface; then `NoSuchMethod` where it does not declare the method, `java/lang/Object`
/// has no public method of instances, and no superinterface offers it; and then `Inaccessible` with the class that
/// declares it (JVMS SE 8, 5.4.3.4).
pub fn find_interface_method<T: Told>(
    alloc: Global,
    d: &Lineage<T>,
    c: &Lineage<T>,
    index: u16,
) -> Result<Found<T>, LookupFault>
    requires { AsksInterfaceMethod d.now c.now index }
    ensures { LooksUp d.now c.now index result }
{
    let symbol = interface_method_symbol(d, c, index);
    if !c.own().file().is_interface() {
        return Err(LookupFault::WrongKind);
    }
    match interface_method_owner(alloc, c, symbol)? {
        None => Err(LookupFault::NoSuchMethod),
        Some(owner) => match method_flags(&owner, symbol) {
            Some(flags) => access(alloc, d, c, index, symbol, &owner, flags),
            None => unreachable!(),
        },
    }
}
