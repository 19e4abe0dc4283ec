//! Fields (JVMS SE 8, 5.4.3.2).

ghost use Rattle.cl_members.specs.Asking.{LooksUp, AsksField};

use crate::asked::field_symbol;
use crate::fault::LookupFault;
use crate::found::{Found, access};
use crate::owning::{field_flags, first_field};
use cl_hierarchy::Lineage;
use cl_model::Told;
use std::alloc::Global;

/// The field that an entry of the pool of the class of `d` asks for, which names the class of `c`: the class's own, else
/// that of a superinterface, in file order and each with all above it, else that of the superclass likewise.
/// `NoSuchField` where there is none, and then `Inaccessible` with the class that declares it (JVMS SE 8, 5.4.3.2).
pub fn find_field<T: Told>(
    alloc: Global,
    d: &Lineage<T>,
    c: &Lineage<T>,
    index: u16,
) -> Result<Found<T>, LookupFault>
    requires { AsksField d.now c.now index }
    ensures { LooksUp d.now c.now index result }
{
    // brings that the rows stand in order
    let _ = c.class();
    let symbol = field_symbol(d, c, index);
    let order = c.field_order(alloc)?;
    match first_field(order.as_slice(), symbol) {
        None => Err(LookupFault::NoSuchField),
        Some(owner) => match field_flags(owner, symbol) {
            Some(flags) => access(alloc, d, c, index, symbol, owner, flags),
            None => unreachable!(),
        },
    }
}
