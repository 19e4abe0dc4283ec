//! Looking up the members that references ask for: fields, methods of classes, and methods of interfaces
//! (JVMS SE 8, 5.4.3.2 to 5.4.3.4).
#![tactic(auto)]

mod asked;
mod fault;
mod field;
mod found;
mod interface;
mod method;
mod naming;
mod owning;

pub use fault::LookupFault;
pub use field::find_field;
pub use found::{Found, equalities};
pub use method::{find_interface_method, find_method};
