//! Descriptors: the types of fields, and of methods' parameters and results (JVMS SE 8, 4.3).
#![tactic(auto)]

mod cloning;
pub mod laws;
mod limits;
mod naming;
mod piece;
mod reading;
mod spelling;
mod types;

pub use laws::{equal_types_are_the_same, one_field_spelling, one_method_spelling};
pub use limits::{MOST_DIMENSIONS, MOST_UNITS};
pub use reading::{form_and_units, form_of, read_field, read_method, units_of};
pub use types::{Base, Descriptor, DescriptorFault, FieldType, Form, MethodType, Params};
