//! Classes that are being derived: the file that a home's bytes spell, the classes that wait for their supertypes, and
//! classes as they are recorded (JVMS SE 8, 5.3.5).
#![tactic(auto)]

pub mod above;
pub mod access;
pub mod draft;
pub mod equalities;
pub mod fit;
pub mod frame;
pub mod laws;
pub mod lineage;
pub mod making;
pub mod member;
pub mod path;
pub mod row;
mod row_index;
mod several;
pub mod supertype;
mod tour;

pub use access::{class_accessible, same_package};
pub use draft::{Draft, DraftFault, DraftRefused, Unreadable};
pub use equalities::{Equalities, Origin, equality};
pub use fit::misfit;
pub use frame::Frame;
pub use lineage::Lineage;
pub use making::{LineageFault, RowTable};
pub use member::member_accessible;
pub use path::{Path, Repeated};
pub use row::ClassRow;
pub use supertype::{Role, Supertype};
