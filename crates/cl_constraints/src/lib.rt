//! Loading constraints: what each loader records for a name, and which loaders must agree on it (JVMS SE 8, 5.3.4).
#![tactic(auto)]

mod book;
mod fault;
mod grouped;
mod laws;
mod named;
mod plain;
mod record;
mod single;

pub use book::{ConstraintBook, Refusal};
pub use fault::BookFault;
pub use grouped::Groups;
pub use laws::{stands_after_step, stands_by_tables, unrefused_may_be_added};
pub use named::Book;
pub use plain::Pairs;
pub use single::NameBook;

/// The book that keeps, for each name, its loaders in groups.
pub type GroupedBook = Book<Groups>;

/// The book that keeps, for each name, lists of what was recorded and joined.
pub type PlainBook = Book<Pairs>;
