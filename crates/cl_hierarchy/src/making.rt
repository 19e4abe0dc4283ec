//! Making a lineage from the rows of a registry (JVMS SE 8, 5.3.5).

ghost use Rattle.std.specs.Prelude.{◌≡◌, List};
ghost use Rattle.std.specs.Option.{option_map};
ghost use Rattle.cl_model.specs.Classes.{class};
ghost use Rattle.cl_hierarchy.specs.Lineages.{row_of};
ghost use Rattle.cl_hierarchy.specs.RowTables.{AreRows, Makes};
ghost use Rattle.cl_hierarchy.specs.Rows.{Rowed};

use crate::lineage::Lineage;
use crate::row::ClassRow;
use crate::tour::{Finds, TourOrder, rows_in_order};
use cl_config::Config;
use cl_model::{Class, LoaderId, Told};
use cl_names::Name;
use std::alloc::{AllocError, Global};
use std::sync::Arc;
use thiserror::Error;

/// Gives the rows of the classes that were defined.
pub trait RowTable<T: Told> {
    /// The rows, in the order in which their classes were defined.
    ghost rows: { Self → List Rowed };

    /// The row of the class that this loader defined under this name.
    fn row(&self, loader: LoaderId, name: &Name) -> Option<&Arc<ClassRow<T>>>
        ensures { option_map (λ r. r.now.value) result ≡ row_of (rows self.now)
            (class name.now loader) };
}

/// The rows of a table, as a tour finds them.
#[derive(Drop)]
struct Defined<'a, R> {
    table: &'a R,
}

impl<'a, T: Told, R: RowTable<T>> Finds<T> for Defined<'a, R> {
    ghost rows = { λ x. R.rows x.table.now };

    fn find(
        &self,
        _alloc: Global,
        loader: LoaderId,
        name: &Name,
    ) -> Result<Option<&Arc<ClassRow<T>>>, AllocError> {
        Ok(self.table.row(loader, name))
    }
}

/// Why no lineage was made.
#[derive(Clone, Copy, Debug, PartialEq, Eq, Error)]
pub enum LineageFault {
    /// The class has no row.
    #[error("H4 Unknown")]
    Unknown,
    #[error("H0 Memory")]
    Memory,
}

impl From<AllocError> for LineageFault {
    ghost use Rattle.cl_hierarchy.specs.declared.making.LineageFault.TheVariants.{Memory};

    ghost from_gives = { λ _ e. e ≡ Memory };

    fn from(_error: AllocError) -> LineageFault {
        LineageFault::Memory
    }
}

impl<T: Told> Lineage<T> {
    /// The lineage of a class, in time linear in its rows and the supertypes that they name.
    ///
    /// Condition: each row of the table stands after those of its direct supertypes, as classes are defined.
    pub fn of<R: RowTable<T>>(
        alloc: Global,
        config: &Arc<Config>,
        table: &R,
        class: &Class,
    ) -> Result<Lineage<T>, LineageFault>
        requires { AreRows T.told config.now.value (R.rows table.now) }
        ensures { Makes config.now.value (R.rows table.now) class.now result }
    {
        let Some(start) = table.row(class.loader, &class.name) else {
            return Err(LineageFault::Unknown);
        };
        let defined = Defined { table };
        let order = TourOrder::Lineage;
        let mut rows = rows_in_order(alloc, config.seed(), order, &defined, start, true)?;
        let config = Arc::try_clone(config)?;
        match rows.pop() {
            None => unreachable!(),
            Some(own) => Ok(Lineage::of_rows(alloc, config, rows, own)?),
        }
    }
}
