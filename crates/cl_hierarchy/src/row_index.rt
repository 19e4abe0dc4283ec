//! The rows of a lineage by their classes.

ghost use Rattle.std.specs.Prelude.{◌≡◌, ◌++◌, ◌∷◌, [], List, map, IfOk, OnOk};
ghost use Rattle.std.specs.Option.{option_map};
ghost use Rattle.cl_model.specs.Classes.{class};
ghost use Rattle.cl_hierarchy.specs.Lineages.{row_of};
ghost use Rattle.cl_hierarchy.specs.RowIndex.{IsRowIndexOf};
ghost use Rattle.cl_hierarchy.specs.Rows.{Rowed};

use crate::row::ClassRow;
use crate::tour::Finds;
use cl_model::{Class, LoaderId, Told};
use cl_names::{Name, Seed};
use indexmap::IndexMap;
use std::alloc::{AllocError, Global};
use std::marker::Model;
use std::sync::Arc;

type Table<T> = IndexMap<Class, Arc<ClassRow<T>>, Seed>;

/// Rows, and where they are found by their classes.
pub(crate) struct RowIndex<'a, T: Told> {
    above: &'a [Arc<ClassRow<T>>],
    own: &'a Arc<ClassRow<T>>,
    table: Table<T>,
}

impl<'a, T: Told> Drop for RowIndex<'a, T> {
    fn drop(self) {
        let RowIndex {
            above: _,
            own: _,
            table: _,
        } = self;
    }
}

impl<'a, T: Told> Model for RowIndex<'a, T> {
    ghost use Rattle.std.specs.Prelude.{List, ◌++◌, ◌∷◌, [], map};
    ghost use Rattle.cl_hierarchy.specs.RowIndex.{IsRowIndexOf};
    ghost use Rattle.cl_hierarchy.specs.Rows.{Rowed};

    ghost Value = { List Rowed };

    ghost view = { λ x. map (λ r. r.value) x.above.now ++ x.own.now.value ∷ [] };

    ghost invariant = { λ x. IsRowIndexOf (λ r. r.value) x.table.entries (map (λ r. r.value)
        x.above.now ++ x.own.now.value ∷ []) };
}

/// Puts a row in front of those that stand there.
fn put<T: Told>(
    alloc: Global,
    table: &mut Table<T>,
    row: &Arc<ClassRow<T>>,
) -> Result<(), AllocError>
    ensures { OnOk result ((rows : List Rowed) → IsRowIndexOf (λ r. r.value) table.old.entries rows
        → IsRowIndexOf (λ r. r.value) table.new.entries (row.now.value ∷ rows)) }
{
    let class = row.class().try_clone(alloc)?;
    let row = Arc::try_clone(row)?;
    table.insert(class, row)?;
    Ok(())
}

impl<'a, T: Told> RowIndex<'a, T> {
    /// The rows above a class, and its own.
    pub fn of(
        alloc: Global,
        seed: Seed,
        above: &'a [Arc<ClassRow<T>>],
        own: &'a Arc<ClassRow<T>>,
    ) -> Result<RowIndex<'a, T>, AllocError>
        ensures { IfOk result (λ x. x ≡ map (λ r. r.value) above.now ++ own.now.value ∷ []) }
    {
        let mut table = IndexMap::with_hasher(alloc, seed);
        put(alloc, &mut table, own)?;
        let mut rest = above;
        while let Some((row, earlier)) = rest.split_last() {
            put(alloc, &mut table, row)?;
            rest = earlier;
        }
        Ok(RowIndex { above, own, table })
    }
}

impl<'a, T: Told> Finds<T> for RowIndex<'a, T> {
    ghost rows = { λ x. x };

    fn find(
        &self,
        alloc: Global,
        loader: LoaderId,
        name: &Name,
    ) -> Result<Option<&Arc<ClassRow<T>>>, AllocError> {
        let class = Class {
            name: name.try_clone(alloc)?,
            loader,
        };
        Ok(self.table.get(&class))
    }
}
