//! The lineages of classes that are recorded (JVMS SE 8, 5.3.5).

ghost use Rattle.std.specs.Prelude.{◌≡◌, IfErr, IfOk, OnOk};
ghost use Rattle.std.specs.Option.{option_map};
ghost use Rattle.cl_hierarchy.specs.Lineages.{row_of};
ghost use Rattle.cl_hierarchy.specs.RowTables.{IsMadeOf};
ghost use Rattle.cl_model.specs.Classes.{class};
ghost use Rattle.cl_model.specs.States.{IsRecorded};
ghost use Rattle.cl_registry.specs.Refusals.{MemoryOrStray};
ghost use Rattle.cl_registry.specs.Tables.{IsKept, state_of};
ghost use Rattle.cl_registry.specs.Traced.{IsTraced};

use crate::registry::{Registry, RegistryFault};
use cl_hierarchy::{ClassRow, Lineage, LineageFault, RowTable};
use cl_model::{Class, LoaderId, Told};
use cl_names::Name;
use std::alloc::Global;
use std::sync::Arc;

/// The rows of a registry by who defined their classes.
#[derive(Drop)]
struct Defined<'a, T: Told> {
    registry: &'a Registry<T>,
}

impl<'a, T: Told> RowTable<T> for Defined<'a, T> {
    ghost rows = { λ x. x.registry.now.rows };

    fn row(&self, loader: LoaderId, name: &Name) -> Option<&Arc<ClassRow<T>>> {
        self.registry.defined_row(loader, name)
    }
}

impl<T: Told> Registry<T> {
    /// The lineage of a class that its loader has recorded, in time linear in the rows of its ancestors and the supertypes
    /// that they name.
    pub fn lineage(&self, alloc: Global, class: &Class) -> Result<Lineage<T>, RegistryFault>
        ensures recorded { OnOk result (IsRecorded (state_of self.now) class.now) }
        ensures made { IfOk result (λ l. IsMadeOf self.now.config self.now.rows class.now l) }
        ensures traced { IfOk result (λ l. IsTraced self.now class.now l) }
        ensures refused { IfErr result (MemoryOrStray (IsRecorded (state_of self.now) class.now)) }
        ensures kept { IsKept T.told self.now }
    {
        let table = Defined { registry: self };
        match Lineage::of(alloc, &self.config, &table, class) {
            Ok(lineage) => Ok(lineage),
            Err(LineageFault::Unknown) => Err(RegistryFault::Stray),
            Err(LineageFault::Memory) => Err(RegistryFault::Memory),
        }
    }

    /// The row of the class that this loader defined under this name.
    fn defined_row(&self, loader: LoaderId, name: &Name) -> Option<&Arc<ClassRow<T>>>
        ensures { option_map (λ r. r.now.value) result ≡ row_of self.now.rows
            (class name.now loader) }
    {
        let row = match self.look(loader, name) {
            Some(row) => row,
            None => return None,
        };
        if row.class().loader == loader {
            return Some(row);
        }
        None
    }
}
