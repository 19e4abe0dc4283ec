//! Whether the supertypes of a class fit, as they are recorded.

ghost use Rattle.std.specs.Prelude.{IfSome, slice_get};
ghost use Rattle.cl_classfile.specs.Files.{file_of};
ghost use Rattle.cl_model.specs.Classes.{supers};
ghost use Rattle.cl_findings.specs.Findings.{Decides};
ghost use Rattle.cl_hierarchy.specs.Rows.{FitsAs};
ghost use Rattle.cl_registry.specs.Parts.{shared_values};
ghost use Rattle.cl_registry.specs.Tables.{SupertypesFit, table_row};

use crate::tables::{Rows, find};
use cl_hierarchy::{Draft, misfit};
use cl_model::Told;

/// Whether the direct supertype of a draft at a place, if there is one and the draft's loader has recorded it, fits in its
/// role (JVMS SE 8, 5.3.5, steps 3 and 4).
fn supertype_fits<T: Told>(tables: &Rows<T>, draft: &Draft<T>, at: usize) -> bool
    ensures { Decides result (IfSome (slice_get (supers (file_of draft.now.file)) at)
        (λ a. IfSome (shared_values (λ r. r.value) (table_row tables.now.items)
        draft.now.class.loader a.name) (FitsAs draft.now.class a))) }
{
    let class = draft.class();
    match draft.supertype(at) {
        None => true,
        Some(above) => match find(tables, class.loader, above.name) {
            None => true,
            Some(row) => misfit(class, above.role, row.class(), row.file()).is_none(),
        },
    }
}

/// Whether each direct supertype of a draft that the draft's loader has recorded fits in its role (JVMS SE 8, 5.3.5, steps 3
/// and 4).
pub fn supertypes_fit<T: Told>(tables: &Rows<T>, draft: &Draft<T>) -> bool
    ensures { Decides result (SupertypesFit
        (shared_values (λ r. r.value) (table_row tables.now.items)) draft.now) }
{
    for at in 0..draft.supertypes() {
        // (one that is named again was looked at)
        if draft.first_of_name(at) == at && !supertype_fits(tables, draft, at) {
            return false;
        }
    }
    true
}
