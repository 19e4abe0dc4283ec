//! Lineages: a class with all that stands above it, and what is asked of them (JVMS SE 8, 5.3.5, 5.4.4).

ghost use Rattle.std.specs.Prelude.{◌≡◌, [], map, IfOk, IfSome};
ghost use Rattle.std.specs.List.{AllByRecursion};
ghost use Rattle.std.specs.Option.{option_map};
ghost use Rattle.cl_model.specs.Classes.{is_among};
ghost use Rattle.cl_model.specs.declared.class.Class.{Class};
ghost use Rattle.cl_model.specs.Lineages.{alone, first, is_subclass, once, superclasses, superinterfaces, upward};
ghost use Rattle.cl_hierarchy.specs.Lineages.{IsLined, IsRowIn, field_order, kin_at, kin_of, rows_in};
ghost use Rattle.cl_hierarchy.specs.Several.{superinterfaces_of_any};
ghost use Rattle.cl_hierarchy.specs.Tours.{stops, listed_at};
ghost use Rattle.cl_hierarchy.specs.Trees.{SupersBefore, forest, kin_under, kins, superclass_in};

use crate::above::superclass_row;
use crate::access::is_same;
use crate::row::ClassRow;
use crate::row_index::RowIndex;
use crate::several::superinterface_classes;
use crate::tour::{TourOrder, rows_in_order};
use cl_config::Config;
use cl_model::{Class, Told};
use cl_names::Seed;
use indexmap::IndexSet;
use std::alloc::{AllocError, Global};
use std::marker::Model;
use std::sync::Arc;

/// A class with all that stands above it, each class once: its superclass's lineage, then that of each superinterface in
/// file order, then the class (JVMS SE 8, 5.3.5).
pub struct Lineage<T: Told> {
    config: Arc<Config>,
    above: Arc<Vec<Arc<ClassRow<T>>>>,
    own: Arc<ClassRow<T>>,
}

impl<T: Told> Drop for Lineage<T> {
    fn drop(self) {
        let Lineage {
            config: _,
            above: _,
            own: _,
        } = self;
    }
}

impl<T: Told> Model for Lineage<T> {
    ghost use Rattle.std.specs.Prelude.{map};
    ghost use Rattle.cl_hierarchy.specs.Lineages.{IsLined, Lined};

    ghost Value = { Lined };

    ghost view = { λ l. record {
      config = l.config.value;
      above = map (λ r. r.value) l.above.value.items;
      own = l.own.value;
    } };

    ghost invariant = { λ l. IsLined T.told (record {
      config = l.config.value;
      above = map (λ r. r.value) l.above.value.items;
      own = l.own.value;
    }) };
}

/// Whether `of` is a superclass of the class of this row. The rows of all these are among `rows`.
fn is_above<'a, T: Told>(
    rows: &'a [Arc<ClassRow<T>>],
    under: &'a Arc<ClassRow<T>>,
    of: &Class,
) -> bool
    ensures { result ≡ is_subclass (kin_under (kins (map (λ r. r.value) rows.now))
        under.entry.now.value) of.now }
{
    let mut rest = rows;
    let mut last = under;
    while let Some((row, earlier)) = superclass_row(rest, last) {
        if is_same(of, row.class()) {
            return true;
        }
        last = row;
        rest = earlier;
    }
    false
}

/// The rows of the superclasses of the class of this row, nearest first. They are all among `rows`.
fn upward<'a, T: Told>(
    alloc: Global,
    rows: &'a [Arc<ClassRow<T>>],
    under: &'a Arc<ClassRow<T>>,
) -> Result<Vec<Arc<ClassRow<T>>>, AllocError>
    requires { SupersBefore [] (map (λ r. r.value) rows.now) }
    ensures kins { IfOk result (λ v. map (λ r. kin_under (kins (map (λ x. x.value) rows.now))
        r.value) v.items ≡ upward (forest (kins (map (λ r. r.value) rows.now))
        (superclass_in under.entry.now.value))) }
    ensures rows { IfOk result (λ v. AllByRecursion (λ r. IsRowIn (map (λ x. x.value) rows.now)
        r.value) v.items) }
{
    let mut found = Vec::new(alloc);
    let mut rest = rows;
    let mut last = under;
    while let Some((row, earlier)) = superclass_row(rest, last) {
        found.push(Arc::try_clone(row)?)?;
        last = row;
        rest = earlier;
    }
    Ok(found)
}

impl<T: Told> Lineage<T> {
    /// The lineage that these rows are.
    pub(crate) fn of_rows(
        alloc: Global,
        config: Arc<Config>,
        above: Vec<Arc<ClassRow<T>>>,
        own: Arc<ClassRow<T>>,
    ) -> Result<Lineage<T>, AllocError>
        requires { IsLined T.told (record {
          config = config.value;
          above = map (λ r. r.value) above.items;
          own = own.value;
        }) }
        ensures { IfOk result (λ l. l ≡ record {
          config = config.value;
          above = map (λ r. r.value) above.items;
          own = own.value;
        }) }
    {
        let above = Arc::new(alloc, above).map_err(|_| AllocError)?;
        Ok(Lineage { config, above, own })
    }

    /// The class.
    pub fn class(&self) -> &Class
        ensures class { result.now ≡ (kin_of self.now).class }
        ensures kept { IsLined T.told self.now }
    {
        self.own.class()
    }

    /// The class's own row.
    pub fn own(&self) -> &Arc<ClassRow<T>>
        ensures own { result.now.value ≡ self.now.own }
        ensures kept { IsLined T.told self.now }
    {
        &self.own
    }

    /// The rows of all that stands above the class, each once, after those of its direct supertypes.
    pub fn above(&self) -> &[Arc<ClassRow<T>>]
        ensures rows { map (λ r. r.value) result.now ≡ self.now.above }
        ensures kept { IsLined T.told self.now }
    {
        self.above.as_slice()
    }

    /// The configuration of the registry that made it.
    pub fn config(&self) -> &Arc<Config>
        ensures config { result.now.value ≡ self.now.config }
        ensures kept { IsLined T.told self.now }
    {
        &self.config
    }

    /// Another handle on the same lineage.
    pub fn try_clone(&self) -> Result<Lineage<T>, AllocError>
        ensures clone { IfOk result (λ l. l ≡ self.now) }
    {
        Ok(Lineage {
            config: Arc::try_clone(&self.config)?,
            above: Arc::try_clone(&self.above)?,
            own: Arc::try_clone(&self.own)?,
        })
    }

    /// The row of the superclass, if there is one (JVMS SE 8, 4.1). Takes no memory.
    pub fn superclass(&self) -> Option<&Arc<ClassRow<T>>>
        ensures superclass { option_map (λ r. kin_at self.now r.now.value) result
            ≡ first (superclasses (kin_of self.now)) }
        ensures rows { IfSome result (λ r. IsRowIn (rows_in self.now) r.now.value) }
    {
        let (row, _) = superclass_row(self.above(), self.own())?;
        Some(row)
    }

    /// The rows of the superclasses, nearest first (JVMS SE 8, 4.1), in time linear in the rows.
    pub fn superclasses(&self, alloc: Global) -> Result<Vec<Arc<ClassRow<T>>>, AllocError>
        ensures superclasses { IfOk result (λ v. map (λ r. kin_at self.now r.value) v.items
            ≡ superclasses (kin_of self.now)) }
        ensures rows { IfOk result (λ v. AllByRecursion (λ r. IsRowIn (rows_in self.now) r.value)
            v.items) }
    {
        upward(alloc, self.above(), self.own())
    }

    /// Whether the class has another as a proper superclass (JVMS SE 8, 4.1). Takes no memory; time linear in the rows.
    pub fn is_subclass(&self, of: &Class) -> bool
        ensures { result ≡ is_subclass (kin_of self.now) of.now }
    {
        is_above(self.above(), self.own(), of)
    }

    /// The rows of the direct and indirect superinterfaces, each once at its first place: a class's in file order, each
    /// before its own, then those of its superclass (JVMS SE 8, 5.4.3.3). Time linear in the rows and the supertypes
    /// that they name.
    pub fn superinterfaces(&self, alloc: Global) -> Result<Vec<Arc<ClassRow<T>>>, AllocError>
        ensures superinterfaces { IfOk result (λ v. map (λ r. kin_at self.now r.value) v.items
            ≡ superinterfaces (kin_of self.now)) }
        ensures rows { IfOk result (λ v. AllByRecursion (λ r. IsRowIn (rows_in self.now) r.value)
            v.items) }
    {
        self.rows_by_tour(alloc, TourOrder::Superinterfaces, false)
    }

    /// The classes of all superinterfaces of any of the classes of these rows of the lineage (JVMS SE 8, 5.4.3.3). Time
    /// linear in the rows of the lineage and the supertypes that they name, for all of them together.
    pub fn superinterfaces_of_any(
        &self,
        alloc: Global,
        rows: &[Arc<ClassRow<T>>],
    ) -> Result<IndexSet<Class, Seed>, AllocError>
        requires { AllByRecursion (λ r. IsRowIn (rows_in self.now) r.value) rows.now }
        ensures { IfOk result (λ s. (c : Class) → is_among s.keys c
            ≡ is_among (superinterfaces_of_any (map (λ r. kin_at self.now r.value) rows.now)) c) }
    {
        superinterface_classes(alloc, self.config().seed(), self.above(), self.own(), rows)
    }

    /// What a tour lists from the class, each row once.
    fn rows_by_tour(
        &self,
        alloc: Global,
        order: TourOrder,
        wanted: bool,
    ) -> Result<Vec<Arc<ClassRow<T>>>, AllocError>
        ensures listed { IfOk result (λ v. map (λ r. kin_at self.now r.value) v.items
            ≡ once (listed_at order (stops order (alone (kin_of self.now)) wanted))) }
        ensures rows { IfOk result (λ v. AllByRecursion (λ r. IsRowIn (rows_in self.now) r.value)
            v.items) }
    {
        let seed = self.config.seed();
        let table = RowIndex::of(alloc, seed, self.above(), self.own())?;
        rows_in_order(alloc, seed, order, &table, self.own(), wanted)
    }

    /// The rows of the class and of all that stands above it in the order of field lookup, each once: a class, its
    /// superinterfaces in file order, its superclass, each of these with all above it (JVMS SE 8, 5.4.3.2). Time linear
    /// in the rows and the supertypes that they name.
    pub fn field_order(&self, alloc: Global) -> Result<Vec<Arc<ClassRow<T>>>, AllocError>
        ensures order { IfOk result (λ v. map (λ r. kin_at self.now r.value) v.items
            ≡ field_order (kin_of self.now)) }
        ensures rows { IfOk result (λ v. AllByRecursion (λ r. IsRowIn (rows_in self.now) r.value)
            v.items) }
    {
        self.rows_by_tour(alloc, TourOrder::Fields, true)
    }
}
