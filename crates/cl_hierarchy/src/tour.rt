//! Tours through all that stands above a class, in time linear in its rows and the supertypes that they name.

ghost use Rattle.std.specs.Prelude.{◌≡◌, ◌++◌, ◌∷◌, [], List, map, not, IfOk, OnOk};
ghost use Rattle.std.specs.List.{AllByRecursion};
ghost use Rattle.std.specs.Option.{option_map};
ghost use Rattle.cl_model.specs.Classes.{class, is_among};
ghost use Rattle.cl_model.specs.Lineages.{alone, once};
ghost use Rattle.cl_hierarchy.specs.Lineages.{IsRowIn, row_of};
ghost use Rattle.cl_hierarchy.specs.Rows.{Rowed};
ghost use Rattle.cl_hierarchy.specs.Tours.{first_row, interface_row, marks, opening_steps, opening_unless_finished, over_from, step, stops, after_listing, lists_after, lists_before, listed_at, plain_tour, up_first, upwards_of, wants_up, with_class, with_row};
ghost use Rattle.cl_hierarchy.specs.declared.tour.TourStep.TheVariants as tasks;
ghost use Rattle.cl_hierarchy.specs.Trees.{SupersBefore, kin_under, kins, superclass_in};

use crate::row::ClassRow;
use crate::several::Classes;
use cl_model::{Class, LoaderId, Told};
use cl_names::{Name, Seed};
use indexmap::IndexSet;
use std::alloc::{AllocError, Global};
use std::sync::Arc;

/// Gives the rows among which a tour goes.
pub(crate) trait Finds<T: Told> {
    ghost rows: { Self → List Rowed };

    /// The row of a class.
    fn find(
        &self,
        alloc: Global,
        loader: LoaderId,
        name: &Name,
    ) -> Result<Option<&Arc<ClassRow<T>>>, AllocError>
        ensures { IfOk result (λ o. option_map (λ r. r.now.value) o ≡ row_of (rows self.now)
            (class name.now loader)) };
}

/// In which order classes are listed.
#[derive(Clone, Copy, Debug)]
pub(crate) enum TourOrder {
    /// A class after all that stands above it, its superclass's first (JVMS SE 8, 5.4).
    Lineage,
    /// A superinterface before its own, those of the superclass last (JVMS SE 8, 5.4.3.3).
    Superinterfaces,
    /// A class before all that stands above it, its superclass's last (JVMS SE 8, 5.4.3.2).
    Fields,
}

impl TourOrder {
    fn lists_before(self, wanted: bool) -> bool
        ensures { result ≡ lists_before self wanted }
    {
        match self {
            TourOrder::Lineage => false,
            TourOrder::Superinterfaces => wanted,
            TourOrder::Fields => wanted,
        }
    }

    fn lists_after(self) -> bool
        ensures { result ≡ lists_after self }
    {
        match self {
            TourOrder::Lineage => true,
            TourOrder::Superinterfaces => false,
            TourOrder::Fields => false,
        }
    }

    fn wants_up(self) -> bool
        ensures { result ≡ wants_up self }
    {
        match self {
            TourOrder::Lineage => true,
            TourOrder::Superinterfaces => false,
            TourOrder::Fields => true,
        }
    }

    fn up_first(self) -> bool
        ensures { result ≡ up_first self }
    {
        match self {
            TourOrder::Lineage => true,
            TourOrder::Superinterfaces => false,
            TourOrder::Fields => false,
        }
    }
}

#[derive(Clone, Copy, Debug)]
pub(crate) enum TourStep {
    /// To come to the class, which is listed or not.
    Come(bool),
    /// To go through its superinterfaces from this one on.
    Over(usize),
    /// To finish it: all that stands above it was listed.
    Finish,
}

/// What is left to do for a row.
struct Step<T: Told> {
    row: Arc<ClassRow<T>>,
    task: TourStep,
}

impl<T: Told> Drop for Step<T> {
    fn drop(self) {
        let Step { row: _, task: _ } = self;
    }
}

fn push<T: Told>(
    stack: &mut Vec<Step<T>>,
    row: &Arc<ClassRow<T>>,
    task: TourStep,
) -> Result<(), AllocError>
    ensures { OnOk result (marks stack.new.items ≡ marks stack.old.items ++ record
        { row = row.now.value; task = task } ∷ []) }
{
    let row = Arc::try_clone(row)?;
    stack.push(Step { row, task })?;
    Ok(())
}

/// Notes a class.
fn note(alloc: Global, classes: &mut Classes, class: &Class) -> Result<bool, AllocError>
    ensures classes { OnOk result (classes.new.keys ≡ with_class classes.old.keys class.now) }
    ensures new { IfOk result (λ b. b ≡ not (is_among classes.old.keys class.now)) }
{
    let class = class.try_clone(alloc)?;
    Ok(classes.insert(class)?)
}

/// Lists a row, if its class was not listed.
fn list<T: Told>(
    alloc: Global,
    listed: &mut Vec<Arc<ClassRow<T>>>,
    seen: &mut Classes,
    row: &Arc<ClassRow<T>>,
) -> Result<(), AllocError>
    ensures listed { OnOk result (map (λ r. r.value) listed.new.items ≡ with_row seen.old.keys
        (map (λ r. r.value) listed.old.items) row.now.value) }
    ensures seen { OnOk result (seen.new.keys ≡ with_class seen.old.keys row.now.value.class) }
{
    if note(alloc, seen, row.class())? {
        listed.push(Arc::try_clone(row)?)?;
    }
    Ok(())
}

/// The row of the superclass of a row.
pub(crate) fn superclass_of<'a, T: Told, F: Finds<T>>(
    alloc: Global,
    table: &'a F,
    row: &ClassRow<T>,
) -> Result<Option<&'a Arc<ClassRow<T>>>, AllocError>
    ensures { IfOk result (λ o. option_map (λ r. r.now.value) o ≡ first_row (F.rows table.now)
        (superclass_in row.now)) }
{
    match row.file().super_name() {
        None => Ok(None),
        Some(name) => match row.definers().first() {
            None => Ok(None),
            Some(loader) => table.find(alloc, *loader, name),
        },
    }
}

/// The row of a superinterface of a row, by its place.
fn interface_of<'a, T: Told, F: Finds<T>>(
    alloc: Global,
    table: &'a F,
    row: &ClassRow<T>,
    place: usize,
) -> Result<Option<&'a Arc<ClassRow<T>>>, AllocError>
    ensures { IfOk result (λ o. option_map (λ r. r.now.value) o ≡ interface_row (F.rows table.now)
        row.now place) }
{
    match row.file().interface_name(place) {
        None => Ok(None),
        Some(name) => match row.interface_definers().get(place) {
            None => Ok(None),
            Some(loader) => table.find(alloc, *loader, name),
        },
    }
}

/// To come to the superclass of a row.
fn open_up<T: Told, F: Finds<T>>(
    alloc: Global,
    order: TourOrder,
    table: &F,
    stack: &mut Vec<Step<T>>,
    row: &ClassRow<T>,
) -> Result<(), AllocError>
    ensures { OnOk result (marks stack.new.items ≡ marks stack.old.items ++ upwards_of order
        (first_row (F.rows table.now) (superclass_in row.now))) }
{
    match superclass_of(alloc, table, row)? {
        None => Ok(()),
        Some(up) => push(stack, up, TourStep::Come(order.wants_up())),
    }
}

/// To come to all that stands above a row's class, and then to finish it.
fn open<T: Told, F: Finds<T>>(
    alloc: Global,
    order: TourOrder,
    table: &F,
    stack: &mut Vec<Step<T>>,
    row: &Arc<ClassRow<T>>,
) -> Result<(), AllocError>
    ensures { OnOk result (marks stack.new.items ≡ marks stack.old.items ++ opening_steps order
        (F.rows table.now) row.now.value) }
{
    push(stack, row, TourStep::Finish)?;
    if order.up_first() {
        push(stack, row, TourStep::Over(0))?;
        open_up(alloc, order, table, stack, row)
    } else {
        open_up(alloc, order, table, stack, row)?;
        push(stack, row, TourStep::Over(0))
    }
}

/// To come to a superinterface, and then to go on with the next.
fn open_over<T: Told, F: Finds<T>>(
    alloc: Global,
    table: &F,
    stack: &mut Vec<Step<T>>,
    row: &Arc<ClassRow<T>>,
    place: usize,
) -> Result<(), AllocError>
    ensures { OnOk result (marks stack.new.items ≡ marks stack.old.items ++ over_from row.now.value
        place (interface_row (F.rows table.now) row.now.value place)) }
{
    match interface_of(alloc, table, row, place)? {
        None => Ok(()),
        Some(above) => match place.checked_add(1) {
            None => Err(AllocError),
            Some(next) => {
                push(stack, row, TourStep::Over(next))?;
                push(stack, above, TourStep::Come(true))
            }
        },
    }
}

/// A tour: what was listed, and what is left to do.
#[derive(Drop)]
struct Tour<T: Told> {
    listed: Vec<Arc<ClassRow<T>>>,
    seen: Classes,
    finished: Classes,
    stack: Vec<Step<T>>,
}

impl<T: Told> Tour<T> {
    /// Lists a row where it is to be listed.
    fn list_if(
        &mut self,
        alloc: Global,
        is_listed: bool,
        row: &Arc<ClassRow<T>>,
    ) -> Result<(), AllocError>
        ensures { OnOk result (plain_tour self.new
            ≡ after_listing is_listed (plain_tour self.old) row.now.value) }
    {
        if is_listed {
            list(alloc, &mut self.listed, &mut self.seen, row)?;
        }
        Ok(())
    }

    /// Comes to the class of a row.
    fn come<F: Finds<T>>(
        &mut self,
        alloc: Global,
        order: TourOrder,
        table: &F,
        row: &Arc<ClassRow<T>>,
        wanted: bool,
    ) -> Result<(), AllocError>
        ensures { OnOk result (plain_tour self.new
            ≡ opening_unless_finished order (F.rows table.now)
            (after_listing (lists_before order wanted) (plain_tour self.old) row.now.value)
            row.now.value) }
    {
        self.list_if(alloc, order.lists_before(wanted), row)?;
        if self.finished.contains(row.class()) {
            return Ok(());
        }
        open(alloc, order, table, &mut self.stack, row)
    }

    /// Finishes the class of a row.
    fn finish(
        &mut self,
        alloc: Global,
        order: TourOrder,
        row: &Arc<ClassRow<T>>,
    ) -> Result<(), AllocError>
        ensures { OnOk result (plain_tour self.new
            ≡ step order [] (plain_tour self.old) row.now.value tasks.Finish) }
    {
        self.list_if(alloc, order.lists_after(), row)?;
        note(alloc, &mut self.finished, row.class())?;
        Ok(())
    }

    /// Takes one step.
    fn go<F: Finds<T>>(
        &mut self,
        alloc: Global,
        order: TourOrder,
        table: &F,
        next: &Step<T>,
    ) -> Result<(), AllocError>
        ensures { OnOk result (plain_tour self.new ≡ step order (F.rows table.now)
            (plain_tour self.old) next.now.row.value next.now.task) }
    {
        match next.task {
            TourStep::Come(wanted) => self.come(alloc, order, table, &next.row, wanted),
            TourStep::Over(place) => open_over(alloc, table, &mut self.stack, &next.row, place),
            TourStep::Finish => self.finish(alloc, order, &next.row),
        }
    }
}

/// What a tour from a row lists: the rows, each class once.
pub(crate) fn rows_in_order<T: Told, F: Finds<T>>(
    alloc: Global,
    seed: Seed,
    order: TourOrder,
    table: &F,
    start: &Arc<ClassRow<T>>,
    wanted: bool,
) -> Result<Vec<Arc<ClassRow<T>>>, AllocError>
    requires ordered { SupersBefore [] (F.rows table.now) }
    requires start { IsRowIn (F.rows table.now) start.now.value }
    ensures kins { IfOk result (λ v. map (λ r. kin_under (kins (F.rows table.now)) r.value) v.items
        ≡ once
        (listed_at order (stops order (alone (kin_under (kins (F.rows table.now)) start.now.value))
        wanted))) }
    ensures rows { IfOk result (λ v. AllByRecursion (λ r. IsRowIn (F.rows table.now) r.value)
        v.items) }
{
    let mut tour = Tour {
        listed: Vec::new(alloc),
        seen: IndexSet::with_hasher(alloc, seed),
        finished: IndexSet::with_hasher(alloc, seed),
        stack: Vec::new(alloc),
    };
    push(&mut tour.stack, start, TourStep::Come(wanted))?;
    while let Some(next) = tour.stack.pop() {
        tour.go(alloc, order, table, &next)?;
    }
    Ok(tour.listed)
}
