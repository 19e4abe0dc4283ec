//! The steps of a definition and of an initiation, on plain tables.

ghost use Rattle.std.specs.Prelude.{◌≡◌, ◌≢◌, ◌<◌, ◌++◌, ◌∷◌, [], Some, None, IfErr, IfOk, IfSome, MatchOption, OnOk, OnErr, is_some, length, map, slice_get, take};
ghost use Rattle.std.specs.Vec.{VecUnchanged};
ghost use Rattle.std.specs.Option.{option_map};
ghost use Rattle.cl_classfile.specs.Files.{file_of};
ghost use Rattle.cl_model.specs.Classes.{supers};
ghost use Rattle.cl_hierarchy.specs.Drafts.{home_class};
ghost use Rattle.cl_model.specs.declared.event.Event.TheVariants as events;
ghost use Rattle.cl_registry.specs.Parts.{AddsEvent, EachHas, HasRoom, HasSame, IsPut, is_there, place_by, place_there, row_by, shared_values};
ghost use Rattle.cl_model.specs.declared.need.Need.TheVariants as needs;
ghost use Rattle.cl_constraints.specs.Books.{Adds};
ghost use Rattle.cl_registry.specs.Refusals.{BlamesIn, refusal_fault};
ghost use Rattle.cl_registry.specs.Tables.{placed_at, table_row};
ghost use Rattle.cl_findings.specs.Loads.{asked_record, own_record};
ghost use Rattle.cl_findings.specs.Findings.{Decides};

use crate::registry::RegistryFault;
use crate::tables::{Rows, find, insert_reserved, place, reserve_row};
use cl_constraints::{BookFault, ConstraintBook, GroupedBook, Refusal};
use cl_delegation::Home;
use cl_hierarchy::{ClassRow, Draft};
use cl_model::{Class, Event, LoaderId, Need, Told};
use cl_names::Name;
use std::alloc::{AllocError, Global};
use std::sync::Arc;

/// Whether the loader of a draft has recorded the direct supertype at a place, if there is one.
fn is_there<T: Told>(tables: &Rows<T>, draft: &Draft<T>, at: usize) -> bool
    ensures { result ≡ is_there (λ n. is_some (table_row tables.now.items draft.now.class.loader n))
        (slice_get (supers (file_of draft.now.file)) at) }
{
    match draft.supertype(at) {
        None => true,
        Some(above) => find(tables, draft.class().loader, above.name).is_some(),
    }
}

/// Whether the loader of a draft has recorded each direct supertype of its class.
pub fn has_supers<T: Told>(tables: &Rows<T>, draft: &Draft<T>) -> bool
    ensures { Decides result (EachHas
        (λ n. is_some (table_row tables.now.items draft.now.class.loader n))
        (supers (file_of draft.now.file))) }
{
    for at in 0..draft.supertypes() {
        // (one that is named again was looked for)
        if draft.first_of_name(at) == at && !is_there(tables, draft, at) {
            return false;
        }
    }
    true
}

/// Which loader defined the direct supertype at a place, by the records of the draft's loader.
fn place_there<T: Told>(tables: &Rows<T>, draft: &Draft<T>, at: usize) -> LoaderId
    ensures { result ≡ place_there (placed_at tables.now.items draft.now.class.loader)
        (slice_get (supers (file_of draft.now.file)) at) }
{
    match draft.supertype(at) {
        None => LoaderId(0),
        Some(above) => place(tables, draft.class().loader, above.name).unwrap_or(LoaderId(0)),
    }
}

/// Which of these places stands here, if one does.
fn place_in(places: &[LoaderId], at: usize) -> Option<LoaderId>
    ensures { result ≡ slice_get places.now at }
{
    places.get(at).copied()
}

/// Which loader defined the direct supertype at a place, where these defined those before it: one that is named again is not
/// looked for again.
fn place_behind<T: Told>(
    tables: &Rows<T>,
    draft: &Draft<T>,
    places: &[LoaderId],
    at: usize,
) -> LoaderId
    requires { places.now ≡ map (place_by (placed_at tables.now.items draft.now.class.loader))
        (take at (supers (file_of draft.now.file))) }
    ensures { result ≡ place_there (placed_at tables.now.items draft.now.class.loader)
        (slice_get (supers (file_of draft.now.file)) at) }
{
    match place_in(places, draft.first_of_name(at)) {
        None => place_there(tables, draft, at),
        Some(place) => place,
    }
}

/// Which loaders defined the direct supertypes of a draft's class, in order.
fn places_of<T: Told>(
    alloc: Global,
    tables: &Rows<T>,
    draft: &Draft<T>,
) -> Result<Vec<LoaderId>, AllocError>
    ensures { IfOk result (λ v. v.items ≡ map
        (place_by (placed_at tables.now.items draft.now.class.loader))
        (supers (file_of draft.now.file))) }
{
    let count = draft.supertypes();
    let mut places = Vec::with_capacity(alloc, count)?;
    for at in 0..count {
        places.push(place_behind(tables, draft, places.as_slice(), at))?;
    }
    Ok(places)
}

/// The row that a draft's loader has recorded for the name of its class.
pub fn own_row<'a, T: Told>(tables: &'a Rows<T>, draft: &Draft<T>) -> Option<&'a Arc<ClassRow<T>>>
    ensures { option_map (λ r. r.now) result ≡ table_row tables.now.items draft.now.class.loader
        draft.now.class.name }
{
    find(tables, draft.class().loader, &draft.class().name)
}

/// What a definition adds.
#[derive(Drop)]
struct Parts<T: Told> {
    event: Event,
    name: Name,
    row: Arc<ClassRow<T>>,
    /// The same row, for the list, for the table, and to be answered.
    listed: Arc<ClassRow<T>>,
    answered: Arc<ClassRow<T>>,
}

/// The parts of the definition of a draft's class.
fn parts_of<T: Told>(
    alloc: Global,
    tables: &Rows<T>,
    draft: &Draft<T>,
) -> Result<Parts<T>, AllocError>
    ensures event { IfOk result (λ p. p.event ≡ events.Define draft.now.class) }
    ensures name { IfOk result (λ p. p.name ≡ draft.now.class.name) }
    ensures row { IfOk result (λ p. p.row.value
        ≡ row_by (placed_at tables.now.items draft.now.class.loader) draft.now) }
    ensures listed { IfOk result (λ p. p.listed.value ≡ p.row.value) }
    ensures answered { IfOk result (λ p. p.answered.value ≡ p.row.value) }
{
    let event = Event::Define(draft.class().try_clone(alloc)?);
    let name = draft.class().name.try_clone(alloc)?;
    let places = places_of(alloc, tables, draft)?;
    let row = Arc::new(alloc, ClassRow::of(alloc, draft, places)?)?;
    let listed = Arc::try_clone(&row)?;
    let answered = Arc::try_clone(&row)?;
    Ok(Parts {
        event,
        name,
        row,
        listed,
        answered,
    })
}

/// Why a book did not take the record of a loader.
fn entry_fault(refusal: Refusal, loader: LoaderId, home: LoaderId) -> RegistryFault
    ensures { result ≡ refusal_fault refusal.fault (needs.Entry loader refusal.name home) }
{
    match refusal.fault {
        BookFault::Memory => RegistryFault::Memory,
        BookFault::Violates => RegistryFault::Violates(Need::Entry {
            loader,
            name: refusal.name,
            home,
        }),
    }
}

/// Records a draft's class under a copy of its name: one row more, in the book too, one event more, and as much room left
/// for other events.
pub fn record<T: Told>(
    alloc: Global,
    rows: &mut Vec<Arc<ClassRow<T>>>,
    tables: &mut Rows<T>,
    book: &mut GroupedBook,
    history: &mut Vec<Event>,
    left: usize,
    draft: &Draft<T>,
    name: Name,
) -> Result<Arc<ClassRow<T>>, RegistryFault>
    // What is given.
    requires loader { draft.now.class.loader < length tables.old.items }
    requires room { HasRoom history.old left }
    requires named { name ≡ draft.now.class.name }
    requires fresh { ⟦<GroupedBook as ConstraintBook>⟧.record_of book.old draft.now.class.name
        draft.now.class.loader ≡ None }
    // What stays in either case.
    ensures width { length tables.new.items ≡ length tables.old.items }
    ensures room { HasRoom history.new left }
    // What is added.
    ensures row { IfOk result (λ r. r.value
        ≡ row_by (placed_at tables.old.items draft.now.class.loader) draft.now) }
    ensures event { OnOk result (AddsEvent history.old history.new
        (events.Define draft.now.class)) }
    ensures put { IfOk result (λ r. IsPut
        (shared_values (λ c. c.value) (table_row tables.old.items))
        (shared_values (λ c. c.value) (table_row tables.new.items))
        draft.now.class.loader draft.now.class.name r.value) }
    ensures rows { IfOk result (λ r. map (λ c. c.value) rows.new.items ≡ map
        (λ c. c.value) rows.old.items ++ r.value ∷ []) }
    ensures entered { OnOk result (Adds ⟦<GroupedBook as ConstraintBook>⟧.stands_for book.old
        book.new (own_record draft.now)) }
    // Where it is refused: why, and all is as before.
    ensures blames { IfErr result
        (λ fault. BlamesIn (⟦<GroupedBook as ConstraintBook>⟧.stands_for book.old)
        (own_record draft.now) fault) }
    ensures same_history { OnErr result (VecUnchanged history.old history.new) }
    ensures same_tables { OnErr result (HasSame (table_row tables.old.items)
        (table_row tables.new.items)) }
    ensures same_rows { OnErr result (rows.new.items ≡ rows.old.items) }
    ensures same_book { OnErr result (book.new ≡ book.old) }
{
    let parts = parts_of(alloc, tables, draft)?;
    let loader = draft.class().loader;
    rows.reserve(1)?;
    history.reserve(left + 1)?;
    reserve_row(tables, loader)?;
    if let Err(refusal) = book.enter(alloc, name, loader, loader) {
        return Err(entry_fault(refusal, loader, loader));
    }
    insert_reserved(tables, loader, parts.name, parts.row);
    rows.push_reserved(parts.listed);
    history.push_reserved(parts.event);
    Ok(parts.answered)
}

/// The row that the loader that was asked has recorded for a home's name.
pub fn asked_row<'a, T: Told>(tables: &'a Rows<T>, home: &Home<T>) -> Option<&'a Arc<ClassRow<T>>>
    ensures { option_map (λ r. r.now) result ≡ table_row tables.now.items home.now.asked
        home.now.name }
{
    find(tables, home.asked_loader(), home.name())
}

/// The row of the class of a home, where the home has defined it.
pub fn defined_row<'a, T: Told>(tables: &'a Rows<T>, home: &Home<T>) -> Option<&'a Arc<ClassRow<T>>>
    ensures row { IfSome result (λ r. table_row tables.now.items home.now.definer home.now.name
        ≡ Some r.now) }
    ensures own { MatchOption result
        (placed_at tables.now.items home.now.definer home.now.name ≢ Some home.now.definer)
        (λ r. r.now.value.class.loader ≡ home.now.definer) }
{
    let row = find(tables, home.definer(), home.name())?;
    if row.class().loader != home.definer() {
        return None;
    }
    Some(row)
}

/// The event by which the loader that was asked is recorded as initiating.
fn event_of<T: Told>(alloc: Global, home: &Home<T>) -> Result<Event, AllocError>
    ensures { IfOk result (λ e. e ≡ events.Initiate (home_class home.now) home.now.asked) }
{
    let class = Class {
        name: home.name().try_clone(alloc)?,
        loader: home.definer(),
    };
    Ok(Event::Initiate(class, home.asked_loader()))
}

/// Records the loader that was asked as initiating the class of this row, under a copy of its name: in the book too, one
/// event more, and as much room left for other events.
pub fn join<T: Told>(
    alloc: Global,
    tables: &mut Rows<T>,
    book: &mut GroupedBook,
    history: &mut Vec<Event>,
    left: usize,
    home: &Home<T>,
    row: Arc<ClassRow<T>>,
    name: Name,
) -> Result<Arc<ClassRow<T>>, RegistryFault>
    // What is given.
    requires loader { home.now.asked < length tables.old.items }
    requires room { HasRoom history.old left }
    requires named { name ≡ home.now.name }
    requires fresh { ⟦<GroupedBook as ConstraintBook>⟧.record_of book.old home.now.name
        home.now.asked ≡ None }
    // What stays in either case.
    ensures width { length tables.new.items ≡ length tables.old.items }
    ensures room { HasRoom history.new left }
    // What is added.
    ensures row { IfOk result (λ r. r.value ≡ row.value) }
    ensures event { OnOk result (AddsEvent history.old history.new (events.Initiate
        (home_class home.now) home.now.asked)) }
    ensures put { OnOk result (IsPut (shared_values (λ c. c.value) (table_row tables.old.items))
        (shared_values (λ c. c.value) (table_row tables.new.items)) home.now.asked home.now.name
        row.value) }
    ensures entered { OnOk result (Adds ⟦<GroupedBook as ConstraintBook>⟧.stands_for book.old
        book.new (asked_record home.now)) }
    // Where it is refused: why, and all is as before.
    ensures blames { IfErr result
        (λ fault. BlamesIn (⟦<GroupedBook as ConstraintBook>⟧.stands_for book.old)
        (asked_record home.now) fault) }
    ensures same_history { OnErr result (VecUnchanged history.old history.new) }
    ensures same_tables { OnErr result (HasSame (table_row tables.old.items)
        (table_row tables.new.items)) }
    ensures same_book { OnErr result (book.new ≡ book.old) }
{
    let event = event_of(alloc, home)?;
    let key = home.name().try_clone(alloc)?;
    let answered = Arc::try_clone(&row)?;
    history.reserve(left + 1)?;
    reserve_row(tables, home.asked_loader())?;
    if let Err(refusal) = book.enter(alloc, name, home.asked_loader(), home.definer()) {
        return Err(entry_fault(refusal, home.asked_loader(), home.definer()));
    }
    insert_reserved(tables, home.asked_loader(), key, row);
    history.push_reserved(event);
    Ok(answered)
}
