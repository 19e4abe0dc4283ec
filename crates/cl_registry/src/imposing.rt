//! Loading constraints and preparation (JVMS SE 8, 5.3.4, 5.4.2).

ghost use Rattle.std.specs.Prelude.{◌≡◌, ◌<◌, ◌++◌, ◌∷◌, [], Contains, IfErr, IfSome, OnErr, OnOk, length, slice_get};
ghost use Rattle.std.specs.Vec.{VecUnchanged};
ghost use Rattle.cl_classfile.specs.Files.{file_of};
ghost use Rattle.cl_constraints.specs.Books.{Adds};
ghost use Rattle.cl_findings.specs.Findings.{Decides};
ghost use Rattle.cl_hierarchy.specs.Imposed.{equal_need, needs_of, sprung};
ghost use Rattle.cl_model.specs.Classes.{supers};
ghost use Rattle.cl_model.specs.declared.event.Event.TheVariants as events;
ghost use Rattle.cl_model.specs.declared.need.Need.TheVariants as needs;
ghost use Rattle.cl_model.specs.States.{IsRecorded, Met, Refused};
ghost use Rattle.cl_model.specs.Texts.{EqualityNames};
ghost use Rattle.cl_registry.specs.Imposing.{ArePreparedAbove, ArePreparedUpTo, IsPreparedAbove, IsPreparedBy, IsReached, IsReady, IsStanding, IsUnmetIn, Marks, MayConstrainAs, MayImpose, MayMark, MayPrepareAs, OriginStands, with_constrain, with_prepare};
ghost use Rattle.cl_registry.specs.Parts.{AddsEvent, HasRoom};
ghost use Rattle.cl_registry.specs.declared.registry.RegistryFault.TheVariants.{Memory};
ghost use Rattle.cl_registry.specs.Refusals.{AddRefusedFor, BlamesIn, ImposeSays, MarkRefusedFor, refusal_fault};
ghost use Rattle.cl_registry.specs.Tables.{IsKept, state_of};

use crate::met::{are_met, is_met, note};
use crate::registry::{Registry, RegistryFault};
use crate::rounds::to_come;
use crate::tables::has;
use cl_constraints::{BookFault, ConstraintBook, GroupedBook, Refusal};
use cl_hierarchy::{ClassRow, Equalities, Lineage, Origin, class_accessible};
use cl_model::{Class, Equality, Event, Need, Told};
use cl_names::{Name, Seed};
use indexmap::IndexSet;
use std::alloc::{AllocError, Global};

/// Why a book did not take an equality.
fn equality_fault(refusal: Refusal, equality: &Equality) -> RegistryFault
    ensures { result ≡ refusal_fault refusal.fault (needs.Equal (record {
      name = refusal.name;
      one = equality.now.one;
      other = equality.now.other;
    })) }
{
    match refusal.fault {
        BookFault::Memory => RegistryFault::Memory,
        BookFault::Violates => RegistryFault::Violates(Need::Equal(Equality {
            name: refusal.name,
            one: equality.one,
            other: equality.other,
        })),
    }
}

/// Adds an equality that is not met, under a copy of its name, and its event, with as much room left for other events.
fn add_equality(
    alloc: Global,
    book: &mut GroupedBook,
    history: &mut Vec<Event>,
    left: usize,
    equality: &Equality,
    name: Name,
) -> Result<(), RegistryFault>
    // What is given.
    requires room { HasRoom history.old left }
    requires named { name ≡ equality.now.name }
    requires unmet { IsUnmetIn (⟦<GroupedBook as ConstraintBook>⟧.stands_for book.old)
        (equal_need equality.now) }
    // The room that is left, and what is added.
    ensures room { HasRoom history.new left }
    ensures event { OnOk result (AddsEvent history.old history.new
        (events.Constrain equality.now)) }
    ensures added { OnOk result (Adds ⟦<GroupedBook as ConstraintBook>⟧.stands_for book.old book.new
        (equal_need equality.now)) }
    // Where it is refused: why, and all is as before.
    ensures blames { IfErr result
        (λ fault. BlamesIn (⟦<GroupedBook as ConstraintBook>⟧.stands_for book.old)
        (equal_need equality.now) fault) }
    ensures same_history { OnErr result (VecUnchanged history.old history.new) }
    ensures same_book { OnErr result (book.new ≡ book.old) }
{
    let event = Event::Constrain(equality.try_clone(alloc)?);
    history.reserve(left + 1)?;
    match book.impose(alloc, name, equality.one, equality.other) {
        Ok(true) => {
            history.push_reserved(event);
            Ok(())
        }
        Ok(false) => unreachable!(),
        Err(refusal) => Err(equality_fault(refusal, equality)),
    }
}

/// Adds a class that is not there, and the event of its preparation, with as much room left for other events.
fn add_prepared(
    alloc: Global,
    prepared: &mut IndexSet<Class, Seed>,
    history: &mut Vec<Event>,
    left: usize,
    class: &Class,
) -> Result<(), AllocError>
    requires room { HasRoom history.old left }
    requires absent { Contains prepared.old.keys class.now → ⊥ }
    ensures room { HasRoom history.new left }
    ensures event { OnOk result (AddsEvent history.old history.new
        (events.Prepare class.now)) }
    ensures added { OnOk result (prepared.new.keys ≡ prepared.old.keys ++ class.now ∷ []) }
    ensures same_history { OnErr result (VecUnchanged history.old history.new) }
    ensures same_prepared { OnErr result (prepared.new.keys ≡ prepared.old.keys) }
{
    let event = Event::Prepare(class.try_clone(alloc)?);
    let class = class.try_clone(alloc)?;
    history.reserve(left + 1)?;
    match prepared.insert(class) {
        Ok(_) => {}
        Err(_) => return Err(AllocError),
    }
    history.push_reserved(event);
    Ok(())
}

impl<T: Told> Registry<T> {
    /// Imposes the equality at a place of a list, counted from 0, once all before it are met; one that stands already is
    /// no event (JVMS SE 8, 5.3.4). One that would violate what stands is not imposed.
    ///
    /// Each call compares all equalities before its own with those that the calls before it found met, and asks the book of
    /// others alone: who knows that the equality may be imposed calls `impose_allowed`.
    pub fn impose(
        &mut self,
        alloc: Global,
        list: &Equalities<T>,
        place: usize,
    ) -> Result<(), RegistryFault>
        ensures may { OnOk result (MayImpose self.old list.now place) }
        ensures says { ImposeSays T.told self.old self.new list.now place result }
    {
        if !self.may_impose(list, place) {
            return Err(RegistryFault::Stray);
        }
        self.impose_allowed(alloc, list, place)
    }

    /// Imposes an equality that is known to be one that may be imposed: those before it are not looked at, so that the calls
    /// for a whole list take time in its length.
    pub fn impose_allowed(
        &mut self,
        alloc: Global,
        list: &Equalities<T>,
        place: usize,
    ) -> Result<(), RegistryFault>
        requires may { MayImpose self.old list.now place }
        ensures says { ImposeSays T.told self.old self.new list.now place result }
    {
        let equalities = list.needs();
        let equality = &equalities[place];
        if is_met(&self.book, self.met.as_slice(), place, equality) {
            self.remember(alloc, equalities, place);
            return Ok(());
        }
        let Ok(name) = equality.name.try_clone(alloc) else {
            return Err(RegistryFault::Memory);
        };
        match self.constrain(alloc, equality, name) {
            Ok(()) => {}
            Err(fault) => return Err(fault),
        }
        self.remember(alloc, equalities, place);
        Ok(())
    }

    /// Whether a class is prepared (JVMS SE 8, 5.4.2).
    pub fn look_prepared(&self, class: &Class) -> bool
        ensures prepared { Decides result (Contains (state_of self.now).prepared class.now) }
        ensures kept { IsKept T.told self.now }
    {
        self.prepared.contains(class)
    }

    /// How many of the classes above that of a lineage are prepared, from the first on (JVMS SE 8, 5.4.2).
    pub fn count_prepared(&self, lineage: &Lineage<T>) -> usize
        ensures counted { ArePreparedUpTo self.now lineage.now result }
        ensures kept { IsKept T.told self.now }
    {
        // brings what the registry keeps
        let _ = &self.config;
        let rows = lineage.above();
        for at in 0..rows.len() {
            if !self.look_prepared(rows[at].class()) {
                return at;
            }
        }
        rows.len()
    }

    /// Marks the class as prepared whose preparation asks for a list, once all its equalities are met and its direct
    /// supertypes are prepared; a class that is prepared already is no event (JVMS SE 8, 5.4.2).
    pub fn mark_prepared(
        &mut self,
        alloc: Global,
        list: &Equalities<T>,
    ) -> Result<(), RegistryFault>
        ensures may { OnOk result (MayMark self.old list.now) }
        ensures marked { OnOk result (Marks self.old self.new list.now) }
        ensures prepared { OnOk result (IsPreparedBy self.new list.now.origin) }
        ensures refused { IfErr result (λ fault. MarkRefusedFor self.old list.now fault) }
        ensures unchanged { IfErr result (λ fault. self.new ≡ self.old) }
        ensures kept { IsKept T.told self.new }
    {
        // brings what the registry keeps
        let _ = &self.config;
        let Origin::Preparation { lineage } = list.origin() else {
            return Err(RegistryFault::Stray);
        };
        if !self.is_ready(lineage, list.needs()) {
            return Err(RegistryFault::Stray);
        }
        if self.look_prepared(lineage.class()) {
            return Ok(());
        }
        match self.prepare(alloc, lineage.class()) {
            Ok(()) => {}
            Err(fault) => return Err(fault),
        }
        Ok(())
    }

    /// Whether the equality at a place of a list may be imposed, where it is not refused.
    fn may_impose(&self, list: &Equalities<T>, place: usize) -> bool
        ensures may { Decides result (MayImpose self.now list.now place) }
        ensures kept { IsKept T.told self.now }
    {
        if !self.has_origin(list.origin()) {
            return false;
        }
        if place >= list.needs().len() {
            return false;
        }
        are_met(&self.book, self.met.as_slice(), &list.needs()[..place])
    }

    /// Whether what a list was made from stands in the tables.
    fn has_origin(&self, origin: &Origin<T>) -> bool
        ensures stands { Decides result (OriginStands self.now (sprung origin.now)) }
        ensures kept { IsKept T.told self.now }
    {
        match origin {
            Origin::Reference { d, c, index: _ } => {
                if !self.has_lineage(d) {
                    return false;
                }
                self.reaches(d, c)
            }
            Origin::Preparation { lineage } => self.has_lineage(lineage),
        }
    }

    /// Whether a lineage is of this configuration, and its class is recorded by its loader (JVMS SE 8, 5.3).
    fn has_lineage(&self, lineage: &Lineage<T>) -> bool
        ensures stands { Decides result (IsStanding self.now lineage.now) }
        ensures kept { IsKept T.told self.now }
    {
        let class = lineage.class();
        if !lineage.config().is_same(&self.config) {
            return false;
        }
        has(&self.tables, class.loader, &class.name, class.loader)
    }

    /// Whether the class of c is the one that the loader of d's class has recorded for its name, and is accessible to d
    /// (JVMS SE 8, 5.4.3.1, 5.4.4).
    fn reaches(&self, d: &Lineage<T>, c: &Lineage<T>) -> bool
        ensures reached { Decides result (IsReached self.now d.now c.now) }
        ensures kept { IsKept T.told self.now }
    {
        let class = c.class();
        if !c.config().is_same(&self.config) {
            return false;
        }
        if !has(&self.tables, d.class().loader, &class.name, class.loader) {
            return false;
        }
        class_accessible(c.own(), d.class())
    }

    /// Whether the class of a lineage may be prepared, whose preparation asks for these equalities.
    fn is_ready(&self, lineage: &Lineage<T>, equalities: &[Equality]) -> bool
        ensures ready { Decides result (IsReady self.now lineage.now (needs_of equalities.now)) }
        ensures kept { IsKept T.told self.now }
    {
        if !self.has_lineage(lineage) {
            return false;
        }
        if !self.supers_prepared(lineage.own()) {
            return false;
        }
        are_met(&self.book, self.met.as_slice(), equalities)
    }

    /// Whether the direct supertypes of a class are prepared, as its loader has recorded them.
    fn supers_prepared(&self, row: &ClassRow<T>) -> bool
        ensures { Decides result (ArePreparedAbove self.now row.now.class
            (supers (file_of row.now.file))) }
    {
        for at in 0..row.definers().len() {
            // (one that is named again was looked for)
            if row.first_of_name(at) == at && !self.super_prepared(row, at) {
                return false;
            }
        }
        true
    }

    /// Whether the direct supertype of a class at a place is prepared, if there is one.
    fn super_prepared(&self, row: &ClassRow<T>, at: usize) -> bool
        ensures { Decides result (IfSome (slice_get (supers (file_of row.now.file)) at)
            (IsPreparedAbove self.now row.now.class)) }
    {
        let Some(above) = row.supertype(at) else {
            return true;
        };
        match self.look(row.class().loader, above.name) {
            None => false,
            Some(found) => self.look_prepared(found.class()),
        }
    }

    /// Keeps that the equality at a place of a list is met.
    fn remember(&mut self, alloc: Global, list: &[Equality], place: usize)
        requires within { place < length list.now }
        requires met { IfSome (slice_get list.now place)
            (λ e. Met (state_of self.old) (equal_need e)) }
        ensures unchanged { self.new ≡ self.old }
        ensures kept { IsKept T.told self.new }
    {
        note(alloc, &mut self.met, list, place);
    }

    /// Imposes an equality that is not met, under a copy of its name.
    fn constrain(
        &mut self,
        alloc: Global,
        equality: &Equality,
        name: Name,
    ) -> Result<(), RegistryFault>
        // What is given.
        requires unmet { Met (state_of self.old) (equal_need equality.now) → ⊥ }
        requires may { MayConstrainAs T.told self.old equality.now }
        requires within { EqualityNames (length self.old.config.loaders) equality.now }
        requires named { name ≡ equality.now.name }
        // What is imposed.
        ensures constrained { OnOk result (self.new ≡ with_constrain self.old equality.now) }
        ensures free { OnOk result (Refused (state_of self.old) (equal_need equality.now) → ⊥) }
        ensures met { OnOk result (Met (state_of self.new) (equal_need equality.now)) }
        // Where it is refused: why, and all is as before.
        ensures refused { IfErr result (λ fault. AddRefusedFor self.old (equal_need equality.now)
            fault) }
        ensures unchanged { IfErr result (λ fault. self.new ≡ self.old) }
        // What the tables keep in either case.
        ensures kept { IsKept T.told self.new }
    {
        if self.book.refuses(&name, equality.one, equality.other) {
            return Err(RegistryFault::Violates(Need::Equal(Equality {
                name,
                one: equality.one,
                other: equality.other,
            })));
        }
        let left = to_come(self.left, self.round, self.script.rounds());
        match add_equality(
            alloc,
            &mut self.book,
            &mut self.history,
            left,
            equality,
            name,
        ) {
            Ok(()) => {}
            Err(fault) => return Err(fault),
        }
        Ok(())
    }

    /// Marks a class that is recorded and not prepared.
    fn prepare(&mut self, alloc: Global, class: &Class) -> Result<(), RegistryFault>
        // What is given.
        requires recorded { IsRecorded (state_of self.old) class.now }
        requires unprepared { Contains (state_of self.old).prepared class.now → ⊥ }
        requires may { MayPrepareAs T.told self.old class.now }
        // What is marked.
        ensures prepared { OnOk result (self.new ≡ with_prepare self.old class.now) }
        ensures stands { OnOk result (Contains (state_of self.new).prepared class.now) }
        // Where memory runs out, all is as before.
        ensures memory { IfErr result (λ fault. fault ≡ Memory) }
        ensures unchanged { IfErr result (λ fault. self.new ≡ self.old) }
        // What the tables keep in either case.
        ensures kept { IsKept T.told self.new }
    {
        let left = to_come(self.left, self.round, self.script.rounds());
        match add_prepared(alloc, &mut self.prepared, &mut self.history, left, class) {
            Ok(()) => {}
            Err(_) => return Err(RegistryFault::Memory),
        }
        Ok(())
    }
}
