//! What a registry records: definitions, and loaders that initiate (JVMS SE 8, 5.3, 5.3.5).

ghost use Rattle.std.specs.Prelude.{◌≡◌, ◌<◌, Some, None, IfErr, IfOk, IfSome, MatchOption, length};
ghost use Rattle.cl_delegation.specs.Searches.{LeadsTo};
ghost use Rattle.cl_findings.specs.Findings.{Decides};
ghost use Rattle.cl_model.specs.Tables.{Records};
ghost use Rattle.cl_registry.specs.declared.registry.RegistryFault.TheVariants.{Memory};
ghost use Rattle.cl_registry.specs.Refusals.{AddRefusedFor, DefineRefusedFor, InitiateRefusedFor, MemoryOrStray};
ghost use Rattle.cl_registry.specs.Tables.{DefinedAs, Defines, InitiatedAs, Initiates, IsKept, IsNew, LacksRecord, MayEnter, MayJoin, looked_row, state_of};
ghost use Rattle.cl_findings.specs.Loads.{asked_record, own_record};

use crate::entries::{asked_row, defined_row, has_supers, join, own_row, record};
use crate::fits::supertypes_fit;
use crate::registry::{DefineRefused, Registry, RegistryFault};
use crate::rounds::to_come;
use cl_constraints::ConstraintBook;
use cl_delegation::Home;
use cl_hierarchy::{ClassRow, Draft};
use cl_model::{Need, Told};
use cl_names::Name;
use std::alloc::Global;
use std::sync::Arc;

/// A row that is recorded, shared once more.
fn share<T: Told>(row: &Arc<ClassRow<T>>) -> Result<Arc<ClassRow<T>>, RegistryFault>
    ensures row { IfOk result (λ r. r.value ≡ row.now.value) }
    ensures memory { IfErr result (λ fault. fault ≡ Memory) }
{
    match Arc::try_clone(row) {
        Ok(row) => Ok(row),
        Err(_) => Err(RegistryFault::Memory),
    }
}

impl<T: Told> Registry<T> {
    /// Records a class with its loader, which defines it, and answers its row; of a class that is recorded the row stays,
    /// and is answered (JVMS SE 8, 5.3.5). A record that would violate a loading constraint is not made (5.3.4).
    pub fn define(
        &mut self,
        alloc: Global,
        draft: Draft<T>,
    ) -> Result<Arc<ClassRow<T>>, DefineRefused<T>>
        ensures defined { IfOk result (λ r. Defines self.old self.new draft r.value) }
        ensures found { IfOk result (λ r. Records (state_of self.new) draft.class.loader
            draft.class.name r.value.class) }
        ensures shown { IfOk result (λ r. looked_row self.new draft.class.loader draft.class.name
            ≡ Some r.value) }
        ensures refused { IfErr result (λ e. DefineRefusedFor self.old draft e.fault) }
        ensures unchanged { IfErr result (λ e. (self.new ≡ self.old) × (e.draft ≡ draft)) }
        ensures kept { IsKept T.told self.new }
    {
        match own_row(&self.tables, &draft) {
            Some(row) => {
                return match share(row) {
                    Ok(row) => Ok(row),
                    Err(fault) => Err(DefineRefused { fault, draft }),
                };
            }
            None => {}
        }
        match self.define_new(alloc, &draft) {
            Ok(row) => Ok(row),
            Err(fault) => Err(DefineRefused { fault, draft }),
        }
    }

    /// Records the loader that was asked as initiating the class of its home, and answers its row; where the loader has
    /// recorded the name, that row stays and is answered (JVMS SE 8, 5.3). A record that would violate a loading constraint
    /// is not made (5.3.4).
    pub fn initiate(
        &mut self,
        alloc: Global,
        home: &Home<T>,
    ) -> Result<Arc<ClassRow<T>>, RegistryFault>
        ensures initiated { IfOk result (λ r. Initiates self.old self.new home.now r.value) }
        ensures found { IfOk result (λ r. Records (state_of self.new) home.now.asked
            home.now.name r.value.class) }
        ensures shown { IfOk result (λ r. looked_row self.new home.now.asked home.now.name
            ≡ Some r.value) }
        ensures refused { IfErr result (λ fault. InitiateRefusedFor self.old home.now fault) }
        ensures unchanged { IfErr result (λ fault. self.new ≡ self.old) }
        ensures kept { IsKept T.told self.new }
    {
        match asked_row(&self.tables, home) {
            Some(row) => {
                return match share(row) {
                    Ok(row) => Ok(row),
                    Err(fault) => Err(fault),
                };
            }
            None => {}
        }
        let row = match self.initiate_new(alloc, home) {
            Ok(row) => row,
            Err(fault) => return Err(fault),
        };
        Ok(row)
    }

    /// Records a class of which its loader has no record.
    fn define_new(
        &mut self,
        alloc: Global,
        draft: &Draft<T>,
    ) -> Result<Arc<ClassRow<T>>, RegistryFault>
        requires fresh { IsNew self.old draft.now }
        ensures defined { IfOk result (λ r. DefinedAs self.old self.new draft.now r.value None) }
        ensures refused { IfErr result (λ fault. DefineRefusedFor self.old draft.now fault) }
        ensures unchanged { IfErr result (λ fault. self.new ≡ self.old) }
        ensures kept { IsKept T.told self.new }
    {
        if !self.may_enter(draft) {
            return Err(RegistryFault::Stray);
        }
        let Ok(name) = draft.class().name.try_clone(alloc) else {
            return Err(RegistryFault::Memory);
        };
        let row = match self.enter(alloc, draft, name) {
            Ok(row) => row,
            Err(fault) => return Err(fault),
        };
        Ok(row)
    }

    /// Records a class that may be entered and has no record, under a copy of its name.
    fn enter(
        &mut self,
        alloc: Global,
        draft: &Draft<T>,
        name: Name,
    ) -> Result<Arc<ClassRow<T>>, RegistryFault>
        requires fresh { IsNew self.old draft.now }
        requires may { MayEnter self.old draft.now }
        requires named { name ≡ draft.now.class.name }
        ensures defined { IfOk result (λ r. DefinedAs self.old self.new draft.now r.value None) }
        ensures refused { IfErr result (λ fault. AddRefusedFor self.old (own_record draft.now)
            fault) }
        ensures unchanged { IfErr result (λ fault. self.new ≡ self.old) }
        ensures kept { IsKept T.told self.new }
    {
        let home = draft.home().definer();
        if !self.book.admits(&name, home, home) {
            return Err(RegistryFault::Violates(Need::Entry {
                loader: home,
                name,
                home,
            }));
        }
        let left = to_come(self.left, self.round, self.script.rounds());
        let row = match record(
            alloc,
            &mut self.rows,
            &mut self.tables,
            &mut self.book,
            &mut self.history,
            left,
            draft,
            name,
        ) {
            Ok(row) => row,
            Err(fault) => return Err(fault),
        };
        Ok(row)
    }

    /// Records a loader as initiating that has no record of the name.
    fn initiate_new(
        &mut self,
        alloc: Global,
        home: &Home<T>,
    ) -> Result<Arc<ClassRow<T>>, RegistryFault>
        requires fresh { LacksRecord self.old home.now.asked home.now.name }
        ensures initiated { IfOk result (λ r. InitiatedAs self.old self.new home.now r.value None) }
        ensures refused { IfErr result (λ fault. InitiateRefusedFor self.old home.now fault) }
        ensures unchanged { IfErr result (λ fault. self.new ≡ self.old) }
        ensures kept { IsKept T.told self.new }
    {
        match self.home_row(home) {
            Some(_) => {}
            None => return Err(RegistryFault::Stray),
        }
        let Ok(name) = home.name().try_clone(alloc) else {
            return Err(RegistryFault::Memory);
        };
        let row = match self.join(alloc, home, name) {
            Ok(row) => row,
            Err(fault) => return Err(fault),
        };
        Ok(row)
    }

    /// Records a loader as initiating that may be recorded and has no record of the name, under a copy of this.
    fn join(
        &mut self,
        alloc: Global,
        home: &Home<T>,
        name: Name,
    ) -> Result<Arc<ClassRow<T>>, RegistryFault>
        requires fresh { LacksRecord self.old home.now.asked home.now.name }
        requires may { MayJoin self.old home.now }
        requires named { name ≡ home.now.name }
        ensures initiated { IfOk result (λ r. InitiatedAs self.old self.new home.now r.value None) }
        ensures refused { IfErr result (λ fault. AddRefusedFor self.old (asked_record home.now)
            fault) }
        ensures unchanged { IfErr result (λ fault. self.new ≡ self.old) }
        ensures kept { IsKept T.told self.new }
    {
        if !self.book.admits(&name, home.asked_loader(), home.definer()) {
            return Err(RegistryFault::Violates(Need::Entry {
                loader: home.asked_loader(),
                name,
                home: home.definer(),
            }));
        }
        let row = match self.shared_row(home) {
            Ok(row) => row,
            Err(fault) => return Err(fault),
        };
        let left = to_come(self.left, self.round, self.script.rounds());
        let row = match join(
            alloc,
            &mut self.tables,
            &mut self.book,
            &mut self.history,
            left,
            home,
            row,
            name,
        ) {
            Ok(row) => row,
            Err(fault) => return Err(fault),
        };
        Ok(row)
    }

    /// Whether the class of a draft may be recorded, where its loader has no record of it.
    fn may_enter(&self, draft: &Draft<T>) -> bool
        ensures may { Decides result (MayEnter self.now draft.now) }
        ensures kept { IsKept T.told self.now }
    {
        if !draft.home().config().is_same(&self.config)
            || draft.class().loader.0 as usize >= self.config.count()
        {
            return false;
        }
        if !has_supers(&self.tables, draft) {
            return false;
        }
        supertypes_fit(&self.tables, draft)
    }

    /// The row of the class of a home, where the loader that was asked may be recorded as initiating it.
    fn home_row(&self, home: &Home<T>) -> Option<&Arc<ClassRow<T>>>
        ensures none { MatchOption result (MayJoin self.now home.now → ⊥)
            (λ r. MayJoin self.now home.now) }
        ensures row { IfSome result (λ r. looked_row self.now home.now.definer home.now.name
            ≡ Some r.now.value) }
        ensures leads { LeadsTo T.told home.now.config home.now.asked home.now.name
            (Some home.now.definer) }
        ensures within { home.now.definer < length home.now.config.loaders }
        ensures kept { IsKept T.told self.now }
    {
        if !home.config().is_same(&self.config)
            || home.asked_loader().0 as usize >= self.config.count()
        {
            return None;
        }
        defined_row(&self.tables, home)
    }

    /// The same row, shared once more.
    fn shared_row(&self, home: &Home<T>) -> Result<Arc<ClassRow<T>>, RegistryFault>
        ensures may { IfOk result (λ r. MayJoin self.now home.now) }
        ensures row { IfOk result (λ r. looked_row self.now home.now.definer home.now.name
            ≡ Some r.value) }
        ensures refused { IfErr result (MemoryOrStray (MayJoin self.now home.now)) }
        ensures leads { LeadsTo T.told home.now.config home.now.asked home.now.name
            (Some home.now.definer) }
        ensures within { home.now.definer < length home.now.config.loaders }
    {
        let row = match self.home_row(home) {
            Some(row) => row,
            None => return Err(RegistryFault::Stray),
        };
        match Arc::try_clone(row) {
            Ok(row) => Ok(row),
            Err(_) => Err(RegistryFault::Memory),
        }
    }
}
