//! What references are settled to (JVMS SE 8, 5.4.3).

ghost use Rattle.std.specs.Prelude.{◌≡◌, Some, IfErr, IfOk, MatchOption};
ghost use Rattle.std.specs.Option.{option_map};
ghost use Rattle.cl_findings.specs.Findings.{Decides, Stands};
ghost use Rattle.cl_registry.specs.References.{IsSettledIn, IsUnsettled, cited_by, settled_by};
ghost use Rattle.cl_registry.specs.Refusals.{MemoryOrStray, SettleRefusedFor};
ghost use Rattle.cl_registry.specs.Settling.{IsToSettle, FindingSettles, SaysVerdict, SaysNone, Settles};
ghost use Rattle.cl_registry.specs.Tables.{IsKept, settled_at, state_of};

use crate::references::{bind, find_reference};
use crate::registry::{Registry, RegistryFault};
use crate::rounds::to_come;
use crate::standing::Standing;
use crate::tables::find;
use cl_findings::Finding;
use cl_model::{Answer, Class, Request, Settled, Told, Verdict};
use std::alloc::{AllocError, Global};
use std::sync::Arc;

/// The verdict that a finding says, if it is one that is settled.
fn verdict_to_settle<T: Told>(finding: &Finding<T>) -> Option<&Verdict>
    ensures { MatchOption result (SaysNone finding.now) (λ v. SaysVerdict finding.now v.now) }
{
    match finding.answer() {
        Answer::Said(Verdict::BadEntry) => None,
        Answer::Said(Verdict::ArrayMember) => None,
        Answer::Said(verdict) => Some(verdict),
        _ => None,
    }
}

impl<T: Told> Registry<T> {
    /// What an entry of a class's constant pool is settled to (JVMS SE 8, 5.4.3).
    pub fn look_reference(&self, class: &Class, index: u16) -> Option<&Arc<Settled>>
        ensures entry { option_map (λ s. s.now.value) result ≡ settled_at self.now class.now index }
        ensures found { MatchOption result (IsUnsettled self.now class.now index)
            (λ s. IsSettledIn self.now class.now index s.now.value) }
        ensures kept { IsKept T.told self.now }
    {
        find_reference(&self.references, class, index)
    }

    /// Settles the entry that a finding's request resolves, of the class that the request's loader has recorded, to the
    /// verdict that it says, where that is one that is settled and stands in these tables; it answers what the entry is
    /// settled to. What is settled stays: then nothing happens, whatever the finding says (JVMS SE 8, 5.4.3).
    pub fn settle(
        &mut self,
        alloc: Global,
        finding: &Finding<T>,
    ) -> Result<Arc<Settled>, RegistryFault>
        ensures settles { IfOk result (λ s. Settles self.old self.new finding.now s.value) }
        ensures found { IfOk result
            (λ s. IsSettledIn self.new s.value.class s.value.index s.value) }
        ensures shown { IfOk result (λ s. settled_by self.new finding.now.request ≡ Some s.value) }
        ensures refused { IfErr result (λ fault. SettleRefusedFor self.old finding.now fault) }
        ensures unchanged { IfErr result (λ fault. self.new ≡ self.old) }
        ensures kept { IsKept T.told self.new }
    {
        match self.settled_of(finding.request()) {
            Some(settled) => {
                return match Arc::try_clone(settled) {
                    Ok(settled) => Ok(settled),
                    Err(_) => Err(RegistryFault::Memory),
                };
            }
            None => {}
        }
        let settled = match self.to_settle(alloc, finding) {
            Ok(settled) => settled,
            Err(fault) => return Err(fault),
        };
        let left = to_come(self.left, self.round, self.script.rounds());
        let seed = self.config.seed();
        let bound = match bind(
            alloc,
            &mut self.references,
            &mut self.history,
            left,
            seed,
            settled,
        ) {
            Ok(bound) => bound,
            Err(_) => return Err(RegistryFault::Memory),
        };
        Ok(bound)
    }

    /// The class whose entry a request resolves, as its loader has recorded it, and the index of the entry.
    fn cited_by(&self, request: &Request) -> Option<(&Class, u16)>
        ensures { option_map (λ e. record { class = e.0.now; index = e.1 }) result
            ≡ cited_by self.now request.now }
    {
        match request {
            Request::Resolve(loader, name, index) => match find(&self.tables, *loader, name) {
                Some(row) => Some((row.class(), *index)),
                None => None,
            },
            _ => None,
        }
    }

    /// What the entry that a request resolves is settled to.
    pub(crate) fn settled_of(&self, request: &Request) -> Option<&Arc<Settled>>
        ensures { option_map (λ s. s.now.value) result ≡ settled_by self.now request.now }
    {
        let (class, index) = self.cited_by(request)?;
        self.look_reference(class, index)
    }

    /// Whether what a finding rests on stands in the tables.
    pub(crate) fn stands(&self, finding: &Finding<T>) -> bool
        ensures { Decides result (Stands self.now.config (state_of self.now) finding.now) }
    {
        let tables = Standing {
            book: &self.book,
            prepared: &self.prepared,
        };
        finding.stands(&tables, &self.config)
    }

    /// What a finding settles.
    fn to_settle(&self, alloc: Global, finding: &Finding<T>) -> Result<Settled, RegistryFault>
        ensures settled { IfOk result (λ s. IsToSettle self.now finding.now s) }
        ensures refused { IfErr result (MemoryOrStray (FindingSettles self.now finding.now)) }
    {
        let Some((class, index)) = self.cited_by(finding.request()) else {
            return Err(RegistryFault::Stray);
        };
        let Some(verdict) = verdict_to_settle(finding) else {
            return Err(RegistryFault::Stray);
        };
        if !self.stands(finding) {
            return Err(RegistryFault::Stray);
        }
        match settled_as(alloc, class, index, verdict) {
            Ok(settled) => Ok(settled),
            Err(_) => Err(RegistryFault::Memory),
        }
    }
}

/// An entry of a class with a verdict, copied.
fn settled_as(
    alloc: Global,
    class: &Class,
    index: u16,
    verdict: &Verdict,
) -> Result<Settled, AllocError>
    ensures { IfOk result (λ s. s
        ≡ record { class = class.now; index = index; verdict = verdict.now }) }
{
    Ok(Settled {
        class: class.try_clone(alloc)?,
        index,
        verdict: verdict.try_clone(alloc)?,
    })
}
