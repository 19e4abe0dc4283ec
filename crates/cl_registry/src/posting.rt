//! The answers of requests (JVMS SE 8, 5.3 to 5.4.3).

ghost use Rattle.std.specs.Prelude.{◌≡◌, ◌⊎◌, IfErr, OnOk, Some};
ghost use Rattle.cl_model.specs.Plans.{Link, Load, Resolve};
ghost use Rattle.cl_model.specs.States.{ArrayMember, BadEntry};
ghost use Rattle.cl_model.specs.Tables.{Bears, Records};
ghost use Rattle.cl_model.specs.Views.{request_of, verdict_of};
ghost use Rattle.cl_findings.specs.Findings.{Decides, IsLookedUp};
ghost use Rattle.cl_registry.specs.Posting.{AnswerBacked, AnswerFits, IsBacked, VerdictBacked};
ghost use Rattle.cl_registry.specs.References.{settled_by};
ghost use Rattle.cl_registry.specs.Refusals.{PostRefusedFor};
ghost use Rattle.cl_registry.specs.Tables.{IsKept, state_of, with_post};

use crate::registry::{PostRefused, Registry, RegistryFault};
use crate::rounds::{count_down, is_asked, is_open, put_answer};
use cl_constraints::ConstraintBook;
use cl_findings::Finding;
use cl_model::{Answer, Class, Event, LoaderId, Request, Settled, Told, Verdict};
use cl_names::Name;

/// Whether a verdict of a request is one that is looked up in the tables.
fn is_looked_up(request: &Request, verdict: &Verdict) -> bool
    ensures { Decides result (IsLookedUp request.now verdict.now) }
{
    match (request, verdict) {
        (Request::Load(_, _), Verdict::Class(_)) => true,
        (Request::Link(_, _), Verdict::Linked(_)) => true,
        _ => false,
    }
}

/// Whether a verdict is that of an entry which is none that is settled.
fn is_never_settled(verdict: &Verdict) -> bool
    ensures { Decides result ((verdict_of verdict.now ≡ BadEntry)
        ⊎ (verdict_of verdict.now ≡ ArrayMember)) }
{
    match verdict {
        Verdict::BadEntry | Verdict::ArrayMember => true,
        _ => false,
    }
}

/// Whether the other is settled the same.
fn is_same(one: &Settled, other: &Settled) -> bool
    ensures { Decides result (one.now ≡ other.now) }
{
    one.index == other.index
        && one.class.is_same(&other.class)
        && one.verdict.is_same(&other.verdict)
}

impl<T: Told> Registry<T> {
    /// Posts the answer of a request of the round, once. What it rests on has to stand in these tables: a class that was
    /// loaded is recorded, an entry of a recorded class is settled so, a class that was linked is prepared, and of an error
    /// what was found on the way stands.
    pub fn post(&mut self, q: u32, finding: Finding<T>) -> Result<(), PostRefused<T>>
        ensures fits { OnOk result (AnswerFits self.old q finding) }
        ensures posted { OnOk result (self.new ≡ with_post self.old q finding.answer) }
        ensures refused { IfErr result (λ e. PostRefusedFor self.old q finding e.fault) }
        ensures unchanged { IfErr result (λ e. (self.new ≡ self.old) × (e.finding ≡ finding)) }
        ensures kept { IsKept T.told self.new }
    {
        if !is_asked(self.script.requests(), q, finding.request()) {
            return Err(PostRefused {
                fault: RegistryFault::Stray,
                finding,
            });
        }
        let round = self.script.round_of(q as usize);
        if round > self.round {
            return Err(PostRefused {
                fault: RegistryFault::NotYet,
                finding,
            });
        }
        if !is_open(&self.answers, q) {
            return Err(PostRefused {
                fault: RegistryFault::AlreadyPosted,
                finding,
            });
        }
        if !self.backs(&finding) {
            return Err(PostRefused {
                fault: RegistryFault::Stray,
                finding,
            });
        }
        put_answer(&mut self.answers, q, finding.into_answer());
        count_down(&mut self.unanswered, round);
        self.left -= 1;
        self.history.push_reserved(Event::Post(q));
        Ok(())
    }

    /// Whether the tables bear what a finding answers.
    fn backs(&self, finding: &Finding<T>) -> bool
        ensures { Decides result (IsBacked self.now finding.now) }
    {
        finding.is_within(&self.config) && self.bears_answer(finding)
    }

    /// Whether the tables bear an answer, whatever loaders it names.
    fn bears_answer(&self, finding: &Finding<T>) -> bool
        ensures { Decides result (AnswerBacked self.now finding.now finding.now.answer) }
    {
        match finding.answer() {
            Answer::Said(verdict) => self.bears_verdict(finding, verdict),
            Answer::Shared(settled) => self.has_settled(finding.request(), settled),
            Answer::Memory => true,
            Answer::SourceFault(_, _) => true,
        }
    }

    /// Whether the entry that a request resolves is settled to this.
    fn has_settled(&self, request: &Request, settled: &Settled) -> bool
        ensures { Decides result (settled_by self.now request.now ≡ Some settled.now) }
    {
        match self.settled_of(request) {
            Some(entry) => is_same(entry, settled),
            None => false,
        }
    }

    /// Whether a verdict is looked up or stands, and the tables bear it.
    fn bears_verdict(&self, finding: &Finding<T>, verdict: &Verdict) -> bool
        ensures { Decides result (VerdictBacked self.now finding.now verdict.now) }
    {
        if !is_looked_up(finding.request(), verdict) && !self.stands(finding) {
            return false;
        }
        self.bears(finding.request(), verdict)
    }

    /// Whether the tables bear a verdict of a request.
    fn bears(&self, request: &Request, verdict: &Verdict) -> bool
        ensures { Decides result (Bears (state_of self.now) (request_of request.now)
            (verdict_of verdict.now)) }
    {
        match request {
            Request::Load(loader, name) => self.bears_load(*loader, name, verdict),
            Request::Resolve(loader, name, index) => {
                self.bears_entry(*loader, name, *index, verdict)
            }
            Request::Link(loader, name) => self.bears_link(*loader, name, verdict),
        }
    }

    /// Whether a class is the one that a loader has recorded for a name.
    fn records(&self, loader: LoaderId, name: &Name, class: &Class) -> bool
        ensures { Decides result (Records (state_of self.now) loader name.now class.now) }
    {
        class.name == *name && self.book.home(name, loader) == Some(class.loader)
    }

    /// Whether a class that was loaded is recorded.
    fn bears_load(&self, loader: LoaderId, name: &Name, verdict: &Verdict) -> bool
        ensures { Decides result (Bears (state_of self.now) (Load loader name.now)
            (verdict_of verdict.now)) }
    {
        match verdict {
            Verdict::Class(class) => self.records(loader, name, class),
            _ => true,
        }
    }

    /// Whether an entry of a recorded class is settled so, or is none that is settled.
    fn bears_entry(&self, loader: LoaderId, name: &Name, index: u16, verdict: &Verdict) -> bool
        ensures { Decides result (Bears (state_of self.now) (Resolve loader name.now index)
            (verdict_of verdict.now)) }
    {
        let row = match self.look(loader, name) {
            Some(row) => row,
            None => return true,
        };
        if is_never_settled(verdict) {
            return true;
        }
        match self.look_reference(row.class(), index) {
            Some(settled) => settled.verdict.is_same(verdict),
            None => false,
        }
    }

    /// Whether a class that was linked is recorded and prepared.
    fn bears_link(&self, loader: LoaderId, name: &Name, verdict: &Verdict) -> bool
        ensures { Decides result (Bears (state_of self.now) (Link loader name.now)
            (verdict_of verdict.now)) }
    {
        match verdict {
            Verdict::Linked(class) => {
                self.records(loader, name, class) && self.look_prepared(class)
            }
            _ => true,
        }
    }
}
