//! Findings: requests with their answers.

ghost use Rattle.std.specs.Prelude.{◌≡◌};
ghost use Rattle.cl_model.specs.declared.verdict.Verdict.TheVariants as verdicts;
ghost use Rattle.cl_model.specs.declared.answer.Answer.TheVariants as answers;
ghost use Rattle.cl_findings.specs.Bases.{basis_of};
ghost use Rattle.cl_findings.specs.Findings.{IsLink, IsLoad, IsSettledFor, Rests, grounded_answer, ungrounded_answer};

use crate::basis::Basis;
use cl_model::{Answer, Class, LoaderId, Request, Settled, Told, Verdict};
use cl_names::Name;
use std::marker::Model;
use std::sync::Arc;

/// A request and its answer, with what that rests on.
pub struct Finding<T: Told> {
    pub(crate) request: Request,
    pub(crate) answer: Answer,
    pub(crate) basis: Option<Basis<T>>,
}

impl<T: Told> Drop for Finding<T> {
    fn drop(self) {
        let Finding {
            request: _,
            answer: _,
            basis: _,
        } = self;
    }
}

impl<T: Told> Model for Finding<T> {
    ghost use Rattle.std.specs.Option.{option_map};
    ghost use Rattle.cl_findings.specs.Findings.{Answered, Rests};
    ghost use Rattle.cl_findings.specs.Bases.{basis_of};

    ghost Value = { Answered };

    ghost view = { λ f. record {
      request = f.request;
      answer = f.answer;
      basis = option_map (basis_of f.request) f.basis;
    } };

    ghost invariant = { λ f. Rests T.told (record {
      request = f.request;
      answer = f.answer;
      basis = option_map (basis_of f.request) f.basis;
    }) };
}

impl<T: Told> Finding<T> {
    /// A verdict that rests on this (JVMS SE 8, 5.3 to 5.4.3).
    pub(crate) fn with_verdict(request: Request, verdict: Verdict, basis: Basis<T>) -> Finding<T>
        requires { Rests T.told (grounded_answer request verdict (basis_of request basis)) }
        ensures { result ≡ grounded_answer request verdict (basis_of request basis) }
    {
        Finding {
            request,
            answer: Answer::Said(verdict),
            basis: Some(basis),
        }
    }

    /// The class that a request loaded, as the tables have it (JVMS SE 8, 5.3).
    #[tactic(auto, using(crate::proofs::Plain::class_rests))]
    pub fn class(request: Request, class: Class) -> Finding<T>
        requires { IsLoad request }
        ensures { result ≡ ungrounded_answer request (answers.Said (verdicts.Class class)) }
    {
        Finding {
            request,
            answer: Answer::Said(Verdict::Class(class)),
            basis: None,
        }
    }

    /// The class that a request linked, as the tables have it: it and all above it are prepared (JVMS SE 8, 5.4).
    #[tactic(auto, using(crate::proofs::Plain::linked_rests))]
    pub fn linked(request: Request, class: Class) -> Finding<T>
        requires { IsLink request }
        ensures { result ≡ ungrounded_answer request (answers.Said (verdicts.Linked class)) }
    {
        Finding {
            request,
            answer: Answer::Said(Verdict::Linked(class)),
            basis: None,
        }
    }

    /// What the entry of a request is settled to, as the tables have it (JVMS SE 8, 5.4.3).
    #[tactic(auto, using(crate::proofs::Plain::settled_rests))]
    pub fn settled(request: Request, settled: Arc<Settled>) -> Finding<T>
        requires { IsSettledFor request settled.value }
        ensures { result ≡ ungrounded_answer request (answers.Shared settled) }
    {
        Finding {
            request,
            answer: Answer::Shared(settled),
            basis: None,
        }
    }

    /// Memory ran out.
    #[tactic(auto, using(crate::proofs::Plain::memory_rests))]
    pub fn memory(request: Request) -> Finding<T>
        ensures { result ≡ ungrounded_answer request answers.Memory }
    {
        Finding {
            request,
            answer: Answer::Memory,
            basis: None,
        }
    }

    /// The source could not be read at a name of a loader.
    #[tactic(auto, using(crate::proofs::Plain::fault_rests))]
    pub fn source_fault(request: Request, name: Name, loader: LoaderId) -> Finding<T>
        ensures { result ≡ ungrounded_answer request (answers.SourceFault name loader) }
    {
        Finding {
            request,
            answer: Answer::SourceFault(name, loader),
            basis: None,
        }
    }

    /// The request.
    pub fn request(&self) -> &Request
        ensures request { result.now ≡ self.now.request }
        ensures rests { Rests T.told self.now }
    {
        &self.request
    }

    /// Its answer.
    pub fn answer(&self) -> &Answer
        ensures answer { result.now ≡ self.now.answer }
        ensures rests { Rests T.told self.now }
    {
        &self.answer
    }

    /// Its answer, given up.
    pub fn into_answer(self) -> Answer
        ensures answer { result ≡ self.answer }
        ensures rests { Rests T.told self }
    {
        let Finding {
            request: _,
            answer: given,
            basis: _,
        } = self;
        given
    }
}
