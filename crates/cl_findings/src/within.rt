//! Which loaders the texts of answers name.

ghost use Rattle.std.specs.Prelude.{length};
ghost use Rattle.cl_model.specs.Texts.{AnswerNames, NeedNames, VerdictNames};
ghost use Rattle.cl_findings.specs.Findings.{Decides, IsWithin};

use crate::finding::Finding;
use cl_config::Config;
use cl_model::{Answer, Need, Told, Verdict};

/// Whether the loaders of a need that is printed are below a count.
fn need_is_named(need: &Need, count: usize) -> bool
    ensures { Decides result (NeedNames count need.now) }
{
    match need {
        Need::Entry { loader, .. } => (loader.0 as usize) < count,
        Need::Equal(equality) => {
            (equality.one.0 as usize) < count && (equality.other.0 as usize) < count
        }
    }
}

/// Whether the loaders of a verdict are below a count.
fn verdict_is_named(verdict: &Verdict, count: usize) -> bool
    ensures { Decides result (VerdictNames count verdict.now) }
{
    match verdict {
        Verdict::Class(class)
        | Verdict::Array(_, class)
        | Verdict::Field(class, _)
        | Verdict::Method(class, _)
        | Verdict::Linked(class)
        | Verdict::Error(_, class) => (class.loader.0 as usize) < count,
        Verdict::PrimitiveArray(_, _) | Verdict::BadEntry | Verdict::ArrayMember => true,
        Verdict::Linkage(need) => need_is_named(need, count),
    }
}

/// Whether the loaders of an answer are below a count.
fn is_named(answer: &Answer, count: usize) -> bool
    ensures { Decides result (AnswerNames count answer.now) }
{
    match answer {
        Answer::Said(verdict) => verdict_is_named(verdict, count),
        Answer::Shared(settled) => verdict_is_named(&settled.verdict, count),
        Answer::Memory => true,
        Answer::SourceFault(_, loader) => (loader.0 as usize) < count,
    }
}

impl<T: Told> Finding<T> {
    /// Whether the loader of the request, and those that the text of the answer names, are of a configuration. The home of a
    /// record that is refused is in no text, nor is the class whose entry is settled. Takes no memory.
    pub fn is_within(&self, config: &Config) -> bool
        ensures { Decides result (IsWithin (length config.now.loaders) self.now) }
    {
        let count = config.count();
        (self.request().loader().0 as usize) < count && is_named(self.answer(), count)
    }
}
