ghost use Rattle.std.specs.Prelude.{◌≡◌, ◌++◌, length, map, string_bytes, OnOk};

use crate::loader::{LoaderId, put_located};
use crate::settled::Settled;
use crate::verdict::Verdict;
use cl_names::Name;
use std::alloc::AllocError;
use std::sync::Arc;

/// What a request is answered.
#[derive(Debug)]
pub enum Answer {
    /// What the specification's plan yields.
    Said(Verdict),
    /// What the request's reference is settled to: it reads as `Said` of the verdict that is shared.
    Shared(Arc<Settled>),
    /// Memory ran out. An answer of this request alone.
    Memory,
    /// The source could not be read at this name of this loader. An answer of this request alone.
    SourceFault(Name, LoaderId),
}

impl Drop for Answer {
    fn drop(self) {
        match self {
            Answer::Said(_) => {}
            Answer::Shared(_) => {}
            Answer::Memory => {}
            Answer::SourceFault(_, _) => {}
        }
    }
}

impl Answer {
    ghost use Rattle.cl_model.specs.Lines.{answer_text};
    ghost use Rattle.cl_model.specs.Texts.{AnswerNames};
    ghost use Rattle.cl_model.specs.Views.{answer_of};

    /// Puts the text that is printed behind the request's number behind the text, with each loader by its name.
    pub fn put_text(&self, loaders: &[String], text: &mut String) -> Result<(), AllocError>
        requires { AnswerNames (length loaders.now) self.now }
        ensures { OnOk result (string_bytes text.new ≡ string_bytes text.old
            ++ answer_text (map string_bytes loaders.now) (answer_of self.now)) }
    {
        match self {
            Answer::Said(verdict) => verdict.put_text(loaders, text),
            Answer::Shared(settled) => settled.verdict.put_text(loaders, text),
            Answer::Memory => text.push_str("OutOfMemory"),
            Answer::SourceFault(name, loader) => {
                text.push_str("SourceFault ")?;
                put_located(loaders, name, *loader, text)
            }
        }
    }
}
