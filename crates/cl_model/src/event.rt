ghost use Rattle.std.specs.Prelude.{◌≡◌, ◌++◌, List, Option, length, map, string_bytes, OnOk};
ghost use Rattle.cl_model.specs.States.{Answer};

use crate::class::Class;
use crate::loader::{LoaderId, loader_name};
use crate::need::Equality;
use crate::settled::Settled;
use std::alloc::AllocError;
use std::sync::Arc;

/// One step of the linkage machine, as a history keeps it.
#[derive(Debug, PartialEq, Eq)]
pub enum Event {
    /// A defining loader records its class (JVMS SE 8, 5.3.5).
    Define(Class),
    /// A loader that was asked records a class that another defined (JVMS SE 8, 5.3).
    Initiate(Class, LoaderId),
    /// Two loaders have the same class of a name from now on (JVMS SE 8, 5.3.4).
    Constrain(Equality),
    /// A reference is settled, for good (JVMS SE 8, 5.4.3).
    Settle(Arc<Settled>),
    /// A class is prepared (JVMS SE 8, 5.4.2).
    Prepare(Class),
    /// A round ends, and the next begins.
    NextRound,
    /// The request of this number is answered; the answer stands among the answers.
    Post(u32),
}

impl Drop for Event {
    fn drop(self) {
        match self {
            Event::Define(_) => {}
            Event::Initiate(_, _) => {}
            Event::Constrain(_) => {}
            Event::Settle(_) => {}
            Event::Prepare(_) => {}
            Event::NextRound => {}
            Event::Post(_) => {}
        }
    }
}

impl Event {
    ghost use Rattle.cl_model.specs.Lines.{step_line};
    ghost use Rattle.cl_model.specs.Texts.{EventNames};
    ghost use Rattle.cl_model.specs.Views.{step_of};

    /// Puts the line that a report prints for it, with its end, behind the text, if it has one; loaders by their names.
    pub fn put_line(&self, loaders: &[String], text: &mut String) -> Result<(), AllocError>
        requires { EventNames (length loaders.now) self.now }
        ensures { (given : List (Option Answer))
            → OnOk result (string_bytes text.new ≡ string_bytes text.old
            ++ step_line (map string_bytes loaders.now) (step_of given self.now)) }
    {
        match self {
            Event::Define(class) => {
                text.push_str("define ")?;
                class.put_text(loaders, text)?;
            }
            Event::Initiate(class, asked) => {
                text.push_str("initiate ")?;
                class.name.put_text(text)?;
                text.push_str(" ")?;
                text.push_str(loader_name(loaders, class.loader))?;
                text.push_str(" by ")?;
                text.push_str(loader_name(loaders, *asked))?;
            }
            Event::Constrain(equality) => {
                text.push_str("constrain ")?;
                equality.put_text(loaders, text)?;
            }
            Event::Prepare(class) => {
                text.push_str("prepare ")?;
                class.put_text(loaders, text)?;
            }
            Event::Settle(_) | Event::NextRound | Event::Post(_) => return Ok(()),
        }
        text.push_str("\n")
    }
}
