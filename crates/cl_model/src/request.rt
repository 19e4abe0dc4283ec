ghost use Rattle.std.specs.Prelude.{◌≡◌, IfOk};
ghost use Rattle.cl_names.specs.Truth.{Decides};
ghost use Rattle.cl_model.specs.Plans.{loaded_by};
ghost use Rattle.cl_model.specs.Views.{request_of};

use crate::loader::LoaderId;
use cl_names::Name;
use std::alloc::{AllocError, Global};

/// What a script asks for. A request's number is its place in the script, counted from 0.
#[derive(Debug, PartialEq, Eq)]
pub enum Request {
    /// Load the class of this name through this loader (JVMS SE 8, 5.3).
    Load(LoaderId, Name),
    /// Load the class and resolve the entry of its constant pool at this index (JVMS SE 8, 5.4.3).
    Resolve(LoaderId, Name, u16),
    /// Load the class and prepare it and all above it (JVMS SE 8, 5.4.2).
    Link(LoaderId, Name),
}

impl Drop for Request {
    fn drop(self) {
        match self {
            Request::Load(_, _) => {}
            Request::Resolve(_, _, _) => {}
            Request::Link(_, _) => {}
        }
    }
}

impl Request {
    /// The loader that is asked.
    pub fn loader(&self) -> LoaderId
        ensures { result ≡ (loaded_by (request_of self.now)).loader }
    {
        match self {
            Request::Load(loader, _) => *loader,
            Request::Resolve(loader, _, _) => *loader,
            Request::Link(loader, _) => *loader,
        }
    }

    /// The name of the class that is loaded first.
    pub fn name(&self) -> &Name
        ensures { result.now ≡ (loaded_by (request_of self.now)).name }
    {
        match self {
            Request::Load(_, name) | Request::Resolve(_, name, _) | Request::Link(_, name) => name,
        }
    }

    /// Whether the other is the same.
    pub fn is_same(&self, other: &Request) -> bool
        ensures { Decides result (self.now ≡ other.now) }
    {
        match (self, other) {
            (Request::Load(l, n), Request::Load(loader, name)) => *l == *loader && *n == *name,
            (Request::Resolve(l, n, i), Request::Resolve(loader, name, index)) => {
                *l == *loader && *n == *name && *i == *index
            }
            (Request::Link(l, n), Request::Link(loader, name)) => *l == *loader && *n == *name,
            _ => false,
        }
    }

    /// A copy.
    pub fn try_clone(&self, alloc: Global) -> Result<Request, AllocError>
        ensures { IfOk result (λ r. r ≡ self.now) }
    {
        Ok(match self {
            Request::Load(loader, name) => Request::Load(*loader, name.try_clone(alloc)?),
            Request::Resolve(loader, name, index) => {
                Request::Resolve(*loader, name.try_clone(alloc)?, *index)
            }
            Request::Link(loader, name) => Request::Link(*loader, name.try_clone(alloc)?),
        })
    }
}
