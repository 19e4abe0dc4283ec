ghost use Rattle.std.specs.Prelude.{◌≡◌, ◌<◌, ◌++◌, length, map, string_bytes, IfOk, OnOk};
ghost use Rattle.cl_names.specs.Truth.{Decides};

use crate::loader::{LoaderId, put_located};
use cl_names::Name;
use std::alloc::{AllocError, Global};

/// A class: its binary name and its defining loader (JVMS SE 8, 5.3).
#[derive(Debug, Drop, PartialEq, Eq, Hash)]
pub struct Class {
    pub name: Name,
    pub loader: LoaderId,
}

impl Class {
    ghost use Rattle.cl_model.specs.Lines.{class_text};

    /// Whether the other is the same.
    pub fn is_same(&self, other: &Class) -> bool
        ensures { Decides result (self.now ≡ other.now) }
    {
        self.loader == other.loader && self.name == other.name
    }

    /// A copy.
    pub fn try_clone(&self, alloc: Global) -> Result<Class, AllocError>
        ensures { IfOk result (λ c. c ≡ self.now) }
    {
        Ok(Class {
            name: self.name.try_clone(alloc)?,
            loader: self.loader,
        })
    }

    /// Puts its text `N@M` behind the text: the name in escaped text and the name of its loader.
    pub fn put_text(&self, loaders: &[String], text: &mut String) -> Result<(), AllocError>
        requires { self.now.loader < length loaders.now }
        ensures { OnOk result (string_bytes text.new ≡ string_bytes text.old
            ++ class_text (map string_bytes loaders.now) self.now) }
    {
        put_located(loaders, &self.name, self.loader, text)
    }
}
