ghost use Rattle.std.specs.Prelude.{◌≡◌, ◌++◌, length, map, string_bytes, IfOk, OnOk};
ghost use Rattle.cl_names.specs.Truth.{Decides};
ghost use Rattle.cl_model.specs.Lines.{need_texts, words};
ghost use Rattle.cl_model.specs.Texts.{EqualityNames, NeedNames, equality_text};
ghost use Rattle.cl_model.specs.Views.{need_of};

use crate::loader::{LoaderId, loader_name, put_located};
use cl_names::Name;
use std::alloc::{AllocError, Global};

/// That two loaders have the same class of a name: a loading constraint (JVMS SE 8, 5.3.4).
#[derive(Debug, Drop, PartialEq, Eq, Hash)]
pub struct Equality {
    pub name: Name,
    pub one: LoaderId,
    pub other: LoaderId,
}

impl Equality {
    /// Whether the other is the same: of the same name, with the same loaders in the same order.
    pub fn is_same(&self, other: &Equality) -> bool
        ensures { Decides result (self.now ≡ other.now) }
    {
        self.one == other.one && self.other == other.other && self.name == other.name
    }

    /// A copy.
    pub fn try_clone(&self, alloc: Global) -> Result<Equality, AllocError>
        ensures { IfOk result (λ e. e ≡ self.now) }
    {
        Ok(Equality {
            name: self.name.try_clone(alloc)?,
            one: self.one,
            other: self.other,
        })
    }

    /// Puts its text behind the text: the name and the names of the two loaders.
    pub fn put_text(&self, loaders: &[String], text: &mut String) -> Result<(), AllocError>
        requires { EqualityNames (length loaders.now) self.now }
        ensures { OnOk result (string_bytes text.new ≡ string_bytes text.old
            ++ equality_text (map string_bytes loaders.now) self.now) }
    {
        self.name.put_text(text)?;
        text.push_str(" ")?;
        text.push_str(loader_name(loaders, self.one))?;
        text.push_str(" ")?;
        text.push_str(loader_name(loaders, self.other))
    }
}

/// What a request needs to stand (JVMS SE 8, 5.3, 5.3.4).
#[derive(Debug, PartialEq, Eq)]
pub enum Need {
    /// A loader records the class of a name, which its home defines.
    Entry {
        loader: LoaderId,
        name: Name,
        home: LoaderId,
    },
    /// Two loaders have the same class of a name.
    Equal(Equality),
}

impl Drop for Need {
    fn drop(self) {
        match self {
            Need::Entry {
                loader: _,
                name: _,
                home: _,
            } => {}
            Need::Equal(_) => {}
        }
    }
}

impl Need {
    /// Whether the other is the same.
    pub fn is_same(&self, other: &Need) -> bool
        ensures { Decides result (self.now ≡ other.now) }
    {
        match (self, other) {
            (
                Need::Entry { loader, name, home },
                Need::Entry {
                    loader: l,
                    name: n,
                    home: h,
                },
            ) => *loader == *l && *name == *n && *home == *h,
            (Need::Equal(equality), Need::Equal(e)) => equality.is_same(e),
            _ => false,
        }
    }

    /// A copy.
    pub fn try_clone(&self, alloc: Global) -> Result<Need, AllocError>
        ensures { IfOk result (λ n. n ≡ self.now) }
    {
        Ok(match self {
            Need::Entry { loader, name, home } => Need::Entry {
                loader: *loader,
                name: name.try_clone(alloc)?,
                home: *home,
            },
            Need::Equal(equality) => Need::Equal(equality.try_clone(alloc)?),
        })
    }

    /// Puts its text behind the text, as that of a refused one is printed: a record by the loader that was asked.
    pub fn put_text(&self, loaders: &[String], text: &mut String) -> Result<(), AllocError>
        requires { NeedNames (length loaders.now) self.now }
        ensures { OnOk result (string_bytes text.new ≡ string_bytes text.old
            ++ words (need_texts (map string_bytes loaders.now) (need_of self.now))) }
    {
        match self {
            Need::Entry { loader, name, .. } => {
                text.push_str("record ")?;
                put_located(loaders, name, *loader, text)
            }
            Need::Equal(equality) => {
                text.push_str("equal ")?;
                equality.put_text(loaders, text)
            }
        }
    }
}
