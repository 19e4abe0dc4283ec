//! Classes that are being derived.

ghost use Rattle.std.specs.Prelude.{◌≡◌, [], OnOk, IfErr, IfOk, IfSome, IsSome};
ghost use Rattle.std.specs.Option.{option_map};
ghost use Rattle.cl_classfile.specs.Files.{file_of};
ghost use Rattle.cl_model.specs.Classes.{class, supers};
ghost use Rattle.cl_model.specs.Frames.{NamedAs, with_accepted, wanted_supertype};
ghost use Rattle.cl_hierarchy.specs.Frames.{frame_of, with_definer};
ghost use Rattle.cl_hierarchy.specs.Kept.{name_after};
ghost use Rattle.cl_hierarchy.specs.Repeats.{Repeats};
ghost use Rattle.cl_hierarchy.specs.Supertypes.{plain_supertype};

use crate::draft::Draft;
use crate::supertype::Supertype;
use cl_model::{LoaderId, Told};
use cl_names::Name;
use std::alloc::{AllocError, Global};
use std::marker::Model;

/// A class that is being derived, and which loaders defined its direct supertypes, as far as they were accepted
/// (JVMS SE 8, 5.3.5, steps 3 and 4).
pub struct Frame<T: Told> {
    draft: Draft<T>,
    definers: Vec<LoaderId>,
}

impl<T: Told> Drop for Frame<T> {
    fn drop(self) {
        let Frame {
            draft: _,
            definers: _,
        } = self;
    }
}

impl<T: Told> Model for Frame<T> {
    ghost use Rattle.std.specs.Prelude.{◌≤◌, length};
    ghost use Rattle.cl_classfile.specs.Files.{file_of};
    ghost use Rattle.cl_model.specs.Classes.{supers};
    ghost use Rattle.cl_hierarchy.specs.Frames.{Framed};

    ghost Value = { Framed };

    ghost view = { λ f. record { draft = f.draft; definers = f.definers.items } };

    ghost invariant = { λ f. length f.definers.items ≤ length (supers (file_of f.draft.file)) };
}

impl<T: Told> Frame<T> {
    /// A class that has accepted no supertype yet. It takes no memory yet.
    pub fn new(alloc: Global, draft: Draft<T>) -> Frame<T>
        ensures { result ≡ record { draft = draft; definers = [] } }
    {
        Frame {
            draft,
            definers: Vec::new(alloc),
        }
    }

    /// The class with its file.
    pub fn draft(&self) -> &Draft<T>
        ensures { result.now ≡ self.now.draft }
    {
        &self.draft
    }

    /// Which loaders defined the supertypes that were accepted, in order.
    pub fn definers(&self) -> &[LoaderId]
        ensures definers { result.now ≡ self.now.definers }
        ensures named { NamedAs (frame_of self.now).accepted
            (supers (file_of self.now.draft.file)) }
    {
        self.definers.as_slice()
    }

    /// The supertype that comes next, if one is left.
    pub fn next_supertype(&self) -> Option<Supertype<'_>>
        ensures { option_map plain_supertype result ≡ wanted_supertype (frame_of self.now) }
    {
        self.draft.supertype(self.definers.len())
    }

    /// The loader that defined the class of the supertype that comes next, where the file names that one again and it was
    /// accepted before. Constant time.
    pub fn definer_if_repeated(&self) -> Option<LoaderId>
        ensures { IfSome result (Repeats self.now) }
    {
        let first = self.draft.first_of_name(self.definers.len());
        let definer = self.definers.as_slice().get(first)?;
        Some(*definer)
    }

    /// Accepts the supertype that comes next, of which this loader defined the class.
    pub fn accept(&mut self, definer: LoaderId) -> Result<(), AllocError>
        requires { IsSome (wanted_supertype (frame_of self.old)) }
        ensures accepted { OnOk result (self.new ≡ with_definer self.old definer) }
        ensures frame { OnOk result (IfSome (wanted_supertype (frame_of self.old))
            (λ a. frame_of self.new ≡ with_accepted (frame_of self.old) (class a.name definer))) }
        ensures unchanged { IfErr result (λ e. self.new ≡ self.old) }
    {
        self.definers.push(definer)?;
        Ok(())
    }

    /// Accepts the supertype that comes next, of which this loader defined the class: the name of the one after it, if one is
    /// left.
    pub(crate) fn go_on(
        &mut self,
        alloc: Global,
        definer: LoaderId,
    ) -> Result<Option<Name>, AllocError>
        requires { IsSome (wanted_supertype (frame_of self.old)) }
        ensures accepted { OnOk result (self.new ≡ with_definer self.old definer) }
        ensures next { IfOk result (λ o. o ≡ name_after self.old definer) }
        ensures unchanged { IfErr result (λ e. self.new ≡ self.old) }
    {
        let next = match self.draft.supertype(self.definers.len() + 1) {
            Some(supertype) => Some(supertype.name.try_clone(alloc)?),
            None => None,
        };
        self.accept(definer)?;
        Ok(next)
    }

    /// The class with its file, once it is derived no longer.
    pub fn into_draft(self) -> Draft<T>
        ensures { result ≡ self.draft }
    {
        let Frame { draft, definers: _ } = self;
        draft
    }
}
