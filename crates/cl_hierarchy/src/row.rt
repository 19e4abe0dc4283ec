//! Classes as they are recorded.

ghost use Rattle.std.specs.Prelude.{◌≡◌, ◌≤◌, length, slice_get, IfOk};
ghost use Rattle.std.specs.Option.{option_map};
ghost use Rattle.cl_classfile.specs.Files.{file_of};
ghost use Rattle.cl_model.specs.Classes.{supers};
ghost use Rattle.cl_hierarchy.specs.Drafts.{IsSpelt};
ghost use Rattle.cl_hierarchy.specs.Supertypes.{plain_supertype};
ghost use Rattle.cl_hierarchy.specs.Trees.{interface_definers};

use crate::draft::Draft;
use crate::supertype::{Supertype, first_of_name, supertype_of};
use cl_classfile::ClassFile;
use cl_model::{Class, LoaderId, Told};
use std::alloc::{AllocError, Global};
use std::marker::{Model, PhantomData};
use std::sync::Arc;

/// A class as it is recorded, shared by all who look at it (JVMS SE 8, 5.3.5, step 5). No row holds another.
pub struct ClassRow<T: Told> {
    class: Class,
    file: Arc<ClassFile>,
    definers: Vec<LoaderId>,
    of: PhantomData<T>,
}

impl<T: Told> Drop for ClassRow<T> {
    fn drop(self) {
        let ClassRow {
            class: _,
            file: _,
            definers: _,
            of: _,
        } = self;
    }
}

impl<T: Told> Model for ClassRow<T> {
    ghost use Rattle.std.specs.Prelude.{◌≡◌, length};
    ghost use Rattle.cl_classfile.specs.Files.{file_of};
    ghost use Rattle.cl_model.specs.Classes.{supers};
    ghost use Rattle.cl_hierarchy.specs.Drafts.{IsSpelt};
    ghost use Rattle.cl_hierarchy.specs.Rows.{Rowed};

    ghost Value = { Rowed };

    ghost view = { λ r. record {
      class = r.class;
      file = r.file.value;
      definers = r.definers.items;
    } };

    ghost invariant = { λ r. IsSpelt T.told r.class r.file.value × (length r.definers.items ≡ length
        (supers (file_of r.file.value))) };
}

impl<T: Told> ClassRow<T> {
    /// The row of a draft's class. Of each direct supertype, the superclass, where there is one, and then the
    /// superinterfaces in order, this is the loader that defined it. The draft is kept, so that it can be handed back. Only
    /// memory refuses it.
    pub fn of(
        alloc: Global,
        draft: &Draft<T>,
        definers: Vec<LoaderId>,
    ) -> Result<ClassRow<T>, AllocError>
        requires { length definers.items ≡ length (supers (file_of draft.now.file)) }
        ensures { IfOk result (λ r. r ≡ record {
          class = draft.now.class;
          file = draft.now.file;
          definers = definers.items;
        }) }
    {
        // brings that the class is spelled by its file
        let _ = draft.home();
        let class = draft.class().try_clone(alloc)?;
        let file = Arc::try_clone(draft.file())?;
        Ok(ClassRow {
            class,
            file,
            definers,
            of: PhantomData,
        })
    }

    /// The class.
    pub fn class(&self) -> &Class
        ensures class { result.now ≡ self.now.class }
        ensures spelt { IsSpelt T.told self.now.class self.now.file }
    {
        &self.class
    }

    /// The class's file.
    pub fn file(&self) -> &Arc<ClassFile>
        ensures file { result.now.value ≡ self.now.file }
        ensures spelt { IsSpelt T.told self.now.class self.now.file }
    {
        &self.file
    }

    /// The direct supertype at a place, counted from 0: the superclass, where there is one, and then the superinterfaces in
    /// order (JVMS SE 8, 5.3.5, steps 3 and 4).
    pub fn supertype(&self, place: usize) -> Option<Supertype<'_>>
        ensures { option_map plain_supertype result ≡ slice_get (supers (file_of self.now.file))
            place }
    {
        supertype_of(&self.file, place)
    }

    /// Which loaders defined its direct superinterfaces, in file order (JVMS SE 8, 5.3.5, step 4).
    pub fn interface_definers(&self) -> &[LoaderId]
        ensures { result.now ≡ interface_definers self.now }
    {
        let definers = self.definers();
        match self.file().super_name() {
            None => definers,
            Some(_) => match definers.split_first() {
                None => definers,
                Some((_, rest)) => rest,
            },
        }
    }

    /// The place of a direct supertype of the same name and role as the one at a place, which comes first or is that one, as
    /// a draft tells it. Constant time.
    pub fn first_of_name(&self, place: usize) -> usize
        ensures before { result ≤ place }
        ensures same { slice_get (supers (file_of self.now.file)) result
            ≡ slice_get (supers (file_of self.now.file)) place }
    {
        first_of_name(&self.file, place)
    }

    /// Which loaders defined its direct supertypes, in order.
    pub fn definers(&self) -> &[LoaderId]
        ensures definers { result.now ≡ self.now.definers }
        ensures each { length self.now.definers ≡ length (supers (file_of self.now.file)) }
    {
        self.definers.as_slice()
    }
}
