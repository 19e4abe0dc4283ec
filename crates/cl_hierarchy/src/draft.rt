ghost use Rattle.std.specs.Prelude.{◌≡◌, ◌≤◌, ◌^◌, IfOk, length, MatchResult, Ok, Some, slice_get};
ghost use Rattle.cl_model.specs.Classes.{supers};
ghost use Rattle.cl_hierarchy.specs.Supertypes.{plain_supertype};
ghost use Rattle.std.specs.Option.{option_map};
ghost use Rattle.cl_classfile.specs.Files.{file_of};
ghost use Rattle.cl_hierarchy.specs.Drafts.{ByGrammar, IsDraft, IsWrong, fault_as};
ghost use Rattle.cl_hierarchy.specs.DraftReads.{ReadAs};
ghost use Rattle.cl_source.specs.Told.{IsTold};

use crate::supertype::{Supertype, first_of_name, supertype_of, supertypes_of};
use cl_classfile::{ClassFile, Fault, ReadError};
use cl_delegation::Home;
use cl_model::{Class, Told};
use cl_names::Name;
use std::alloc::{AllocError, Global};
use std::marker::Model;
use std::sync::Arc;
use thiserror::Error;

/// What is wrong with the bytes of a home (JVMS SE 8, 5.3.5).
#[derive(Clone, Copy, Debug, PartialEq, Eq, Error)]
pub enum DraftFault {
    /// They spell no class file, for another cause than the version.
    #[error("H1 Format {0}")]
    Format(Fault),
    /// The version is none of 45.0 to 52.0.
    #[error("H2 Version")]
    Version,
    /// The file names another class.
    #[error("H3 OtherName")]
    OtherName,
}

/// The class of a home, with its file.
pub struct Draft<T: Told> {
    class: Class,
    file: Arc<ClassFile>,
    home: Arc<Home<T>>,
}

impl<T: Told> Drop for Draft<T> {
    fn drop(self) {
        let Draft {
            class: _,
            file: _,
            home: _,
        } = self;
    }
}

impl<T: Told> Model for Draft<T> {
    ghost use Rattle.cl_hierarchy.specs.Drafts.{Drafted};
    ghost use Rattle.cl_hierarchy.specs.Drafts.{IsDraft};

    ghost Value = { Drafted };

    ghost view = { λ d. record { class = d.class; file = d.file.value; home = d.home.value } };

    ghost invariant = { λ d. IsDraft T.told (record {
      class = d.class;
      file = d.file.value;
      home = d.home.value;
    }) };
}

/// A home whose bytes are not its class.
pub struct Unreadable<T: Told> {
    home: Home<T>,
    fault: DraftFault,
}

impl<T: Told> Drop for Unreadable<T> {
    fn drop(self) {
        let Unreadable { home: _, fault: _ } = self;
    }
}

impl<T: Told> Model for Unreadable<T> {
    ghost use Rattle.cl_hierarchy.specs.Drafts.{Misread, IsWrong};

    ghost Value = { Misread };

    ghost view = { λ u. record { home = u.home; fault = u.fault } };

    ghost invariant = { λ u. IsWrong u.home u.fault };
}

impl<T: Told> Unreadable<T> {
    /// The home.
    pub fn home(&self) -> &Home<T>
        ensures { result.now ≡ self.now.home }
    {
        &self.home
    }

    /// What is wrong with its bytes.
    pub fn fault(&self) -> DraftFault
        ensures fault { result ≡ self.now.fault }
        ensures wrong { IsWrong self.now.home self.now.fault }
    {
        self.fault
    }

    /// The home, given up.
    pub fn into_home(self) -> Home<T>
        ensures { result ≡ self.home }
    {
        let Unreadable { home, fault: _ } = self;
        home
    }
}

/// Why a home was not read, with the home.
#[derive(Drop)]
pub enum DraftRefused<T: Told> {
    Memory(Home<T>),
    Unreadable(Unreadable<T>),
}

/// The draft of a home whose bytes spell this file of its class.
fn draft_of<T: Told>(
    alloc: Global,
    home: Home<T>,
    file: ClassFile,
) -> Result<Draft<T>, DraftRefused<T>>
    requires told { IsTold T.told home.definer home.name (Some home.bytes) }
    requires file { ByGrammar home.bytes file }
    requires named { (file_of file).name ≡ home.name }
    ensures { ReadAs home result }
{
    let Ok(name) = home.name().try_clone(alloc) else {
        return Err(DraftRefused::Memory(home));
    };
    let Ok(file) = Arc::new(alloc, file) else {
        return Err(DraftRefused::Memory(home));
    };
    let class = Class {
        name,
        loader: home.definer(),
    };
    // brings that the search led here
    let _ = home.config();
    match Arc::new(alloc, home) {
        Ok(home) => Ok(Draft { class, file, home }),
        Err(refused) => Err(DraftRefused::Memory(refused.value)),
    }
}

impl<T: Told> Draft<T> {
    /// The class that a home's bytes spell (JVMS SE 8, 5.3.5).
    #[tactic(auto, unfolding(crate::specs::Drafts::ByGrammar))]
    pub fn read(alloc: Global, home: Home<T>) -> Result<Draft<T>, DraftRefused<T>>
        ensures { ReadAs home result }
    {
        match cl_classfile::read(alloc, home.bytes()) {
            Err(ReadError::Memory) => Err(DraftRefused::Memory(home)),
            Err(ReadError::Fault(fault)) => Err(refuse(home, fault_of(fault))),
            Ok(file) if file.this_name() != home.name() => {
                Err(refuse(home, DraftFault::OtherName))
            }
            Ok(file) => draft_of(alloc, home, file),
        }
    }

    /// The same draft again; what it holds is shared. Only memory refuses it.
    pub fn try_clone(&self, alloc: Global) -> Result<Draft<T>, AllocError>
        ensures { IfOk result (λ d. d ≡ self.now) }
    {
        Ok(Draft {
            class: self.class.try_clone(alloc)?,
            file: Arc::try_clone(&self.file)?,
            home: Arc::try_clone(&self.home)?,
        })
    }

    /// The class.
    pub fn class(&self) -> &Class
        ensures { result.now ≡ self.now.class }
    {
        &self.class
    }

    /// The name of the superclass, if there is one.
    pub fn super_name(&self) -> Option<&Name>
        ensures name { option_map (λ n. n.now) result ≡ (file_of self.now.file).super_name }
        ensures draft { IsDraft T.told self.now }
    {
        self.file.super_name()
    }

    /// A direct supertype, counted from 0: the superclass, where there is one, and then the superinterfaces in order
    /// (JVMS SE 8, 5.3.5, steps 3 and 4).
    pub fn supertype(&self, place: usize) -> Option<Supertype<'_>>
        ensures name { option_map plain_supertype result
            ≡ slice_get (supers (file_of self.now.file)) place }
        ensures few { length (supers (file_of self.now.file)) ≤ 2 ^ 64 }
        ensures draft { IsDraft T.told self.now }
    {
        // brings that a `usize` counts the interfaces
        let _ = count_of(self.file.interfaces());
        supertype_of(&self.file, place)
    }

    /// The place of a direct supertype of the same name and role as the one at a place, which comes first or is that one: where
    /// the file names an interface often, the place at which it does so first, unless it names only a few. So who looks for
    /// each need not look for one again. Constant time.
    pub fn first_of_name(&self, place: usize) -> usize
        ensures before { result ≤ place }
        ensures same { slice_get (supers (file_of self.now.file)) result
            ≡ slice_get (supers (file_of self.now.file)) place }
    {
        first_of_name(&self.file, place)
    }

    /// How many direct supertypes it has.
    pub fn supertypes(&self) -> usize
        ensures { result ≡ length (supers (file_of self.now.file)) }
    {
        supertypes_of(&self.file)
    }

    /// The home that it was read of.
    pub fn home(&self) -> &Arc<Home<T>>
        ensures home { result.now.value ≡ self.now.home }
        ensures draft { IsDraft T.told self.now }
    {
        &self.home
    }

    /// The class's file.
    pub fn file(&self) -> &Arc<ClassFile>
        ensures { result.now.value ≡ self.now.file }
    {
        &self.file
    }
}

/// How many indices there are.
fn count_of(indices: &[u16]) -> usize
    ensures { result ≡ length indices.now }
{
    indices.len()
}

fn refuse<T: Told>(home: Home<T>, fault: DraftFault) -> DraftRefused<T>
    requires { IsWrong home fault }
    ensures { result ≡ DraftRefused.Unreadable (record { home = home; fault = fault }) }
{
    DraftRefused::Unreadable(Unreadable { home, fault })
}

fn fault_of(fault: Fault) -> DraftFault
    ensures { result ≡ fault_as fault }
{
    match fault {
        Fault::Version => DraftFault::Version,
        other => DraftFault::Format(other),
    }
}
