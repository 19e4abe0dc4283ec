//! A source of class files in directories.

ghost use Rattle.std.specs.Prelude.{◌≡◌, ◌<◌, ◌+◌, ◌^◌, ℕ, List, map, slice_get, IfOk, IsOkUnless, IsErrOf, string_bytes};
ghost use Rattle.std.specs.Option.{option_map};
ghost use Rattle.cl_source.specs.Counts.{Counts};
ghost use Rattle.cl_source.specs.Directories.{file_path, path_in, AnswerOf, ReadsAs};
ghost use Rattle.cl_source.specs.Seen.{Seen};

use crate::files::ReadFile;
use crate::size::MOST_CLASS_BYTES;
use crate::source::{ClassBytes, Outcome, Probe, Source, SourceFault};
use cl_model::{Directories, LoaderId, Untold};
use cl_names::Name;
use cl_streams::InputFault;
use std::alloc::{AllocError, Global};
use std::sync::Arc;

/// A directory for each loader, in order, which holds the class of a name as `NAME.class`, the name's parts as folders
/// (JVMS SE 8, 5.3.2). It tells no content, since what a host's files are is not known.
///
/// A class's name leads out of no directory (the law `class_names_stay_within`): its parts are unqualified names (JVMS SE 8,
/// 4.2.2), so none is empty, and none has a dot, so none is `.` or `..`.
pub struct DirSource<F: ReadFile> {
    pub files: F,
    pub dirs: Vec<String>,
    failures: u64,
}

impl<F: ReadFile> Drop for DirSource<F> {
    fn drop(self) {
        let DirSource {
            files: _,
            dirs: _,
            failures: _,
        } = self;
    }
}

impl<F: ReadFile> DirSource<F> {
    /// The directories that a configuration has for its loaders, in order, of these files. Only memory refuses it.
    pub fn new<D: Directories>(
        alloc: Global,
        files: F,
        config: &D,
    ) -> Result<DirSource<F>, SourceFault>
        ensures fault { IsOkUnless result SourceFault.Memory }
        ensures files { IfOk result (λ s. s.files ≡ files) }
        ensures dirs { IfOk result (λ s. map string_bytes s.dirs.items ≡ D.texts config.now) }
        ensures own { IfOk result (λ s. s.failures ≡ 0) }
    {
        Ok(DirSource::over(files, config.directories(alloc)?))
    }

    /// These directories of these files, one for each loader, in order. An empty one is the working directory.
    pub fn over(files: F, dirs: Vec<String>) -> DirSource<F>
        ensures { result ≡ record { files = files; dirs = dirs; failures = 0 } }
    {
        DirSource {
            files,
            dirs,
            failures: 0,
        }
    }

    /// What a loader's directory has for a name.
    fn look(&self, alloc: Global, loader: LoaderId, name: &Name) -> Result<Outcome, SourceFault>
        ensures { AnswerOf (F.gives self.now.files)
            (path_in (slice_get (map string_bytes self.now.dirs.items) loader) name.now) result }
    {
        match self.dirs.get(usize::from(loader.0)) {
            Some(dir) => look_in(alloc, &self.files, dir.as_str(), name),
            None => Ok(Outcome::Absent),
        }
    }
}

impl<F: ReadFile> Source<Untold> for DirSource<F> {
    ghost refused = { λ s. s.failures };

    ghost gives = { λ s loader name result. (s.failures + 1 < 2 ^ 64)
        → ReadsAs (F.gives s.files)
        (path_in (slice_get (map string_bytes s.dirs.items) loader) name) result };

    /// What the loader's directory has for the name: `Absent` where there is no such file, or the name has no text in
    /// UTF-8, or the loader no directory; `TooLarge` over `MOST_CLASS_BYTES`; `Device` where the system refuses the file,
    /// or something else stands there.
    fn read(
        &mut self,
        alloc: Global,
        loader: LoaderId,
        name: &Name,
    ) -> Result<Probe<Untold>, SourceFault>
        ensures asked { IfOk result (λ p. (p.loader ≡ loader) × (p.name ≡ name.now)) }
        ensures counts { Counts self.old.failures self.new.failures result }
        ensures spent { self.old.failures + 1 ≡ 2 ^ 64 → IsErrOf result SourceFault.Device }
        ensures answer { self.old.failures + 1 < 2 ^ 64
            → ReadsAs (F.gives self.old.files)
            (path_in (slice_get (map string_bytes self.old.dirs.items) loader) name.now) result }
        ensures unchanged { (self.new.files ≡ self.old.files) × (self.new.dirs ≡ self.old.dirs) }
    {
        if self.failures == u64::MAX {
            return Err(SourceFault::Device);
        }
        match self.look(alloc, loader, name) {
            Ok(outcome) => Ok(Probe::new(loader, name.try_clone(alloc)?, outcome)),
            Err(fault) => {
                if let SourceFault::Device | SourceFault::TooLarge = fault {
                    self.failures += 1;
                }
                Err(fault)
            }
        }
    }

    fn failures(&self) -> u64 {
        self.failures
    }

    fn another(&self, alloc: Global) -> Result<Self, SourceFault>
        ensures fault { IsOkUnless result SourceFault.Memory }
        ensures own { IfOk result (λ s. s.failures ≡ 0) }
        ensures same { IfOk result (λ s. map string_bytes s.dirs.items
            ≡ map string_bytes self.now.dirs.items) }
        ensures files { IfOk result (λ s. (path : List ℕ) (seen : Seen)
            → F.gives s.files path seen → F.gives self.now.files path seen) }
    {
        Ok(DirSource {
            files: self.files.another(alloc)?,
            dirs: copies(alloc, self.dirs.as_slice())?,
            failures: 0,
        })
    }
}

/// Copies of texts.
fn copies(alloc: Global, texts: &[String]) -> Result<Vec<String>, AllocError>
    ensures { IfOk result (λ v. map string_bytes v.items ≡ map string_bytes texts.now) }
{
    let mut copies = Vec::with_capacity(alloc, texts.len())?;
    for text in texts {
        copies.push(String::from_str(alloc, text.as_str())?)?;
    }
    Ok(copies)
}

/// The path of a class's file in a directory, if its name has one.
fn file_path(alloc: Global, dir: &str, name: &Name) -> Result<Option<String>, AllocError>
    ensures { IfOk result (λ o. option_map string_bytes o ≡ file_path dir.now name.now) }
{
    let Some(text) = name.plain(alloc)? else {
        return Ok(None);
    };
    let mut path = String::from_str(alloc, dir)?;
    if !dir.is_empty() {
        path.push_str("/")?;
    }
    path.push_str(text.as_str())?;
    path.push_str(".class")?;
    Ok(Some(path))
}

/// What files have for a name, in a directory.
fn look_in<F: ReadFile>(
    alloc: Global,
    files: &F,
    dir: &str,
    name: &Name,
) -> Result<Outcome, SourceFault>
    ensures { AnswerOf (F.gives files.now) (file_path dir.now name.now) result }
{
    let Some(path) = file_path(alloc, dir, name)? else {
        return Ok(Outcome::Absent);
    };
    match files.read_file(alloc, path.as_str(), MOST_CLASS_BYTES) {
        Ok(Some(bytes)) => match Arc::new(alloc, ClassBytes::from(bytes)) {
            Ok(bytes) => Ok(Outcome::Found(bytes)),
            Err(_) => Err(SourceFault::Memory),
        },
        Ok(None) => Ok(Outcome::Absent),
        Err(InputFault::TooLarge) => Err(SourceFault::TooLarge),
        Err(InputFault::Unread) => Err(SourceFault::Device),
        Err(InputFault::Memory) => Err(SourceFault::Memory),
    }
}
