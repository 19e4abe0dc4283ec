//! What has files, and gives their bytes.

ghost use Rattle.std.specs.Prelude.{◌<◌, ◌^◌, ℕ, List, IfOk, ⊤};
ghost use Rattle.cl_source.specs.Seen.{Seen, FileOf, file_seen};

use cl_streams::{InputFault, read_bytes, read_limited};
use std::alloc::{AllocError, Global};
use std::fs;
use std::io::{self, ErrorKind};

/// What has files, and gives their bytes.
pub trait ReadFile: Drop {
    /// What may stand at a path. What a host's files are is not known.
    ghost gives: { Self → List ℕ → Seen → Type 0 } = { λ _ _ _. ⊤ };

    /// The bytes of the file at a path, of which there are at most so many, or none where no file is there. Regular
    /// files alone are read, through links too, and nothing else is opened.
    fn read_file(
        &self,
        alloc: Global,
        path: &str,
        most: usize,
    ) -> Result<Option<Vec<u8>>, InputFault>
        requires { most < 2 ^ 32 }
        ensures { FileOf (gives self.now path.now) most (file_seen result) };

    /// The same files.
    fn another(&self, alloc: Global) -> Result<Self, AllocError>
    where
        Self: Sized,
        ensures { IfOk result (λ f. (path : List ℕ) (seen : Seen) → gives f path seen
            → gives self.now path seen) };
}

impl ReadFile for HostRuntime {
    /// A look at the path comes first, so that a pipe or a device is not waited for, and so that the buffer starts at
    /// the file's length; of a path where nothing is that look is all.
    fn read_file(
        &self,
        alloc: Global,
        path: &str,
        most: usize,
    ) -> Result<Option<Vec<u8>>, InputFault> {
        let length = match fs::metadata(self, path) {
            Ok(place) if place.is_file() => place.len(),
            Ok(_) => return Err(InputFault::Unread),
            Err(error) => return answer_of(&error),
        };
        match fs::open(self, path) {
            Ok(file) => match read_limited(alloc, file, most, length) {
                Ok(bytes) => Ok(Some(bytes)),
                Err(fault) => Err(fault),
            },
            Err(error) => answer_of(&error),
        }
    }

    fn another(&self, _alloc: Global) -> Result<HostRuntime, AllocError> {
        self.clone()
    }
}

/// A host's files, as the words of a program name them: whatever the system opens at a path, a pipe too, which the host
/// as a source of classes leaves alone.
#[derive(Drop)]
pub struct NamedFiles<'a> {
    pub host: &'a HostRuntime,
}

impl ReadFile for NamedFiles<'_> {
    fn read_file(
        &self,
        alloc: Global,
        path: &str,
        most: usize,
    ) -> Result<Option<Vec<u8>>, InputFault> {
        match fs::open(self.host, path) {
            Ok(mut file) => Ok(Some(read_bytes(alloc, &mut file, most)?)),
            Err(error) => answer_of(&error),
        }
    }

    fn another(&self, _alloc: Global) -> Result<Self, AllocError> {
        Ok(NamedFiles { host: self.host })
    }
}

/// What a path that cannot be opened says: that no file is there, where it or a folder on the way is missing or a part
/// of the way is a file; else that the system refuses it.
fn answer_of(error: &io::Error) -> Result<Option<Vec<u8>>, InputFault>
    ensures { (most : ℕ) → FileOf (λ _. ⊤) most (file_seen result) }
{
    match error.kind() {
        ErrorKind::NotFound | ErrorKind::NotADirectory => Ok(None),
        ErrorKind::OutOfMemory => Err(InputFault::Memory),
        _ => Err(InputFault::Unread),
    }
}
