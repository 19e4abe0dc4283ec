//! The files that the program's words name.

ghost use Rattle.std.specs.Prelude.{◌<◌, ◌^◌, IfOk, IfErr, string_bytes};
ghost use Rattle.cl_source.specs.Seen.{GivesAtMost};
ghost use Rattle.cl_program.specs.Files.{GivesText, IsUnread, LacksText};

use crate::fault::Fault;
use crate::limits::MOST_INPUT_BYTES;
use cl_source::ReadFile;
use cl_streams::InputFault;
use std::alloc::Global;

/// The bytes of the file at a path, of which there are at most so many.
pub(crate) fn bytes_at<F: ReadFile>(
    alloc: Global,
    files: &F,
    path: &str,
    most: usize,
) -> Result<Vec<u8>, Fault>
    requires { most < 2 ^ 32 }
    ensures ok { IfOk result (λ v. GivesAtMost (F.gives files.now path.now) most v.items) }
    ensures err { IfErr result (IsUnread (F.gives files.now path.now) most path.now) }
{
    match files.read_file(alloc, path, most) {
        Ok(Some(bytes)) => Ok(bytes),
        Ok(None) | Err(InputFault::Unread) => Err(Fault::Path(String::from_str(alloc, path)?)),
        Err(InputFault::TooLarge) => Err(Fault::TooLarge),
        Err(InputFault::Memory) => Err(Fault::Memory),
    }
}

/// The text of the file at a path.
pub(crate) fn text_at<F: ReadFile>(alloc: Global, files: &F, path: &str) -> Result<String, Fault>
    ensures ok { IfOk result (λ t. GivesText (F.gives files.now path.now) (string_bytes t)) }
    ensures err { IfErr result (LacksText (F.gives files.now path.now) path.now) }
{
    let bytes = bytes_at(alloc, files, path, MOST_INPUT_BYTES)?;
    match String::from_utf8(bytes) {
        Ok(text) => Ok(text),
        Err(_) => Err(Fault::NotUtf8),
    }
}
