//! A class file's lines: the file's bytes, what they spell, and its listing.

ghost use Rattle.std.specs.Prelude.{◌≡◌, Ok, IfOk, IfErr};
ghost use Rattle.cl_classfile.specs.Reading.{read_of};
ghost use Rattle.cl_streams.specs.Writing.{stream};
ghost use Rattle.cl_program.specs.Readings.{IsFileFault, ReadingOf};

use crate::fault::Fault;
use crate::files::bytes_at;
use cl_classfile::ClassFile;
use cl_source::{MOST_CLASS_BYTES, ReadFile};
use cl_writer::print_listing;
use std::alloc::Global;
use std::io::Write;

/// Prints the lines of the class file at a path. It takes the memory of the file, and of a page of its lines.
pub(crate) fn print_class<F: ReadFile, W: Write>(
    alloc: Global,
    files: &F,
    path: &str,
    out: &mut W,
) -> Result<(), Fault>
    ensures { ReadingOf (F.gives files.now path.now) path.now
        (stream W.contents out.old out.new) result }
{
    let bytes = bytes_at(alloc, files, path, MOST_CLASS_BYTES)?;
    let file = class_file(alloc, bytes.as_slice())?;
    print_listing(alloc, &file, out)?;
    Ok(())
}

/// The class file that bytes spell.
fn class_file(alloc: Global, bytes: &[u8]) -> Result<ClassFile, Fault>
    ensures ok { IfOk result (λ file. read_of bytes.now ≡ Ok file) }
    ensures err { IfErr result (IsFileFault bytes.now) }
{
    match cl_classfile::read(alloc, bytes) {
        Ok(file) => Ok(file),
        Err(error) => Err(Fault::File(error)),
    }
}
