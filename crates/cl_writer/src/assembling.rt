//! Class files from assembler text.

ghost use Rattle.std.specs.Prelude.{◌≡◌};
ghost use Rattle.cl_lines.specs.Lines.{stated_lines};
ghost use Rattle.cl_classfile.specs.Versions.{is_supported};
ghost use Rattle.cl_writer.specs.Assembled.{AssembleOf};

use crate::assembly::read_lines;
use crate::fault::AssembleFault;
use crate::items::items_of;
use crate::making::parts_of;
use cl_classfile::{ClassFile, Fault, MOST_ENTRIES, ReadError, Version};
use cl_names::Seed;
use std::alloc::Global;

/// The file that assembler text describes. The errors come in this order: `BadLine` of the first line that is none of
/// the assembler's, or that says a second version, and 0 where all are skipped; `Invalid`, with the first fault that
/// `ClassFile::from_parts` finds in what the lines describe, which is F2 where they say a version that is not read, and
/// F5 of 0 where they ask for over `MOST_ENTRIES` entries. `Memory`.
///
/// The text is one that no stranger wrote: entries are found in a table whose seed everyone knows.
pub fn assemble(alloc: Global, text: &str) -> Result<ClassFile, AssembleFault>
    ensures { AssembleOf (stated_lines text.now) result }
{
    assemble_with_hasher(alloc, Seed::common(), text)
}

/// The same, with a table of entries that hashes with this seed. No answer depends on it.
pub fn assemble_with_hasher(
    alloc: Global,
    seed: Seed,
    text: &str,
) -> Result<ClassFile, AssembleFault>
    ensures { AssembleOf (stated_lines text.now) result }
{
    let assembly = read_lines(alloc, text)?;
    // The fault of a version comes before that of too many entries.
    if !is_supported(assembly.version()) {
        return Err(AssembleFault::Invalid(Fault::Version));
    }
    let items = items_of(alloc, seed, &assembly)?;
    if items.as_slice().len() > MOST_ENTRIES {
        return Err(AssembleFault::Invalid(Fault::BadPool(0)));
    }
    let parts = parts_of(alloc, &items, &assembly)?;
    match ClassFile::from_parts(alloc, parts) {
        Ok(file) => Ok(file),
        Err(refused) => match refused.error {
            ReadError::Memory => Err(AssembleFault::Memory),
            ReadError::Fault(fault) => Err(AssembleFault::Invalid(fault)),
        },
    }
}

/// Whether a class file may have the version: 45.0 to 52.0, below 52 with every minor number (JVMS SE 8, 4.1).
fn is_supported(version: Version) -> bool
    ensures { result ≡ is_supported version }
{
    45 <= version.major && version.major <= 51 || version.major == 52 && version.minor == 0
}
