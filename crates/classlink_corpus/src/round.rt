//! The way of a class file through reader, writer, listing and assembler.

ghost use Rattle.std.specs.Prelude.{◌≡◌, Bool, IfOk, Ok, true};
ghost use Rattle.cl_names.specs.Truth.{Decides};
ghost use Rattle.cl_classfile.specs.Reading.{read_of};
ghost use Rattle.cl_classfile.specs.Structure.{Spells};
ghost use Rattle.classlink_corpus.specs.Rounds.{ListsAgain, OutcomeOfBytes};

use cl_classfile::{ClassFile, Fault, ReadError, has_one_spelling, read};
use cl_writer::{AssembleFault, WriteFault, assemble, assembles_to_one_answer, listing, write};
use std::alloc::{AllocError, Global};

/// What became of the bytes of a file.
#[derive(Drop)]
pub enum Outcome {
    Same,
    /// They spell no class file.
    Refused(Fault),
    /// The file is written with other bytes. By proof there is none: a run looks at what was compiled.
    OtherBytes,
    /// Its listing is assembled to a file that lists otherwise, or not at all.
    OtherListing,
}

/// Reads the bytes, writes the file, and assembles its listing. It is refused only where memory runs out.
pub fn round_trip(alloc: Global, bytes: &[u8]) -> Result<Outcome, AllocError>
    ensures { IfOk result (OutcomeOfBytes bytes.now) }
{
    match read(alloc, bytes) {
        Ok(file) => outcome_of(alloc, &file, bytes),
        Err(ReadError::Memory) => Err(AllocError),
        Err(ReadError::Fault(fault)) => Ok(Outcome::Refused(fault)),
    }
}

/// Writes the file that was read from these bytes, and assembles its listing.
fn outcome_of(alloc: Global, file: &ClassFile, bytes: &[u8]) -> Result<Outcome, AllocError>
    requires spelled { Spells bytes.now file.now }
    requires read { read_of bytes.now ≡ Ok file.now }
    ensures { IfOk result (OutcomeOfBytes bytes.now) }
{
    if !is_written_as(alloc, file, bytes)? {
        return Ok(Outcome::OtherBytes);
    }
    Ok(if lists_again(alloc, file)? {
        Outcome::Same
    } else {
        Outcome::OtherListing
    })
}

/// Whether a file is written with these bytes.
fn is_written_as(alloc: Global, file: &ClassFile, bytes: &[u8]) -> Result<bool, AllocError>
    ensures { IfOk result (λ same. Spells bytes.now file.now → same ≡ true) }
{
    has_one_spelling();
    match write(alloc, file) {
        Ok(written) => Ok(written.as_slice() == bytes),
        Err(WriteFault::Memory) => Err(AllocError),
    }
}

/// Whether the listing of a file is assembled to one that lists the same.
fn lists_again(alloc: Global, file: &ClassFile) -> Result<bool, AllocError>
    ensures { IfOk result (λ again. Decides again (ListsAgain file.now)) }
{
    assembles_to_one_answer();
    let text = listing(alloc, file)?;
    let assembled = match assemble(alloc, text.as_str()) {
        Ok(assembled) => assembled,
        Err(AssembleFault::Memory) => return Err(AllocError),
        Err(AssembleFault::BadLine(_)) => return Ok(false),
        Err(AssembleFault::Invalid(_)) => return Ok(false),
    };
    let again = listing(alloc, &assembled)?;
    Ok(is_same(again.as_str(), text.as_str()))
}

fn is_same(text: &str, other: &str) -> bool
    ensures { Decides result (text.now ≡ other.now) }
{
    text == other
}
