//! Writing whole.

ghost use Rattle.std.specs.Prelude.{◌≡◌, ◌<◌, ◌≤◌, [], take, length, string_bytes, OnOk, OnErr, IfOk};
ghost use Rattle.cl_streams.specs.Writing.{PutsBehind, StopsWithin, WritesBytes, WritesPart, paged, stream};

use std::alloc::AllocError;
use std::io::{ErrorKind, Write};
use thiserror::Error;

/// Why bytes were not written whole.
#[derive(Clone, Copy, Debug, PartialEq, Eq, Error)]
pub enum PrintFault {
    /// The writer refused a write, or took nothing of it.
    #[error("cannot write")]
    Write,
    #[error("out of memory")]
    Memory,
}

impl From<AllocError> for PrintFault {
    ghost use Rattle.cl_streams.specs.declared.output.PrintFault.TheVariants.{Memory};

    ghost from_gives = { λ _ e. e ≡ Memory };

    fn from(_error: AllocError) -> PrintFault {
        PrintFault::Memory
    }
}

/// What waits is kept until it has so many bytes, and then written at once.
const PAGE: usize = 8192;

/// Writes what waits, once it is a page or more. So a writer of many lines puts each behind what waits, passes the page
/// and keeps no more than a page and a line. Where the write is refused, a beginning of what waited is written.
pub fn pass_page<W: Write>(out: &mut W, waiting: &mut String) -> Result<(), PrintFault>
    ensures passed { OnOk result (PutsBehind
        (paged W.contents out.old out.new string_bytes waiting.old waiting.new) []) }
    ensures part { OnErr result
        (WritesPart (stream W.contents out.old out.new) (string_bytes waiting.old)) }
{
    if waiting.len() >= PAGE {
        write_out(out, waiting.as_bytes())?;
        waiting.clear();
    }
    Ok(())
}

/// Writes all of the bytes. An interrupted write is tried again; where one is refused otherwise, or takes nothing, no
/// other is tried.
pub fn write_out<W: Write>(out: &mut W, bytes: &[u8]) -> Result<(), PrintFault>
    ensures all { OnOk result (WritesBytes (stream W.contents out.old out.new) bytes.now) }
    ensures part { OnErr result (WritesPart (stream W.contents out.old out.new) bytes.now) }
{
    let mut sent = 0;
    while sent < bytes.len() {
        sent += write_some(out, &bytes[sent..])?;
    }
    Ok(())
}

/// Writes a first part of the bytes, and says how many.
fn write_some<W: Write>(out: &mut W, bytes: &[u8]) -> Result<usize, PrintFault>
    ensures some { IfOk result (λ count. (0 < count) × (count ≤ length bytes.now)) }
    ensures taken { IfOk result (λ count. WritesBytes (stream W.contents out.old out.new)
        (take count bytes.now)) }
    ensures refused { OnErr result (WritesBytes (stream W.contents out.old out.new) []) }
{
    for _ in 0..u64::MAX {
        match out.write(bytes) {
            Ok(count) if count > 0 => return Ok(count),
            Err(error) if error.kind() == ErrorKind::Interrupted => {}
            _ => return Err(PrintFault::Write),
        }
    }
    Err(PrintFault::Write)
}
