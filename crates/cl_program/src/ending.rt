//! How a run ends by a fault.

ghost use Rattle.std.specs.Prelude.{◌≡◌, ◌⊎◌};
ghost use Rattle.cl_program.specs.Outputs.{TellsFault};
ghost use Rattle.cl_streams.specs.Writing.{stream};

use crate::fault::Fault;
use cl_streams::write_out;
use std::alloc::Global;
use std::io::Write;

/// Writes the line for words that are no text, and answers the exit status for words that are refused.
pub fn refuse_words<E: Write>(alloc: Global, err: &mut E) -> u8
    ensures status { result ≡ 2 }
    ensures told { TellsFault (stream E.contents err.old err.new) Fault.Words
        ⊎ TellsFault (stream E.contents err.old err.new) Fault.Memory }
{
    let _ = fail(alloc, &Fault::Words, err);
    2
}

/// Writes the line of a fault, and answers its exit status. Where memory runs out for it, that is what is told.
pub fn fail<E: Write>(alloc: Global, fault: &Fault, err: &mut E) -> u8
    ensures status { result ≡ 1 }
    ensures told { TellsFault (stream E.contents err.old err.new) fault.now
        ⊎ TellsFault (stream E.contents err.old err.new) Fault.Memory }
{
    let _ = match format!(in alloc; "classlink: {fault}\n") {
        Ok(line) => write_out(err, line.as_bytes()),
        Err(_) => write_out(err, b"classlink: out of memory\n"),
    };
    1
}
