ghost use Rattle.std.specs.Prelude.{◌≡◌, [], ℕ, List, map};
ghost use Rattle.clap.specs.Words.{kind_of, subcommand_of};
ghost use Rattle.cl_program.specs.Asking.{Wanted};
ghost use Rattle.cl_program.specs.Outputs.{outputs};
ghost use Rattle.cl_streams.specs.Writing.{stream};
ghost use Rattle.cl_program.specs.Readings.{IsReading};
ghost use Rattle.cl_program.specs.Runs.{IsRun};
ghost use Rattle.cl_program.specs.ScriptRuns.{IsScriptRun};
ghost use Rattle.cl_program.specs.declared.asked.Options.{Options};
ghost use Rattle.classlink.specs.CommandLine.{AskFor, AskToRead, AskToRun, program, wrong_words};
ghost use Rattle.classlink.specs.Endings.{EndsFor, OutputGrows, HelpOf, IsTaken, IsTurnedDown};

use crate::words;
use cl_program::{Fault, OpenDirectories, fail, run_asked};
use cl_source::ReadFile;
use cl_streams::write_out;
use clap::error::ErrorKind;
use std::alloc::Global;
use std::convert::AsStr;
use std::io::{Read, Write};
use std::random::RandomSource;
use std::sync::Wait;
use std::thread::Threads;

/// Runs the program: its words, of which the first is its name, its input and its two outputs. The files of the words
/// are read of `files`, those of directories of `rt`. The answer is the exit status: 0; 1 for a fault, whose text is
/// written to `err`; 2 for words that are refused, with their text on `err`; 0 for help, on `out`, or 1 where that was refused.
pub fn run_over<
    R: AllocGlobal + OpenDirectories + RandomSource + Threads + Wait + Sync,
    F: ReadFile,
    S: AsStr,
    I: Read + Drop,
    W: Write,
    E: Write,
>(rt: &R, files: &F, words: &[S], input: I, out: &mut W, err: &mut E) -> u8
    ensures bundle { (o : Options) → AskFor (map S.text words.now) o
        → IsRun (I.remaining input) o
        (outputs W.contents out.old out.new E.contents err.old err.new) result }
    ensures run { (w : Wanted) → AskToRun (map S.text words.now) w
        → IsScriptRun (F.gives files.now) w
        (outputs W.contents out.old out.new E.contents err.old err.new) result }
    ensures read { (path : List ℕ) → AskToRead (map S.text words.now) path
        → IsReading (F.gives files.now path) path
        (outputs W.contents out.old out.new E.contents err.old err.new) result }
    ensures taken { wrong_words (map S.text words.now) ≡ []
        → IsTaken (subcommand_of program (map S.text words.now)) (I.remaining input)
        (F.gives files.now)
        (outputs W.contents out.old out.new E.contents err.old err.new) result }
    ensures other { (wrong_words (map S.text words.now) ≡ [] → ⊥)
        → IsTurnedDown (wrong_words (map S.text words.now))
        (outputs W.contents out.old out.new E.contents err.old err.new) result }
{
    let alloc = rt.alloc();
    match words::read(alloc, words) {
        Ok(asked) => run_asked(alloc, rt, files, asked, input, out, err),
        Err(error) => turn_down(alloc, &error, out, err),
    }
}

/// Writes the text of words that ask for no run to where it belongs.
fn turn_down<W: Write, E: Write>(alloc: Global, error: &clap::Error, out: &mut W, err: &mut E) -> u8
    ensures { EndsFor (kind_of error.now)
        (outputs W.contents out.old out.new E.contents err.old err.new) result }
{
    match error.kind() {
        ErrorKind::OutOfMemory => fail(alloc, &Fault::Memory, err),
        ErrorKind::DisplayHelp | ErrorKind::DisplayVersion => match print_help(alloc, error, out) {
            Ok(()) => 0,
            Err(fault) => fail(alloc, &fault, err),
        },
        _ => {
            let _ = write!(err, "{error}");
            2
        }
    }
}

/// Writes the text of help.
fn print_help<W: Write>(alloc: Global, help: &clap::Error, out: &mut W) -> Result<(), Fault>
    ensures faults { HelpOf result }
    ensures grown { OutputGrows (stream W.contents out.old out.new) }
{
    let text = format!(in alloc; "{help}")?;
    write_out(out, text.as_bytes())?;
    Ok(())
}
