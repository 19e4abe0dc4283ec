ghost use Rattle.std.specs.Prelude.{ℕ, List};
ghost use Rattle.cl_program.specs.declared.asked.Options.{Options};
ghost use Rattle.cl_program.specs.Asking.{AsksForBundle, AsksForFile, AsksForRun, Wanted, wanted_of};
ghost use Rattle.cl_program.specs.Outputs.{outputs};
ghost use Rattle.cl_program.specs.Readings.{IsReading};
ghost use Rattle.cl_program.specs.Runs.{IsRun};
ghost use Rattle.cl_program.specs.ScriptRuns.{IsScriptRun};

use crate::asked::{Asked, Options, RunWords};
use crate::bundles::report_with_seed;
use crate::directories::{OpenDirectories, report_script};
use crate::ending::fail;
use crate::reading::print_class;
use cl_source::ReadFile;
use std::alloc::Global;
use std::io::{Read, Write};
use std::random::RandomSource;
use std::sync::Wait;
use std::thread::Threads;

/// Runs what is asked for. The files of the words are read of `files`, those of directories of what `rt` opens. The answer
/// is the exit status: 0, or 1 for a fault, whose line is written to `err`.
pub fn run_asked<
    R: OpenDirectories + RandomSource + Threads + Wait + Sync,
    F: ReadFile,
    I: Read + Drop,
    W: Write,
    E: Write,
>(alloc: Global, rt: &R, files: &F, asked: Asked<'_>, input: I, out: &mut W, err: &mut E) -> u8
    ensures bundle { (o : Options) → AsksForBundle o asked.entry
        → IsRun (I.remaining input) o
        (outputs W.contents out.old out.new E.contents err.old err.new) result }
    ensures run { (w : Wanted) → AsksForRun w asked.entry
        → IsScriptRun (F.gives files.now) w
        (outputs W.contents out.old out.new E.contents err.old err.new) result }
    ensures read { (path : List ℕ) → AsksForFile path asked.entry
        → IsReading (F.gives files.now path) path
        (outputs W.contents out.old out.new E.contents err.old err.new) result }
{
    match asked {
        Asked::Bundle(options) => run_bundle(alloc, rt, options, input, out, err),
        Asked::Run(words) => run_script(alloc, rt, files, words, out, err),
        Asked::Read { path } => run_read(alloc, files, path, out, err),
    }
}

/// Runs a bundle, and tells of the fault that ended it.
fn run_bundle<R: RandomSource + Threads + Wait + Sync, I: Read + Drop, W: Write, E: Write>(
    alloc: Global,
    rt: &R,
    options: Options,
    input: I,
    out: &mut W,
    err: &mut E,
) -> u8
    ensures { IsRun (I.remaining input) options
        (outputs W.contents out.old out.new E.contents err.old err.new) result }
{
    match report_with_seed(alloc, rt, options, input, out) {
        Ok(()) => 0,
        Err(fault) => fail(alloc, &fault, err),
    }
}

/// Runs a script over directories, and tells of the fault that ended it.
fn run_script<
    R: OpenDirectories + RandomSource + Threads + Wait + Sync,
    F: ReadFile,
    W: Write,
    E: Write,
>(alloc: Global, rt: &R, files: &F, words: RunWords<'_>, out: &mut W, err: &mut E) -> u8
    ensures { IsScriptRun (F.gives files.now) (wanted_of words.entry)
        (outputs W.contents out.old out.new E.contents err.old err.new) result }
{
    match report_script(alloc, rt, files, words, out) {
        Ok(()) => 0,
        Err(fault) => fail(alloc, &fault, err),
    }
}

/// Prints the lines of the class file at a path, and tells of the fault that ended it.
fn run_read<F: ReadFile, W: Write, E: Write>(
    alloc: Global,
    files: &F,
    path: &str,
    out: &mut W,
    err: &mut E,
) -> u8
    ensures { IsReading (F.gives files.now path.now) path.now
        (outputs W.contents out.old out.new E.contents err.old err.new) result }
{
    match print_class(alloc, files, path, out) {
        Ok(()) => 0,
        Err(fault) => fail(alloc, &fault, err),
    }
}
