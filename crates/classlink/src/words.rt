ghost use Rattle.std.specs.Prelude.{◌≡◌, [], ℕ, List, false, IfOk, IfErr, MatchResult, map};
ghost use Rattle.clap.specs.Words.{HasKind, app_of, found_of, kind_of, rule_of, subcommand_of, subcommand_rows_of};
ghost use Rattle.cl_program.specs.Asking.{AsksForBundle, AsksForFile, AsksForRun, Wanted};
ghost use Rattle.cl_program.specs.declared.asked.Options.{Options};
ghost use Rattle.classlink.specs.CommandLine.{AreOptions, AskFor, AskToRead, AskToRun, CommandAsks, IsCommand, HasOptions, answers, bundle, file, program, reading, running, workers, wrong_words};

use cl_pool::MOST_WORKERS;
use cl_program::{Asked, Options, RunWords};
use clap::builder::ValueParser;
use clap::error::ErrorKind;
use clap::{Arg, ArgAction, ArgMatches, Command, Error};
use std::alloc::{AllocError, Global};
use std::convert::AsStr;

/// What `--version` prints behind the program's name.
const VERSION: &str = "0.1.0";

/// The form of a bundle.
const BUNDLE_FORM: &str = "\
A bundle: a line %config and TOML; sections, each a line %class LOADER NAME and
assembler text, or @hex and bytes; a line %script and lines load LOADER NAME,
link LOADER NAME, resolve LOADER NAME INDEX, and then, which begins a round.";

/// Where directories are looked for.
const DIRECTORIES: &str = "\
A class is read from DIR/NAME.class, DIR the dir of its loader. A relative DIR
is taken from the working directory.";

/// Which class files are read.
const VERSION_READ: &str = "\
Class files of versions 45.0 to 52.0 are read, those of Java SE 8. Another
version is told as F2 Version. A version that is not 52.0 is printed.";

fn command<'a>(alloc: Global) -> Result<Command<'a>, AllocError>
    ensures { IfOk result (λ c. app_of c ≡ program) }
{
    let bundle = bundle_command(alloc)?;
    let run = run_command(alloc)?;
    let read = read_command(alloc)?;
    let program = Command::new(alloc, "classlink")
        .version(VERSION)
        .about("Loads and links Java classes (JVMS SE 8, chapter 5)")
        .after_help(BUNDLE_FORM)
        .subcommand_required(true)
        .subcommand(bundle)?;
    program.subcommand(run)?.subcommand(read)
}

fn bundle_command<'a>(alloc: Global) -> Result<Command<'a>, AllocError>
    ensures { IfOk result (IsCommand bundle) }
{
    let bundle = Command::new(alloc, "bundle")
        .about("Runs the script of a bundle that is read from standard input")
        .after_help(BUNDLE_FORM);
    bundle.arg(workers_option(alloc))?.arg(answers_flag(alloc))
}

fn run_command<'a>(alloc: Global) -> Result<Command<'a>, AllocError>
    ensures { IfOk result (IsCommand running) }
{
    let run = Command::new(alloc, "run")
        .about("Runs a script over the directories of a configuration's loaders")
        .after_help(DIRECTORIES);
    let run = run.arg(file(alloc, "CONFIG", "The configuration, in TOML"))?;
    let run = run.arg(file(alloc, "SCRIPT", "The script"))?;
    run.arg(workers_option(alloc))?.arg(answers_flag(alloc))
}

/// The option for the number of workers.
fn workers_option<'a>(alloc: Global) -> Arg<'a>
    ensures rule { rule_of result ≡ workers }
    ensures local { result.global ≡ false }
{
    Arg::new(alloc, "workers")
        .long("workers")
        .value_name("N")
        .value_parser(ValueParser::unsigned(1, MOST_WORKERS as u64))
        .default_value("1")
        .help("How many threads serve, 1 to 64; one serves in order")
}

/// The flag for the answers alone.
fn answers_flag<'a>(alloc: Global) -> Arg<'a>
    ensures rule { rule_of result ≡ answers }
    ensures local { result.global ≡ false }
{
    Arg::new(alloc, "answers")
        .long("answers")
        .action(ArgAction::SetTrue)
        .help("Prints the answers alone, without the history")
}

/// A file that has to stand among the words.
fn file<'a>(alloc: Global, name: &'a str, help: &'a str) -> Arg<'a>
    ensures rule { rule_of result ≡ file name.entry.now }
    ensures local { result.global ≡ false }
{
    Arg::new(alloc, name).required(true).help(help)
}

fn read_command<'a>(alloc: Global) -> Result<Command<'a>, AllocError>
    ensures { IfOk result (IsCommand reading) }
{
    Command::new(alloc, "read")
        .about("Prints a class file's class, interfaces, fields and methods")
        .after_help(VERSION_READ)
        .arg(file(alloc, "FILE", "The class file"))
}

/// Reads the words of a command line, of which the first is the program's name. The error is `clap`'s, for words that
/// it refuses and for those that ask for help.
pub fn read<'a, S: AsStr>(alloc: Global, words: &'a [S]) -> Result<Asked<'a>, Error>
    ensures asked { (o : Options) → AskFor (map S.text words.entry.now) o
        → MatchResult result (AsksForBundle o) (λ e. kind_of e ≡ ErrorKind.OutOfMemory) }
    ensures read { (path : List ℕ) → AskToRead (map S.text words.entry.now) path
        → MatchResult result (AsksForFile path) (λ e. kind_of e ≡ ErrorKind.OutOfMemory) }
    ensures run { (w : Wanted) → AskToRun (map S.text words.entry.now) w
        → MatchResult result (AsksForRun w) (λ e. kind_of e ≡ ErrorKind.OutOfMemory) }
    ensures taken { IfOk result (λ _. wrong_words (map S.text words.entry.now) ≡ []) }
    ensures exact { IfOk result (CommandAsks (subcommand_of program (map S.text words.entry.now))) }
    ensures refused { IfErr result (HasKind (wrong_words (map S.text words.entry.now))) }
{
    let matches = command(alloc)?.try_get_matches_from(words)?;
    Ok(asked_of(&matches))
}

/// What the matches ask for.
fn asked_of<'a>(matches: &ArgMatches<'a>) -> Asked<'a>
    ensures { CommandAsks (subcommand_rows_of matches.now) result }
{
    match matches.subcommand_matches("read") {
        Some(read) => Asked::Read {
            path: read.get_str("FILE").unwrap_or(""),
        },
        None => match matches.subcommand_matches("run") {
            Some(run) => Asked::Run(RunWords {
                config: run.get_str("CONFIG").unwrap_or(""),
                script: run.get_str("SCRIPT").unwrap_or(""),
                options: options_of(run),
            }),
            None => Asked::Bundle(bundle_options(matches)),
        },
    }
}

/// The options of a bundle's report.
fn bundle_options(matches: &ArgMatches<'_>) -> Options
    ensures { HasOptions (subcommand_rows_of matches.now) result }
{
    match matches.subcommand() {
        Some((_, bundle)) => options_of(bundle),
        None => Options {
            workers: 1,
            answers: false,
        },
    }
}

/// The options among the matches of a subcommand.
fn options_of(matches: &ArgMatches<'_>) -> Options
    ensures { AreOptions (found_of matches.now) result }
{
    Options {
        workers: matches.get_one::<u32>("workers").unwrap_or(1),
        answers: matches.get_flag("answers"),
    }
}
