//! A script, run under a configuration over the directories of its loaders.

ghost use Rattle.std.specs.Prelude.{None, IfOk, IfErr, length, IsOkUnless};
ghost use Rattle.cl_config.specs.Scripts.{HasLoaders};
ghost use Rattle.cl_registry.specs.Reports.{IsNamed};
ghost use Rattle.cl_program.specs.Asking.{wanted_of};
ghost use Rattle.cl_streams.specs.Writing.{stream};
ghost use Rattle.cl_program.specs.ScriptRuns.{IsConfigAt, IsRunOf, IsScriptAt, IsServedOver, IsUnservedOver, LacksConfig, LacksScript, ScriptRunOf};

use crate::asked::RunWords;
use crate::fault::Fault;
use crate::files::text_at;
use crate::input::draw_seed;
use crate::threads::serve_by_threads;
use cl_config::{Config, Script};
use cl_model::Untold;
use cl_names::Seed;
use cl_registry::Report;
use cl_report::print_report;
use cl_schedule::serve_one;
use cl_source::{DirSource, ReadFile, Source, SourceFault};
use std::alloc::Global;
use std::io::Write;
use std::random::RandomSource;
use std::sync::{Arc, Wait};
use std::thread::Threads;

/// Opens the directories of a configuration's loaders, as a source that may go to a thread.
pub trait OpenDirectories {
    type Opened: Source<Untold> + Send;

    /// The source of these directories. Only memory refuses it.
    fn open(&self, alloc: Global, config: &Config) -> Result<Self::Opened, SourceFault>
        ensures { IsOkUnless result SourceFault.Memory };
}

impl OpenDirectories for HostRuntime {
    type Opened = DirSource<HostRuntime>;

    fn open(&self, alloc: Global, config: &Config) -> Result<DirSource<HostRuntime>, SourceFault> {
        DirSource::new(alloc, ReadFile::another(self, alloc)?, config)
    }
}

/// Draws a seed, and runs a script with it. Where none is to be had, that is told as a read of the configuration that
/// failed.
pub(crate) fn report_script<
    R: OpenDirectories + RandomSource + Threads + Wait + Sync,
    F: ReadFile,
    W: Write,
>(alloc: Global, rt: &R, files: &F, words: RunWords<'_>, out: &mut W) -> Result<(), Fault>
    ensures { IsRunOf (F.gives files.now) (wanted_of words.entry)
        (stream W.contents out.old out.new) result }
{
    let Some(seed) = draw_seed(rt) else {
        return Err(Fault::Path(String::from_str(alloc, words.config)?));
    };
    report_with_seed(alloc, rt, files, seed, words, out)
}

/// Reads a configuration and then a script, serves the script over the loaders' directories and prints the report. A
/// relative directory is taken from the working directory.
fn report_with_seed<R: OpenDirectories + Threads + Wait + Sync, F: ReadFile, W: Write>(
    alloc: Global,
    rt: &R,
    files: &F,
    seed: Seed,
    words: RunWords<'_>,
    out: &mut W,
) -> Result<(), Fault>
    ensures { ScriptRunOf (F.gives files.now) (wanted_of words.entry)
        (stream W.contents out.old out.new) result }
{
    let config = config_at(alloc, files, words.config)?.with_seed(seed);
    let script = script_at(alloc, files, &config, words.script)?;
    let config = Arc::new(alloc, config)?;
    let script = Arc::new(alloc, script)?;
    let loaders = Arc::try_clone(&config)?;
    let report = serve(alloc, rt, config, script, words.options.workers)?;
    let names = loaders.names();
    print_report(alloc, &report, names, words.options.answers, out)?;
    Ok(())
}

/// The configuration at a path.
fn config_at<F: ReadFile>(alloc: Global, files: &F, path: &str) -> Result<Config, Fault>
    ensures ok { IfOk result (λ c. IsConfigAt (F.gives files.now path.now) (Ok c)) }
    ensures err { IfErr result (LacksConfig (F.gives files.now path.now) path.now) }
{
    let text = text_at(alloc, files, path)?;
    let config = Config::read(alloc, text.as_str())?;
    Ok(config)
}

/// The script at a path, under a configuration.
fn script_at<F: ReadFile>(
    alloc: Global,
    files: &F,
    config: &Config,
    path: &str,
) -> Result<Script, Fault>
    ensures ok { IfOk result (λ s. IsScriptAt (F.gives files.now path.now) config.now (Ok s)) }
    ensures loaders { IfOk result (λ s. HasLoaders (length config.now.loaders) s.requests) }
    ensures err { IfErr result (LacksScript (F.gives files.now path.now) config.now path.now) }
{
    let text = text_at(alloc, files, path)?;
    let script = Script::read(alloc, config, text.as_str())?;
    Ok(script)
}

/// Serves a script by so many workers over the directories that a configuration has for its loaders.
fn serve<R: OpenDirectories + Threads + Wait + Sync>(
    alloc: Global,
    rt: &R,
    config: Arc<Config>,
    script: Arc<Script>,
    workers: u32,
) -> Result<Report, Fault>
    requires { HasLoaders (length config.value.loaders) script.value.requests }
    ensures served { IfOk result (IsServedOver workers config.value script.value) }
    ensures named { IfOk result (IsNamed (length config.value.loaders)) }
    ensures unserved { IfErr result (IsUnservedOver workers) }
{
    let Ok(source) = rt.open(alloc, &config) else {
        return Err(Fault::Memory);
    };
    serve_over(alloc, rt, config, source, script, workers)
}

/// Serves a script by so many workers over a source.
fn serve_over<S: Source<Untold> + Send, R: Threads + Wait + Sync>(
    alloc: Global,
    rt: &R,
    config: Arc<Config>,
    source: S,
    script: Arc<Script>,
    workers: u32,
) -> Result<Report, Fault>
    requires { HasLoaders (length config.value.loaders) script.value.requests }
    ensures served { IfOk result (IsServedOver workers config.value script.value) }
    ensures named { IfOk result (IsNamed (length config.value.loaders)) }
    ensures unserved { IfErr result (IsUnservedOver workers) }
{
    if workers == 1 {
        let mut source = source;
        return Ok(serve_one::<Untold, S>(alloc, config, &mut source, script)?);
    }
    Ok(serve_by_threads::<Untold, S, R>(rt, alloc, config, source, script, workers)?)
}
