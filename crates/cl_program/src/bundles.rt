//! The report of a bundle.

ghost use Rattle.std.specs.Prelude.{IfOk, IfErr, Some, length, IsOkUnless};
ghost use Rattle.cl_config.specs.Scripts.{HasLoaders};
ghost use Rattle.cl_model.specs.Content.{TellsContent};
ghost use Rattle.cl_registry.specs.Reports.{IsNamed};
ghost use Rattle.cl_streams.specs.Writing.{stream};
ghost use Rattle.cl_program.specs.Runs.{IsServedBy, RunOf};
ghost use Rattle.cl_program.specs.Serving.{IsServedAlone, IsUnserved};

use crate::asked::Options;
use crate::fault::Fault;
use crate::input::{draw_seed, read_text};
use crate::threads::serve_by_threads;
use cl_bundle::Bundle;
use cl_config::{Config, Script};
use cl_model::Told;
use cl_names::Seed;
use cl_registry::Report;
use cl_report::print_report;
use cl_schedule::{ServeFault, serve_one};
use cl_source::MemorySource;
use std::alloc::Global;
use std::io::{Read, Write};
use std::marker::Brand;
use std::random::RandomSource;
use std::sync::{Arc, Wait};
use std::thread::Threads;

/// Draws a seed, and reads, serves and reports a bundle with it. Where none is to be had, that is a read that failed.
pub(crate) fn report_with_seed<R: RandomSource + Threads + Wait + Sync, I: Read + Drop, W: Write>(
    alloc: Global,
    rt: &R,
    options: Options,
    input: I,
    out: &mut W,
) -> Result<(), Fault>
    ensures { RunOf (I.remaining input) options (stream W.contents out.old out.new) result }
{
    let Some(seed) = draw_seed(rt) else {
        return Err(Fault::Input);
    };
    report_bundle(alloc, rt, seed, options, input, out)
}

/// Reads a bundle, serves its script and prints the report.
fn report_bundle<R: Threads + Wait + Sync, I: Read + Drop, W: Write>(
    alloc: Global,
    rt: &R,
    seed: Seed,
    options: Options,
    input: I,
    out: &mut W,
) -> Result<(), Fault>
    ensures { RunOf (I.remaining input) options (stream W.contents out.old out.new) result }
{
    let text = read_text(alloc, input)?;
    let Bundle {
        config,
        source,
        script,
    } = cl_bundle::read(alloc, seed, text.as_str())?;
    let config = Arc::new(alloc, config)?;
    let script = Arc::new(alloc, script)?;
    let loaders = Arc::try_clone(&config)?;
    let report = serve(alloc, rt, config, source, script, options.workers)?;
    let names = loaders.names();
    print_report(alloc, &report, names, options.answers, out)?;
    Ok(())
}

/// Serves a script by so many workers over what was put into a source.
fn serve<R: Threads + Wait + Sync>(
    alloc: Global,
    rt: &R,
    config: Arc<Config>,
    source: MemorySource,
    script: Arc<Script>,
    workers: u32,
) -> Result<Report, Fault>
    requires { HasLoaders (length config.value.loaders) script.value.requests }
    ensures served { IfOk result (IsServedBy workers (Some source) config.value script.value) }
    ensures named { IfOk result (IsNamed (length config.value.loaders)) }
    ensures unserved { IfErr result (IsUnserved workers) }
{
    serve_told::<Brand, R>(alloc, rt, config, source, script, workers)
}

fn serve_told<T: Told + Send + Sync, R: Threads + Wait + Sync>(
    alloc: Global,
    rt: &R,
    config: Arc<Config>,
    source: MemorySource,
    script: Arc<Script>,
    workers: u32,
) -> Result<Report, Fault>
    requires tells { TellsContent T.told source }
    requires loaders { HasLoaders (length config.value.loaders) script.value.requests }
    ensures served { IfOk result (IsServedBy workers T.told config.value script.value) }
    ensures named { IfOk result (IsNamed (length config.value.loaders)) }
    ensures unserved { IfErr result (IsUnserved workers) }
{
    if workers == 1 {
        return Ok(serve_alone::<T>(alloc, config, source, script)?);
    }
    let source = source.tell::<T>();
    Ok(serve_by_threads::<T, _, R>(rt, alloc, config, source, script, workers)?)
}

/// Serves a script in its order over what was put into a source.
fn serve_alone<T: Told>(
    alloc: Global,
    config: Arc<Config>,
    source: MemorySource,
    script: Arc<Script>,
) -> Result<Report, ServeFault>
    requires tells { TellsContent T.told source }
    requires loaders { HasLoaders (length config.value.loaders) script.value.requests }
    ensures served { IfOk result (IsServedAlone T.told config.value script.value) }
    ensures no_stray { IsOkUnless result ServeFault.Memory }
{
    let mut source = source.tell::<T>();
    serve_one::<T, _>(alloc, config, &mut source, script)
}
