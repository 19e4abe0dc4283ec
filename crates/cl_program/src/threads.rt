//! Scripts that several workers serve.

ghost use Rattle.std.specs.Prelude.{IfOk, IfErr, OnOk, length};
ghost use Rattle.cl_config.specs.Scripts.{HasLoaders};
ghost use Rattle.cl_schedule.specs.Headline.{IsServed};
ghost use Rattle.cl_pool.specs.Served.{WorkersMayServe};
ghost use Rattle.cl_program.specs.Serving.{FailsBy};

use crate::fault::ThreadFault;
use cl_config::{Config, Script};
use cl_model::Told;
use cl_pool::{OpenGate, serve_with_rows};
use cl_registry::Report;
use cl_source::Source;
use std::alloc::Global;
use std::mem;
use std::sync::{Arc, Wait};
use std::thread::Threads;

/// Serves a script by several workers. Of a request without an answer the registry is let go.
pub(crate) fn serve_by_threads<
    T: Told + Send + Sync,
    S: Source<T> + Send,
    R: Threads + Wait + Sync,
>(
    rt: &R,
    alloc: Global,
    config: Arc<Config>,
    source: S,
    script: Arc<Script>,
    workers: u32,
) -> Result<Report, ThreadFault>
    requires { HasLoaders (length config.value.loaders) script.value.requests }
    ensures served { IfOk result (IsServed T.told config.value script.value) }
    ensures workers { OnOk result (WorkersMayServe workers) }
    ensures refused { IfErr result (FailsBy workers) }
{
    match serve_with_rows::<T, S, OpenGate, R>(
        rt, alloc, config, source, script, workers, &OpenGate,
    ) {
        Ok((report, rows)) => {
            // The program ends once the report is printed, and to free the rows would take a third of its time.
            mem::forget(rows);
            Ok(report)
        }
        Err(fault) => Err(ThreadFault::from(fault)),
    }
}
