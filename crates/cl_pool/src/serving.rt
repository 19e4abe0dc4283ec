ghost use Rattle.std.specs.Prelude.{◌≡◌, ◌≤◌, IfOk, IfErr, IsErrOf, OnOk, length, map, true};
ghost use Rattle.cl_config.specs.Scripts.{HasLoaders};
ghost use Rattle.cl_pool.specs.Seats.{IsSeatOf, MayDraw};
ghost use Rattle.cl_pool.specs.Served.{FailsAs, IsOfRows, WorkersMayServe, RefusedFor};
ghost use Rattle.cl_schedule.specs.Headline.{IsServed};

use crate::desk::Desk;
use crate::draws::{Draws, Seat};
use crate::fault::PoolFault;
use crate::gate::Gate;
use crate::limits::MOST_WORKERS;
use crate::pool::Pool;
use cl_config::{Config, Script};
use cl_hierarchy::ClassRow;
use cl_model::{Request, Told};
use cl_registry::{Registry, Report};
use cl_source::Source;
use std::alloc::{AllocError, Global};
use std::sync::{Arc, Condvar, Mutex, Wait};
use std::thread::{self, Threads};

/// Serves the requests of a script by several threads, round by round (JVMS SE 8, 5.3). However the steps of the workers
/// fall, where the source tells a content, the report's history is a run of the linkage machine over it, in which each
/// request is answered once, with what its plan ends in there, or with a failure. Whatever the source tells, the report's
/// tables can be trusted.
///
/// The first worker takes the source, each other one a further source. One whose source or thread cannot be had is not
/// started. The registry stands behind one lock, which is held for one call of it at a time, or for up to a thousand and one
/// equalities of one list, and behind a post for the rounds that may begin and a copy of the next request too; reading, parsing
/// and searching are done without it.
///
/// # Errors
///
/// `Workers`, where they are not 1 to `MOST_WORKERS`; `Memory`, before a worker is started; `NoThread`, where none could be; `Stray`,
/// where a worker met a value that does not fit the tables; `Unanswered`, with the registry, where a request has no answer.
/// Of `Memory`, `NoThread` and `Stray` no clause says more than that there are 1 to `MOST_WORKERS` workers.
pub fn serve<T: Told + Send + Sync, S: Source<T> + Send, G: Gate, R: Threads + Wait + Sync>(
    rt: &R,
    alloc: Global,
    config: Arc<Config>,
    source: S,
    script: Arc<Script>,
    workers: u32,
    gate: &G,
) -> Result<Report, PoolFault<T>>
    requires loaders { HasLoaders (length config.value.loaders) script.value.requests }
    ensures served { IfOk result (IsServed T.told config.value script.value) }
    ensures workers { OnOk result (WorkersMayServe workers) }
    ensures refused { IfErr result (RefusedFor workers config.value script.value) }
{
    match serve_with_rows(rt, alloc, config, source, script, workers, gate) {
        Ok((report, rows)) => {
            drop(rows);
            Ok(report)
        }
        Err(fault) => Err(fault),
    }
}

/// As `serve`, with the rows of the classes that were defined, in order. They are most of a registry's memory, and of what
/// several threads allocated each free takes a lock: who ends soon after may let them go.
///
/// # Errors
///
/// Those of `serve`.
pub fn serve_with_rows<
    T: Told + Send + Sync,
    S: Source<T> + Send,
    G: Gate,
    R: Threads + Wait + Sync,
>(
    rt: &R,
    alloc: Global,
    config: Arc<Config>,
    source: S,
    script: Arc<Script>,
    workers: u32,
    gate: &G,
) -> Result<(Report, Vec<Arc<ClassRow<T>>>), PoolFault<T>>
    requires loaders { HasLoaders (length config.value.loaders) script.value.requests }
    ensures served { IfOk result (λ r. IsServed T.told config.value script.value r.0) }
    ensures rows { IfOk result (λ r. IsOfRows T.told r.0 (map (λ c. c.value) r.1.items)) }
    ensures workers { OnOk result (WorkersMayServe workers) }
    ensures refused { IfErr result (RefusedFor workers config.value script.value) }
{
    if workers < 1 || workers > MOST_WORKERS {
        return Err(PoolFault::Workers);
    }
    let (pool, seat) = open::<T>(alloc, &config, &script, workers)?;
    let started = run_workers(rt, alloc, &pool, gate, seat, source, workers);
    if started == 0 {
        return Err(PoolFault::NoThread);
    }
    let Pool {
        desk,
        changed: _,
        draws: _,
        config: _,
        script: _,
    } = pool;
    finish(desk.into_inner(), &config, &script)
}

/// What the workers share, with the first seat.
fn open<T: Told>(
    alloc: Global,
    config: &Arc<Config>,
    script: &Arc<Script>,
    workers: u32,
) -> Result<(Pool<T>, Seat), AllocError>
    requires workers { WorkersMayServe workers }
    ensures fits { IfOk result (λ r. IsSeatOf r.0.draws r.1) }
    ensures may { IfOk result (λ r. MayDraw r.1) }
{
    let theirs = Arc::try_clone(config)?;
    let Ok(registry) = Registry::<T>::new(alloc, theirs, Arc::try_clone(script)?) else {
        return Err(AllocError);
    };
    let asked = copies(alloc, script.requests())?;
    let Ok((draws, seat)) = Draws::new(alloc, script.requests().len() as u32, workers) else {
        return Err(AllocError);
    };
    let mut desk = Desk {
        registry,
        asked,
        round: 0,
        stopped: false,
    };
    desk.pass_rounds();
    let pool = Pool {
        desk: Mutex::new(desk),
        changed: Condvar::new(),
        draws,
        config: Arc::try_clone(config)?,
        script: Arc::try_clone(script)?,
    };
    Ok((pool, seat))
}

/// A copy of each request, so that a worker needs no memory to have one.
fn copies(alloc: Global, requests: &[Request]) -> Result<Vec<Option<Request>>, AllocError> {
    let mut copies = Vec::with_capacity(alloc, requests.len())?;
    for request in requests {
        copies.push(Some(request.try_clone(alloc)?))?;
    }
    Ok(copies)
}

/// Runs the workers to their ends, and answers how many were started.
fn run_workers<T: Told + Send + Sync, S: Source<T> + Send, G: Gate, R: Threads + Wait + Sync>(
    rt: &R,
    alloc: Global,
    pool: &Pool<T>,
    gate: &G,
    seat: Seat,
    source: S,
    workers: u32,
) -> u32
    requires fits { IsSeatOf pool.now.draws seat }
    requires may { MayDraw seat }
    requires workers { 1 ≤ workers }
{
    thread::scope(
        thread::scope_env(),
        rt,
        |scope| -> u32
            requires { IsSeatOf pool.now.draws seat × MayDraw seat × (1 ≤ workers) }
        { pool.start(rt, scope, alloc, gate, seat, source, workers) },
    )
}

/// What the registry reports, once the workers have ended, with the rows, which are left to be freed.
fn finish<T: Told>(
    mut desk: Desk<T>,
    config: &Config,
    script: &Script,
) -> Result<(Report, Vec<Arc<ClassRow<T>>>), PoolFault<T>>
    ensures served { IfOk result (λ r. IsServed T.told config.now script.now r.0) }
    ensures rows { IfOk result (λ r. IsOfRows T.told r.0 (map (λ c. c.value) r.1.items)) }
    ensures refused { IfErr result (FailsAs config.now script.now) }
    ensures stray { desk.stopped ≡ true → IsErrOf result PoolFault.Stray }
{
    let stopped = desk.stopped;
    desk.pass_rounds();
    let Desk {
        registry,
        asked,
        round: _,
        stopped: _,
    } = desk;
    drop(asked);
    // (what is dropped whole costs the proof no cases)
    if stopped {
        drop(registry);
        return Err(PoolFault::Stray);
    }
    if !registry.serves(config, script) {
        drop(registry);
        return Err(PoolFault::Stray);
    }
    match registry.into_report_and_rows() {
        Ok(report_and_rows) => Ok(report_and_rows),
        Err(refused) => Err(PoolFault::Unanswered(refused.registry)),
    }
}
