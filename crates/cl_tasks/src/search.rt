//! From a look that found no record to a home.

ghost use Rattle.std.specs.Prelude.{◌≡◌, ◌<◌, Some, length, slice_get, IfOk};
ghost use Rattle.cl_delegation.specs.Searches.{begun_search, next_of};
ghost use Rattle.cl_findings.specs.Loads.{IsSought};
ghost use Rattle.cl_hierarchy.specs.Paths.{at_loader, at_name, frames_of};
ghost use Rattle.cl_tasks.specs.Deriving.{Derives, IsSoughtHere, IsUnfound};
ghost use Rattle.cl_tasks.specs.Follows.{PostsNoFault};
ghost use Rattle.cl_tasks.specs.Measures.{Looking, Reading};
ghost use Rattle.cl_tasks.specs.Stages.{IsJob, IsHoming, probes_left, Seeks};
ghost use Rattle.cl_tasks.specs.Steps.{FindsHome, HoldsOn, IsPlain, LeadsAt, LeadsHome, ReadsAt, ReadsOn, reads_left, way_on};
ghost use Rattle.cl_tasks.specs.Turns.{IsBehind};

use crate::accept::{derive, initiate};
use crate::ends::obstacle;
use crate::leads::out_of_memory;
use crate::stage::{Job, Load, Next, Stage};
use crate::turn::Turn;
use cl_delegation::{Home, Search};
use cl_findings::Obstacle;
use cl_hierarchy::ClassRow;
use cl_model::{Class, Told};
use cl_source::Probe;
use std::alloc::{AllocError, Global};
use std::sync::Arc;

/// Begins the search for what the path is at.
pub(crate) fn begin_search<T: Told>(alloc: Global, job: Job<T>) -> Next<T>
    requires job { IsJob T.told job.path.config job }
    ensures leads { LeadsAt T.told Looking job (HoldsOn job) result }
    ensures no_fault { PostsNoFault result.turn }
    ensures derives { Derives (IsSoughtHere job.path) (frames_of job.path) result.stage }
    ensures reads { ReadsAt job.path (λ l. slice_get (way_on job.path) 0 ≡ Some l) result.turn }
{
    // brings that there are few loaders
    let _ = job.path.config().count();
    match search_for(alloc, &job) {
        Err(_) => out_of_memory(job.q, job.request),
        Ok(search) => pursue(alloc, job, search),
    }
}

/// The search for what the path is at, which has asked nobody yet.
fn search_for<T: Told>(alloc: Global, job: &Job<T>) -> Result<Search<T>, AllocError>
    requires { at_loader job.now.path < length job.now.path.config.loaders }
    ensures { IfOk result (λ s. s ≡ begun_search job.now.path.config (at_loader job.now.path)
        (at_name job.now.path)) }
{
    let name = job.path.at_name().try_clone(alloc)?;
    let config = Arc::try_clone(job.path.config())?;
    Search::new(alloc, config, job.path.at_loader(), name).map_err(|_| AllocError)
}

/// The next probe of the search came.
pub(crate) fn take_probe<T: Told>(
    alloc: Global,
    job: Job<T>,
    search: Search<T>,
    probe: Probe<T>,
) -> Next<T>
    // What is given.
    requires job { IsJob T.told job.path.config job }
    requires search { Seeks job search }
    requires next { next_of search ≡ Some probe.loader }
    requires name { probe.name ≡ at_name job.path }
    // What it leads to.
    ensures leads { ReadsOn T.told (probes_left search) job (HoldsOn job) result }
    ensures no_fault { PostsNoFault result.turn }
    // What it derives and reads.
    ensures derives { Derives (IsSoughtHere job.path) (frames_of job.path) result.stage }
    ensures reads { ReadsAt job.path (IsBehind (way_on job.path) probe) result.turn }
{
    let mut search = search;
    match search.take(probe) {
        Ok(()) => pursue(alloc, job, search),
        Err(_) => unreachable!(),
    }
}

/// Reads what the search asks next, or goes on with what it ended in.
fn pursue<T: Told>(alloc: Global, job: Job<T>, search: Search<T>) -> Next<T>
    requires job { IsJob T.told job.path.config job }
    requires search { Seeks job search }
    ensures leads { ReadsOn T.told (reads_left search) job (HoldsOn job) result }
    ensures no_fault { PostsNoFault result.turn }
    ensures derives { Derives (IsSoughtHere job.path) (frames_of job.path) result.stage }
    ensures reads { ReadsAt job.path (λ l. next_of search ≡ Some l) result.turn }
{
    match search.next_probe() {
        None => match search.home() {
            Err(unfound) => obstacle(alloc, job, Obstacle::Missing(unfound)),
            Ok(home) => at_home(alloc, job, home),
        },
        Some(loader) => match job.path.at_name().try_clone(alloc) {
            Err(_) => out_of_memory(job.q, job.request),
            Ok(name) => Next {
                stage: Stage::Load(Load::Searching(job, search)),
                turn: Turn::Read(loader, name),
            },
        },
    }
}

/// The home of what is looked for was found: it is looked up there, unless that is the loader that was
/// asked.
fn at_home<T: Told>(alloc: Global, job: Job<T>, home: Home<T>) -> Next<T>
    requires job { IsJob T.told job.path.config job }
    requires home { IsSought job.path home }
    ensures leads { LeadsAt T.told Reading job (HoldsOn job) result }
    ensures plain { IsPlain result.turn }
    ensures derives { Derives (IsSoughtHere job.path) (frames_of job.path) result.stage }
{
    let class = match home.name().try_clone(alloc) {
        Err(_) => return out_of_memory(job.q, job.request),
        Ok(name) => Class {
            name,
            loader: home.definer(),
        },
    };
    // brings what a home keeps
    let _ = home.config();
    if job.path.has(&class) {
        return obstacle(alloc, job, Obstacle::Circle(home));
    }
    if class.loader == job.path.at_loader() {
        return derive(alloc, job, home);
    }
    let Class { name, loader } = class;
    Next {
        stage: Stage::Load(Load::Homing(job, home)),
        turn: Turn::Look(loader, name),
    }
}

/// The home of what is looked for, which is another loader, was asked for it.
pub(crate) fn take_look<T: Told>(
    alloc: Global,
    job: Job<T>,
    home: Home<T>,
    row: Option<Arc<ClassRow<T>>>,
) -> Next<T>
    requires job { IsJob T.told job.path.config job }
    requires home { IsHoming job home }
    ensures leads { LeadsHome T.told job home.definer row
        (FindsHome job home row (λ r. r.value)) result }
    ensures plain { IsPlain result.turn }
    ensures derives { Derives (IsUnfound home row) (frames_of job.path) result.stage }
{
    // brings what a path keeps
    let _ = job.path.at_name();
    match row {
        None => derive(alloc, job, home),
        Some(row) => match Arc::new(alloc, home) {
            Err(_) => out_of_memory(job.q, job.request),
            Ok(home) => initiate(job, home, &row),
        },
    }
}
