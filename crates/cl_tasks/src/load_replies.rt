//! What a load makes of a reply.

ghost use Rattle.cl_findings.specs.Loads.{IsWhole};
ghost use Rattle.cl_tasks.specs.Stages.{JobBegins, IsHoming, IsJob, IsSearch, loading_at, InitiatesNext};
ghost use Rattle.cl_tasks.specs.Steps.{Steps};
ghost use Rattle.cl_tasks.specs.Turns.{Expects};

use crate::accept::{go_on, look, take_defined};
use crate::ends::{blame_source, refuse};
use crate::leads::out_of_memory;
use crate::search::{begin_search, take_look, take_probe};
use crate::stage::{Job, Load, Next};
use crate::turn::Reply;
use cl_config::Config;
use cl_delegation::{Home, Search};
use cl_findings::NextRecord;
use cl_hierarchy::Frame;
use cl_model::Told;
use std::alloc::Global;
use std::sync::Arc;

/// The first turn.
pub(crate) fn begin<T: Told>(alloc: Global, job: Job<T>, reply: Reply<T>) -> Next<T>
    requires job { IsJob T.told job.path.config job }
    requires first { JobBegins job }
    requires expects { Expects (loading_at job.path.config (Load.Fresh job)) reply }
    ensures { Steps T.told (loading_at job.path.config (Load.Fresh job)) reply result }
{
    match reply {
        Reply::Start => look(alloc, job),
        Reply::Memory => out_of_memory(job.q, job.request),
        _ => unreachable!(),
    }
}

/// What is looked for was looked up where it is asked for.
pub(crate) fn after_look<T: Told>(
    alloc: Global,
    config: &Arc<Config>,
    job: Job<T>,
    reply: Reply<T>,
) -> Next<T>
    requires job { IsJob T.told config.now.value job }
    requires expects { Expects (loading_at config.now.value (Load.Looking job)) reply }
    ensures { Steps T.told (loading_at config.now.value (Load.Looking job)) reply result }
{
    match reply {
        Reply::Looked(Some(row)) => {
            // brings what a path keeps
            let _ = job.path.at_name();
            go_on(alloc, config, job, row)
        }
        Reply::Looked(None) => {
            // brings what a path keeps
            let _ = job.path.at_name();
            begin_search(alloc, job)
        }
        Reply::Memory => out_of_memory(job.q, job.request),
        _ => unreachable!(),
    }
}

/// A loader of the search was read.
pub(crate) fn after_read<T: Told>(
    alloc: Global,
    job: Job<T>,
    search: Search<T>,
    reply: Reply<T>,
) -> Next<T>
    requires job { IsJob T.told job.path.config job }
    requires search { IsSearch job search }
    requires expects { Expects (loading_at job.path.config (Load.Searching job search)) reply }
    ensures { Steps T.told (loading_at job.path.config (Load.Searching job search)) reply result }
{
    match reply {
        Reply::Probed(probe) => take_probe(alloc, job, search, probe),
        Reply::SourceFault(fault) => {
            // brings what a path keeps
            let _ = job.path.at_name();
            blame_source(job, search, fault)
        }
        Reply::Memory => out_of_memory(job.q, job.request),
        _ => unreachable!(),
    }
}

/// What is looked for was looked up at its home.
pub(crate) fn after_home_look<T: Told>(
    alloc: Global,
    job: Job<T>,
    home: Home<T>,
    reply: Reply<T>,
) -> Next<T>
    requires job { IsJob T.told job.path.config job }
    requires home { IsHoming job home }
    requires expects { Expects (loading_at job.path.config (Load.Homing job home)) reply }
    ensures { Steps T.told (loading_at job.path.config (Load.Homing job home)) reply result }
{
    match reply {
        Reply::Looked(row) => take_look(alloc, job, home, row),
        Reply::Memory => out_of_memory(job.q, job.request),
        _ => unreachable!(),
    }
}

/// A class was to be recorded.
pub(crate) fn after_define<T: Told>(
    alloc: Global,
    config: &Arc<Config>,
    job: Job<T>,
    whole: Frame<T>,
    reply: Reply<T>,
) -> Next<T>
    requires job { IsJob T.told config.now.value job }
    requires whole { IsWhole T.told job.path whole }
    requires expects { Expects (loading_at config.now.value (Load.Defining job whole)) reply }
    ensures { Steps T.told (loading_at config.now.value (Load.Defining job whole)) reply result }
{
    // brings what a draft keeps
    let _ = whole.draft().home();
    match reply {
        Reply::Defined(row) => take_defined(alloc, config, job, whole, row),
        Reply::Refused(need) => refuse(alloc, job, NextRecord::Define(whole), need),
        Reply::Memory => out_of_memory(job.q, job.request),
        _ => unreachable!(),
    }
}

/// The loader that was asked was to be recorded.
pub(crate) fn after_initiate<T: Told>(
    alloc: Global,
    config: &Arc<Config>,
    job: Job<T>,
    home: Arc<Home<T>>,
    reply: Reply<T>,
) -> Next<T>
    requires job { IsJob T.told config.now.value job }
    requires next { InitiatesNext T.told job home }
    requires expects { Expects (loading_at config.now.value (Load.Initiating job home)) reply }
    ensures { Steps T.told (loading_at config.now.value (Load.Initiating job home)) reply result }
{
    match reply {
        Reply::Initiated(row) => go_on(alloc, config, job, row),
        Reply::Refused(need) => refuse(alloc, job, NextRecord::Initiate(home), need),
        Reply::Memory => out_of_memory(job.q, job.request),
        _ => unreachable!(),
    }
}
