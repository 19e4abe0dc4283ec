//! A step: what a task is at, and the reply to what it asked for.

ghost use Rattle.std.specs.Prelude.{◌≡◌};
ghost use Rattle.cl_config.specs.Views.{Configured};
ghost use Rattle.cl_tasks.specs.Stages.{IsLinking, IsLoading, IsResolving, linking_at, loading_at, resolving_at, task_at};
ghost use Rattle.cl_tasks.specs.Steps.{Steps};
ghost use Rattle.cl_tasks.specs.Turns.{Expects};

use crate::link_replies::{
    after_impose as after_link_impose, after_lineage, after_mark, after_prepared_count,
    after_prepared_look, after_whole_lineage,
};
use crate::load_replies::{
    after_define, after_home_look, after_initiate, after_look, after_read, begin,
};
use crate::resolution_replies::{
    after_check, after_impose, after_named_lineage, after_own_lineage, after_reference_look,
    after_settle,
};
use crate::stage::{Link, Load, Next, Resolution, Stage};
use crate::turn::Reply;
use cl_config::Config;
use cl_model::Told;
use std::alloc::Global;
use std::sync::Arc;

/// The number of the request.
pub(crate) fn number<T: Told>(stage: &Stage<T>) -> u32
    ensures { (c : Configured) → result ≡ (task_at c stage.now).q }
{
    match stage {
        Stage::Load(load) => number_of_load(load),
        Stage::Resolve(resolution) => number_of_resolution(resolution),
        Stage::Link(link) => number_of_link(link),
        Stage::Done(q) => *q,
    }
}

fn number_of_load<T: Told>(load: &Load<T>) -> u32
    ensures { (c : Configured) → result ≡ (loading_at c load.now).q }
{
    match load {
        Load::Fresh(job) => job.q,
        Load::Looking(job) => job.q,
        Load::Searching(job, _) => job.q,
        Load::Homing(job, _) => job.q,
        Load::Defining(job, _) => job.q,
        Load::Initiating(job, _) => job.q,
    }
}

fn number_of_resolution<T: Told>(resolution: &Resolution<T>) -> u32
    ensures { (c : Configured) → result ≡ (resolving_at c resolution.now).q }
{
    match resolution {
        Resolution::Checking(failed) => failed.q,
        Resolution::LookingReference(entry) => entry.q,
        Resolution::TracingOwn(entry, _) => entry.q,
        Resolution::TracingNamed(entry, _, _) => entry.q,
        Resolution::Imposing(member, _) => member.entry.q,
        Resolution::Settling(entry) => entry.q,
    }
}

fn number_of_link<T: Told>(link: &Link<T>) -> u32
    ensures { (c : Configured) → result ≡ (linking_at c link.now).q }
{
    match link {
        Link::LookingPrepared(goal) => goal.q,
        Link::TracingWhole(goal) => goal.q,
        Link::Counting(goal, _) => goal.q,
        Link::Tracing(chain) => chain.goal.q,
        Link::Imposing(chain, _, _) => chain.goal.q,
        Link::Marking(chain, _) => chain.goal.q,
    }
}

pub(crate) fn step_of_load<T: Told>(
    alloc: Global,
    config: &Arc<Config>,
    load: Load<T>,
    reply: Reply<T>,
) -> Next<T>
    requires kept { IsLoading T.told config.now.value load }
    requires expects { Expects (loading_at config.now.value load) reply }
    ensures { Steps T.told (loading_at config.now.value load) reply result }
{
    match load {
        Load::Fresh(job) => begin(alloc, job, reply),
        Load::Looking(job) => after_look(alloc, config, job, reply),
        Load::Searching(job, search) => after_read(alloc, job, search, reply),
        Load::Homing(job, home) => after_home_look(alloc, job, home, reply),
        Load::Defining(job, whole) => after_define(alloc, config, job, whole, reply),
        Load::Initiating(job, home) => after_initiate(alloc, config, job, home, reply),
    }
}

pub(crate) fn step_of_resolution<T: Told>(
    alloc: Global,
    config: &Arc<Config>,
    resolution: Resolution<T>,
    reply: Reply<T>,
) -> Next<T>
    requires kept { IsResolving T.told config.now.value resolution }
    requires expects { Expects (resolving_at config.now.value resolution) reply }
    ensures { Steps T.told (resolving_at config.now.value resolution) reply result }
{
    match resolution {
        Resolution::Checking(failed) => after_check(alloc, config, failed, reply),
        Resolution::LookingReference(entry) => after_reference_look(alloc, config, entry, reply),
        Resolution::TracingOwn(entry, named) => after_own_lineage(
            alloc, config, entry, named, reply,
        ),
        Resolution::TracingNamed(entry, own, named) => {
            after_named_lineage(alloc, config, entry, own, named, reply)
        }
        Resolution::Imposing(member, place) => after_impose(alloc, config, member, place, reply),
        Resolution::Settling(entry) => after_settle(config, entry, reply),
    }
}

pub(crate) fn step_of_link<T: Told>(
    alloc: Global,
    config: &Arc<Config>,
    link: Link<T>,
    reply: Reply<T>,
) -> Next<T>
    requires kept { IsLinking config.now.value link }
    requires expects { Expects (linking_at config.now.value link) reply }
    ensures { Steps T.told (linking_at config.now.value link) reply result }
{
    match link {
        Link::LookingPrepared(goal) => after_prepared_look(alloc, config, goal, reply),
        Link::TracingWhole(goal) => after_whole_lineage(alloc, config, goal, reply),
        Link::Counting(goal, whole) => after_prepared_count(alloc, config, goal, whole, reply),
        Link::Tracing(chain) => after_lineage(alloc, config, chain, reply),
        Link::Imposing(chain, list, place) => {
            after_link_impose(alloc, config, chain, list, place, reply)
        }
        Link::Marking(chain, list) => after_mark(alloc, config, chain, list, reply),
    }
}
