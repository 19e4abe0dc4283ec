//! What a link makes of a reply.

ghost use Rattle.std.specs.Prelude.{◌<◌, length};
ghost use Rattle.cl_tasks.specs.Stages.{IsAtPlace, IsChain, IsGoal, linking_at};
ghost use Rattle.cl_tasks.specs.Steps.{Steps};
ghost use Rattle.cl_tasks.specs.Turns.{Expects, IsOf};

use crate::leads::out_of_memory;
use crate::link::{
    count_needs, give_up, impose, refuse_link, take_counted, take_marked, take_prepared,
    take_traced, take_whole,
};
use crate::stage::{Chain, Goal, Link, Next};
use crate::turn::Reply;
use cl_config::Config;
use cl_hierarchy::{Equalities, Lineage};
use cl_model::Told;
use std::alloc::Global;
use std::sync::Arc;

/// Whether the request's class is prepared was looked up.
pub(crate) fn after_prepared_look<T: Told>(
    alloc: Global,
    config: &Arc<Config>,
    goal: Goal<T>,
    reply: Reply<T>,
) -> Next<T>
    requires goal { IsGoal config.now.value goal }
    requires expects { Expects (linking_at config.now.value (Link.LookingPrepared goal)) reply }
    ensures { Steps T.told (linking_at config.now.value (Link.LookingPrepared goal)) reply result }
{
    match reply {
        Reply::LookedPrepared(prepared) => take_prepared(alloc, config, goal, prepared),
        Reply::Memory => out_of_memory(goal.q, goal.request),
        _ => unreachable!(),
    }
}

/// The lineage of the request's class was asked for.
pub(crate) fn after_whole_lineage<T: Told>(
    alloc: Global,
    config: &Arc<Config>,
    goal: Goal<T>,
    reply: Reply<T>,
) -> Next<T>
    requires goal { IsGoal config.now.value goal }
    requires expects { Expects (linking_at config.now.value (Link.TracingWhole goal)) reply }
    ensures { Steps T.told (linking_at config.now.value (Link.TracingWhole goal)) reply result }
{
    match reply {
        Reply::Lineage(whole) => take_whole(config, goal, whole),
        Reply::Memory => out_of_memory(goal.q, goal.request),
        _ => unreachable!(),
    }
}

/// The lineage of the class at the place of a chain was asked for.
pub(crate) fn after_lineage<T: Told>(
    alloc: Global,
    config: &Arc<Config>,
    chain: Chain<T>,
    reply: Reply<T>,
) -> Next<T>
    requires chain { IsChain config.now.value chain }
    requires expects { Expects (linking_at config.now.value (Link.Tracing chain)) reply }
    ensures { Steps T.told (linking_at config.now.value (Link.Tracing chain)) reply result }
{
    // brings what the lineage keeps
    let _ = chain.whole.class();
    match reply {
        Reply::Lineage(lineage) => take_traced(alloc, config, chain, &lineage),
        Reply::Memory => give_up(chain),
        _ => unreachable!(),
    }
}

/// How many of the classes above the request's are prepared was asked.
pub(crate) fn after_prepared_count<T: Told>(
    alloc: Global,
    config: &Arc<Config>,
    goal: Goal<T>,
    whole: Lineage<T>,
    reply: Reply<T>,
) -> Next<T>
    requires goal { IsGoal config.now.value goal }
    requires whole { IsOf config.now.value goal.class.value.class whole }
    requires expects { Expects (linking_at config.now.value (Link.Counting goal whole)) reply }
    ensures { Steps T.told (linking_at config.now.value (Link.Counting goal whole)) reply result }
{
    match reply {
        Reply::CountedPrepared(count) => take_counted(alloc, config, goal, whole, count),
        Reply::Memory => out_of_memory(goal.q, goal.request),
        _ => unreachable!(),
    }
}

/// An equality of a preparation was to be imposed.
pub(crate) fn after_impose<T: Told>(
    alloc: Global,
    config: &Arc<Config>,
    chain: Chain<T>,
    list: Arc<Equalities<T>>,
    place: usize,
    reply: Reply<T>,
) -> Next<T>
    requires chain { IsChain config.now.value chain }
    requires list { IsAtPlace chain list.value }
    requires within { place < length list.value.needs }
    requires expects { Expects
        (linking_at config.now.value (Link.Imposing chain list place)) reply }
    ensures { Steps T.told
        (linking_at config.now.value (Link.Imposing chain list place)) reply result }
{
    // brings that a `usize` counts them
    let _ = count_needs(&list);
    match reply {
        Reply::Imposed => impose(alloc, config, chain, list, place + 1),
        Reply::Refused(need) => refuse_link(config, chain, list, place, need),
        Reply::Memory => give_up(chain),
        _ => unreachable!(),
    }
}

/// A class was to be prepared.
pub(crate) fn after_mark<T: Told>(
    alloc: Global,
    config: &Arc<Config>,
    chain: Chain<T>,
    list: Arc<Equalities<T>>,
    reply: Reply<T>,
) -> Next<T>
    requires chain { IsChain config.now.value chain }
    requires list { IsAtPlace chain list.value }
    requires expects { Expects (linking_at config.now.value (Link.Marking chain list)) reply }
    ensures { Steps T.told (linking_at config.now.value (Link.Marking chain list)) reply result }
{
    match reply {
        Reply::Marked => take_marked(alloc, config, chain),
        Reply::Memory => give_up(chain),
        _ => unreachable!(),
    }
}
