//! What a resolution makes of a reply.

ghost use Rattle.std.specs.Prelude.{◌<◌, ◌≡◌, None, Some, length};
ghost use Rattle.cl_tasks.specs.Stages.{IsEntry, IsFailed, IsMember, resolving_at};
ghost use Rattle.cl_tasks.specs.Steps.{Steps, memory_ends};
ghost use Rattle.cl_tasks.specs.Turns.{Expects, IsOf};

use crate::leads::{out_of_memory, post};
use crate::link::count_needs;
use crate::member::{give_up, impose, refuse_member, take_class, take_own};
use crate::reach::reach_own;
use crate::reference::take_reference;
use crate::stage::{Entry, Failed, Member, Next, Resolution};
use crate::turn::Reply;
use cl_config::Config;
use cl_findings::Finding;
use cl_hierarchy::{ClassRow, Lineage};
use cl_model::Told;
use std::alloc::Global;
use std::sync::Arc;

/// The request's class, which cannot be loaded, was looked for once more.
pub(crate) fn after_check<T: Told>(
    alloc: Global,
    config: &Arc<Config>,
    failed: Failed<T>,
    reply: Reply<T>,
) -> Next<T>
    requires failed { IsFailed T.told config.now.value failed }
    requires expects { Expects (resolving_at config.now.value (Resolution.Checking failed)) reply }
    ensures { Steps T.told (resolving_at config.now.value (Resolution.Checking failed)) reply
        result }
{
    match reply {
        Reply::Looked(Some(row)) => reach_again(alloc, config, failed, row),
        Reply::Looked(None) => post_failure(config, failed),
        Reply::Memory => give_up_check(failed),
        _ => unreachable!(),
    }
}

/// The request's class is recorded by now.
fn reach_again<T: Told>(
    alloc: Global,
    config: &Arc<Config>,
    failed: Failed<T>,
    row: Arc<ClassRow<T>>,
) -> Next<T>
    requires failed { IsFailed T.told config.now.value failed }
    ensures { Steps T.told (resolving_at config.now.value (Resolution.Checking failed))
        (Reply.Looked (Some row)) result }
{
    let Failed {
        q,
        request,
        finding,
    } = failed;
    // (whole, since each way to take it apart is a case of the proof)
    drop(finding);
    // no registry gives a row of another name
    if row.class().name != *request.name() {
        return out_of_memory(q, request);
    }
    reach_own(alloc, q, request, row)
}

/// The request's class is not recorded, so that the failure of its load is the answer.
fn post_failure<T: Told>(config: &Arc<Config>, failed: Failed<T>) -> Next<T>
    requires failed { IsFailed T.told config.now.value failed }
    ensures { Steps T.told (resolving_at config.now.value (Resolution.Checking failed))
        (Reply.Looked None) result }
{
    // no load ends in a verdict that names another configuration's loader
    if !failed.finding.is_within(config) {
        return give_up_check(failed);
    }
    let Failed {
        q,
        request,
        finding,
    } = failed;
    drop(request);
    // brings what a finding rests on
    let _ = finding.answer();
    post(q, finding)
}

/// Memory ran out before the answer that waits.
fn give_up_check<T: Told>(failed: Failed<T>) -> Next<T>
    ensures { result ≡ memory_ends failed.q failed.request }
{
    let Failed {
        q,
        request,
        finding,
    } = failed;
    drop(finding);
    out_of_memory(q, request)
}

/// The entry of the request was looked up.
pub(crate) fn after_reference_look<T: Told>(
    alloc: Global,
    config: &Arc<Config>,
    entry: Entry<T>,
    reply: Reply<T>,
) -> Next<T>
    requires entry { IsEntry config.now.value entry }
    requires expects { Expects
        (resolving_at config.now.value (Resolution.LookingReference entry)) reply }
    ensures { Steps T.told
        (resolving_at config.now.value (Resolution.LookingReference entry)) reply result }
{
    match reply {
        Reply::LookedReference(settled) => take_reference(alloc, config, entry, settled),
        Reply::Memory => out_of_memory(entry.q, entry.request),
        _ => unreachable!(),
    }
}

/// The lineage of the class whose pool has the entry was asked for.
pub(crate) fn after_own_lineage<T: Told>(
    alloc: Global,
    config: &Arc<Config>,
    entry: Entry<T>,
    named: Arc<ClassRow<T>>,
    reply: Reply<T>,
) -> Next<T>
    requires entry { IsEntry config.now.value entry }
    requires expects { Expects
        (resolving_at config.now.value (Resolution.TracingOwn entry named)) reply }
    ensures { Steps T.told
        (resolving_at config.now.value (Resolution.TracingOwn entry named)) reply result }
{
    match reply {
        Reply::Lineage(own) => take_own(alloc, config, entry, named, own),
        Reply::Memory => out_of_memory(entry.q, entry.request),
        _ => unreachable!(),
    }
}

/// The lineage of the class that the entry names was asked for.
pub(crate) fn after_named_lineage<T: Told>(
    alloc: Global,
    config: &Arc<Config>,
    entry: Entry<T>,
    own: Lineage<T>,
    named: Arc<ClassRow<T>>,
    reply: Reply<T>,
) -> Next<T>
    requires entry { IsEntry config.now.value entry }
    requires own { IsOf config.now.value entry.d.value.class own }
    requires expects { Expects
        (resolving_at config.now.value (Resolution.TracingNamed entry own named)) reply }
    ensures { Steps T.told
        (resolving_at config.now.value (Resolution.TracingNamed entry own named)) reply result }
{
    match reply {
        Reply::Lineage(lineage) => take_class(alloc, config, entry, own, lineage),
        Reply::Memory => out_of_memory(entry.q, entry.request),
        _ => unreachable!(),
    }
}

/// An equality of a member was to be imposed.
pub(crate) fn after_impose<T: Told>(
    alloc: Global,
    config: &Arc<Config>,
    member: Member<T>,
    place: usize,
    reply: Reply<T>,
) -> Next<T>
    requires member { IsMember config.now.value member }
    requires within { place < length member.equalities.value.needs }
    requires expects { Expects
        (resolving_at config.now.value (Resolution.Imposing member place)) reply }
    ensures { Steps T.told
        (resolving_at config.now.value (Resolution.Imposing member place)) reply result }
{
    // brings that a `usize` counts them
    let _ = count_needs(&member.equalities);
    match reply {
        Reply::Imposed => impose(alloc, config, member, place + 1),
        Reply::Refused(need) => refuse_member(alloc, config, member, place, need),
        Reply::Memory => give_up(member),
        _ => unreachable!(),
    }
}

/// The entry was to be settled.
pub(crate) fn after_settle<T: Told>(
    config: &Arc<Config>,
    entry: Entry<T>,
    reply: Reply<T>,
) -> Next<T>
    requires entry { IsEntry config.now.value entry }
    requires expects { Expects (resolving_at config.now.value (Resolution.Settling entry)) reply }
    ensures { Steps T.told (resolving_at config.now.value (Resolution.Settling entry)) reply
        result }
{
    match reply {
        Reply::Settled(settled) => post(entry.q, Finding::settled(entry.request, settled)),
        Reply::Memory => out_of_memory(entry.q, entry.request),
        _ => unreachable!(),
    }
}
