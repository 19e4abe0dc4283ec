//! Which replies are ones to what was asked.

ghost use Rattle.std.specs.Prelude.{◌≡◌, ℕ, List, Some};
ghost use Rattle.cl_config.specs.Views.{Configured};
ghost use Rattle.cl_findings.specs.Findings.{IsSettledFor, Decides};
ghost use Rattle.cl_hierarchy.specs.Imposed.{equal_need};
ghost use Rattle.cl_model.specs.declared.class.Class as classes;
ghost use Rattle.cl_model.specs.States.{Entry};
ghost use Rattle.cl_model.specs.Views.{need_of};
ghost use Rattle.cl_tasks.specs.Stages.{linking_at, loading_at, next_loader, resolving_at, task_at};
ghost use Rattle.cl_tasks.specs.Turns.{Expects, IsReplyTo, equality_at};
ghost use Rattle.cl_tasks.specs.Waits as waits;

use crate::link::{class_at, count_above};
use crate::stage::{Link, Load, Resolution, Stage};
use crate::turn::Reply;
use cl_config::Config;
use cl_delegation::{Home, Search};
use cl_hierarchy::{Draft, Equalities, Lineage};
use cl_model::{Class, Equality, LoaderId, Need, Request, Settled, Told};
use cl_names::Name;
use std::sync::Arc;

/// Whether a reply is one to a task that has not begun.
fn is_to_begin<T: Told>(reply: &Reply<T>) -> bool
    ensures { (c : Configured) → Decides result (IsReplyTo c waits.Beginning reply.now) }
{
    match reply {
        Reply::Start | Reply::Memory => true,
        _ => false,
    }
}

/// Whether it is one to a look.
fn is_to_look<T: Told>(reply: &Reply<T>) -> bool
    ensures { (c : Configured) (l : ℕ) (n : List ℕ)
        → Decides result (IsReplyTo c (waits.Looking l n) reply.now) }
{
    match reply {
        Reply::Looked(_) | Reply::Memory => true,
        _ => false,
    }
}

/// Whether it is one to a read of a name of a loader.
fn is_to_read<T: Told>(loader: LoaderId, name: &Name, reply: &Reply<T>) -> bool
    ensures { (c : Configured)
        → Decides result (IsReplyTo c (waits.Reading loader name.now) reply.now) }
{
    match reply {
        Reply::Probed(probe) => probe.loader() == loader && *probe.name() == *name,
        Reply::SourceFault(_) | Reply::Memory => true,
        _ => false,
    }
}

/// Whether a need is this record.
fn is_entry(need: &Need, loader: LoaderId, name: &Name, home: LoaderId) -> bool
    ensures { Decides result (Entry loader name.now home ≡ need_of need.now) }
{
    match need {
        Need::Entry {
            loader: l,
            name: n,
            home: h,
        } => *l == loader && *n == *name && *h == home,
        Need::Equal(_) => false,
    }
}

/// Whether a need is this equality.
fn is_equality(need: &Need, equality: &Equality) -> bool
    ensures { Decides result (equal_need equality.now ≡ need_of need.now) }
{
    match need {
        Need::Entry { .. } => false,
        Need::Equal(e) => e.is_same(equality),
    }
}

/// Whether it is one to the record of a class.
fn is_to_define<T: Told>(draft: &Draft<T>, reply: &Reply<T>) -> bool
    ensures { (c : Configured) → Decides result (IsReplyTo c (waits.Defining draft.now) reply.now) }
{
    match reply {
        Reply::Defined(_) | Reply::Memory => true,
        Reply::Refused(need) => {
            let class = draft.class();
            is_entry(need, class.loader, &class.name, class.loader)
        }
        _ => false,
    }
}

/// Whether it is one to the record of the loader that was asked.
fn is_to_initiate<T: Told>(home: &Home<T>, reply: &Reply<T>) -> bool
    ensures { (c : Configured)
        → Decides result (IsReplyTo c (waits.Initiating home.now) reply.now) }
{
    match reply {
        Reply::Initiated(_) | Reply::Memory => true,
        Reply::Refused(need) => is_entry(need, home.asked_loader(), home.name(), home.definer()),
        _ => false,
    }
}

/// Whether it is one to the question for the lineage of a class.
fn is_to_trace<T: Told>(config: &Config, class: &Class, reply: &Reply<T>) -> bool
    ensures { Decides result (IsReplyTo config.now (waits.Tracing class.now) reply.now) }
{
    match reply {
        Reply::Lineage(lineage) => {
            lineage.own().class().is_same(class) && lineage.config().is_same(config)
        }
        Reply::Memory => true,
        _ => false,
    }
}

/// Whether what is settled is the entry at an index of the pool of a class.
fn is_of(settled: &Settled, class: &Class, index: u16) -> bool
    ensures { Decides result ((settled.now.class ≡ class.now) × (settled.now.index ≡ index)) }
{
    settled.class.is_same(class) && settled.index == index
}

/// Whether it is one to a look at the entry at an index of the pool of a class.
fn is_to_look_reference<T: Told>(class: &Class, index: u16, reply: &Reply<T>) -> bool
    ensures { (c : Configured)
        → Decides result (IsReplyTo c (waits.LookingReference class.now index) reply.now) }
{
    match reply {
        Reply::LookedReference(None) | Reply::Memory => true,
        Reply::LookedReference(Some(settled)) => is_of(settled, class, index),
        _ => false,
    }
}

/// Whether what is settled is the entry of a request.
fn is_for(settled: &Settled, request: &Request) -> bool
    ensures { Decides result (IsSettledFor request.now settled.now) }
{
    match request {
        Request::Resolve(_, name, index) => *name == settled.class.name && *index == settled.index,
        _ => false,
    }
}

/// Whether it is one to the settlement of the entry of a request.
fn is_to_settle<T: Told>(request: &Request, reply: &Reply<T>) -> bool
    ensures { (c : Configured)
        → Decides result (IsReplyTo c (waits.Settling request.now) reply.now) }
{
    match reply {
        Reply::Settled(settled) => is_for(settled, request),
        Reply::Memory => true,
        _ => false,
    }
}

/// Whether a need is the equality at a place of a list.
fn is_equality_at<T: Told>(list: &Equalities<T>, place: usize, need: &Need) -> bool
    ensures { Decides result (equality_at list.now place ≡ Some (need_of need.now)) }
{
    match list.needs().get(place) {
        Some(equality) => is_equality(need, equality),
        None => false,
    }
}

/// Whether it is one to the imposition of the equality at a place of a list.
fn is_to_impose<T: Told>(list: &Equalities<T>, place: usize, reply: &Reply<T>) -> bool
    ensures { (c : Configured)
        → Decides result (IsReplyTo c (waits.Imposing list.now place) reply.now) }
{
    match reply {
        Reply::Imposed | Reply::Memory => true,
        Reply::Refused(need) => is_equality_at(list, place, need),
        _ => false,
    }
}

/// Whether it is one to a look whether a class is prepared.
fn is_to_look_prepared<T: Told>(reply: &Reply<T>) -> bool
    ensures { (c : Configured) (k : classes.Class)
        → Decides result (IsReplyTo c (waits.LookingPrepared k) reply.now) }
{
    match reply {
        Reply::LookedPrepared(_) | Reply::Memory => true,
        _ => false,
    }
}

/// Whether it is one to the question how many of the classes above that of a lineage are prepared.
fn is_to_count_prepared<T: Told>(lineage: &Lineage<T>, reply: &Reply<T>) -> bool
    ensures { (c : Configured)
        → Decides result (IsReplyTo c (waits.CountingPrepared lineage.now) reply.now) }
{
    match reply {
        Reply::CountedPrepared(count) => *count <= count_above(lineage),
        Reply::Memory => true,
        _ => false,
    }
}

/// Whether it is one to the preparation of a class.
fn is_to_mark<T: Told>(list: &Equalities<T>, reply: &Reply<T>) -> bool
    ensures { (c : Configured) → Decides result (IsReplyTo c (waits.Marking list.now) reply.now) }
{
    // the contract alone speaks of it
    let _ = list;
    match reply {
        Reply::Marked | Reply::Memory => true,
        _ => false,
    }
}

/// The loader that a search asks next; the first, where it asks none.
fn place_of<T: Told>(search: &Search<T>) -> LoaderId
    ensures { result ≡ next_loader search.now }
{
    match search.next_probe() {
        Some(loader) => loader,
        None => LoaderId(0),
    }
}

/// Whether a reply is one to what a load asked for.
fn load_expects<T: Told>(load: &Load<T>, reply: &Reply<T>) -> bool
    ensures { (c : Configured) → Decides result (Expects (loading_at c load.now) reply.now) }
{
    match load {
        Load::Fresh(_) => is_to_begin(reply),
        Load::Looking(_) => is_to_look(reply),
        Load::Searching(job, search) => is_to_read(place_of(search), job.path.at_name(), reply),
        Load::Homing(_, _) => is_to_look(reply),
        Load::Defining(_, whole) => is_to_define(whole.draft(), reply),
        Load::Initiating(_, home) => is_to_initiate(home, reply),
    }
}

/// Whether a reply is one to what a resolution asked for.
fn resolution_expects<T: Told>(
    config: &Config,
    resolution: &Resolution<T>,
    reply: &Reply<T>,
) -> bool
    ensures { Decides result (Expects (resolving_at config.now resolution.now) reply.now) }
{
    match resolution {
        Resolution::Checking(_) => is_to_look(reply),
        Resolution::LookingReference(entry) => {
            is_to_look_reference(entry.d.class(), entry.index, reply)
        }
        Resolution::TracingOwn(entry, _) => is_to_trace(config, entry.d.class(), reply),
        Resolution::TracingNamed(_, _, named) => is_to_trace(config, named.class(), reply),
        Resolution::Imposing(member, place) => is_to_impose(&member.equalities, *place, reply),
        Resolution::Settling(entry) => is_to_settle(&entry.request, reply),
    }
}

/// Whether a reply is one to what a link asked for.
fn link_expects<T: Told>(config: &Config, link: &Link<T>, reply: &Reply<T>) -> bool
    ensures { Decides result (Expects (linking_at config.now link.now) reply.now) }
{
    match link {
        Link::LookingPrepared(_) => is_to_look_prepared(reply),
        Link::TracingWhole(goal) => is_to_trace(config, goal.class.class(), reply),
        Link::Counting(_, whole) => is_to_count_prepared(whole, reply),
        Link::Tracing(chain) => is_to_trace(config, class_at(&chain.whole, chain.place), reply),
        Link::Imposing(_, list, place) => is_to_impose(list, *place, reply),
        Link::Marking(_, list) => is_to_mark(list, reply),
    }
}

/// Whether a reply is one to what a task asked for that posted its answer: none is.
fn end_expects<T: Told>(reply: &Reply<T>) -> bool
    ensures { (c : Configured) → Decides result (IsReplyTo c waits.Ended reply.now) }
{
    // the contract alone speaks of it: no reply is expected
    let _ = reply;
    false
}

/// Whether a reply is one to what a task at this stage asked for.
pub(crate) fn expects<T: Told>(config: &Arc<Config>, stage: &Stage<T>, reply: &Reply<T>) -> bool
    ensures { Decides result (Expects (task_at config.now.value stage.now) reply.now) }
{
    match stage {
        Stage::Load(load) => load_expects(load, reply),
        Stage::Resolve(resolution) => resolution_expects(config, resolution, reply),
        Stage::Link(link) => link_expects(config, link, reply),
        Stage::Done(_) => end_expects(reply),
    }
}
