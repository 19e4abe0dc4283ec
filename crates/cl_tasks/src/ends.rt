//! How a load ends otherwise than with its class: of the request's own class it is answered, of that of its reference the
//! reference is settled to it.

ghost use Rattle.std.specs.Prelude.{◌≡◌, ◌<◌, length, IfOk, IfErr};
ghost use Rattle.cl_hierarchy.specs.Paths.{at_loader};
ghost use Rattle.cl_model.specs.Views.{need_of};
ghost use Rattle.cl_findings.specs.Loads.{ComesNext, Stops, next_need};
ghost use Rattle.cl_model.specs.declared.answer.Answer.TheVariants as answers;
ghost use Rattle.cl_tasks.specs.Deriving.{IsPast};
ghost use Rattle.cl_tasks.specs.Follows.{EndsAsRefused, ResolvesReference, Posts, fault_answer};
ghost use Rattle.cl_tasks.specs.Ends.{ConcludesBy, EndRests, IsAftermath, NextRests, NextWithin, RefusedOn};
ghost use Rattle.cl_tasks.specs.Rooms.{last_room, past_room};
ghost use Rattle.cl_tasks.specs.Stages.{IsJob, IsSearch, loading_at};
ghost use Rattle.cl_tasks.specs.Steps.{EndWithin, EndsOn, IsPlain, Leads};

use crate::leads::{out_of_memory, post, settle};
use crate::stage::{Entry, Failed, Job, Load, Next, Resolution, Stage};
use crate::turn::Turn;
use cl_delegation::Search;
use cl_findings::{Finding, NextRecord, Obstacle, Target};
use cl_hierarchy::Path;
use cl_model::{LoaderId, Need, Request, Told};
use cl_names::Name;
use cl_registry::laws::recorded_is_named;
use cl_source::SourceFault;
use std::alloc::{AllocError, Global};
use std::sync::Arc;

/// What follows where a load does not end with its class.
#[derive(Drop)]
pub(crate) enum Aftermath<T: Told> {
    /// The end is the answer.
    Answer,
    /// The class of a resolution is looked for once more, through this loader by this name.
    Check(Request, LoaderId, Name),
    /// The reference of this entry is settled to the end.
    Settle(Entry<T>),
}

/// What follows where this load does not end with its class.
fn what_follows<T: Told>(alloc: Global, job: &Job<T>) -> Result<Aftermath<T>, AllocError>
    requires { IsJob T.told job.now.path.config job.now }
    ensures follows { IfOk result (IsAftermath job.now) }
    ensures lacks { IfErr result (λ e. ResolvesReference job.now.request) }
{
    match (&job.target, &job.request) {
        (Target::Own, Request::Resolve(loader, name, _)) => {
            let name = name.try_clone(alloc)?;
            let request = job.request.try_clone(alloc)?;
            Ok(Aftermath::Check(request, *loader, name))
        }
        (Target::Own, _) => Ok(Aftermath::Answer),
        (Target::Reference(d), Request::Resolve(_, _, index)) => {
            let request = job.request.try_clone(alloc)?;
            let d = Arc::try_clone(d)?;
            Ok(Aftermath::Settle(Entry {
                q: job.q,
                request,
                index: *index,
                d,
            }))
        }
        (Target::Reference(_), _) => unreachable!(),
    }
}

/// A load ended with this finding.
fn conclude<T: Told>(q: u32, aftermath: Aftermath<T>, finding: Finding<T>) -> Next<T>
    ensures { ConcludesBy q aftermath finding result }
{
    match aftermath {
        Aftermath::Answer => post(q, finding),
        Aftermath::Check(request, loader, name) => Next {
            stage: Stage::Resolve(Resolution::Checking(Failed {
                q,
                request,
                finding,
            })),
            turn: Turn::Look(loader, name),
        },
        Aftermath::Settle(entry) => settle(entry, finding),
    }
}

/// Brings what an obstacle rests on.
fn bring_end<T: Told>(path: &Path<T>, end: &Obstacle<T>)
    requires { Stops path.now end.now }
    ensures { EndRests T.told path.now end.now }
{
    let _ = path.config();
    match end {
        Obstacle::Missing(unfound) => {
            let _ = unfound.config();
        }
        Obstacle::Unreadable(unreadable) => {
            let _ = unreadable.fault();
            let home = unreadable.home();
            let _ = home.config();
            let _ = home.bytes();
        }
        Obstacle::Circle(home) => {
            let _ = home.config();
        }
        Obstacle::Misfit(row, _, _) => {
            let _ = row.class();
        }
    }
}

/// Brings what the refusal of a record rests on.
fn bring_next<T: Told>(path: &Path<T>, next: &NextRecord<T>)
    requires next { ComesNext T.told path.now next.now }
    requires loader { at_loader path.now < length path.now.config.loaders }
    ensures rests { NextRests T.told path.now next.now }
    ensures within { NextWithin (length path.now.config.loaders) next.now }
{
    let _ = path.config();
    match next {
        NextRecord::Define(whole) => {
            let _ = whole.draft().home();
        }
        NextRecord::Initiate(home) => {
            let _ = home.config();
        }
    }
}

/// The derivation is stopped.
pub(crate) fn obstacle<T: Told>(alloc: Global, job: Job<T>, end: Obstacle<T>) -> Next<T>
    requires job { IsJob T.told job.path.config job }
    requires stops { Stops job.path end }
    requires within { EndWithin (length job.path.config.loaders) end }
    ensures leads { Leads T.told job (past_room job) (EndsOn job end) result }
    ensures plain { IsPlain result.turn }
    ensures past { IsPast result.stage }
{
    let Ok(aftermath) = what_follows(alloc, &job) else {
        return out_of_memory(job.q, job.request);
    };
    // brings what an obstacle rests on, and that what is recorded was defined by a loader of the
    // configuration
    bring_end(&job.path, &end);
    recorded_is_named();
    conclude(
        job.q,
        aftermath,
        Finding::obstacle(job.request, job.target, job.path, end),
    )
}

/// The record that comes next is refused.
pub(crate) fn refuse<T: Told>(
    alloc: Global,
    job: Job<T>,
    next: NextRecord<T>,
    need: Need,
) -> Next<T>
    // What is given.
    requires job { IsJob T.told job.path.config job }
    requires next { ComesNext T.told job.path next }
    requires need { need_of need ≡ next_need next }
    // What it leads to.
    ensures leads { Leads T.told job (past_room job) (RefusedOn job next) result }
    ensures plain { IsPlain result.turn }
    ensures past { IsPast result.stage }
    // What is posted of the refusal, and when that memory ran out.
    ensures lacks { Posts answers.Memory result.turn → ResolvesReference job.request }
    ensures ends { EndsAsRefused job.request need result.turn }
{
    let Ok(aftermath) = what_follows(alloc, &job) else {
        return out_of_memory(job.q, job.request);
    };
    // brings what a refusal rests on
    bring_next(&job.path, &next);
    conclude(
        job.q,
        aftermath,
        Finding::refused(job.request, job.target, job.path, next, need),
    )
}

/// The source refused the read that was next, out of memory or for another cause.
pub(crate) fn blame_source<T: Told>(job: Job<T>, search: Search<T>, fault: SourceFault) -> Next<T>
    requires job { IsJob T.told job.path.config job }
    requires search { IsSearch job search }
    ensures leads { Leads T.told job last_room (λ x. Unit {0}) result }
    ensures posts { Posts (fault_answer (loading_at job.path.config
        (Load.Searching job search)).waits fault) result.turn }
    ensures past { IsPast result.stage }
{
    if fault == SourceFault::Memory {
        return out_of_memory(job.q, job.request);
    }
    let loader = match search.next_probe() {
        Some(loader) => loader,
        None => unreachable!(),
    };
    let name = job.path.into_class().name;
    post(job.q, Finding::source_fault(job.request, name, loader))
}
