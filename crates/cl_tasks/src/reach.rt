//! The class that a path loads is recorded: a request goes on with its own, an entry with the one that it names.

ghost use Rattle.std.specs.Prelude.{◌≡◌, []};
ghost use Rattle.cl_config.specs.Views.{Configured};
ghost use Rattle.cl_findings.specs.Findings.{name_of};
ghost use Rattle.cl_hierarchy.specs.Paths.{at_name};
ghost use Rattle.cl_tasks.specs.Deriving.{IsPast};
ghost use Rattle.cl_tasks.specs.Ends.{IsOwnTarget};
ghost use Rattle.cl_tasks.specs.Measures.{Initiating};
ghost use Rattle.cl_tasks.specs.Reaching.{ReachesBy};
ghost use Rattle.cl_tasks.specs.Stages.{IsJob, task_at};
ghost use Rattle.cl_tasks.specs.Steps.{FindsRow, IsPlain, LeadsAt};
ghost use Rattle.cl_tasks.specs.Turns.{GoesOnWith};

use crate::leads::{out_of_memory, post};
use crate::reference::take_named;
use crate::stage::{Entry, Goal, Job, Link, Next, Resolution, Stage};
use crate::turn::Turn;
use cl_config::Config;
use cl_findings::{Finding, Target};
use cl_hierarchy::ClassRow;
use cl_model::{Request, Told};
use std::alloc::Global;
use std::sync::Arc;

/// What a path loads is recorded, as this row.
pub(crate) fn reach<T: Told>(
    alloc: Global,
    config: &Arc<Config>,
    job: Job<T>,
    row: Arc<ClassRow<T>>,
) -> Next<T>
    requires job { IsJob T.told config.now.value job }
    requires alone { job.path.frames ≡ [] }
    requires name { row.value.class.name ≡ at_name job.path }
    ensures leads { LeadsAt T.told Initiating job (FindsRow job row.value) result }
    ensures own { IsOwnTarget job.target → GoesOnWith job.request row.value.class
        (task_at config.now.value result.stage) result.turn }
    ensures plain { IsPlain result.turn }
    ensures past { IsPast result.stage }
{
    let Job {
        q,
        request,
        target,
        ..
    } = job;
    match target {
        Target::Own => reach_own(alloc, q, request, row),
        Target::Reference(d) => match &request {
            Request::Resolve(_, _, index) => {
                let index = *index;
                let entry = Entry {
                    q,
                    request,
                    index,
                    d,
                };
                take_named(alloc, config, entry, row)
            }
            _ => unreachable!(),
        },
    }
}

/// The class of a request is recorded, as this row.
pub(crate) fn reach_own<T: Told>(
    alloc: Global,
    q: u32,
    request: Request,
    row: Arc<ClassRow<T>>,
) -> Next<T>
    requires name { row.value.class.name ≡ name_of request }
    ensures reaches { ReachesBy q request row result }
    ensures goes_on { (c : Configured) → GoesOnWith request row.value.class (task_at c result.stage)
        result.turn }
    ensures plain { IsPlain result.turn }
    ensures past { IsPast result.stage }
{
    let class = match row.class().try_clone(alloc) {
        Err(_) => return out_of_memory(q, request),
        Ok(class) => class,
    };
    match &request {
        Request::Load(..) => post(q, Finding::class(request, class)),
        Request::Resolve(_, _, index) => {
            let index = *index;
            Next {
                stage: Stage::Resolve(Resolution::LookingReference(Entry {
                    q,
                    request,
                    index,
                    d: row,
                })),
                turn: Turn::LookReference(class, index),
            }
        }
        Request::Link(..) => Next {
            stage: Stage::Link(Link::LookingPrepared(Goal {
                q,
                request,
                class: row,
            })),
            turn: Turn::LookPrepared(class),
        },
    }
}
