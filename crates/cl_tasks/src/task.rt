ghost use Rattle.std.specs.Prelude.{◌≡◌, ◌<◌, IfOk, IfErr, IfSome, length};
ghost use Rattle.cl_findings.specs.Findings.{loader_of, Decides};
ghost use Rattle.cl_registry.specs.Tables.{Shown};
ghost use Rattle.cl_tasks.specs.Blames.{BlamesWhere};
ghost use Rattle.cl_tasks.specs.Facts.{Holds};
ghost use Rattle.cl_tasks.specs.Follows.{AreLeft, BackedWhere, CallsWithin, EndsRefused, FollowsWhere, IsWithinCost, LacksOnly, Refuses, Tells, TellsNow, made_by, refusal};
ghost use Rattle.cl_tasks.specs.Tasks.{begun_task};
ghost use Rattle.cl_tasks.specs.Turns.{AnswersOwn, Asks, DerivesUnrecorded, Expects, KeepsRequest, ReadsUnrecorded};

use crate::expected::expects;
use crate::stage::{Job, Load, Stage};
use crate::step::number;
use crate::turn::{Reply, Turn};
use cl_config::Config;
use cl_findings::Target;
use cl_hierarchy::Path;
use cl_model::{Request, Told};
use std::alloc::Global;
use std::marker::Model;
use std::mem;
use std::sync::Arc;
use thiserror::Error;

/// One request, turn by turn, to its answer (JVMS SE 8, 5.3 to 5.4.3).
pub struct Task<T: Told> {
    config: Arc<Config>,
    stage: Stage<T>,
}

impl<T: Told> Drop for Task<T> {
    fn drop(self) {
        let Task {
            config: _,
            stage: _,
        } = self;
    }
}

impl<T: Told> Model for Task<T> {
    ghost use Rattle.cl_tasks.specs.Stages.{IsStage, task_at};
    ghost use Rattle.cl_tasks.specs.Tasks.{Tasked};

    ghost Value = { Tasked };

    ghost view = { λ t. task_at t.config.value t.stage };

    ghost invariant = { λ t. IsStage T.told t.config.value t.stage };
}

/// A task could not be made.
#[derive(Debug, Drop, Error)]
#[error("Q0 Memory")]
pub struct TaskRefused {
    pub config: Arc<Config>,
    pub request: Request,
}

impl<T: Told> Task<T> {
    /// The task of a request, which has this number in its script.
    pub fn new(
        alloc: Global,
        config: Arc<Config>,
        q: u32,
        request: Request,
    ) -> Result<Task<T>, TaskRefused>
        requires loader { loader_of request < length config.value.loaders }
        ensures fresh { IfOk result (λ t. t ≡ begun_task config.value q request) }
        ensures cost { IfOk result (λ t. IsWithinCost t.calls) }
        ensures more { IfOk result (λ t. AreLeft t.calls) }
        ensures refused { IfErr result (λ e. (e.config.value ≡ config.value)
            × (e.request ≡ request)) }
    {
        let loader = request.loader();
        let name = match request.name().try_clone(alloc) {
            Ok(name) => name,
            Err(_) => return Err(TaskRefused { config, request }),
        };
        let Ok(shared) = Arc::try_clone(&config) else {
            return Err(TaskRefused { config, request });
        };
        let path = Path::new(alloc, shared, loader, name);
        let target = Target::Own;
        Ok(Task {
            config,
            stage: Stage::Load(Load::Fresh(Job {
                q,
                request,
                target,
                path,
            })),
        })
    }

    /// The number of the request in its script.
    pub fn q(&self) -> u32
        ensures { result ≡ self.now.q }
    {
        number(&self.stage)
    }

    /// Whether a reply is one to what the task asked for.
    pub fn expects(&self, reply: &Reply<T>) -> bool
        ensures { Decides result (Expects self.now reply.now) }
    {
        expects(&self.config, &self.stage, reply)
    }

    /// The next turn, by the reply to the last. What each clause promises stands in the crate's README, 'What `turn` promises'.
    pub fn turn(&mut self, alloc: Global, reply: Reply<T>) -> Turn<T>
        requires expects { Expects self.old reply }
        // What stays, and what it asks.
        ensures number { self.new.q ≡ self.old.q }
        ensures config { self.new.config ≡ self.old.config }
        ensures asks { Asks self.new result }
        ensures serves { KeepsRequest self.old self.new result }
        // How much is left.
        ensures left { self.new.left < self.old.left }
        ensures calls { IfSome self.old.request (λ r. CallsWithin T.told self.old.config
            (λ x. TellsNow x self.old reply) r (made_by self.old.waits) self.new.calls
            self.old.calls) }
        ensures more { AreLeft self.new.calls }
        // What holds in each state of the tables in which what was told holds.
        ensures keeps { (x : Shown) → Tells x self.old reply → Holds x self.new }
        ensures backed { BackedWhere self.old.config (λ x. TellsNow x self.old reply) result }
        ensures next { IfSome self.old.request (λ r. FollowsWhere T.told self.old.config
            (λ x. Tells x self.old reply) r result) }
        // What refusals lead to.
        ensures refused { Refuses (refusal self.old reply) result }
        ensures linkage { EndsRefused self.old.request reply result }
        ensures lacks { LacksOnly self.old.request reply result }
        ensures blames { IfSome self.old.request (λ r. BlamesWhere T.told self.old.config
            (λ x. Tells x self.old reply) r result) }
        // What was looked at before.
        ensures reads { ReadsUnrecorded self.old reply result }
        ensures derives { DerivesUnrecorded self.old self.new reply result }
        ensures own { AnswersOwn self.old self.new reply result }
    {
        let q = self.q();
        let stage = mem::replace(&mut self.stage, Stage::Done(q));
        let next = stage.step(alloc, &self.config, reply);
        // (a call, since how a stage is dropped is too much for the proof of this function)
        mem::replace(&mut self.stage, next.stage).let_go();
        next.turn
    }
}
