ghost use Rattle.cl_tasks.specs.Stages.{IsStage, task_at};
ghost use Rattle.cl_tasks.specs.Steps.{Steps};
ghost use Rattle.cl_tasks.specs.Turns.{Expects};

use crate::step::{step_of_link, step_of_load, step_of_resolution};
use crate::turn::{Reply, Turn};
use cl_config::Config;
use cl_delegation::{Home, Search};
use cl_findings::{Finding, Target};
use cl_hierarchy::{ClassRow, Equalities, Frame, Lineage, Path};
use cl_members::Found;
use cl_model::{Request, Told};
use std::alloc::Global;
use std::sync::Arc;

/// A request with its number, and how far the derivation went of the class that is loaded for it: its own, or that of its
/// reference.
#[derive(Drop)]
pub struct Job<T: Told> {
    pub q: u32,
    pub request: Request,
    pub target: Target<T>,
    pub path: Path<T>,
}

/// A load (JVMS SE 8, 5.3, 5.3.5).
#[derive(Drop)]
pub enum Load<T: Told> {
    Fresh(Job<T>),
    Looking(Job<T>),
    Searching(Job<T>, Search<T>),
    /// What is looked for was found at this home, which is another loader than the one that was asked.
    Homing(Job<T>, Home<T>),
    /// This class, which has accepted all its supertypes, is being recorded.
    Defining(Job<T>, Frame<T>),
    /// The loader that was asked is being recorded for the class of this home.
    Initiating(Job<T>, Arc<Home<T>>),
}

/// A request to resolve an entry of the pool of a class, which is recorded (JVMS SE 8, 5.4.3).
#[derive(Drop)]
pub struct Entry<T: Told> {
    pub q: u32,
    pub request: Request,
    pub index: u16,
    /// The class whose pool has the entry.
    pub d: Arc<ClassRow<T>>,
}

/// A resolution whose request's class cannot be loaded.
#[derive(Drop)]
pub struct Failed<T: Told> {
    pub q: u32,
    pub request: Request,
    pub finding: Finding<T>,
}

/// A member that an entry asks for, with its loading constraints.
#[derive(Drop)]
pub struct Member<T: Told> {
    pub entry: Entry<T>,
    pub found: Found<T>,
    pub equalities: Arc<Equalities<T>>,
}

/// A resolution whose request's class is recorded, or cannot be loaded (JVMS SE 8, 5.4.3).
#[derive(Drop)]
pub enum Resolution<T: Told> {
    /// The class cannot be loaded; it is looked for once more.
    Checking(Failed<T>),
    LookingReference(Entry<T>),
    /// The entry asks for a member of this class.
    TracingOwn(Entry<T>, Arc<ClassRow<T>>),
    TracingNamed(Entry<T>, Lineage<T>, Arc<ClassRow<T>>),
    /// The equality at this place is being imposed.
    Imposing(Member<T>, usize),
    Settling(Entry<T>),
}

/// A request to link a class, which is recorded (JVMS SE 8, 5.4).
#[derive(Drop)]
pub struct Goal<T: Told> {
    pub q: u32,
    pub request: Request,
    pub class: Arc<ClassRow<T>>,
}

/// The classes of a lineage, those before this place prepared.
#[derive(Drop)]
pub struct Chain<T: Told> {
    pub goal: Goal<T>,
    pub whole: Lineage<T>,
    pub place: usize,
}

/// A link whose request's class is recorded (JVMS SE 8, 5.4.2).
#[derive(Drop)]
pub enum Link<T: Told> {
    LookingPrepared(Goal<T>),
    TracingWhole(Goal<T>),
    /// How many of the classes above are prepared, from the first on, is asked.
    Counting(Goal<T>, Lineage<T>),
    Tracing(Chain<T>),
    /// The equality at this place is being imposed.
    Imposing(Chain<T>, Arc<Equalities<T>>, usize),
    Marking(Chain<T>, Arc<Equalities<T>>),
}

/// What a task is at.
pub enum Stage<T: Told> {
    Load(Load<T>),
    Resolve(Resolution<T>),
    Link(Link<T>),
    /// The request of this number has its answer.
    Done(u32),
}

impl<T: Told> Drop for Stage<T> {
    fn drop(self) {
        match self {
            Stage::Load(_) => {}
            Stage::Resolve(_) => {}
            Stage::Link(_) => {}
            Stage::Done(_) => {}
        }
    }
}

impl<T: Told> Stage<T> {
    /// Lets it go.
    pub(crate) fn let_go(self) {
        match self {
            Stage::Load(_) => {}
            Stage::Resolve(_) => {}
            Stage::Link(_) => {}
            Stage::Done(_) => {}
        }
    }

    /// The turn that a reply leads to.
    pub(crate) fn step(self, alloc: Global, config: &Arc<Config>, reply: Reply<T>) -> Next<T>
        requires kept { IsStage T.told config.now.value self }
        requires expects { Expects (task_at config.now.value self) reply }
        ensures { Steps T.told (task_at config.now.value self) reply result }
    {
        match self {
            Stage::Load(load) => step_of_load(alloc, config, load, reply),
            Stage::Resolve(resolution) => step_of_resolution(alloc, config, resolution, reply),
            Stage::Link(link) => step_of_link(alloc, config, link, reply),
            Stage::Done(_) => unreachable!(),
        }
    }
}

/// A turn, and what the task is at after it.
#[derive(Drop)]
pub struct Next<T: Told> {
    pub stage: Stage<T>,
    pub turn: Turn<T>,
}
