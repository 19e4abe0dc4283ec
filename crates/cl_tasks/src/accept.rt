//! From a home to the record of its class, and on with the class that waits for it.

ghost use Rattle.std.specs.Prelude.{◌≡◌, ◌≢◌, ◌≤◌, [], None, IfOk, IsSome, false, length};
ghost use Rattle.cl_classfile.specs.Files.{file_of};
ghost use Rattle.cl_findings.specs.Loads.{IsSought, IsWhole, IsMisfit};
ghost use Rattle.cl_hierarchy.specs.Drafts.{home_class};
ghost use Rattle.cl_hierarchy.specs.Frames.{frame_of};
ghost use Rattle.cl_hierarchy.specs.Paths.{at_loader, at_name, frames_of, fresh, is_on, misfit_under};
ghost use Rattle.cl_model.specs.Classes.{supers};
ghost use Rattle.cl_model.specs.Frames.{wanted_supertype};
ghost use Rattle.cl_tasks.specs.Deriving.{Derives, IsHomeClass, IsNone, IsPast};
ghost use Rattle.cl_tasks.specs.Ends.{IsOwnTarget};
ghost use Rattle.cl_tasks.specs.Measures.{Fresh, Homing, Defining, Initiating, most};
ghost use Rattle.cl_tasks.specs.Repeating.{PathComesTo};
ghost use Rattle.cl_tasks.specs.Stages.{IsJob, task_at, InitiatesNext};
ghost use Rattle.cl_tasks.specs.Steps.{DefinesBy, FindsRow, FindsBy, HoldsOn, IsPlain, LeadsAt, LeadsFrom, LooksBy};
ghost use Rattle.cl_tasks.specs.Turns.{GoesOnWith};

use crate::ends::obstacle;
use crate::leads::out_of_memory;
use crate::reach::reach;
use crate::stage::{Job, Load, Next, Stage};
use crate::turn::Turn;
use cl_config::Config;
use cl_delegation::Home;
use cl_findings::Obstacle;
use cl_hierarchy::{ClassRow, Draft, DraftRefused, Frame, Path, Repeated};
use cl_model::{ErrorKind, Told};
use std::alloc::{AllocError, Global};
use std::sync::Arc;

/// Looks up what the path is at.
pub(crate) fn look<T: Told>(alloc: Global, job: Job<T>) -> Next<T>
    requires job { IsJob T.told job.path.config job }
    ensures leads { LeadsAt T.told Fresh job (HoldsOn job) result }
    ensures looks { LooksBy job result.stage result.turn }
    ensures plain { IsPlain result.turn }
    ensures derives { Derives IsNone (frames_of job.path) result.stage }
{
    match job.path.at_name().try_clone(alloc) {
        Err(_) => out_of_memory(job.q, job.request),
        Ok(name) => {
            let loader = job.path.at_loader();
            Next {
                stage: Stage::Load(Load::Looking(job)),
                turn: Turn::Look(loader, name),
            }
        }
    }
}

/// Derives what is looked for from the bytes of its home.
pub(crate) fn derive<T: Told>(alloc: Global, job: Job<T>, home: Home<T>) -> Next<T>
    requires job { IsJob T.told job.path.config job }
    requires home { IsSought job.path home }
    requires off { is_on job.path (home_class home) ≡ false }
    ensures leads { LeadsFrom T.told Homing job home.definer (HoldsOn job) result }
    ensures plain { IsPlain result.turn }
    ensures derives { Derives (IsHomeClass home) (frames_of job.path) result.stage }
{
    // brings what a home keeps
    let _ = home.config();
    match Draft::read(alloc, home) {
        Err(DraftRefused::Memory(_)) => out_of_memory(job.q, job.request),
        Err(DraftRefused::Unreadable(unreadable)) => {
            obstacle(alloc, job, Obstacle::Unreadable(unreadable))
        }
        Ok(draft) => follow_draft(alloc, job, draft),
    }
}

/// The file of what is looked for was read: its direct supertypes come first.
fn follow_draft<T: Told>(alloc: Global, job: Job<T>, draft: Draft<T>) -> Next<T>
    requires job { IsJob T.told job.path.config job }
    requires home { IsSought job.path draft.home }
    requires off { is_on job.path draft.class ≡ false }
    ensures leads { LeadsFrom T.told Homing job draft.home.definer (HoldsOn job) result }
    ensures plain { IsPlain result.turn }
    ensures derives { Derives (λ c. c ≡ draft.class) (frames_of job.path) result.stage }
{
    // brings what a draft keeps
    let _ = draft.home();
    if draft.supertypes() == 0 {
        // brings what a path keeps
        let _ = job.path.at_name();
        return define(alloc, job, Frame::new(alloc, draft));
    }
    descend(alloc, job, draft)
}

/// What is looked for waits for its first supertype.
fn descend<T: Told>(alloc: Global, job: Job<T>, draft: Draft<T>) -> Next<T>
    // What is given.
    requires job { IsJob T.told job.path.config job }
    requires home { IsSought job.path draft.home }
    requires off { is_on job.path draft.class ≡ false }
    requires waits { IsSome (wanted_supertype (frame_of (fresh draft))) }
    requires few { length (supers (file_of draft.file)) ≤ most }
    // What it leads to.
    ensures leads { LeadsFrom T.told Homing job draft.home.definer (HoldsOn job) result }
    ensures plain { IsPlain result.turn }
    ensures derives { Derives (λ c. c ≡ draft.class) (frames_of job.path) result.stage }
{
    // brings what a path keeps
    let _ = job.path.at_name();
    let Job {
        q,
        request,
        target,
        mut path,
    } = job;
    match path.push(draft) {
        Ok(()) => {}
        Err(_) => return out_of_memory(q, request),
    }
    // brings what a path keeps
    let _ = path.at_name();
    look(
        alloc,
        Job {
            q,
            request,
            target,
            path,
        },
    )
}

/// Asks for the record of a class with its home. Its frame is kept, so that a refusal can be told.
fn define<T: Told>(alloc: Global, job: Job<T>, whole: Frame<T>) -> Next<T>
    ensures { DefinesBy job whole result }
{
    match whole.draft().try_clone(alloc) {
        Err(_) => out_of_memory(job.q, job.request),
        Ok(draft) => Next {
            stage: Stage::Load(Load::Defining(job, whole)),
            turn: Turn::Define(draft),
        },
    }
}

/// The class of this frame is recorded by its loader, as this row.
pub(crate) fn take_defined<T: Told>(
    alloc: Global,
    config: &Arc<Config>,
    job: Job<T>,
    whole: Frame<T>,
    row: Arc<ClassRow<T>>,
) -> Next<T>
    requires job { IsJob T.told config.now.value job }
    requires whole { IsWhole T.told job.path whole }
    ensures leads { LeadsFrom T.told Defining job whole.draft.home.definer
        (FindsBy job whole.draft.home row.value) result }
    ensures own { IsOwnTarget job.target → job.path.frames ≡ []
        → whole.draft.home.definer ≡ at_loader job.path
        → GoesOnWith job.request row.value.class (task_at config.now.value result.stage)
        result.turn }
    ensures plain { IsPlain result.turn }
    ensures derives { Derives IsNone (frames_of job.path) result.stage }
{
    let home = whole.draft().home();
    if home.definer() == job.path.at_loader() {
        return go_on(alloc, config, job, row);
    }
    match Arc::try_clone(home) {
        Err(_) => out_of_memory(job.q, job.request),
        Ok(home) => initiate(job, home, &row),
    }
}

/// What is looked for is recorded at its home, another loader than the one that was asked: that one is
/// recorded, too.
pub(crate) fn initiate<T: Told>(job: Job<T>, home: Arc<Home<T>>, row: &ClassRow<T>) -> Next<T>
    requires job { IsJob T.told job.path.config job }
    requires next { InitiatesNext T.told job home }
    ensures leads { LeadsFrom T.told Defining job home.value.definer
        (FindsBy job home.value row.now) result }
    ensures plain { IsPlain result.turn }
    ensures derives { Derives IsNone (frames_of job.path) result.stage }
{
    // brings what a home keeps, and what a path keeps
    let _ = home.config();
    let _ = job.path.at_name();
    // a home has its own class alone, unless the source told two things: one that tells a content
    // never does
    if row.class().loader != home.definer() {
        return out_of_memory(job.q, job.request);
    }
    match Arc::try_clone(&home) {
        Err(_) => out_of_memory(job.q, job.request),
        Ok(kept) => Next {
            stage: Stage::Load(Load::Initiating(job, kept)),
            turn: Turn::Initiate(home),
        },
    }
}

/// What is looked for is recorded where it was asked for: the class that waits for it goes on, or it is
/// what the request loads.
pub(crate) fn go_on<T: Told>(
    alloc: Global,
    config: &Arc<Config>,
    job: Job<T>,
    row: Arc<ClassRow<T>>,
) -> Next<T>
    requires job { IsJob T.told config.now.value job }
    ensures leads { LeadsAt T.told Initiating job (FindsRow job row.value) result }
    ensures own { IsOwnTarget job.target → job.path.frames ≡ []
        → GoesOnWith job.request row.value.class (task_at config.now.value result.stage)
        result.turn }
    ensures plain { IsPlain result.turn }
    ensures derives { Derives IsNone (frames_of job.path) result.stage }
{
    // no registry gives a row of another name
    if row.class().name != *job.path.at_name() {
        return out_of_memory(job.q, job.request);
    }
    if job.path.is_empty() {
        return reach(alloc, config, job, row);
    }
    match job.path.misfit(&row) {
        Some(kind) => reject(alloc, job, row, kind),
        None => accept(alloc, job, &row),
    }
}

/// The recorded class does not fit as the supertype that is looked for.
fn reject<T: Told>(alloc: Global, job: Job<T>, row: Arc<ClassRow<T>>, kind: ErrorKind) -> Next<T>
    requires job { IsJob T.told job.path.config job }
    requires name { row.value.class.name ≡ at_name job.path }
    requires misfit { IsMisfit job.path row.value kind }
    ensures leads { LeadsAt T.told Initiating job (FindsRow job row.value) result }
    ensures plain { IsPlain result.turn }
    ensures past { IsPast result.stage }
{
    match row.class().try_clone(alloc) {
        Err(_) => out_of_memory(job.q, job.request),
        Ok(class) => obstacle(alloc, job, Obstacle::Misfit(row, class, kind)),
    }
}

/// The class that waits accepts the recorded one as its supertype.
fn accept<T: Told>(alloc: Global, job: Job<T>, row: &ClassRow<T>) -> Next<T>
    requires job { IsJob T.told job.path.config job }
    requires waits { job.path.frames ≢ [] }
    requires name { row.now.class.name ≡ at_name job.path }
    requires fits { misfit_under job.path.frames row.now.class (file_of row.now.file) ≡ None }
    ensures leads { LeadsAt T.told Initiating job (FindsRow job row.now) result }
    ensures plain { IsPlain result.turn }
    ensures derives { Derives IsNone (frames_of job.path) result.stage }
{
    // brings what a path keeps, and that the row's file is what its bytes spell
    let _ = job.path.at_name();
    let _ = row.class();
    let Job {
        q,
        request,
        target,
        mut path,
    } = job;
    let accepted = match path.accept(row) {
        Err(_) => return out_of_memory(q, request),
        Ok(accepted) => accepted,
    };
    // brings what a path keeps
    let _ = path.at_name();
    let job = Job {
        q,
        request,
        target,
        path,
    };
    match accepted {
        None => look_on(alloc, job),
        Some(whole) => define(alloc, job, whole),
    }
}

/// Looks up what the path is at, unless the class that waits accepted it before: its file may name one superinterface often.
fn look_on<T: Told>(alloc: Global, job: Job<T>) -> Next<T>
    requires job { IsJob T.told job.path.config job }
    ensures leads { LeadsAt T.told Fresh job (HoldsOn job) result }
    ensures plain { IsPlain result.turn }
    ensures derives { Derives IsNone (frames_of job.path) result.stage }
{
    let Job {
        q,
        request,
        target,
        mut path,
    } = job;
    let repeated = match accept_repeated(&mut path) {
        Err(_) => return out_of_memory(q, request),
        Ok(repeated) => repeated,
    };
    // brings what a path keeps
    let _ = path.at_name();
    let job = Job {
        q,
        request,
        target,
        path,
    };
    match repeated {
        None => look(alloc, job),
        Some(whole) => define(alloc, job, whole),
    }
}

/// The last class accepts what is looked for as long as it accepted that before: its whole frame, where nothing is left.
fn accept_repeated<T: Told>(path: &mut Path<T>) -> Result<Option<Frame<T>>, AllocError>
    ensures { IfOk result (PathComesTo T.told path.old path.new) }
{
    loop {
        match path.accept_if_repeated()? {
            Repeated::Other => return Ok(None),
            Repeated::Waits => {}
            Repeated::Whole(whole) => return Ok(Some(whole)),
        }
    }
}
