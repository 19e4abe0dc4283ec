ghost use Rattle.std.specs.Prelude.{◌≡◌, ◌<◌, IfOk, IfErr, length, slice_get};
ghost use Rattle.cl_config.specs.Scripts.{HasLoaders};
ghost use Rattle.cl_findings.specs.Findings.{loader_of};
ghost use Rattle.cl_registry.specs.Posting.{IsBacked, MayPostUnder};
ghost use Rattle.cl_registry.specs.Tables.{IsKept, with_post};
ghost use Rattle.cl_tasks.specs.declared.turn.Turn.TheVariants as turns;
ghost use Rattle.cl_schedule.specs.Counting.{CountGrows, CountsFaults, faults};
ghost use Rattle.cl_schedule.specs.Headline.{IsServedInOrder};
ghost use Rattle.cl_schedule.specs.Replies.{IsCall};
ghost use Rattle.cl_schedule.specs.Known.{TellsKnown};
ghost use Rattle.cl_schedule.specs.Rounds.{RoundsPassed};
ghost use Rattle.cl_schedule.specs.Serving.{IsDone};

use crate::replies::reply_to;
use cl_config::{Config, Script};
use cl_findings::Finding;
use cl_model::{Request, Told};
use cl_registry::{Registry, Report};
use cl_source::Source;
use cl_tasks::{Reply, Task, Turn};
use std::alloc::{AllocError, Global};
use std::error::Error;
use std::fmt::{self, Display, Formatter};
use std::sync::Arc;

/// Why a script could not be served.
#[derive(Clone, Copy, Debug, PartialEq, Eq)]
pub enum ServeFault {
    Memory,
    /// A value did not fit the tables. Serving in order never answers it.
    Stray,
}

impl Display for ServeFault {
    ghost use Rattle.std.specs.Prelude.{Some};
    ghost use Rattle.cl_schedule.specs.Texts.{serve_text};

    ghost output = { λ fault. Some (serve_text fault) };

    fn fmt<W: fmt::Write>(&self, f: &mut Formatter<W>) -> fmt::Result {
        match self {
            ServeFault::Memory => write!(f, "Z0 Memory"),
            ServeFault::Stray => write!(f, "Z1 Stray"),
        }
    }
}

impl Error for ServeFault {}

impl From<AllocError> for ServeFault {
    ghost use Rattle.cl_schedule.specs.declared.serve.ServeFault.TheVariants.{Memory};

    ghost from_gives = { λ _ e. e ≡ Memory };

    fn from(_error: AllocError) -> ServeFault {
        ServeFault::Memory
    }
}

/// Posts an answer that the tables bear.
pub(crate) fn post<T: Told>(registry: &mut Registry<T>, q: u32, finding: Finding<T>)
    requires may { MayPostUnder registry.old q finding.request }
    requires backed { IsBacked registry.old finding }
    ensures posted { registry.new ≡ with_post registry.old q finding.answer }
    ensures kept { IsKept T.told registry.new }
{
    match registry.post(q, finding) {
        Ok(()) => {}
        Err(_) => unreachable!(),
    }
}

/// Begins the next rounds, as long as nothing of the round is unposted and there is a later one.
pub(crate) fn pass_rounds<T: Told>(registry: &mut Registry<T>)
    ensures passed { RoundsPassed registry.old registry.new }
    ensures kept { IsKept T.told registry.new }
{
    loop {
        match registry.next_round() {
            Ok(_) => {}
            Err(_) => return,
        }
    }
}

/// The answer that a turn asks to be posted, or else the turn, which asks for a call.
fn answer_of<T: Told>(turn: Turn<T>) -> Result<Finding<T>, Turn<T>>
    ensures post { IfOk result (λ f. turn ≡ Turn.Post f) }
    ensures call { IfErr result (λ call. (turn ≡ call) × IsCall call) }
{
    match turn {
        Turn::Post(finding) => Ok(finding),
        call => Err(call),
    }
}

/// Serves one request, from its first turn to its post (JVMS SE 8, 5.3 to 5.4.3).
fn serve_request<T: Told, S: Source<T>>(
    alloc: Global,
    config: Arc<Config>,
    registry: &mut Registry<T>,
    source: &mut S,
    q: u32,
    request: Request,
)
    // What is given.
    requires config { registry.old.config ≡ config.value }
    requires loader { loader_of request < length config.value.loaders }
    requires may { MayPostUnder registry.old q request }
    requires kept { IsKept T.told registry.old }
    // How the request ends, and how the faults of the source count.
    ensures done { IsDone T.told registry.old registry.new q request }
    ensures known { TellsKnown registry.old registry.new q request source.old source.new }
    ensures faults { CountGrows (faults registry.old.answers) (faults registry.new.answers)
        (S.refused source.old) (S.refused source.new) }
    // What the tables keep.
    ensures kept { IsKept T.told registry.new }
{
    let mut task = match Task::<T>::new(alloc, config, q, request) {
        Ok(task) => task,
        Err(refused) => {
            post(registry, q, Finding::memory(refused.request));
            return;
        }
    };
    let mut reply = Reply::Start;
    loop {
        match answer_of(task.turn(alloc, reply)) {
            Ok(finding) => {
                post(registry, q, finding);
                drop(task);
                return;
            }
            Err(call) => reply = reply_to(alloc, registry, source, call),
        }
    }
}

/// A copy of the request of a number.
pub(crate) fn request_at(alloc: Global, script: &Script, q: u32) -> Result<Request, AllocError>
    requires { q < length script.now.requests }
    ensures { IfOk result (λ r. slice_get script.now.requests q ≡ Some r) }
{
    script.requests()[q as usize].try_clone(alloc)
}

/// Serves the requests of a script in order, round by round (JVMS SE 8, 5.3). Where the source tells a content, the
/// report's history is a run of the linkage machine over it, in which each request is answered once, with what its plan
/// ends in there, or with a failure; the next round begins as soon as it may. Whatever the source tells, the report's
/// tables can be trusted.
///
/// Configuration and script are shared: a refusal drops what was moved in, and a caller that goes on keeps its own clone.
///
/// # Errors
///
/// `Z0`, where the registry, the copy of a request or a further handle of what is shared could not be had.
pub fn serve_one<T: Told, S: Source<T>>(
    alloc: Global,
    config: Arc<Config>,
    source: &mut S,
    script: Arc<Script>,
) -> Result<Report, ServeFault>
    requires { HasLoaders (length config.value.loaders) script.value.requests }
    ensures served { IfOk result (IsServedInOrder T.told config.value script.value) }
    ensures source_faults { IfOk result (λ r. CountsFaults r (S.refused source.old)
        (S.refused source.new)) }
    ensures no_stray { IfErr result (λ e. e ≡ ServeFault.Memory) }
{
    let held = Arc::try_clone(&config)?;
    let asked = Arc::try_clone(&script)?;
    let mut registry = match Registry::<T>::new(alloc, held, asked) {
        Ok(registry) => registry,
        Err(_) => return Err(ServeFault::Memory),
    };
    pass_rounds(&mut registry);
    let count = script.requests().len();
    for q in 0..count as u32 {
        let held = Arc::try_clone(&config)?;
        let request = request_at(alloc, &script, q)?;
        serve_request(alloc, held, &mut registry, source, q, request);
        pass_rounds(&mut registry);
    }
    match registry.into_report() {
        Ok(report) => Ok(report),
        Err(_) => unreachable!(),
    }
}
