//! Requests that take turns: each waits with its task and with the call that the task asks for (JVMS SE 8, 5.3 to 5.4.3).

ghost use Rattle.std.specs.Prelude.{◌≡◌, ◌<◌, ◌+◌, ℕ, IfOk, IfErr, None, OnErr, length, Some};
ghost use Rattle.cl_model.specs.declared.answer.Answer.TheVariants as answers;
ghost use Rattle.cl_model.specs.declared.request.Request as requests;
ghost use Rattle.cl_findings.specs.Findings.{loader_of};
ghost use Rattle.cl_model.specs.States.{Verdict};
ghost use Rattle.cl_registry.specs.Tables.{Shown, IsKept, state_of};
ghost use Rattle.cl_tasks.specs.Turns.{Expects};
ghost use Rattle.cl_schedule.specs.Counting.{CountGrows, faults, owed_fault, owed_of, told_faults};
ghost use Rattle.cl_schedule.specs.Nearing.{AtHand, IsNear, calls_after};
ghost use Rattle.cl_schedule.specs.Paying.{PaysFor, StartsWithin};
ghost use Rattle.cl_schedule.specs.Rooms.{HasTurned};
ghost use Rattle.cl_schedule.specs.Seats.{TaskIsReady, IsSeated, IsSeatedAt};

use crate::replies::{ask_source, reply_to};
use crate::serve::ServeFault;
use cl_config::Config;
use cl_findings::Finding;
use cl_model::{Request, Told};
use cl_registry::Registry;
use cl_source::Source;
use cl_tasks::{Reply, Task, Turn};
use std::alloc::Global;
use std::sync::Arc;

/// A request that was begun: its task, and the call that the task asks for, or the post of its answer.
#[derive(Drop)]
pub(crate) struct Seat<T: Told> {
    pub task: Task<T>,
    pub call: Turn<T>,
}

/// Takes a task from a reply to its next call of the tables or to its post, reads between included.
pub(crate) fn read_on<T: Told, S: Source<T>>(
    alloc: Global,
    source: &mut S,
    mut task: Task<T>,
    mut reply: Reply<T>,
) -> Seat<T>
    requires expects { Expects task reply }
    ensures seated { (x : Shown) (q : ℕ) (r : requests.Request) → TaskIsReady T.told x task reply r
        → IsSeated T.told x result.task result.call q r }
    ensures less { result.task.left < task.left }
    ensures faults { CountGrows (told_faults reply) (owed_fault result.call)
        (S.refused source.old) (S.refused source.new) }
    ensures known { (x : Shown) (r : requests.Request) (v : Verdict)
        → AtHand (state_of x) r v task reply → task.request ≡ Some r
        → IsNear (state_of x) r v (calls_after reply + 1) result.task result.call }
    ensures paid { (x : Shown) (r : requests.Request) → TaskIsReady T.told x task reply r
        → PaysFor T.told x r task result.task }
{
    loop {
        match task.turn(alloc, reply) {
            Turn::Read(loader, name) => reply = ask_source(alloc, source, loader, &name),
            call => return Seat { task, call },
        }
    }
}

/// Begins a request. Where memory ran out before its first turn, that is its answer.
pub(crate) fn begin<T: Told, S: Source<T>>(
    alloc: Global,
    config: Arc<Config>,
    source: &mut S,
    q: u32,
    request: Request,
) -> Result<Seat<T>, Finding<T>>
    requires loader { loader_of request < length config.value.loaders }
    // What is begun.
    ensures seated { IfOk result (λ s. (x : Shown) → IsKept T.told x → x.config ≡ config.value
        → IsSeated T.told x s.task s.call q request) }
    // What is answered where memory ran out.
    ensures request { IfErr result (λ f. f.request ≡ request) }
    ensures memory { IfErr result (λ f. f.answer ≡ answers.Memory) }
    // What the source was asked.
    ensures faults { IfOk result (λ s. CountGrows 0 (owed_fault s.call)
        (S.refused source.old) (S.refused source.new)) }
    ensures unread { OnErr result (source.new ≡ source.old) }
    // How many calls are left.
    ensures known { IfOk result (λ s. (x : Shown) (v : Verdict)
        → IsNear (state_of x) request v 3 s.task s.call) }
    ensures paid { IfOk result (λ s. (x : Shown) → IsKept T.told x → x.config ≡ config.value
        → StartsWithin T.told x request s.task) }
{
    match Task::<T>::new(alloc, config, q, request) {
        Ok(task) => Ok(read_on(alloc, source, task, Reply::Start)),
        Err(refused) => Err(Finding::memory(refused.request)),
    }
}

/// One choice of a request that was begun: its call is made, and it goes on to the next, or its answer is posted. `Stray`,
/// where the tables do not bear the answer.
pub(crate) fn advance<T: Told, S: Source<T>>(
    alloc: Global,
    registry: &mut Registry<T>,
    source: &mut S,
    q: u32,
    seat: Seat<T>,
) -> Result<Option<Seat<T>>, ServeFault>
    requires kept { IsKept T.told registry.old }
    requires seated { IsSeatedAt T.told registry.old seat.task seat.call q }
    ensures turned { IfOk result (HasTurned T.told registry.old registry.new q (Some seat)) }
    ensures faults { IfOk result (λ o.
        CountGrows (faults registry.old.answers + owed_fault seat.call)
        (faults registry.new.answers + owed_of o) (S.refused source.old) (S.refused source.new)) }
    ensures stray { IfErr result (λ e. (e ≡ ServeFault.Stray) × (T.told ≡ None)) }
    ensures kept { IsKept T.told registry.new }
{
    let Seat { task, call } = seat;
    match call {
        Turn::Post(finding) => match registry.post(q, finding) {
            Ok(()) => Ok(None),
            Err(refused) => {
                // (whole, since each way to take it apart is a case of the proof)
                drop(refused);
                Err(ServeFault::Stray)
            }
        },
        call => {
            let reply = reply_to(alloc, registry, source, call);
            Ok(Some(read_on(alloc, source, task, reply)))
        }
    }
}
