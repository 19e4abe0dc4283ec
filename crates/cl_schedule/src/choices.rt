//! Requests of a round in turns, as a schedule chooses among them (JVMS SE 8, 5.3 to 5.4.3).

ghost use Rattle.std.specs.Prelude.{◌≡◌, ◌+◌, [], IfOk, IfErr, MatchOption, Some, None, length, replicate, slice_get, slice_set};
ghost use Rattle.cl_config.specs.Scripts.{HasLoaders};
ghost use Rattle.cl_registry.specs.Tables.{IsKept, RoundMayBegin};
ghost use Rattle.cl_schedule.specs.Choices.{IsSimulated};
ghost use Rattle.cl_schedule.specs.Counting.{CountGrows, CountsFaults, faults, owed_at, owed_of};
ghost use Rattle.cl_schedule.specs.Places.{seat_at};
ghost use Rattle.cl_schedule.specs.Rooms.{ChoosesIn, FirstFalls, HasTaken, HasTurned, RoomIsOpened, RoomIsOver, IsServing, IsStrayUntold, MayBeTaken, KeepsTakings, PlayedPast, PlaysIn, ServesOn, TakesFirst};

use crate::gather::{count, gather, number_at, take_out};
use crate::seats::{Seat, advance, begin};
use crate::serve::{ServeFault, pass_rounds, post, request_at};
use cl_config::{Config, Script};
use cl_model::Told;
use cl_registry::{Registry, Report};
use cl_source::Source;
use cl_tasks::{Task, Turn};
use std::alloc::{AllocError, Global};
use std::collections::VecDeque;
use std::sync::Arc;

/// What is served of a script: of each request that was begun and has no answer its task and its call, and who waits.
///
/// Tasks and calls are apart, since a vector of both together is more than the checker follows where it is dropped.
struct Room<T: Told> {
    tasks: Vec<Option<Task<T>>>,
    calls: Vec<Option<Turn<T>>>,
    /// The numbers of the requests of the round that have no answer, in order.
    waiting: VecDeque<u32>,
    /// The requests from this number on are of later rounds.
    next: usize,
}

impl<T: Told> Drop for Room<T> {
    fn drop(self) {
        let Room {
            tasks: _,
            calls: _,
            waiting: _,
            next: _,
        } = self;
    }
}

impl<T: Told> Room<T> {
    /// The room of so many requests, none of which was begun.
    fn new(alloc: Global, count: usize) -> Result<Room<T>, AllocError>
        ensures tasks { IfOk result (λ r. r.tasks.items ≡ replicate count None) }
        ensures calls { IfOk result (λ r. r.calls.items ≡ replicate count None) }
        ensures waiting { IfOk result (λ r. r.waiting.items ≡ []) }
        ensures next { IfOk result (λ r. r.next ≡ 0) }
    {
        Ok(Room {
            tasks: empty_places(alloc, count)?,
            calls: empty_places(alloc, count)?,
            waiting: VecDeque::with_capacity(alloc, count)?,
            next: 0,
        })
    }

    /// Takes a request that was begun from its place.
    fn take(&mut self, q: usize) -> Option<Seat<T>>
        ensures seat { result ≡ seat_at self.old q }
        ensures taken { HasTaken self.old self.new q }
    {
        let call = take_place(&mut self.calls, q)?;
        match take_place(&mut self.tasks, q) {
            Some(task) => Some(Seat { task, call }),
            None => {
                // (whole, since each way to take it apart is a case of the proof)
                drop(call);
                None
            }
        }
    }

    /// Puts a request that was begun in its place.
    fn put(&mut self, q: usize, seat: Seat<T>)
        ensures tasks { self.new.tasks.items ≡ slice_set self.old.tasks.items q (Some seat.task) }
        ensures calls { self.new.calls.items ≡ slice_set self.old.calls.items q (Some seat.call) }
        ensures waiting { self.new.waiting.items ≡ self.old.waiting.items }
        ensures next { self.new.next ≡ self.old.next }
    {
        let Seat { task, call } = seat;
        put_place(&mut self.tasks, q, task);
        put_place(&mut self.calls, q, call);
    }
}

/// So many places with nothing in them.
fn empty_places<A: Drop>(alloc: Global, count: usize) -> Result<Vec<Option<A>>, AllocError>
    ensures { IfOk result (λ v. v.items ≡ replicate count None) }
{
    let mut places = Vec::with_capacity(alloc, count)?;
    for _ in 0..count {
        places.push(None)?;
    }
    Ok(places)
}

/// What stands at a place, which then has nothing.
fn take_place<A: Drop>(places: &mut Vec<Option<A>>, at: usize) -> Option<A>
    ensures was { MatchOption result ((a : _) → slice_get places.old.items at ≡ Some (Some a) → ⊥)
        (λ a. slice_get places.old.items at ≡ Some (Some a)) }
    ensures now { places.new.items ≡ slice_set places.old.items at None }
{
    match places.get_mut(at) {
        Some(place) => place.take(),
        None => None,
    }
}

/// Puts something at a place.
fn put_place<A: Drop>(places: &mut Vec<Option<A>>, at: usize, it: A)
    ensures { places.new.items ≡ slice_set places.old.items at (Some it) }
{
    if let Some(place) = places.get_mut(at) {
        *place = Some(it);
    }
}

/// One choice of a request: where it was not begun it is, and then its call is made, and it goes on to the next; or its answer
/// is posted, and it has no seat any more.
fn turn_of<T: Told, S: Source<T>>(
    alloc: Global,
    config: &Arc<Config>,
    script: &Script,
    registry: &mut Registry<T>,
    source: &mut S,
    room: &mut Room<T>,
    q: u32,
) -> Result<Option<Seat<T>>, ServeFault>
    requires serves { IsServing T.told config.now.value script.now registry.old room.old }
    requires waits { MayBeTaken registry.old q }
    ensures turned { IfOk result
        (HasTurned T.told registry.old registry.new q (seat_at room.old q)) }
    ensures taken { HasTaken room.old room.new q }
    ensures faults { IfOk result (λ o.
        CountGrows (faults registry.old.answers + owed_at room.old q)
        (faults registry.new.answers + owed_of o) (S.refused source.old) (S.refused source.new)) }
    ensures refused { IfErr result (IsStrayUntold T.told) }
    ensures kept { IsKept T.told registry.new }
{
    let seat = match room.take(q as usize) {
        Some(seat) => seat,
        None => {
            let held = Arc::try_clone(config)?;
            let request = request_at(alloc, script, q)?;
            match begin(alloc, held, source, q, request) {
                Ok(seat) => seat,
                Err(finding) => {
                    post(registry, q, finding);
                    return Ok(None);
                }
            }
        }
    };
    advance(alloc, registry, source, q, seat)
}

/// One choice: what the request that it takes does, if one waits.
fn play<T: Told, S: Source<T>>(
    alloc: Global,
    config: &Arc<Config>,
    script: &Script,
    registry: &mut Registry<T>,
    source: &mut S,
    room: &mut Room<T>,
    choice: usize,
) -> Result<(), ServeFault>
    requires serves { IsServing T.told config.now.value script.now registry.old room.old }
    ensures chosen { IfOk result (λ _. ChoosesIn T.told registry.old registry.new choice) }
    ensures serves { IfOk result (λ _. ServesOn T.told config.now.value script.now
        registry.old registry.new room.old room.new (S.refused source.old) (S.refused source.new)) }
    ensures keeps { IfOk result (λ _. KeepsTakings T.told registry.old registry.new
        room.old room.new choice) }
    ensures less { IfOk result (λ _. TakesFirst choice room.old room.new) }
    ensures refused { IfErr result (λ e. IsStrayUntold T.told e × IsKept T.told registry.new) }
{
    let len = count(&room.waiting);
    if len == 0 {
        return Ok(());
    }
    let place = choice % len;
    let q = number_at(&room.waiting, place);
    match turn_of(alloc, config, script, registry, source, room, q)? {
        Some(seat) => room.put(q as usize, seat),
        None => {
            take_out(&mut room.waiting, place);
        }
    }
    Ok(())
}

/// One choice, and the rounds that may begin then.
fn choose<T: Told, S: Source<T>>(
    alloc: Global,
    config: &Arc<Config>,
    script: &Script,
    registry: &mut Registry<T>,
    source: &mut S,
    room: &mut Room<T>,
    choice: usize,
) -> Result<(), ServeFault>
    requires serves { IsServing T.told config.now.value script.now registry.old room.old }
    ensures played { IfOk result (λ _. PlaysIn T.told registry.old registry.new choice) }
    ensures over { IfOk result (λ _. RoundMayBegin registry.new → ⊥) }
    ensures serves { IfOk result (λ _. ServesOn T.told config.now.value script.now
        registry.old registry.new room.old room.new (S.refused source.old) (S.refused source.new)) }
    ensures keeps { IfOk result (λ _. KeepsTakings T.told registry.old registry.new
        room.old room.new choice) }
    ensures less { IfOk result (λ _. FirstFalls choice room.old room.new) }
    ensures refused { IfErr result (λ e. IsStrayUntold T.told e × IsKept T.told registry.new) }
{
    play(alloc, config, script, registry, source, room, choice)?;
    pass_rounds(registry);
    if count(&room.waiting) == 0 {
        room.next = gather(script, &mut room.waiting, room.next)?;
    }
    Ok(())
}

/// Plays the choices of a schedule, and then serves in order what is left.
fn play_all<T: Told, S: Source<T>>(
    alloc: Global,
    config: &Arc<Config>,
    script: &Script,
    registry: &mut Registry<T>,
    source: &mut S,
    room: &mut Room<T>,
    schedule: &[u32],
) -> Result<(), ServeFault>
    requires serves { IsServing T.told config.now.value script.now registry.old room.old }
    requires opened { RoomIsOpened T.told registry.old room.old }
    ensures played { IfOk result (λ _. PlayedPast T.told registry.new schedule.now) }
    ensures over { IfOk result (λ _. RoomIsOver registry.new room.new) }
    ensures serves { IfOk result (λ _. ServesOn T.told config.now.value script.now
        registry.old registry.new room.old room.new (S.refused source.old) (S.refused source.new)) }
    ensures refused { IfErr result (λ e. IsStrayUntold T.told e × IsKept T.told registry.new) }
{
    for choice in schedule {
        choose(
            alloc,
            config,
            script,
            registry,
            source,
            room,
            *choice as usize,
        )?;
    }
    while count(&room.waiting) != 0 {
        choose(alloc, config, script, registry, source, room, 0)?;
    }
    Ok(())
}

/// A registry whose first rounds have begun, as far as they may, and the room of its requests.
fn open<T: Told>(
    alloc: Global,
    config: &Arc<Config>,
    script: &Arc<Script>,
) -> Result<(Registry<T>, Room<T>), ServeFault>
    requires loaders { HasLoaders (length config.now.value.loaders) script.now.value.requests }
    ensures serves { IfOk result (λ r.
        IsServing T.told config.now.value script.now.value r.0 r.1) }
    ensures opened { IfOk result (λ r. RoomIsOpened T.told r.0 r.1) }
    ensures memory { IfErr result (λ e. e ≡ ServeFault.Memory) }
{
    let mut room = Room::new(alloc, script.requests().len())?;
    room.next = gather(script, &mut room.waiting, 0)?;
    let held = Arc::try_clone(config)?;
    let asked = Arc::try_clone(script)?;
    match Registry::<T>::new(alloc, held, asked) {
        Ok(mut registry) => {
            pass_rounds(&mut registry);
            Ok((registry, room))
        }
        Err(refused) => {
            drop(refused);
            drop(room);
            Err(ServeFault::Memory)
        }
    }
}

/// Serves the requests of a script in turns, as a schedule chooses, round by round (JVMS SE 8, 5.3). A choice takes, of `k`
/// requests of the round that have no answer, the one at the place that it leaves modulo `k`, in the order of their numbers,
/// and takes it to its next call of the tables, reads between included, or to its post. A choice where none waits does
/// nothing. After the last choice what is left is served in order.
///
/// Where the source tells a content, the report's history is a run of the linkage machine over it, in which each request is
/// answered once, with what its plan ends in there, or with a failure, however the schedule chooses; and whoever was taken as
/// often as its plan costs has its answer by then.
///
/// Configuration and script are shared: a refusal drops what was moved in, and a caller that goes on keeps its own clone.
///
/// # Errors
///
/// `Z0`, where the registry, the places of the requests, the copy of a request or a further handle of what is shared could
/// not be had. `Z1`, where the tables do not bear an answer: never, where the source tells a content.
pub fn simulate<T: Told, S: Source<T>>(
    alloc: Global,
    config: Arc<Config>,
    source: &mut S,
    script: Arc<Script>,
    schedule: &[u32],
) -> Result<Report, ServeFault>
    requires { HasLoaders (length config.value.loaders) script.value.requests }
    ensures simulated { IfOk result (IsSimulated T.told config.value script.value schedule.now) }
    ensures source_faults { IfOk result (λ r. CountsFaults r (S.refused source.old)
        (S.refused source.new)) }
    ensures refused { IfErr result (IsStrayUntold T.told) }
{
    let (mut registry, mut room) = open::<T>(alloc, &config, &script)?;
    let played = play_all(
        alloc,
        &config,
        &script,
        &mut registry,
        source,
        &mut room,
        schedule,
    );
    // (each whole, since each way to take it apart is a case of the proof)
    drop(room);
    if let Err(fault) = played {
        drop(registry);
        return Err(fault);
    }
    match registry.into_report() {
        Ok(report) => Ok(report),
        Err(_) => unreachable!(),
    }
}
