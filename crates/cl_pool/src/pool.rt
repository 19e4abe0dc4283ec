//! What the workers share, and what each of them does.

ghost use Rattle.std.specs.Prelude.{◌≡◌, ◌<◌, ◌≤◌, IfSome, length};
ghost use Rattle.cl_schedule.specs.Replies.{IsOfTables};
ghost use Rattle.cl_pool.specs.Seats.{IsSeatOf, MayDraw};

use crate::desk::Desk;
use crate::draws::{Draws, Seat};
use crate::gate::Gate;
use cl_config::{Config, Script};
use cl_findings::Finding;
use cl_model::{Request, Told};
use cl_schedule::{ask_registry, ask_source};
use cl_source::Source;
use cl_tasks::{Reply, Task, Turn};
use std::alloc::Global;
use std::sync::{Arc, Condvar, Mutex, MutexGuard, Wait};
use std::thread::{Scope, Threads};

/// What the workers share.
#[derive(Drop)]
pub(crate) struct Pool<T: Told> {
    pub desk: Mutex<Desk<T>>,
    /// A round has begun, or the workers are to stop.
    pub changed: Condvar,
    pub draws: Draws,
    pub config: Arc<Config>,
    pub script: Arc<Script>,
    pub ghost count: { draws.of.requests ≡ length script.value.requests },
}

/// What a worker owns. Its seat is one of the pool's word, and may draw.
#[derive(Drop)]
pub(crate) struct Worker<'a, T: Told, S: Source<T>, G: Gate> {
    pool: &'a Pool<T>,
    alloc: Global,
    gate: &'a G,
    seat: Seat,
    source: S,
    ghost fits: { IsSeatOf pool.now.draws seat },
    ghost may: { MayDraw seat },
}

impl<T: Told, S: Source<T>, G: Gate> Worker<'_, T, S, G> {
    /// Serves requests until none is left or the workers are to stop. The next one is drawn before the answer of the last
    /// is posted, so that one holding of the lock does both: it posts the one, and takes the other if its round has begun.
    fn run<R: Wait>(self, rt: &R) {
        let Worker {
            pool,
            alloc,
            gate,
            mut seat,
            mut source,
        } = self;
        let mut next = pool.draws.draw(&mut seat);
        let mut taken = None;
        for _ in rt.forever() {
            let Some(q) = next else {
                break;
            };
            let Some(finding) = pool.serve_request(rt, alloc, gate, &mut source, q, taken) else {
                break;
            };
            next = pool.draws.draw(&mut seat);
            match pool.post(rt, gate, q, finding, next) {
                Posted::Stops => break,
                Posted::Takes(request) => taken = request,
            }
        }
    }
}

/// What came of a post.
#[derive(Drop)]
enum Posted {
    /// The workers are to stop.
    Stops,
    /// The answer is posted, and this is the copy of the next request, if its round has begun.
    Takes(Option<Request>),
}

impl<T: Told> Pool<T> {
    /// Serves the request of a number, from its first turn up to its post, once its round has begun (JVMS SE 8, 5.3 to
    /// 5.4.3). Its copy may have been taken before. None, where the workers are to stop.
    fn serve_request<S: Source<T>, G: Gate, R: Wait>(
        &self,
        rt: &R,
        alloc: Global,
        gate: &G,
        source: &mut S,
        q: u32,
        taken: Option<Request>,
    ) -> Option<Finding<T>>
        requires { q < length self.now.script.value.requests }
    {
        let begun = match taken {
            Some(request) => Some(request),
            None => self.begin(rt, q),
        };
        let Some(request) = begun else {
            self.stop(rt);
            return None;
        };
        if usize::from(request.loader().0) >= self.config.count() {
            self.stop(rt);
            return None;
        }
        let config = match Arc::try_clone(&self.config) {
            Ok(config) => config,
            Err(_) => return Some(Finding::memory(request)),
        };
        match Task::<T>::new(alloc, config, q, request) {
            Ok(task) => self.take_turns(rt, alloc, gate, source, task),
            Err(refused) => Some(Finding::memory(refused.request)),
        }
    }

    /// Takes a task that has not begun from its first turn up to its post. None, where the workers are to stop.
    fn take_turns<S: Source<T>, G: Gate, R: Wait>(
        &self,
        rt: &R,
        alloc: Global,
        gate: &G,
        source: &mut S,
        mut task: Task<T>,
    ) -> Option<Finding<T>> {
        let q = task.q();
        let mut reply = Reply::Start;
        while task.expects(&reply) {
            match task.turn(alloc, reply) {
                Turn::Post(finding) => return Some(finding),
                Turn::Read(loader, name) => {
                    gate.before_read(q, loader, &name);
                    reply = ask_source(alloc, source, loader, &name);
                }
                call => match self.call(rt, alloc, gate, q, call) {
                    Some(told) => reply = told,
                    None => return None,
                },
            }
        }
        self.stop(rt);
        None
    }

    /// The request of a number, once its round has begun; none, where the workers are to stop.
    fn begin<R: Wait>(&self, rt: &R, q: u32) -> Option<Request>
        requires { q < length self.now.script.value.requests }
    {
        let round = self.script.round_of(q as usize);
        let desk = self.desk.lock(rt);
        let mut desk = self
            .changed
            .wait_while(rt, desk, |desk| !desk.stopped && desk.round < round);
        if desk.stopped {
            return None;
        }
        desk.take(q, round)
    }

    /// Makes the call that a task asks for, under the lock. None, where the workers are to stop.
    fn call<G: Gate, R: Wait>(
        &self,
        rt: &R,
        alloc: Global,
        gate: &G,
        q: u32,
        call: Turn<T>,
    ) -> Option<Reply<T>>
        requires { IsOfTables call }
    {
        let Some(mut desk) = self.enter(rt, gate, q) else {
            // (whole, since each way to take it apart is a case of the proof)
            drop(call);
            return None;
        };
        let told = ask_registry(alloc, &mut desk.registry, call);
        if told.is_none() {
            desk.stopped = true;
            self.changed.notify_all();
        }
        told
    }

    /// Posts the answer of a request, wakes those that wait for a round, and takes the request that the worker serves next.
    fn post<G: Gate, R: Wait>(
        &self,
        rt: &R,
        gate: &G,
        q: u32,
        finding: Finding<T>,
        next: Option<u32>,
    ) -> Posted
        requires { IfSome next (λ n. n < length self.now.script.value.requests) }
    {
        let Some(mut desk) = self.enter(rt, gate, q) else {
            drop(finding);
            return Posted::Stops;
        };
        let round = desk.round;
        if !desk.post(q, finding) {
            desk.stopped = true;
            self.changed.notify_all();
            return Posted::Stops;
        }
        if desk.round != round {
            self.changed.notify_all();
        }
        let taken = match next {
            Some(next) => desk.take(next, self.script.round_of(next as usize)),
            None => None,
        };
        drop(desk);
        gate.after_post(q);
        Posted::Takes(taken)
    }

    /// What stands behind the lock, for a turn of a request; none, where the workers are to stop.
    fn enter<'a, G: Gate, R: Wait>(
        &'a self,
        rt: &R,
        gate: &G,
        q: u32,
    ) -> Option<MutexGuard<'a, Desk<T>>> {
        gate.before_lock(q);
        let desk = self.desk.lock(rt);
        if desk.stopped { None } else { Some(desk) }
    }

    /// Has all workers stop.
    fn stop<R: Wait>(&self, rt: &R) {
        self.desk.lock(rt).stopped = true;
        self.changed.notify_all();
    }

    /// Starts the workers that can be started, and answers how many. The first takes the source.
    pub(crate) fn start<
        's,
        E,
        S: Source<T> + Send + 's,
        G: Gate + 's,
        R: Threads + Wait + Sync + 's,
    >(
        &'s self,
        rt: &'s R,
        scope: &Scope<'s, E>,
        alloc: Global,
        gate: &'s G,
        mut seat: Seat,
        source: S,
        workers: u32,
    ) -> u32
    where
        T: Send + Sync + 's,
        requires fits { IsSeatOf self.now.draws seat }
        requires may { MayDraw seat }
        requires workers { 1 ≤ workers }
    {
        let mut started = 0;
        for _ in 1..workers {
            let Ok(theirs) = source.another(alloc) else {
                continue;
            };
            let Ok(place) = self.draws.split(&mut seat) else {
                break;
            };
            let worker = Worker {
                pool: self,
                alloc,
                gate,
                seat: place,
                source: theirs,
            };
            if scope.spawn(move || worker.run(rt)).is_ok() {
                started += 1;
            }
        }
        let worker = Worker {
            pool: self,
            alloc,
            gate,
            seat,
            source,
        };
        if scope.spawn(move || worker.run(rt)).is_ok() {
            started += 1;
        }
        started
    }
}
