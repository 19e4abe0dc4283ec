//! Scripts that several workers serve. A body that gives up on every request passes no line of these.

use Named::{T, Top};
use cl_given::{
    APP, BOOT, LOADERS, Named, PLUG, SHARED, config, count_events, is_class, script, settles_once,
    source, telling_source, thousand_resolutions,
};
use cl_model::{Answer, Class, Event, LoaderId, Untold, Verdict};
use cl_names::Name;
use cl_pool::{Gate, OpenGate, PoolFault, serve};
use cl_registry::Report;
use cl_source::{ChangingSource, FaultySource, Source};
use std::alloc::Global;
use std::sync::Wait;
use std::sync::atomic::{AtomicU64, Ordering};
use std::test::Fail;
use std::thread;
use std::thread::Threads;

/// How often a held worker looks again before it gives up.
const TURNS: u64 = 1_000_000;

/// Holds each read of the first seven requests until the eighth has its answer, and counts the marks.
#[derive(Drop)]
struct Holding {
    posted: AtomicU64,
    /// How many reads were about to be made, and how often the lock was about to be taken.
    reads: AtomicU64,
    locks: AtomicU64,
    /// How many reads were let go with the eighth request unanswered.
    spent: AtomicU64,
}

impl Gate for Holding {
    fn before_read(&self, q: u32, _loader: LoaderId, _name: &Name) {
        self.reads.fetch_add(1, Ordering::SeqCst);
        if q >= 7 {
            return;
        }
        for _ in 0..TURNS {
            if self.posted.load(Ordering::SeqCst) != 0 {
                return;
            }
            thread::yield_now();
        }
        self.spent.fetch_add(1, Ordering::SeqCst);
    }

    fn before_lock(&self, _q: u32) {
        self.locks.fetch_add(1, Ordering::SeqCst);
    }

    fn after_post(&self, q: u32) {
        if q == 7 {
            self.posted.store(1, Ordering::SeqCst);
        }
    }
}

/// What so many workers make of a script over a source.
fn serve_by<S: Source<Untold> + Send, G: Gate, R: Threads + Wait + Sync>(
    rt: &R,
    alloc: Global,
    source: S,
    text: &str,
    workers: u32,
    gate: &G,
) -> Result<Report, PoolFault<Untold>> {
    let config = config(alloc, LOADERS)?;
    let script = script(alloc, &config, text)?;
    serve::<Untold, S, G, R>(rt, alloc, config, source, script, workers, gate)
}

/// The report of so many workers.
fn report_of<S: Source<Untold> + Send, G: Gate, R: Threads + Wait + Sync>(
    rt: &R,
    alloc: Global,
    source: S,
    text: &str,
    workers: u32,
    gate: &G,
) -> Result<Report, Fail> {
    match serve_by(rt, alloc, source, text, workers, gate) {
        Ok(report) => Ok(report),
        Err(fault) => {
            drop(fault);
            Err(Fail::new("no report"))
        }
    }
}

/// The report of so many workers over these classes, which nothing holds up.
fn report_over<R: Threads + Wait + Sync>(
    rt: &R,
    alloc: Global,
    classes: &[(u16, Named)],
    text: &str,
    workers: u32,
) -> Result<Report, Fail> {
    report_of(
        rt,
        alloc,
        telling_source(alloc, classes)?,
        text,
        workers,
        &OpenGate,
    )
}

/// `java/lang/Object` in `boot`, and `p/T` in `app`.
const PLAIN: [(u16, Named); 2] = [(BOOT, Top), (APP, T)];

/// A script of seven loads of `p/T`, and one of `java/lang/Object`.
const EIGHT: &str =
    "load app p/T\nload app p/T\nload app p/T\nload app p/T\nload app p/T\nload app p/T\nload app p/T\nload app java/lang/Object\n";

/// Whether so many answers are each a class, or blame the source where that may be.
fn are_classes(answers: &[Answer], count: usize, may_blame: bool) -> bool {
    for answer in answers {
        let as_wanted = match answer {
            Answer::Said(Verdict::Class(_)) => true,
            Answer::SourceFault(_, _) => may_blame,
            _ => false,
        };
        if !as_wanted {
            return false;
        }
    }
    answers.len() == count
}

/// Seven workers wait in their reads until the eighth has served its request: no read is made under the lock, and all eight
/// run. Reads are marked, and so is each taking of the lock, of which each request has two at least: to look, and to post.
#[test]
fn reads_overlap(rt: HostRuntime) -> Result<(), Fail> {
    let alloc = rt.alloc();
    let gate = Holding {
        posted: AtomicU64::new(0),
        reads: AtomicU64::new(0),
        locks: AtomicU64::new(0),
        spent: AtomicU64::new(0),
    };
    let report = report_of(&rt, alloc, telling_source(alloc, &PLAIN)?, EIGHT, 8, &gate)?;
    let are_classes = are_classes(report.answers.as_slice(), 8, false);
    drop(report);
    assert!(rt; are_classes);
    assert!(rt; gate.spent.load(Ordering::SeqCst) == 0);
    assert!(rt; gate.reads.load(Ordering::SeqCst) != 0);
    assert!(rt; gate.locks.load(Ordering::SeqCst) >= 16);
    Ok(())
}

/// Whether so many workers are refused for their number.
fn are_refused<R: Threads + Wait + Sync>(
    rt: &R,
    alloc: Global,
    workers: u32,
) -> Result<bool, Fail> {
    let source = telling_source(alloc, &PLAIN)?;
    match serve_by(rt, alloc, source, "load app p/T", workers, &OpenGate) {
        Ok(report) => {
            drop(report);
            Ok(false)
        }
        Err(fault) => {
            let are_refused = matches!(&fault, PoolFault::Workers);
            drop(fault);
            Ok(are_refused)
        }
    }
}

/// No worker, and more than 64, are refused; 64 serve a script.
#[test]
fn workers_are_limited(rt: HostRuntime) -> Result<(), Fail> {
    let alloc = rt.alloc();
    for workers in [0u32, 65, u32::MAX] {
        assert!(rt; are_refused(&rt, alloc, workers)?);
    }
    for workers in [1, 2, 64] {
        let report = report_over(&rt, alloc, &PLAIN, "load app p/T", workers)?;
        let happened = report.history.events().len();
        drop(report);
        assert!(rt; happened == 4);
    }
    Ok(())
}

/// A reference that a thousand requests ask for is settled once, whichever worker is first, and each has its verdict.
#[test]
fn many_workers_settle_once(rt: HostRuntime) -> Result<(), Fail> {
    let alloc = rt.alloc();
    let script = thousand_resolutions(alloc)?;
    let report = report_over(&rt, alloc, &SHARED, script.as_str(), 8)?;
    let settles_once = settles_once(report.history.events(), report.answers.as_slice());
    drop(report);
    assert!(rt; settles_once);
    Ok(())
}

/// Whether the second request found `p/T` in `app`, and the third met a constraint.
fn are_constrained(answers: &[Answer]) -> bool {
    match answers {
        [
            _,
            Answer::Said(Verdict::Class(class)),
            Answer::Said(Verdict::Linkage(_refused)),
        ] => { is_class(class, APP, T) }
        _ => false,
    }
}

/// A round begins once all of the round before is answered, and empty rounds are passed: the constraint that the first round
/// imposes refuses the second load of the last.
#[test]
fn rounds_are_kept(rt: HostRuntime) -> Result<(), Fail> {
    let alloc = rt.alloc();
    let script =
        "then\nthen\nresolve plug p/Use 1\nthen\nthen\nload app p/T\nthen\nload plug p/T\nthen\n";
    for workers in [1, 2, 3, 8] {
        let report = report_over(&rt, alloc, &SHARED, script, workers)?;
        let (_, rounds) = count_events(report.history.events());
        let are_constrained = are_constrained(report.answers.as_slice());
        drop(report);
        assert!(rt; rounds == 6);
        assert!(rt; are_constrained);
    }
    Ok(())
}

/// A read that fails in one worker is the answer of its request, and the others are served.
#[test]
fn a_failed_read_stops_no_other(rt: HostRuntime) -> Result<(), Fail> {
    let alloc = rt.alloc();
    let script = "load plug p/T\nthen\nload app p/T\nload app java/lang/Object\n";
    for at in 0..12 {
        let source = FaultySource::new(telling_source(alloc, &SHARED)?, at);
        let report = report_of(&rt, alloc, source, script, 4, &OpenGate)?;
        let are_classes = are_classes(report.answers.as_slice(), 3, at > 0);
        drop(report);
        assert!(rt; are_classes);
    }
    Ok(())
}

/// How often a loader defines a name.
fn count_definitions(history: &[Event], of: &Class) -> usize {
    let mut count = 0usize;
    for event in history {
        if let Event::Define(class) = event
            && class.loader == of.loader
            && class.name.bytes() == of.name.bytes()
        {
            count = count.saturating_add(1);
        }
    }
    count
}

/// Whether no loader defines a name twice.
fn are_defined_once(history: &[Event]) -> bool {
    for event in history {
        if let Event::Define(class) = event
            && count_definitions(history, class) != 1
        {
            return false;
        }
    }
    true
}

/// How often a request is posted.
fn count_posts(history: &[Event], q: u32) -> usize {
    let mut count = 0usize;
    for event in history {
        if matches!(event, Event::Post(number) if *number == q) {
            count = count.saturating_add(1);
        }
    }
    count
}

/// Whether this is a report of two requests whose tables can be trusted, or the tables had no place for what a worker read.
fn is_trusted_or_stray(served: Result<Report, PoolFault<Untold>>) -> bool {
    match served {
        Ok(report) => {
            let history = report.history.events();
            let is_trusted = are_defined_once(history)
                && count_posts(history, 0) == 1
                && count_posts(history, 1) == 1
                && report.answers.as_slice().len() == 2;
            drop(report);
            is_trusted
        }
        Err(fault) => {
            let is_stray = matches!(&fault, PoolFault::Stray);
            drop(fault);
            is_stray
        }
    }
}

/// Eight workers over a source that changes, each at a read of its own: there is a report or a Stray. What the answers are
/// no one can say, since one that was told two things may be out of memory.
#[test]
fn sources_change_for_each_worker(rt: HostRuntime) -> Result<(), Fail> {
    let alloc = rt.alloc();
    let later = [(BOOT, Top), (APP, T), (PLUG, T)];
    let script = "load plug p/T\nload plug p/T\n";
    for reads in 1..7u64 {
        for _ in 0..200 {
            let first = source(alloc, &[(APP, T)])?;
            let changing = ChangingSource::new(first, source(alloc, &later)?, reads);
            let served = serve_by(&rt, alloc, changing, script, 8, &OpenGate);
            assert!(rt; is_trusted_or_stray(served));
        }
    }
    Ok(())
}

/// A script of no requests has a report, with as many rounds as it says.
#[test]
fn nothing_is_served(rt: HostRuntime) -> Result<(), Fail> {
    let alloc = rt.alloc();
    for (script, events) in [("", 0usize), ("then\nthen\n", 2)] {
        let report = report_over(&rt, alloc, &[], script, 3)?;
        let happened = report.history.events().len();
        let answers = report.answers.as_slice().len();
        drop(report);
        assert!(rt; happened == events);
        assert!(rt; answers == 0);
    }
    Ok(())
}
