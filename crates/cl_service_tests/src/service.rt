//! Scripts served over a source of which a read fails, and over much. A body that gives up on every request passes no line
//! of these.

use Named::{T, Top};
use cl_given::{
    APP, BOOT, LOADERS, Named, PLUG, SHARED, bytes_of, config, is_class, put, script, settles_once,
    source, telling_source, thousand_resolutions,
};
use cl_model::{Answer, Class, ErrorKind, LoaderId, Untold, Verdict};
use cl_registry::Report;
use cl_schedule::serve_one;
use cl_source::{FaultySource, MemorySource, Source, Telling};
use std::alloc::{AllocError, Global};
use std::process::Abort;
use std::test::Fail;

/// The report of a script that is served over a source.
fn report_over<S: Source<Untold>>(
    alloc: Global,
    source: &mut S,
    text: &str,
) -> Result<Report, AllocError> {
    let config = config(alloc, LOADERS)?;
    let script = script(alloc, &config, text)?;
    serve_one::<Untold, S>(alloc, config, source, script).map_err(|_| AllocError)
}

/// What a script comes to over a source of which a read fails, and how many reads the source counts that did.
#[derive(Drop)]
struct Failing {
    report: Report,
    failures: u64,
}

/// Serves a script over a source of these classes, whose read of this number fails.
fn serve_failing(
    alloc: Global,
    classes: &[(u16, Named)],
    at: u64,
    text: &str,
) -> Result<Failing, AllocError> {
    let mut source = FaultySource::new(telling_source(alloc, classes)?, at);
    let report = report_over(alloc, &mut source, text);
    let failures = source.failures();
    drop(source);
    Ok(Failing {
        report: report?,
        failures,
    })
}

/// Which read is refused, which request is answered so, and where.
const FAULTS: [(u64, usize, u16, Named); 7] = [
    (0, 9, BOOT, Top),
    (1, 0, PLUG, T),
    (2, 0, BOOT, Top),
    (3, 1, BOOT, T),
    (4, 1, APP, T),
    (5, 1, BOOT, Top),
    (6, 9, BOOT, Top),
];

/// Whether an answer blames this loader and name.
fn blames(answer: &Answer, loader: u16, name: Named) -> bool {
    match answer {
        Answer::SourceFault(at, by) => *by == LoaderId(loader) && at.bytes() == bytes_of(name),
        _ => false,
    }
}

/// Whether an answer is `p/T` of this loader.
fn finds(answer: &Answer, loader: u16) -> bool {
    match answer {
        Answer::Said(Verdict::Class(class)) => is_class(class, loader, T),
        _ => false,
    }
}

/// Whether the request of this number blames this loader and name, and the others find `p/T` in `plug` and in `app`.
fn are_answered(answers: &[Answer], blamed: usize, loader: u16, name: Named) -> bool {
    match answers {
        [first, second] if blamed == 0 => blames(first, loader, name) && finds(second, APP),
        [first, second] if blamed == 1 => finds(first, PLUG) && blames(second, loader, name),
        [first, second] => finds(first, PLUG) && finds(second, APP),
        _ => false,
    }
}

/// A read that fails is the answer of its request alone, and of no other; what was recorded before stays, what is asked
/// again is found.
#[test]
fn each_read_fails_once(rt: HostRuntime) -> Result<(), Fail> {
    let alloc = rt.alloc();
    let classes = [(BOOT, Top), (APP, T), (PLUG, T)];
    let script = "load plug p/T\nthen\nload app p/T\n";
    for (at, blamed, loader, name) in FAULTS {
        let served = serve_failing(alloc, &classes, at, script)?;
        let as_wanted = are_answered(served.report.answers.as_slice(), blamed, loader, name);
        let failures = served.failures;
        drop(served);
        assert!(rt; as_wanted);
        assert!(rt; failures == u64::from(blamed < 2));
    }
    Ok(())
}

/// How many requests have a verdict, and how many blame the source.
fn count_answers(answers: &[Answer]) -> (usize, usize) {
    let mut said = 0usize;
    let mut faults = 0usize;
    for answer in answers {
        match answer {
            Answer::Said(_) | Answer::Shared(_) => said = said.saturating_add(1),
            Answer::SourceFault(_, _) => faults = faults.saturating_add(1),
            Answer::Memory => {}
        }
    }
    (said, faults)
}

/// Scripts of requests of each kind, with how many these are.
const SCRIPTS: [(&str, usize); 2] = [
    (
        "resolve plug p/Use 1\nthen\nload app p/T\nload plug p/T\n",
        3,
    ),
    (
        "resolve plug p/Use 1\nlink plug p/Use\nthen\nresolve plug p/Use 1\nload app p/T\nload plug p/T\n",
        5,
    ),
];

/// Serves a script over a source of which a read fails, each in turn until none does: one of so many requests is answered
/// so, the others are said.
fn fail_each_read<R: Abort>(
    rt: &R,
    alloc: Global,
    script: &str,
    requests: usize,
) -> Result<(), Fail> {
    for at in 1..100u64 {
        let served = serve_failing(alloc, &SHARED, at, script)?;
        let counts = count_answers(served.report.answers.as_slice());
        let failures = served.failures;
        drop(served);
        if failures == 0 {
            assert!(rt; counts == (requests, 0));
            assert!(rt; at > 4);
            return Ok(());
        }
        assert!(rt; counts == (requests.saturating_sub(1), 1));
    }
    Err(Fail::new("a read fails each time"))
}

/// Each read fails in turn, of more than three. What failed is not kept: a resolution that is asked for again is said.
#[test]
fn each_read_of_every_kind_fails_once(rt: HostRuntime) -> Result<(), Fail> {
    for (script, requests) in SCRIPTS {
        fail_each_read(&rt, rt.alloc(), script, requests)?;
    }
    Ok(())
}

/// The report of a script over a source in memory.
fn serve_from(
    alloc: Global,
    mut source: Telling<Untold>,
    text: &str,
) -> Result<Report, AllocError> {
    let report = report_over(alloc, &mut source, text);
    drop(source);
    report
}

/// A reference is settled once, however often it is asked for, and each request has the verdict.
#[test]
fn a_thousand_resolutions_settle_once(rt: HostRuntime) -> Result<(), Fail> {
    let alloc = rt.alloc();
    let script = thousand_resolutions(alloc)?;
    let report = serve_from(alloc, telling_source(alloc, &SHARED)?, script.as_str())?;
    let settles_once = settles_once(report.history.events(), report.answers.as_slice());
    drop(report);
    assert!(rt; settles_once);
    Ok(())
}

/// The file of class `p/C` and four digits, over another.
fn link(alloc: Global, own: &str, above: &str) -> Result<Vec<u8>, AllocError> {
    let mut bytes = Vec::from_slice(
        alloc,
        b"\xca\xfe\xba\xbe\x00\x00\x00\x34\x00\x05\x01\x00\x07",
    )?;
    bytes.extend_from_slice(own.as_bytes())?;
    bytes.extend_from_slice(b"\x07\x00\x01\x01\x00")?;
    let length = if above.len() == 7 { b"\x07" } else { b"\x10" };
    bytes.extend_from_slice(length)?;
    bytes.extend_from_slice(above.as_bytes())?;
    bytes.extend_from_slice(
        b"\x07\x00\x03\x00\x21\x00\x02\x00\x04\x00\x00\x00\x00\x00\x00\x00\x00",
    )?;
    Ok(bytes)
}

/// How many classes stand above one another.
const LINKS: usize = 5000;

/// Puts a chain of classes into `app`, whose first has this superclass and whose last is `p/C5000`.
fn put_chain(alloc: Global, source: &mut MemorySource, first: &str) -> Result<(), AllocError> {
    let mut above = String::from_str(alloc, first)?;
    for number in 1001..LINKS + 1000 {
        let own = format!(in alloc; "p/D{number}")?;
        let bytes = link(alloc, own.as_str(), above.as_str())?;
        put(alloc, source, APP, own.as_bytes(), bytes)?;
        above = own;
    }
    let bytes = link(alloc, "p/C5000", above.as_str())?;
    put(alloc, source, APP, b"p/C5000", bytes)
}

/// A source of `java/lang/Object` and such a chain.
fn chain(alloc: Global, first: &str) -> Result<Telling<Untold>, AllocError> {
    let mut source = source(alloc, &[(BOOT, Top)])?;
    match put_chain(alloc, &mut source, first) {
        Ok(()) => Ok(source.tell::<Untold>()),
        Err(fault) => {
            drop(source);
            Err(fault)
        }
    }
}

fn is_last(class: &Class) -> bool {
    class.loader == LoaderId(APP) && class.name.bytes() == b"p/C5000".as_slice()
}

/// Whether the one answer is the last class of the chain, or that it is above itself.
fn is_loaded(answers: &[Answer], is_circle: bool) -> bool {
    match answers {
        [Answer::Said(Verdict::Class(class))] => !is_circle && is_last(class),
        [Answer::Said(Verdict::Error(ErrorKind::ClassCircularityError, class))] => {
            is_circle && is_last(class)
        }
        _ => false,
    }
}

/// A chain of classes in `app`, the first over `java/lang/Object` or over the last.
#[test]
fn long_chain(rt: HostRuntime) -> Result<(), Fail> {
    let alloc = rt.alloc();
    for (is_circle, events) in [(false, LINKS + 3), (true, 1)] {
        let first = if is_circle {
            "p/C5000"
        } else {
            "java/lang/Object"
        };
        let report = serve_from(alloc, chain(alloc, first)?, "load app p/C5000")?;
        let happened = report.history.events().len();
        let is_loaded = is_loaded(report.answers.as_slice(), is_circle);
        drop(report);
        assert!(rt; happened == events);
        assert!(rt; is_loaded);
    }
    Ok(())
}

/// Whether each answer is a verdict of its own.
fn are_said(answers: &[Answer]) -> bool {
    for answer in answers {
        if !matches!(answer, Answer::Said(_)) {
            return false;
        }
    }
    true
}

/// As many requests as a script may have, of names that are there and that are not: none is answered out of memory.
#[test]
fn many_requests(rt: HostRuntime) -> Result<(), Fail> {
    let alloc = rt.alloc();
    let mut script = String::from_str(alloc, "load plug java/lang/Object\n")?;
    for _ in 0..32_767 {
        script.push_str("load app p/Z\nload plug java/lang/Object\n")?;
    }
    let report = serve_from(
        alloc,
        telling_source(alloc, &[(BOOT, Top)])?,
        script.as_str(),
    )?;
    let are_said = are_said(report.answers.as_slice());
    let count = report.answers.as_slice().len();
    drop(report);
    assert!(rt; are_said);
    assert!(rt; count == 65_535);
    Ok(())
}
