//! Posts in their rounds: what is not yet, no longer, or never.

use crate::given::{Kind, Step, Told, are_steps, class, post_finding, registry};
use cl_findings::Finding;
use cl_given::{APP, LOADERS, Named, PLUG, bytes_of, class_name, config};
use cl_model::{Answer, LoaderId, Request, Untold};
use cl_registry::{Registry, RegistryFault, Report};
use std::alloc::{AllocError, Global};
use std::process::Abort;
use std::test::Fail;

/// A resolution in the first round, two loads in the second, nothing in the third.
const TEXT: &str = "resolve plug p/Use 1\nthen\nload app p/T\nload plug p/T\nthen\n";

/// What a request asks for.
#[derive(Clone, Copy)]
enum Asks {
    Load,
    Resolve,
    Link,
}

use Asks::{Link, Load, Resolve};
use Named::{T, User};
use Told::{AlreadyPosted, Done, NotYet, Stray};

/// What is posted as out of memory: the number of a request, what it asks for, of which entry, loader and name; and what is
/// told.
type Posting = (u32, Asks, u16, u16, Named, Told);

/// What is posted in the first round, in order.
const FIRST: [Posting; 12] = [
    (9, Resolve, 1, PLUG, User, Stray),
    (3, Load, 0, PLUG, T, Stray),
    (0, Resolve, 2, PLUG, User, Stray),
    (0, Resolve, 1, APP, User, Stray),
    (0, Resolve, 1, PLUG, T, Stray),
    (0, Load, 0, PLUG, User, Stray),
    (0, Link, 0, PLUG, User, Stray),
    (1, Resolve, 1, PLUG, User, Stray),
    (1, Load, 0, APP, T, NotYet),
    (0, Resolve, 1, PLUG, User, Done),
    (0, Resolve, 1, PLUG, User, AlreadyPosted),
    (2, Load, 0, PLUG, T, NotYet),
];

/// What is posted in the second round.
const SECOND: [Posting; 4] = [
    (0, Resolve, 1, PLUG, User, AlreadyPosted),
    (2, Load, 0, PLUG, T, Done),
    (1, Load, 0, APP, T, Done),
    (2, Load, 0, PLUG, T, AlreadyPosted),
];

/// What is posted in the third round, which has no request.
const THIRD: [Posting; 2] = [
    (1, Load, 0, APP, T, AlreadyPosted),
    (3, Load, 0, APP, T, Stray),
];

fn request(
    alloc: Global,
    asks: Asks,
    index: u16,
    loader: u16,
    name: Named,
) -> Result<Request, AllocError> {
    let name = class_name(alloc, bytes_of(name))?;
    let loader = LoaderId(loader);
    Ok(match asks {
        Load => Request::Load(loader, name),
        Resolve => Request::Resolve(loader, name, index),
        Link => Request::Link(loader, name),
    })
}

/// Posts each as out of memory, and compares what is told.
fn post_all<R: Abort>(
    rt: &R,
    alloc: Global,
    tables: &mut Registry<Untold>,
    posts: &[Posting],
) -> Result<(), AllocError> {
    for (q, asks, index, loader, name, wanted) in posts {
        let request = request(alloc, *asks, *index, *loader, *name)?;
        assert!(rt; post_finding(tables, *q, Finding::memory(request)) == *wanted);
    }
    Ok(())
}

/// Whether a round of this number is begun, or it is not yet time.
fn is_begun(begun: Result<u32, RegistryFault>, wanted: Option<u32>) -> bool {
    match (begun, wanted) {
        (Ok(round), Some(number)) => round == number,
        (Err(RegistryFault::NotYet), None) => true,
        _ => false,
    }
}

/// The tables, which give no report yet.
fn without_report(tables: Registry<Untold>) -> Result<Registry<Untold>, AllocError> {
    match tables.into_report() {
        Ok(report) => {
            drop(report);
            Err(AllocError)
        }
        Err(refused) => Ok(refused.registry),
    }
}

/// What is recorded of it.
const HISTORY: [Step; 5] = [
    (Kind::Post, 0, T, 0),
    (Kind::NextRound, 0, T, 0),
    (Kind::Post, 2, T, 0),
    (Kind::Post, 1, T, 0),
    (Kind::NextRound, 0, T, 0),
];

/// Whether a report has just this history, and says of each request that memory ran out.
fn is_wanted(report: &Report) -> bool {
    are_steps(report.history.events(), &HISTORY) && are_memory(report.answers.as_slice())
}

/// Whether these are three answers, each that memory ran out.
fn are_memory(answers: &[Answer]) -> bool {
    answers.len() == 3
        && answers
            .iter()
            .all(|answer| matches!(answer, Answer::Memory))
}

/// Whether the tables have the report that is wanted.
fn are_reported(tables: Registry<Untold>) -> bool {
    match tables.into_report() {
        Ok(report) => {
            let is_wanted = is_wanted(&report);
            drop(report);
            is_wanted
        }
        Err(refused) => {
            drop(refused);
            false
        }
    }
}

/// The tables after a round, which is not the last: there is no report before its posts.
fn after_round<R: Abort>(
    rt: &R,
    alloc: Global,
    tables: Registry<Untold>,
    posts: &[Posting],
) -> Result<Registry<Untold>, AllocError> {
    let mut tables = without_report(tables)?;
    match post_all(rt, alloc, &mut tables, posts) {
        Ok(()) => Ok(tables),
        Err(fault) => {
            drop(tables);
            Err(fault)
        }
    }
}

/// What is told of an answer to a request of the second round that nothing in the tables bears.
fn post_unrecorded(alloc: Global, tables: &mut Registry<Untold>) -> Result<Told, AllocError> {
    let found = class(alloc, APP, bytes_of(T))?;
    let request = Request::Load(LoaderId(APP), class_name(alloc, bytes_of(T))?);
    Ok(post_finding(tables, 1, Finding::class(request, found)))
}

/// A request is answered once, in its round; a round ends when all of it are answered; the report comes after the last.
#[test]
fn rounds(rt: HostRuntime) -> Result<(), Fail> {
    let alloc = rt.alloc();
    let loaders = config(alloc, LOADERS)?;
    let made = registry(alloc, &loaders, TEXT);
    drop(loaders);
    let mut tables = made?;
    assert!(rt; is_begun(tables.next_round(), None));
    // the round is looked at first
    assert!(rt; matches!(post_unrecorded(alloc, &mut tables), Ok(NotYet)));
    let mut tables = after_round(&rt, alloc, tables, &FIRST)?;
    assert!(rt; is_begun(tables.next_round(), Some(1)));
    let mut tables = after_round(&rt, alloc, tables, &SECOND)?;
    assert!(rt; is_begun(tables.next_round(), Some(2)));
    let asked = post_all(&rt, alloc, &mut tables, &THIRD);
    let is_last = is_begun(tables.next_round(), None);
    let are_reported = are_reported(tables);
    asked?;
    assert!(rt; is_last);
    assert!(rt; are_reported);
    Ok(())
}
