//! A task and its replies.

use cl_given::{APP, BOOT, LOADERS, Named, bytes_of, class_name, config, telling_source};
use cl_model::{Answer, LoaderId, Request, Untold};
use cl_source::{Source, SourceFault, Telling};
use cl_tasks::{Reply, Task, Turn};
use std::alloc::{AllocError, Global};
use std::process::Abort;
use std::test::Fail;

/// A task for a load of `p/T` through `app`.
fn task(alloc: Global) -> Result<Task<Untold>, AllocError> {
    let config = config(alloc, LOADERS)?;
    if usize::from(APP) >= config.count() {
        return Err(AllocError);
    }
    let request = Request::Load(LoaderId(APP), class_name(alloc, b"p/T")?);
    match Task::<Untold>::new(alloc, config, 0, request) {
        Ok(task) => Ok(task),
        Err(_) => Err(AllocError),
    }
}

/// What a task is told.
#[derive(Clone, Copy)]
enum Told {
    Start,
    /// That nothing is recorded.
    Unrecorded,
    /// What a loader has for a name.
    Read,
    Fault,
    Memory,
}

/// What it does with that.
#[derive(Clone, Copy, PartialEq, Eq)]
enum Does {
    ExpectsAnother,
    Looks,
    Reads,
    Blames,
    Else,
}

use Does::{Blames, ExpectsAnother, Looks, Reads};
use Named::{T, Top};
use Told::{Fault, Memory, Read, Start, Unrecorded};

/// What a task is told, as a reply.
fn reply(
    alloc: Global,
    source: &mut Telling<Untold>,
    told: Told,
    loader: u16,
    name: Named,
) -> Result<Reply<Untold>, SourceFault> {
    match told {
        Start => Ok(Reply::Start),
        Unrecorded => Ok(Reply::Looked(None)),
        Fault => Ok(Reply::SourceFault(SourceFault::Device)),
        Memory => Ok(Reply::Memory),
        Read => {
            let name = class_name(alloc, bytes_of(name))?;
            Ok(Reply::Probed(source.read(alloc, LoaderId(loader), &name)?))
        }
    }
}

/// What a task does with a reply, and at which loader.
fn take_reply(alloc: Global, task: &mut Task<Untold>, reply: Reply<Untold>) -> (Does, u16) {
    if !task.expects(&reply) {
        drop(reply);
        return (ExpectsAnother, BOOT);
    }
    let turn = task.turn(alloc, reply);
    let does = does_of(&turn);
    drop(turn);
    does
}

fn does_of(turn: &Turn<Untold>) -> (Does, u16) {
    match turn {
        Turn::Look(loader, _) => (Looks, loader.0),
        Turn::Read(loader, _) => (Reads, loader.0),
        Turn::Post(finding) => match finding.answer() {
            Answer::SourceFault(_, loader) => (Blames, loader.0),
            _ => (Does::Else, BOOT),
        },
        _ => (Does::Else, BOOT),
    }
}

/// A load whose home is the first loader: what its task is told, of a loader and a name where it is read, and what it does,
/// at which loader.
const TURNS: [(Told, u16, Named, Does, u16); 13] = [
    (Unrecorded, BOOT, T, ExpectsAnother, BOOT),
    (Start, BOOT, T, Looks, APP),
    (Start, BOOT, T, ExpectsAnother, BOOT),
    (Fault, BOOT, T, ExpectsAnother, BOOT),
    (Unrecorded, BOOT, T, Reads, BOOT),
    (Read, APP, T, ExpectsAnother, BOOT),
    (Read, BOOT, Top, ExpectsAnother, BOOT),
    // found: what has the home recorded?
    (Read, BOOT, T, Looks, BOOT),
    (Unrecorded, BOOT, T, Looks, BOOT),
    (Unrecorded, BOOT, T, Reads, BOOT),
    (Unrecorded, BOOT, T, ExpectsAnother, BOOT),
    (Fault, BOOT, T, Blames, BOOT),
    (Memory, BOOT, T, ExpectsAnother, BOOT),
];

/// Tells a task all of it in order, and compares what it does.
fn ask_turns<R: Abort>(
    rt: &R,
    alloc: Global,
    source: &mut Telling<Untold>,
    task: &mut Task<Untold>,
) -> Result<(), SourceFault> {
    for (told, loader, name, does, at) in TURNS {
        let reply = reply(alloc, source, told, loader, name)?;
        assert!(rt; take_reply(alloc, task, reply) == (does, at));
    }
    Ok(())
}

#[test]
fn replies_are_expected_in_turn(rt: HostRuntime) -> Result<(), Fail> {
    let alloc = rt.alloc();
    let mut source = telling_source(alloc, &[(BOOT, T)])?;
    let mut task = task(alloc)?;
    let asked = ask_turns(&rt, alloc, &mut source, &mut task);
    drop(task);
    drop(source);
    asked?;
    Ok(())
}
