//! What these tests share: histories as tables, homes and registries, made with memory to spare.

use cl_config::Config;
use cl_delegation::{Home, Search};
use cl_findings::Finding;
use cl_given::{APP, BOOT, Named, PLUG, bytes_of, class_name, is_class, put, script, source};
use cl_hierarchy::Draft;
use cl_model::{Class, Equality, Event, LoaderId, Untold};
use cl_names::Name;
use cl_registry::{DefineRefused, PostRefused, Registry, RegistryFault};
use cl_source::{Source, Telling};
use std::alloc::{AllocError, Global};
use std::sync::Arc;

/// The loaders of LOADERS, of which `plug` asks its parent first.
pub const PARENT_FIRST: &str =
    "[[loader]]\nname = \"boot\"\n[[loader]]\nname = \"app\"\nparent = \"boot\"\n[[loader]]\nname = \"plug\"\nparent = \"app\"\n[[loader]]\nname = \"kid\"\nparent = \"app\"\n";

/// `p/T`, public and final, over `java/lang/Object`.
pub fn final_file() -> &'static [u8] {
    b"\xca\xfe\xba\xbe\x00\x00\x00\x34\x00\x05\x01\x00\x03p/T\x07\x00\x01\x01\x00\x10java/lang/Object\x07\x00\x03\x00\x31\x00\x02\x00\x04\x00\x00\x00\x00\x00\x00\x00\x00"
}

/// What a call of a registry answers.
#[derive(Clone, Copy, PartialEq, Eq)]
pub enum Told {
    Done,
    Memory,
    Stray,
    Violates,
    AlreadyPosted,
    NotYet,
}

/// What a refusal tells.
pub fn kind_of(fault: &RegistryFault) -> Told {
    match fault {
        RegistryFault::Memory => Told::Memory,
        RegistryFault::Stray => Told::Stray,
        RegistryFault::Violates(_) => Told::Violates,
        RegistryFault::AlreadyPosted => Told::AlreadyPosted,
        RegistryFault::NotYet => Told::NotYet,
    }
}

/// What a step of a history is. (A table of steps that carry values costs the proof of whoever reads it minutes, one of
/// tuples seconds.)
#[derive(Clone, Copy, PartialEq, Eq)]
pub enum Kind {
    Define,
    Initiate,
    Constrain,
    Prepare,
    NextRound,
    Post,
}

/// A step of a history that has no settled reference: its loader or request, its name, and the other loader.
pub type Step = (Kind, u16, Named, u16);

fn is_step(event: &Event, step: Step) -> bool {
    let (kind, loader, name, other) = step;
    match event {
        Event::Define(class) => kind == Kind::Define && is_class(class, loader, name),
        Event::Initiate(class, by) => {
            kind == Kind::Initiate && is_class(class, loader, name) && *by == LoaderId(other)
        }
        Event::Constrain(both) => kind == Kind::Constrain && is_equality(both, step),
        Event::Prepare(class) => kind == Kind::Prepare && is_class(class, loader, name),
        Event::NextRound => kind == Kind::NextRound,
        Event::Post(q) => kind == Kind::Post && *q == u32::from(loader),
        Event::Settle(_) => false,
    }
}

fn is_equality(both: &Equality, step: Step) -> bool {
    let (_, one, name, other) = step;
    both.one == LoaderId(one)
        && both.other == LoaderId(other)
        && both.name.bytes() == bytes_of(name)
}

/// Whether a history is just these steps.
pub fn are_steps(history: &[Event], steps: &[Step]) -> bool {
    for (event, step) in history.iter().zip(steps) {
        if !is_step(event, *step) {
            return false;
        }
    }
    history.len() == steps.len()
}

pub fn class(alloc: Global, loader: u16, name: &[u8]) -> Result<Class, AllocError> {
    let name = class_name(alloc, name)?;
    Ok(Class {
        name,
        loader: LoaderId(loader),
    })
}

/// A source of `java/lang/Object` in the first loader, and of these bytes of `p/T` in `app` and `plug`.
pub fn source_of(alloc: Global, bytes: &[u8]) -> Result<Telling<Untold>, AllocError> {
    let mut source = source(alloc, &[(BOOT, Named::Top)])?;
    for loader in [APP, PLUG] {
        let bytes = Vec::from_slice(alloc, bytes)?;
        put(alloc, &mut source, loader, bytes_of(Named::T), bytes)?;
    }
    Ok(source.tell::<Untold>())
}

pub fn search(
    alloc: Global,
    config: &Arc<Config>,
    loader: u16,
    name: &[u8],
) -> Result<Search<Untold>, AllocError> {
    let config = Arc::try_clone(config)?;
    if usize::from(loader) >= config.count() {
        return Err(AllocError);
    }
    match Search::new(alloc, config, LoaderId(loader), class_name(alloc, name)?) {
        Ok(search) => Ok(search),
        Err(refused) => {
            drop(refused);
            Err(AllocError)
        }
    }
}

/// Whether a search takes what a source has for a name of a loader.
pub fn is_taken(
    alloc: Global,
    source: &mut Telling<Untold>,
    search: &mut Search<Untold>,
    loader: LoaderId,
    name: &Name,
) -> Result<bool, AllocError> {
    match source.read(alloc, loader, name) {
        Ok(probe) => Ok(search.take(probe).is_ok()),
        Err(_) => Err(AllocError),
    }
}

/// Whether a search is led to its end.
fn is_ended(
    alloc: Global,
    source: &mut Telling<Untold>,
    search: &mut Search<Untold>,
    name: &Name,
) -> bool {
    for _ in 0..64 {
        let Some(next) = search.next_probe() else {
            return true;
        };
        if !matches!(is_taken(alloc, source, search, next, name), Ok(true)) {
            return false;
        }
    }
    false
}

/// The home that an ended search found.
fn home_of(search: Search<Untold>) -> Result<Home<Untold>, AllocError> {
    if search.next_probe().is_some() {
        drop(search);
        return Err(AllocError);
    }
    match search.home() {
        Ok(home) => Ok(home),
        Err(refused) => {
            drop(refused);
            Err(AllocError)
        }
    }
}

/// The home of a name at a loader, which has to have one.
pub fn home(
    alloc: Global,
    config: &Arc<Config>,
    source: &mut Telling<Untold>,
    loader: u16,
    name: &[u8],
) -> Result<Home<Untold>, AllocError> {
    let wanted = class_name(alloc, name)?;
    let mut search = search(alloc, config, loader, name)?;
    if is_ended(alloc, source, &mut search, &wanted) {
        return home_of(search);
    }
    drop(search);
    Err(AllocError)
}

pub fn registry(
    alloc: Global,
    config: &Arc<Config>,
    text: &str,
) -> Result<Registry<Untold>, AllocError> {
    let script = script(alloc, config, text)?;
    match Registry::new(alloc, Arc::try_clone(config)?, script) {
        Ok(registry) => Ok(registry),
        Err(refused) => {
            drop(refused);
            Err(AllocError)
        }
    }
}

/// The draft of a home.
pub fn draft_of(alloc: Global, home: Home<Untold>) -> Result<Draft<Untold>, AllocError> {
    match Draft::read(alloc, home) {
        Ok(draft) => Ok(draft),
        Err(refused) => {
            drop(refused);
            Err(AllocError)
        }
    }
}

/// What the tables tell of an answer.
pub fn post_finding(tables: &mut Registry<Untold>, q: u32, finding: Finding<Untold>) -> Told {
    match tables.post(q, finding) {
        Ok(()) => Told::Done,
        Err(refused) => tell_refused(refused),
    }
}

/// What an answer that comes back tells.
fn tell_refused(refused: PostRefused<Untold>) -> Told {
    let told = kind_of(&refused.fault);
    drop(refused);
    told
}

/// What the tables tell of a class that its home defines.
fn define(
    alloc: Global,
    tables: &mut Registry<Untold>,
    home: Home<Untold>,
) -> Result<Told, AllocError> {
    let draft = draft_of(alloc, home)?;
    match tables.define(alloc, draft) {
        Ok(row) => {
            drop(row);
            Ok(Told::Done)
        }
        Err(back) => Ok(refusal(back)),
    }
}

/// What a definition that comes back tells.
pub fn refusal(back: DefineRefused<Untold>) -> Told {
    let told = kind_of(&back.fault);
    drop(back);
    told
}

/// Records the class of a name of a source, for its home or for the loader that was asked.
pub fn record(
    alloc: Global,
    tables: &mut Registry<Untold>,
    config: &Arc<Config>,
    mut source: Telling<Untold>,
    loader: u16,
    name: &[u8],
) -> Result<Told, AllocError> {
    let found = home(alloc, config, &mut source, loader, name);
    drop(source);
    let home = found?;
    if home.definer() == LoaderId(loader) {
        return define(alloc, tables, home);
    }
    let told = match tables.initiate(alloc, &home) {
        Ok(row) => {
            drop(row);
            Told::Done
        }
        Err(fault) => kind_of(&fault),
    };
    drop(home);
    Ok(told)
}

/// Whether the tables report just these steps: all is posted.
pub fn do_report(tables: Registry<Untold>, steps: &[Step]) -> bool {
    match tables.into_report() {
        Ok(report) => {
            let are_told = are_steps(report.history.events(), steps);
            drop(report);
            are_told
        }
        Err(refused) => {
            drop(refused);
            false
        }
    }
}
