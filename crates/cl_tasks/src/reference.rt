//! An entry of the request's class: settled, resolved at once, or by the class that it names (JVMS SE 8, 5.4.3, 5.4.3.1).

ghost use Rattle.std.specs.Prelude.{[], Some, IfOk, IfSome};
ghost use Rattle.cl_classfile.specs.Files.{reference};
ghost use Rattle.cl_findings.specs.References.{IsAtOnce, IsAtClass};
ghost use Rattle.cl_model.specs.Views.{verdict_of};
ghost use Rattle.cl_model.specs.declared.answer.Answer.TheVariants as answers;
ghost use Rattle.cl_model.specs.declared.verdict.Verdict.TheVariants as verdicts;
ghost use Rattle.cl_tasks.specs.Deriving.{Derives, IsNone, IsPast};
ghost use Rattle.cl_tasks.specs.Follows.{Posts};
ghost use Rattle.cl_tasks.specs.Rooms.{named_room, reference_room};
ghost use Rattle.cl_tasks.specs.Resolving.{EntryTold, HasItself, HasNamed, IsItself, IsNoneSettled, IsReply, IsSame, NamedTold, SettledTold};
ghost use Rattle.cl_tasks.specs.Stages.{IsEntry};
ghost use Rattle.cl_tasks.specs.Steps.{IsPlain, LeadsBy};
ghost use Rattle.cl_registry.specs.Settling.{IsSettledKind};

use crate::accept::look;
use crate::cited::{Asked, asked_of, itself_of};
use crate::leads::{out_of_memory, post, settle};
use crate::stage::{Entry, Job, Next, Resolution, Stage};
use crate::turn::Turn;
use cl_config::Config;
use cl_findings::{Finding, Target};
use cl_hierarchy::{ClassRow, Path, class_accessible};
use cl_model::{ErrorKind, Settled, Told, Verdict};
use cl_names::Name;
use std::alloc::{AllocError, Global};
use std::sync::Arc;

impl<T: Told> Entry<T> {
    /// The same again.
    pub(crate) fn try_clone(&self, alloc: Global) -> Result<Entry<T>, AllocError>
        ensures { IfOk result (IsSame self.now) }
    {
        Ok(Entry {
            q: self.q,
            request: self.request.try_clone(alloc)?,
            index: self.index,
            d: Arc::try_clone(&self.d)?,
        })
    }
}

/// What the entry of a request is settled to was looked up.
pub(crate) fn take_reference<T: Told>(
    alloc: Global,
    config: &Arc<Config>,
    entry: Entry<T>,
    settled: Option<Arc<Settled>>,
) -> Next<T>
    requires entry { IsEntry config.now.value entry }
    requires settled { IsReply entry settled }
    ensures leads { LeadsBy T.told config.now.value entry.q entry.request reference_room
        (SettledTold entry settled) result }
    ensures own { IfSome settled (λ s. Posts (answers.Shared s) result.turn) }
    ensures plain { IsPlain result.turn }
    ensures derives { Derives IsNone [] result.stage }
{
    match settled {
        Some(settled) => post(entry.q, Finding::settled(entry.request, settled)),
        None => open(alloc, config, entry),
    }
}

/// An entry that is not settled is resolved at once, or the class that it names is loaded.
fn open<T: Told>(alloc: Global, config: &Arc<Config>, entry: Entry<T>) -> Next<T>
    requires entry { IsEntry config.now.value entry }
    ensures leads { LeadsBy T.told config.now.value entry.q entry.request reference_room
        (EntryTold entry) result }
    ensures plain { IsPlain result.turn }
    ensures derives { Derives IsNone [] result.stage }
{
    match asked_of(alloc, entry.d.file(), entry.index) {
        Err(_) => out_of_memory(entry.q, entry.request),
        Ok(Asked::Nothing) => post_at_once(config, entry, Verdict::BadEntry),
        Ok(Asked::ArrayMember) => post_at_once(config, entry, Verdict::ArrayMember),
        Ok(Asked::PrimitiveArray(dims, base)) => {
            settle_at_once(alloc, config, entry, Verdict::PrimitiveArray(dims, base))
        }
        Ok(Asked::Class(name)) => load_named(alloc, config, entry, name),
    }
}

/// What is no reference, or asks for a member of an array, is answered so and never settled.
fn post_at_once<T: Told>(config: &Arc<Config>, entry: Entry<T>, verdict: Verdict) -> Next<T>
    requires entry { IsEntry config.now.value entry }
    requires ends { IsAtOnce entry.request entry.d.value (verdict_of verdict) }
    requires unsettled { IsNoneSettled verdict }
    ensures leads { LeadsBy T.told config.now.value entry.q entry.request reference_room
        (EntryTold entry) result }
    ensures plain { IsPlain result.turn }
    ensures past { IsPast result.stage }
{
    let Entry { q, request, d, .. } = entry;
    match Arc::try_clone(config) {
        Err(_) => out_of_memory(q, request),
        Ok(config) => {
            let finding = Finding::entry(request, config, d, verdict);
            // brings what a finding rests on
            let _ = finding.answer();
            post(q, finding)
        }
    }
}

/// An array of a primitive type is settled at once.
fn settle_at_once<T: Told>(
    alloc: Global,
    config: &Arc<Config>,
    entry: Entry<T>,
    verdict: Verdict,
) -> Next<T>
    requires entry { IsEntry config.now.value entry }
    requires ends { IsAtOnce entry.request entry.d.value (verdict_of verdict) }
    requires settled { IsSettledKind verdict }
    ensures leads { LeadsBy T.told config.now.value entry.q entry.request reference_room
        (EntryTold entry) result }
    ensures plain { IsPlain result.turn }
    ensures past { IsPast result.stage }
{
    match (entry.try_clone(alloc), Arc::try_clone(config)) {
        (Ok(kept), Ok(config)) => {
            let finding = Finding::entry(entry.request, config, entry.d, verdict);
            // brings what a finding rests on
            let _ = finding.answer();
            settle(kept, finding)
        }
        _ => out_of_memory(entry.q, entry.request),
    }
}

/// Loads the class that an entry names, through the loader that defined the class whose pool has it.
fn load_named<T: Told>(alloc: Global, config: &Arc<Config>, entry: Entry<T>, name: Name) -> Next<T>
    requires entry { IsEntry config.now.value entry }
    requires names { HasNamed entry name }
    ensures leads { LeadsBy T.told config.now.value entry.q entry.request reference_room
        (EntryTold entry) result }
    ensures plain { IsPlain result.turn }
    ensures derives { Derives IsNone [] result.stage }
{
    let loader = entry.d.class().loader;
    // no registry gives a class of another configuration's loader
    if usize::from(loader.0) >= config.count() {
        return out_of_memory(entry.q, entry.request);
    }
    let Ok(shared) = Arc::try_clone(config) else {
        return out_of_memory(entry.q, entry.request);
    };
    let path = Path::new(alloc, shared, loader, name);
    // brings what a path keeps
    let _ = path.at_name();
    look(
        alloc,
        Job {
            q: entry.q,
            request: entry.request,
            target: Target::Reference(entry.d),
            path,
        },
    )
}

/// The class that an entry names is recorded, as this row.
pub(crate) fn take_named<T: Told>(
    alloc: Global,
    config: &Arc<Config>,
    entry: Entry<T>,
    named: Arc<ClassRow<T>>,
) -> Next<T>
    requires entry { IsEntry config.now.value entry }
    requires names { HasNamed entry named.value.class.name }
    ensures leads { LeadsBy T.told config.now.value entry.q entry.request named_room
        (NamedTold entry named.value) result }
    ensures plain { IsPlain result.turn }
    ensures past { IsPast result.stage }
{
    match itself_of(alloc, entry.d.file(), entry.index) {
        Err(_) => out_of_memory(entry.q, entry.request),
        Ok(Some(dims)) => take_itself(alloc, config, entry, named, dims),
        Ok(None) => match entry.d.class().try_clone(alloc) {
            Err(_) => out_of_memory(entry.q, entry.request),
            Ok(class) => Next {
                stage: Stage::Resolve(Resolution::TracingOwn(entry, named)),
                turn: Turn::Lineage(class),
            },
        },
    }
}

/// What an entry is settled to that refers to a class, or an array of it of so many dimensions.
fn itself<T: Told>(
    alloc: Global,
    d: &ClassRow<T>,
    named: &ClassRow<T>,
    dims: u8,
) -> Result<Verdict, AllocError>
    ensures { IfOk result (IsItself d.now named.now dims) }
{
    let class = named.class().try_clone(alloc)?;
    Ok(if !class_accessible(named, d.class()) {
        Verdict::Error(ErrorKind::IllegalAccessError, class)
    } else if dims == 0 {
        Verdict::Class(class)
    } else {
        Verdict::Array(dims, class)
    })
}

/// An entry refers to a recorded class, or an array of it of so many dimensions.
fn take_itself<T: Told>(
    alloc: Global,
    config: &Arc<Config>,
    entry: Entry<T>,
    named: Arc<ClassRow<T>>,
    dims: u8,
) -> Next<T>
    requires entry { IsEntry config.now.value entry }
    requires names { HasItself entry named.value.class.name dims }
    ensures leads { LeadsBy T.told config.now.value entry.q entry.request named_room
        (NamedTold entry named.value) result }
    ensures plain { IsPlain result.turn }
    ensures past { IsPast result.stage }
{
    match itself(alloc, &entry.d, &named, dims) {
        Err(_) => out_of_memory(entry.q, entry.request),
        Ok(verdict) => settle_class(alloc, config, entry, named, verdict),
    }
}

/// Settles an entry to what the class that it names makes of it.
pub(crate) fn settle_class<T: Told>(
    alloc: Global,
    config: &Arc<Config>,
    entry: Entry<T>,
    named: Arc<ClassRow<T>>,
    verdict: Verdict,
) -> Next<T>
    requires entry { IsEntry config.now.value entry }
    requires ends { IsAtClass entry.request entry.d.value named.value (verdict_of verdict) }
    requires settled { IsSettledKind verdict }
    ensures leads { LeadsBy T.told config.now.value entry.q entry.request named_room
        (NamedTold entry named.value) result }
    ensures plain { IsPlain result.turn }
    ensures past { IsPast result.stage }
{
    match (entry.try_clone(alloc), Arc::try_clone(config)) {
        (Ok(kept), Ok(config)) => {
            let finding = Finding::class_entry(entry.request, config, entry.d, named, verdict);
            // brings what a finding rests on
            let _ = finding.answer();
            settle(kept, finding)
        }
        _ => out_of_memory(entry.q, entry.request),
    }
}
