//! What a task is told of the call that it asks for.
ghost use Rattle.std.specs.Prelude.{◌≡◌, IfSome, Some};
ghost use Rattle.cl_model.specs.States.{IsRecorded};
ghost use Rattle.cl_registry.specs.Imposing.{MayImpose, MayMark};
ghost use Rattle.cl_registry.specs.Settling.{FindingSettles};
ghost use Rattle.cl_registry.specs.Tables.{Shown, IsKept, MayEnter, MayJoin, state_of};
ghost use Rattle.cl_tasks.specs.Follows.{Backed};
ghost use Rattle.cl_tasks.specs.Turns.{call_of};
ghost use Rattle.cl_tasks.specs.Waits.{Looking, Reading, Defining, Initiating, Tracing, LookingReference, Settling, Imposing, LookingPrepared, CountingPrepared, Marking};
ghost use Rattle.cl_schedule.specs.Counting.{Grows, told_faults};
ghost use Rattle.cl_schedule.specs.Replies.{CallSays, IsCall, DefinesByStep, Did, ImposesBy, InitiatesBy, IsOfTables, IsReplied, IsStepOf, PreparesBy, RepliesWhere, SettlesBy, reply_of};

use cl_delegation::Home;
use cl_findings::Finding;
use cl_hierarchy::{Draft, Equalities, Lineage};
use cl_model::{Class, LoaderId, Told};
use cl_names::Name;
use cl_registry::{Registry, RegistryFault};
use cl_source::Source;
use cl_tasks::{Reply, Turn};
use std::alloc::Global;
use std::sync::Arc;

/// The reply to a look at what a loader has recorded: what is found is shared with the task (JVMS SE 8, 5.3).
fn look<T: Told>(registry: &Registry<T>, loader: LoaderId, name: &Name) -> Reply<T>
    ensures replied { IsReplied registry.now (Looking loader name.now) result }
    ensures kept { IsKept T.told registry.now }
{
    match registry.look(loader, name) {
        None => Reply::Looked(None),
        Some(row) => match Arc::try_clone(row) {
            Ok(row) => Reply::Looked(Some(row)),
            Err(_) => Reply::Memory,
        },
    }
}

/// The reply to a look at a reference: what is found is shared with the task (JVMS SE 8, 5.4.3).
fn look_reference<T: Told>(registry: &Registry<T>, class: &Class, index: u16) -> Reply<T>
    ensures replied { IsReplied registry.now (LookingReference class.now index) result }
    ensures kept { IsKept T.told registry.now }
{
    match registry.look_reference(class, index) {
        None => Reply::LookedReference(None),
        Some(settled) => match Arc::try_clone(settled) {
            Ok(settled) => Reply::LookedReference(Some(settled)),
            Err(_) => Reply::Memory,
        },
    }
}

/// The reply to a look whether a class is prepared (JVMS SE 8, 5.4.2).
fn look_prepared<T: Told>(registry: &Registry<T>, class: &Class) -> Reply<T>
    ensures replied { IsReplied registry.now (LookingPrepared class.now) result }
    ensures kept { IsKept T.told registry.now }
{
    Reply::LookedPrepared(registry.look_prepared(class))
}

/// The reply to the question how many of the classes above another are prepared (JVMS SE 8, 5.4.2).
fn count_prepared<T: Told>(registry: &Registry<T>, lineage: &Lineage<T>) -> Reply<T>
    ensures replied { IsReplied registry.now (CountingPrepared lineage.now) result }
    ensures kept { IsKept T.told registry.now }
{
    Reply::CountedPrepared(registry.count_prepared(lineage))
}

/// The reply that a refusal is; none, where the value was a stray.
fn reply_of<T: Told>(fault: RegistryFault) -> Option<Reply<T>>
    ensures { result ≡ reply_of fault }
{
    match fault {
        RegistryFault::Memory => Some(Reply::Memory),
        RegistryFault::Violates(need) => Some(Reply::Refused(need)),
        RegistryFault::Stray | RegistryFault::AlreadyPosted | RegistryFault::NotYet => None,
    }
}

/// The reply to a definition; none, where it may not be made (JVMS SE 8, 5.3.5).
fn define<T: Told>(alloc: Global, registry: &mut Registry<T>, draft: Draft<T>) -> Option<Reply<T>>
    ensures replied { RepliesWhere (MayEnter registry.old draft) registry.new
        (Defining draft) result }
    ensures did { Did registry.old registry.new (DefinesByStep draft) }
    ensures untold { result ≡ Some Reply.Memory → registry.new ≡ registry.old }
    ensures kept { IsKept T.told registry.new }
{
    match registry.define(alloc, draft) {
        Ok(row) => Some(Reply::Defined(row)),
        Err(e) => reply_of(e.fault),
    }
}

/// The reply to a record of an initiating loader; none, where it may not be made (JVMS SE 8, 5.3).
fn initiate<T: Told>(
    alloc: Global,
    registry: &mut Registry<T>,
    home: Arc<Home<T>>,
) -> Option<Reply<T>>
    ensures replied { RepliesWhere (MayJoin registry.old home.value) registry.new
        (Initiating home.value) result }
    ensures did { Did registry.old registry.new (InitiatesBy home.value) }
    ensures untold { result ≡ Some Reply.Memory → registry.new ≡ registry.old }
    ensures kept { IsKept T.told registry.new }
{
    match registry.initiate(alloc, &home) {
        Ok(row) => Some(Reply::Initiated(row)),
        Err(fault) => reply_of(fault),
    }
}

/// The lineage of a class; none, where it is not recorded (JVMS SE 8, 5.3.5).
fn lineage<T: Told>(alloc: Global, registry: &Registry<T>, class: &Class) -> Option<Reply<T>>
    ensures replied { RepliesWhere (IsRecorded (state_of registry.now) class.now) registry.now
        (Tracing class.now) result }
    ensures kept { IsKept T.told registry.now }
{
    match registry.lineage(alloc, class) {
        Ok(lineage) => Some(Reply::Lineage(lineage)),
        Err(fault) => reply_of(fault),
    }
}

/// The reply to a settlement; none, where it may not be made (JVMS SE 8, 5.4.3).
fn settle<T: Told>(
    alloc: Global,
    registry: &mut Registry<T>,
    finding: Finding<T>,
) -> Option<Reply<T>>
    ensures replied { RepliesWhere (FindingSettles registry.old finding) registry.new
        (Settling finding.request) result }
    ensures did { Did registry.old registry.new (SettlesBy registry.old finding) }
    ensures untold { result ≡ Some Reply.Memory → registry.new ≡ registry.old }
    ensures kept { IsKept T.told registry.new }
{
    let told = registry.settle(alloc, &finding);
    drop(finding);
    match told {
        Ok(settled) => Some(Reply::Settled(settled)),
        Err(fault) => reply_of(fault),
    }
}

/// The reply to an equality; none, where it may not be imposed (JVMS SE 8, 5.3.4).
fn impose<T: Told>(
    alloc: Global,
    registry: &mut Registry<T>,
    list: Arc<Equalities<T>>,
    place: usize,
) -> Option<Reply<T>>
    ensures replied { RepliesWhere (MayImpose registry.old list.value place) registry.new
        (Imposing list.value place) result }
    ensures did { Did registry.old registry.new (ImposesBy list.value place) }
    ensures untold { result ≡ Some Reply.Memory → registry.new ≡ registry.old }
    ensures kept { IsKept T.told registry.new }
{
    match registry.impose(alloc, &list, place) {
        Ok(()) => Some(Reply::Imposed),
        Err(fault) => reply_of(fault),
    }
}

/// The reply to a preparation; none, where it may not be made (JVMS SE 8, 5.4.2).
fn mark<T: Told>(
    alloc: Global,
    registry: &mut Registry<T>,
    list: Arc<Equalities<T>>,
) -> Option<Reply<T>>
    ensures replied { RepliesWhere (MayMark registry.old list.value) registry.new
        (Marking list.value) result }
    ensures did { Did registry.old registry.new (PreparesBy list.value.origin) }
    ensures untold { result ≡ Some Reply.Memory → registry.new ≡ registry.old }
    ensures kept { IsKept T.told registry.new }
{
    match registry.mark_prepared(alloc, &list) {
        Ok(()) => Some(Reply::Marked),
        Err(fault) => reply_of(fault),
    }
}

/// The reply to an equality that may be imposed, which nothing is looked at for again (JVMS SE 8, 5.3.4).
fn impose_allowed<T: Told>(
    alloc: Global,
    registry: &mut Registry<T>,
    list: Arc<Equalities<T>>,
    place: usize,
) -> Reply<T>
    requires { MayImpose registry.old list.value place }
    ensures replied { IsReplied registry.new (Imposing list.value place) result }
    ensures did { Did registry.old registry.new (ImposesBy list.value place) }
    ensures untold { result ≡ Reply.Memory → registry.new ≡ registry.old }
    ensures kept { IsKept T.told registry.new }
{
    match registry.impose_allowed(alloc, &list, place) {
        Ok(()) => Reply::Imposed,
        Err(fault) => match reply_of(fault) {
            Some(reply) => reply,
            None => unreachable!(),
        },
    }
}

/// Asks a registry what a task asks of it, and gives the reply; none, where the tables do not bear the call (JVMS SE 8,
/// 5.3 to 5.4.3).
pub fn ask_registry<T: Told>(
    alloc: Global,
    registry: &mut Registry<T>,
    call: Turn<T>,
) -> Option<Reply<T>>
    requires call { IsOfTables call }
    ensures replied { RepliesWhere (Backed registry.old call) registry.new
        (call_of call) result }
    ensures did { Did registry.old registry.new (IsStepOf registry.old call) }
    ensures untold { result ≡ Some Reply.Memory → registry.new ≡ registry.old }
    ensures faults { IfSome result (λ r. told_faults r ≡ 0) }
    ensures kept { IsKept T.told registry.new }
{
    match call {
        Turn::Look(loader, name) => Some(look(registry, loader, &name)),
        Turn::Define(draft) => define(alloc, registry, draft),
        Turn::Initiate(home) => initiate(alloc, registry, home),
        Turn::Lineage(class) => lineage(alloc, registry, &class),
        Turn::LookReference(class, index) => Some(look_reference(registry, &class, index)),
        Turn::Settle(finding) => settle(alloc, registry, finding),
        Turn::Impose(list, place) => impose(alloc, registry, list, place),
        Turn::LookPrepared(class) => Some(look_prepared(registry, &class)),
        Turn::CountPrepared(lineage) => Some(count_prepared(registry, &lineage)),
        Turn::Mark(list) => mark(alloc, registry, list),
        Turn::Read(_, _) | Turn::Post(_) => unreachable!(),
    }
}

/// Asks a source for a class that a task reads, and gives the reply: the probe, or why there is none (JVMS SE 8, 5.3.2).
pub fn ask_source<T: Told, S: Source<T>>(
    alloc: Global,
    source: &mut S,
    loader: LoaderId,
    name: &Name,
) -> Reply<T>
    ensures replied { (x : Shown) → IsReplied x (Reading loader name.now) result }
    ensures faults { Grows (told_faults result) (S.refused source.old) (S.refused source.new) }
    ensures no_memory { result ≡ Reply.Memory → ⊥ }
{
    match source.read(alloc, loader, name) {
        Ok(probe) => Reply::Probed(probe),
        Err(fault) => Reply::SourceFault(fault),
    }
}

/// Makes the call that a task asks for, and answers what the task is told of it (JVMS SE 8, 5.3 to 5.4.3).
pub(crate) fn reply_to<T: Told, S: Source<T>>(
    alloc: Global,
    registry: &mut Registry<T>,
    source: &mut S,
    call: Turn<T>,
) -> Reply<T>
    requires call { IsCall call }
    requires backed { Backed registry.old call }
    requires kept { IsKept T.told registry.old }
    ensures { CallSays T.told registry.old registry.new call result
        (S.refused source.old) (S.refused source.new) source.old source.new }
{
    match call {
        Turn::Read(loader, name) => ask_source(alloc, source, loader, &name),
        Turn::Impose(list, place) => impose_allowed(alloc, registry, list, place),
        call => match ask_registry(alloc, registry, call) {
            Some(reply) => reply,
            None => unreachable!(),
        },
    }
}
