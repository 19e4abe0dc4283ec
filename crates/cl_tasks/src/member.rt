//! An entry that asks for a member: lookup, then its loading constraints one by one (JVMS SE 8, 5.4.3.2 to 5.4.3.4).

ghost use Rattle.std.specs.Prelude.{◌≡◌, ◌<◌, ◌≤◌, ◌-◌, Some, Err, IfOk, length};
ghost use Rattle.cl_classfile.specs.Files.{reference};
ghost use Rattle.cl_findings.specs.References.{GoesTo, IsOfFound, fault_verdict};
ghost use Rattle.cl_hierarchy.specs.Imposed.{OfReference};
ghost use Rattle.cl_hierarchy.specs.Lineages.{kin_of};
ghost use Rattle.cl_members.specs.Asking.{LooksUp};
ghost use Rattle.cl_members.specs.declared.fault.LookupFault.{LookupFault};
ghost use Rattle.cl_model.specs.Views.{need_of, verdict_of};
ghost use Rattle.cl_tasks.specs.Cited.{IsKind};
ghost use Rattle.cl_tasks.specs.Deriving.{IsPast};
ghost use Rattle.cl_tasks.specs.Follows.{EndsAsRefused};
ghost use Rattle.cl_tasks.specs.Rooms.{imposing_room, settle_room, tracing_named_room, tracing_own_room};
ghost use Rattle.cl_tasks.specs.Resolving.{Cites, ImposedTold, IsInaccessible, IsRefusedAccess, OwnTold, MemberRefusedTold, TracedTold};
ghost use Rattle.cl_tasks.specs.Stages.{IsEntry, IsMember};
ghost use Rattle.cl_tasks.specs.Steps.{IsPlain, LeadsBy, memory_ends};
ghost use Rattle.cl_tasks.specs.Turns.{equality_at, IsOf};

use crate::cited::{Kind, kind_of};
use crate::leads::{out_of_memory, settle};
use crate::link::count_needs;
use crate::stage::{Entry, Member, Next, Resolution, Stage};
use crate::turn::Turn;
use cl_classfile::Reference;
use cl_config::Config;
use cl_findings::Finding;
use cl_hierarchy::{ClassRow, Equalities, Lineage, class_accessible};
use cl_members::{Found, LookupFault, equalities, find_field, find_interface_method, find_method};
use cl_model::{Class, ErrorKind, Need, Told, Verdict};
use std::alloc::{AllocError, Global};
use std::sync::Arc;

/// The lineage of the class whose pool has the entry came: that of the class which the entry names comes next.
pub(crate) fn take_own<T: Told>(
    alloc: Global,
    config: &Arc<Config>,
    entry: Entry<T>,
    named: Arc<ClassRow<T>>,
    own: Lineage<T>,
) -> Next<T>
    requires entry { IsEntry config.now.value entry }
    requires own { IsOf config.now.value entry.d.value.class own }
    ensures leads { LeadsBy T.told config.now.value entry.q entry.request tracing_own_room
        (OwnTold entry named.value own) result }
    ensures plain { IsPlain result.turn }
    ensures past { IsPast result.stage }
{
    match named.class().try_clone(alloc) {
        Err(_) => out_of_memory(entry.q, entry.request),
        Ok(class) => Next {
            stage: Stage::Resolve(Resolution::TracingNamed(entry, own, named)),
            turn: Turn::Lineage(class),
        },
    }
}

/// The lineage of the class that the entry names came, too: its member is looked up, where the class is accessible.
pub(crate) fn take_class<T: Told>(
    alloc: Global,
    config: &Arc<Config>,
    entry: Entry<T>,
    own: Lineage<T>,
    named: Lineage<T>,
) -> Next<T>
    requires entry { IsEntry config.now.value entry }
    requires own { IsOf config.now.value entry.d.value.class own }
    requires named { named.config ≡ config.now.value }
    ensures leads { LeadsBy T.told config.now.value entry.q entry.request tracing_named_room
        (TracedTold entry own named) result }
    ensures plain { IsPlain result.turn }
    ensures past { IsPast result.stage }
{
    match kind_of(alloc, own.own().file(), entry.index, &named.class().name) {
        Err(_) => out_of_memory(entry.q, entry.request),
        // no registry gives two rows of one class
        Ok(None) => out_of_memory(entry.q, entry.request),
        Ok(Some(kind)) => {
            if class_accessible(named.own(), own.class()) {
                find(alloc, config, entry, own, named, kind)
            } else {
                refuse_access(alloc, config, entry, &own, &named)
            }
        }
    }
}

/// What an entry ends in whose class is not accessible.
#[derive(Drop)]
struct Inaccessible<T: Told> {
    config: Arc<Config>,
    d: Arc<ClassRow<T>>,
    named: Arc<ClassRow<T>>,
    verdict: Verdict,
}

/// The IllegalAccessError of a class, with the rows that it rests on.
fn inaccessible_of<T: Told>(
    alloc: Global,
    config: &Arc<Config>,
    own: &Lineage<T>,
    named: &Lineage<T>,
) -> Result<Inaccessible<T>, AllocError>
    ensures { IfOk result (IsInaccessible config.now.value own.now named.now) }
{
    let class = named.class().try_clone(alloc)?;
    Ok(Inaccessible {
        config: Arc::try_clone(config)?,
        d: Arc::try_clone(own.own())?,
        named: Arc::try_clone(named.own())?,
        verdict: Verdict::Error(ErrorKind::IllegalAccessError, class),
    })
}

/// The class that an entry names is not accessible to the class whose pool has the entry.
fn refuse_access<T: Told>(
    alloc: Global,
    config: &Arc<Config>,
    entry: Entry<T>,
    own: &Lineage<T>,
    named: &Lineage<T>,
) -> Next<T>
    requires entry { IsEntry config.now.value entry }
    requires own { IsOf config.now.value entry.d.value.class own.now }
    requires names { IsRefusedAccess entry own.now named.now }
    ensures leads { LeadsBy T.told config.now.value entry.q entry.request tracing_named_room
        (TracedTold entry own.now named.now) result }
    ensures plain { IsPlain result.turn }
    ensures past { IsPast result.stage }
{
    match (
        entry.try_clone(alloc),
        inaccessible_of(alloc, config, own, named),
    ) {
        (Ok(kept), Ok(end)) => {
            let finding = Finding::class_entry(
                entry.request,
                end.config,
                end.d,
                end.named,
                end.verdict,
            );
            // brings what a finding rests on
            let _ = finding.answer();
            settle(kept, finding)
        }
        _ => out_of_memory(entry.q, entry.request),
    }
}

/// The kind of member that is asked for is looked up.
fn find_member<T: Told>(
    alloc: Global,
    kind: Kind,
    own: &Lineage<T>,
    named: &Lineage<T>,
    index: u16,
) -> Result<Found<T>, LookupFault>
    requires { IsKind (reference (kin_of own.now).file index)
        (kin_of named.now).class.name kind }
    ensures { LooksUp own.now named.now index result }
{
    match kind {
        Kind::Field => find_field(alloc, own, named, index),
        Kind::Method => find_method(alloc, own, named, index),
        Kind::InterfaceMethod => find_interface_method(alloc, own, named, index),
    }
}

/// Looks the member up; what is found has its loading constraints imposed.
fn find<T: Told>(
    alloc: Global,
    config: &Arc<Config>,
    entry: Entry<T>,
    own: Lineage<T>,
    named: Lineage<T>,
    kind: Kind,
) -> Next<T>
    requires entry { IsEntry config.now.value entry }
    requires own { IsOf config.now.value entry.d.value.class own }
    requires goes { GoesTo entry.request own named entry.index }
    requires kind { IsKind (reference (kin_of own).file entry.index)
        (kin_of named).class.name kind }
    ensures leads { LeadsBy T.told config.now.value entry.q entry.request tracing_named_room
        (TracedTold entry own named) result }
    ensures plain { IsPlain result.turn }
    ensures past { IsPast result.stage }
{
    match find_member(alloc, kind, &own, &named, entry.index) {
        Err(LookupFault::Memory) => out_of_memory(entry.q, entry.request),
        Err(fault) => settle_fault(alloc, config, entry, own, named, fault),
        Ok(found) => match equalities_of(alloc, &found) {
            Err(_) => out_of_memory(entry.q, entry.request),
            Ok(equalities) => {
                // brings that a `usize` counts them, and what the list keeps
                let _ = count_needs(&equalities);
                impose(
                    alloc,
                    config,
                    Member {
                        entry,
                        found,
                        equalities,
                    },
                    0,
                )
            }
        },
    }
}

/// The loading constraints of a member, to be shared.
fn equalities_of<T: Told>(alloc: Global, found: &Found<T>) -> Result<Arc<Equalities<T>>, AllocError>
    ensures { IfOk result (λ e. e.value.origin ≡ OfReference found.now.d found.now.c
        found.now.index) }
{
    let equalities = equalities(alloc, found)?;
    Arc::new(alloc, equalities).map_err(|_| AllocError)
}

/// The error of a lookup that found nothing; out of memory is none.
fn error_of(alloc: Global, class: &Class, fault: LookupFault) -> Result<Verdict, AllocError>
    ensures { IfOk result (λ v. fault_verdict class.now fault ≡ Some v) }
{
    let kind = match fault {
        LookupFault::Memory => return Err(AllocError),
        LookupFault::NoSuchField => ErrorKind::NoSuchFieldError,
        LookupFault::NoSuchMethod => ErrorKind::NoSuchMethodError,
        LookupFault::WrongKind => ErrorKind::IncompatibleClassChangeError,
        LookupFault::Inaccessible(owner) => {
            return Ok(Verdict::Error(ErrorKind::IllegalAccessError, owner));
        }
    };
    Ok(Verdict::Error(kind, class.try_clone(alloc)?))
}

/// Settles an entry whose member was not found.
fn settle_fault<T: Told>(
    alloc: Global,
    config: &Arc<Config>,
    entry: Entry<T>,
    own: Lineage<T>,
    named: Lineage<T>,
    fault: LookupFault,
) -> Next<T>
    // What is given.
    requires entry { IsEntry config.now.value entry }
    requires own { IsOf config.now.value entry.d.value.class own }
    requires goes { GoesTo entry.request own named entry.index }
    requires cites { Cites own named entry.index }
    requires lookup { LooksUp own named entry.index (Err fault) }
    // What it leads to.
    ensures leads { LeadsBy T.told config.now.value entry.q entry.request tracing_named_room
        (TracedTold entry own named) result }
    ensures plain { IsPlain result.turn }
    ensures past { IsPast result.stage }
{
    match (
        entry.try_clone(alloc),
        error_of(alloc, named.class(), fault),
    ) {
        (Ok(kept), Ok(verdict)) => {
            let finding = Finding::member_fault(entry.request, own, named, verdict);
            // brings what a finding rests on
            let _ = finding.answer();
            settle(kept, finding)
        }
        _ => out_of_memory(entry.q, entry.request),
    }
}

/// Memory ran out.
pub(crate) fn give_up<T: Told>(member: Member<T>) -> Next<T>
    ensures { result ≡ memory_ends member.entry.q member.entry.request }
{
    let Member { entry, .. } = member;
    out_of_memory(entry.q, entry.request)
}

/// Imposes the equality at this place of a member's, or settles the entry where none is left.
pub(crate) fn impose<T: Told>(
    alloc: Global,
    config: &Arc<Config>,
    member: Member<T>,
    place: usize,
) -> Next<T>
    requires member { IsMember config.now.value member }
    requires within { place ≤ length member.equalities.value.needs }
    ensures leads { LeadsBy T.told config.now.value member.entry.q member.entry.request
        (imposing_room member place)
        (ImposedTold member place) result }
    ensures plain { IsPlain result.turn }
    ensures past { IsPast result.stage }
{
    if place >= count_needs(&member.equalities) {
        return settle_member(alloc, config, member);
    }
    match Arc::try_clone(&member.equalities) {
        Err(_) => give_up(member),
        Ok(shared) => Next {
            stage: Stage::Resolve(Resolution::Imposing(member, place)),
            turn: Turn::Impose(shared, place),
        },
    }
}

/// What a member is as a verdict.
fn verdict_of<T: Told>(alloc: Global, found: &Found<T>) -> Result<Verdict, AllocError>
    ensures { IfOk result (λ v. IsOfFound found.now (verdict_of v)) }
{
    let class = found.owner().class().try_clone(alloc)?;
    let key = found.key().try_clone(alloc)?;
    Ok(match found.d().own().file().reference(found.index()) {
        Some(Reference::Field(_)) => Verdict::Field(class, key),
        _ => Verdict::Method(class, key),
    })
}

/// Settles an entry to the member that was found, whose equalities are all imposed.
fn settle_member<T: Told>(alloc: Global, config: &Arc<Config>, member: Member<T>) -> Next<T>
    requires member { IsMember config.now.value member }
    ensures leads { LeadsBy T.told config.now.value member.entry.q member.entry.request settle_room
        (ImposedTold member (length member.equalities.value.needs)) result }
    ensures plain { IsPlain result.turn }
    ensures past { IsPast result.stage }
{
    let Member {
        entry,
        found,
        equalities,
    } = member;
    // brings what is kept of what was found
    let _ = found.index();
    match (entry.try_clone(alloc), verdict_of(alloc, &found)) {
        (Ok(kept), Ok(verdict)) => {
            let finding = Finding::member(entry.request, &found, equalities, verdict);
            // brings what a finding rests on
            let _ = finding.answer();
            settle(kept, finding)
        }
        _ => out_of_memory(entry.q, entry.request),
    }
}

/// The equality at this place of a member's is refused: the entry is settled to that.
pub(crate) fn refuse_member<T: Told>(
    alloc: Global,
    config: &Arc<Config>,
    member: Member<T>,
    place: usize,
    need: Need,
) -> Next<T>
    requires member { IsMember config.now.value member }
    requires need { equality_at member.equalities.value place ≡ Some (need_of need) }
    ensures leads { LeadsBy T.told config.now.value member.entry.q member.entry.request settle_room
        (MemberRefusedTold member place (need_of need)) result }
    ensures plain { IsPlain result.turn }
    ensures past { IsPast result.stage }
    ensures ends { EndsAsRefused member.entry.request need result.turn }
{
    let Member {
        entry,
        equalities,
        ..
    } = member;
    match entry.try_clone(alloc) {
        Err(_) => out_of_memory(entry.q, entry.request),
        Ok(kept) => {
            let finding = Finding::refused_member(entry.request, equalities, place, need);
            // brings what a finding rests on
            let _ = finding.answer();
            settle(kept, finding)
        }
    }
}
