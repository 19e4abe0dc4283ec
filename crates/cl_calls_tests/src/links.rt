//! Lists of constraints: in their order, once, and of these tables alone.

use crate::given::{
    Kind, PARENT_FIRST, Step, Told, class, do_report, kind_of, post_finding, record, registry,
};
use cl_config::Config;
use cl_findings::Finding;
use cl_given::{APP, BOOT, LOADERS, Named, PLUG, bytes_of, class_name, config, telling_source};
use cl_hierarchy::Equalities;
use cl_model::{Class, LoaderId, Request, Untold};
use cl_preparation::constraints_of;
use cl_registry::{Registry, RegistryFault};
use std::alloc::{AllocError, Global};
use std::process::Abort;
use std::sync::Arc;
use std::test::Fail;

/// A class in `plug` over one in `app`, both with a method that takes a `p/T`, and a `p/T` in each.
const FILES: [(u16, Named); 5] = [
    (BOOT, Top),
    (APP, Service),
    (PLUG, Sub),
    (APP, T),
    (PLUG, T),
];

/// The constraints of a class's preparation.
fn list(
    alloc: Global,
    tables: &Registry<Untold>,
    class: &Class,
) -> Result<Equalities<Untold>, RegistryFault> {
    let lineage = tables.lineage(alloc, class)?;
    Ok(constraints_of(alloc, &lineage)?)
}

/// What a registry is asked: to record a name at a loader; of a class, to impose the first constraint of its list, or one past its
/// end, or to mark it.
#[derive(Clone, Copy, PartialEq, Eq)]
enum Call {
    Record,
    Impose,
    ImposePast,
    Mark,
}

use Call::{Impose, ImposePast, Mark, Record};
use Named::{Service, Sub, T, Top};
use Told::{Done, Stray, Violates};

/// What is asked in order of tables in which nothing of `p/T` is recorded.
const STEPS: [(Call, u16, Named, Told); 20] = [
    (Mark, PLUG, Sub, Stray),
    (Record, BOOT, Top, Done),
    (Record, APP, Top, Done),
    (Record, APP, Service, Done),
    (Record, PLUG, Service, Done),
    (Record, PLUG, Sub, Done),
    // its constraint does not stand yet
    (Mark, PLUG, Sub, Stray),
    (ImposePast, PLUG, Sub, Stray),
    (Impose, PLUG, Sub, Done),
    (Impose, PLUG, Sub, Done),
    // what stands above it is not prepared
    (Mark, PLUG, Sub, Stray),
    (Mark, APP, Service, Stray),
    (Mark, BOOT, Top, Done),
    (Mark, APP, Service, Done),
    (Mark, PLUG, Sub, Done),
    (Mark, PLUG, Sub, Done),
    (Record, APP, T, Done),
    (Record, PLUG, Top, Done),
    (Record, PLUG, T, Violates),
    (Impose, PLUG, Sub, Done),
];

/// The same where both loaders have recorded a class `p/T` before.
const CLASHES: [(Call, u16, Named, Told); 11] = [
    (Record, BOOT, Top, Done),
    (Record, APP, Top, Done),
    (Record, PLUG, Top, Done),
    (Record, APP, T, Done),
    (Record, PLUG, T, Done),
    (Record, APP, Service, Done),
    (Record, PLUG, Service, Done),
    (Record, PLUG, Sub, Done),
    (Impose, PLUG, Sub, Violates),
    (Mark, PLUG, Sub, Stray),
    (Mark, BOOT, Top, Done),
];

/// Whether the tables take the answer that the subclass is linked.
fn is_posted(alloc: Global, tables: &mut Registry<Untold>) -> Result<bool, AllocError> {
    let sub = class(alloc, PLUG, bytes_of(Sub))?;
    let request = Request::Link(LoaderId(PLUG), class_name(alloc, bytes_of(Sub))?);
    let linked = Finding::linked(request, sub);
    Ok(post_finding(tables, 0, linked) == Done)
}

fn ask(
    alloc: Global,
    tables: &mut Registry<Untold>,
    config: &Arc<Config>,
    step: (Call, u16, Named),
) -> Result<Told, AllocError> {
    let (call, loader, name) = step;
    let name = bytes_of(name);
    if call == Record {
        return record(
            alloc,
            tables,
            config,
            telling_source(alloc, &FILES)?,
            loader,
            name,
        );
    }
    let class = class(alloc, loader, name)?;
    match list(alloc, tables, &class) {
        Ok(list) => Ok(ask_of(alloc, tables, call, list)),
        Err(fault) => Ok(kind_of(&fault)),
    }
}

/// What the tables tell of a list.
fn ask_of(
    alloc: Global,
    tables: &mut Registry<Untold>,
    call: Call,
    list: Equalities<Untold>,
) -> Told {
    let done = match call {
        Impose => tables.impose(alloc, &list, 0),
        ImposePast => tables.impose(alloc, &list, 1),
        _ => tables.mark_prepared(alloc, &list),
    };
    drop(list);
    match done {
        Ok(()) => Done,
        Err(fault) => kind_of(&fault),
    }
}

/// The history that the steps leave.
const HISTORY: [Step; 12] = [
    (Kind::Define, BOOT, Top, 0),
    (Kind::Initiate, BOOT, Top, APP),
    (Kind::Define, APP, Service, 0),
    (Kind::Initiate, APP, Service, PLUG),
    (Kind::Define, PLUG, Sub, 0),
    (Kind::Constrain, APP, T, PLUG),
    (Kind::Prepare, BOOT, Top, 0),
    (Kind::Prepare, APP, Service, 0),
    (Kind::Prepare, PLUG, Sub, 0),
    (Kind::Define, APP, T, 0),
    (Kind::Initiate, BOOT, Top, PLUG),
    (Kind::Post, 0, T, 0),
];

/// Asks all steps, and compares what is told.
fn ask_all<R: Abort>(
    rt: &R,
    alloc: Global,
    tables: &mut Registry<Untold>,
    config: &Arc<Config>,
    steps: &[(Call, u16, Named, Told)],
) -> Result<(), AllocError> {
    for (call, loader, name, wanted) in steps {
        let told = ask(alloc, tables, config, (*call, *loader, *name))?;
        assert!(rt; told == *wanted);
    }
    Ok(())
}

/// Records in tables of other loaders what the steps record.
fn record_all(
    alloc: Global,
    tables: &mut Registry<Untold>,
    other: &Arc<Config>,
) -> Result<(), AllocError> {
    for (call, loader, name, _) in STEPS {
        if call == Record {
            let _ = ask(alloc, tables, other, (call, loader, name))?;
        }
    }
    Ok(())
}

/// The list of the subclass by tables in which it is recorded.
fn sub_list(alloc: Global, tables: &Registry<Untold>) -> Result<Equalities<Untold>, AllocError> {
    let sub = class(alloc, PLUG, bytes_of(Sub))?;
    match list(alloc, tables, &sub) {
        Ok(list) => Ok(list),
        Err(_) => Err(AllocError),
    }
}

/// The list of the subclass by tables of other loaders, in which the same is recorded.
fn strange_list(alloc: Global) -> Result<Equalities<Untold>, AllocError> {
    let other = config(alloc, PARENT_FIRST)?;
    let mut elsewhere = registry(alloc, &other, "link plug q/C")?;
    let recorded = record_all(alloc, &mut elsewhere, &other);
    drop(other);
    let list = if recorded.is_ok() {
        sub_list(alloc, &elsewhere)
    } else {
        Err(AllocError)
    };
    drop(elsewhere);
    list
}

/// Whether the tables take neither a constraint of a list of other loaders nor its class as prepared.
fn strays(alloc: Global, tables: &mut Registry<Untold>) -> Result<bool, AllocError> {
    let strange = strange_list(alloc)?;
    let are_strayed = is_stray(tables.impose(alloc, &strange, 0))
        && is_stray(tables.mark_prepared(alloc, &strange));
    drop(strange);
    Ok(are_strayed)
}

fn is_stray(told: Result<(), RegistryFault>) -> bool {
    match told {
        Ok(()) => false,
        Err(fault) => kind_of(&fault) == Stray,
    }
}

fn is_prepared(
    alloc: Global,
    tables: &Registry<Untold>,
    loader: u16,
    name: Named,
) -> Result<bool, AllocError> {
    Ok(tables.look_prepared(&class(alloc, loader, bytes_of(name))?))
}

/// Asks the steps of tables, and what they then tell.
fn ask_steps<R: Abort>(
    rt: &R,
    alloc: Global,
    tables: &mut Registry<Untold>,
    own: &Arc<Config>,
) -> Result<(), AllocError> {
    ask_all(rt, alloc, tables, own, &STEPS)?;
    assert!(rt; strays(alloc, tables)?);
    assert!(rt; is_prepared(alloc, tables, PLUG, Sub)?);
    assert!(rt; is_posted(alloc, tables)?);
    Ok(())
}

/// A list is imposed one after another, then its class is marked, supertypes first, each once; a record that would violate is
/// refused; a list of other loaders is refused as Stray. A link is posted once its class is prepared.
#[test]
fn constraints_are_imposed_and_marked(rt: HostRuntime) -> Result<(), Fail> {
    let alloc = rt.alloc();
    let own = config(alloc, LOADERS)?;
    let mut tables = registry(alloc, &own, "link plug q/C")?;
    let asked = ask_steps(&rt, alloc, &mut tables, &own);
    drop(own);
    let are_told = do_report(tables, &HISTORY);
    asked?;
    assert!(rt; are_told);
    Ok(())
}

/// Asks the steps of tables that clash, and what they then tell.
fn ask_clashes<R: Abort>(
    rt: &R,
    alloc: Global,
    tables: &mut Registry<Untold>,
    own: &Arc<Config>,
) -> Result<(), AllocError> {
    ask_all(rt, alloc, tables, own, &CLASHES)?;
    assert!(rt; !is_prepared(alloc, tables, PLUG, Sub)?);
    assert!(rt; is_prepared(alloc, tables, BOOT, Top)?);
    assert!(rt; !is_posted(alloc, tables)?);
    Ok(())
}

/// A constraint that two recorded classes violate is refused; its class is neither marked nor linked.
#[test]
fn a_violated_constraint_is_refused(rt: HostRuntime) -> Result<(), Fail> {
    let alloc = rt.alloc();
    let own = config(alloc, LOADERS)?;
    let mut tables = registry(alloc, &own, "link plug q/C")?;
    let asked = ask_clashes(&rt, alloc, &mut tables, &own);
    drop(tables);
    drop(own);
    asked?;
    Ok(())
}
