//! Values that belong elsewhere: probes of another search, findings of another script, homes of other loaders.

use crate::given::{
    Kind, PARENT_FIRST, Step, Told, class, do_report, draft_of, final_file, home, is_taken,
    kind_of, post_finding, refusal, registry, search, source_of,
};
use cl_config::Config;
use cl_delegation::{Home, Search};
use cl_findings::Finding;
use cl_given::{APP, BOOT, KID, LOADERS, Named, PLUG, bytes_of, class_name, config, file_bytes};
use cl_hierarchy::{ClassRow, Draft};
use cl_model::{LoaderId, Request, Untold};
use cl_names::Name;
use cl_registry::{DefineRefused, Registry};
use cl_source::{MemorySource, Telling};
use std::alloc::{AllocError, Global};
use std::process::Abort;
use std::sync::Arc;
use std::test::Fail;

/// No loader, at the end of an order.
const NOWHERE: u16 = u16::MAX;

/// Of a loader and `java/x` or `p/X`, the loaders that are probed while none has it.
const ORDERS: [(u16, bool, [u16; 3]); 4] = [
    (KID, false, [BOOT, APP, KID]),
    (PLUG, false, [PLUG, BOOT, APP]),
    (PLUG, true, [BOOT, NOWHERE, NOWHERE]),
    (BOOT, false, [BOOT, NOWHERE, NOWHERE]),
];

/// Two loaders over the first one, and a last one over both.
const TWO: &str =
    "[[loader]]\nname = \"boot\"\n[[loader]]\nname = \"a\"\nparent = \"boot\"\n[[loader]]\nname = \"b\"\nparent = \"boot\"\n[[loader]]\nname = \"c\"\n";

/// What the last of four loaders says, and the loaders that are probed for `p/X` while none has it: each once.
const DIAMONDS: [(&str, [u16; 4]); 3] = [
    ("parents = [\"a\", \"b\"]", [0, 1, 2, 3]),
    ("parents = [\"a\", \"b\"]\norder = \"child\"", [3, 0, 1, 2]),
    ("parents = [\"b\", \"a\"]", [0, 2, 1, 3]),
];

/// How many loaders stand over one another, each over the last two before it.
const RUNGS: u16 = 1_024;

/// Whether a search asks for the probe of a loader next, takes it then, and hands back those of another loader and of
/// another name.
fn takes_alone(
    alloc: Global,
    nothing: &mut Telling<Untold>,
    search: &mut Search<Untold>,
    place: u16,
    name: &Name,
) -> Result<bool, AllocError> {
    let other_name = class_name(alloc, b"p/Y")?;
    let elsewhere = LoaderId(if place == PLUG { KID } else { PLUG });
    Ok(
        search.next_probe() == Some(LoaderId(place))
            && !is_taken(alloc, nothing, search, elsewhere, name)?
            && !is_taken(alloc, nothing, search, LoaderId(place), &other_name)?
            && is_taken(alloc, nothing, search, LoaderId(place), name)?,
    )
}

/// Asks a search for its probes in this order.
fn ask_probes<R: Abort>(
    rt: &R,
    alloc: Global,
    nothing: &mut Telling<Untold>,
    search: &mut Search<Untold>,
    order: &[u16],
    name: &Name,
) -> Result<(), AllocError> {
    for place in order {
        if *place != NOWHERE {
            assert!(rt; takes_alone(alloc, nothing, search, *place, name)?);
        }
    }
    Ok(())
}

/// Whether a search has ended and found nothing.
fn is_unfound(search: Search<Untold>) -> bool {
    if search.next_probe().is_some() {
        drop(search);
        return false;
    }
    match search.home() {
        Ok(home) => {
            drop(home);
            false
        }
        Err(unfound) => {
            drop(unfound);
            true
        }
    }
}

/// Asks for a name at a loader, while no loader has it: for its probes in this order, and for no more.
fn ask_order<R: Abort>(
    rt: &R,
    alloc: Global,
    loaders: &Arc<Config>,
    nothing: &mut Telling<Untold>,
    loader: u16,
    text: &[u8],
    order: &[u16],
) -> Result<(), AllocError> {
    let name = class_name(alloc, text)?;
    let mut search = search(alloc, loaders, loader, name.bytes())?;
    let asked = ask_probes(rt, alloc, nothing, &mut search, order, &name);
    let is_more = is_taken(alloc, nothing, &mut search, LoaderId(loader), &name);
    let is_unfound = is_unfound(search);
    asked?;
    assert!(rt; !is_more? && is_unfound);
    Ok(())
}

/// Asks all orders.
fn ask_orders<R: Abort>(
    rt: &R,
    alloc: Global,
    nothing: &mut Telling<Untold>,
) -> Result<(), AllocError> {
    let loaders = config(alloc, LOADERS)?;
    for (loader, is_java, order) in ORDERS {
        let text = if is_java {
            b"java/x".as_slice()
        } else {
            b"p/X"
        };
        ask_order(rt, alloc, &loaders, nothing, loader, text, order.as_slice())?;
    }
    drop(loaders);
    Ok(())
}

/// Asks those of all diamonds.
fn ask_diamonds<R: Abort>(
    rt: &R,
    alloc: Global,
    nothing: &mut Telling<Untold>,
) -> Result<(), AllocError> {
    for (last, order) in DIAMONDS {
        let text = format!(in alloc; "{TWO}{last}")?;
        let loaders = config(alloc, text.as_str())?;
        ask_order(rt, alloc, &loaders, nothing, 3, b"p/X", order.as_slice())?;
        drop(loaders);
    }
    Ok(())
}

/// Asks the last loader of a ladder, in which the ways double with each rung.
fn ask_ladder<R: Abort>(
    rt: &R,
    alloc: Global,
    nothing: &mut Telling<Untold>,
) -> Result<(), AllocError> {
    let mut text = String::new(alloc);
    let mut order = Vec::new(alloc);
    for rung in 0..RUNGS {
        text.push_str("[[loader]]\n")?;
        text.push_str(format!(in alloc; "name = \"l{rung}\"\n")?.as_str())?;
        if rung == 1 {
            text.push_str("parent = \"l0\"\n")?;
        } else if rung > 1 {
            let (one, other) = (rung - 1, rung - 2);
            text.push_str(format!(in alloc; "parents = [\"l{one}\", \"l{other}\"]\n")?.as_str())?;
        }
        order.push(rung)?;
    }
    let loaders = config(alloc, text.as_str())?;
    ask_order(
        rt,
        alloc,
        &loaders,
        nothing,
        RUNGS - 1,
        b"p/X",
        order.as_slice(),
    )?;
    drop(loaders);
    Ok(())
}

/// A search asks for its probes in their order, takes each once, and hands back every other.
#[test]
fn probes_in_order(rt: HostRuntime) -> Result<(), Fail> {
    let alloc = rt.alloc();
    let mut nothing = MemorySource::new(alloc).tell::<Untold>();
    let orders = ask_orders(&rt, alloc, &mut nothing);
    let diamonds = ask_diamonds(&rt, alloc, &mut nothing);
    let ladder = ask_ladder(&rt, alloc, &mut nothing);
    drop(nothing);
    orders?;
    diamonds?;
    ladder?;
    Ok(())
}

/// Defines the class of a home, and tells the flags of the file that is kept of it, or the refusal. A growth that is refused
/// hands the draft back and changes nothing, so that it can be asked again.
fn define(
    rt: &impl Print,
    alloc: Global,
    tables: &mut Registry<Untold>,
    home: Home<Untold>,
    name: &Name,
) -> Result<Result<u16, Told>, Fail> {
    let loader = home.definer();
    let was_recorded = tables.look(loader, name).is_some();
    let draft = draft_of(alloc, home)?;
    let back = match tables.define(alloc, draft) {
        Ok(row) => return Ok(Ok(flags_of(row))),
        Err(back) => back,
    };
    let is_recorded = tables.look(loader, name).is_some();
    if is_recorded != was_recorded || !is_of(&back.draft, loader, name) {
        drop(back);
        return Err(Fail::new("a refused definition left a trace"));
    }
    if kind_of(&back.fault) == Told::Memory {
        return again(rt, alloc, tables, back);
    }
    Ok(Err(refusal(back)))
}

fn flags_of(row: Arc<ClassRow<Untold>>) -> u16 {
    let flags = row.file().flags();
    drop(row);
    flags
}

fn is_of(draft: &Draft<Untold>, loader: LoaderId, name: &Name) -> bool {
    draft.class().loader == loader && draft.class().name == *name
}

/// Asks for a definition once more, which came back since memory ran out.
fn again(
    rt: &impl Print,
    alloc: Global,
    tables: &mut Registry<Untold>,
    back: DefineRefused<Untold>,
) -> Result<Result<u16, Told>, Fail> {
    let told = match tables.define(alloc, back.draft) {
        Ok(row) => Ok(flags_of(row)),
        Err(refused) => Err(refusal(refused)),
    };
    println!(rt; "refused: Registry::define")?;
    Ok(told)
}

/// What the tables tell of the loader that was asked for a home: which loader defined its class, or the refusal.
fn tell_loader(
    alloc: Global,
    tables: &mut Registry<Untold>,
    home: &Home<Untold>,
) -> Result<u16, Told> {
    match tables.initiate(alloc, home) {
        Ok(row) => {
            let loader = row.class().loader.0;
            drop(row);
            Ok(loader)
        }
        Err(fault) => Err(kind_of(&fault)),
    }
}

/// Records the loader that was asked for a home, and tells the loader that defined its class, or the refusal. A growth that
/// is refused changes nothing, so that it can be asked again.
fn initiate(
    rt: &impl Print,
    alloc: Global,
    tables: &mut Registry<Untold>,
    home: &Home<Untold>,
    name: &Name,
) -> Result<Result<u16, Told>, Fail> {
    let was_recorded = tables.look(home.asked_loader(), name).is_some();
    let told = tell_loader(alloc, tables, home);
    if told.is_err() && tables.look(home.asked_loader(), name).is_some() != was_recorded {
        return Err(Fail::new("a refused record left a trace"));
    }
    if told == Err(Told::Memory) {
        println!(rt; "refused: Registry::initiate")?;
        return Ok(tell_loader(alloc, tables, home));
    }
    Ok(told)
}

/// What a registry is asked to do with a home.
#[derive(Clone, Copy, PartialEq, Eq)]
enum Call {
    Define,
    Initiate,
}

/// Where a home was found: under the registry's own loaders, under others, or in a source that tells another `p/T`.
#[derive(Clone, Copy, PartialEq, Eq)]
enum Found {
    Own,
    Elsewhere,
    Changed,
}

use Call::{Define, Initiate};
use Found::{Changed, Elsewhere, Own};
use Named::{T, Top};

/// What stands in a row for the refusal of what belongs elsewhere, and for any other.
const STRAY: u16 = 1000;

const OTHER: u16 = 1001;

/// A step: what is asked, of which home, and what is told: a file's flags, a defining loader, or the refusal.
type Asked = (Call, Found, u16, Named, u16);

/// What is asked in order.
const STEPS: [Asked; 15] = [
    (Initiate, Elsewhere, KID, T, STRAY),
    (Define, Elsewhere, PLUG, T, STRAY),
    (Define, Elsewhere, BOOT, Top, STRAY),
    // nothing is recorded that it could rest on
    (Define, Own, APP, T, STRAY),
    (Initiate, Own, PLUG, T, STRAY),
    (Initiate, Own, APP, Top, STRAY),
    (Define, Own, BOOT, Top, 0x21),
    (Define, Own, APP, T, STRAY),
    (Initiate, Own, APP, Top, BOOT),
    (Define, Own, APP, T, 0x21),
    // a later definition does not replace it, whatever its file
    (Define, Changed, APP, T, 0x21),
    (Define, Own, APP, T, 0x21),
    (Initiate, Own, PLUG, T, APP),
    (Initiate, Changed, PLUG, T, APP),
    (Initiate, Elsewhere, KID, T, STRAY),
];

/// What is told, as a number of the rows.
fn number_of(told: Result<u16, Told>) -> u16 {
    match told {
        Ok(number) => number,
        Err(Told::Stray) => STRAY,
        Err(_) => OTHER,
    }
}

/// The history that the steps leave, and a post.
const HISTORY: [Step; 5] = [
    (Kind::Define, BOOT, Top, 0),
    (Kind::Initiate, BOOT, Top, APP),
    (Kind::Define, APP, T, 0),
    (Kind::Initiate, APP, T, PLUG),
    (Kind::Post, 0, T, 0),
];

/// Asks a registry to do something with the home of a name at a loader.
fn ask(
    rt: &impl Print,
    alloc: Global,
    tables: &mut Registry<Untold>,
    call: Call,
    home: Home<Untold>,
    name: &Name,
) -> Result<Result<u16, Told>, Fail> {
    match call {
        Define => define(rt, alloc, tables, home, name),
        Initiate => {
            let told = initiate(rt, alloc, tables, &home, name);
            drop(home);
            told
        }
    }
}

/// What the tables tell of the answer that `plug` found a class of this loader.
fn post_class(
    alloc: Global,
    tables: &mut Registry<Untold>,
    loader: u16,
) -> Result<Told, AllocError> {
    let found = class(alloc, loader, bytes_of(T))?;
    let request = Request::Load(LoaderId(PLUG), class_name(alloc, bytes_of(T))?);
    Ok(post_finding(tables, 0, Finding::class(request, found)))
}

/// The home of a name in a source where `p/T` has these bytes.
fn home_among(
    alloc: Global,
    loaders: &Arc<Config>,
    bytes: &[u8],
    loader: u16,
    name: Named,
) -> Result<Home<Untold>, AllocError> {
    let mut source = source_of(alloc, bytes)?;
    home(alloc, loaders, &mut source, loader, bytes_of(name))
}

/// Asks the steps of tables.
fn ask_steps<R: Abort + Print>(
    rt: &R,
    alloc: Global,
    tables: &mut Registry<Untold>,
    own: &Arc<Config>,
    other: &Arc<Config>,
    steps: &[Asked],
) -> Result<(), Fail> {
    for (call, found, loader, name, wanted) in steps {
        let loaders = if *found == Elsewhere { other } else { own };
        let bytes = if *found == Changed {
            final_file()
        } else {
            file_bytes(T)
        };
        let asked = class_name(alloc, bytes_of(*name))?;
        let home = home_among(alloc, loaders, bytes, *loader, *name)?;
        let told = ask(rt, alloc, tables, *call, home, &asked)?;
        assert!(rt; number_of(told) == *wanted);
    }
    Ok(())
}

/// Posts three answers: one that the tables do not bear, one that they do, and the first again, which comes too late.
fn post_each<R: Abort>(
    rt: &R,
    alloc: Global,
    tables: &mut Registry<Untold>,
) -> Result<(), AllocError> {
    assert!(rt; post_class(alloc, tables, PLUG)? == Told::Stray);
    assert!(rt; post_class(alloc, tables, APP)? == Told::Done);
    assert!(rt; post_class(alloc, tables, PLUG)? == Told::AlreadyPosted);
    Ok(())
}

/// What was found under other loaders is refused as Stray and changes nothing, though their numbers are the same; a class is
/// recorded once its supertypes are, and what is recorded stays.
#[test]
fn strangers_change_nothing(rt: HostRuntime) -> Result<(), Fail> {
    let alloc = rt.alloc();
    let own = config(alloc, PARENT_FIRST)?;
    let other = config(alloc, LOADERS)?;
    let mut tables = registry(alloc, &own, "load plug p/T")?;
    let asked = ask_steps(&rt, alloc, &mut tables, &own, &other, &STEPS);
    drop(own);
    drop(other);
    let posted = post_each(&rt, alloc, &mut tables);
    let are_told = do_report(tables, &HISTORY);
    asked?;
    posted?;
    assert!(rt; are_told);
    Ok(())
}
