//! Lineages, and what is accessible to whom: what stands above a class, each ancestor once and supertypes first.

use crate::access::{MEMBERS, PACKAGES, SEEN, ask_members, ask_seen};
use crate::given::{Told, record, registry};
use cl_config::Config;
use cl_given::{APP, BOOT, LOADERS, Named, bytes_of, class_name, config, put, telling_source};
use cl_hierarchy::{ClassRow, Lineage};
use cl_model::{Class, LoaderId, Untold};
use cl_names::Name;
use cl_registry::Registry;
use cl_source::MemorySource;
use std::alloc::{AllocError, Global};
use std::process::Abort;
use std::sync::Arc;
use std::test::Fail;

/// Classes stand in tables by their numbers: `p/C0`, `p/C1` and on, but for those that have names of their own.
pub const TOP: u16 = 20_000;

const J1: u16 = 20_001;

const J2: u16 = 20_002;

const J3: u16 = 20_003;

const D: u16 = 20_004;

pub const P: u16 = 20_005;

pub const Q: u16 = 20_006;

pub const R: u16 = 20_007;

pub const H: u16 = 20_008;

pub const QD: u16 = 20_009;

pub const QE: u16 = 20_010;

/// No class, at the end of a row.
pub const NONE: u16 = 20_011;

pub fn name_of(alloc: Global, class: u16) -> Result<Name, AllocError> {
    match class {
        TOP => class_name(alloc, b"java/lang/Object"),
        J1 => class_name(alloc, b"p/J1"),
        J2 => class_name(alloc, b"p/J2"),
        J3 => class_name(alloc, b"p/J3"),
        D => class_name(alloc, b"p/D"),
        P => class_name(alloc, b"p/P"),
        Q => class_name(alloc, b"p/Q"),
        R => class_name(alloc, b"p/R"),
        H => class_name(alloc, b"p/H"),
        QD => class_name(alloc, b"q/D"),
        QE => class_name(alloc, b"q/E"),
        number => {
            let text = format!(in alloc; "p/C{number}")?;
            class_name(alloc, text.as_bytes())
        }
    }
}

fn put_u16(bytes: &mut Vec<u8>, number: u16) -> Result<(), AllocError> {
    bytes.extend_from_slice(&number.to_be_bytes())
}

/// Adds the two entries of a class's constant, of which the first has this index.
fn put_class(alloc: Global, bytes: &mut Vec<u8>, index: u16, class: u16) -> Result<(), AllocError> {
    let name = name_of(alloc, class)?;
    let length = u16::try_from(name.bytes().len()).map_err(|_| AllocError)?;
    bytes.push(1)?;
    put_u16(bytes, length)?;
    bytes.extend_from_slice(name.bytes())?;
    bytes.push(7)?;
    put_u16(bytes, index)
}

/// A class with no members: its flags, itself, its superclass and its superinterfaces.
pub type Row = (u16, [u16; 5]);

/// How many classes a row names.
fn count_of(classes: &[u16]) -> u16 {
    let mut count = 0u16;
    for class in classes {
        if *class != NONE {
            count = count.saturating_add(1);
        }
    }
    count
}

/// The file of a class (JVMS SE 8, 4.1): the constants of the classes that it names stand in pairs.
fn file(alloc: Global, row: &Row) -> Result<Vec<u8>, AllocError> {
    let (flags, classes) = row;
    let count = count_of(classes);
    let mut bytes = Vec::from_slice(alloc, b"\xca\xfe\xba\xbe\x00\x00\x00\x34")?;
    put_u16(&mut bytes, count.saturating_mul(2).saturating_add(1))?;
    let mut index = 1u16;
    for class in classes {
        if *class != NONE {
            put_class(alloc, &mut bytes, index, *class)?;
            index = index.saturating_add(2);
        }
    }
    put_u16(&mut bytes, *flags)?;
    put_u16(&mut bytes, 2)?;
    put_u16(&mut bytes, 4)?;
    put_u16(&mut bytes, count.saturating_sub(2))?;
    let mut index = 6u16;
    for _ in 2..count {
        put_u16(&mut bytes, index)?;
        index = index.saturating_add(2);
    }
    bytes.extend_from_slice(b"\x00\x00\x00\x00\x00\x00")?;
    Ok(bytes)
}

/// Has `app` define a class.
fn define(
    alloc: Global,
    tables: &mut Registry<Untold>,
    config: &Arc<Config>,
    row: &Row,
) -> Result<bool, AllocError> {
    let (_, [class, ..]) = row;
    let name = name_of(alloc, *class)?;
    let bytes = file(alloc, row)?;
    let mut source = MemorySource::new(alloc);
    put(alloc, &mut source, APP, name.bytes(), bytes)?;
    let told = record(
        alloc,
        tables,
        config,
        source.tell::<Untold>(),
        APP,
        name.bytes(),
    )?;
    Ok(told == Told::Done)
}

/// Has `boot` define `java/lang/Object`, which `app` finds there.
fn define_top(
    alloc: Global,
    tables: &mut Registry<Untold>,
    config: &Arc<Config>,
) -> Result<bool, AllocError> {
    for loader in [BOOT, APP] {
        let source = telling_source(alloc, &[(BOOT, Named::Top)])?;
        if record(alloc, tables, config, source, loader, bytes_of(Named::Top))? != Told::Done {
            return Ok(false);
        }
    }
    Ok(true)
}

/// Whether rows are of these classes.
fn are_of(
    alloc: Global,
    rows: &[Arc<ClassRow<Untold>>],
    classes: &[u16],
) -> Result<bool, AllocError> {
    for (row, class) in rows.iter().zip(classes) {
        if row.class().name != name_of(alloc, *class)? {
            return Ok(false);
        }
    }
    Ok(rows.len() == classes.len())
}

/// The lineage of a class of `app`.
pub fn lineage(
    alloc: Global,
    tables: &Registry<Untold>,
    class: u16,
) -> Result<Lineage<Untold>, AllocError> {
    let class = class_of(alloc, class)?;
    match tables.lineage(alloc, &class) {
        Ok(lineage) => Ok(lineage),
        Err(fault) => {
            drop(fault);
            Err(AllocError)
        }
    }
}

pub fn class_of(alloc: Global, class: u16) -> Result<Class, AllocError> {
    Ok(Class {
        name: name_of(alloc, class)?,
        loader: LoaderId(APP),
    })
}

/// Whether just these classes stand above a class, in this order.
fn stands_under(
    alloc: Global,
    tables: &Registry<Untold>,
    class: u16,
    above: &[u16],
) -> Result<bool, AllocError> {
    let lineage = lineage(alloc, tables, class)?;
    let is_so = are_of(alloc, lineage.above(), above);
    drop(lineage);
    is_so
}

/// Whether just these are the superinterfaces of a class, in this order.
fn has_superinterfaces(
    alloc: Global,
    tables: &Registry<Untold>,
    class: u16,
    wanted: &[u16],
) -> Result<bool, AllocError> {
    let lineage = lineage(alloc, tables, class)?;
    let found = lineage.superinterfaces(alloc);
    drop(lineage);
    let rows = found?;
    let is_so = are_of(alloc, rows.as_slice(), wanted);
    drop(rows);
    is_so
}

pub const CLASS: u16 = 0x21;

const INTERFACE: u16 = 0x601;

/// A class with three superinterfaces, and a diamond over `p/C6000`.
const CLASSES: [Row; 8] = [
    (INTERFACE, [J3, TOP, NONE, NONE, NONE]),
    (INTERFACE, [J1, TOP, NONE, NONE, NONE]),
    (INTERFACE, [J2, TOP, NONE, NONE, NONE]),
    (CLASS, [D, TOP, J3, J1, J2]),
    (INTERFACE, [6000, TOP, NONE, NONE, NONE]),
    (INTERFACE, [6001, TOP, 6000, NONE, NONE]),
    (INTERFACE, [6002, TOP, 6000, NONE, NONE]),
    (CLASS, [6003, TOP, 6001, 6002, NONE]),
];

/// Has `app` define these classes.
fn define_all<R: Abort>(
    rt: &R,
    alloc: Global,
    tables: &mut Registry<Untold>,
    config: &Arc<Config>,
    rows: &[Row],
) -> Result<(), AllocError> {
    for row in rows {
        assert!(rt; define(alloc, tables, config, row)?);
    }
    Ok(())
}

/// A class has each ancestor once, supertypes first; its superinterfaces stand each at its first place.
fn ask_classes<R: Abort>(
    rt: &R,
    alloc: Global,
    tables: &Registry<Untold>,
) -> Result<(), AllocError> {
    assert!(rt; stands_under(alloc, tables, D, &[TOP, J3, J1, J2])?);
    assert!(rt; has_superinterfaces(alloc, tables, D, &[J3, J1, J2])?);
    assert!(rt; stands_under(alloc, tables, 6003, &[TOP, 6000, 6001, 6002])?);
    assert!(rt; has_superinterfaces(alloc, tables, 6003, &[6001, 6000, 6002])?);
    assert!(rt; is_subclass(alloc, tables, QE, P)?);
    assert!(rt; !is_subclass(alloc, tables, QE, QE)?);
    Ok(())
}

/// How many interfaces a ladder of 60 diamonds has under its last.
const RUNGS: u16 = 180;

/// An interface of a ladder: of each three, the first is over the two before it, which are over the first before them.
fn rung(number: u16) -> Row {
    let one = number.saturating_sub(1);
    let two = number.saturating_sub(2);
    match number % 3 {
        1 => (INTERFACE, [number, TOP, one, NONE, NONE]),
        2 => (INTERFACE, [number, TOP, two, NONE, NONE]),
        _ if number == 0 => (INTERFACE, [number, TOP, NONE, NONE, NONE]),
        _ => (INTERFACE, [number, TOP, two, one, NONE]),
    }
}

/// `java/lang/Object`, and the numbers from one to before another.
fn numbers(alloc: Global, first: u16, end: u16) -> Result<Vec<u16>, AllocError> {
    let mut numbers = Vec::new(alloc);
    numbers.push(TOP)?;
    for number in first..end {
        numbers.push(number)?;
    }
    Ok(numbers)
}

/// The superinterfaces of the last interface of the ladder: down its left side first, then up its right side.
fn sides(alloc: Global) -> Result<Vec<u16>, AllocError> {
    let mut sides = Vec::new(alloc);
    for rung in 0..60u16 {
        let first = 177u16.saturating_sub(rung.saturating_mul(3));
        sides.push(first.saturating_add(1))?;
        sides.push(first)?;
    }
    for rung in 0..60u16 {
        sides.push(rung.saturating_mul(3).saturating_add(2))?;
    }
    Ok(sides)
}

/// Of a ladder of diamonds each interface is told once, though there are 2^60 ways up.
fn ask_ladder<R: Abort>(
    rt: &R,
    alloc: Global,
    tables: &mut Registry<Untold>,
    config: &Arc<Config>,
) -> Result<(), AllocError> {
    for number in 0..=RUNGS {
        assert!(rt; define(alloc, tables, config, &rung(number))?);
    }
    let above = numbers(alloc, 0, RUNGS)?;
    assert!(rt; stands_under(alloc, tables, RUNGS, above.as_slice())?);
    let sides = sides(alloc)?;
    assert!(rt; has_superinterfaces(alloc, tables, RUNGS, sides.as_slice())?);
    Ok(())
}

/// The first class of a chain of 5,000, and its last.
const FIRST: u16 = 1000;

const LAST: u16 = 5999;

/// A class of a chain, over the one before it.
fn link(number: u16) -> Row {
    let above = if number == FIRST {
        TOP
    } else {
        number.saturating_sub(1)
    };
    (CLASS, [number, above, NONE, NONE, NONE])
}

/// Whether a class has another as a proper superclass.
fn is_subclass(
    alloc: Global,
    tables: &Registry<Untold>,
    class: u16,
    of: u16,
) -> Result<bool, AllocError> {
    let of = class_of(alloc, of)?;
    let lineage = lineage(alloc, tables, class)?;
    let is_subclass = lineage.is_subclass(&of);
    drop(lineage);
    Ok(is_subclass)
}

/// Five thousand classes over one another.
fn ask_chain<R: Abort>(
    rt: &R,
    alloc: Global,
    tables: &mut Registry<Untold>,
    config: &Arc<Config>,
) -> Result<(), AllocError> {
    for number in FIRST..=LAST {
        assert!(rt; define(alloc, tables, config, &link(number))?);
    }
    let above = numbers(alloc, FIRST, LAST)?;
    assert!(rt; stands_under(alloc, tables, LAST, above.as_slice())?);
    assert!(rt; has_superinterfaces(alloc, tables, LAST, &[])?);
    assert!(rt; is_subclass(alloc, tables, LAST, FIRST)?);
    assert!(rt; !is_subclass(alloc, tables, FIRST, LAST)?);
    Ok(())
}

/// Asks all of tables in which nothing is recorded.
fn ask_all<R: Abort>(
    rt: &R,
    alloc: Global,
    tables: &mut Registry<Untold>,
    config: &Arc<Config>,
) -> Result<(), AllocError> {
    assert!(rt; define_top(alloc, tables, config)?);
    define_all(rt, alloc, tables, config, &CLASSES)?;
    define_all(rt, alloc, tables, config, &PACKAGES)?;
    ask_classes(rt, alloc, tables)?;
    ask_members(rt, alloc, tables, &MEMBERS)?;
    ask_seen(rt, alloc, tables, &SEEN)?;
    ask_ladder(rt, alloc, tables, config)?;
    ask_chain(rt, alloc, tables, config)
}

/// Lineages of worked examples, of a diamond, of a ladder of diamonds and of a long chain, and what is accessible to whom.
#[test]
fn lineages_and_access(rt: HostRuntime) -> Result<(), Fail> {
    let alloc = rt.alloc();
    let loaders = config(alloc, LOADERS)?;
    let mut tables = registry(alloc, &loaders, "")?;
    let asked = ask_all(&rt, alloc, &mut tables, &loaders);
    drop(tables);
    drop(loaders);
    asked?;
    Ok(())
}
