//! What is accessible to whom (JVMS SE 8, 5.4.4).

use crate::lineages::{CLASS, H, NONE, P, Q, QD, QE, R, Row, TOP, class_of, lineage, name_of};
use cl_classfile::{PRIVATE, PROTECTED, PUBLIC};
use cl_given::{APP, PLUG};
use cl_hierarchy::{class_accessible, member_accessible};
use cl_model::{Class, LoaderId, Untold};
use cl_registry::Registry;
use std::alloc::{AllocError, Global};
use std::process::Abort;

/// The classes of the tables of access, of which `p/H` is not public.
pub const PACKAGES: [Row; 6] = [
    (CLASS, [P, TOP, NONE, NONE, NONE]),
    (CLASS, [Q, P, NONE, NONE, NONE]),
    (CLASS, [QD, P, NONE, NONE, NONE]),
    (CLASS, [QE, QD, NONE, NONE, NONE]),
    (CLASS, [R, TOP, NONE, NONE, NONE]),
    (0x20, [H, TOP, NONE, NONE, NONE]),
];

const PACKAGE: u16 = 0;

const PROTECTED_STATIC: u16 = 0xc;

/// From which class, the class that declares a member, the member's flags, through which class, and whether it is accessible
/// so (JVMS SE 8, 5.4.4).
type Member = (u16, u16, u16, u16, bool);

pub const MEMBERS: [Member; 15] = [
    (QD, P, PROTECTED, P, true),
    (QD, P, PROTECTED, QD, true),
    (QD, P, PROTECTED, QE, true),
    (QD, P, PROTECTED, Q, false),
    (QD, P, PROTECTED_STATIC, Q, true),
    (QD, P, PACKAGE, P, false),
    (QD, P, PRIVATE, P, false),
    (QD, QD, PRIVATE, QD, true),
    (QD, R, PROTECTED, R, false),
    (QD, R, PROTECTED_STATIC, R, false),
    (R, P, PACKAGE, P, true),
    (R, P, PRIVATE, P, false),
    (R, P, PROTECTED, QD, true),
    (R, P, PROTECTED, Q, true),
    (QD, R, PUBLIC, R, true),
];

/// Whether a member that a class declares with these flags is accessible to another through a third.
fn is_open(
    alloc: Global,
    tables: &Registry<Untold>,
    from: u16,
    owner: u16,
    flags: u16,
    through: u16,
) -> Result<bool, AllocError> {
    let owner = class_of(alloc, owner)?;
    let through = lineage(alloc, tables, through)?;
    let is_open = match lineage(alloc, tables, from) {
        Ok(from) => {
            let is_open = member_accessible(&from, &owner, flags, &through);
            drop(from);
            Ok(is_open)
        }
        Err(fault) => Err(fault),
    };
    drop(through);
    is_open
}

/// A class, the class that asks for it and the loader of that, and whether it is accessible so (JVMS SE 8, 5.4.4).
type Seen = (u16, u16, u16, bool);

pub const SEEN: [Seen; 6] = [
    (P, QD, APP, true),
    (P, P, PLUG, true),
    (H, P, APP, true),
    (H, H, APP, true),
    (H, QD, APP, false),
    (H, P, PLUG, false),
];

/// Whether a class of `app` is accessible to another.
fn is_seen(
    alloc: Global,
    tables: &Registry<Untold>,
    class: u16,
    from: u16,
    loader: u16,
) -> Result<bool, AllocError> {
    let name = name_of(alloc, class)?;
    let from = Class {
        name: name_of(alloc, from)?,
        loader: LoaderId(loader),
    };
    match tables.look(LoaderId(APP), &name) {
        Some(row) => Ok(class_accessible(row, &from)),
        None => Err(AllocError),
    }
}

/// Members are accessible just as the rows say.
pub fn ask_members<R: Abort>(
    rt: &R,
    alloc: Global,
    tables: &Registry<Untold>,
    rows: &[Member],
) -> Result<(), AllocError> {
    for (from, owner, flags, through, wanted) in rows {
        assert!(rt; is_open(alloc, tables, *from, *owner, *flags, *through)? == *wanted);
    }
    Ok(())
}

/// Classes are accessible just as the rows say.
pub fn ask_seen<R: Abort>(
    rt: &R,
    alloc: Global,
    tables: &Registry<Untold>,
    rows: &[Seen],
) -> Result<(), AllocError> {
    for (class, from, loader, wanted) in rows {
        assert!(rt; is_seen(alloc, tables, *class, *from, *loader)? == *wanted);
    }
    Ok(())
}
