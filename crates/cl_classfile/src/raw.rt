//! Entries of the pool as they stand in the bytes.

ghost use Rattle.std.specs.Prelude.{◌≡◌, ◌≤◌, length, IfOk};
ghost use Rattle.cl_classfile.specs.Pool.{is_wide};
ghost use Rattle.std.specs.List.{AllByRecursion};
ghost use Rattle.std.specs.Arc.{arc_slice_items};
ghost use Rattle.cl_names.specs.declared.digest.TheConstants.{MOST_SHARED_BYTES};
ghost use Rattle.cl_classfile.specs.Raw.{plain_entry, plain_entries, HoldsText, IsPart, all_shared_in, shared_in};
ghost use Rattle.cl_classfile.specs.declared.entry.Entry.TheVariants as entries;

use crate::entry::Entry;
use cl_names::{MOST_SHARED_BYTES, Name};
use std::alloc::{AllocError, Global};
use std::sync::ArcSlice;

/// An entry whose text still stands in the bytes, before it is looked at.
#[derive(Clone, Copy)]
pub enum RawEntry<'a> {
    Utf8(&'a [u8]),
    Integer(i32),
    Float(u32),
    Long(i64),
    Double(u64),
    Unusable,
    Class(u16),
    String(u16),
    Fieldref { class: u16, name_and_type: u16 },
    Methodref { class: u16, name_and_type: u16 },
    InterfaceMethodref { class: u16, name_and_type: u16 },
    NameAndType { name: u16, descriptor: u16 },
    MethodHandle { kind: u8, reference: u16 },
    MethodType(u16),
    InvokeDynamic { bootstrap: u16, name_and_type: u16 },
}

/// Whether it takes the index behind it too.
pub fn is_wide(entry: RawEntry<'_>) -> bool
    ensures { result ≡ is_wide (plain_entry entry.entry) }
{
    match entry {
        RawEntry::Long(_) | RawEntry::Double(_) => true,
        _ => false,
    }
}

/// The bytes of the text that an entry is, if it is one that is short enough to stand among the shared ones.
fn shared_in(entry: RawEntry<'_>) -> &[u8]
    ensures { result.now ≡ shared_in (plain_entry entry.entry) }
{
    match entry {
        RawEntry::Utf8(text) => {
            if text.len() <= MOST_SHARED_BYTES {
                text
            } else {
                b"".as_slice()
            }
        }
        _ => b"".as_slice(),
    }
}

/// How many bytes these texts of the entries have, or so many as there can be.
fn shared_len(pool: &[RawEntry<'_>]) -> usize {
    let mut len = 0usize;
    for entry in pool {
        len = len.saturating_add(shared_in(*entry).len());
    }
    len
}

/// These texts of the entries, one behind the other.
fn shared_of(alloc: Global, pool: &[RawEntry<'_>]) -> Result<Vec<u8>, AllocError>
    ensures { IfOk result (λ v. v.items ≡ all_shared_in (plain_entries pool.now)) }
{
    let mut texts = Vec::with_capacity(alloc, shared_len(pool))?;
    for entry in pool {
        texts.extend_from_slice(shared_in(*entry))?;
    }
    Ok(texts)
}

/// The name of a text, which was looked at before and stands among the shared ones from `start` on, unless it is long: a part
/// of these, or with bytes of its own.
fn name_of(
    alloc: Global,
    shared: &ArcSlice<u8>,
    start: usize,
    is_apart: bool,
    text: &[u8],
) -> Result<Name, AllocError>
    requires text { HoldsText (entries.Utf8 text.now) }
    requires place { length text.now ≤ MOST_SHARED_BYTES
        → IsPart text.now start (arc_slice_items shared.now) }
    ensures { IfOk result (λ name. name ≡ text.now) }
{
    if is_apart || text.len() > MOST_SHARED_BYTES {
        Name::of_text(alloc, text)
    } else {
        Name::of_part(alloc, shared, start, text.len())
    }
}

/// The entry of its own.
fn owned_entry(
    alloc: Global,
    shared: &ArcSlice<u8>,
    start: usize,
    is_apart: bool,
    entry: RawEntry<'_>,
) -> Result<Entry, AllocError>
    requires text { HoldsText (plain_entry entry) }
    requires place { IsPart (shared_in (plain_entry entry)) start (arc_slice_items shared.now) }
    ensures { IfOk result (λ e. e ≡ plain_entry entry.entry) }
{
    Ok(match entry {
        RawEntry::Utf8(text) => Entry::Utf8(name_of(alloc, shared, start, is_apart, text)?),
        RawEntry::Integer(value) => Entry::Integer(value),
        RawEntry::Float(bits) => Entry::Float(bits),
        RawEntry::Long(value) => Entry::Long(value),
        RawEntry::Double(bits) => Entry::Double(bits),
        RawEntry::Unusable => Entry::Unusable,
        RawEntry::Class(text) => Entry::Class(text),
        RawEntry::String(text) => Entry::String(text),
        RawEntry::Fieldref {
            class,
            name_and_type,
        } => Entry::Fieldref {
            class,
            name_and_type,
        },
        RawEntry::Methodref {
            class,
            name_and_type,
        } => Entry::Methodref {
            class,
            name_and_type,
        },
        RawEntry::InterfaceMethodref {
            class,
            name_and_type,
        } => Entry::InterfaceMethodref {
            class,
            name_and_type,
        },
        RawEntry::NameAndType { name, descriptor } => Entry::NameAndType { name, descriptor },
        RawEntry::MethodHandle { kind, reference } => Entry::MethodHandle { kind, reference },
        RawEntry::MethodType(descriptor) => Entry::MethodType(descriptor),
        RawEntry::InvokeDynamic {
            bootstrap,
            name_and_type,
        } => Entry::InvokeDynamic {
            bootstrap,
            name_and_type,
        },
    })
}

/// The entries of their own. Their texts share one allocation, but for long ones and those at the places that are marked: these
/// have bytes of their own, since copies of them may outlive the file.
pub fn owned_entries(
    alloc: Global,
    pool: &[RawEntry<'_>],
    apart: &[bool],
) -> Result<Vec<Entry>, AllocError>
    requires { AllByRecursion HoldsText (plain_entries pool.now) }
    ensures { IfOk result (λ v. v.items ≡ plain_entries pool.now) }
{
    let shared = ArcSlice::from_vec(shared_of(alloc, pool)?)?;
    let mut entries = Vec::with_capacity(alloc, pool.len())?;
    let mut start = 0;
    for (i, entry) in pool.iter().enumerate() {
        let is_apart = apart.get(i).copied().unwrap_or(false);
        entries.push(owned_entry(alloc, &shared, start, is_apart, *entry)?)?;
        start += shared_in(*entry).len();
    }
    Ok(entries)
}

/// The entry as it would stand in the bytes.
fn borrowed_entry(entry: &Entry) -> RawEntry<'_>
    ensures { plain_entry result ≡ entry.now }
{
    match entry {
        Entry::Utf8(text) => RawEntry::Utf8(text.bytes()),
        Entry::Integer(value) => RawEntry::Integer(*value),
        Entry::Float(bits) => RawEntry::Float(*bits),
        Entry::Long(value) => RawEntry::Long(*value),
        Entry::Double(bits) => RawEntry::Double(*bits),
        Entry::Unusable => RawEntry::Unusable,
        Entry::Class(text) => RawEntry::Class(*text),
        Entry::String(text) => RawEntry::String(*text),
        Entry::Fieldref {
            class,
            name_and_type,
        } => RawEntry::Fieldref {
            class: *class,
            name_and_type: *name_and_type,
        },
        Entry::Methodref {
            class,
            name_and_type,
        } => RawEntry::Methodref {
            class: *class,
            name_and_type: *name_and_type,
        },
        Entry::InterfaceMethodref {
            class,
            name_and_type,
        } => RawEntry::InterfaceMethodref {
            class: *class,
            name_and_type: *name_and_type,
        },
        Entry::NameAndType { name, descriptor } => RawEntry::NameAndType {
            name: *name,
            descriptor: *descriptor,
        },
        Entry::MethodHandle { kind, reference } => RawEntry::MethodHandle {
            kind: *kind,
            reference: *reference,
        },
        Entry::MethodType(descriptor) => RawEntry::MethodType(*descriptor),
        Entry::InvokeDynamic {
            bootstrap,
            name_and_type,
        } => RawEntry::InvokeDynamic {
            bootstrap: *bootstrap,
            name_and_type: *name_and_type,
        },
    }
}

/// The entries as they would stand in the bytes, their texts borrowed.
pub fn borrowed_entries(alloc: Global, pool: &[Entry]) -> Result<Vec<RawEntry<'_>>, AllocError>
    ensures { IfOk result (λ v. plain_entries v.items ≡ pool.now) }
{
    let mut entries = Vec::with_capacity(alloc, pool.len())?;
    for entry in pool {
        entries.push(borrowed_entry(entry))?;
    }
    Ok(entries)
}
