//! The table of entries: each entry is judged by what it names (JVMS SE 8, 4.4).

ghost use Rattle.std.specs.Prelude.{◌≡◌, ◌+◌, ◌<◌, ◌^◌, IfOk, length, map, option_map};
ghost use Rattle.cl_classfile.specs.Pool.{at, may_name_interface_method};
ghost use Rattle.cl_classfile.specs.Rows.{entry_traits, traits_at, is_class, pair_of, pair_at, may_call, may_pair, is_plain, is_init, may_handle, keeps_entry};
ghost use Rattle.cl_names.specs.Steps.{Finds};
ghost use Rattle.cl_classfile.specs.Checking.{checked_entries};
ghost use Rattle.cl_classfile.specs.Raw.{plain_entry, plain_entries};

use crate::fault::Fault;
use crate::indices::item_at;
use crate::raw::RawEntry;
use crate::traits::{Special, Traits, is_call, is_field, is_void, nothing, traits_of};
use cl_descriptors::Form;
use cl_names::MOST_TEXT_BYTES;
use std::alloc::{AllocError, Global};

fn entry_traits(entry: RawEntry<'_>) -> Traits
    ensures { result ≡ entry_traits (plain_entry entry.entry) }
{
    match entry {
        RawEntry::Utf8(text) => traits_of(text),
        _ => nothing(),
    }
}

/// Of each entry, what is true of it as a text.
pub fn all_traits(alloc: Global, pool: &[RawEntry<'_>]) -> Result<Vec<Traits>, AllocError>
    ensures { IfOk result (λ v. v.items ≡ map entry_traits (plain_entries pool.now)) }
{
    let mut traits = Vec::with_capacity(alloc, pool.len())?;
    for entry in pool {
        traits.push(entry_traits(*entry))?;
    }
    Ok(traits)
}

/// The traits of the text at an index.
pub fn traits_at(traits: &[Traits], index: u16) -> Traits
    ensures { result ≡ traits_at traits.now index }
{
    match item_at(traits, index) {
        Some(traits) => *traits,
        None => nothing(),
    }
}

/// The entry at an index.
#[tactic(auto, using(crate::proofs::Entries::at_plain))]
pub fn at<'a>(pool: &[RawEntry<'a>], index: u16) -> Option<RawEntry<'a>>
    ensures { option_map plain_entry result ≡ at (plain_entries pool.now) index }
{
    match item_at(pool, index) {
        Some(entry) => Some(*entry),
        None => None,
    }
}

fn is_class(pool: &[RawEntry<'_>], index: u16) -> bool
    ensures { result ≡ is_class (at (plain_entries pool.now) index) }
{
    match at(pool, index) {
        Some(RawEntry::Class(_)) => true,
        _ => false,
    }
}

/// The traits of the name and of the descriptor of the name and type at an index.
fn pair_at(traits: &[Traits], pool: &[RawEntry<'_>], index: u16) -> (Traits, Traits)
    ensures { result ≡ pair_at traits.now (plain_entries pool.now) index }
{
    match at(pool, index) {
        Some(RawEntry::NameAndType { name, descriptor }) => {
            (traits_at(traits, name), traits_at(traits, descriptor))
        }
        _ => (nothing(), nothing()),
    }
}

fn may_call(name: Special, form: Option<Form>) -> bool
    ensures { result ≡ may_call name form }
{
    match name {
        Special::Plain => is_call(form),
        Special::Init => is_void(form),
        Special::Clinit | Special::Angle => false,
    }
}

fn may_pair(name: Traits, form: Option<Form>) -> bool
    ensures { result ≡ may_pair name form }
{
    is_field(form) && name.unqualified || is_call(form) && name.method
}

/// Neither `<init>` nor `<clinit>`.
fn is_plain(name: Special) -> bool
    ensures { result ≡ is_plain name }
{
    match name {
        Special::Plain | Special::Angle => true,
        Special::Init | Special::Clinit => false,
    }
}

fn is_init(name: Special) -> bool
    ensures { result ≡ is_init name }
{
    match name {
        Special::Init => true,
        Special::Plain | Special::Angle | Special::Clinit => false,
    }
}

/// Whether a method handle of the kind may name a method of an interface.
fn may_name_interface_method(major: u16, kind: u8) -> bool
    ensures { result ≡ may_name_interface_method major kind }
{
    kind == 9 || (kind == 6 || kind == 7) && 52 <= major
}

fn may_handle(
    major: u16,
    traits: &[Traits],
    pool: &[RawEntry<'_>],
    kind: u8,
    reference: u16,
) -> bool
    ensures { result ≡ may_handle major traits.now (plain_entries pool.now) kind
        (at (plain_entries pool.now) reference) }
{
    match at(pool, reference) {
        Some(RawEntry::Fieldref { .. }) => 1 <= kind && kind <= 4,
        Some(RawEntry::Methodref { name_and_type, .. }) => {
            let name = pair_at(traits, pool, name_and_type).0.special;
            (kind == 5 || kind == 6 || kind == 7) && is_plain(name) || kind == 8 && is_init(name)
        }
        Some(RawEntry::InterfaceMethodref { name_and_type, .. }) => {
            let name = pair_at(traits, pool, name_and_type).0.special;
            may_name_interface_method(major, kind) && is_plain(name)
        }
        _ => false,
    }
}

/// Whether the entry, which has traits of its own, keeps its row of the table.
fn keeps_entry(
    major: u16,
    traits: &[Traits],
    pool: &[RawEntry<'_>],
    own: Traits,
    entry: RawEntry<'_>,
) -> bool
    requires { own ≡ entry_traits (plain_entry entry) }
    ensures { result ≡ keeps_entry major traits.now (plain_entries pool.now)
        (plain_entry entry.entry) }
{
    match entry {
        RawEntry::Utf8(text) => own.text && text.len() <= MOST_TEXT_BYTES,
        RawEntry::Integer(_)
        | RawEntry::Float(_)
        | RawEntry::Long(_)
        | RawEntry::Double(_)
        | RawEntry::Unusable => true,
        RawEntry::Class(text) => traits_at(traits, text).class,
        RawEntry::String(text) => traits_at(traits, text).stands,
        RawEntry::NameAndType { name, descriptor } => {
            may_pair(traits_at(traits, name), traits_at(traits, descriptor).form)
        }
        RawEntry::MethodHandle { kind, reference } => {
            may_handle(major, traits, pool, kind, reference)
        }
        RawEntry::MethodType(descriptor) => is_call(traits_at(traits, descriptor).form),
        RawEntry::InvokeDynamic { name_and_type, .. } => {
            is_call(pair_at(traits, pool, name_and_type).1.form)
        }
        RawEntry::Fieldref {
            class,
            name_and_type,
        } => is_class(pool, class) && is_field(pair_at(traits, pool, name_and_type).1.form),
        RawEntry::Methodref {
            class,
            name_and_type,
        } => {
            let (name, descriptor) = pair_at(traits, pool, name_and_type);
            is_class(pool, class) && may_call(name.special, descriptor.form)
        }
        RawEntry::InterfaceMethodref {
            class,
            name_and_type,
        } => is_class(pool, class) && is_call(pair_at(traits, pool, name_and_type).1.form),
    }
}

/// Whether each entry keeps its row of the table.
pub fn check_entries(major: u16, traits: &[Traits], pool: &[RawEntry<'_>]) -> Result<(), Fault>
    requires few { length pool.now + 1 < 2 ^ 16 }
    requires traits { traits.now ≡ map entry_traits (plain_entries pool.now) }
    ensures { Finds (λ u. u) result (checked_entries major (plain_entries pool.now) 1
        (plain_entries pool.now)) }
{
    for (i, entry) in pool.iter().enumerate() {
        let own = traits_at(traits, i as u16 + 1);
        if !keeps_entry(major, traits, pool, own, *entry) {
            return Err(Fault::BadPool(i as u16 + 1));
        }
    }
    Ok(())
}
