ghost use Rattle.std.specs.Prelude.{◌≡◌, is_some, bytes_eq};
ghost use Rattle.std.specs.Option.{option_map};
ghost use Rattle.std.specs.List.{list_all};
ghost use Rattle.cl_classfile.specs.Structure.{object};
ghost use Rattle.cl_classfile.specs.Files.{text_at, type_name, is_array_name, class_name};
ghost use Rattle.cl_classfile.specs.Lookups.{is_this};
ghost use Rattle.cl_classfile.specs.Flags.{has, interface};
ghost use Rattle.cl_names.specs.Steps.{Finds};
ghost use Rattle.cl_classfile.specs.Checking.{may_stand_above, keeps_super, keeps_names, keeps_interfaces, checked_class};

use crate::entry::Entry;
use crate::fault::Fault;
use crate::flags::{is_class_flags, is_interface};
use crate::indices::item_at;
use crate::limits::MOST_COUNTED;
use crate::parts::Parts;
use cl_names::Name;

/// The text that stands at an index of a pool (JVMS SE 8, 4.4.7).
pub fn text_at(pool: &[Entry], index: u16) -> Option<&Name>
    ensures { option_map (λ n. n.now) result ≡ text_at pool.now index }
{
    match item_at(pool, index) {
        Some(Entry::Utf8(text)) => Some(text),
        _ => None,
    }
}

/// Whether the entry at an index is this text. Of texts of another length no byte is looked at.
pub fn is_text(pool: &[Entry], index: u16, text: &Name) -> bool
    ensures { result ≡ is_this text.now (text_at pool.now index) }
{
    match text_at(pool, index) {
        Some(found) => found == text,
        None => false,
    }
}

/// The name of the class or the array that stands at an index of a pool (JVMS SE 8, 4.4.1).
pub fn type_name(pool: &[Entry], index: u16) -> Option<&Name>
    ensures { option_map (λ n. n.now) result ≡ type_name pool.now index }
{
    match item_at(pool, index) {
        Some(Entry::Class(text)) => text_at(pool, *text),
        _ => None,
    }
}

fn is_array_name(name: &[u8]) -> bool
    ensures { result ≡ is_array_name name.now }
{
    match name {
        [b'[', ..] => true,
        _ => false,
    }
}

/// The name of the class that stands at an index.
pub fn class_name(pool: &[Entry], index: u16) -> Option<&Name>
    ensures { option_map (λ n. n.now) result ≡ class_name pool.now index }
{
    let name = type_name(pool, index)?;
    if is_array_name(name.bytes()) {
        return None;
    }
    Some(name)
}

/// Whether the class named above may be the superclass: of an interface it is `java/lang/Object`.
fn may_stand_above(of_interface: bool, above: Option<&Name>) -> bool
    ensures { result ≡ may_stand_above of_interface (option_map (λ n. n.now) above.entry) }
{
    match above {
        Some(above) => !of_interface || is_object(above),
        None => false,
    }
}

fn is_object(name: &Name) -> bool
    ensures { result ≡ bytes_eq name.now object }
{
    name.bytes() == b"java/lang/Object".as_slice()
}

fn keeps_super(pool: &[Entry], of_interface: bool, name: &Name, super_class: u16) -> bool
    ensures { result ≡ keeps_super pool.now of_interface name.now super_class }
{
    if is_object(name) {
        !of_interface && super_class == 0
    } else {
        may_stand_above(of_interface, class_name(pool, super_class))
    }
}

fn keeps_names(pool: &[Entry], of_interface: bool, this_class: u16, super_class: u16) -> bool
    ensures { result ≡ keeps_names pool.now of_interface super_class
        (class_name pool.now this_class) }
{
    match class_name(pool, this_class) {
        Some(name) => keeps_super(pool, of_interface, name, super_class),
        None => false,
    }
}

fn is_class(pool: &[Entry], index: u16) -> bool
    ensures { result ≡ is_some (class_name pool.now index) }
{
    class_name(pool, index).is_some()
}

fn each_is_class(pool: &[Entry], interfaces: &[u16]) -> bool
    ensures { result ≡ list_all (λ i. is_some (class_name pool.now i)) interfaces.now }
{
    interfaces.iter().all(|i| is_class(pool, *i))
}

/// Whether a count can say how many interfaces there are, and each is a class.
fn keeps_interfaces(pool: &[Entry], interfaces: &[u16]) -> bool
    ensures { result ≡ keeps_interfaces pool.now interfaces.now }
{
    interfaces.len() <= MOST_COUNTED && each_is_class(pool, interfaces)
}

/// Whether the flags and the supertypes keep their tables.
pub fn check_class(parts: &Parts) -> Result<(), Fault>
    ensures { Finds (λ u. u) result (checked_class parts.now.version.major parts.now.pool.items
        parts.now.flags parts.now.this_class parts.now.super_class parts.now.interfaces.items) }
{
    let pool = parts.pool.as_slice();
    if !is_class_flags(parts.version.major, parts.flags) {
        return Err(Fault::BadFlags);
    }
    let of_interface = is_interface(parts.flags);
    if !keeps_names(pool, of_interface, parts.this_class, parts.super_class) {
        return Err(Fault::BadSupertype);
    }
    if !keeps_interfaces(pool, parts.interfaces.as_slice()) {
        return Err(Fault::BadSupertype);
    }
    Ok(())
}
