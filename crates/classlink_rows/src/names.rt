//! Questions about names.

use cl_names::{
    Name, NameFault, class_name, is_class_name, is_method_name, is_modified_utf8,
    is_unqualified_name,
};
use std::alloc::{AllocError, Global};
use std::cmp::Ordering;

/// The most bytes that are printed as they are.
const MOST_PRINTED: usize = 2000;

/// Bytes as escaped text; of many, and of those that are no name, how many there are.
pub fn show(alloc: Global, bytes: &[u8]) -> Result<String, AllocError> {
    if bytes.len() <= MOST_PRINTED {
        if let Ok(name) = Name::any(alloc, bytes) {
            if let Ok(text) = name.text(alloc) {
                return Ok(text);
            }
        }
    }
    format!(in alloc; "{} bytes", bytes.len())
}

fn outcome(alloc: Global, name: Result<Name, NameFault>) -> Result<String, AllocError> {
    match name {
        Ok(_) => String::from_str(alloc, "fine"),
        Err(fault) => format!(in alloc; "{fault}"),
    }
}

/// Whether they are a name of any kind, a class's, an unqualified one, a method's.
pub fn kinds(alloc: Global, bytes: &[u8]) -> Result<String, AllocError> {
    let any = outcome(alloc, Name::any(alloc, bytes))?;
    let class = outcome(alloc, Name::class(alloc, bytes))?;
    let unqualified = outcome(alloc, Name::unqualified(alloc, bytes))?;
    let method = outcome(alloc, Name::method(alloc, bytes))?;
    format!(in alloc; "{any} | {class} | {unqualified} | {method}")
}

fn yes_or_no(answer: bool) -> &'static str {
    if answer { "yes" } else { "no" }
}

/// The same by the tests, the first whether they are modified UTF-8.
pub fn tests(alloc: Global, bytes: &[u8]) -> Result<String, AllocError> {
    let any = yes_or_no(is_modified_utf8(bytes));
    let class = yes_or_no(is_class_name(bytes));
    let unqualified = yes_or_no(is_unqualified_name(bytes));
    let method = yes_or_no(is_method_name(bytes));
    format!(in alloc; "{any} {class} {unqualified} {method}")
}

/// A name, by what it answers.
pub fn name(alloc: Global, bytes: &[u8]) -> Result<String, AllocError> {
    let name = match Name::any(alloc, bytes) {
        Ok(name) => name,
        Err(fault) => return format!(in alloc; "{fault}"),
    };
    let copy = name.try_clone(alloc)?;
    if copy != name || copy.bytes() != bytes {
        return String::from_str(alloc, "another copy");
    }
    let text = show(alloc, bytes)?;
    let package = show(alloc, copy.package())?;
    let class = yes_or_no(name.is_class());
    let unqualified = yes_or_no(name.is_unqualified());
    let method = yes_or_no(name.is_method());
    format!(in alloc; "{text} package '{package}' {class} {unqualified} {method}")
}

/// The name that escaped text writes, its text and its bytes.
pub fn name_in(alloc: Global, text: &str) -> Result<String, AllocError> {
    match Name::from_text(alloc, text) {
        Ok(name) => {
            let text = show(alloc, name.bytes())?;
            let count = name.bytes().len();
            if count > MOST_PRINTED {
                return Ok(text);
            }
            let bytes = hex::encode(alloc, name.bytes())?;
            format!(in alloc; "'{text}' {bytes}")
        }
        Err(fault) => format!(in alloc; "{fault}"),
    }
}

/// The class's name that escaped text writes.
pub fn class_name_in(alloc: Global, text: &str) -> Result<String, AllocError> {
    let Some(name) = class_name(alloc, text)? else {
        return String::from_str(alloc, "none");
    };
    show(alloc, name.bytes())
}

/// Whether the bytes of one name begin with those of another.
pub fn prefix(alloc: Global, bytes: &[u8], front: &[u8]) -> Result<String, AllocError> {
    match (Name::any(alloc, bytes), Name::any(alloc, front)) {
        (Ok(name), Ok(front)) => String::from_str(alloc, yes_or_no(name.starts_with(&front))),
        _ => String::from_str(alloc, "no names"),
    }
}

/// How two names are ordered.
pub fn same(alloc: Global, bytes: &[u8], other: &[u8]) -> Result<String, AllocError> {
    let (Ok(name), Ok(other)) = (Name::any(alloc, bytes), Name::any(alloc, other)) else {
        return String::from_str(alloc, "no names");
    };
    let order = match name.cmp(&other) {
        Ordering::Less => "less",
        Ordering::Equal => "equal",
        Ordering::Greater => "greater",
    };
    let same = yes_or_no(name == other);
    format!(in alloc; "{order} {same}")
}
