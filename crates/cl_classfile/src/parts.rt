//! The parts of a class file, before they are looked at.

use crate::attribute::Attribute;
use crate::entry::Entry;
use crate::fault::ReadError;
use crate::member::Member;
use crate::version::Version;
use thiserror::Error;

/// What a class file is made of (JVMS SE 8, 4.1). Its magic and its counts are what they have to be.
#[derive(Debug, Drop)]
pub struct Parts {
    /// The version.
    pub version: Version,
    /// The entries of the pool from index 1 on. Behind a long and behind a double stands `Entry::Unusable`.
    pub pool: Vec<Entry>,
    /// The class's flags.
    pub flags: u16,
    /// The index of the entry of the class itself.
    pub this_class: u16,
    /// The index of the entry of the superclass, and 0 in `java/lang/Object`.
    pub super_class: u16,
    /// The indices of the entries of the interfaces, in order.
    pub interfaces: Vec<u16>,
    /// The fields, in order.
    pub fields: Vec<Member>,
    /// The methods, in order.
    pub methods: Vec<Member>,
    /// The attributes of the class, in order.
    pub attributes: Vec<Attribute>,
}

/// Parts that were not taken for a class file's, as they were, and why.
#[derive(Debug, Drop, Error)]
#[error("{error}")]
pub struct Refused {
    pub parts: Parts,
    pub error: ReadError,
}
