ghost use Rattle.std.specs.Prelude.{◌≡◌, ◌+◌, ◌<◌, ◌^◌, List, length, IfOk, IsErrOf};
ghost use Rattle.std.specs.Int.{w16, w32};
ghost use Rattle.cl_classfile.specs.declared.fault.Fault.{Fault};
ghost use Rattle.cl_classfile.specs.declared.fault.ReadError.TheVariants as errors;
ghost use Rattle.cl_classfile.specs.Structure.{Fits};
ghost use Rattle.cl_names.specs.Steps.{Finds};
ghost use Rattle.cl_classfile.specs.Checking.{Gives};
ghost use Rattle.cl_classfile.specs.Reading.{number_at, bytes_at, each_at, magic_at, version_at, header_at, class_at, interfaces_at, attribute_at, attributes_at, member_at, members_at, tables_at, structure_at, whole_of};
ghost use Rattle.cl_classfile.specs.Raw.{plain_file};

use crate::attribute::Attribute;
use crate::fault::{Fault, ReadError};
use crate::member::Member;
use crate::pool::pool_at;
use crate::raw::RawEntry;
use crate::version::{Version, is_supported};
use std::alloc::Global;

/// A file as it is read, before it is looked at.
#[derive(Drop)]
pub struct RawFile<'a> {
    pub version: Version,
    pub pool: Vec<RawEntry<'a>>,
    pub flags: u16,
    pub this_class: u16,
    pub super_class: u16,
    pub interfaces: Vec<u16>,
    pub fields: Vec<Member>,
    pub methods: Vec<Member>,
    pub attributes: Vec<Attribute>,
}

pub fn u16_at(bytes: &[u8]) -> Result<(u16, &[u8]), Fault>
    ensures { Finds (λ x. (x.0, x.1.now)) result (number_at w16 bytes.now) }
{
    if bytes.len() < 2 {
        return Err(Fault::Truncated);
    }
    let (front, rest) = bytes.split_at(2);
    let number = u16::from_be_bytes([front[0], front[1]]);
    Ok((number, rest))
}

pub fn u32_at(bytes: &[u8]) -> Result<(u32, &[u8]), Fault>
    ensures { Finds (λ x. (x.0, x.1.now)) result (number_at w32 bytes.now) }
{
    if bytes.len() < 4 {
        return Err(Fault::Truncated);
    }
    let (front, rest) = bytes.split_at(4);
    let number = u32::from_be_bytes([front[0], front[1], front[2], front[3]]);
    Ok((number, rest))
}

pub fn bytes_at(count: usize, bytes: &[u8]) -> Result<(&[u8], &[u8]), Fault>
    ensures { Finds (λ x. (x.0.now, x.1.now)) result (bytes_at count bytes.now) }
{
    if bytes.len() < count {
        return Err(Fault::Truncated);
    }
    Ok(bytes.split_at(count))
}

#[tactic(auto, unfolding(crate::specs::Reading::magic_at))]
fn magic_at(bytes: &[u8]) -> Result<(u32, &[u8]), Fault>
    ensures { Finds (λ x. (x.0, x.1.now)) result (magic_at bytes.now) }
{
    let (magic, rest) = u32_at(bytes)?;
    if magic != 0xcafebabe {
        return Err(Fault::BadMagic);
    }
    Ok((magic, rest))
}

#[tactic(auto, unfolding(crate::specs::Reading::version_at, crate::specs::Reading::two_at))]
fn version_at(bytes: &[u8]) -> Result<(Version, &[u8]), Fault>
    ensures { Finds (λ x. (x.0, x.1.now)) result (version_at bytes.now) }
{
    let (minor, rest) = u16_at(bytes)?;
    let (major, rest) = u16_at(rest)?;
    let version = Version { major, minor };
    if !is_supported(version) {
        return Err(Fault::Version);
    }
    Ok((version, rest))
}

#[tactic(auto, unfolding(crate::specs::Reading::header_at))]
fn header_at(bytes: &[u8]) -> Result<((u32, Version), &[u8]), Fault>
    ensures { Finds (λ x. (x.0, x.1.now)) result (header_at bytes.now) }
{
    let (magic, rest) = magic_at(bytes)?;
    let (version, rest) = version_at(rest)?;
    Ok(((magic, version), rest))
}

/// What tables hold, one after the other (JVMS SE 8, 4).
trait Listed: Drop {
    ghost use Rattle.cl_classfile.specs.Reading.{Reader};

    /// How one is read.
    ghost reader: { Reader Self };

    /// The first one in the bytes, and what is behind it.
    fn read_at(alloc: Global, bytes: &[u8]) -> Result<(Self, &[u8]), ReadError>
    where
        Self: Sized,
        ensures { Gives (λ x. (x.0, x.1.now)) result (reader bytes.now) };
}

impl Listed for u16 {
    ghost reader = { number_at w16 };

    fn read_at(_alloc: Global, bytes: &[u8]) -> Result<(u16, &[u8]), ReadError> {
        Ok(u16_at(bytes)?)
    }
}

impl Listed for Attribute {
    ghost reader = { attribute_at };

    #[tactic(auto, unfolding(crate::specs::Reading::attribute_at))]
    fn read_at(alloc: Global, bytes: &[u8]) -> Result<(Attribute, &[u8]), ReadError> {
        let (name_index, rest) = u16_at(bytes)?;
        let (count, rest) = u32_at(rest)?;
        let (content, rest) = bytes_at(count as usize, rest)?;
        let attribute = Attribute::copy_of(alloc, name_index, content)?;
        Ok((attribute, rest))
    }
}

impl Listed for Member {
    ghost reader = { member_at };

    #[tactic(auto, unfolding(crate::specs::Reading::member_at))]
    fn read_at(alloc: Global, bytes: &[u8]) -> Result<(Member, &[u8]), ReadError> {
        let (flags, rest) = u16_at(bytes)?;
        let (name_index, rest) = u16_at(rest)?;
        let (descriptor_index, rest) = u16_at(rest)?;
        let (attributes, rest) = attributes_at(alloc, rest)?;
        let member = Member::new(flags, name_index, descriptor_index, attributes);
        Ok((member, rest))
    }
}

/// That many of a structure, one after the other.
fn each_at<T: Listed>(alloc: Global, count: u16, bytes: &[u8]) -> Result<(Vec<T>, &[u8]), ReadError>
    ensures { Gives (λ x. (x.0.items, x.1.now)) result (each_at T.reader count bytes.now) }
{
    let room = (count as usize).min(bytes.len());
    let mut all = Vec::with_capacity(alloc, room)?;
    let mut rest = bytes;
    for i in 0..count {
        let (one, after) = T::read_at(alloc, rest)?;
        all.push(one)?;
        rest = after;
    }
    Ok((all, rest))
}

#[tactic(auto, unfolding(crate::specs::Reading::class_at, crate::specs::Reading::two_at))]
fn class_at(bytes: &[u8]) -> Result<((u16, (u16, u16)), &[u8]), Fault>
    ensures { Finds (λ x. (x.0, x.1.now)) result (class_at bytes.now) }
{
    let (flags, rest) = u16_at(bytes)?;
    let (this_class, rest) = u16_at(rest)?;
    let (super_class, rest) = u16_at(rest)?;
    Ok(((flags, (this_class, super_class)), rest))
}

#[tactic(auto, unfolding(crate::specs::Reading::interfaces_at))]
fn interfaces_at(alloc: Global, bytes: &[u8]) -> Result<(Vec<u16>, &[u8]), ReadError>
    ensures { Gives (λ x. (x.0.items, x.1.now)) result (interfaces_at bytes.now) }
{
    let (count, rest) = u16_at(bytes)?;
    each_at::<u16>(alloc, count, rest)
}

#[tactic(auto, unfolding(crate::specs::Reading::attributes_at))]
fn attributes_at(alloc: Global, bytes: &[u8]) -> Result<(Vec<Attribute>, &[u8]), ReadError>
    ensures { Gives (λ x. (x.0.items, x.1.now)) result (attributes_at bytes.now) }
{
    let (count, rest) = u16_at(bytes)?;
    each_at::<Attribute>(alloc, count, rest)
}

#[tactic(auto, unfolding(crate::specs::Reading::members_at))]
fn members_at(alloc: Global, bytes: &[u8]) -> Result<(Vec<Member>, &[u8]), ReadError>
    ensures { Gives (λ x. (x.0.items, x.1.now)) result (members_at bytes.now) }
{
    let (count, rest) = u16_at(bytes)?;
    each_at::<Member>(alloc, count, rest)
}

/// The fields, the methods and the class's attributes.
#[derive(Drop)]
struct Tables {
    fields: Vec<Member>,
    methods: Vec<Member>,
    attributes: Vec<Attribute>,
}

#[tactic(auto, unfolding(crate::specs::Reading::tables_at))]
fn tables_at(alloc: Global, bytes: &[u8]) -> Result<(Tables, &[u8]), ReadError>
    ensures { Gives (λ x. ((x.0.fields.items, (x.0.methods.items, x.0.attributes.items)), x.1.now))
        result (tables_at bytes.now) }
{
    let (fields, rest) = members_at(alloc, bytes)?;
    let (methods, rest) = members_at(alloc, rest)?;
    let (attributes, rest) = attributes_at(alloc, rest)?;
    let tables = Tables {
        fields,
        methods,
        attributes,
    };
    Ok((tables, rest))
}

#[tactic(auto, unfolding(crate::specs::Reading::structure_at, crate::specs::Reading::parts_at))]
fn structure_at(alloc: Global, bytes: &[u8]) -> Result<(RawFile<'_>, &[u8]), ReadError>
    ensures exact { Gives (λ x. (plain_file x.0, x.1.now)) result (structure_at bytes.now) }
    ensures early { (f : Fault) → header_at bytes.now ≡ Err f → IsErrOf result (errors.Fault f) }
{
    let ((_, version), rest) = header_at(bytes)?;
    let (pool, rest) = pool_at(alloc, rest)?;
    let ((flags, (this_class, super_class)), rest) = class_at(rest)?;
    let (interfaces, rest) = interfaces_at(alloc, rest)?;
    let (tables, rest) = tables_at(alloc, rest)?;
    let file = RawFile {
        version,
        pool,
        flags,
        this_class,
        super_class,
        interfaces,
        fields: tables.fields,
        methods: tables.methods,
        attributes: tables.attributes,
    };
    Ok((file, rest))
}

#[tactic(auto, unfolding(crate::specs::Reading::whole_of))]
pub fn whole_of(alloc: Global, bytes: &[u8]) -> Result<RawFile<'_>, ReadError>
    ensures exact { Gives plain_file result (whole_of bytes.now) }
    ensures fits { IfOk result (λ x. Fits (plain_file x)) }
    ensures early { (f : Fault) → header_at bytes.now ≡ Err f → IsErrOf result (errors.Fault f) }
{
    let (file, rest) = structure_at(alloc, bytes)?;
    if !rest.is_empty() {
        return Err(ReadError::Fault(Fault::Trailing));
    }
    Ok(file)
}
