//! Reading the pool: its entries are told by their tags (JVMS SE 8, 4.4).

ghost use Rattle.std.specs.Prelude.{◌≡◌, ◌+◌, ◌<◌, ◌^◌, nat_lt, if◌then◌else◌, Ok, Err};
ghost use Rattle.cl_classfile.specs.declared.fault.Fault.TheVariants as faults;
ghost use Rattle.std.specs.Int.{w32, w64};
ghost use Rattle.cl_names.specs.Steps.{Finds};
ghost use Rattle.cl_classfile.specs.Checking.{Gives};
ghost use Rattle.cl_classfile.specs.Reading.{number_at, utf8_at, byte_at, signed_at, two_at, handle_at, entry_at, slot_at, entries_at, pool_at};
ghost use Rattle.cl_classfile.specs.Raw.{plain_entry, plain_entries};

use crate::fault::{Fault, ReadError};
use crate::raw::{RawEntry, is_wide};
use crate::reading::{bytes_at, u16_at, u32_at};
use crate::tags;
use std::alloc::Global;

#[tactic(auto, unfolding(crate::specs::Reading::utf8_at))]
fn utf8_at(bytes: &[u8]) -> Result<(&[u8], &[u8]), Fault>
    ensures { Finds (λ x. (x.0.now, x.1.now)) result (utf8_at bytes.now) }
{
    let (count, rest) = u16_at(bytes)?;
    bytes_at(count as usize, rest)
}

#[tactic(auto, unfolding(crate::specs::Reading::byte_at))]
fn byte_at(bytes: &[u8]) -> Result<(u8, &[u8]), Fault>
    ensures { Finds (λ x. (x.0, x.1.now)) result (byte_at bytes.now) }
{
    let [byte, rest @ ..] = bytes else {
        return Err(Fault::Truncated);
    };
    Ok((*byte, rest))
}

fn u64_at(bytes: &[u8]) -> Result<(u64, &[u8]), Fault>
    ensures { Finds (λ x. (x.0, x.1.now)) result (number_at w64 bytes.now) }
{
    if bytes.len() < 8 {
        return Err(Fault::Truncated);
    }
    let (b, rest) = bytes.split_at(8);
    let number = u64::from_be_bytes([b[0], b[1], b[2], b[3], b[4], b[5], b[6], b[7]]);
    Ok((number, rest))
}

#[tactic(auto, unfolding(crate::specs::Reading::signed_at))]
fn i32_at(bytes: &[u8]) -> Result<(i32, &[u8]), Fault>
    ensures { Finds (λ x. (x.0, x.1.now)) result (signed_at w32 bytes.now) }
{
    let (number, rest) = u32_at(bytes)?;
    Ok((number.cast_signed(), rest))
}

#[tactic(auto, unfolding(crate::specs::Reading::signed_at))]
fn i64_at(bytes: &[u8]) -> Result<(i64, &[u8]), Fault>
    ensures { Finds (λ x. (x.0, x.1.now)) result (signed_at w64 bytes.now) }
{
    let (number, rest) = u64_at(bytes)?;
    Ok((number.cast_signed(), rest))
}

#[tactic(auto, unfolding(crate::specs::Reading::two_at))]
fn two_at(bytes: &[u8]) -> Result<((u16, u16), &[u8]), Fault>
    ensures { Finds (λ x. (x.0, x.1.now)) result (two_at bytes.now) }
{
    let (first, rest) = u16_at(bytes)?;
    let (second, rest) = u16_at(rest)?;
    Ok(((first, second), rest))
}

#[tactic(auto, unfolding(crate::specs::Reading::handle_at))]
fn handle_at(bytes: &[u8]) -> Result<((u8, u16), &[u8]), Fault>
    ensures { Finds (λ x. (x.0, x.1.now)) result (handle_at bytes.now) }
{
    let (kind, rest) = byte_at(bytes)?;
    let (reference, rest) = u16_at(rest)?;
    Ok(((kind, reference), rest))
}

/// Whether there is an index behind this one, as a long and a double take it too (JVMS SE 8, 4.4.5).
fn check_second(last: u16, index: u16) -> Result<(), Fault>
    ensures { result ≡ (if nat_lt index last then Ok tt else Err (faults.BadPool index)) }
{
    if index >= last {
        return Err(Fault::BadPool(index));
    }
    Ok(())
}

/// The entry at an index, of which `last` is the last, by its tag (JVMS SE 8, table 4.4-A).
#[tactic(auto, unfolding(crate::specs::Reading::entry_at, crate::specs::Reading::tagged_at))]
fn entry_at(last: u16, index: u16, bytes: &[u8]) -> Result<(RawEntry<'_>, &[u8]), Fault>
    ensures { Finds (λ x. (plain_entry x.0, x.1.now)) result (entry_at last index bytes.now) }
{
    let [tag, rest @ ..] = bytes else {
        return Err(Fault::Truncated);
    };
    match *tag {
        tags::UTF8 => {
            let (text, rest) = utf8_at(rest)?;
            Ok((RawEntry::Utf8(text), rest))
        }
        tags::INTEGER => {
            let (value, rest) = i32_at(rest)?;
            Ok((RawEntry::Integer(value), rest))
        }
        tags::FLOAT => {
            let (bits, rest) = u32_at(rest)?;
            Ok((RawEntry::Float(bits), rest))
        }
        tags::LONG => {
            check_second(last, index)?;
            let (value, rest) = i64_at(rest)?;
            Ok((RawEntry::Long(value), rest))
        }
        tags::DOUBLE => {
            check_second(last, index)?;
            let (bits, rest) = u64_at(rest)?;
            Ok((RawEntry::Double(bits), rest))
        }
        tags::CLASS => {
            let (text, rest) = u16_at(rest)?;
            Ok((RawEntry::Class(text), rest))
        }
        tags::STRING => {
            let (text, rest) = u16_at(rest)?;
            Ok((RawEntry::String(text), rest))
        }
        tags::FIELDREF => {
            let ((class, name_and_type), rest) = two_at(rest)?;
            Ok((
                RawEntry::Fieldref {
                    class,
                    name_and_type,
                },
                rest,
            ))
        }
        tags::METHODREF => {
            let ((class, name_and_type), rest) = two_at(rest)?;
            Ok((
                RawEntry::Methodref {
                    class,
                    name_and_type,
                },
                rest,
            ))
        }
        tags::INTERFACE_METHODREF => {
            let ((class, name_and_type), rest) = two_at(rest)?;
            Ok((
                RawEntry::InterfaceMethodref {
                    class,
                    name_and_type,
                },
                rest,
            ))
        }
        tags::NAME_AND_TYPE => {
            let ((name, descriptor), rest) = two_at(rest)?;
            Ok((RawEntry::NameAndType { name, descriptor }, rest))
        }
        tags::METHOD_HANDLE => {
            let ((kind, reference), rest) = handle_at(rest)?;
            Ok((RawEntry::MethodHandle { kind, reference }, rest))
        }
        tags::METHOD_TYPE => {
            let (descriptor, rest) = u16_at(rest)?;
            Ok((RawEntry::MethodType(descriptor), rest))
        }
        tags::INVOKE_DYNAMIC => {
            let ((bootstrap, name_and_type), rest) = two_at(rest)?;
            Ok((
                RawEntry::InvokeDynamic {
                    bootstrap,
                    name_and_type,
                },
                rest,
            ))
        }
        _ => Err(Fault::BadPool(index)),
    }
}

/// What stands at an index, behind an entry that takes it too or another.
#[tactic(auto, unfolding(crate::specs::Reading::slot_at))]
fn slot_at(last: u16, index: u16, taken: bool, bytes: &[u8]) -> Result<(RawEntry<'_>, &[u8]), Fault>
    ensures { Finds (λ x. (plain_entry x.0, x.1.now)) result
        (slot_at last (index, taken) bytes.now) }
{
    if taken {
        return Ok((RawEntry::Unusable, bytes));
    }
    entry_at(last, index, bytes)
}

fn entries_at(
    alloc: Global,
    count: u16,
    bytes: &[u8],
) -> Result<(Vec<RawEntry<'_>>, &[u8]), ReadError>
    requires { count + 1 < 2 ^ 16 }
    ensures { Gives (λ x. (plain_entries x.0.items, x.1.now)) result (entries_at count bytes.now) }
{
    // Each entry takes a byte at least, but for those behind a long or a double.
    let room = (count as usize).min(bytes.len());
    let mut entries = Vec::with_capacity(alloc, room)?;
    let mut rest = bytes;
    let mut taken = false;
    for i in 0..count {
        let (entry, after) = slot_at(count, i + 1, taken, rest)?;
        taken = is_wide(entry);
        entries.push(entry)?;
        rest = after;
    }
    Ok((entries, rest))
}

#[tactic(auto, unfolding(crate::specs::Reading::pool_at))]
pub fn pool_at(alloc: Global, bytes: &[u8]) -> Result<(Vec<RawEntry<'_>>, &[u8]), ReadError>
    ensures { Gives (λ x. (plain_entries x.0.items, x.1.now)) result (pool_at bytes.now) }
{
    let (count, rest) = u16_at(bytes)?;
    if count == 0 {
        return Err(ReadError::Fault(Fault::BadPool(0)));
    }
    entries_at(alloc, count - 1, rest)
}
