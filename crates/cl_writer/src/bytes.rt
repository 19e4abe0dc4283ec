//! The parts that class files are spelled with, put at the end of bytes.

ghost use Rattle.std.specs.Prelude.{◌≡◌, ◌<◌, ◌^◌, ◌++◌, ◌∷◌, OnOk, length};
ghost use Rattle.std.specs.Int.{w16, to_be_bytes};
ghost use Rattle.cl_classfile.specs.Pool.{two_indices, entry_spelling};
ghost use Rattle.cl_classfile.specs.Versions.{version_spelling};
ghost use Rattle.cl_classfile.specs.declared.entry.Entry.TheVariants.{Utf8};

use cl_classfile::{Version, tags};
use std::alloc::AllocError;

/// The magic (JVMS SE 8, 4.1).
pub const MAGIC: [u8; 4] = [0xca, 0xfe, 0xba, 0xbe];

pub fn put_u16(out: &mut Vec<u8>, number: u16) -> Result<(), AllocError>
    ensures { OnOk result (out.new.items ≡ out.old.items ++ to_be_bytes w16 number) }
{
    out.extend_from_slice(&number.to_be_bytes())
}

/// The minor number, and then the major one (JVMS SE 8, 4.1).
pub fn put_version(out: &mut Vec<u8>, version: Version) -> Result<(), AllocError>
    ensures { OnOk result (out.new.items ≡ out.old.items ++ version_spelling version) }
{
    put_u16(out, version.minor)?;
    put_u16(out, version.major)
}

/// A text's tag, its length and its bytes (JVMS SE 8, 4.4.7).
pub fn put_text(out: &mut Vec<u8>, text: &[u8]) -> Result<(), AllocError>
    requires { length text.now < 2 ^ 16 }
    ensures { OnOk result (out.new.items ≡ out.old.items
        ++ entry_spelling (Utf8 text.now)) }
{
    out.push(tags::UTF8)?;
    put_u16(out, text.len() as u16)?;
    out.extend_from_slice(text)
}

/// A tag, and the bytes behind it.
pub fn put_tagged(out: &mut Vec<u8>, tag: u8, bytes: &[u8]) -> Result<(), AllocError>
    ensures { OnOk result (out.new.items ≡ out.old.items ++ (tag ∷ bytes.now)) }
{
    out.push(tag)?;
    out.extend_from_slice(bytes)
}

/// A tag, and two numbers behind it.
pub fn put_two(out: &mut Vec<u8>, tag: u8, a: u16, b: u16) -> Result<(), AllocError>
    ensures { OnOk result (out.new.items ≡ out.old.items ++ (tag ∷ two_indices a b)) }
{
    out.push(tag)?;
    put_u16(out, a)?;
    put_u16(out, b)
}
