//! Class files as lines of the assembler.

ghost use Rattle.std.specs.Prelude.{◌≡◌, ◌<◌, ◌++◌, ◌∷◌, [], OnOk, IfOk, codes, string_bytes};
ghost use Rattle.cl_names.specs.Escape.{four_digits};
ghost use Rattle.std.specs.List.{flat_map};
ghost use Rattle.std.specs.Option.{option_map};
ghost use Rattle.std.specs.Char.{digit_char};
ghost use Rattle.cl_classfile.specs.Files.{type_name, text_at};
ghost use Rattle.cl_writer.specs.Listings.{printed_name, printed_super, printed_type, class_line, class_lines, implements_line, member_line, version_line, listing_of};
ghost use Rattle.cl_writer.specs.Texts.{AreTexts};

use crate::assembly::DEFAULT_VERSION;
use crate::texts::Texts;
use cl_classfile::{ClassFile, Entry, Member, Version, type_name};
use cl_names::Name;
use std::alloc::{AllocError, Global};

/// The lines of a file in the assembler's form: its `class` line, that of a version other than 52.0, its `implements`,
/// `field` and `method` lines, each ended by U+000A. Flags are in lower case; a superclass that is not there is `-`. It is
/// refused only where memory runs out.
pub fn listing(alloc: Global, file: &ClassFile) -> Result<String, AllocError>
    ensures { IfOk result (λ text. string_bytes text ≡ listing_of file.now) }
{
    let mut text = String::new(alloc);
    let mut texts = Texts::new(alloc, file.pool());
    put_class(&mut text, file)?;
    put_interfaces(&mut text, file.pool(), file.interfaces(), &mut texts)?;
    put_members(&mut text, "field ", file.pool(), file.fields(), &mut texts)?;
    put_members(
        &mut text,
        "method ",
        file.pool(),
        file.methods(),
        &mut texts,
    )?;
    Ok(text)
}

/// The line of the class, and that of its version.
pub fn put_class(text: &mut String, file: &ClassFile) -> Result<(), AllocError>
    ensures { OnOk result (string_bytes text.new ≡ string_bytes text.old ++ class_lines file.now) }
{
    put_class_line(text, file)?;
    put_version(text, file.version())
}

fn put_class_line(text: &mut String, file: &ClassFile) -> Result<(), AllocError>
    ensures { OnOk result (string_bytes text.new ≡ string_bytes text.old ++ class_line file.now) }
{
    put_head(text, "class ", file.flags())?;
    put_type(text, file.pool(), file.this_class())?;
    text.push_str(" ")?;
    put_super(text, file.pool(), file.super_class())?;
    text.push_str("\n")
}

/// The line of a version, and nothing of 52.0.
fn put_version(text: &mut String, version: Version) -> Result<(), AllocError>
    ensures { OnOk result (string_bytes text.new ≡ string_bytes text.old ++ version_line version) }
{
    if version == DEFAULT_VERSION {
        return Ok(());
    }
    write!(text, "version {} {}\n", version.major, version.minor)
}

/// A word, flags and a space.
fn put_head(text: &mut String, word: &str, flags: u16) -> Result<(), AllocError>
    ensures { OnOk result (string_bytes text.new ≡ string_bytes text.old
        ++ (word.now ++ four_digits flags ++ codes " ")) }
{
    text.push_str(word)?;
    put_flags(text, flags)?;
    text.push_str(" ")
}

/// The name of a class.
#[tactic(auto, unfolding(crate::specs::Listings::printed_type))]
fn put_type(text: &mut String, pool: &[Entry], index: u16) -> Result<(), AllocError>
    ensures { OnOk result (string_bytes text.new ≡ string_bytes text.old ++ printed_type pool.now
        index) }
{
    put_name(text, type_name(pool, index))
}

/// The name of the superclass, and `-` where there is none.
fn put_super(text: &mut String, pool: &[Entry], super_class: u16) -> Result<(), AllocError>
    ensures { OnOk result (string_bytes text.new ≡ string_bytes text.old ++ printed_super pool.now
        super_class) }
{
    if super_class == 0 {
        return text.push_str("-");
    }
    put_type(text, pool, super_class)
}

fn put_interfaces(
    text: &mut String,
    pool: &[Entry],
    interfaces: &[u16],
    texts: &mut Texts,
) -> Result<(), AllocError>
    requires { AreTexts pool.now texts.old }
    ensures put { OnOk result (string_bytes text.new ≡ string_bytes text.old ++ flat_map
        (implements_line pool.now) interfaces.now) }
    ensures texts { OnOk result (AreTexts pool.now texts.new) }
{
    for interface in interfaces {
        put_interface(text, pool, *interface, texts)?;
    }
    Ok(())
}

pub fn put_interface(
    text: &mut String,
    pool: &[Entry],
    interface: u16,
    texts: &mut Texts,
) -> Result<(), AllocError>
    requires { AreTexts pool.now texts.old }
    ensures put { OnOk result (string_bytes text.new ≡ string_bytes text.old
        ++ implements_line pool.now interface) }
    ensures texts { OnOk result (AreTexts pool.now texts.new) }
{
    text.push_str("implements ")?;
    texts.put_type(text, pool, interface)?;
    text.push_str("\n")
}

fn put_members(
    text: &mut String,
    word: &str,
    pool: &[Entry],
    members: &[Member],
    texts: &mut Texts,
) -> Result<(), AllocError>
    requires { AreTexts pool.now texts.old }
    ensures put { OnOk result (string_bytes text.new ≡ string_bytes text.old ++ flat_map
        (member_line word.now pool.now) members.now) }
    ensures texts { OnOk result (AreTexts pool.now texts.new) }
{
    for member in members {
        put_member(text, word, pool, member, texts)?;
    }
    Ok(())
}

pub fn put_member(
    text: &mut String,
    word: &str,
    pool: &[Entry],
    member: &Member,
    texts: &mut Texts,
) -> Result<(), AllocError>
    requires { AreTexts pool.now texts.old }
    ensures put { OnOk result (string_bytes text.new ≡ string_bytes text.old ++ member_line word.now
        pool.now member.now) }
    ensures texts { OnOk result (AreTexts pool.now texts.new) }
{
    put_head(text, word, member.flags())?;
    texts.put_name(text, pool, member.name_index())?;
    text.push_str(" ")?;
    texts.put_name(text, pool, member.descriptor_index())?;
    text.push_str("\n")
}

/// A name as escaped text.
fn put_name(text: &mut String, name: Option<&Name>) -> Result<(), AllocError>
    ensures { OnOk result (string_bytes text.new ≡ string_bytes text.old ++ printed_name
        (option_map (λ n. n.now) name.entry)) }
{
    match name {
        Some(name) => name.put_text(text),
        None => Ok(()),
    }
}

/// Four hexadecimal digits.
fn put_flags(text: &mut String, flags: u16) -> Result<(), AllocError>
    ensures { OnOk result (string_bytes text.new ≡ string_bytes text.old ++ four_digits flags) }
{
    put_digit(text, flags / 4096)?;
    put_digit(text, flags / 256 % 16)?;
    put_digit(text, flags / 16 % 16)?;
    put_digit(text, flags % 16)
}

fn put_digit(text: &mut String, value: u16) -> Result<(), AllocError>
    requires { value < 16 }
    ensures { OnOk result (string_bytes text.new ≡ string_bytes text.old ++ digit_char value ∷ []) }
{
    let value = value as u8;
    let digit = if value < 10 {
        b'0' + value
    } else {
        b'a' + (value - 10)
    };
    text.push(char::from(digit))
}
