//! The lines of a class file, written as they are made.

ghost use Rattle.std.specs.Prelude.{◌≡◌, ◌++◌, OnOk, OnErr, codes, string_bytes};
ghost use Rattle.std.specs.List.{flat_map};
ghost use Rattle.cl_streams.specs.Writing.{PutsBehind, StopsWithin, WritesBytes, WritesPart, paged, stream};
ghost use Rattle.cl_writer.specs.Listings.{class_lines, implements_line, listing_of, member_line};
ghost use Rattle.cl_writer.specs.Texts.{AreTexts};

use crate::listings::{put_class, put_interface, put_member};
use crate::texts::Texts;
use cl_classfile::{ClassFile, Entry, Member};
use cl_streams::{PrintFault, pass_page, write_out};
use std::alloc::Global;
use std::io::Write;

/// Writes the lines of `listing`, a page at a time, so that it takes no more memory than a page, the longest line, and 16 MB
/// of long names as they are printed, each of which is made once however many lines have it. Where a write is refused, or
/// memory is out, a beginning of them is written.
pub fn print_listing<W: Write>(
    alloc: Global,
    file: &ClassFile,
    out: &mut W,
) -> Result<(), PrintFault>
    ensures lines { OnOk result (WritesBytes (stream W.contents out.old out.new)
        (listing_of file.now)) }
    ensures part { OnErr result
        (WritesPart (stream W.contents out.old out.new) (listing_of file.now)) }
{
    let mut waiting = String::new(alloc);
    let mut texts = Texts::new(alloc, file.pool());
    put_class(&mut waiting, file)?;
    print_interfaces(
        file.pool(),
        file.interfaces(),
        out,
        &mut waiting,
        &mut texts,
    )?;
    print_members(
        "field ",
        file.pool(),
        file.fields(),
        out,
        &mut waiting,
        &mut texts,
    )?;
    print_members(
        "method ",
        file.pool(),
        file.methods(),
        out,
        &mut waiting,
        &mut texts,
    )?;
    write_out(out, waiting.as_bytes())
}

/// Puts the lines of interfaces behind what waits.
fn print_interfaces<W: Write>(
    pool: &[Entry],
    interfaces: &[u16],
    out: &mut W,
    waiting: &mut String,
    texts: &mut Texts,
) -> Result<(), PrintFault>
    requires { AreTexts pool.now texts.old }
    ensures texts { OnOk result (AreTexts pool.now texts.new) }
    ensures lines { OnOk result (PutsBehind
        (paged W.contents out.old out.new string_bytes waiting.old waiting.new)
        (flat_map (implements_line pool.now) interfaces.now)) }
    ensures part { OnErr result (StopsWithin
        (paged W.contents out.old out.new string_bytes waiting.old waiting.new)
        (flat_map (implements_line pool.now) interfaces.now)) }
{
    for interface in interfaces {
        print_interface(pool, *interface, out, waiting, texts)?;
    }
    Ok(())
}

fn print_interface<W: Write>(
    pool: &[Entry],
    interface: u16,
    out: &mut W,
    waiting: &mut String,
    texts: &mut Texts,
) -> Result<(), PrintFault>
    requires { AreTexts pool.now texts.old }
    ensures texts { OnOk result (AreTexts pool.now texts.new) }
    ensures line { OnOk result (PutsBehind
        (paged W.contents out.old out.new string_bytes waiting.old waiting.new)
        (implements_line pool.now interface)) }
    ensures part { OnErr result (StopsWithin
        (paged W.contents out.old out.new string_bytes waiting.old waiting.new)
        (implements_line pool.now interface)) }
{
    put_interface(waiting, pool, interface, texts)?;
    pass_page(out, waiting)
}

/// Puts the lines of members, each with this word, behind what waits.
fn print_members<W: Write>(
    word: &str,
    pool: &[Entry],
    members: &[Member],
    out: &mut W,
    waiting: &mut String,
    texts: &mut Texts,
) -> Result<(), PrintFault>
    requires { AreTexts pool.now texts.old }
    ensures texts { OnOk result (AreTexts pool.now texts.new) }
    ensures lines { OnOk result (PutsBehind
        (paged W.contents out.old out.new string_bytes waiting.old waiting.new)
        (flat_map (member_line word.now pool.now) members.now)) }
    ensures part { OnErr result (StopsWithin
        (paged W.contents out.old out.new string_bytes waiting.old waiting.new)
        (flat_map (member_line word.now pool.now) members.now)) }
{
    for member in members {
        print_member(word, pool, member, out, waiting, texts)?;
    }
    Ok(())
}

fn print_member<W: Write>(
    word: &str,
    pool: &[Entry],
    member: &Member,
    out: &mut W,
    waiting: &mut String,
    texts: &mut Texts,
) -> Result<(), PrintFault>
    requires { AreTexts pool.now texts.old }
    ensures texts { OnOk result (AreTexts pool.now texts.new) }
    ensures line { OnOk result (PutsBehind
        (paged W.contents out.old out.new string_bytes waiting.old waiting.new)
        (member_line word.now pool.now member.now)) }
    ensures part { OnErr result (StopsWithin
        (paged W.contents out.old out.new string_bytes waiting.old waiting.new)
        (member_line word.now pool.now member.now)) }
{
    put_member(waiting, word, pool, member, texts)?;
    pass_page(out, waiting)
}
