//! What the lines of assembler text say.

ghost use Rattle.std.specs.Prelude.{◌≡◌, List, ℕ, [], ◌∷◌, Some, None, MatchOption, codes};
ghost use Rattle.cl_names.specs.Truth.{Reads, FoundBy};
ghost use Rattle.cl_lines.specs.Lines.{words_of};
ghost use Rattle.cl_names.specs.Escape.{digit_written, WritesName};
ghost use Rattle.cl_writer.specs.Statements.{hex_flags, WritesInteger, WritesSuper, IsName, IsMemberLine, IsMemberName, IsInteger, IsClassLine, IsVersion, Refers, Says, kind_word};

use crate::item::{Item, MemberKind, MemberName};
use cl_classfile::Version;
use cl_lines::{Words, number_of};
use cl_names::{Name, NameFault};
use std::alloc::{AllocError, Global};

/// The first line of a class: its flags, its name, and its superclass but for `-`.
#[derive(Debug, Drop)]
pub struct ClassLine {
    pub flags: u16,
    pub name: Name,
    pub superclass: Option<Name>,
}

/// A field or a method: its flags, its name and its descriptor.
#[derive(Debug, Drop)]
pub struct MemberLine {
    pub flags: u16,
    pub name: Name,
    pub descriptor: Name,
}

/// A line after the first.
#[derive(Debug, Drop)]
pub enum Statement {
    Implements(Name),
    Field(MemberLine),
    Method(MemberLine),
    /// An entry of the pool.
    Ref(Item),
    Version(Version),
}

/// What the first line of a class says, if it is such a line.
pub fn class_line(alloc: Global, line: &str) -> Result<Option<ClassLine>, AllocError>
    ensures { Reads (IsClassLine (words_of line.now)) result }
{
    let mut words = Words::new(line);
    let Some(first) = words.next() else {
        return Ok(None);
    };
    if first != "class" {
        return Ok(None);
    }
    let Some((flags, name, above)) = three(words) else {
        return Ok(None);
    };
    let Some(flags) = hex_flags(flags) else {
        return Ok(None);
    };
    let Some(name) = written_name(alloc, name)? else {
        return Ok(None);
    };
    let Some(superclass) = written_super(alloc, above)? else {
        return Ok(None);
    };
    Ok(Some(ClassLine {
        flags,
        name,
        superclass,
    }))
}

/// What a line after the first says, if it is such a line.
pub fn said_by(alloc: Global, line: &str) -> Result<Option<Statement>, AllocError>
    ensures { Reads (Says (words_of line.now)) result }
{
    let mut words = Words::new(line);
    let Some(first) = words.next() else {
        return Ok(None);
    };
    if first == "implements" {
        let Some(name) = name_of(alloc, words)? else {
            return Ok(None);
        };
        return Ok(Some(Statement::Implements(name)));
    }
    if first == "field" {
        let Some(field) = member_line(alloc, words)? else {
            return Ok(None);
        };
        return Ok(Some(Statement::Field(field)));
    }
    if first == "method" {
        let Some(method) = member_line(alloc, words)? else {
            return Ok(None);
        };
        return Ok(Some(Statement::Method(method)));
    }
    if first == "ref" {
        let Some(item) = reference(alloc, words)? else {
            return Ok(None);
        };
        return Ok(Some(Statement::Ref(item)));
    }
    if first == "version" {
        let Some(version) = version_of(words) else {
            return Ok(None);
        };
        return Ok(Some(Statement::Version(version)));
    }
    Ok(None)
}

/// The entry that the words behind `ref` ask for.
fn reference(alloc: Global, mut words: Words<'_>) -> Result<Option<Item>, AllocError>
    ensures { Reads (Refers (words_of words.entry)) result }
{
    let Some(first) = words.next() else {
        return Ok(None);
    };
    if first == "class" {
        let Some(name) = name_of(alloc, words)? else {
            return Ok(None);
        };
        return Ok(Some(Item::Class(name)));
    }
    if first == "int" {
        let Some(number) = integer_of(words) else {
            return Ok(None);
        };
        return Ok(Some(Item::Integer(number)));
    }
    let Some(kind) = kind_of(first) else {
        return Ok(None);
    };
    let Some(member) = member_name(alloc, words)? else {
        return Ok(None);
    };
    Ok(Some(Item::Member(kind, member)))
}

/// The kind of member that the second word of a `ref` line asks for.
fn kind_of(word: &str) -> Option<MemberKind>
    ensures { FoundBy (λ k. word.now ≡ kind_word k) result }
{
    if word == "field" {
        Some(MemberKind::Field)
    } else if word == "method" {
        Some(MemberKind::Method)
    } else if word == "imethod" {
        Some(MemberKind::InterfaceMethod)
    } else {
        None
    }
}

/// NAME, and no word more.
fn name_of(alloc: Global, words: Words<'_>) -> Result<Option<Name>, AllocError>
    ensures { Reads (IsName (words_of words.entry)) result }
{
    let Some(text) = one(words) else {
        return Ok(None);
    };
    written_name(alloc, text)
}

/// N, and no word more.
fn integer_of(words: Words<'_>) -> Option<i32>
    ensures { FoundBy (IsInteger (words_of words.entry)) result }
{
    written_integer(one(words)?)
}

/// MAJOR MINOR, and no word more.
fn version_of(words: Words<'_>) -> Option<Version>
    ensures { FoundBy (IsVersion (words_of words.entry)) result }
{
    let (major, minor) = two(words)?;
    Some(Version {
        major: number_of(major)?,
        minor: number_of(minor)?,
    })
}

/// FLAGS NAME DESC, and no word more.
fn member_line(alloc: Global, words: Words<'_>) -> Result<Option<MemberLine>, AllocError>
    ensures { Reads (IsMemberLine (words_of words.entry)) result }
{
    let Some((flags, name, descriptor)) = three(words) else {
        return Ok(None);
    };
    let Some(flags) = hex_flags(flags) else {
        return Ok(None);
    };
    let Some(name) = written_name(alloc, name)? else {
        return Ok(None);
    };
    let Some(descriptor) = written_name(alloc, descriptor)? else {
        return Ok(None);
    };
    Ok(Some(MemberLine {
        flags,
        name,
        descriptor,
    }))
}

/// CLASS NAME DESC, and no word more.
fn member_name(alloc: Global, words: Words<'_>) -> Result<Option<MemberName>, AllocError>
    ensures { Reads (IsMemberName (words_of words.entry)) result }
{
    let Some((class, name, descriptor)) = three(words) else {
        return Ok(None);
    };
    let Some(class) = written_name(alloc, class)? else {
        return Ok(None);
    };
    let Some(name) = written_name(alloc, name)? else {
        return Ok(None);
    };
    let Some(descriptor) = written_name(alloc, descriptor)? else {
        return Ok(None);
    };
    Ok(Some(MemberName {
        class,
        name,
        descriptor,
    }))
}

/// The one word that is left.
fn one(mut words: Words<'_>) -> Option<&str>
    ensures { MatchOption result ((a : List ℕ) → words_of words.entry ≡ a ∷ []
        → ⊥) (λ a. words_of words.entry ≡ a.now ∷ []) }
{
    match (words.next(), words.next()) {
        (Some(word), None) => Some(word),
        _ => None,
    }
}

/// The two words that are left.
fn two(mut words: Words<'_>) -> Option<(&str, &str)>
    ensures { MatchOption result ((a b : List ℕ) → words_of words.entry ≡ a ∷ b ∷ []
        → ⊥) (λ t. words_of words.entry ≡ t.0.now ∷ t.1.now ∷ []) }
{
    match (words.next(), words.next(), words.next()) {
        (Some(a), Some(b), None) => Some((a, b)),
        _ => None,
    }
}

/// The three words that are left.
fn three(mut words: Words<'_>) -> Option<(&str, &str, &str)>
    ensures { MatchOption result ((a b c : List ℕ) → words_of words.entry ≡ a ∷ b ∷ c ∷ []
        → ⊥) (λ t. words_of words.entry ≡ t.0.now ∷ t.1.now ∷ t.2.now ∷ []) }
{
    match (words.next(), words.next(), words.next(), words.next()) {
        (Some(a), Some(b), Some(c), None) => Some((a, b, c)),
        _ => None,
    }
}

/// The name that escaped text writes, if it writes one.
fn written_name(alloc: Global, text: &str) -> Result<Option<Name>, AllocError>
    ensures { Reads (WritesName text.now) result }
{
    match Name::from_text(alloc, text) {
        Ok(name) => Ok(Some(name)),
        Err(NameFault::Memory) => Err(AllocError),
        Err(NameFault::NotModifiedUtf8) => Ok(None),
        Err(NameFault::BadName) => Ok(None),
    }
}

/// What SUPER writes: `-` is no class.
fn written_super(alloc: Global, text: &str) -> Result<Option<Option<Name>>, AllocError>
    ensures { Reads (WritesSuper text.now) result }
{
    if text == "-" {
        return Ok(Some(None));
    }
    match written_name(alloc, text)? {
        Some(name) => Ok(Some(Some(name))),
        None => Ok(None),
    }
}

/// The flags that four hexadecimal digits write.
fn hex_flags(text: &str) -> Option<u16>
    ensures { result ≡ hex_flags text.now }
{
    let [a, b, c, d] = text.as_bytes() else {
        return None;
    };
    Some(hex(*a)? * 4096 + hex(*b)? * 256 + hex(*c)? * 16 + hex(*d)?)
}

fn hex(digit: u8) -> Option<u16>
    ensures { result ≡ digit_written digit }
{
    let value = char::from(digit).to_digit(16)?;
    Some(value as u16)
}

/// The number that a minus, if there is one, and decimal digits write.
fn written_integer(text: &str) -> Option<i32>
    ensures { FoundBy (WritesInteger text.now) result }
{
    if text.as_bytes().first() == Some(&b'+') {
        return None;
    }
    text.parse::<i32>().ok()
}
