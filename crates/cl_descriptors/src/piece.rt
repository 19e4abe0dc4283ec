//! Types at the front of bytes, found without memory.

ghost use Rattle.std.specs.Prelude.{◌≡◌, ◌==◌, ◌<◌, ◌≤◌, not, length, position, IsTrue, IfSome, IfOk, option_map};
ghost use Rattle.cl_descriptors.specs.Reading.{base_of_letter, class_at, base_at, field_at, whole_field, whole_return};
ghost use Rattle.cl_names.specs.Kind.{IsNameOf, IsClass};
ghost use Rattle.cl_descriptors.specs.Types.{IsBase, is_shallow};
ghost use Rattle.cl_descriptors.specs.Units.{units_of_field};
ghost use Rattle.cl_descriptors.specs.Pieces.{seen_type, seen_base};

use crate::limits::MOST_DIMENSIONS;
use crate::types::{Base, FieldType};
use cl_names::{Name, kinds_of};
use std::alloc::{AllocError, Global};

/// A base whose class name still stands in the bytes.
#[derive(Drop)]
pub enum Head<'a> {
    Plain(Base),
    Class(&'a [u8]),
}

/// A type whose class name still stands in the bytes, of any number of dimensions.
#[derive(Drop)]
pub struct Piece<'a> {
    pub dims: usize,
    pub base: Head<'a>,
}

impl Piece<'_> {
    /// How many units a parameter of this type counts.
    pub fn units(&self) -> usize
        ensures value { result ≡ units_of_field (seen_type self.now) }
        ensures few { result ≤ 2 }
    {
        match &self.base {
            Head::Plain(base) if self.dims == 0 => base.units(),
            _ => 1,
        }
    }

    pub fn is_shallow(&self) -> bool
        ensures { result ≡ is_shallow (seen_type self.now) }
    {
        self.dims <= MOST_DIMENSIONS
    }

    /// The type, with a copy of its name.
    pub fn build(self, alloc: Global) -> Result<FieldType, AllocError>
        requires named { IsBase (seen_base self.base) }
        requires shallow { self.dims ≤ MOST_DIMENSIONS }
        ensures { IfOk result (λ t. t ≡ seen_type self.entry) }
    {
        let dims = self.dims as u8;
        let base = self.base.build(alloc)?;
        Ok(FieldType { dims, base })
    }
}

impl Head<'_> {
    /// The base, with a copy of its name.
    fn build(self, alloc: Global) -> Result<Base, AllocError>
        requires { IsBase (seen_base self) }
        ensures { IfOk result (λ base. base ≡ seen_base self.entry) }
    {
        match self {
            Head::Plain(base) => Ok(base),
            Head::Class(name) => Ok(Base::Class(class_name(alloc, name)?)),
        }
    }
}

/// The name in these bytes.
fn class_name(alloc: Global, bytes: &[u8]) -> Result<Name, AllocError>
    requires { IsNameOf IsClass bytes.now }
    ensures { IfOk result (λ name. name ≡ bytes.now) }
{
    Name::of_text(alloc, bytes)
}

fn base_of_letter(letter: u8) -> Option<Base>
    ensures { result ≡ base_of_letter letter }
{
    match letter {
        b'B' => Some(Base::Byte),
        b'C' => Some(Base::Char),
        b'D' => Some(Base::Double),
        b'F' => Some(Base::Float),
        b'I' => Some(Base::Int),
        b'J' => Some(Base::Long),
        b'S' => Some(Base::Short),
        b'Z' => Some(Base::Boolean),
        _ => None,
    }
}

/// Where the first `;` stands.
fn semicolon(bytes: &[u8]) -> Option<usize>
    ensures place { result ≡ position (λ b. b == 0x3b) bytes.now }
    ensures within { IfSome result (λ k. k < length bytes.now) }
{
    bytes.iter().position(|b| *b == b';')
}

/// How many `[` stand before the first byte that is none.
fn brackets(bytes: &[u8]) -> Option<usize>
    ensures place { result ≡ position (λ b. not (b == 0x5b)) bytes.now }
    ensures within { IfSome result (λ k. k < length bytes.now) }
{
    // Most types have none.
    if let [first, ..] = bytes {
        if *first != b'[' {
            return Some(0);
        }
    }
    bytes.iter().position(|b| *b != b'[')
}

/// The class name up to the first `;`, and what follows.
#[tactic(auto, unfolding(crate::specs::Reading::class_at))]
fn class_at(bytes: &[u8]) -> Option<(&[u8], &[u8])>
    ensures { option_map (λ x. (x.0.now, x.1.now)) result ≡ class_at bytes.now }
{
    let end = semicolon(bytes)?;
    let (name, _) = bytes.split_at(end);
    let (_, rest) = bytes.split_at(end + 1);
    if !kinds_of(name).class {
        return None;
    }
    Some((name, rest))
}

#[tactic(auto, unfolding(crate::specs::Reading::base_at))]
fn base_at(bytes: &[u8]) -> Option<(Head<'_>, &[u8])>
    ensures { option_map (λ x. (seen_base x.0, x.1.now)) result ≡ base_at bytes.now }
{
    let [letter, rest @ ..] = bytes else {
        return None;
    };
    if *letter == b'L' {
        let (name, rest) = class_at(rest)?;
        return Some((Head::Class(name), rest));
    }
    let base = base_of_letter(*letter)?;
    Some((Head::Plain(base), rest))
}

/// The type at the front, and what follows.
#[tactic(auto, unfolding(crate::specs::Reading::field_at))]
pub fn field_at(bytes: &[u8]) -> Option<(Piece<'_>, &[u8])>
    ensures { option_map (λ x. (seen_type x.0, x.1.now)) result ≡ field_at bytes.now }
{
    let dims = brackets(bytes)?;
    let (_, rest) = bytes.split_at(dims);
    let (base, rest) = base_at(rest)?;
    Some((Piece { dims, base }, rest))
}

/// All of the bytes as a type.
#[tactic(auto, unfolding(crate::specs::Reading::whole_field))]
pub fn whole_field(bytes: &[u8]) -> Option<Piece<'_>>
    ensures { option_map seen_type result ≡ whole_field bytes.now }
{
    let (piece, rest) = field_at(bytes)?;
    if !rest.is_empty() {
        return None;
    }
    Some(piece)
}

/// All of the bytes as what a method returns.
#[tactic(auto, unfolding(crate::specs::Reading::whole_return))]
pub fn whole_return(bytes: &[u8]) -> Option<Option<Piece<'_>>>
    ensures { option_map (λ r. option_map seen_type r) result ≡ whole_return bytes.now }
{
    if let [b'V'] = bytes {
        return Some(None);
    }
    let piece = whole_field(bytes)?;
    Some(Some(piece))
}
