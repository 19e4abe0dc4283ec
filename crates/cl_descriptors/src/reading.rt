//! Reading descriptors: a first pass decides without memory, a second builds.

ghost use Rattle.std.specs.Prelude.{◌≡◌, Some, ◌≤◌, ◌<◌, ◌+◌, ◌*◌, ◌^◌, ◌&&◌, length, IsTrue, IfSome, IfOk, option_map};
ghost use Rattle.std.specs.List.{list_all};
ghost use Rattle.cl_descriptors.specs.Types.{SpellsField, SpellsMethod, AreNamed, is_shallow, are_shallow, is_short};
ghost use Rattle.cl_descriptors.specs.Units.{units_of_field, units_of_types};
ghost use Rattle.cl_descriptors.specs.Pieces.{seen_type, outlined_type, HasItsTally};
ghost use Rattle.cl_descriptors.specs.Reading.{all_types, whole_method, within_field, within_method, field_of, method_of, field_form, method_form, form_of, units_of};
ghost use Rattle.cl_descriptors.specs.Answers.{FieldOf, MethodOf, FormOf, UnitsOf, GivesReading};

use crate::limits::MOST_UNITS;
use crate::piece::{Piece, field_at, whole_field, whole_return};
use crate::types::{DescriptorFault, FieldType, Form, MethodType, Params};
use std::alloc::{AllocError, Global};

/// What a list of types counts for the limits.
#[derive(Drop)]
struct Tally {
    count: usize,
    units: usize,
    shallow: bool,
}

/// A method descriptor but for the limits, its parameters still in the bytes.
#[derive(Drop)]
struct Outline<'a> {
    tally: Tally,
    params: &'a [u8],
    ret: Option<Piece<'a>>,
}

impl Tally {
    /// What the list counts with one more type.
    fn with(self, piece: Piece<'_>) -> Tally
        requires room { self.count + 1 < 2 ^ 63 }
        requires few { self.units ≤ 2 * self.count }
        ensures count { result.count ≡ self.count + 1 }
        ensures units { result.units ≡ self.units + units_of_field (seen_type piece.entry) }
        ensures shallow { result.shallow ≡ self.shallow && is_shallow (seen_type piece.entry) }
    {
        Tally {
            count: self.count + 1,
            units: self.units + piece.units(),
            shallow: self.shallow && piece.is_shallow(),
        }
    }
}

/// What the types at the front count for the limits, and what follows.
fn tally_of(bytes: &[u8]) -> (Tally, &[u8])
    ensures units { result.0.units ≡ units_of_types (all_types bytes.now).0 }
    ensures shallow { result.0.shallow ≡ list_all is_shallow (all_types bytes.now).0 }
    ensures rest { result.1.now ≡ (all_types bytes.now).1 }
{
    let mut tally = Tally {
        count: 0,
        units: 0,
        shallow: true,
    };
    let mut rest = bytes;
    while let Some((piece, after)) = field_at(rest) {
        tally = tally.with(piece);
        rest = after;
    }
    (tally, rest)
}

/// The types at the front.
fn types(alloc: Global, count: usize, bytes: &[u8]) -> Result<Vec<FieldType>, AllocError>
    requires { IsTrue (list_all is_shallow (all_types bytes.now).0) }
    ensures { IfOk result (λ types. types.items ≡ (all_types bytes.now).0) }
{
    let mut types = Vec::with_capacity(alloc, count)?;
    let mut rest = bytes;
    while let Some((piece, after)) = field_at(rest) {
        types.push(piece.build(alloc)?)?;
        rest = after;
    }
    Ok(types)
}

/// All of the bytes as a method type, but for the limits.
#[tactic(auto, unfolding(crate::specs::Reading::whole_method))]
fn outline_of(bytes: &[u8]) -> Option<Outline<'_>>
    ensures grammar { option_map outlined_type result ≡ whole_method bytes.now }
    ensures counts { IfSome result HasItsTally }
{
    let [b'(', params @ ..] = bytes else {
        return None;
    };
    let (tally, after) = tally_of(params);
    let [b')', after @ ..] = after else {
        return None;
    };
    let ret = whole_return(after)?;
    Some(Outline { tally, params, ret })
}

impl Outline<'_> {
    fn is_shallow(&self) -> bool
        requires { HasItsTally self.now }
        ensures { result ≡ are_shallow (outlined_type self.now) }
    {
        match &self.ret {
            Some(ret) => ret.is_shallow() && self.tally.shallow,
            None => self.tally.shallow,
        }
    }

    fn is_short(&self) -> bool
        requires { HasItsTally self.now }
        ensures { result ≡ is_short (outlined_type self.now) }
    {
        self.tally.units <= MOST_UNITS
    }

    /// The method type, with copies of its names.
    fn build(self, alloc: Global) -> Result<MethodType, AllocError>
        requires named { AreNamed (outlined_type self) }
        requires shallow { IsTrue (are_shallow (outlined_type self)) }
        requires short { IsTrue (is_short (outlined_type self)) }
        ensures { IfOk result (λ m. m ≡ outlined_type self.entry) }
    {
        let params = types(alloc, self.tally.count, self.params)?;
        let ret = match self.ret {
            Some(ret) => Some(ret.build(alloc)?),
            None => None,
        };
        Ok(MethodType {
            params: Params::new(params),
            ret,
        })
    }
}

#[tactic(auto, unfolding(crate::specs::Reading::field_of))]
fn field_of(alloc: Global, bytes: &[u8]) -> Result<FieldType, DescriptorFault>
    ensures { GivesReading result (field_of bytes.now) }
{
    let Some(piece) = whole_field(bytes) else {
        return Err(DescriptorFault::Malformed);
    };
    if !piece.is_shallow() {
        return Err(DescriptorFault::TooManyDimensions);
    }
    Ok(piece.build(alloc)?)
}

#[tactic(auto, unfolding(crate::specs::Reading::method_of))]
fn method_of(alloc: Global, bytes: &[u8]) -> Result<MethodType, DescriptorFault>
    ensures { GivesReading result (method_of bytes.now) }
{
    let Some(outline) = outline_of(bytes) else {
        return Err(DescriptorFault::Malformed);
    };
    if !outline.is_shallow() {
        return Err(DescriptorFault::TooManyDimensions);
    }
    if !outline.is_short() {
        return Err(DescriptorFault::TooManyUnits);
    }
    Ok(outline.build(alloc)?)
}

/// The type that the bytes are the field descriptor of, all of the bytes: `Malformed` where they are none,
/// `TooManyDimensions` where they are one but for `MOST_DIMENSIONS`, and then `Memory` (JVMS SE 8, 4.3.2).
pub fn read_field(alloc: Global, bytes: &[u8]) -> Result<FieldType, DescriptorFault>
    // What is read is spelled so, and each fault is that of the bytes.
    ensures grammar { FieldOf bytes.now result }
    // What is spelled so is read, unless memory runs out.
    ensures only { (t : FieldType) → SpellsField bytes.now t
        → GivesReading result (within_field (Some t)) }
    // Which answer it is.
    ensures exact { GivesReading result (field_of bytes.now) }
{
    field_of(alloc, bytes)
}

/// The type that the bytes are the method descriptor of, all of the bytes: `Malformed` where they are none,
/// `TooManyDimensions` and then `TooManyUnits` where they are one but for `MOST_DIMENSIONS` or `MOST_UNITS`, and then `Memory`.
/// `this` is not counted (JVMS SE 8, 4.3.3).
pub fn read_method(alloc: Global, bytes: &[u8]) -> Result<MethodType, DescriptorFault>
    // What is read is spelled so, and each fault is that of the bytes.
    ensures grammar { MethodOf bytes.now result }
    // What is spelled so is read, unless memory runs out.
    ensures only { (m : MethodType) → SpellsMethod bytes.now m
        → GivesReading result (within_method (Some m)) }
    // Which answer it is.
    ensures exact { GivesReading result (method_of bytes.now) }
{
    method_of(alloc, bytes)
}

#[tactic(auto, unfolding(crate::specs::Reading::field_of))]
fn field_form(bytes: &[u8]) -> Option<Form>
    ensures { result ≡ field_form (field_of bytes.now) }
{
    let piece = whole_field(bytes)?;
    if !piece.is_shallow() {
        return None;
    }
    if piece.dims == 0 {
        Some(Form::Plain)
    } else {
        Some(Form::Array)
    }
}

#[tactic(auto, unfolding(crate::specs::Reading::method_of))]
fn method_form(bytes: &[u8]) -> Option<Form>
    ensures { result ≡ method_form (method_of bytes.now) }
{
    let outline = outline_of(bytes)?;
    if !outline.is_shallow() || !outline.is_short() {
        return None;
    }
    match outline.ret {
        Some(_) => Some(Form::Method),
        None => Some(Form::Void),
    }
}

#[tactic(auto, unfolding(crate::specs::Reading::form_of))]
fn either_form(bytes: &[u8]) -> Option<Form>
    ensures { result ≡ form_of bytes.now }
{
    match field_form(bytes) {
        Some(form) => Some(form),
        None => method_form(bytes),
    }
}

/// Which form of descriptor the bytes have, if they are one within the limits. It takes no memory (JVMS SE 8, 4.3).
#[tactic(auto, using(crate::proofs::Forms::form_says))]
pub fn form_of(bytes: &[u8]) -> Option<Form>
    ensures grammar { FormOf bytes.now result }
    ensures exact { result ≡ form_of bytes.now }
{
    either_form(bytes)
}

#[tactic(auto, unfolding(crate::specs::Reading::method_of, crate::specs::Reading::units_of))]
fn parameter_units(bytes: &[u8]) -> Option<usize>
    ensures { result ≡ units_of bytes.now }
{
    let outline = outline_of(bytes)?;
    if !outline.is_shallow() || !outline.is_short() {
        return None;
    }
    Some(outline.tally.units)
}

/// How many units the parameters count, if the bytes are a method descriptor within the limits. It takes no memory
/// (JVMS SE 8, 4.3.3).
#[tactic(auto, using(crate::proofs::Forms::units_say))]
pub fn units_of(bytes: &[u8]) -> Option<usize>
    ensures grammar { UnitsOf bytes.now result }
    ensures exact { result ≡ units_of bytes.now }
{
    parameter_units(bytes)
}

#[tactic(auto, unfolding(crate::specs::Reading::method_of, crate::specs::Reading::units_of))]
fn method_form_and_units(bytes: &[u8]) -> (Option<Form>, Option<usize>)
    ensures form { result.0 ≡ method_form (method_of bytes.now) }
    ensures units { result.1 ≡ units_of bytes.now }
{
    let Some(outline) = outline_of(bytes) else {
        return (None, None);
    };
    if !outline.is_shallow() || !outline.is_short() {
        return (None, None);
    }
    let form = match &outline.ret {
        Some(_) => Form::Method,
        None => Form::Void,
    };
    (Some(form), Some(outline.tally.units))
}

/// What `form_of` and `units_of` answer, by one reading of the bytes (JVMS SE 8, 4.3).
pub fn form_and_units(bytes: &[u8]) -> (Option<Form>, Option<usize>)
    ensures form { result.0 ≡ form_of bytes.now }
    ensures units { result.1 ≡ units_of bytes.now }
{
    let (form, units) = method_form_and_units(bytes);
    match form {
        Some(_) => (form, units),
        None => (field_form(bytes), units),
    }
}
