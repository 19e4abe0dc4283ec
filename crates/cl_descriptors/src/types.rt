ghost use Rattle.std.specs.Prelude.{◌≡◌, IfOk};

use cl_names::Name;
use std::alloc::{AllocError, Global};
use std::marker::Model;
use std::slice::Iter;
use thiserror::Error;

/// What a type is below its dimensions.
#[derive(Debug, Drop, PartialEq, Eq)]
pub enum Base {
    Byte,
    Char,
    Double,
    Float,
    Int,
    Long,
    Short,
    Boolean,
    Class(Name),
}

impl Base {
    ghost use Rattle.std.specs.Prelude.{◌≤◌};
    ghost use Rattle.cl_descriptors.specs.Units.{units_of_base};

    /// How many units a parameter of this type counts (JVMS SE 8, 4.3.3).
    pub(crate) fn units(&self) -> usize
        ensures value { result ≡ units_of_base self.now }
        ensures few { result ≤ 2 }
    {
        match self {
            Base::Double | Base::Long => 2,
            _ => 1,
        }
    }
}

/// The type of a field or of a parameter: an array of so many dimensions, or with none its base (JVMS SE 8, 4.3.2).
#[derive(Debug, Drop, PartialEq, Eq)]
pub struct FieldType {
    pub dims: u8,
    pub base: Base,
}

impl FieldType {
    ghost use Rattle.std.specs.Prelude.{◌≤◌};
    ghost use Rattle.cl_descriptors.specs.Units.{units_of_field};

    /// How many units a parameter of this type counts: two for a long or a double, one for each other type (JVMS SE 8, 4.3.3).
    pub fn units(&self) -> usize
        ensures value { result ≡ units_of_field self.now }
        ensures few { result ≤ 2 }
    {
        if self.dims == 0 { self.base.units() } else { 1 }
    }
}

/// The types of a method's parameters, in order.
#[derive(Debug, Drop)]
pub struct Params {
    items: Vec<FieldType>,
}

impl Model for Params {
    ghost use Rattle.std.specs.Prelude.{List, ◌≤◌};
    ghost use Rattle.cl_descriptors.specs.declared.types.FieldType.{FieldType};

    ghost Value = { List FieldType };

    ghost use Rattle.cl_descriptors.specs.Units.{units_of_types};
    ghost use Rattle.cl_descriptors.specs.declared.limits.TheConstants.{MOST_UNITS};

    ghost view = { λ p. p.items.items };

    ghost invariant = { λ p. units_of_types p.items.items ≤ MOST_UNITS };
}

impl PartialEq for Params {
    ghost use Rattle.std.specs.Cmp;
    ghost use Rattle.std.specs.Cmp.Lexicographic.{pointwise, lists_equiv};
    ghost use Rattle.cl_descriptors.specs.contracts.types.FieldTypePartialEq.TheImpl as fields;
    ghost use Rattle.cl_descriptors.specs.contracts.types.FieldTypeEq.TheImpl.Laws as laws_of_fields;

    ghost eq = { pointwise fields.ghosts.eq };

    ghost laws = { Cmp.partial_equiv_from_equiv (lists_equiv laws_of_fields.laws-law) };

    fn eq(&self, other: &Params) -> bool {
        self.as_slice() == other.as_slice()
    }
}

impl Eq for Params {
    ghost use Rattle.std.specs.Cmp.Lexicographic.{lists_equiv};
    ghost use Rattle.cl_descriptors.specs.contracts.types.FieldTypeEq.TheImpl.Laws as laws_of_fields;

    ghost laws = { lists_equiv laws_of_fields.laws-law };
}

impl Params {
    ghost use Rattle.std.specs.Iterator.Adapters.{IterYieldsInOrder};
    ghost use Rattle.std.specs.Slice.Iter.{iter_rest};
    ghost use Rattle.cl_descriptors.specs.declared.types.FieldType.{FieldType};
    ghost use Rattle.std.specs.Prelude.{◌≤◌, ◌↔◌, [], IsTrue, length, option_map, slice_get};
    ghost use Rattle.cl_descriptors.specs.Units.{units_of_types};
    ghost use Rattle.cl_descriptors.specs.declared.limits.TheConstants.{MOST_UNITS};

    pub(crate) fn new(items: Vec<FieldType>) -> Params
        requires { units_of_types items.items ≤ MOST_UNITS }
        ensures { result ≡ items.items }
    {
        Params { items }
    }

    /// A copy.
    pub fn try_clone(&self, alloc: Global) -> Result<Params, AllocError>
        ensures { IfOk result (λ params. params ≡ self.now) }
    {
        let items = copies(alloc, self.as_slice())?;
        Ok(Params { items })
    }

    /// How many units they count (JVMS SE 8, 4.3.3).
    pub fn units(&self) -> usize
        ensures value { result ≡ units_of_types self.now }
        ensures few { result ≤ MOST_UNITS }
    {
        self.items.iter().map(|t| t.units()).sum()
    }

    /// How many there are.
    pub fn len(&self) -> usize
        ensures { result ≡ length self.now }
    {
        self.items.len()
    }

    /// Whether there are none.
    pub fn is_empty(&self) -> bool
        ensures { IsTrue result ↔ (self.now ≡ []) }
    {
        self.items.is_empty()
    }

    /// The one at this index, counted from 0.
    pub fn get(&self, index: usize) -> Option<&FieldType>
        ensures { option_map (λ t. t.now) result ≡ slice_get self.now index }
    {
        self.items.get(index)
    }

    /// A walk over them.
    pub fn iter(&self) -> Iter<'_, FieldType>
        ensures rest { iter_rest result ≡ self.now }
        ensures runs { IterYieldsInOrder FieldType }
    {
        self.as_slice().iter()
    }

    /// All of them.
    pub fn as_slice(&self) -> &[FieldType]
        ensures types { result.now ≡ self.now }
        ensures short { units_of_types self.now ≤ MOST_UNITS }
    {
        self.items.as_slice()
    }
}

/// Copies of these types.
fn copies(alloc: Global, types: &[FieldType]) -> Result<Vec<FieldType>, AllocError>
    ensures { IfOk result (λ copies. copies.items ≡ types.now) }
{
    let mut copies = Vec::with_capacity(alloc, types.len())?;
    for t in types {
        copies.push(t.try_clone(alloc)?)?;
    }
    Ok(copies)
}

/// A method's parameters, and what it returns: nothing where it is void (JVMS SE 8, 4.3.3).
#[derive(Debug, Drop, PartialEq, Eq)]
pub struct MethodType {
    pub params: Params,
    pub ret: Option<FieldType>,
}

impl MethodType {
    ghost use Rattle.std.specs.Prelude.{◌≤◌};
    ghost use Rattle.cl_descriptors.specs.Types.{units_of_method};
    ghost use Rattle.cl_descriptors.specs.declared.limits.TheConstants.{MOST_UNITS};

    /// How many units its parameters count, without one for `this` (JVMS SE 8, 4.3.3).
    pub fn units(&self) -> usize
        ensures value { result ≡ units_of_method self.now }
        ensures few { result ≤ MOST_UNITS }
    {
        self.params.units()
    }
}

/// A descriptor of either kind.
#[derive(Debug, Drop, PartialEq, Eq)]
pub enum Descriptor {
    Field(FieldType),
    Method(MethodType),
}

/// What a descriptor is of (JVMS SE 8, 4.3.2, 4.3.3).
#[derive(Clone, Copy, Debug, PartialEq, Eq)]
pub enum Form {
    /// A field type that is no array.
    Plain,
    /// An array type.
    Array,
    /// A method that returns something.
    Method,
    /// A method that returns nothing.
    Void,
}

/// Why bytes could not be read as a descriptor.
#[derive(Clone, Copy, Debug, PartialEq, Eq, Error)]
pub enum DescriptorFault {
    #[error("D0 Memory")]
    Memory,
    #[error("D1 Malformed")]
    Malformed,
    #[error("D2 TooManyDimensions")]
    TooManyDimensions,
    #[error("D3 TooManyUnits")]
    TooManyUnits,
}

impl From<AllocError> for DescriptorFault {
    ghost use Rattle.cl_descriptors.specs.declared.types.DescriptorFault.TheVariants.{Memory};

    ghost from_gives = { λ _ e. e ≡ Memory };

    fn from(_e: AllocError) -> DescriptorFault {
        DescriptorFault::Memory
    }
}
