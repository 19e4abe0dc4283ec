ghost use Rattle.std.specs.Prelude.{◌≡◌, ◌≢◌, [], ◌∷◌, IfSome, MatchOption};

use cl_descriptors::Base;
use std::fmt;

/// A primitive type (JVMS SE 8, 2.3, 4.3.2).
#[derive(Clone, Copy, Debug, PartialEq, Eq)]
pub enum Primitive {
    Byte,
    Char,
    Double,
    Float,
    Int,
    Long,
    Short,
    Boolean,
}

impl Primitive {
    ghost use Rattle.cl_classfile.specs.Files.{element_name, letter};
    ghost use Rattle.cl_model.specs.Views.{letter_of};

    /// The primitive type that a base is, if it is no class.
    pub fn of_base(base: &Base) -> Option<Primitive>
        ensures class { MatchOption result (element_name base.now ≢ []) (λ p. element_name base.now
            ≡ []) }
        ensures letter { IfSome result (λ p. letter_of p ≡ letter base.now) }
    {
        match base {
            Base::Byte => Some(Primitive::Byte),
            Base::Char => Some(Primitive::Char),
            Base::Double => Some(Primitive::Double),
            Base::Float => Some(Primitive::Float),
            Base::Int => Some(Primitive::Int),
            Base::Long => Some(Primitive::Long),
            Base::Short => Some(Primitive::Short),
            Base::Boolean => Some(Primitive::Boolean),
            Base::Class(_) => None,
        }
    }
}

impl fmt::Display for Primitive {
    ghost use Rattle.std.specs.Prelude.{Some};
    ghost use Rattle.cl_model.specs.Views.{letter_of};

    ghost output = { λ p. Some (letter_of p ∷ []) };

    /// The letter of its descriptor (JVMS SE 8, 4.3.2).
    fn fmt<W: fmt::Write>(&self, f: &mut fmt::Formatter<W>) -> fmt::Result {
        f.write_str(match self {
            Primitive::Byte => "B",
            Primitive::Char => "C",
            Primitive::Double => "D",
            Primitive::Float => "F",
            Primitive::Int => "I",
            Primitive::Long => "J",
            Primitive::Short => "S",
            Primitive::Boolean => "Z",
        })
    }
}
