//! Laws of descriptors: each is the contract of a function that does nothing.

ghost use Rattle.std.specs.Prelude.{◌≡◌, ◌↔◌, ℕ, List, Some, IsTrue};
ghost use Rattle.cl_descriptors.specs.declared.types.FieldType.{FieldType};
ghost use Rattle.cl_descriptors.specs.declared.types.MethodType.{MethodType};
ghost use Rattle.cl_descriptors.specs.declared.limits.TheConstants.{MOST_DIMENSIONS, MOST_UNITS};
ghost use Rattle.cl_descriptors.specs.Types.{SpellsField, SpellsMethod};
ghost use Rattle.cl_descriptors.specs.Reading.{whole_field, whole_method};
ghost use Rattle.cl_descriptors.specs.contracts.types.FieldTypePartialEq.TheImpl as fields;
ghost use Rattle.cl_descriptors.specs.contracts.types.MethodTypePartialEq.TheImpl as methods;

/// A field type has one spelling, which is that of no other; reading finds the type exactly where the bytes spell it.
pub fn one_field_spelling()
    ensures one { (bytes : List ℕ) (s t : FieldType) → SpellsField bytes s → SpellsField bytes t
        → s ≡ t }
    ensures read { (bytes : List ℕ) (t : FieldType) → (whole_field bytes ≡ Some t)
        ↔ SpellsField bytes t }
{}

/// A method type has one spelling, which is that of no other; reading finds the type exactly where the bytes spell it.
pub fn one_method_spelling()
    ensures one { (bytes : List ℕ) (m n : MethodType) → SpellsMethod bytes m → SpellsMethod bytes n
        → m ≡ n }
    ensures read { (bytes : List ℕ) (m : MethodType) → (whole_method bytes ≡ Some m)
        ↔ SpellsMethod bytes m }
{}

/// Two types are equal by `==` exactly where they are the same.
pub fn equal_types_are_the_same()
    ensures fields { (s t : FieldType) → IsTrue (fields.ghosts.eq s t) ↔ (s ≡ t) }
    ensures methods { (m n : MethodType) → IsTrue (methods.ghosts.eq m n) ↔ (m ≡ n) }
{}

/// The limits in numbers: definitions and code speak of them by name.
pub fn limits()
    ensures dimensions { MOST_DIMENSIONS ≡ 255 }
    ensures units { MOST_UNITS ≡ 255 }
{}
