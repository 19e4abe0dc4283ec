//! Laws of the grammar, each the contract of a function that does nothing.
ghost use Rattle.std.specs.Prelude.{◌≡◌, ◌↔◌, ℕ, List, Ok};
ghost use Rattle.cl_classfile.specs.Structure.{Structure, AreBytes, Fits, KeepsTables, Spells, spelling};
ghost use Rattle.cl_classfile.specs.Checking.{parts_of};
ghost use Rattle.cl_classfile.specs.Reading.{read_of};

/// Bytes spell at most one class file.
pub fn spells_one_file()
    ensures { (bytes : List ℕ) (f g : Structure) → Spells bytes f → Spells bytes g → f ≡ g }
{}

/// A class file that fits its widths and keeps the tables has one spelling.
pub fn has_one_spelling()
    ensures some { (f : Structure) → Fits f → KeepsTables f → (bytes : List ℕ) × Spells bytes f }
    ensures one { (f : Structure) (bytes other : List ℕ) → Spells bytes f → Spells other f
        → bytes ≡ other }
{}

/// Parts pass their tests exactly where some bytes spell them. Where their widths can say them, they have the fault that
/// their bytes have.
pub fn parts_are_spelled()
    ensures same { (f g : Structure) → parts_of f ≡ Ok g → f ≡ g }
    ensures spelled { (f : Structure) → (parts_of f ≡ Ok f) ↔ ((bytes : List ℕ) × Spells bytes f) }
    ensures as_read { (f : Structure) → Fits f → parts_of f ≡ read_of (spelling f) }
{}

/// The reader of lists, by which contracts say what is read and which fault comes first, finds in bytes the file that they
/// spell, and no other: to say that it gives a file is to say that they spell the file.
pub fn reading_finds_what_is_spelled()
    ensures found { (bytes : List ℕ) (f : Structure) → AreBytes bytes → read_of bytes ≡ Ok f
        → Spells bytes f }
    ensures all { (bytes : List ℕ) (f : Structure) → Spells bytes f → read_of bytes ≡ Ok f }
{}
