//! Numbers of two bytes, as words write them.

ghost use Rattle.std.specs.Prelude.{ℕ, MatchOption};
ghost use Rattle.cl_lines.specs.Numbers.{WritesNumber};

/// The greatest number that a word of a script or of an assembler text writes: an index of a constant pool, or a
/// part of a version, takes two bytes of a class file (JVMS SE 8, 4.1).
pub const MOST_NUMBER: u16 = 65_535;

/// The number that a word writes: one to five digits, of at most `MOST_NUMBER`.
pub fn number_of(word: &str) -> Option<u16>
    ensures { MatchOption result ((n : ℕ) → WritesNumber word.now n → ⊥)
        (λ n. WritesNumber word.now n) }
{
    if word.len() > 5 || word.as_bytes().first() == Some(&b'+') {
        return None;
    }
    word.parse::<u16>().ok()
}
