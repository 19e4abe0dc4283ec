//! Worked examples, computed from the definitions.
ghost use Rattle.std.specs.Prelude.{◌≡◌, ℕ, [], codes};
ghost use Rattle.cl_lines.specs.Numbers.{WritesNumber};
ghost use Rattle.cl_lines.specs.declared.number.TheConstants.{MOST_NUMBER};

/// A number is one to five digits, leading zeros among them, of at most `MOST_NUMBER`.
pub fn numbers()
    // Those that are taken.
    ensures none { WritesNumber (codes "0") 0 }
    ensures zeros { WritesNumber (codes "00017") 17 }
    ensures greatest { WritesNumber (codes "65535") 65535 }
    // Those that are none.
    ensures too_great { (n : ℕ) → WritesNumber (codes "65536") n → ⊥ }
    ensures too_long { (n : ℕ) → WritesNumber (codes "000001") n → ⊥ }
    ensures sign { (n : ℕ) → WritesNumber (codes "+1") n → ⊥ }
    ensures hexadecimal { (n : ℕ) → WritesNumber (codes "1f") n → ⊥ }
    ensures empty { (n : ℕ) → WritesNumber [] n → ⊥ }
    // The limit.
    ensures most { MOST_NUMBER ≡ 65535 }
{}
