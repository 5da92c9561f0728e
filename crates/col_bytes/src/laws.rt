//! Laws of the spellings.

ghost use Rattle.std.specs.Prelude.{◌≡◌, ◌<◌, ◌^◌, ◌++◌, ◌↔◌, ℕ, ℤ, List, length, Some, FitsSigned};
ghost use Rattle.std.specs.Int.{w64};
ghost use Rattle.col_bytes.specs.Spellings.{vint, be8, be4, text, IsVint};
ghost use Rattle.col_bytes.specs.Fronts.{vint_at, be8_at, be4_at, text_at};

/// What was written is read again, whatever follows it.
pub fn read_again()
    ensures vint { (n : ℕ) (rest : List ℕ) → n < 2 ^ 64 → vint_at (vint n ++ rest) ≡ Some (n, rest) }
    ensures be8 { (n : ℤ) (rest : List ℕ) → FitsSigned w64 n → be8_at (be8 n ++ rest) ≡ Some (n, rest) }
    ensures be4 { (n : ℕ) (rest : List ℕ) → n < 2 ^ 32 → be4_at (be4 n ++ rest) ≡ Some (n, rest) }
    ensures text { (t rest : List ℕ) → length t < 2 ^ 64 → text_at (text t ++ rest) ≡ Some (t, rest) }
{}

/// No spelling begins another, and two values have two spellings.
pub fn one_form()
    ensures vint { (a b : ℕ) (x y : List ℕ) → a < 2 ^ 64 → b < 2 ^ 64 → vint a ++ x ≡ vint b ++ y → (a ≡ b) × (x ≡ y) }
    ensures be8 { (a b : ℤ) (x y : List ℕ) → FitsSigned w64 a → FitsSigned w64 b → be8 a ++ x ≡ be8 b ++ y → (a ≡ b) × (x ≡ y) }
    ensures be4 { (a b : ℕ) (x y : List ℕ) → a < 2 ^ 32 → b < 2 ^ 32 → be4 a ++ x ≡ be4 b ++ y → (a ≡ b) × (x ≡ y) }
    ensures text { (a b x y : List ℕ) → length a < 2 ^ 64 → length b < 2 ^ 64 → text a ++ x ≡ text b ++ y → (a ≡ b) × (x ≡ y) }
{}

/// The bytes of a number are its LEB128 in shortest form, and no others are.
pub fn shortest()
    ensures { (bytes : List ℕ) (n : ℕ) → n < 2 ^ 64 → IsVint bytes n ↔ (bytes ≡ vint n) }
{}
