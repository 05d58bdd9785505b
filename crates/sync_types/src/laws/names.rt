//! What a name is.
ghost use Rattle.std.specs.Prelude.{◌≡◌, ◌==◌, ℕ, ◌<◌, true, false, List, [], ◌∷◌, length, codes, All};
ghost use Rattle.std.specs.List.{list_any};
ghost use Rattle.sync_types.specs.Name.{is_name};

/// The bytes that make a name: a letter begins one, and letters, digits and `_` go on with it.
pub fn names_are_of_letters_digits_and_underscores()
    ensures first { (byte : ℕ) → is_name (byte ∷ []) ≡ list_any (λ letter. byte == letter) (codes "abcdefghijklmnopqrstuvwxyz") }
    ensures later { (byte : ℕ) → is_name (97 ∷ byte ∷ []) ≡ list_any (λ letter. byte == letter) (codes "abcdefghijklmnopqrstuvwxyz0123456789_") }
{}

/// Which bytes are a name: 1 to 32, of which the first begins a name and each other goes on with one.
pub fn names_have_1_to_32_bytes()
    ensures none { is_name [] ≡ false }
    ensures only { (first : ℕ) (rest : List ℕ) → is_name (first ∷ rest) ≡ true
        → (is_name (first ∷ []) ≡ true) × All (λ byte. is_name (97 ∷ byte ∷ []) ≡ true) rest × (length rest < 32) }
    ensures every { (first : ℕ) (rest : List ℕ) → is_name (first ∷ []) ≡ true → All (λ byte. is_name (97 ∷ byte ∷ []) ≡ true) rest → length rest < 32
        → is_name (first ∷ rest) ≡ true }
{}
