//! Lemmas on UTF-16, on lossy reading and on what `into_bytes` returns.
ghost use Rattle.std.specs.Prelude.{◌≡◌, ◌↔◌, ℕ, ◌<◌, ◌≤◌, ◌^◌, List, ◌++◌, ◌∷◌, length, take, drop, true, Some, IsUtf8, All};
ghost use Rattle.std.specs.Char.{IsScalar, encode_utf8};
ghost use Rattle.std.specs.Str.{chars, all_scalars, StartsWithNoChar};
ghost use Rattle.inlinable_string.specs.Utf16.{units_of, HasUnpaired, lossy_utf16};
ghost use Rattle.inlinable_string.specs.Lossy.{subpart_len, lossy_utf8};
ghost use Rattle.inlinable_string.specs.Text.{bytes_of};

/// Units of which none is unpaired are those of the text that they are read as; units of which one
/// is unpaired are those of no text.
#[tactic(auto, using(crate::proofs::Units::paired_units))]
pub fn paired_units_are_texts()
    ensures text { (v : List ℕ) → All (λ unit. unit < 2 ^ 16) v → ¬ (HasUnpaired v)
        → units_of (lossy_utf16 v) ≡ v }
    ensures paired { (t : List ℕ) → all_scalars t ≡ true → ¬ (HasUnpaired (units_of t)) }
{}

/// Lossy reading goes on by itself after a character, which is read, and after the maximal subpart,
/// for which U+FFFD is read, where no character begins. UTF-8 is read as the text that it is.
#[tactic(auto, using(crate::proofs::Subparts::lossy_parts))]
pub fn lossy_reading_is_by_parts()
    ensures character { (c : ℕ) (rest : List ℕ) → IsScalar c
        → lossy_utf8 (encode_utf8 c ++ rest) ≡ c ∷ lossy_utf8 rest }
    ensures subpart { (bs : List ℕ) → 0 < length bs → StartsWithNoChar bs
        → lossy_utf8 bs ≡ 0xFFFD ∷ lossy_utf8 (drop (subpart_len bs) bs) }
    ensures utf8 { (bs : List ℕ) → IsUtf8 bs → lossy_utf8 bs ≡ chars bs }
{}

/// The table of the bytes that follow has the code of each character, and ends with it. A maximal
/// subpart of more than one byte begins the code of some character, and no longer prefix does.
pub fn subparts_are_maximal()
    ensures character { (c : ℕ) (rest : List ℕ) → IsScalar c
        → subpart_len (encode_utf8 c ++ rest) ≡ length (encode_utf8 c) }
    ensures begins { (bs : List ℕ) → 1 < subpart_len bs
        → (c : ℕ) × (rest : List ℕ) × IsScalar c
        × (encode_utf8 c ≡ take (subpart_len bs) bs ++ rest) }
    ensures longest { (bs : List ℕ) (n c : ℕ) (rest : List ℕ) → n ≤ length bs → IsScalar c
        → encode_utf8 c ≡ take n bs ++ rest → n ≤ subpart_len bs }
{}

/// The UTF-16 of a text is read as that text: so no other text has these units.
pub fn utf16_is_read_as_it_is()
    ensures read { (t : List ℕ) → all_scalars t ≡ true → lossy_utf16 (units_of t) ≡ t }
    ensures told { (t u : List ℕ) → all_scalars t ≡ true → all_scalars u ≡ true
        → units_of t ≡ units_of u → t ≡ u }
{}

/// The bytes of a text are UTF-8, and those of that text alone: so `from_utf8` of what `into_bytes`
/// returned succeeds, and gives the same text.
#[tactic(auto, using(crate::proofs::Text::parts))]
pub fn bytes_give_the_text_back()
    ensures utf8 { (t bs : List ℕ) → all_scalars t ≡ true → bs ≡ bytes_of t → IsUtf8 bs }
    ensures text { (t : List ℕ) → all_scalars t ≡ true → chars (bytes_of t) ≡ t }
{}
