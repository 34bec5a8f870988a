//! How texts are split and joined at byte offsets, and their last characters.
ghost use Rattle.std.specs.Prelude.{◌≡◌, ◌∷◌, [], List, ℕ, Some, None, codes};
ghost use Rattle.inlinable_string.specs.Text.{bytes_of, IsCut, IsPlace, IsSplice, IsRemoval, with_first};
ghost use Rattle.inlinable_string.specs.Edit.{split_last, with_char_in_front};

/// The UTF-8 of "aé€" and of the G clef.
#[tactic(auto, unfolding(crate::proofs::OnLiterals::on_literals))]
pub fn bytes_of_each_width()
    ensures { bytes_of (97 ∷ 233 ∷ 8364 ∷ 119070 ∷ [])
        ≡ 97 ∷ 195 ∷ 169 ∷ 226 ∷ 130 ∷ 172 ∷ 240 ∷ 157 ∷ 132 ∷ 158 ∷ [] }
{}

/// "éa" falls into "é" and "a" at 2, the size of é, and nowhere else; and into no other two texts.
#[tactic(auto, unfolding(crate::proofs::OnLiterals::on_literals))]
pub fn cut_of_two_characters()
    ensures met { IsCut (233 ∷ 97 ∷ []) 2 (233 ∷ []) (97 ∷ []) }
    ensures inside { ¬ IsCut (233 ∷ 97 ∷ []) 1 (233 ∷ []) (97 ∷ []) }
    ensures past { ¬ IsCut (233 ∷ 97 ∷ []) 3 (233 ∷ []) (97 ∷ []) }
    ensures before { ¬ IsCut (233 ∷ 97 ∷ []) 2 (98 ∷ []) (97 ∷ []) }
    ensures behind { ¬ IsCut (233 ∷ 97 ∷ []) 2 (233 ∷ []) (98 ∷ []) }
{}

/// The places of "é" are 0 and 2: 1 is inside.
pub fn places_of_one_character()
    ensures start { IsPlace (233 ∷ []) 0 }
    ensures inside { ¬ IsPlace (233 ∷ []) 1 }
    ensures end { IsPlace (233 ∷ []) 2 }
{}

/// "b" inserted into "é" at 2 makes "éb".
pub fn splice_of_one_character()
    ensures met { IsSplice (233 ∷ []) 2 (98 ∷ []) (233 ∷ 98 ∷ []) }
{}

/// From "éb" the b is removed at 2 and leaves "é", and the é is removed at 0.
pub fn removal_of_one_character()
    ensures met { IsRemoval (233 ∷ 98 ∷ []) 2 98 (233 ∷ []) }
    ensures first { IsRemoval (233 ∷ 98 ∷ []) 0 233 (98 ∷ []) }
{}

/// A character goes before the first of two parts, where there are any.
pub fn first_of_two_parts()
    ensures parts { with_first 97 (Some (codes "b", codes "c"))
        ≡ Some (codes "ab", codes "c") }
    ensures none { with_first 97 None ≡ None }
{}

/// "abc" is "ab" and then c; a character before no text is the last, and before another it is not.
pub fn last_of_three_characters()
    ensures three { split_last (codes "abc") ≡ Some (codes "ab", 99) }
    ensures none { split_last [] ≡ None }
    ensures before_none { with_char_in_front 97 None ≡ ([], 97) }
    ensures before_some { with_char_in_front 97 (Some (codes "b", 99)) ≡ (codes "ab", 99) }
{}
