//! Items of an iterator, as the calls that join them see them.
ghost use Rattle.std.specs.Prelude.{◌≡◌, ◌∷◌, ◌++◌, [], List, ℕ, codes};
ghost use Rattle.std.specs.Borrow.{Bor};
ghost use Rattle.inlinable_string.specs.Joins.{text_of_chars, text_of_char_refs, text_of_strs, text_of_strs_with, IsExtended, IsRefusedLast};
ghost use Rattle.inline_model.specs.Worked.{inline_text, heap_text};

/// The text of "a" and "é" as characters, as references, and as strings; an empty string adds
/// nothing.
#[tactic(auto, unfolding(crate::proofs::OnLiterals::on_literals))]
pub fn texts_of_items()
    ensures chars { text_of_chars (97 ∷ 233 ∷ []) ≡ 97 ∷ 233 ∷ [] }
    ensures refs { (c d : Bor ℕ) → c.now ≡ 97 → d.now ≡ 233
        → text_of_char_refs (c ∷ d ∷ []) ≡ 97 ∷ 233 ∷ [] }
    ensures strs { (r s t : Bor (List ℕ)) → r.now ≡ 97 ∷ [] → s.now ≡ [] → t.now ≡ 195 ∷ 169 ∷ []
        → text_of_strs (r ∷ s ∷ t ∷ []) ≡ 97 ∷ 233 ∷ [] }
{}

/// No string has no separator, and neither has one alone; of three, an empty one in the middle has
/// one on each side.
#[tactic(auto, unfolding(crate::proofs::OnLiterals::on_literals))]
pub fn texts_with_a_separator()
    ensures none { text_of_strs_with (codes ", ") [] ≡ [] }
    ensures one { (s : Bor (List ℕ)) → s.now ≡ 195 ∷ 169 ∷ []
        → text_of_strs_with (codes ", ") (s ∷ []) ≡ 233 ∷ [] }
    ensures three { (r s t : Bor (List ℕ)) → r.now ≡ 97 ∷ [] → s.now ≡ []
        → t.now ≡ 195 ∷ 169 ∷ [] → text_of_strs_with (codes ", ") (r ∷ s ∷ t ∷ [])
        ≡ codes "a, , " ++ 233 ∷ [] }
{}

/// "a" with a limit of two bytes stays inline with "b", and moves to the heap with "é"; "b" comes
/// after it, and not before it.
#[tactic(auto, unfolding(crate::proofs::OnLiterals::on_literals))]
pub fn text_with_one_item()
    ensures inline { IsExtended (inline_text (codes "a") 2) (codes "b")
        (inline_text (codes "ab") 2) }
    ensures heap { IsExtended (inline_text (codes "a") 2) (233 ∷ []) (heap_text (97 ∷ 233 ∷ []) 3) }
    ensures stayed { ¬ IsExtended (inline_text (codes "a") 2) (233 ∷ [])
        (inline_text (97 ∷ 233 ∷ []) 2) }
    ensures went { ¬ IsExtended (inline_text (codes "a") 2) (codes "b") (heap_text (codes "ab") 3) }
    ensures before { ¬ IsExtended (inline_text (codes "a") 2) (codes "b")
        (inline_text (codes "ba") 2) }
{}

/// "a" and then "bc" in room for two bytes: "c" may be refused once "b" is taken, and then "b" is
/// kept and "c" is not. "b" may not be refused, and in room for three bytes neither is.
pub fn refusal_of_the_last_item()
    ensures met { IsRefusedLast text_of_chars (inline_text (codes "a") 2) (codes "bc")
        (inline_text (codes "ab") 2) }
    ensures fits { ¬ IsRefusedLast text_of_chars (inline_text (codes "a") 2) (codes "b")
        (inline_text (codes "a") 2) }
    ensures room { ¬ IsRefusedLast text_of_chars (inline_text (codes "a") 3) (codes "bc")
        (inline_text (codes "ab") 3) }
    ensures lost { ¬ IsRefusedLast text_of_chars (inline_text (codes "a") 2) (codes "bc")
        (inline_text (codes "a") 2) }
    ensures kept { ¬ IsRefusedLast text_of_chars (inline_text (codes "a") 2) (codes "bc")
        (heap_text (codes "abc") 3) }
    ensures none { ¬ IsRefusedLast text_of_chars (inline_text (codes "a") 0) []
        (inline_text (codes "a") 0) }
{}
