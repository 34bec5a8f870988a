//! What commands do to texts, and what they answer.
ghost use Rattle.std.specs.Prelude.{◌≡◌, ◌∷◌, ◌++◌, [], List, ℕ, Some, None, codes};
ghost use Rattle.std.specs.Str.{chars};
ghost use Rattle.inlinable_string.specs.Text.{size, cut};
ghost use Rattle.inlinable_string.specs.Edit.{Outcome, becomes, yields, has_no_char, has_no_place, is_not_utf8, has_wrong_length, reply_of, text_left, edit};

use inlinable_string::run::{Command, Reply};

/// "aé" has three bytes and the places 0, 1 and 3: 2 is inside é, and 4 is past the end.
#[tactic(auto, unfolding(crate::proofs::OnLiterals::on_literals))]
pub fn places_of_two_characters()
    ensures bytes { size (97 ∷ 233 ∷ []) ≡ 3 }
    ensures start { cut (97 ∷ 233 ∷ []) 0 ≡ Some ([], 97 ∷ 233 ∷ []) }
    ensures between { cut (97 ∷ 233 ∷ []) 1 ≡ Some (97 ∷ [], 233 ∷ []) }
    ensures inside { cut (97 ∷ 233 ∷ []) 2 ≡ None }
    ensures end { cut (97 ∷ 233 ∷ []) 3 ≡ Some (97 ∷ 233 ∷ [], []) }
    ensures past { cut (97 ∷ 233 ∷ []) 4 ≡ None }
{}

/// Each outcome has its own reply.
pub fn replies_of_outcomes()
    ensures done { (v : List ℕ) → reply_of (becomes v) ≡ Reply.Done }
    ensures char { (c : ℕ) (v : List ℕ) → reply_of (yields c v) ≡ Reply.Char c }
    ensures no_char { reply_of has_no_char ≡ Reply.NoChar }
    ensures bad_place { reply_of has_no_place ≡ Reply.BadPlace }
    ensures not_utf8 { reply_of is_not_utf8 ≡ Reply.NotUtf8 }
    ensures wrong_length { reply_of has_wrong_length ≡ Reply.WrongLength }
{}

/// A command that is carried out leaves its own text, and one that is refused the text before it.
pub fn texts_left_by_outcomes()
    ensures done { (t v : List ℕ) → text_left t (becomes v) ≡ v }
    ensures char { (t : List ℕ) (c : ℕ) (v : List ℕ) → text_left t (yields c v) ≡ v }
    ensures no_char { (t : List ℕ) → text_left t has_no_char ≡ t }
    ensures bad_place { (t : List ℕ) → text_left t has_no_place ≡ t }
    ensures not_utf8 { (t : List ℕ) → text_left t is_not_utf8 ≡ t }
    ensures wrong_length { (t : List ℕ) → text_left t has_wrong_length ≡ t }
{}

/// "é", truncated at 1, inside it, or at 3, past its end, is unchanged; at 2 it is kept whole.
#[tactic(auto, unfolding(crate::proofs::OnLiterals::on_literals))]
pub fn truncate_of_one_character()
    ensures inside { edit (233 ∷ []) (Command.Truncate 1) ≡ has_no_place }
    ensures end { edit (233 ∷ []) (Command.Truncate 2) ≡ becomes (233 ∷ []) }
    ensures past { edit (233 ∷ []) (Command.Truncate 3) ≡ has_no_place }
{}

/// A text can be truncated at 0.
pub fn truncate_at_the_start()
    ensures all { edit (codes "hi") (Command.Truncate 0) ≡ becomes [] }
    ensures empty { edit [] (Command.Truncate 0) ≡ becomes [] }
{}

/// Of "hi" the i is taken off; of the empty text no character.
pub fn pop_of_two_texts()
    ensures last { edit (codes "hi") Command.Pop ≡ yields 105 (codes "h") }
    ensures none { edit [] Command.Pop ≡ has_no_char }
{}

/// The G clef put at the end of "a".
pub fn push_of_a_clef()
    ensures { edit (97 ∷ []) (Command.Push 119070) ≡ becomes (97 ∷ 119070 ∷ []) }
{}

/// Of "aé" the é is taken out at 1, and "a" is left; at 1, its end, no character begins.
pub fn remove_of_the_last_character()
    ensures last { edit (97 ∷ 233 ∷ []) (Command.Remove 1) ≡ yields 233 (97 ∷ []) }
    ensures end { edit (97 ∷ []) (Command.Remove 1) ≡ has_no_place }
{}

/// € put into "aé" between its characters is taken out again at 1, but not at 2, inside it.
#[tactic(auto, unfolding(crate::proofs::OnLiterals::on_literals))]
pub fn euro_put_in_and_taken_out()
    ensures put_in { edit (97 ∷ 233 ∷ []) (Command.Insert 1 8364)
        ≡ becomes (97 ∷ 8364 ∷ 233 ∷ []) }
    ensures inside { edit (97 ∷ 8364 ∷ 233 ∷ []) (Command.Remove 2)
        ≡ has_no_place }
    ensures taken_out { edit (97 ∷ 8364 ∷ 233 ∷ []) (Command.Remove 1)
        ≡ yields 8364 (97 ∷ 233 ∷ []) }
{}

/// The characters of a string put at the end of any text, and into "foo" at 2.
#[tactic(auto, unfolding(crate::proofs::OnLiterals::on_literals))]
pub fn strings_put_in(string: &str)
    ensures push { (t : List ℕ) → edit t (Command.PushStr string.entry)
        ≡ becomes (t ++ chars string.now) }
    ensures insert { edit (codes "foo") (Command.InsertStr 2 string.entry)
        ≡ becomes (codes "fo" ++ chars string.now ++ codes "o") }
{}

/// Of any text nothing is left.
pub fn clear_of_any_text()
    ensures { (t : List ℕ) → edit t Command.Clear ≡ becomes [] }
{}

/// The two bytes of "é" are replaced by two bytes that are UTF-8, and by no others: one byte is of
/// the wrong number, though it is not UTF-8 either.
#[tactic(auto, unfolding(crate::proofs::OnLiterals::on_literals))]
pub fn replace_of_two_bytes(one: &[u8], broken: &[u8], letters: &[u8])
    requires one { one.now ≡ 255 ∷ [] }
    requires broken { broken.now ≡ 195 ∷ 97 ∷ [] }
    requires letters { letters.now ≡ codes "ab" }
    ensures wrong_length { edit (233 ∷ []) (Command.ReplaceBytes one.entry)
        ≡ has_wrong_length }
    ensures not_utf8 { edit (233 ∷ []) (Command.ReplaceBytes broken.entry)
        ≡ is_not_utf8 }
    ensures done { edit (233 ∷ []) (Command.ReplaceBytes letters.entry)
        ≡ becomes (codes "ab") }
{}

/// Room is reserved and given back without a change of the text.
pub fn room_leaves_the_text()
    ensures reserve { (t : List ℕ) → (n : ℕ) → edit t (Command.Reserve n) ≡ becomes t }
    ensures exact { (t : List ℕ) → (n : ℕ)
        → edit t (Command.ReserveExact n) ≡ becomes t }
    ensures shrink { (t : List ℕ) → edit t Command.ShrinkToFit ≡ becomes t }
{}
