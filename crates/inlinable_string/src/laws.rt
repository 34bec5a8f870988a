//! Lemmas: calling one does nothing at run time, but its clauses are then known in the caller's
//! proof. Those of this file are on places and sizes.
ghost use Rattle.std.specs.Prelude.{◌≡◌, ◌↔◌, Some, IsSome, Bool, true, false, ℕ, ◌+◌, ◌-◌, ◌*◌, ◌≤◌, List, ◌++◌, [], ◌∷◌, length, take, drop, filter, fold, replicate, IsUtf8};
ghost use Rattle.std.specs.Borrow.{Bor};
ghost use Rattle.std.specs.Char.{encode_utf8, is_ascii};
ghost use Rattle.std.specs.Fn.{Called};
ghost use Rattle.std.specs.List.{list_all, remove_range, replace_range, slice_range};
ghost use Rattle.std.specs.Str.{chars, IsCharBoundary};
ghost use Rattle.inlinable_string.specs.Text.{bytes_of, size, cut, IsCut, IsPlace, IsSplice, IsRemoval};
ghost use Rattle.inlinable_string.specs.Joins.{text_of_strs, text_of_strs_with};
ghost use Rattle.inlinable_string.specs.Ranges.{IsRangeReplaced, IsDrained};
ghost use Rattle.inlinable_string.specs.Retained.{IsRetained, Tests};
ghost use Rattle.inlinable_string.specs.Values.{inlinable_state};

use crate::inlinable_string::InlinableStringN;
use crate::inline_string::InlineStringN;
use crate::string_ext::Storage;
use std::alloc::Global;
use std::default::{Emptied, MadeWith};

mod borrowed;
mod compared;
mod conversions;
mod encodings;
mod json;
mod printed;
mod runs;

pub use borrowed::{
    items_are_joined, loops_go_over_the_text, strings_that_fit_are_added, texts_lend_their_bytes,
};
pub use compared::{
    copies_are_alike, equality_is_that_of_texts, hashes_are_those_of_the_str,
    order_is_that_of_the_bytes,
};
pub use conversions::{
    alloc_errors_are_no_memory, boxed_as_it_is, conversions_succeed_where_it_fits, strings_convert,
};
pub use encodings::{
    bytes_give_the_text_back, lossy_reading_is_by_parts, paired_units_are_texts,
    subparts_are_maximal, utf16_is_read_as_it_is,
};
pub use json::json_gives_the_text_back;
pub use printed::{printing_is_that_of_the_str, writing_appends};
pub use runs::{
    a_second_run_goes_on, cut_decides_places, each_reply_is_legal_in_its_turn,
    each_text_has_its_own_run, edits_are_done_at_places, growths_add_their_bytes,
    insertions_are_splices, outcomes_are_told_by_reply_and_text, pop_takes_off_the_last_character,
    refusals_change_nothing, refusals_determine_the_run, remove_is_a_removal, remove_undoes_insert,
    replacement_has_the_bytes, reserved_pushes_never_fail, runs_join, short_runs_are_edits,
    short_runs_are_short_at_each_command, short_runs_never_ask, texts_are_told_by_their_bytes,
    truncations_are_cuts, unrefused_runs_are_edits,
};

/// A place is at most the length, and a boundary of the bytes.
#[tactic(auto, using(crate::proofs::Cut::places_of_bytes))]
pub fn places_are_boundaries()
    ensures within { (t : List ℕ) (p : ℕ) → IsPlace t p → p ≤ size t }
    ensures boundaries { (t bs : List ℕ) (p : ℕ) → IsPlace t p → IsUtf8 bs → bs ≡ bytes_of t
        → IsCharBoundary bs p }
{}

/// Where a front of the bytes that is UTF-8 ends, there is a place.
pub fn fronts_end_at_places()
    ensures taken { (t bs xs : List ℕ) (n : ℕ) → IsUtf8 bs → bs ≡ bytes_of t → IsUtf8 xs
        → xs ≡ take n bs → length xs ≡ n → IsPlace t (length xs) }
    ensures split { (t bs xs ys : List ℕ) (n : ℕ) → IsUtf8 bs → bs ≡ bytes_of t → IsUtf8 xs
        → take n bs ≡ xs ++ ys → IsPlace t (length xs) }
{}

/// The ends of what was put in, and the edges of what was taken out, are places.
pub fn edits_leave_places()
    ensures before { (t u v : List ℕ) (p : ℕ) → IsSplice t p u v → IsPlace v p }
    ensures behind { (t u v : List ℕ) (p : ℕ) → IsSplice t p u v → IsPlace v (p + size u) }
    ensures removed { (t v : List ℕ) (p c : ℕ) → IsRemoval t p c v → IsPlace v p }
{}

/// What is inserted at the start comes before the text, and at the end after it.
pub fn splices_at_the_ends()
    ensures start { (t u v : List ℕ) → IsSplice t 0 u v → v ≡ u ++ t }
    ensures end { (t u v : List ℕ) → IsSplice t (size t) u v → v ≡ t ++ u }
{}

/// What `replace_range` leaves: the same of the bytes, of an empty range an insertion, and of the
/// whole text the new one.
pub fn replaced_ranges_are_those_of_bytes()
    ensures bytes { (t u v : List ℕ) (p q : ℕ) → IsRangeReplaced t p q u v
        → bytes_of v ≡ replace_range (bytes_of t) p q (bytes_of u) }
    ensures inserted { (t u v : List ℕ) (p : ℕ) → IsRangeReplaced t p p u v ↔ IsSplice t p u v }
    ensures whole { (t u v : List ℕ) → IsRangeReplaced t 0 (size t) u v → v ≡ u }
{}

/// What `drain` takes out and what it leaves are those ranges of the bytes.
pub fn drained_parts_are_those_of_bytes()
    ensures part { (t u v : List ℕ) (p q : ℕ) → IsDrained t p q u v
        → bytes_of u ≡ slice_range (bytes_of t) p q }
    ensures left { (t u v : List ℕ) (p q : ℕ) → IsDrained t p q u v
        → bytes_of v ≡ remove_range (bytes_of t) p q }
{}

/// What `retain` leaves: the characters at which the closure returns true, called at each in turn.
/// If it always returns what a test does, these are what `filter` keeps.
pub fn retained_characters_pass<F: FnMut(char) -> bool>()
    ensures filtered { (f : F) (t v : List ℕ) (test : ℕ → Bool) → Tests F.FnMut f test
        → IsRetained F.FnMut f t v → v ≡ filter test t }
    ensures kept { (f g : F) (c : ℕ) (t v : List ℕ) → Called F.FnMut f (c, tt) true g
        → IsRetained F.FnMut g t v → IsRetained F.FnMut f (c ∷ t) (c ∷ v) }
    ensures dropped { (f g : F) (c : ℕ) (t v : List ℕ) → Called F.FnMut f (c, tt) false g
        → IsRetained F.FnMut g t v → IsRetained F.FnMut f (c ∷ t) v }
{}

/// A cut of the text is a cut of its bytes.
pub fn cuts_are_cuts_of_bytes()
    ensures { (t bs a b : List ℕ) (p : ℕ) → IsCut t p a b → IsUtf8 bs → bs ≡ bytes_of t
        → (a ≡ chars (take p bs)) × (b ≡ chars (drop p bs)) }
{}

/// After the first bytes of a string comes a rest. Of a text that is cut, they are the bytes of
/// the part before the place.
#[tactic(auto, using(crate::proofs::Cut::fronts))]
pub fn fronts_have_rests()
    ensures rest { (bs : List ℕ) (n : ℕ) → take n bs ++ drop n bs ≡ bs }
    ensures bytes { (t a b : List ℕ) (p : ℕ) → IsCut t p a b → bytes_of a ≡ take p (bytes_of t) }
{}

/// A text in two parts is cut between them: so it has one front of each size.
#[tactic(auto, using(crate::proofs::Cut::cut_joined))]
pub fn parts_are_told_by_their_size()
    ensures { (a b : List ℕ) → cut (a ++ b) (size a) ≡ Some (a, b) }
{}

/// A text is cut exactly at its places: its start and its end are two of them.
pub fn cuts_are_at_places()
    ensures places { (t : List ℕ) (p : ℕ) → IsSome (cut t p) ↔ IsPlace t p }
    ensures start { (t : List ℕ) → cut t 0 ≡ Some ([], t) }
    ensures end { (t : List ℕ) → cut t (size t) ≡ Some (t, []) }
{}

/// The character that an iterator over a `&str` steps over is the first of its text, or the last.
#[tactic(auto, using(crate::proofs::Text::one_step))]
pub fn steps_are_over_characters()
    ensures front { (bs rest : List ℕ) (c : ℕ) → IsUtf8 bs → IsUtf8 rest
        → bs ≡ encode_utf8 c ++ rest → chars bs ≡ c ∷ chars rest }
    ensures back { (bs rest : List ℕ) (c : ℕ) → IsUtf8 bs → IsUtf8 rest
        → bs ≡ rest ++ encode_utf8 c → chars bs ≡ chars rest ++ c ∷ [] }
{}

/// The bytes of a text in two parts are those of the first and then those of the second, and the
/// bytes of the text of a `&str` are its own.
#[tactic(auto, using(crate::proofs::Text::parts))]
pub fn bytes_of_parts()
    ensures joined { (a b : List ℕ) → bytes_of (a ++ b) ≡ bytes_of a ++ bytes_of b }
    ensures string { (bs : List ℕ) → IsUtf8 bs → bytes_of (chars bs) ≡ bs }
{}

/// The items of `chars` are the characters of its `&str`: no other text has the same bytes.
#[tactic(auto, using(crate::proofs::Text::parts))]
pub fn items_are_the_characters()
    ensures { (bs cs : List ℕ) → IsUtf8 bs → bytes_of cs ≡ bs → cs ≡ chars bs }
{}

/// ASCII bytes are their own characters, and those their own bytes: so is a literal.
#[tactic(auto, using(crate::proofs::Text::ascii_chars, crate::proofs::Text::ascii_bytes))]
pub fn ascii_is_its_own_characters()
    ensures characters { (bs : List ℕ) → list_all is_ascii bs ≡ true → chars bs ≡ bs }
    ensures bytes { (bs : List ℕ) → list_all is_ascii bs ≡ true → bytes_of bs ≡ bs }
{}

/// How many bytes a text in two parts has, a character at most, and the text of a `&str`.
#[tactic(auto, using(crate::proofs::Text::sizes))]
pub fn sizes_of_parts()
    ensures joined { (a b : List ℕ) → size (a ++ b) ≡ size a + size b }
    ensures character { (c : ℕ) → size (c ∷ []) ≤ 4 }
    ensures string { (bs : List ℕ) → IsUtf8 bs → size (chars bs) ≡ length bs }
{}

/// The size of a text is the sum of those of its characters, or of the strings that it joins, with
/// a separator for each but the first; of `n` copies it is `n` times that of one.
#[tactic(auto, using(crate::proofs::Sizes::sums))]
pub fn sizes_are_sums()
    ensures characters { (t : List ℕ) → size t ≡ fold (λ n c. n + size (c ∷ [])) 0 t }
    ensures strs { (items : List (Bor (List ℕ))) → size (text_of_strs items)
        ≡ fold (λ n s. n + size (chars s.now)) 0 items }
    ensures separated { (separator : List ℕ) (items : List (Bor (List ℕ)))
        → size (text_of_strs_with separator items)
        ≡ fold (λ n s. n + (size separator + size (chars s.now))) 0 items - size separator }
    ensures copies { (n c : ℕ) → size (replicate n c) ≡ n * size (c ∷ []) }
{}

/// `Default`, `or_default` of a map, and `mem::try_take` leave the empty text, stored inline.
pub fn default_texts_are_empty<const N: usize>()
    ensures default { (text : List ℕ)
        → ⟦<InlineStringN<N> as Default>⟧.is_default text ↔ (text ≡ []) }
    ensures made { (text : InlinableStringN N)
        → ⟦<InlinableStringN<N> as MadeWith<Global>>⟧.is_made_with text
        ↔ (((inlinable_state N text).text ≡ [])
        × ((inlinable_state N text).storage ≡ Storage.Inline)) }
    ensures left { (text : InlinableStringN N)
        → ⟦<InlinableStringN<N> as Emptied>⟧.is_emptied text
        ↔ (((inlinable_state N text).text ≡ [])
        × ((inlinable_state N text).storage ≡ Storage.Inline)) }
{}
