//! What units of UTF-16 and bytes are read as.
ghost use Rattle.std.specs.Prelude.{◌≡◌, ◌∷◌, [], true, false};
ghost use Rattle.inlinable_string.specs.Utf16.{units_of, is_high_at, is_low_at, is_high_before, is_unpaired, HasUnpaired, lossy_unit, lossy_utf16_before, lossy_utf16};
ghost use Rattle.inlinable_string.specs.Utf16Count.{unit_len, len_before, mismatches_before};
ghost use Rattle.inlinable_string.specs.Lossy.{following, count_in, subpart_len, char_len, lossy_utf8_past, lossy_utf8};

/// A character below U+10000 is one unit, and each other one is two: the last of one unit, the
/// first and the last of two.
pub fn units_of_each_width()
    ensures none { units_of [] ≡ [] }
    ensures music { units_of (0x1D11E ∷ 0x6D ∷ 0x75 ∷ 0x73 ∷ 0x69 ∷ 0x63 ∷ [])
        ≡ 0xD834 ∷ 0xDD1E ∷ 0x6D ∷ 0x75 ∷ 0x73 ∷ 0x69 ∷ 0x63 ∷ [] }
    ensures accented { units_of (0xE9 ∷ 0x20AC ∷ []) ≡ 0xE9 ∷ 0x20AC ∷ [] }
    ensures edges { units_of (0xD7FF ∷ 0xE000 ∷ 0xFFFF ∷ 0x10000 ∷ 0x10FFFF ∷ [])
        ≡ 0xD7FF ∷ 0xE000 ∷ 0xFFFF ∷ 0xD800 ∷ 0xDC00 ∷ 0xDBFF ∷ 0xDFFF ∷ [] }
{}

/// A high surrogate is one from 0xD800 to 0xDBFF, and a low one from 0xDC00 to 0xDFFF; past the end
/// and before the start there is neither.
pub fn surrogates_at_their_edges()
    ensures below { is_high_at (0xD7FF ∷ []) 0 ≡ false }
    ensures first_high { is_high_at (0xD800 ∷ []) 0 ≡ true }
    ensures last_high { is_high_at (0xDBFF ∷ []) 0 ≡ true }
    ensures high_is_not_low { is_low_at (0xDBFF ∷ []) 0 ≡ false }
    ensures first_low { is_low_at (0xDC00 ∷ []) 0 ≡ true }
    ensures low_is_not_high { is_high_at (0xDC00 ∷ []) 0 ≡ false }
    ensures last_low { is_low_at (0xDFFF ∷ []) 0 ≡ true }
    ensures above { is_low_at (0xE000 ∷ []) 0 ≡ false }
    ensures past_the_end { is_low_at (0xD800 ∷ []) 1 ≡ false }
    ensures before_the_start { is_high_before (0xD800 ∷ []) 0 ≡ false }
    ensures before_the_second { is_high_before (0xD800 ∷ 0xDC00 ∷ []) 1 ≡ true }
{}

/// A pair, and surrogates without a partner: alone, turned round, and next to a pair.
pub fn units_told_by_their_neighbours()
    ensures pair_high { is_unpaired (0xD834 ∷ 0xDD1E ∷ []) 0 ≡ false }
    ensures pair_low { is_unpaired (0xD834 ∷ 0xDD1E ∷ []) 1 ≡ false }
    ensures letter { is_unpaired (0x61 ∷ []) 0 ≡ false }
    ensures high_alone { is_unpaired (0xD834 ∷ []) 0 ≡ true }
    ensures low_alone { is_unpaired (0xDD1E ∷ []) 0 ≡ true }
    ensures low_in_front { is_unpaired (0xDC00 ∷ 0xD800 ∷ []) 0 ≡ true }
    ensures high_behind { is_unpaired (0xDC00 ∷ 0xD800 ∷ []) 1 ≡ true }
    ensures high_before_a_pair { is_unpaired (0xD800 ∷ 0xD834 ∷ 0xDD1E ∷ []) 0 ≡ true }
    ensures low_behind_a_pair { is_unpaired (0xD834 ∷ 0xDD1E ∷ 0xDD1E ∷ []) 2 ≡ true }
    ensures past_the_end { is_unpaired (0xD834 ∷ []) 1 ≡ false }
{}

/// A pair gives its character at its high surrogate, and nothing at its low one.
pub fn what_each_unit_gives()
    ensures letter { lossy_unit (0x61 ∷ []) 0 ≡ 0x61 ∷ [] }
    ensures high { lossy_unit (0xD834 ∷ 0xDD1E ∷ []) 0 ≡ 0x1D11E ∷ [] }
    ensures low { lossy_unit (0xD834 ∷ 0xDD1E ∷ []) 1 ≡ [] }
    ensures unpaired { lossy_unit (0xD834 ∷ []) 0 ≡ 0xFFFD ∷ [] }
    ensures before_the_first { lossy_utf16_before (0x61 ∷ 0x62 ∷ []) 0 ≡ [] }
    ensures before_the_second { lossy_utf16_before (0x61 ∷ 0x62 ∷ []) 1 ≡ 0x61 ∷ [] }
{}

/// Units of which none is unpaired: the G clef and "music", and the first and last of two units.
pub fn units_that_are_paired()
    ensures none { lossy_utf16 [] ≡ [] }
    ensures music { lossy_utf16
        (0xD834 ∷ 0xDD1E ∷ 0x6D ∷ 0x75 ∷ 0x73 ∷ 0x69 ∷ 0x63 ∷ [])
        ≡ 0x1D11E ∷ 0x6D ∷ 0x75 ∷ 0x73 ∷ 0x69 ∷ 0x63 ∷ [] }
    ensures first { lossy_utf16 (0xD800 ∷ 0xDC00 ∷ []) ≡ 0x10000 ∷ [] }
    ensures last { lossy_utf16 (0xDBFF ∷ 0xDFFF ∷ []) ≡ 0x10FFFF ∷ [] }
{}

/// A list with a unit that is unpaired.
pub fn lists_with_an_unpaired_unit()
    ensures { HasUnpaired (0xDC00 ∷ 0xD800 ∷ []) }
{}

/// How many bytes of UTF-8 a unit counts for, at the ends of each range.
pub fn bytes_that_a_unit_counts_for()
    ensures one { unit_len 0x7F ≡ 1 }
    ensures two_first { unit_len 0x80 ≡ 2 }
    ensures two_last { unit_len 0x7FF ≡ 2 }
    ensures three_first { unit_len 0x800 ≡ 3 }
    ensures three_last { unit_len 0xFFFF ≡ 3 }
    ensures below { unit_len 0xD7FF ≡ 3 }
    ensures first_high { unit_len 0xD800 ≡ 2 }
    ensures last_low { unit_len 0xDFFF ≡ 2 }
    ensures above { unit_len 0xE000 ≡ 3 }
{}

/// The bytes of the G clef, of "é" and of "a" are four, two and one. A high surrogate is counted as
/// unpaired by the unit after it, and a low one by itself.
pub fn units_that_are_counted()
    ensures no_bytes { len_before (0x61 ∷ []) 0 ≡ 0 }
    ensures bytes { len_before (0xD834 ∷ 0xDD1E ∷ 0xE9 ∷ 0x61 ∷ []) 4 ≡ 7 }
    ensures no_unit { mismatches_before (0xDC00 ∷ []) 0 ≡ 0 }
    ensures letter { mismatches_before (0x61 ∷ []) 1 ≡ 0 }
    ensures pair { mismatches_before (0xD834 ∷ 0xDD1E ∷ []) 2 ≡ 0 }
    ensures low_alone { mismatches_before (0xDC00 ∷ []) 1 ≡ 1 }
    ensures high_alone { mismatches_before (0xD834 ∷ 0x61 ∷ []) 2 ≡ 1 }
    ensures before_a_pair { mismatches_before (0xD800 ∷ 0xD834 ∷ 0xDD1E ∷ []) 3 ≡ 1 }
{}

/// Bytes that are not.
#[tactic(auto, unfolding(crate::proofs::OnLiterals::on_literals))]
pub fn bytes_that_are_not_utf8()
    ensures hello_world { lossy_utf8
        (0x48 ∷ 0x65 ∷ 0x6C ∷ 0x6C ∷ 0x6F ∷ 0x20 ∷ 0xF0 ∷ 0x90 ∷ 0x80
        ∷ 0x57 ∷ 0x6F ∷ 0x72 ∷ 0x6C ∷ 0x64 ∷ [])
        ≡ 0x48 ∷ 0x65 ∷ 0x6C ∷ 0x6C ∷ 0x6F ∷ 0x20 ∷ 0xFFFD
        ∷ 0x57 ∷ 0x6F ∷ 0x72 ∷ 0x6C ∷ 0x64 ∷ [] }
    ensures cut_short { lossy_utf8 (0xE2 ∷ 0x82 ∷ 0x41 ∷ []) ≡ 0xFFFD ∷ 0x41 ∷ [] }
    ensures overlong { lossy_utf8 (0xC0 ∷ 0x80 ∷ []) ≡ 0xFFFD ∷ 0xFFFD ∷ [] }
    ensures surrogate { lossy_utf8 (0xED ∷ 0xA0 ∷ 0x80 ∷ []) ≡ 0xFFFD ∷ 0xFFFD ∷ 0xFFFD ∷ [] }
    ensures ended { lossy_utf8 (0xF0 ∷ 0x9F ∷ 0x92 ∷ []) ≡ 0xFFFD ∷ [] }
    ensures no_first { lossy_utf8 (0x41 ∷ 0xFF ∷ 0x42 ∷ []) ≡ 0x41 ∷ 0xFFFD ∷ 0x42 ∷ [] }
    ensures passed_over { lossy_utf8_past 2 (0xE2 ∷ 0x82 ∷ 0x41 ∷ []) ≡ 0x41 ∷ [] }
    ensures passed_to_the_end { lossy_utf8_past 2 (0xE2 ∷ []) ≡ [] }
{}

/// How long the character is that begins some bytes, and the maximal subpart.
#[tactic(auto, unfolding(crate::proofs::OnLiterals::on_literals))]
pub fn fronts_of_bytes()
    ensures clef { char_len (0xF0 ∷ 0x9D ∷ 0x84 ∷ 0x9E ∷ 0x61 ∷ []) ≡ 4 }
    ensures euro { char_len (0xE2 ∷ 0x82 ∷ 0xAC ∷ 0x61 ∷ []) ≡ 3 }
    ensures accent { char_len (0xC3 ∷ 0xA9 ∷ 0x61 ∷ []) ≡ 2 }
    ensures letter { char_len (0x61 ∷ 0xA9 ∷ []) ≡ 1 }
    ensures cut_char { char_len (0xE2 ∷ 0x82 ∷ 0x41 ∷ []) ≡ 0 }
    ensures none { subpart_len [] ≡ 0 }
    ensures cut_short { subpart_len (0xE2 ∷ 0x82 ∷ 0x41 ∷ []) ≡ 2 }
    ensures ended { subpart_len (0xF0 ∷ 0x9F ∷ 0x92 ∷ []) ≡ 3 }
    ensures no_first { subpart_len (0xFF ∷ 0x80 ∷ []) ≡ 1 }
    ensures too_few { count_in ((0xA0, 0xBF) ∷ (0x80, 0xBF) ∷ []) (0xA0 ∷ []) ≡ 1 }
    ensures out_of_range { count_in ((0xA0, 0xBF) ∷ (0x80, 0xBF) ∷ []) (0x9F ∷ 0x80 ∷ []) ≡ 0 }
    ensures no_range { count_in [] (0x80 ∷ []) ≡ 0 }
{}

/// The table, by the first byte of a character, at the ends of each of its rows.
pub fn rows_of_the_table()
    ensures one { following 0x7F ≡ [] }
    ensures continuation { following 0xBF ≡ [] }
    ensures overlong { following 0xC1 ≡ [] }
    ensures two_first { following 0xC2 ≡ (0x80, 0xBF) ∷ [] }
    ensures two_last { following 0xDF ≡ (0x80, 0xBF) ∷ [] }
    ensures three_least { following 0xE0 ≡ (0xA0, 0xBF) ∷ (0x80, 0xBF) ∷ [] }
    ensures three_first { following 0xE1 ≡ (0x80, 0xBF) ∷ (0x80, 0xBF) ∷ [] }
    ensures three_mid { following 0xEC ≡ (0x80, 0xBF) ∷ (0x80, 0xBF) ∷ [] }
    ensures three_surrogates { following 0xED ≡ (0x80, 0x9F) ∷ (0x80, 0xBF) ∷ [] }
    ensures three_next { following 0xEE ≡ (0x80, 0xBF) ∷ (0x80, 0xBF) ∷ [] }
    ensures three_last { following 0xEF ≡ (0x80, 0xBF) ∷ (0x80, 0xBF) ∷ [] }
    ensures four_least { following 0xF0 ≡ (0x90, 0xBF) ∷ (0x80, 0xBF) ∷ (0x80, 0xBF) ∷ [] }
    ensures four_first { following 0xF1 ≡ (0x80, 0xBF) ∷ (0x80, 0xBF) ∷ (0x80, 0xBF) ∷ [] }
    ensures four_mid { following 0xF3 ≡ (0x80, 0xBF) ∷ (0x80, 0xBF) ∷ (0x80, 0xBF) ∷ [] }
    ensures four_last { following 0xF4 ≡ (0x80, 0x8F) ∷ (0x80, 0xBF) ∷ (0x80, 0xBF) ∷ [] }
    ensures past { following 0xF5 ≡ [] }
{}
