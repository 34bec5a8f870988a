//! What the words name, and the lines of an input.
ghost use Rattle.std.specs.Prelude.{◌≡◌, ◌+◌, ◌≤◌, ◌∷◌, ◌++◌, [], true, false, Some, None, codes, map};
ghost use Rattle.std.specs.String.{string_bytes};
ghost use Rattle.inlinable_string.specs.State.{Policy, TextState};
ghost use Rattle.script_language.specs.Script.{bytes_left, lines_left, lines_of, policy_of, room_of, word_of_start, IsMade, IsNamed};
ghost use Rattle.script_language.specs.declared.input.TheConstants.{MOST_BYTES};
ghost use Rattle.script_language.specs.declared.start.Start.{Start};

use crate::start::Start;
use inlinable_string::Storage;

/// The word of each start.
pub fn words_of_starts()
    ensures inline { word_of_start Start.Inline ≡ codes "inline" }
    ensures string { word_of_start Start.String ≡ codes "string" }
    ensures heap { word_of_start Start.Heap ≡ codes "heap" }
    ensures inline0 { word_of_start Start.Inline0 ≡ codes "inline0" }
    ensures inline8 { word_of_start Start.Inline8 ≡ codes "inline8" }
{}

/// Each word alone names its start.
pub fn words_that_name(words: &[String])
    ensures inline { map string_bytes words.now ≡ codes "inline" ∷ []
        → IsNamed words.now Start.Inline }
    ensures string { map string_bytes words.now ≡ codes "string" ∷ []
        → IsNamed words.now Start.String }
    ensures heap { map string_bytes words.now ≡ codes "heap" ∷ [] → IsNamed words.now Start.Heap }
    ensures inline0 { map string_bytes words.now ≡ codes "inline0" ∷ []
        → IsNamed words.now Start.Inline0 }
    ensures inline8 { map string_bytes words.now ≡ codes "inline8" ∷ []
        → IsNamed words.now Start.Inline8 }
{}

/// No word, two words, and a word in capitals name none.
pub fn words_that_name_nothing(words: &[String])
    ensures none { (start : Start) → map string_bytes words.now ≡ [] → ¬ (IsNamed words.now start) }
    ensures two { (start : Start) → map string_bytes words.now ≡ codes "heap" ∷ codes "heap" ∷ []
        → ¬ (IsNamed words.now start) }
    ensures capital { (start : Start) → map string_bytes words.now ≡ codes "Heap" ∷ []
        → ¬ (IsNamed words.now start) }
{}

/// The greatest number of bytes that are stored inline, and whether shrinking moves a text back.
pub fn policies_of_starts()
    ensures inline { policy_of Start.Inline ≡ record { demotes = true; limit = 30 } }
    ensures string { (policy_of Start.String).demotes ≡ false }
    ensures heap { policy_of Start.Heap ≡ record { demotes = true; limit = 30 } }
    ensures inline0 { policy_of Start.Inline0 ≡ record { demotes = true; limit = 0 } }
    ensures inline8 { policy_of Start.Inline8 ≡ record { demotes = true; limit = 8 } }
{}

/// Only `heap` is made with room.
pub fn rooms_of_starts()
    ensures inline { room_of Start.Inline ≡ 0 }
    ensures string { room_of Start.String ≡ 0 }
    ensures heap { room_of Start.Heap ≡ 31 }
    ensures inline0 { room_of Start.Inline0 ≡ 0 }
    ensures inline8 { room_of Start.Inline8 ≡ 0 }
{}

/// Each start is the empty text.
pub fn starts_are_empty()
    ensures { (start : Start) (s : TextState) → IsMade start s → s.text ≡ [] }
{}

/// The storage of each start.
pub fn storages_of_starts()
    ensures inline { (s : TextState) → IsMade Start.Inline s → s.storage ≡ Storage.Inline }
    ensures string { (s : TextState) → IsMade Start.String s → s.storage ≡ Storage.Heap }
    ensures heap { (s : TextState) → IsMade Start.Heap s → s.storage ≡ Storage.Heap }
    ensures inline0 { (s : TextState) → IsMade Start.Inline0 s → s.storage ≡ Storage.Inline }
    ensures inline8 { (s : TextState) → IsMade Start.Inline8 s → s.storage ≡ Storage.Inline }
{}

/// What each start has of its policy and its room.
pub fn starts_keep_their_policy_and_room()
    ensures inline { (s : TextState) → IsMade Start.Inline s → s.policy.limit ≡ 30 }
    ensures string { (s : TextState) → IsMade Start.String s → s.policy.demotes ≡ false }
    ensures heap { (s : TextState) → IsMade Start.Heap s → s.policy.limit ≡ 30 }
    ensures inline0 { (s : TextState) → IsMade Start.Inline0 s → s.policy.limit ≡ 0 }
    ensures inline8 { (s : TextState) → IsMade Start.Inline8 s → s.policy.limit ≡ 8 }
    ensures room { (s : TextState) → IsMade Start.Heap s → 31 ≤ s.capacity }
{}

/// A line feed ends a line, and begins the next; a carriage return belongs to its line.
pub fn lines_of_inputs()
    ensures empty { lines_of [] ≡ [] ∷ [] }
    ensures one { lines_of (codes "pop") ≡ codes "pop" ∷ [] }
    ensures ended { lines_of (codes "pop\n") ≡ codes "pop" ∷ [] ∷ [] }
    ensures three { lines_of (codes "pop\n\nclear") ≡ codes "pop" ∷ [] ∷ codes "clear" ∷ [] }
    ensures feeds { lines_of (10 ∷ 10 ∷ []) ≡ [] ∷ [] ∷ [] ∷ [] }
    ensures carriage { lines_of (codes "pop" ++ 13 ∷ 10 ∷ [])
        ≡ (codes "pop" ++ 13 ∷ []) ∷ [] ∷ [] }
    ensures most { MOST_BYTES ≡ 65536 }
{}

/// What is left of an input has its own lines, and one byte more than it: the line feed before it.
pub fn rest_of_an_input(text: &str)
    requires text { text.now ≡ codes "pop\n" }
    ensures none { lines_left None ≡ [] }
    ensures no_byte { bytes_left None ≡ 0 }
    ensures lines { lines_left (Some text.entry) ≡ codes "pop" ∷ [] ∷ [] }
    ensures bytes { bytes_left (Some text.entry) ≡ 5 }
{}
