//! What holds of every value, and where texts are stored that are made, grown or shrunk.
ghost use Rattle.std.specs.Prelude.{◌≡◌, ◌∷◌, [], List, ℕ, true, false};
ghost use Rattle.std.specs.Str.{all_scalars};
ghost use Rattle.inlinable_string.specs.Text.{size};
ghost use Rattle.inlinable_string.specs.State.{TextState, IsLawful, IsSameText, HasRoom, HasInlineRoom, is_inline, storage_with_room, storage_when_shrunk, storage_when_made};
ghost use Rattle.inlinable_string.specs.StringValues.{heap_policy};
ghost use Rattle.inlinable_string.specs.Values.{inlinable_policy};
ghost use Rattle.inline_model.specs.Worked.{inline_text, heap_text, heap_only_text};

use inlinable_string::Storage;

/// With a limit of 30 bytes, capacity for 30 is made inline, and for 31 on the heap.
pub fn room_for_30_bytes_is_made_inline()
    ensures inline { storage_when_made (inlinable_policy 30) 30 ≡ Storage.Inline }
    ensures heap { storage_when_made (inlinable_policy 30) 31 ≡ Storage.Heap }
{}

/// Under a policy that has no text inline, room for any number of bytes is made on the heap.
pub fn heap_texts_are_made_on_the_heap()
    ensures policy { (n : ℕ) → storage_when_made heap_policy n ≡ Storage.Heap }
    ensures demotes { heap_policy.demotes ≡ false }
{}

/// Of 30 inline bytes 26 are taken: with capacity for four more the text stays there, and for five
/// more it moves to the heap; from the heap it does not move back by getting capacity.
pub fn text_with_more_room()
    ensures inline { (t : List ℕ) → size t ≡ 26
        → storage_with_room (inline_text t 30) 4 ≡ Storage.Inline }
    ensures past { (t : List ℕ) → size t ≡ 26
        → storage_with_room (inline_text t 30) 5 ≡ Storage.Heap }
    ensures heap { (t : List ℕ) → storage_with_room (heap_text t 40) 0 ≡ Storage.Heap }
{}

/// With a limit of 30, shrinking moves 30 bytes back, and 31 not; an inline text stays, and one of
/// a policy that doesn't demote stays on the heap.
pub fn text_with_less_room()
    ensures back { (t : List ℕ) → size t ≡ 30
        → storage_when_shrunk (heap_text t 40) ≡ Storage.Inline }
    ensures past { (t : List ℕ) → size t ≡ 31
        → storage_when_shrunk (heap_text t 40) ≡ Storage.Heap }
    ensures inline { (t : List ℕ) → storage_when_shrunk (inline_text t 30) ≡ Storage.Inline }
    ensures heap_only { storage_when_shrunk (heap_only_text [] 40) ≡ Storage.Heap }
{}

/// `Inline` is inline, and `Heap` is not.
pub fn inline_is_inline()
    ensures inline { is_inline Storage.Inline ≡ true }
    ensures heap { is_inline Storage.Heap ≡ false }
{}

/// Texts up to their capacity are lawful, inline and on the heap, and so is a capacity of
/// `usize::MAX`.
pub fn full_texts_are_lawful()
    ensures inline { (t : List ℕ) → all_scalars t ≡ true → size t ≡ 30
        → IsLawful (inline_text t 30) }
    ensures heap { (t : List ℕ) → all_scalars t ≡ true → size t ≡ 40
        → IsLawful (heap_text t 40) }
    ensures heap_only { (t : List ℕ) → all_scalars t ≡ true → size t ≡ 40
        → IsLawful (heap_only_text t 40) }
    ensures much_room { IsLawful (heap_text [] 18446744073709551615) }
{}

/// The scalar values are those up to U+10FFFF without the surrogates U+D800 to U+DFFF.
#[tactic(auto, unfolding(crate::proofs::OnLiterals::on_literals))]
pub fn texts_of_scalars_are_lawful()
    ensures before_surrogates { IsLawful (heap_text (55295 ∷ []) 3) }
    ensures first_surrogate { (n : ℕ) → ¬ IsLawful (heap_text (55296 ∷ []) n) }
    ensures last_surrogate { (n : ℕ) → ¬ IsLawful (heap_text (57343 ∷ []) n) }
    ensures after_surrogates { IsLawful (heap_text (57344 ∷ []) 3) }
    ensures last { IsLawful (heap_text (1114111 ∷ []) 4) }
    ensures past_the_last { (n : ℕ) → ¬ IsLawful (heap_text (1114112 ∷ []) n) }
{}

/// No value has more bytes than room, or more room than a `usize` can count.
pub fn texts_past_their_room_are_unlawful()
    ensures inline { (t : List ℕ) → size t ≡ 31 → ¬ IsLawful (inline_text t 30) }
    ensures heap { (t : List ℕ) → size t ≡ 41 → ¬ IsLawful (heap_text t 40) }
    ensures much_room { (s : TextState) → s.capacity ≡ 18446744073709551616 → ¬ IsLawful s }
{}

/// No text is stored inline with another capacity than the limit of its policy, or under a policy
/// that does not demote.
pub fn inline_texts_have_their_limit()
    ensures more { (s : TextState) → s.storage ≡ Storage.Inline → s.policy.limit ≡ 30
        → s.capacity ≡ 31 → ¬ IsLawful s }
    ensures less { (s : TextState) → s.storage ≡ Storage.Inline → s.policy.limit ≡ 30
        → s.capacity ≡ 29 → ¬ IsLawful s }
    ensures stays { (s : TextState) → s.storage ≡ Storage.Inline → s.policy.demotes ≡ false
        → ¬ IsLawful s }
{}

/// The text and its storage tell whether a value still holds the same, and its room does not.
pub fn same_text_in_other_room()
    ensures room { (t : List ℕ) → IsSameText (heap_text t 40) (heap_text t 50) }
    ensures text { ¬ IsSameText (heap_text [] 40) (heap_text (97 ∷ []) 40) }
    ensures storage { (t : List ℕ) → ¬ IsSameText (inline_text t 30) (heap_text t 30) }
{}

/// Of 40 bytes of room 26 are taken: 14 more have room, and 15 have not.
pub fn room_for_14_bytes()
    ensures met { (s : TextState) → s.capacity ≡ 40 → size s.text ≡ 26 → HasRoom s 14 }
    ensures missed { (s : TextState) → s.capacity ≡ 40 → size s.text ≡ 26 → ¬ HasRoom s 15 }
{}

/// Of 30 inline bytes 26 are taken: four more fit there, five don't, and on the heap none does.
pub fn inline_room_for_four_bytes()
    ensures met { (t : List ℕ) → size t ≡ 26 → HasInlineRoom (inline_text t 30) 4 }
    ensures missed { (t : List ℕ) → size t ≡ 26 → ¬ HasInlineRoom (inline_text t 30) 5 }
    ensures heap { (t : List ℕ) → ¬ HasInlineRoom (heap_text t 40) 0 }
{}
