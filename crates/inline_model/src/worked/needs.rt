//! What commands need of a text's capacity, and when that is met.
ghost use Rattle.std.specs.Prelude.{◌≡◌, ◌∷◌, [], List, ℕ, true, false};
ghost use Rattle.std.specs.Str.{chars};
ghost use Rattle.inlinable_string.specs.Text.{size};
ghost use Rattle.inlinable_string.specs.State.{TextState};
ghost use Rattle.inlinable_string.specs.Run.{need_of, at_end, anywhere, reserved, tight, no_room, AsksMemory, IsMet, IsCounted, credit_when_met, storage_when_met};
ghost use Rattle.inline_model.specs.Worked.{inline_text, heap_text, heap_only_text};

use inlinable_string::Storage;
use inlinable_string::run::{Command, Reply};

/// A growth needs the bytes that it adds, of which € has three.
#[tactic(auto, unfolding(crate::proofs::OnLiterals::on_literals))]
pub fn needs_of_growths(string: &str)
    requires { size (chars string.now) ≡ 5 }
    ensures push { need_of (Command.Push 8364) ≡ at_end 3 }
    ensures push_str { need_of (Command.PushStr string.entry) ≡ at_end 5 }
    ensures insert { (p : ℕ) → need_of (Command.Insert p 8364) ≡ anywhere 3 }
    ensures insert_str { (p : ℕ) → need_of (Command.InsertStr p string.entry) ≡ anywhere 5 }
{}

/// A reservation needs what it reserves, and shrinking no more than the text.
pub fn needs_of_room()
    ensures reserve { need_of (Command.Reserve 100) ≡ reserved 100 }
    ensures exact { need_of (Command.ReserveExact 100) ≡ reserved 100 }
    ensures shrink { need_of Command.ShrinkToFit ≡ tight }
{}

/// No other command needs room.
pub fn needs_of_cuts(bytes: &[u8])
    ensures truncate { (p : ℕ) → need_of (Command.Truncate p) ≡ no_room }
    ensures pop { need_of Command.Pop ≡ no_room }
    ensures remove { (p : ℕ) → need_of (Command.Remove p) ≡ no_room }
    ensures clear { need_of Command.Clear ≡ no_room }
    ensures replace { need_of (Command.ReplaceBytes bytes.entry) ≡ no_room }
{}

/// A command that needs room may ask for memory, also for none, unless its place is bad; one that
/// needs no room may not.
#[tactic(auto, unfolding(crate::proofs::OnLiterals::on_literals))]
pub fn commands_that_need_room_ask()
    ensures push { (t : List ℕ) → AsksMemory t (Command.Push 97) }
    ensures reserve { (t : List ℕ) → AsksMemory t (Command.Reserve 0) }
    ensures shrink { (t : List ℕ) → AsksMemory t Command.ShrinkToFit }
    ensures insert { AsksMemory (233 ∷ []) (Command.Insert 2 97) }
    ensures bad_place { ¬ AsksMemory (233 ∷ []) (Command.Insert 1 97) }
    ensures truncate { (t : List ℕ) → ¬ AsksMemory t (Command.Truncate 0) }
    ensures clear { (t : List ℕ) → ¬ AsksMemory t Command.Clear }
{}

/// Of 30 inline bytes 26 are taken, whatever the credit: four more fit at any place, and five don't
/// without credit.
pub fn inline_room_meets_needs()
    ensures push { (s : TextState) → s.storage ≡ Storage.Inline → s.policy.limit ≡ 30
        → size s.text ≡ 26 → IsMet s (at_end 4) }
    ensures push_missed { (t : List ℕ) → size t ≡ 26 → ¬ IsMet (inline_text t 30) (at_end 5) }
    ensures insert { (s : TextState) → s.storage ≡ Storage.Inline → s.policy.limit ≡ 30
        → size s.text ≡ 26 → IsMet s (anywhere 4) }
    ensures insert_missed { (t : List ℕ) → size t ≡ 26 → ¬ IsMet (inline_text t 30) (anywhere 5) }
    ensures reserve { (s : TextState) → s.storage ≡ Storage.Inline → s.policy.limit ≡ 30
        → size s.text ≡ 26 → IsMet s (reserved 4) }
    ensures reserve_missed { (t : List ℕ) → size t ≡ 26
        → ¬ IsMet (inline_text t 30) (reserved 5) }
{}

/// On the heap ten bytes of 40 are taken: 30 more at the end have room, and nothing else is
/// certain of any.
pub fn heap_room_meets_pushes()
    ensures push { (t : List ℕ) → size t ≡ 10 → IsMet (heap_text t 40) (at_end 30) }
    ensures push_missed { (t : List ℕ) → size t ≡ 10 → ¬ IsMet (heap_text t 40) (at_end 31) }
    ensures insert { (t : List ℕ) → size t ≡ 10 → ¬ IsMet (heap_text t 40) (anywhere 1) }
    ensures reserve { (t : List ℕ) → size t ≡ 10 → ¬ IsMet (heap_text t 40) (reserved 1) }
{}

/// With a limit of 30, a text of 30 bytes moves back, one of 31 does not, and none does under a
/// policy that doesn't demote.
pub fn inline_room_meets_shrinking()
    ensures met { (t : List ℕ) → size t ≡ 30 → IsMet (heap_text t 40) tight }
    ensures missed { (t : List ℕ) → size t ≡ 31 → ¬ IsMet (heap_text t 40) tight }
    ensures heap_only { ¬ IsMet (heap_only_text [] 40) tight }
{}

/// What needs nothing is met.
pub fn nothing_is_met()
    ensures { (s : TextState) → IsMet s no_room }
{}

/// With one byte, `usize::MAX - 1` more may be reserved, and no more; what does not succeed, or
/// reserves nothing, is not counted.
pub fn reserved_bytes_are_counted()
    ensures met { (s : TextState) → size s.text ≡ 1
        → IsCounted s (reserved 18446744073709551614) Reply.Done }
    ensures missed { (s : TextState) → size s.text ≡ 1
        → ¬ IsCounted s (reserved 18446744073709551615) Reply.Done }
    ensures refused { (s : TextState) → size s.text ≡ 1
        → IsCounted s (reserved 18446744073709551615) Reply.NoMemory }
    ensures push { (s : TextState) → size s.text ≡ 1
        → IsCounted s (at_end 18446744073709551615) Reply.Done }
{}

/// Of a credit of 100 bytes a push takes its own, also those that it lacks; a reservation sets it,
/// and what else is met ends it.
pub fn credit_once_a_need_is_met()
    ensures push { credit_when_met 100 (at_end 30) ≡ 70 }
    ensures all { credit_when_met 100 (at_end 101) ≡ 0 }
    ensures insert { credit_when_met 100 (anywhere 30) ≡ 0 }
    ensures reserve { credit_when_met 100 (reserved 30) ≡ 30 }
    ensures shrink { credit_when_met 100 tight ≡ 0 }
    ensures other { credit_when_met 100 no_room ≡ 0 }
{}

/// Of 30 inline bytes 26 are taken: with four more bytes the text stays, with five more it moves to
/// the heap; from there only shrinking moves it.
pub fn storage_once_a_need_is_met()
    ensures push { (t : List ℕ) → size t ≡ 26
        → storage_when_met (inline_text t 30) (at_end 5) ≡ Storage.Heap }
    ensures insert { (t : List ℕ) → size t ≡ 26
        → storage_when_met (inline_text t 30) (anywhere 4) ≡ Storage.Inline }
    ensures reserve { (t : List ℕ) → size t ≡ 26
        → storage_when_met (inline_text t 30) (reserved 4) ≡ Storage.Inline }
    ensures shrink { (t : List ℕ) → size t ≡ 26
        → storage_when_met (heap_text t 40) tight ≡ Storage.Inline }
    ensures other { (t : List ℕ) → size t ≡ 26
        → storage_when_met (heap_text t 40) no_room ≡ Storage.Heap }
    ensures heap { (t : List ℕ) → storage_when_met (heap_text t 40) (at_end 0) ≡ Storage.Heap }
{}
