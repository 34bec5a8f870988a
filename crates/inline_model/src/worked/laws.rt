//! The words of the laws: runs without refusals, runs that stay within a limit, and pushes within a
//! reservation.
ghost use Rattle.std.specs.Prelude.{◌≡◌, ◌∷◌, [], List, ℕ, true, false};
ghost use Rattle.std.specs.Str.{chars};
ghost use Rattle.inlinable_string.specs.Text.{size};
ghost use Rattle.inlinable_string.specs.Run.{at_end, anywhere, reserved, tight, no_room};
ghost use Rattle.inlinable_string.specs.Laws.{replies_of, text_after_edits, ReservesWithin, LeavesWithin, StaysWithin, PushesWithin, is_refusal};
ghost use Rattle.inline_model.specs.Worked.{four_edits};

use inlinable_string::run::{Command, Reply};

/// é is put at the end of "a"; a cut at 2 is inside it, the a is taken out, and then the é is taken
/// off.
#[tactic(auto, unfolding(crate::proofs::OnLiterals::on_literals))]
pub fn four_edits_in_turn()
    ensures replies { replies_of (97 ∷ []) four_edits
        ≡ Reply.Done ∷ Reply.BadPlace ∷ Reply.Char 97 ∷ Reply.Char 233 ∷ [] }
    ensures text { text_after_edits (97 ∷ []) four_edits ≡ [] }
{}

/// Beside three bytes 27 may be reserved within 30, and 28 may not.
pub fn reservation_of_27_bytes_is_within()
    ensures met { (t : List ℕ) → size t ≡ 3 → ReservesWithin 30 t (reserved 27) }
    ensures missed { (t : List ℕ) → size t ≡ 3 → ¬ ReservesWithin 30 t (reserved 28) }
{}

/// Whatever else is needed reserves nothing.
pub fn other_needs_reserve_nothing()
    ensures push { (t : List ℕ) → ReservesWithin 0 t (at_end 1) }
    ensures insert { (t : List ℕ) → ReservesWithin 0 t (anywhere 1) }
    ensures shrink { (t : List ℕ) → ReservesWithin 0 t tight }
    ensures other { (t : List ℕ) → ReservesWithin 0 t no_room }
{}

/// What a command leaves counts, and what it reserves beside the text before it.
#[tactic(auto, unfolding(crate::proofs::OnLiterals::on_literals))]
pub fn one_command_leaves_within()
    ensures met { LeavesWithin 3 [] (Command.Push 8364) }
    ensures missed { ¬ LeavesWithin 2 [] (Command.Push 8364) }
    ensures cleared { (t : List ℕ) → LeavesWithin 0 t Command.Clear }
    ensures reserved { (t : List ℕ) → size t ≡ 3 → LeavesWithin 30 t (Command.Reserve 27) }
    ensures passed { (t : List ℕ) → size t ≡ 3 → ¬ LeavesWithin 30 t (Command.Reserve 28) }
{}

/// From the empty text 30 bytes at the end stay within 30.
pub fn thirty_bytes_stay_within(string: &str)
    requires { size (chars string.now) ≡ 30 }
    ensures met { StaysWithin 30 [] (Command.PushStr string.entry ∷ []) }
    ensures missed { ¬ StaysWithin 29 [] (Command.PushStr string.entry ∷ []) }
{}

/// What is reserved counts: 30 bytes beside no text, and not 31.
pub fn reserved_bytes_stay_within()
    ensures met { StaysWithin 30 [] (Command.Reserve 30 ∷ []) }
    ensures missed { ¬ StaysWithin 30 [] (Command.Reserve 31 ∷ []) }
    ensures exact { StaysWithin 30 [] (Command.ReserveExact 30 ∷ []) }
{}

/// Each text of a run counts, except the one that it starts from: the second command leaves four
/// bytes, though the third would leave fewer.
#[tactic(auto, unfolding(crate::proofs::OnLiterals::on_literals))]
pub fn each_text_stays_within()
    ensures met { StaysWithin 4 [] (Command.Push 8364 ∷ Command.Push 97 ∷ Command.Pop ∷ []) }
    ensures missed { ¬ StaysWithin 3 []
        (Command.Push 8364 ∷ Command.Push 97 ∷ Command.Pop ∷ []) }
    ensures none { (t : List ℕ) → StaysWithin 0 t [] }
{}

/// Ten bytes at the end are within ten, alone or with pushes of nothing, and not with another byte.
pub fn ten_bytes_are_within(string: &str)
    requires { size (chars string.now) ≡ 10 }
    ensures met { PushesWithin 10 (Command.PushStr string.entry ∷ []) }
    ensures missed { ¬ PushesWithin 9 (Command.PushStr string.entry ∷ []) }
    ensures one_more { ¬ PushesWithin 10 (Command.PushStr string.entry ∷ Command.Push 97 ∷ []) }
{}

/// Two pushes of three bytes each are within six.
#[tactic(auto, unfolding(crate::proofs::OnLiterals::on_literals))]
pub fn two_pushes_are_within()
    ensures met { PushesWithin 6 (Command.Push 8364 ∷ Command.Push 8364 ∷ []) }
    ensures missed { ¬ PushesWithin 5 (Command.Push 8364 ∷ Command.Push 8364 ∷ []) }
{}

/// Commands other than pushes are not within any number, also where they add nothing; no commands
/// are within each.
#[tactic(auto, unfolding(crate::proofs::OnLiterals::on_literals))]
pub fn pushes_alone_are_within()
    ensures none { PushesWithin 0 [] }
    ensures push { PushesWithin 3 (Command.Push 8364 ∷ []) }
    ensures pop { (k : ℕ) → ¬ PushesWithin k (Command.Pop ∷ []) }
    ensures insert { (k : ℕ) → ¬ PushesWithin k (Command.Insert 0 97 ∷ []) }
    ensures reserve { (k : ℕ) → ¬ PushesWithin k (Command.Reserve 0 ∷ []) }
{}

/// Want of memory is a refusal of memory, and no other reply is.
pub fn want_of_memory_is_a_refusal()
    ensures no_memory { is_refusal Reply.NoMemory ≡ true }
    ensures done { is_refusal Reply.Done ≡ false }
    ensures char { is_refusal (Reply.Char 97) ≡ false }
    ensures no_char { is_refusal Reply.NoChar ≡ false }
    ensures bad_place { is_refusal Reply.BadPlace ≡ false }
    ensures not_utf8 { is_refusal Reply.NotUtf8 ≡ false }
    ensures wrong_length { is_refusal Reply.WrongLength ≡ false }
{}
