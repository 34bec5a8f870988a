//! Lemmas on runs of commands, over the definitions that the contracts of the runs cite.
ghost use Rattle.std.specs.Prelude.{◌≡◌, true, ◌≢◌, ◌↔◌, ℕ, ◌+◌, ◌*◌, ◌<◌, ◌≤◌, List, [], ◌∷◌, ◌++◌, Some, None, length, take, drop, map, slice_get, Contains};
ghost use Rattle.std.specs.Borrow.{Bor};
ghost use Rattle.std.specs.Str.{all_scalars, chars, IsUtf8};
ghost use Rattle.inlinable_string.specs.Text.{bytes_of, size, cut, IsCut, IsPlace, IsSplice, IsRemoval};
ghost use Rattle.inlinable_string.specs.State.{TextState, IsLawful};
ghost use Rattle.inlinable_string.specs.Edit.{Outcome, becomes, yields, reply_of, text_left, edit, text_after};
ghost use Rattle.inlinable_string.specs.Run.{need_of, IsLegal, LegalReplies, IsRun, EachRun, state_after_step, state_after, storage_after, credit, credit_after};
ghost use Rattle.inlinable_string.specs.Laws.{replies_of, text_after_edits, LeavesWithin, StaysWithin, PushesWithin, is_refusal};

use crate::run::{Command, Reply};
use crate::string_ext::Storage;

/// A text is determined by its bytes.
#[tactic(auto, using(crate::proofs::Text::same_bytes))]
pub fn texts_are_told_by_their_bytes()
    ensures { (t v : List ℕ) → all_scalars t ≡ true → bytes_of t ≡ bytes_of v → t ≡ v }
{}

/// `cut` finds the two parts of a text at each of its places, and nowhere else.
#[tactic(auto, using(crate::proofs::Edits::edits))]
pub fn cut_decides_places()
    ensures place { (t : List ℕ) (p : ℕ) (a b : List ℕ)
        → (cut t p ≡ Some (a, b)) ↔ IsCut t p a b }
    ensures none { (t : List ℕ) (p : ℕ) → (cut t p ≡ None) ↔ (¬ IsPlace t p) }
{}

/// An outcome is determined by its reply and by the text that it leaves.
pub fn outcomes_are_told_by_reply_and_text()
    ensures done { (t v : List ℕ) (o : Outcome)
        → (o ≡ becomes v) ↔ ((reply_of o ≡ Reply.Done) × (text_left t o ≡ v)) }
    ensures char { (t v : List ℕ) (c : ℕ) (o : Outcome)
        → (o ≡ yields c v) ↔ ((reply_of o ≡ Reply.Char c) × (text_left t o ≡ v)) }
    ensures other { (t : List ℕ) (o : Outcome) → reply_of o ≢ Reply.Done
        → ((c : ℕ) → reply_of o ≢ Reply.Char c) → text_left t o ≡ t }
{}

/// An insertion succeeds exactly if what it leaves is a splice.
pub fn insertions_are_splices()
    ensures character { (t v : List ℕ) (p c : ℕ)
        → (edit t (Command.Insert p c) ≡ becomes v) ↔ IsSplice t p (c ∷ []) v }
    ensures string { (t v : List ℕ) (p : ℕ) (u : Bor (List ℕ))
        → (edit t (Command.InsertStr p u) ≡ becomes v) ↔ IsSplice t p (chars u.now) v }
{}

/// `Truncate` keeps the text before a place.
pub fn truncations_are_cuts()
    ensures { (t v : List ℕ) (p : ℕ)
        → (edit t (Command.Truncate p) ≡ becomes v)
        ↔ ((rest : List ℕ) × IsCut t p v rest) }
{}

/// An insertion or a `Truncate` succeeds exactly at a place; elsewhere the reply is `BadPlace`.
#[tactic(auto, using(crate::proofs::Places::at_places))]
pub fn edits_are_done_at_places()
    ensures insert_done { (t : List ℕ) (p c : ℕ)
        → (reply_of (edit t (Command.Insert p c)) ≡ Reply.Done) ↔ IsPlace t p }
    ensures insert_str_done { (t : List ℕ) (p : ℕ) (u : Bor (List ℕ))
        → (reply_of (edit t (Command.InsertStr p u)) ≡ Reply.Done) ↔ IsPlace t p }
    ensures truncate_done { (t : List ℕ) (p : ℕ)
        → (reply_of (edit t (Command.Truncate p)) ≡ Reply.Done) ↔ IsPlace t p }
    ensures insert_refused { (t : List ℕ) (p c : ℕ)
        → (reply_of (edit t (Command.Insert p c)) ≡ Reply.BadPlace) ↔ (¬ IsPlace t p) }
    ensures insert_str_refused { (t : List ℕ) (p : ℕ) (u : Bor (List ℕ))
        → (reply_of (edit t (Command.InsertStr p u)) ≡ Reply.BadPlace) ↔ (¬ IsPlace t p) }
    ensures truncate_refused { (t : List ℕ) (p : ℕ)
        → (reply_of (edit t (Command.Truncate p)) ≡ Reply.BadPlace) ↔ (¬ IsPlace t p) }
{}

/// `Pop` removes the last character; only in the empty text there is none.
#[tactic(auto, using(crate::proofs::Edits::edits))]
pub fn pop_takes_off_the_last_character()
    ensures last { (t v : List ℕ) (c : ℕ)
        → (edit t Command.Pop ≡ yields c v) ↔ (t ≡ v ++ c ∷ []) }
    ensures none { (t : List ℕ) → (reply_of (edit t Command.Pop) ≡ Reply.NoChar) ↔ (t ≡ []) }
{}

/// `Remove` removes the character that begins at a place, and nothing else.
pub fn remove_is_a_removal()
    ensures { (t v : List ℕ) (p c : ℕ)
        → (edit t (Command.Remove p) ≡ yields c v) ↔ IsRemoval t p c v }
{}

/// `ReplaceBytes` succeeds exactly if the bytes have the text's length and are UTF-8; the length is
/// tested first.
pub fn replacement_has_the_bytes()
    ensures done { (t v : List ℕ) (b : Bor (List ℕ))
        → (edit t (Command.ReplaceBytes b) ≡ becomes v)
        ↔ ((length b.now ≡ size t) × IsUtf8 b.now × (bytes_of v ≡ b.now)) }
    ensures wrong_length { (t : List ℕ) (b : Bor (List ℕ))
        → (reply_of (edit t (Command.ReplaceBytes b)) ≡ Reply.WrongLength)
        ↔ (length b.now ≢ size t) }
    ensures not_utf8 { (t : List ℕ) (b : Bor (List ℕ))
        → (reply_of (edit t (Command.ReplaceBytes b)) ≡ Reply.NotUtf8)
        ↔ ((length b.now ≡ size t) × ¬ (IsUtf8 b.now)) }
{}

/// A growth that succeeds adds its bytes to those of the text.
#[tactic(auto, using(crate::proofs::Edits::growths))]
pub fn growths_add_their_bytes()
    ensures push { (t : List ℕ) (c : ℕ)
        → size (text_left t (edit t (Command.Push c))) ≡ size t + size (c ∷ []) }
    ensures push_str { (t : List ℕ) (u : Bor (List ℕ))
        → size (text_left t (edit t (Command.PushStr u))) ≡ size t + size (chars u.now) }
    ensures insert { (t : List ℕ) (p c : ℕ) → reply_of (edit t (Command.Insert p c)) ≡ Reply.Done
        → size (text_left t (edit t (Command.Insert p c))) ≡ size t + size (c ∷ []) }
    ensures insert_str { (t : List ℕ) (p : ℕ) (u : Bor (List ℕ))
        → reply_of (edit t (Command.InsertStr p u)) ≡ Reply.Done
        → size (text_left t (edit t (Command.InsertStr p u))) ≡ size t + size (chars u.now) }
{}

/// `Remove` after `Insert` at the same place returns the character and leaves the old text.
#[tactic(auto, using(crate::proofs::Edits::put_in_and_out))]
pub fn remove_undoes_insert()
    ensures { (t : List ℕ) (p c : ℕ) → IsPlace t p
        → edit (text_left t (edit t (Command.Insert p c))) (Command.Remove p) ≡ yields c t }
{}

/// Legal replies, read one at a time: each is that of `edit` on the text after the commands before
/// it, or `NoMemory` to a command that may allocate in the state after them.
pub fn each_reply_is_legal_in_its_turn()
    ensures count { (s : TextState) (commands : List Command) (replies : List Reply)
        → LegalReplies s commands replies → length replies ≡ length commands }
    ensures reply { (s : TextState) (commands : List Command) (replies : List Reply) (i : ℕ)
        (command : Command) (reply : Reply) → LegalReplies s commands replies
        → slice_get commands i ≡ Some command → slice_get replies i ≡ Some reply
        → IsLegal (state_after s (take i commands) (take i replies)) command reply }
    ensures text { (s : TextState) (commands : List Command) (replies : List Reply)
        → (state_after s commands replies).text ≡ text_after s.text commands replies }
{}

/// Many runs, read one at a time: the replies of text `i` are the `commands.len()` from
/// `i * commands.len()` on.
pub fn each_text_has_its_own_run()
    ensures run { (olds news : List TextState) (commands : List Command) (replies : List Reply)
        (i : ℕ) (old new : TextState) → EachRun olds commands replies news
        → slice_get olds i ≡ Some old → slice_get news i ≡ Some new
        → IsRun old commands (take (length commands) (drop (i * length commands) replies)) new }
    ensures reply { (commands : List Command) (replies : List Reply) (i j : ℕ)
        → j < length commands
        → slice_get (take (length commands) (drop (i * length commands) replies)) j
        ≡ slice_get replies (i * length commands + j) }
    ensures count { (olds news : List TextState) (commands : List Command)
        (replies : List Reply) → EachRun olds commands replies news
        → length news ≡ length olds }
{}

/// The places of the refusals determine the rest: for one text, storage and policy, whatever the
/// credits, replies with the same refusals are the same replies, and so are text and storage after
/// them.
#[tactic(auto, using(crate::proofs::RefusalsDecide::decided))]
pub fn refusals_determine_the_run()
    ensures replies { (s t : TextState) (commands : List Command) (replies others : List Reply)
        → s.text ≡ t.text → LegalReplies s commands replies → LegalReplies t commands others
        → map is_refusal replies ≡ map is_refusal others → replies ≡ others }
    ensures storage { (s t : TextState) (commands : List Command) (replies : List Reply)
        → s.text ≡ t.text → s.storage ≡ t.storage → s.policy ≡ t.policy
        → storage_after s commands replies ≡ storage_after t commands replies }
{}

/// Every reply but `Done` and `Char` leaves the text and its storage.
pub fn refusals_change_nothing()
    ensures text { (s : TextState) (command : Command) (reply : Reply)
        → IsLegal s command reply → reply ≢ Reply.Done → ((c : ℕ) → reply ≢ Reply.Char c)
        → (state_after_step s command reply).text ≡ s.text }
    ensures storage { (s : TextState) (command : Command) (reply : Reply)
        → reply ≢ Reply.Done → (state_after_step s command reply).storage ≡ s.storage }
{}

/// Short runs never ask: if the text is stored inline, and without failures neither the texts nor
/// what is reserved besides would pass the limit, no allocation fails, and it stays inline.
#[tactic(auto, using(crate::proofs::ShortRuns::short_runs))]
pub fn short_runs_never_ask()
    ensures replies { (s : TextState) (commands : List Command) (replies : List Reply)
        → IsLawful s → s.storage ≡ Storage.Inline
        → StaysWithin s.policy.limit s.text commands → LegalReplies s commands replies
        → ¬ Contains replies Reply.NoMemory }
    ensures storage { (s : TextState) (commands : List Command) (replies : List Reply)
        → IsLawful s → s.storage ≡ Storage.Inline
        → StaysWithin s.policy.limit s.text commands → LegalReplies s commands replies
        → storage_after s commands replies ≡ Storage.Inline }
{}

/// Runs without refusals are edits: if no allocation fails, the replies and the text are those of
/// one edit after the other, whatever its storage.
#[tactic(auto, using(crate::proofs::Unrefused::unrefused))]
pub fn unrefused_runs_are_edits()
    ensures replies { (s : TextState) (commands : List Command) (replies : List Reply)
        → LegalReplies s commands replies → ¬ Contains replies Reply.NoMemory
        → replies ≡ replies_of s.text commands }
    ensures text { (s : TextState) (commands : List Command) (replies : List Reply)
        → LegalReplies s commands replies → ¬ Contains replies Reply.NoMemory
        → text_after s.text commands replies ≡ text_after_edits s.text commands }
{}

/// Short runs are edits: the replies of plain edits are legal, no others are, and the text is that
/// of plain edits.
#[tactic(auto, using(crate::proofs::Unrefused::unrefused))]
pub fn short_runs_are_edits()
    ensures replies { (s : TextState) (commands : List Command) (replies : List Reply)
        → IsLawful s → s.storage ≡ Storage.Inline
        → StaysWithin s.policy.limit s.text commands
        → LegalReplies s commands replies ↔ (replies ≡ replies_of s.text commands) }
    ensures text { (s : TextState) (commands : List Command) (replies : List Reply)
        → IsLawful s → s.storage ≡ Storage.Inline
        → StaysWithin s.policy.limit s.text commands → LegalReplies s commands replies
        → text_after s.text commands replies ≡ text_after_edits s.text commands }
{}

/// A run stays within a limit exactly if each command does, on the text after those before it.
pub fn short_runs_are_short_at_each_command()
    ensures { (n : ℕ) (t : List ℕ) (commands : List Command) → StaysWithin n t commands
        ↔ ((i : ℕ) (command : Command) → slice_get commands i ≡ Some command
        → LeavesWithin n (text_after_edits t (take i commands)) command) }
{}

/// Reserved pushes never fail: pushes directly after a reservation that succeeded, or at the start
/// of a run on a value with capacity for them, cannot fail.
#[tactic(auto, using(crate::proofs::ReservedPushes::pushes))]
pub fn reserved_pushes_never_fail()
    ensures start { (s : TextState) (k : ℕ) (commands : List Command) (replies : List Reply)
        → PushesWithin k commands → size s.text + k ≤ s.capacity
        → LegalReplies s commands replies → ¬ Contains replies Reply.NoMemory }
    ensures anywhere { (s : TextState) (k : ℕ) (before pushes behind : List Command)
        (first replies last : List Reply) → PushesWithin k pushes
        → length before ≡ length first → length pushes ≡ length replies
        → LegalReplies s (before ++ (Command.Reserve k ∷ (pushes ++ behind)))
        (first ++ (Reply.Done ∷ (replies ++ last))) → ¬ Contains replies Reply.NoMemory }
    ensures exact_anywhere { (s : TextState) (k : ℕ) (before pushes behind : List Command)
        (first replies last : List Reply) → PushesWithin k pushes
        → length before ≡ length first → length pushes ≡ length replies
        → LegalReplies s (before ++ (Command.ReserveExact k ∷ (pushes ++ behind)))
        (first ++ (Reply.Done ∷ (replies ++ last))) → ¬ Contains replies Reply.NoMemory }
{}

/// Two runs join: the second goes on from the state that the first left.
#[tactic(auto, using(crate::proofs::RunsJoined::joined))]
pub fn runs_join()
    ensures text { (t : List ℕ) (first second : List Command) (replies others : List Reply)
        → length first ≡ length replies → text_after t (first ++ second) (replies ++ others)
        ≡ text_after (text_after t first replies) second others }
    ensures storage { (s : TextState) (first second : List Command)
        (replies others : List Reply) → length first ≡ length replies
        → storage_after s (first ++ second) (replies ++ others)
        ≡ storage_after (state_after s first replies) second others }
    ensures credit { (s : TextState) (first second : List Command)
        (replies others : List Reply) → length first ≡ length replies
        → credit_after s (first ++ second) (replies ++ others)
        ≡ credit_after (state_after s first replies) second others }
    ensures legal { (s : TextState) (first second : List Command) (replies others : List Reply)
        → LegalReplies s first replies → LegalReplies (state_after s first replies) second others
        → LegalReplies s (first ++ second) (replies ++ others) }
    ensures parted { (s : TextState) (first second : List Command) (replies others : List Reply)
        → length first ≡ length replies → LegalReplies s (first ++ second) (replies ++ others)
        → LegalReplies s first replies × LegalReplies (state_after s first replies) second others }
{}

/// One run after another of one value is a run of both lists: the second may find more credit than
/// the first left for certain, and what is legal with more is legal with less.
pub fn a_second_run_goes_on()
    ensures { (old mid new : TextState) (first second : List Command)
        (replies others : List Reply) → IsRun old first replies mid
        → IsRun mid second others new
        → IsRun old (first ++ second) (replies ++ others) new }
{}
