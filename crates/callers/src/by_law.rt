//! Lists of commands. Where the outcome is stated in other words than those of `run`, the body
//! calls the law that has these words.
ghost use Rattle.std.specs.Prelude.{◌≡◌, ◌↔◌, ℕ, ◌+◌, ◌*◌, ◌<◌, List, ◌++◌, [], ◌∷◌, Some, None, length, take, drop, map, slice_get, vec_len, Contains, IsSome, IsTrue, IsUtf8, IfOk, IfErr, OnOk, OnErr};
ghost use Rattle.std.specs.Str.{chars};
ghost use Rattle.inlinable_string.specs.Text.{bytes_of, size, cut, IsPlace, IsSplice, IsRemoval};
ghost use Rattle.inlinable_string.specs.State.{HasInlineRoom, IsSameText};
ghost use Rattle.inlinable_string.specs.Edit.{text_after};
ghost use Rattle.inlinable_string.specs.Run.{EachRun, state_after};
ghost use Rattle.inlinable_string.specs.Laws.{replies_of, text_after_edits, LeavesWithin, StaysWithin, is_refusal};
ghost use Rattle.inlinable_string.specs.Values.{inlinable_state};

use inlinable_string::laws::{
    cut_decides_places, cuts_are_at_places, each_reply_is_legal_in_its_turn,
    each_text_has_its_own_run, edits_are_done_at_places, growths_add_their_bytes,
    insertions_are_splices, outcomes_are_told_by_reply_and_text, pop_takes_off_the_last_character,
    refusals_change_nothing, refusals_determine_the_run, remove_is_a_removal, remove_undoes_insert,
    replacement_has_the_bytes, reserved_pushes_never_fail, runs_join, short_runs_are_edits,
    short_runs_are_short_at_each_command, short_runs_never_ask, sizes_of_parts,
    texts_are_told_by_their_bytes, unrefused_runs_are_edits,
};
use inlinable_string::run::{Command, Reply, run, run_dyn, run_each};
use inlinable_string::{InlinableString, InlinableStringN, Storage, StringExt};
use std::alloc::{AllocError, Global};

/// Whether two texts of any types have the same characters.
pub fn is_same_text<S: StringExt, T: StringExt>(a: &S, b: &T) -> bool
    ensures { IsTrue result ↔ ((S.state a.now).text ≡ (T.state b.now).text) }
{
    texts_are_told_by_their_bytes();
    let _ = a.len();
    a.eq_str(b.as_str())
}

/// Whether a text can be cut there, in the words of `cut`.
pub fn has_parts<S: StringExt>(text: &S, place: usize) -> bool
    ensures parts { IsTrue result ↔ IsSome (cut (S.state text.now).text place) }
    ensures none { ¬ (IsTrue result) → cut (S.state text.now).text place ≡ None }
{
    cuts_are_at_places();
    cut_decides_places();
    text.is_char_boundary(place)
}

/// Gives one command. One that is refused changes nothing, a push adds the bytes of its character,
/// a removal takes out the character that is returned, and a replacement leaves its bytes.
pub fn obeyed<S: StringExt>(text: &mut S, command: Command) -> Reply
    ensures refused { result ≡ Reply.NoMemory → IsSameText (S.state text.old) (S.state text.new) }
    ensures pushed { (c : ℕ) → command.entry ≡ Command.Push c → result ≡ Reply.Done
        → size (S.state text.new).text ≡ size (S.state text.old).text + size (c ∷ []) }
    ensures removed { (p c : ℕ) → command.entry ≡ Command.Remove p → result ≡ Reply.Char c
        → IsRemoval (S.state text.old).text p c (S.state text.new).text }
    ensures replaced { (bytes : _) → command.entry ≡ Command.ReplaceBytes bytes
        → result ≡ Reply.Done → (bytes_of (S.state text.new).text ≡ bytes.now)
        × IsUtf8 bytes.now × (length bytes.now ≡ size (S.state text.old).text) }
{
    refusals_change_nothing();
    growths_add_their_bytes();
    remove_is_a_removal();
    replacement_has_the_bytes();
    outcomes_are_told_by_reply_and_text();
    let mut replies = [Reply::NoMemory; 1];
    run(text, &[command], &mut replies);
    replies[0]
}

/// Puts a character in by a run.
pub fn insert_by_run<S: StringExt>(text: &mut S, place: usize, ch: char) -> Reply
    ensures put { result ≡ Reply.Done
        → IsSplice (S.state text.old).text place (ch ∷ []) (S.state text.new).text }
    ensures no_place { result ≡ Reply.BadPlace → ¬ (IsPlace (S.state text.old).text place) }
{
    insertions_are_splices();
    outcomes_are_told_by_reply_and_text();
    edits_are_done_at_places();
    let mut replies = [Reply::NoMemory; 1];
    run(text, &[Command::Insert(place, ch)], &mut replies);
    replies[0]
}

/// Puts a character in at a place and takes it out again: the text is as before.
pub fn flash_by_run<S: StringExt>(text: &mut S, place: usize, ch: char) -> Reply
    requires { IsPlace (S.state text.old).text place }
    ensures { result ≡ Reply.Done → (S.state text.new).text ≡ (S.state text.old).text }
{
    remove_undoes_insert();
    let mut replies = [Reply::NoMemory; 2];
    run(
        text,
        &[Command::Insert(place, ch), Command::Remove(place)],
        &mut replies,
    );
    replies[0]
}

/// A run that stays within the limit: no allocation fails, and the replies are those of edits.
pub fn short_run(text: &mut InlinableString, commands: &[Command], replies: &mut [Reply])
    requires count { length replies.old ≡ length commands.now }
    requires inline { (inlinable_state 30 text.old).storage ≡ Storage.Inline }
    requires short { StaysWithin 30 (inlinable_state 30 text.old).text commands.now }
    ensures granted { ¬ Contains replies.new Reply.NoMemory }
    ensures storage { (inlinable_state 30 text.new).storage ≡ Storage.Inline }
    ensures replies { replies.new ≡ replies_of (inlinable_state 30 text.old).text commands.now }
    ensures text { (inlinable_state 30 text.new).text
        ≡ text_after_edits (inlinable_state 30 text.old).text commands.now }
{
    short_runs_never_ask();
    short_runs_are_edits();
    let _ = text.len();
    run(text, commands, replies);
}

/// A run of which each command stays within the limit, on the text after those before it.
pub fn run_of_short_steps(text: &mut InlinableString, commands: &[Command], replies: &mut [Reply])
    requires count { length replies.old ≡ length commands.now }
    requires inline { (inlinable_state 30 text.old).storage ≡ Storage.Inline }
    requires short { (i : ℕ) (command : Command) → slice_get commands.now i ≡ Some command
        → LeavesWithin 30
        (text_after_edits (inlinable_state 30 text.old).text (take i commands.now)) command }
    ensures granted { ¬ Contains replies.new Reply.NoMemory }
    ensures text { (inlinable_state 30 text.new).text
        ≡ text_after_edits (inlinable_state 30 text.old).text commands.now }
{
    short_runs_are_short_at_each_command();
    short_run(text, commands, replies);
}

/// Any run: where no reply is `NoMemory`, the text is that of edits.
pub fn whole_run<S: StringExt>(text: &mut S, commands: &[Command], replies: &mut [Reply])
    requires { length replies.old ≡ length commands.now }
    ensures edits { ¬ (Contains replies.new Reply.NoMemory) → (S.state text.new).text
        ≡ text_after_edits (S.state text.old).text commands.now }
    ensures count { length replies.new ≡ length commands.now }
    ensures state { (state_after (S.state text.old) commands.now replies.new).text
        ≡ (S.state text.new).text }
{
    unrefused_runs_are_edits();
    each_reply_is_legal_in_its_turn();
    run(text, commands, replies);
}

/// The same commands on two texts of the same characters: if allocations fail at the same commands,
/// the replies are the same.
pub fn run_side_by_side<S: StringExt, T: StringExt>(
    text: &mut S,
    other: &mut T,
    commands: &[Command],
    replies: &mut [Reply],
    others: &mut [Reply],
)
    requires texts { (S.state text.old).text ≡ (T.state other.old).text }
    requires first { length replies.old ≡ length commands.now }
    requires second { length others.old ≡ length commands.now }
    ensures { map is_refusal replies.new ≡ map is_refusal others.new → replies.new ≡ others.new }
{
    refusals_determine_the_run();
    run(text, commands, replies);
    run(other, commands, others);
}

/// Commands before a move to another capacity, and commands after it, have the text of one list.
pub fn run_move_run<const N: usize, const M: usize>(
    text: InlinableStringN<N>,
    first: &[Command],
    second: &[Command],
    replies: &mut [Reply],
    others: &mut [Reply],
) -> Result<InlinableStringN<M>, InlinableStringN<N>>
    requires first { length replies.old ≡ length first.now }
    requires second { length others.old ≡ length second.now }
    ensures text { IfOk result (λ moved. (inlinable_state M moved).text
        ≡ text_after (inlinable_state N text.entry).text (first.now ++ second.now)
        (replies.new ++ others.new)) }
    ensures err { IfErr result (λ kept. (inlinable_state N kept).text
        ≡ text_after (inlinable_state N text.entry).text first.now replies.new) }
{
    runs_join();
    let mut text = text;
    run(&mut text, first, replies);
    let mut moved = text.with_limit::<M>()?;
    run(&mut moved, second, others);
    Ok(moved)
}

/// Appends two letters by commands, to a `dyn`.
pub fn letters_by_run(text: &mut dyn StringExt) -> bool
    ensures done { IsTrue result → (state text.new).text ≡ (state text.old).text ++ 97 ∷ 98 ∷ [] }
    ensures granted { HasInlineRoom (state text.old) 2 → IsTrue result }
{
    sizes_of_parts();
    let mut replies = [Reply::NoMemory; 2];
    run_dyn(
        text,
        &[Command::Push('a'), Command::Push('b')],
        &mut replies,
    );
    replies == [Reply::Done, Reply::Done]
}

/// The last character is in the reply, or the text was empty.
pub fn pop_by_run(text: &mut InlinableString) -> Reply
    ensures none { (result ≡ Reply.NoChar) ↔ ((inlinable_state 30 text.old).text ≡ []) }
    ensures taken { (c : ℕ) → result ≡ Reply.Char c
        → (inlinable_state 30 text.old).text ≡ (inlinable_state 30 text.new).text ++ c ∷ [] }
    ensures last { (front : List ℕ) (c : ℕ)
        → (inlinable_state 30 text.old).text ≡ front ++ c ∷ []
        → (result ≡ Reply.Char c) × ((inlinable_state 30 text.new).text ≡ front) }
{
    pop_takes_off_the_last_character();
    let mut replies = [Reply::NoMemory; 1];
    run(text, &[Command::Pop], &mut replies);
    replies[0]
}

/// Appending a text after a reservation cannot fail.
pub fn add_by_run<S: StringExt>(text: &mut S, part: &str) -> bool
    ensures done { IsTrue result
        → (S.state text.new).text ≡ (S.state text.old).text ++ chars part.now }
    ensures granted { HasInlineRoom (S.state text.old) (length part.now) → IsTrue result }
{
    sizes_of_parts();
    reserved_pushes_never_fail();
    let mut replies = [Reply::NoMemory; 2];
    run(
        text,
        &[Command::Reserve(part.len()), Command::PushStr(part)],
        &mut replies,
    );
    replies[0] == Reply::Done
}

/// Empties each text, or none where there is no memory for the replies.
pub fn clear_all(
    alloc: Global,
    texts: &mut Vec<Box<dyn StringExt + Drop>>,
) -> Result<(), AllocError>
    ensures count { vec_len texts.new ≡ vec_len texts.old }
    ensures runs { OnOk result ((replies : List Reply)
        × EachRun (map state texts.old.items) (Command.Clear ∷ []) replies
        (map state texts.new.items)) }
    ensures err { OnErr result (texts.new ≡ texts.old) }
{
    let mut replies: Vec<Reply> = Vec::new(alloc);
    replies.resize(texts.len(), Reply::NoMemory)?;
    run_each(texts, &[Command::Clear], &mut replies);
    Ok(())
}

/// The reply of one of many texts to one of the commands: it is among the text's own replies.
pub fn reply_of_one(commands: &[Command], replies: &[Reply], text: usize, command: usize) -> Reply
    requires command { command < length commands.now }
    requires reply { text * length commands.now + command < length replies.now }
    ensures { slice_get (take (length commands.now)
        (drop (text * length commands.now) replies.now)) command ≡ Some result }
{
    each_text_has_its_own_run();
    replies[text * commands.len() + command]
}
